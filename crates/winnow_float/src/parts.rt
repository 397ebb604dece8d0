//! Parts of a float: `Digits` and `Word`.

ghost use Rattle.std.specs.Prelude.{None};
ghost use Rattle.winnow_parser.specs.Errors.{OwnErrors};
ghost use Rattle.winnow_token.specs.TakeWhile.{IsParser-TakesWhile};
ghost use Rattle.winnow_float.specs.Marks.{is_digit, IsDigits};
ghost use Rattle.winnow_float.specs.Word.{IsWord, WordErrors, IsParser-IsWord};

use std::alloc::Global;
use winnow_error::ParserError;
use winnow_parser::{Failure, ModalResult, Parser};
use winnow_sets::AsChar;
use winnow_stream::StreamIsPartial;
use winnow_token::take_while;

// A parser of all digits ahead, if there are at least this number of them.
#[derive(Clone, Copy)]
pub(crate) struct Digits {
    pub(crate) least: usize,
}

impl<I: StreamIsPartial, E: ParserError<I>> Parser<I, E> for Digits
where
    I::Token: AsChar,
{
    type Output = I::Slice;

    ghost means = { λ p. IsDigits I.is_slice I.Token.code p.least };

    ghost errors = { λ _. OwnErrors E.from_input_gives E.assert_gives };

    ghost ready = { λ _. Unit {0} };

    ghost lawful = { λ p. IsParser-TakesWhile I.is_slice I.slices_stay
        (λ token. is_digit (I.Token.code token)) p.least None };

    fn parse_next(&self, alloc: Global, input: &mut I) -> ModalResult<I::Slice, E> {
        take_while(self.least.., '0'..='9').parse_next(alloc, input)
    }
}

// A parser of letters in a row. If one is missing, it goes back to the first.
#[derive(Clone, Copy)]
pub(crate) struct Word<P> {
    pub(crate) letters: P,
}

impl<I: StreamIsPartial, E: ParserError<I>, P: Parser<I, E>> Parser<I, E> for Word<P>
where
    P::Output: Drop,
{
    type Output = ();

    ghost means = { λ p. IsWord (P.means p.letters) };

    ghost errors = { λ p. WordErrors E.from_input_gives (P.errors p.letters) };

    ghost ready = { λ p. P.ready p.letters };

    ghost lawful = { λ p. IsParser-IsWord (P.lawful p.letters) };

    fn parse_next(&self, alloc: Global, input: &mut I) -> ModalResult<(), E> {
        let start = input.checkpoint();
        match self.letters.parse_next(alloc, input) {
            Ok(_) => Ok(()),
            Err(Failure::Backtrack(_)) => {
                input.reset(&start);
                Err(Failure::Backtrack(E::from_input(alloc, input)))
            }
            Err(Failure::Cut(error)) => Err(Failure::Cut(error)),
            Err(Failure::Incomplete(needed)) => Err(Failure::Incomplete(needed)),
            Err(Failure::Refused(refused)) => Err(Failure::Refused(refused)),
        }
    }
}
