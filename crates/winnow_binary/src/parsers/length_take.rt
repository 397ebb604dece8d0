//! The parser of a count and of the slice of that number of tokens: `length_take`.

ghost use Rattle.std.specs.Prelude.{◌≡◌};
ghost use Rattle.winnow_parser.specs.Errors.{OwnErrors, PairErrors};
ghost use Rattle.winnow_binary.specs.Lengths.{LengthTakes, IsParser-LengthTakes};

use crate::Length;
use std::alloc::Global;
use winnow_error::ParserError;
use winnow_parser::{ModalResult, Parser};
use winnow_stream::StreamIsPartial;
use winnow_token::take;

/// A parser of a count, and then of the slice of that number of tokens; [`length_take`] makes it.
#[derive(Clone, Copy, Drop)]
pub struct LengthTake<P> {
    length: P,
}

/// Returns the parser of a count, and then of the slice of that number of tokens.
pub fn length_take<P>(length: P) -> LengthTake<P>
    ensures { result ≡ record { length = length } }
{
    LengthTake { length }
}

impl<I: StreamIsPartial, E: ParserError<I>, P: Parser<I, E>> Parser<I, E> for LengthTake<P>
where
    P::Output: Length,
{
    type Output = I::Slice;

    ghost means = { λ p.
        LengthTakes P.Output.number I.counts_shortage I.is_slice (P.means p.length) };

    ghost errors = { λ p. PairErrors (P.means p.length) (P.errors p.length)
        (OwnErrors E.from_input_gives E.assert_gives) };

    ghost ready = { λ p. P.ready p.length };

    ghost lawful = { λ p. IsParser-LengthTakes P.Output.number I.counts_shortage I.is_slice
        I.slices_stay (P.means p.length) (P.lawful p.length) };

    fn parse_next(&self, alloc: Global, input: &mut I) -> ModalResult<I::Slice, E> {
        let count = self.length.parse_next(alloc, input)?;
        let count = count.length();
        match take(count).parse_next(alloc, input) {
            Ok(slice) => Ok(slice),
            Err(failure) => Err(failure),
        }
    }
}
