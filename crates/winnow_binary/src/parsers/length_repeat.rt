//! The parser of a count and of that number of values: `length_repeat`.

ghost use Rattle.std.specs.Prelude.{◌≡◌};
ghost use Rattle.winnow_parser.specs.Answer.{ahead};
ghost use Rattle.winnow_parser.specs.Errors.{FlatMapErrors};
ghost use Rattle.winnow_binary.specs.Lengths.{IsNumber, LengthRepeats, TimesErrors};
ghost use Rattle.winnow_binary.specs.Lengths.{IsParser-LengthRepeats};

use crate::Length;
use std::alloc::Global;
use std::marker::PhantomData;
use winnow_combinator::repeat;
use winnow_count::Accumulate;
use winnow_error::ParserError;
use winnow_parser::{ModalResult, Parser};
use winnow_stream::StreamIsPartial;

/// A parser of a count, and then of that number of values; [`length_repeat`] makes it.
#[derive(Drop)]
#[derive_where(Clone, Copy; P, Q)]
pub struct LengthRepeat<P, Q, A> {
    length: P,
    inner: Q,
    gathers: PhantomData<A>,
}

/// Returns the parser of a count, and then of that number of values of the inner parser, which it
/// gathers in an `A`. Memory is asked for as values come, never for the count.
///
/// It cuts where the inner parser gives a value and takes nothing. Where a value is missing,
/// `append` records in the inner parser's error that this one failed.
pub fn length_repeat<P, Q, A>(length: P, inner: Q) -> LengthRepeat<P, Q, A>
    ensures length { result.length ≡ length }
    ensures inner { result.inner ≡ inner }
{
    LengthRepeat {
        length,
        inner,
        gathers: PhantomData,
    }
}

impl<I: StreamIsPartial, E: ParserError<I>, P: Parser<I, E>, Q: Parser<I, E>, A> Parser<I, E>
    for LengthRepeat<P, Q, A>
where
    P::Output: Length,
    Q::Output: Drop,
    A: Accumulate<Q::Output> + Drop,
{
    type Output = A;

    ghost means = { λ p. LengthRepeats P.Output.number A.refusable E.append_refusable
        (λ values whole. A.holds whole values) (P.means p.length) (Q.means p.inner) };

    ghost errors = { λ p. FlatMapErrors (IsNumber P.Output.number)
        (TimesErrors (ahead I.Checkpoint.location I.remained) E.append_gives E.assert_gives
        (Q.means p.inner) (Q.errors p.inner)) (P.means p.length) (P.errors p.length) };

    ghost ready = { λ p. P.ready p.length × Q.ready p.inner };

    ghost lawful = { λ p. IsParser-LengthRepeats P.Output.number A.refusable E.append_refusable
        (λ values whole. A.holds whole values) (P.means p.length) (Q.means p.inner)
        (P.lawful p.length) (Q.lawful p.inner) };

    fn parse_next(&self, alloc: Global, input: &mut I) -> ModalResult<A, E> {
        let count = self.length.parse_next(alloc, input)?;
        let count = count.length();
        match repeat::<_, A, _>(count, &self.inner).parse_next(alloc, input) {
            Ok(values) => Ok(values),
            Err(failure) => Err(failure),
        }
    }
}
