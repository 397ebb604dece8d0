//! The spellings of `literal`, `take`, `take_until`, `take()` and `with_taken()`.

ghost use Rattle.winnow_count.specs.CountRange.{least_count, greatest_count};
ghost use Rattle.winnow_parser.specs.Literal.{IsLiteral};
ghost use Rattle.winnow_parser.specs.Meanings.{IsAlways};
ghost use Rattle.winnow_grammar.specs.Spelled.{spelled-MadeOf};
ghost use Rattle.winnow_grammar.specs.Spellings.{MadeOf, Covered, Exactly, UntilHit};
ghost use Rattle.winnow_grammar.specs.Spellings.{SliceOver, WithSlice};
ghost use Rattle.winnow_grammar.specs.SpelledSlices.{spelled-Covered, spelled-Exactly};
ghost use Rattle.winnow_grammar.specs.SpelledSlices.{spelled-UntilHit, spelled-SliceOver};
ghost use Rattle.winnow_grammar.specs.SpelledSlices.{spelled-WithSlice};

use crate::Spells;
use winnow_error::ParserError;
use winnow_match::{Compare, FindSlice};
use winnow_parser::{Taken, WithTaken};
use winnow_stream::StreamIsPartial;
use winnow_token::{Literal, Take, TakeUntil};

impl<I: Compare<T> + StreamIsPartial, E: ParserError<I>, T: Copy> Spells<I, E> for Literal<T> {
    ghost spells = { λ p. Covered I.is_slice (I.compared p.text) };

    ghost spelled = { λ p. spelled-Covered I.is_slice (I.compared p.text) };
}

impl<I: Compare<char> + StreamIsPartial, E: ParserError<I>> Spells<I, E> for char
where
    I::Slice: Drop,
{
    ghost spells = { λ p. MadeOf (IsAlways p) (Covered I.is_slice (I.compared p)) };

    ghost spelled = { λ p. spelled-MadeOf (IsAlways p)
        (Covered I.is_slice (I.compared p)) (IsLiteral I.is_slice (I.compared p))
        (spelled-Covered I.is_slice (I.compared p)) };
}

impl<I: Compare<u8> + StreamIsPartial, E: ParserError<I>> Spells<I, E> for u8
where
    I::Slice: Drop,
{
    ghost spells = { λ p. MadeOf (IsAlways p) (Covered I.is_slice (I.compared p)) };

    ghost spelled = { λ p. spelled-MadeOf (IsAlways p)
        (Covered I.is_slice (I.compared p)) (IsLiteral I.is_slice (I.compared p))
        (spelled-Covered I.is_slice (I.compared p)) };
}

impl<'l, I: Compare<&'l str> + StreamIsPartial, E: ParserError<I>> Spells<I, E> for &'l str {
    ghost spells = { λ p. Covered I.is_slice (I.compared p) };

    ghost spelled = { λ p. spelled-Covered I.is_slice (I.compared p) };
}

impl<'l, I: Compare<&'l [u8]> + StreamIsPartial, E: ParserError<I>> Spells<I, E> for &'l [u8] {
    ghost spells = { λ p. Covered I.is_slice (I.compared p) };

    ghost spelled = { λ p. spelled-Covered I.is_slice (I.compared p) };
}

impl<I: StreamIsPartial, E: ParserError<I>> Spells<I, E> for Take {
    ghost spells = { λ p. Exactly I.is_slice p.count };

    ghost spelled = { λ p. spelled-Exactly I.is_slice I.counts_shortage p.count };
}

impl<I: FindSlice<T> + StreamIsPartial, E: ParserError<I>, T: Copy> Spells<I, E> for TakeUntil<T> {
    ghost spells = { λ p. UntilHit I.is_slice
        (I.found p.literal) (least_count p.counts) (greatest_count p.counts) };

    ghost spelled = { λ p. spelled-UntilHit I.is_slice
        (I.found p.literal) (least_count p.counts) (greatest_count p.counts) };
}

impl<I: StreamIsPartial, E, P: Spells<I, E>> Spells<I, E> for Taken<P, I, E>
where
    P::Output: Drop,
{
    ghost spells = { λ p. SliceOver I.is_slice (P.spells p.inner) };

    ghost spelled = { λ p. spelled-SliceOver I.is_slice (P.spells p.inner) (P.means p.inner)
        (P.spelled p.inner) };
}

impl<I: StreamIsPartial, E, P: Spells<I, E>> Spells<I, E> for WithTaken<P, I, E> {
    ghost spells = { λ p. WithSlice I.is_slice (P.spells p.inner) };

    ghost spelled = { λ p. spelled-WithSlice I.is_slice (P.spells p.inner) (P.means p.inner)
        (P.spelled p.inner) };
}
