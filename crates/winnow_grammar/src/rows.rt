//! The spellings of tuples to five, of `preceded` and of `terminated`.

ghost use Rattle.winnow_grammar.specs.Spellings.{Then, After, Before};
ghost use Rattle.winnow_grammar.specs.Spelled.{spelled-Then, spelled-After, spelled-Before};
ghost use Rattle.winnow_grammar.specs.SpellingRows.{Then3, Then4, Then5};
ghost use Rattle.winnow_grammar.specs.SpelledRows.{spelled-Then3, spelled-Then4, spelled-Then5};

use crate::Spells;
use winnow_combinator::{Preceded, Terminated};
use winnow_stream::StreamIsPartial;

impl<I: StreamIsPartial, E, A: Spells<I, E>, B: Spells<I, E>> Spells<I, E> for (A, B)
where
    A::Output: Drop,
{
    ghost spells = { λ p. Then (A.spells p.0) (B.spells p.1) };

    ghost spelled = { λ p. spelled-Then (A.spells p.0) (B.spells p.1) (A.means p.0) (B.means p.1)
        (A.spelled p.0)
        (B.spelled p.1) };
}

impl<I: StreamIsPartial, E, A: Spells<I, E>, B: Spells<I, E>, C: Spells<I, E>> Spells<I, E>
    for (A, B, C)
where
    A::Output: Drop,
    B::Output: Drop,
{
    ghost spells = { λ p. Then3 (A.spells p.0) (B.spells p.1) (C.spells p.2) };

    ghost spelled = { λ p. spelled-Then3 (A.spells p.0) (B.spells p.1) (C.spells p.2) (A.means p.0)
        (B.means p.1) (C.means p.2)
        (A.spelled p.0) (B.spelled p.1) (C.spelled p.2) };
}

impl<
    I: StreamIsPartial,
    E,
    A: Spells<I, E>,
    B: Spells<I, E>,
    C: Spells<I, E>,
    D: Spells<I, E>,
> Spells<I, E> for (A, B, C, D)
where
    A::Output: Drop,
    B::Output: Drop,
    C::Output: Drop,
{
    ghost spells = { λ p. Then4 (A.spells p.0) (B.spells p.1) (C.spells p.2) (D.spells p.3) };

    ghost spelled = { λ p. spelled-Then4 (A.spells p.0) (B.spells p.1) (C.spells p.2)
        (D.spells p.3) (A.means p.0) (B.means p.1) (C.means p.2) (D.means p.3) (A.spelled p.0)
        (B.spelled p.1) (C.spelled p.2) (D.spelled p.3) };
}

impl<
    I: StreamIsPartial,
    E,
    A: Spells<I, E>,
    B: Spells<I, E>,
    C: Spells<I, E>,
    D: Spells<I, E>,
    F: Spells<I, E>,
> Spells<I, E> for (A, B, C, D, F)
where
    A::Output: Drop,
    B::Output: Drop,
    C::Output: Drop,
    D::Output: Drop,
{
    ghost spells = { λ p. Then5 (A.spells p.0) (B.spells p.1) (C.spells p.2) (D.spells p.3)
        (F.spells p.4) };

    ghost spelled = { λ p. spelled-Then5 (A.spells p.0) (B.spells p.1) (C.spells p.2)
        (D.spells p.3) (F.spells p.4) (A.means p.0) (B.means p.1) (C.means p.2) (D.means p.3)
        (F.means p.4) (A.spelled p.0) (B.spelled p.1) (C.spelled p.2)
        (D.spelled p.3) (F.spelled p.4) };
}

impl<I: StreamIsPartial, E, A: Spells<I, E>, B: Spells<I, E>> Spells<I, E> for Preceded<A, B>
where
    A::Output: Drop,
{
    ghost spells = { λ p. After (A.spells p.first) (B.spells p.second) };

    ghost spelled = { λ p. spelled-After (A.spells p.first) (B.spells p.second) (A.means p.first)
        (B.means p.second)
        (A.spelled p.first) (B.spelled p.second) };
}

impl<I: StreamIsPartial, E, A: Spells<I, E>, B: Spells<I, E>> Spells<I, E> for Terminated<A, B>
where
    A::Output: Drop,
    B::Output: Drop,
{
    ghost spells = { λ p. Before (A.spells p.first) (B.spells p.second) };

    ghost spelled = { λ p. spelled-Before (A.spells p.first) (B.spells p.second) (A.means p.first)
        (B.means p.second)
        (A.spelled p.first) (B.spelled p.second) };
}
