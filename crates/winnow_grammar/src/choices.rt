//! The spellings of `alt` of two and three, `opt`, `empty`, `cut_err` and `backtrack_err`.

ghost use Rattle.winnow_grammar.specs.Spellings.{NoToken, Or, Or3, Perhaps};
ghost use Rattle.winnow_grammar.specs.Spelled.{spelled-Or, spelled-Perhaps, spelled-Returns};
ghost use Rattle.winnow_grammar.specs.Spelled.{spelled-CutsErr, spelled-BacktracksErr};
ghost use Rattle.winnow_grammar.specs.SpelledChoices.{spelled-Or3};

use crate::Spells;
use winnow_combinator::{Alt, BacktrackErr, CutErr, Empty, Opt};
use winnow_error::ParserError;
use winnow_stream::StreamIsPartial;

impl<
    I: StreamIsPartial,
    E: ParserError<I>,
    A: Spells<I, E>,
    B: Spells<I, E, Output = A::Output>,
> Spells<I, E> for Alt<(A, B)> {
    ghost spells = { λ p. Or (A.spells p.list.0) (B.spells p.list.1) };

    ghost spelled = { λ p. spelled-Or E.or_refusable (A.spells p.list.0) (B.spells p.list.1)
        (A.means p.list.0) (B.means p.list.1)
        (A.spelled p.list.0) (B.spelled p.list.1) };
}

impl<
    I: StreamIsPartial,
    E: ParserError<I>,
    A: Spells<I, E>,
    B: Spells<I, E, Output = A::Output>,
    C: Spells<I, E, Output = A::Output>,
> Spells<I, E> for Alt<(A, B, C)> {
    ghost spells = { λ p. Or3 (A.spells p.list.0) (B.spells p.list.1) (C.spells p.list.2) };

    ghost spelled = { λ p. spelled-Or3 E.or_refusable (A.spells p.list.0) (B.spells p.list.1)
        (C.spells p.list.2) (A.means p.list.0) (B.means p.list.1) (C.means p.list.2)
        (A.spelled p.list.0) (B.spelled p.list.1) (C.spelled p.list.2) };
}

impl<I: StreamIsPartial, E: Drop, P: Spells<I, E>> Spells<I, E> for Opt<P> {
    ghost spells = { λ p. Perhaps (P.spells p.inner) };

    ghost spelled = { λ p. spelled-Perhaps (P.spells p.inner) (P.means p.inner)
        (P.spelled p.inner) };
}

impl<I: StreamIsPartial, E> Spells<I, E> for Empty {
    ghost spells = { λ _. NoToken };

    ghost spelled = { λ _. spelled-Returns tt };
}

impl<I: StreamIsPartial, E, P: Spells<I, E>> Spells<I, E> for CutErr<P> {
    ghost spells = { λ p. P.spells p.inner };

    ghost spelled = { λ p. spelled-CutsErr (P.spells p.inner) (P.means p.inner)
        (P.spelled p.inner) };
}

impl<I: StreamIsPartial, E, P: Spells<I, E>> Spells<I, E> for BacktrackErr<P> {
    ghost spells = { λ p. P.spells p.inner };

    ghost spelled = { λ p. spelled-BacktracksErr (P.spells p.inner) (P.means p.inner)
        (P.spelled p.inner) };
}
