//! The spellings of `alt` of four to ten parsers.

ghost use Rattle.winnow_grammar.specs.Spellings.{Or4, Or5, Or6, Or7, Or8, Or9, Or10};
ghost use Rattle.winnow_grammar.specs.SpelledChoices.{spelled-Or4, spelled-Or5, spelled-Or6};
ghost use Rattle.winnow_grammar.specs.SpelledChoices.{spelled-Or7, spelled-Or8, spelled-Or9};
ghost use Rattle.winnow_grammar.specs.SpelledChoices.{spelled-Or10};

use crate::Spells;
use winnow_combinator::Alt;
use winnow_error::ParserError;
use winnow_stream::StreamIsPartial;

impl<
    I: StreamIsPartial,
    E: ParserError<I>,
    A: Spells<I, E>,
    B: Spells<I, E, Output = A::Output>,
    C: Spells<I, E, Output = A::Output>,
    D: Spells<I, E, Output = A::Output>,
> Spells<I, E> for Alt<(A, B, C, D)> {
    ghost spells = { λ p. Or4 (A.spells p.list.0) (B.spells p.list.1) (C.spells p.list.2)
        (D.spells p.list.3) };

    ghost spelled = { λ p. spelled-Or4 E.or_refusable (A.spells p.list.0) (B.spells p.list.1)
        (C.spells p.list.2) (D.spells p.list.3) (A.means p.list.0) (B.means p.list.1)
        (C.means p.list.2) (D.means p.list.3) (A.spelled p.list.0) (B.spelled p.list.1)
        (C.spelled p.list.2) (D.spelled p.list.3) };
}

impl<
    I: StreamIsPartial,
    E: ParserError<I>,
    A: Spells<I, E>,
    B: Spells<I, E, Output = A::Output>,
    C: Spells<I, E, Output = A::Output>,
    D: Spells<I, E, Output = A::Output>,
    F: Spells<I, E, Output = A::Output>,
> Spells<I, E> for Alt<(A, B, C, D, F)> {
    ghost spells = { λ p. Or5 (A.spells p.list.0) (B.spells p.list.1) (C.spells p.list.2)
        (D.spells p.list.3) (F.spells p.list.4) };

    ghost spelled = { λ p. spelled-Or5 E.or_refusable (A.spells p.list.0) (B.spells p.list.1)
        (C.spells p.list.2) (D.spells p.list.3) (F.spells p.list.4) (A.means p.list.0)
        (B.means p.list.1) (C.means p.list.2) (D.means p.list.3) (F.means p.list.4)
        (A.spelled p.list.0) (B.spelled p.list.1) (C.spelled p.list.2) (D.spelled p.list.3)
        (F.spelled p.list.4) };
}

impl<
    I: StreamIsPartial,
    E: ParserError<I>,
    A: Spells<I, E>,
    B: Spells<I, E, Output = A::Output>,
    C: Spells<I, E, Output = A::Output>,
    D: Spells<I, E, Output = A::Output>,
    F: Spells<I, E, Output = A::Output>,
    G: Spells<I, E, Output = A::Output>,
> Spells<I, E> for Alt<(A, B, C, D, F, G)> {
    ghost spells = { λ p. Or6 (A.spells p.list.0) (B.spells p.list.1) (C.spells p.list.2)
        (D.spells p.list.3) (F.spells p.list.4) (G.spells p.list.5) };

    ghost spelled = { λ p. spelled-Or6 E.or_refusable (A.spells p.list.0) (B.spells p.list.1)
        (C.spells p.list.2) (D.spells p.list.3) (F.spells p.list.4) (G.spells p.list.5)
        (A.means p.list.0) (B.means p.list.1) (C.means p.list.2) (D.means p.list.3)
        (F.means p.list.4) (G.means p.list.5) (A.spelled p.list.0) (B.spelled p.list.1)
        (C.spelled p.list.2) (D.spelled p.list.3) (F.spelled p.list.4) (G.spelled p.list.5) };
}

impl<
    I: StreamIsPartial,
    E: ParserError<I>,
    A: Spells<I, E>,
    B: Spells<I, E, Output = A::Output>,
    C: Spells<I, E, Output = A::Output>,
    D: Spells<I, E, Output = A::Output>,
    F: Spells<I, E, Output = A::Output>,
    G: Spells<I, E, Output = A::Output>,
    H: Spells<I, E, Output = A::Output>,
> Spells<I, E> for Alt<(A, B, C, D, F, G, H)> {
    ghost spells = { λ p. Or7 (A.spells p.list.0) (B.spells p.list.1) (C.spells p.list.2)
        (D.spells p.list.3) (F.spells p.list.4) (G.spells p.list.5) (H.spells p.list.6) };

    ghost spelled = { λ p. spelled-Or7 E.or_refusable (A.spells p.list.0) (B.spells p.list.1)
        (C.spells p.list.2) (D.spells p.list.3) (F.spells p.list.4) (G.spells p.list.5)
        (H.spells p.list.6) (A.means p.list.0) (B.means p.list.1) (C.means p.list.2)
        (D.means p.list.3) (F.means p.list.4) (G.means p.list.5) (H.means p.list.6)
        (A.spelled p.list.0) (B.spelled p.list.1) (C.spelled p.list.2) (D.spelled p.list.3)
        (F.spelled p.list.4) (G.spelled p.list.5) (H.spelled p.list.6) };
}

impl<
    I: StreamIsPartial,
    E: ParserError<I>,
    A: Spells<I, E>,
    B: Spells<I, E, Output = A::Output>,
    C: Spells<I, E, Output = A::Output>,
    D: Spells<I, E, Output = A::Output>,
    F: Spells<I, E, Output = A::Output>,
    G: Spells<I, E, Output = A::Output>,
    H: Spells<I, E, Output = A::Output>,
    J: Spells<I, E, Output = A::Output>,
> Spells<I, E> for Alt<(A, B, C, D, F, G, H, J)> {
    ghost spells = { λ p. Or8 (A.spells p.list.0) (B.spells p.list.1) (C.spells p.list.2)
        (D.spells p.list.3) (F.spells p.list.4) (G.spells p.list.5) (H.spells p.list.6)
        (J.spells p.list.7) };

    ghost spelled = { λ p. spelled-Or8 E.or_refusable (A.spells p.list.0) (B.spells p.list.1)
        (C.spells p.list.2) (D.spells p.list.3) (F.spells p.list.4) (G.spells p.list.5)
        (H.spells p.list.6) (J.spells p.list.7) (A.means p.list.0) (B.means p.list.1)
        (C.means p.list.2) (D.means p.list.3) (F.means p.list.4) (G.means p.list.5)
        (H.means p.list.6) (J.means p.list.7) (A.spelled p.list.0) (B.spelled p.list.1)
        (C.spelled p.list.2) (D.spelled p.list.3) (F.spelled p.list.4) (G.spelled p.list.5)
        (H.spelled p.list.6) (J.spelled p.list.7) };
}

impl<
    I: StreamIsPartial,
    E: ParserError<I>,
    A: Spells<I, E>,
    B: Spells<I, E, Output = A::Output>,
    C: Spells<I, E, Output = A::Output>,
    D: Spells<I, E, Output = A::Output>,
    F: Spells<I, E, Output = A::Output>,
    G: Spells<I, E, Output = A::Output>,
    H: Spells<I, E, Output = A::Output>,
    J: Spells<I, E, Output = A::Output>,
    K: Spells<I, E, Output = A::Output>,
> Spells<I, E> for Alt<(A, B, C, D, F, G, H, J, K)> {
    ghost spells = { λ p. Or9 (A.spells p.list.0) (B.spells p.list.1) (C.spells p.list.2)
        (D.spells p.list.3) (F.spells p.list.4) (G.spells p.list.5) (H.spells p.list.6)
        (J.spells p.list.7) (K.spells p.list.8) };

    ghost spelled = { λ p. spelled-Or9 E.or_refusable (A.spells p.list.0) (B.spells p.list.1)
        (C.spells p.list.2) (D.spells p.list.3) (F.spells p.list.4) (G.spells p.list.5)
        (H.spells p.list.6) (J.spells p.list.7) (K.spells p.list.8) (A.means p.list.0)
        (B.means p.list.1) (C.means p.list.2) (D.means p.list.3) (F.means p.list.4)
        (G.means p.list.5) (H.means p.list.6) (J.means p.list.7) (K.means p.list.8)
        (A.spelled p.list.0) (B.spelled p.list.1) (C.spelled p.list.2) (D.spelled p.list.3)
        (F.spelled p.list.4) (G.spelled p.list.5) (H.spelled p.list.6) (J.spelled p.list.7)
        (K.spelled p.list.8) };
}

impl<
    I: StreamIsPartial,
    E: ParserError<I>,
    A: Spells<I, E>,
    B: Spells<I, E, Output = A::Output>,
    C: Spells<I, E, Output = A::Output>,
    D: Spells<I, E, Output = A::Output>,
    F: Spells<I, E, Output = A::Output>,
    G: Spells<I, E, Output = A::Output>,
    H: Spells<I, E, Output = A::Output>,
    J: Spells<I, E, Output = A::Output>,
    K: Spells<I, E, Output = A::Output>,
    L: Spells<I, E, Output = A::Output>,
> Spells<I, E> for Alt<(A, B, C, D, F, G, H, J, K, L)> {
    ghost spells = { λ p. Or10 (A.spells p.list.0) (B.spells p.list.1) (C.spells p.list.2)
        (D.spells p.list.3) (F.spells p.list.4) (G.spells p.list.5) (H.spells p.list.6)
        (J.spells p.list.7) (K.spells p.list.8) (L.spells p.list.9) };

    ghost spelled = { λ p. spelled-Or10 E.or_refusable (A.spells p.list.0) (B.spells p.list.1)
        (C.spells p.list.2) (D.spells p.list.3) (F.spells p.list.4) (G.spells p.list.5)
        (H.spells p.list.6) (J.spells p.list.7) (K.spells p.list.8) (L.spells p.list.9)
        (A.means p.list.0) (B.means p.list.1) (C.means p.list.2) (D.means p.list.3)
        (F.means p.list.4) (G.means p.list.5) (H.means p.list.6) (J.means p.list.7)
        (K.means p.list.8) (L.means p.list.9) (A.spelled p.list.0) (B.spelled p.list.1)
        (C.spelled p.list.2) (D.spelled p.list.3) (F.spelled p.list.4) (G.spelled p.list.5)
        (H.spelled p.list.6) (J.spelled p.list.7) (K.spelled p.list.8) (L.spelled p.list.9) };
}
