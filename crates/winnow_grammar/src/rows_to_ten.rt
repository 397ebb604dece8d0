//! The spellings of tuples of six to ten parsers.

ghost use Rattle.winnow_grammar.specs.SpellingRows.{Then6, Then7, Then8, Then9, Then10};
ghost use Rattle.winnow_grammar.specs.SpelledRows.{spelled-Then6, spelled-Then7, spelled-Then8};
ghost use Rattle.winnow_grammar.specs.SpelledRows.{spelled-Then9, spelled-Then10};

use crate::Spells;
use winnow_stream::StreamIsPartial;

impl<
    I: StreamIsPartial,
    E,
    A: Spells<I, E>,
    B: Spells<I, E>,
    C: Spells<I, E>,
    D: Spells<I, E>,
    F: Spells<I, E>,
    G: Spells<I, E>,
> Spells<I, E> for (A, B, C, D, F, G)
where
    A::Output: Drop,
    B::Output: Drop,
    C::Output: Drop,
    D::Output: Drop,
    F::Output: Drop,
{
    ghost spells = { λ p. Then6 (A.spells p.0) (B.spells p.1) (C.spells p.2) (D.spells p.3)
        (F.spells p.4) (G.spells p.5) };

    ghost spelled = { λ p. spelled-Then6 (A.spells p.0) (B.spells p.1) (C.spells p.2)
        (D.spells p.3) (F.spells p.4) (G.spells p.5) (A.means p.0) (B.means p.1) (C.means p.2)
        (D.means p.3) (F.means p.4) (G.means p.5) (A.spelled p.0) (B.spelled p.1) (C.spelled p.2)
        (D.spelled p.3) (F.spelled p.4) (G.spelled p.5) };
}

impl<
    I: StreamIsPartial,
    E,
    A: Spells<I, E>,
    B: Spells<I, E>,
    C: Spells<I, E>,
    D: Spells<I, E>,
    F: Spells<I, E>,
    G: Spells<I, E>,
    H: Spells<I, E>,
> Spells<I, E> for (A, B, C, D, F, G, H)
where
    A::Output: Drop,
    B::Output: Drop,
    C::Output: Drop,
    D::Output: Drop,
    F::Output: Drop,
    G::Output: Drop,
{
    ghost spells = { λ p. Then7 (A.spells p.0) (B.spells p.1) (C.spells p.2) (D.spells p.3)
        (F.spells p.4) (G.spells p.5) (H.spells p.6) };

    ghost spelled = { λ p. spelled-Then7 (A.spells p.0) (B.spells p.1) (C.spells p.2)
        (D.spells p.3) (F.spells p.4) (G.spells p.5) (H.spells p.6) (A.means p.0) (B.means p.1)
        (C.means p.2) (D.means p.3) (F.means p.4) (G.means p.5) (H.means p.6) (A.spelled p.0)
        (B.spelled p.1) (C.spelled p.2) (D.spelled p.3) (F.spelled p.4) (G.spelled p.5)
        (H.spelled p.6) };
}

impl<
    I: StreamIsPartial,
    E,
    A: Spells<I, E>,
    B: Spells<I, E>,
    C: Spells<I, E>,
    D: Spells<I, E>,
    F: Spells<I, E>,
    G: Spells<I, E>,
    H: Spells<I, E>,
    J: Spells<I, E>,
> Spells<I, E> for (A, B, C, D, F, G, H, J)
where
    A::Output: Drop,
    B::Output: Drop,
    C::Output: Drop,
    D::Output: Drop,
    F::Output: Drop,
    G::Output: Drop,
    H::Output: Drop,
{
    ghost spells = { λ p. Then8 (A.spells p.0) (B.spells p.1) (C.spells p.2) (D.spells p.3)
        (F.spells p.4) (G.spells p.5) (H.spells p.6) (J.spells p.7) };

    ghost spelled = { λ p. spelled-Then8 (A.spells p.0) (B.spells p.1) (C.spells p.2)
        (D.spells p.3) (F.spells p.4) (G.spells p.5) (H.spells p.6) (J.spells p.7) (A.means p.0)
        (B.means p.1) (C.means p.2) (D.means p.3) (F.means p.4) (G.means p.5) (H.means p.6)
        (J.means p.7) (A.spelled p.0) (B.spelled p.1) (C.spelled p.2) (D.spelled p.3)
        (F.spelled p.4) (G.spelled p.5) (H.spelled p.6) (J.spelled p.7) };
}

impl<
    I: StreamIsPartial,
    E,
    A: Spells<I, E>,
    B: Spells<I, E>,
    C: Spells<I, E>,
    D: Spells<I, E>,
    F: Spells<I, E>,
    G: Spells<I, E>,
    H: Spells<I, E>,
    J: Spells<I, E>,
    K: Spells<I, E>,
> Spells<I, E> for (A, B, C, D, F, G, H, J, K)
where
    A::Output: Drop,
    B::Output: Drop,
    C::Output: Drop,
    D::Output: Drop,
    F::Output: Drop,
    G::Output: Drop,
    H::Output: Drop,
    J::Output: Drop,
{
    ghost spells = { λ p. Then9 (A.spells p.0) (B.spells p.1) (C.spells p.2) (D.spells p.3)
        (F.spells p.4) (G.spells p.5) (H.spells p.6) (J.spells p.7) (K.spells p.8) };

    ghost spelled = { λ p. spelled-Then9 (A.spells p.0) (B.spells p.1) (C.spells p.2)
        (D.spells p.3) (F.spells p.4) (G.spells p.5) (H.spells p.6) (J.spells p.7) (K.spells p.8)
        (A.means p.0) (B.means p.1) (C.means p.2) (D.means p.3) (F.means p.4) (G.means p.5)
        (H.means p.6) (J.means p.7) (K.means p.8) (A.spelled p.0) (B.spelled p.1) (C.spelled p.2)
        (D.spelled p.3) (F.spelled p.4) (G.spelled p.5) (H.spelled p.6) (J.spelled p.7)
        (K.spelled p.8) };
}

impl<
    I: StreamIsPartial,
    E,
    A: Spells<I, E>,
    B: Spells<I, E>,
    C: Spells<I, E>,
    D: Spells<I, E>,
    F: Spells<I, E>,
    G: Spells<I, E>,
    H: Spells<I, E>,
    J: Spells<I, E>,
    K: Spells<I, E>,
    L: Spells<I, E>,
> Spells<I, E> for (A, B, C, D, F, G, H, J, K, L)
where
    A::Output: Drop,
    B::Output: Drop,
    C::Output: Drop,
    D::Output: Drop,
    F::Output: Drop,
    G::Output: Drop,
    H::Output: Drop,
    J::Output: Drop,
    K::Output: Drop,
{
    ghost spells = { λ p. Then10 (A.spells p.0) (B.spells p.1) (C.spells p.2) (D.spells p.3)
        (F.spells p.4) (G.spells p.5) (H.spells p.6) (J.spells p.7) (K.spells p.8)
        (L.spells p.9) };

    ghost spelled = { λ p. spelled-Then10 (A.spells p.0) (B.spells p.1) (C.spells p.2)
        (D.spells p.3) (F.spells p.4) (G.spells p.5) (H.spells p.6) (J.spells p.7) (K.spells p.8)
        (L.spells p.9) (A.means p.0) (B.means p.1) (C.means p.2) (D.means p.3) (F.means p.4)
        (G.means p.5) (H.means p.6) (J.means p.7) (K.means p.8) (L.means p.9) (A.spelled p.0)
        (B.spelled p.1) (C.spelled p.2) (D.spelled p.3) (F.spelled p.4) (G.spelled p.5)
        (H.spelled p.6) (J.spelled p.7) (K.spelled p.8) (L.spelled p.9) };
}
