//! `FixedSet` for unions: tuples of up to ten sets.

ghost use Rattle.std.specs.Prelude.{◌||◌};
ghost use Rattle.winnow_sets.specs.SetLaws.{AnswersOnly-union};

use crate::FixedSet;

/// The tokens that the set holds.
impl<T: Copy, A: FixedSet<T>> FixedSet<T> for (A,) {
    ghost holds = { λ s token. A.holds s.0 token };

    ghost answers_only = { λ s token. A.answers_only s.0 token };
}

/// What one of the sets holds.
impl<T: Copy, A: FixedSet<T>, B: FixedSet<T>> FixedSet<T> for (A, B) {
    ghost holds = { λ s token. A.holds s.0 token || B.holds s.1 token };

    ghost answers_only = { λ s token. AnswersOnly-union (A.answers_only s.0 token)
        (B.answers_only s.1 token) };
}

/// What one of the sets holds.
impl<T: Copy, A: FixedSet<T>, B: FixedSet<T>, C: FixedSet<T>> FixedSet<T> for (A, B, C) {
    ghost holds = { λ s token. A.holds s.0 token || (B.holds s.1 token || C.holds s.2 token) };

    ghost answers_only = { λ s token. AnswersOnly-union (A.answers_only s.0 token)
        (AnswersOnly-union (B.answers_only s.1 token) (C.answers_only s.2 token)) };
}

/// What one of the sets holds.
impl<T: Copy, A: FixedSet<T>, B: FixedSet<T>, C: FixedSet<T>, D: FixedSet<T>> FixedSet<T>
    for (A, B, C, D) {
    ghost holds = { λ s token. A.holds s.0 token || (B.holds s.1 token || (C.holds s.2 token ||
        D.holds s.3 token)) };

    ghost answers_only = { λ s token. AnswersOnly-union (A.answers_only s.0 token)
        (AnswersOnly-union (B.answers_only s.1 token) (AnswersOnly-union (C.answers_only s.2 token)
        (D.answers_only s.3 token))) };
}

/// What one of the sets holds.
impl<
    T: Copy,
    A: FixedSet<T>,
    B: FixedSet<T>,
    C: FixedSet<T>,
    D: FixedSet<T>,
    E: FixedSet<T>,
> FixedSet<T> for (A, B, C, D, E) {
    ghost holds = { λ s token. A.holds s.0 token || (B.holds s.1 token || (C.holds s.2 token ||
        (D.holds s.3 token || E.holds s.4 token))) };

    ghost answers_only = { λ s token. AnswersOnly-union (A.answers_only s.0 token)
        (AnswersOnly-union (B.answers_only s.1 token) (AnswersOnly-union (C.answers_only s.2 token)
        (AnswersOnly-union (D.answers_only s.3 token) (E.answers_only s.4 token)))) };
}

/// What one of the sets holds.
impl<
    T: Copy,
    A: FixedSet<T>,
    B: FixedSet<T>,
    C: FixedSet<T>,
    D: FixedSet<T>,
    E: FixedSet<T>,
    F: FixedSet<T>,
> FixedSet<T> for (A, B, C, D, E, F) {
    ghost holds = { λ s token. A.holds s.0 token || (B.holds s.1 token || (C.holds s.2 token ||
        (D.holds s.3 token || (E.holds s.4 token || F.holds s.5 token)))) };

    ghost answers_only = { λ s token. AnswersOnly-union (A.answers_only s.0 token)
        (AnswersOnly-union (B.answers_only s.1 token) (AnswersOnly-union (C.answers_only s.2 token)
        (AnswersOnly-union (D.answers_only s.3 token) (AnswersOnly-union (E.answers_only s.4 token)
        (F.answers_only s.5 token))))) };
}

/// What one of the sets holds.
impl<
    T: Copy,
    A: FixedSet<T>,
    B: FixedSet<T>,
    C: FixedSet<T>,
    D: FixedSet<T>,
    E: FixedSet<T>,
    F: FixedSet<T>,
    G: FixedSet<T>,
> FixedSet<T> for (A, B, C, D, E, F, G) {
    ghost holds = { λ s token. A.holds s.0 token || (B.holds s.1 token || (C.holds s.2 token ||
        (D.holds s.3 token || (E.holds s.4 token || (F.holds s.5 token || G.holds s.6 token))))) };

    ghost answers_only = { λ s token. AnswersOnly-union (A.answers_only s.0 token)
        (AnswersOnly-union (B.answers_only s.1 token) (AnswersOnly-union (C.answers_only s.2 token)
        (AnswersOnly-union (D.answers_only s.3 token) (AnswersOnly-union (E.answers_only s.4 token)
        (AnswersOnly-union (F.answers_only s.5 token) (G.answers_only s.6 token)))))) };
}

/// What one of the sets holds.
impl<
    T: Copy,
    A: FixedSet<T>,
    B: FixedSet<T>,
    C: FixedSet<T>,
    D: FixedSet<T>,
    E: FixedSet<T>,
    F: FixedSet<T>,
    G: FixedSet<T>,
    H: FixedSet<T>,
> FixedSet<T> for (A, B, C, D, E, F, G, H) {
    ghost holds = { λ s token. A.holds s.0 token || (B.holds s.1 token || (C.holds s.2 token ||
        (D.holds s.3 token || (E.holds s.4 token || (F.holds s.5 token || (G.holds s.6 token ||
        H.holds s.7 token)))))) };

    ghost answers_only = { λ s token. AnswersOnly-union (A.answers_only s.0 token)
        (AnswersOnly-union (B.answers_only s.1 token) (AnswersOnly-union (C.answers_only s.2 token)
        (AnswersOnly-union (D.answers_only s.3 token) (AnswersOnly-union (E.answers_only s.4 token)
        (AnswersOnly-union (F.answers_only s.5 token) (AnswersOnly-union (G.answers_only s.6 token)
        (H.answers_only s.7 token))))))) };
}

/// What one of the sets holds.
impl<
    T: Copy,
    A: FixedSet<T>,
    B: FixedSet<T>,
    C: FixedSet<T>,
    D: FixedSet<T>,
    E: FixedSet<T>,
    F: FixedSet<T>,
    G: FixedSet<T>,
    H: FixedSet<T>,
    I: FixedSet<T>,
> FixedSet<T> for (A, B, C, D, E, F, G, H, I) {
    ghost holds = { λ s token. A.holds s.0 token || (B.holds s.1 token || (C.holds s.2 token ||
        (D.holds s.3 token || (E.holds s.4 token || (F.holds s.5 token || (G.holds s.6 token ||
        (H.holds s.7 token || I.holds s.8 token))))))) };

    ghost answers_only = { λ s token. AnswersOnly-union (A.answers_only s.0 token)
        (AnswersOnly-union (B.answers_only s.1 token) (AnswersOnly-union (C.answers_only s.2 token)
        (AnswersOnly-union (D.answers_only s.3 token) (AnswersOnly-union (E.answers_only s.4 token)
        (AnswersOnly-union (F.answers_only s.5 token) (AnswersOnly-union (G.answers_only s.6 token)
        (AnswersOnly-union (H.answers_only s.7 token) (I.answers_only s.8 token)))))))) };
}

/// What one of the sets holds.
impl<
    T: Copy,
    A: FixedSet<T>,
    B: FixedSet<T>,
    C: FixedSet<T>,
    D: FixedSet<T>,
    E: FixedSet<T>,
    F: FixedSet<T>,
    G: FixedSet<T>,
    H: FixedSet<T>,
    I: FixedSet<T>,
    J: FixedSet<T>,
> FixedSet<T> for (A, B, C, D, E, F, G, H, I, J) {
    ghost holds = { λ s token. A.holds s.0 token || (B.holds s.1 token || (C.holds s.2 token ||
        (D.holds s.3 token || (E.holds s.4 token || (F.holds s.5 token || (G.holds s.6 token ||
        (H.holds s.7 token || (I.holds s.8 token || J.holds s.9 token)))))))) };

    ghost answers_only = { λ s token. AnswersOnly-union (A.answers_only s.0 token)
        (AnswersOnly-union (B.answers_only s.1 token) (AnswersOnly-union (C.answers_only s.2 token)
        (AnswersOnly-union (D.answers_only s.3 token) (AnswersOnly-union (E.answers_only s.4 token)
        (AnswersOnly-union (F.answers_only s.5 token) (AnswersOnly-union (G.answers_only s.6 token)
        (AnswersOnly-union (H.answers_only s.7 token) (AnswersOnly-union (I.answers_only s.8 token)
        (J.answers_only s.9 token))))))))) };
}
