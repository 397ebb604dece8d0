//! `ContainsToken` for unions: tuples of up to ten sets.

ghost use Rattle.winnow_sets.specs.Sets.{◌∪◌};

use crate::ContainsToken;

/// The tokens that the set holds.
impl<T: Copy, A: ContainsToken<T>> ContainsToken<T> for (A,) {
    ghost askable = { λ s. A.askable s.0 };

    ghost may_answer = { λ s token. A.may_answer s.0 token };

    fn contains_token(&self, token: T) -> bool {
        self.0.contains_token(token)
    }
}

/// What one of the sets holds.
impl<T: Copy, A: ContainsToken<T>, B: ContainsToken<T>> ContainsToken<T> for (A, B) {
    ghost askable = { λ s. A.askable s.0 × B.askable s.1 };

    ghost may_answer = { λ s token. A.may_answer s.0 token ∪ B.may_answer s.1 token };

    fn contains_token(&self, token: T) -> bool {
        self.0.contains_token(token) || self.1.contains_token(token)
    }
}

/// What one of the sets holds.
impl<T: Copy, A: ContainsToken<T>, B: ContainsToken<T>, C: ContainsToken<T>> ContainsToken<T>
    for (A, B, C) {
    ghost askable = { λ s. A.askable s.0 × B.askable s.1 × C.askable s.2 };

    ghost may_answer = { λ s token. A.may_answer s.0 token ∪ B.may_answer s.1 token
        ∪ C.may_answer s.2 token };

    fn contains_token(&self, token: T) -> bool {
        self.0.contains_token(token) || self.1.contains_token(token) || self.2.contains_token(token)
    }
}

/// What one of the sets holds.
impl<
    T: Copy,
    A: ContainsToken<T>,
    B: ContainsToken<T>,
    C: ContainsToken<T>,
    D: ContainsToken<T>,
> ContainsToken<T> for (A, B, C, D) {
    ghost askable = { λ s. A.askable s.0 × B.askable s.1 × C.askable s.2 × D.askable s.3 };

    ghost may_answer = { λ s token. A.may_answer s.0 token ∪ B.may_answer s.1 token
        ∪ C.may_answer s.2 token ∪ D.may_answer s.3 token };

    fn contains_token(&self, token: T) -> bool {
        self.0.contains_token(token)
            || self.1.contains_token(token)
            || self.2.contains_token(token)
            || self.3.contains_token(token)
    }
}

/// What one of the sets holds.
impl<
    T: Copy,
    A: ContainsToken<T>,
    B: ContainsToken<T>,
    C: ContainsToken<T>,
    D: ContainsToken<T>,
    E: ContainsToken<T>,
> ContainsToken<T> for (A, B, C, D, E) {
    ghost askable = { λ s. A.askable s.0 × B.askable s.1 × C.askable s.2 × D.askable s.3
        × E.askable s.4 };

    ghost may_answer = { λ s token. A.may_answer s.0 token ∪ B.may_answer s.1 token
        ∪ C.may_answer s.2 token ∪ D.may_answer s.3 token ∪ E.may_answer s.4 token };

    fn contains_token(&self, token: T) -> bool {
        self.0.contains_token(token)
            || self.1.contains_token(token)
            || self.2.contains_token(token)
            || self.3.contains_token(token)
            || self.4.contains_token(token)
    }
}

/// What one of the sets holds.
impl<
    T: Copy,
    A: ContainsToken<T>,
    B: ContainsToken<T>,
    C: ContainsToken<T>,
    D: ContainsToken<T>,
    E: ContainsToken<T>,
    F: ContainsToken<T>,
> ContainsToken<T> for (A, B, C, D, E, F) {
    ghost askable = { λ s. A.askable s.0 × B.askable s.1 × C.askable s.2 × D.askable s.3
        × E.askable s.4 × F.askable s.5 };

    ghost may_answer = { λ s token. A.may_answer s.0 token ∪ B.may_answer s.1 token
        ∪ C.may_answer s.2 token ∪ D.may_answer s.3 token ∪ E.may_answer s.4 token
        ∪ F.may_answer s.5 token };

    fn contains_token(&self, token: T) -> bool {
        self.0.contains_token(token)
            || self.1.contains_token(token)
            || self.2.contains_token(token)
            || self.3.contains_token(token)
            || self.4.contains_token(token)
            || self.5.contains_token(token)
    }
}

/// What one of the sets holds.
impl<
    T: Copy,
    A: ContainsToken<T>,
    B: ContainsToken<T>,
    C: ContainsToken<T>,
    D: ContainsToken<T>,
    E: ContainsToken<T>,
    F: ContainsToken<T>,
    G: ContainsToken<T>,
> ContainsToken<T> for (A, B, C, D, E, F, G) {
    ghost askable = { λ s. A.askable s.0 × B.askable s.1 × C.askable s.2 × D.askable s.3
        × E.askable s.4 × F.askable s.5 × G.askable s.6 };

    ghost may_answer = { λ s token. A.may_answer s.0 token ∪ B.may_answer s.1 token
        ∪ C.may_answer s.2 token ∪ D.may_answer s.3 token ∪ E.may_answer s.4 token
        ∪ F.may_answer s.5 token ∪ G.may_answer s.6 token };

    fn contains_token(&self, token: T) -> bool {
        self.0.contains_token(token)
            || self.1.contains_token(token)
            || self.2.contains_token(token)
            || self.3.contains_token(token)
            || self.4.contains_token(token)
            || self.5.contains_token(token)
            || self.6.contains_token(token)
    }
}

/// What one of the sets holds.
impl<
    T: Copy,
    A: ContainsToken<T>,
    B: ContainsToken<T>,
    C: ContainsToken<T>,
    D: ContainsToken<T>,
    E: ContainsToken<T>,
    F: ContainsToken<T>,
    G: ContainsToken<T>,
    H: ContainsToken<T>,
> ContainsToken<T> for (A, B, C, D, E, F, G, H) {
    ghost askable = { λ s. A.askable s.0 × B.askable s.1 × C.askable s.2 × D.askable s.3
        × E.askable s.4 × F.askable s.5 × G.askable s.6 × H.askable s.7 };

    ghost may_answer = { λ s token. A.may_answer s.0 token ∪ B.may_answer s.1 token
        ∪ C.may_answer s.2 token ∪ D.may_answer s.3 token ∪ E.may_answer s.4 token
        ∪ F.may_answer s.5 token ∪ G.may_answer s.6 token ∪ H.may_answer s.7 token };

    fn contains_token(&self, token: T) -> bool {
        self.0.contains_token(token)
            || self.1.contains_token(token)
            || self.2.contains_token(token)
            || self.3.contains_token(token)
            || self.4.contains_token(token)
            || self.5.contains_token(token)
            || self.6.contains_token(token)
            || self.7.contains_token(token)
    }
}

/// What one of the sets holds.
impl<
    T: Copy,
    A: ContainsToken<T>,
    B: ContainsToken<T>,
    C: ContainsToken<T>,
    D: ContainsToken<T>,
    E: ContainsToken<T>,
    F: ContainsToken<T>,
    G: ContainsToken<T>,
    H: ContainsToken<T>,
    I: ContainsToken<T>,
> ContainsToken<T> for (A, B, C, D, E, F, G, H, I) {
    ghost askable = { λ s. A.askable s.0 × B.askable s.1 × C.askable s.2 × D.askable s.3
        × E.askable s.4 × F.askable s.5 × G.askable s.6 × H.askable s.7 × I.askable s.8 };

    ghost may_answer = { λ s token. A.may_answer s.0 token ∪ B.may_answer s.1 token
        ∪ C.may_answer s.2 token ∪ D.may_answer s.3 token ∪ E.may_answer s.4 token
        ∪ F.may_answer s.5 token ∪ G.may_answer s.6 token ∪ H.may_answer s.7 token
        ∪ I.may_answer s.8 token };

    fn contains_token(&self, token: T) -> bool {
        self.0.contains_token(token)
            || self.1.contains_token(token)
            || self.2.contains_token(token)
            || self.3.contains_token(token)
            || self.4.contains_token(token)
            || self.5.contains_token(token)
            || self.6.contains_token(token)
            || self.7.contains_token(token)
            || self.8.contains_token(token)
    }
}

/// What one of the sets holds.
impl<
    T: Copy,
    A: ContainsToken<T>,
    B: ContainsToken<T>,
    C: ContainsToken<T>,
    D: ContainsToken<T>,
    E: ContainsToken<T>,
    F: ContainsToken<T>,
    G: ContainsToken<T>,
    H: ContainsToken<T>,
    I: ContainsToken<T>,
    J: ContainsToken<T>,
> ContainsToken<T> for (A, B, C, D, E, F, G, H, I, J) {
    ghost askable = { λ s. A.askable s.0 × B.askable s.1 × C.askable s.2 × D.askable s.3
        × E.askable s.4 × F.askable s.5 × G.askable s.6 × H.askable s.7 × I.askable s.8
        × J.askable s.9 };

    ghost may_answer = { λ s token. A.may_answer s.0 token ∪ B.may_answer s.1 token
        ∪ C.may_answer s.2 token ∪ D.may_answer s.3 token ∪ E.may_answer s.4 token
        ∪ F.may_answer s.5 token ∪ G.may_answer s.6 token ∪ H.may_answer s.7 token
        ∪ I.may_answer s.8 token ∪ J.may_answer s.9 token };

    fn contains_token(&self, token: T) -> bool {
        self.0.contains_token(token)
            || self.1.contains_token(token)
            || self.2.contains_token(token)
            || self.3.contains_token(token)
            || self.4.contains_token(token)
            || self.5.contains_token(token)
            || self.6.contains_token(token)
            || self.7.contains_token(token)
            || self.8.contains_token(token)
            || self.9.contains_token(token)
    }
}
