//! `ScriptSet`, a set of tokens that a script names, and `NoSet`, the empty one.

ghost use Rattle.std.specs.Prelude.{◌≡◌, Bool, false, ⊤};

/// A set of tokens that a script can name.
pub trait ScriptSet<T> {
    // The sets that may be asked.
    ghost askable: { Self → Type 0 } = { λ _. ⊤ };

    // The answers that the set may give of a token.
    ghost may_answer: { Self → T → Bool → Type 0 };

    /// Returns whether the token is in the set.
    fn holds(&self, token: T) -> bool
        requires { askable self.now }
        ensures { may_answer self.now token result };
}

/// The set that holds no token, for scripts that name none.
#[derive(Clone, Copy, Debug, Default, PartialEq, Eq)]
pub struct NoSet;

impl<T: Drop> ScriptSet<T> for NoSet {
    ghost may_answer = { λ _ _ b. b ≡ false };

    fn holds(&self, _token: T) -> bool {
        false
    }
}
