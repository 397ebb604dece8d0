//! `ModalError`, the trait of errors with a mode that a caller can change.

ghost use Rattle.std.specs.Prelude.{◌≡◌};

/// An error that says whether another alternative may be tried, and lets a caller change that.
pub trait ModalError {
    // The same error, after which no other alternative may be tried.
    ghost cut_of: { Self → Self };

    // The same error, after which another alternative may be tried.
    ghost backtrack_of: { Self → Self };

    /// Forbids other alternatives.
    fn cut(self) -> Self
        ensures { result ≡ cut_of self };

    /// Allows other alternatives.
    fn backtrack(self) -> Self
        ensures { result ≡ backtrack_of self };

    // A second call changes nothing.
    ghost cut_twice: { (e : Self) → cut_of (cut_of e) ≡ cut_of e };

    ghost backtrack_twice: { (e : Self) → backtrack_of (backtrack_of e) ≡ backtrack_of e };
}
