//! `Needed`, the amount of input that a call lacked.

ghost use Rattle.std.specs.Prelude.{◌≡◌};
ghost use Rattle.winnow_stream.specs.Shortage.{needed, is_known, IsMapped};

use std::num::NonZeroUsize;

/// The amount of input that a call lacked.
#[derive(Clone, Copy, Debug, PartialEq, Eq)]
pub enum Needed {
    /// More input, and the stream cannot say how much: a text counts in characters, whose widths
    /// differ.
    Unknown,
    /// This number of further tokens.
    Size(NonZeroUsize),
}

impl Needed {
    /// Returns a need of `size` further tokens, or `Unknown` for 0.
    pub fn new(size: usize) -> Self
        ensures { result ≡ needed size }
    {
        match NonZeroUsize::new(size) {
            Some(size) => Needed::Size(size),
            None => Needed::Unknown,
        }
    }

    /// Returns whether the number of tokens is known.
    pub fn is_known(&self) -> bool
        ensures { result ≡ is_known self.now }
    {
        *self != Needed::Unknown
    }

    /// Returns the need with the size that `f` makes of a known one. `Unknown` stays, and if `f`
    /// returns 0, the result is `Unknown`.
    pub fn map<F: Fn(NonZeroUsize) -> usize>(self, f: F) -> Self
    where
        F: Drop,
        requires { F.IsAlwaysCallable f }
        ensures { IsMapped (F.post f) self result }
    {
        match self {
            Needed::Unknown => Needed::Unknown,
            Needed::Size(size) => Needed::new(f(size)),
        }
    }
}
