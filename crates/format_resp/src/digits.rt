//! The bytes of a number that comes in pieces.

ghost use Rattle.std.specs.Prelude.{◌≡◌, ◌<◌, ◌∷◌, ◌++◌, [], true, length};

use std::marker::Model;

// No number of 64 bits has more digits, with its sign.
const MOST_DIGITS: usize = 21;

/// The bytes of a number so far.
#[derive(Debug, Drop)]
pub(crate) struct Digits {
    bytes: [u8; MOST_DIGITS],
    len: usize,
}

impl Model for Digits {
    ghost use Rattle.std.specs.Prelude.{ℕ, List, take, ◌≤◌};

    ghost Value = { List ℕ };

    ghost view = { λ r. take r.len r.bytes };

    ghost invariant = { λ r. r.len ≤ 21 };
}

impl Digits {
    /// Returns no bytes.
    pub(crate) fn new() -> Digits
        ensures { result ≡ [] }
    {
        Digits {
            bytes: [0; MOST_DIGITS],
            len: 0,
        }
    }

    /// Returns the bytes.
    pub(crate) fn text(&self) -> &[u8]
        ensures { result.now ≡ self.now }
    {
        &self.bytes[..self.len]
    }

    /// Drops the bytes.
    pub(crate) fn clear(&mut self)
        ensures { self.new ≡ [] }
    {
        self.len = 0;
    }

    /// Appends a byte, if there is room.
    pub(crate) fn append(&mut self, byte: u8) -> bool
        ensures { result ≡ true → (length self.old < 21) × (self.new ≡ self.old ++ byte ∷ []) }
    {
        if self.len >= MOST_DIGITS {
            return false;
        }
        self.bytes[self.len] = byte;
        self.len += 1;
        true
    }
}
