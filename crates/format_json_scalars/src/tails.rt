//! The first bytes of a character of a string, for a scan.

ghost use Rattle.std.specs.Prelude.{◌≡◌, ◌≤◌, ◌<◌, ◌∷◌, [], ◌++◌, List, ℕ, false, length};
ghost use Rattle.format_json_scalars.specs.Tails.{StaysInText, IsSettled};

use crate::characters::Step;
use crate::strings::char_at;
use std::marker::Model;

// How many bytes the longest spelling of a character has: two escapes of surrogates.
const LONGEST: usize = 12;

/// What a scan keeps of a string: the first bytes of the spelling of a character, perhaps none.
#[derive(Debug, Drop)]
pub struct Tail {
    bytes: [u8; LONGEST],
    len: usize,
}

impl Model for Tail {
    ghost use Rattle.std.specs.Prelude.{ℕ, List, take, ◌≤◌};

    ghost Value = { List ℕ };

    ghost view = { λ r. take r.len r.bytes };

    ghost invariant = { λ r. r.len ≤ 12 };
}

impl Tail {
    /// Returns the one without bytes.
    pub fn new() -> Tail
        ensures { result ≡ [] }
    {
        Tail {
            bytes: [0; LONGEST],
            len: 0,
        }
    }

    // Returns the bytes.
    fn seen(&self) -> &[u8]
        ensures { result.now ≡ self.now }
    {
        &self.bytes[..self.len]
    }

    /// Goes over a byte of a string, and returns whether the string may end there, or is wrong.
    pub fn stops_at(&mut self, byte: u8) -> bool
        ensures { (bytes : List ℕ) → result ≡ false → StaysInText bytes byte self.old self.new }
    {
        let seen = self.seen();
        if seen.is_empty() {
            if byte == b'"' {
                return true;
            }
            if byte != b'\\' && 0x20 <= byte && byte < 0x80 {
                return false;
            }
        }
        if seen.len() >= LONGEST {
            return true;
        }
        self.append(byte);
        self.settles()
    }

    // Drops the bytes if they are whole characters, and returns whether they are neither that nor
    // the first bytes of one.
    fn settles(&mut self) -> bool
        requires { 0 < length self.old }
        ensures { result ≡ false → IsSettled self.old self.new }
    {
        let seen = self.seen();
        match char_at(seen) {
            Step::Taken(width) => {
                let is_all = width == seen.len();
                self.len = 0;
                !is_all
            }
            Step::Begun => false,
            Step::Ended => true,
            Step::Wrong => true,
        }
    }

    // Appends a byte.
    fn append(&mut self, byte: u8)
        requires { length self.old < 12 }
        ensures { self.new ≡ self.old ++ byte ∷ [] }
    {
        self.bytes[self.len] = byte;
        self.len += 1;
    }
}
