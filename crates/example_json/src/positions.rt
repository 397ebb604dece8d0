//! Lines and columns of the input.

ghost use Rattle.std.specs.Prelude.{◌≡◌, ℕ, ◌∷◌, [], ◌++◌, ◌+◌, ◌<◌, ◌^◌, List, length};
ghost use Rattle.std.specs.Prelude.{Some, IfSome, IfNone, ◌⊎◌};
ghost use Rattle.example_json.specs.Positions.{IsPlaced, LeadsTo, IsWithin, position_text};

use std::fmt;

/// A place in the input, both counted from 1.
#[derive(Clone, Copy, Debug, Drop, PartialEq, Eq)]
pub struct Position {
    /// The line
    pub line: usize,
    /// The byte in its line
    pub column: usize,
}

impl fmt::Display for Position {
    ghost output = { λ position. Some (position_text position) };

    fn fmt<W: fmt::Write>(&self, f: &mut fmt::Formatter<W>) -> fmt::Result {
        let (line, column) = (self.line, self.column);
        write!(f, "line {line}, column {column}")
    }
}

/// The line on which a piece begins.
#[derive(Clone, Copy, Debug, Drop)]
pub struct Line {
    /// How many bytes of the input stand before the piece
    pub bytes: usize,
    /// How many lines end before it
    pub ended: usize,
    /// How many bytes of the input stand before the line
    pub start: usize,
}

impl Line {
    /// Returns the line on which the input begins.
    pub fn first() -> Line
        ensures leads { LeadsTo [] result }
        ensures within { IsWithin result }
    {
        Line {
            bytes: 0,
            ended: 0,
            start: 0,
        }
    }

    /// Returns the line after these bytes.
    pub fn after(self, bytes: &[u8]) -> Line
        requires within { IsWithin self }
        requires fits { self.bytes + length bytes.now + 1 < 2 ^ 64 }
        ensures leads { (input : List ℕ) → LeadsTo input self
            → LeadsTo (input ++ bytes.now) result }
        ensures within { IsWithin result }
        ensures counted { result.bytes ≡ self.bytes + length bytes.now }
    {
        let mut line = self;
        for byte in bytes {
            line = line.after_byte(*byte);
        }
        line
    }

    // Returns the line after one byte more.
    fn after_byte(self, byte: u8) -> Line
        requires within { IsWithin self }
        requires fits { self.bytes + 1 < 2 ^ 64 }
        ensures leads { (input : List ℕ) → LeadsTo input self
            → LeadsTo (input ++ byte ∷ []) result }
        ensures within { IsWithin result }
        ensures counted { result.bytes ≡ self.bytes + 1 }
    {
        let bytes = self.bytes + 1;
        if byte == b'\n' {
            return Line {
                bytes,
                ended: self.ended + 1,
                start: bytes,
            };
        }
        Line {
            bytes,
            ended: self.ended,
            start: self.start,
        }
    }

    /// Returns the position after this many bytes of the input, if that is on this line and no
    /// further on than the piece begins.
    pub fn position(self, first: usize) -> Option<Position>
        requires within { IsWithin self }
        requires fits { self.bytes + 1 < 2 ^ 64 }
        ensures placed { IfSome result (λ position. (input : List ℕ) → LeadsTo input self
            → IsPlaced input first position) }
        ensures missed { IfNone result ((first < self.start) ⊎ (self.bytes < first)) }
    {
        if first < self.start {
            return None;
        }
        if self.bytes < first {
            return None;
        }
        Some(Position {
            line: self.ended + 1,
            column: first - self.start + 1,
        })
    }
}
