//! Lines, columns and characters of the input.

ghost use Rattle.std.specs.Prelude.{◌≡◌, ◌+◌, ◌<◌, ◌≤◌, ◌^◌, length};
ghost use Rattle.wb_replies.specs.Positions.{start, next, position_after};
ghost use Rattle.wb_replies.specs.Positions.{characters_in, joined_with, IsPosition};

/// A place between the bytes of an input.
#[derive(Clone, Copy, Debug, Drop, PartialEq, Eq)]
pub struct Position {
    /// How many bytes stand before it
    pub byte: usize,
    /// The number of its line, the first of which is 1. A line ends after a line feed
    pub line: usize,
    /// The number of the byte after it in its line, the first of which is 1
    pub column: usize,
    /// The number of the character after it in its line, the first of which is 1. A byte that goes
    /// on with a character of UTF-8 is none of its own
    pub character: usize,
}

impl Position {
    /// Returns the place before all bytes.
    pub fn start() -> Position
        ensures { result ≡ start }
    {
        Position {
            byte: 0,
            line: 1,
            column: 1,
            character: 1,
        }
    }

    #[tactic(auto, using(crate::proofs::lemmas::PositionLemmas::position_after_more))]
    /// Returns the place that these bytes lead to from here.
    pub fn after(self, bytes: &[u8]) -> Position
        requires counted { IsPosition self }
        requires fits { self.byte + length bytes.now + 1 < 2 ^ 64 }
        ensures after { result ≡ position_after self bytes.now }
        ensures counted { IsPosition result }
    {
        let mut place = self;
        for byte in bytes {
            place = place.after_byte(*byte);
        }
        place
    }

    // Returns the place after one byte more.
    fn after_byte(self, byte: u8) -> Position
        requires counted { IsPosition self }
        requires fits { self.byte + 2 < 2 ^ 64 }
        ensures after { result ≡ next self byte }
        ensures counted { IsPosition result }
    {
        if byte == b'\n' {
            return Position {
                byte: self.byte + 1,
                line: self.line + 1,
                column: 1,
                character: 1,
            };
        }
        Position {
            byte: self.byte + 1,
            line: self.line,
            column: self.column + 1,
            character: self.character + characters_in(byte),
        }
    }

    /// Returns the place that is as far from here as the other is from the start.
    pub fn joined_with(self, other: Position) -> Position
        requires counted { IsPosition self }
        requires other_counted { IsPosition other }
        requires fits { self.byte + other.byte + 1 < 2 ^ 64 }
        ensures joined { result ≡ joined_with self other }
        ensures counted { IsPosition result }
    {
        if other.line == 1 {
            return Position {
                byte: self.byte + other.byte,
                line: self.line,
                column: self.column + (other.column - 1),
                character: self.character + (other.character - 1),
            };
        }
        Position {
            byte: self.byte + other.byte,
            line: self.line + (other.line - 1),
            column: other.column,
            character: other.character,
        }
    }
}

// Returns how many characters begin with this byte.
fn characters_in(byte: u8) -> usize
    ensures count { result ≡ characters_in byte }
    ensures few { result ≤ 1 }
{
    if 127 < byte && byte < 192 {
        return 0;
    }
    1
}
