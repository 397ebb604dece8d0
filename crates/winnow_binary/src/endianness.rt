//! The byte order (`Endianness`) and the `Width` of a number, and numbers joined from their halves.

ghost use Rattle.std.specs.Prelude.{◌≡◌, ◌<◌, ◌^◌, [], ◌∷◌};
ghost use Rattle.winnow_binary.specs.Numerals.{bytes_in, joined, number_in};

/// The order in which the bytes of a number come.
#[derive(Clone, Copy, Debug, PartialEq, Eq)]
pub enum Endianness {
    /// The most significant byte comes first
    Big,
    /// The least significant byte comes first
    Little,
    /// The order of the machine, which is that of `Little`: Rattle compiles for x86-64
    Native,
}

/// The number of bytes of a number.
#[derive(Clone, Copy, Debug, PartialEq, Eq)]
pub enum Width {
    /// One byte
    One,
    /// Two bytes
    Two,
    /// Four bytes
    Four,
    /// Eight bytes
    Eight,
}

impl Width {
    /// Returns the number of bytes.
    pub fn bytes(self) -> usize
        ensures { result ≡ bytes_in self }
    {
        match self {
            Width::One => 1,
            Width::Two => 2,
            Width::Four => 4,
            Width::Eight => 8,
        }
    }
}

// Returns the number that two bytes write.
pub(crate) fn join_bytes(order: Endianness, first: u8, second: u8) -> u16
    ensures { result ≡ joined order 1 first second }
{
    match order {
        Endianness::Big => u16::from(first) * 256 + u16::from(second),
        Endianness::Little | Endianness::Native => u16::from(first) + 256 * u16::from(second),
    }
}

// Returns the number of which the first two bytes write one number, and the next two another.
pub(crate) fn join_pairs(order: Endianness, first: u16, second: u16) -> u32
    ensures { result ≡ joined order 2 first second }
{
    match order {
        Endianness::Big => u32::from(first) * 65536 + u32::from(second),
        Endianness::Little | Endianness::Native => u32::from(first) + 65536 * u32::from(second),
    }
}

// Returns the number of which the first four bytes write one number, and the next four another.
pub(crate) fn join_quads(order: Endianness, first: u32, second: u32) -> u64
    ensures { result ≡ joined order 4 first second }
{
    match order {
        Endianness::Big => u64::from(first) * 4_294_967_296 + u64::from(second),
        Endianness::Little | Endianness::Native => u64::from(first)
            + 4_294_967_296 * u64::from(second),
    }
}

// Returns the number of which the first eight bytes write one number, and the next eight another.
pub(crate) fn join_eights(order: Endianness, first: u64, second: u64) -> u128
    ensures { result ≡ joined order 8 first second }
{
    match order {
        Endianness::Big => u128::from(first) * 18_446_744_073_709_551_616 + u128::from(second),
        Endianness::Little | Endianness::Native => {
            u128::from(first) + 18_446_744_073_709_551_616 * u128::from(second)
        }
    }
}

// Returns the number that three bytes write.
pub(crate) fn join_three(order: Endianness, first: u8, second: u8, third: u8) -> u32
    ensures number { result ≡ number_in order (first ∷ second ∷ third ∷ []) }
    ensures bound { result < 256 ^ 3 }
{
    let middle = 256 * u32::from(second);
    match order {
        Endianness::Big => 65536 * u32::from(first) + middle + u32::from(third),
        Endianness::Little | Endianness::Native => u32::from(first)
            + middle
            + 65536 * u32::from(third),
    }
}
