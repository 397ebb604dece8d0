//! Fields of given widths, as bits of one number.

ghost use Rattle.std.specs.Prelude.{◌≡◌, ◌*◌, ◌<◌, ◌≤◌, MatchOption, sum};
ghost use Rattle.winnow_binary.specs.Fields.{FillBytes, bits_of, fields_down, fields_up};
ghost use Rattle.winnow_binary.specs.Fields.{fields_in};

use crate::Endianness;

// The message for widths that fill no whole bytes.
pub(crate) const NO_BYTES: &str = "fields must have bits, and fill whole bytes, at most eight";

// Returns how many bytes fields of these widths fill, or `None` if they fill no whole bytes.
pub(crate) fn filled_bytes(widths: &[u32]) -> Option<usize>
    ensures { MatchOption result (¬ FillBytes widths.now)
        (λ count. FillBytes widths.now × (8 * count ≡ sum widths.now)) }
{
    let mut bits = 0;
    for width in widths {
        if *width == 0 || *width > 64 - bits {
            return None;
        }
        bits += *width;
    }
    if bits % 8 == 0 {
        Some(bits as usize / 8)
    } else {
        None
    }
}

// Returns the number that some bits of a number write: `width` of them, from bit `low` up.
#[inline(always)]
fn bits_of(number: u64, low: u32, width: u32) -> u64
    requires low { low < 64 }
    requires least { 1 ≤ width }
    requires most { width ≤ 64 }
    ensures { result ≡ bits_of number low width }
{
    (number >> low) & (u64::MAX >> (64 - width))
}

// Returns the fields of a number, the first one highest. All have this number of bits.
fn fields_down<const N: usize>(widths: &[u32; N], bits: u32, number: u64) -> [u64; N]
    requires fill { FillBytes widths.now }
    requires bits { bits ≡ sum widths.now }
    ensures { result ≡ fields_down widths.now number }
{
    let mut fields = [0; N];
    let mut low = bits;
    for i in 0..N {
        low -= widths[i];
        fields[i] = bits_of(number, low, widths[i]);
    }
    fields
}

// Returns the fields of a number, the first one lowest.
fn fields_up<const N: usize>(widths: &[u32; N], number: u64) -> [u64; N]
    requires { FillBytes widths.now }
    ensures { result ≡ fields_up 0 widths.now number }
{
    let mut fields = [0; N];
    let mut low = 0;
    for i in 0..N {
        fields[i] = bits_of(number, low, widths[i]);
        low += widths[i];
    }
    fields
}

// Returns the fields of the number that `count` bytes write.
pub(crate) fn fields_in<const N: usize>(
    order: Endianness,
    widths: &[u32; N],
    count: usize,
    number: u64,
) -> [u64; N]
    requires fill { FillBytes widths.now }
    requires count { 8 * count ≡ sum widths.now }
    ensures { result ≡ fields_in order widths.now number }
{
    match order {
        Endianness::Big => fields_down(widths, 8 * count as u32, number),
        Endianness::Little | Endianness::Native => fields_up(widths, number),
    }
}
