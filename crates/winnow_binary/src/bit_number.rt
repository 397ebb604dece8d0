//! The number that the next bytes of a stream write, of any count up to eight.

ghost use Rattle.std.specs.Prelude.{◌≡◌, ◌≤◌, ◌<◌, ◌+◌, ◌^◌, [], ◌∷◌, length, take};
ghost use Rattle.winnow_match.specs.Bytes.{bytes_of};
ghost use Rattle.winnow_parser.specs.Answer.{ahead};
ghost use Rattle.winnow_binary.specs.Numerals.{number_in, after_tokens};
ghost use Rattle.winnow_binary.specs.FieldBytes.{with_byte};

use crate::Endianness;
use winnow_stream::Stream;

// Returns the next byte.
#[inline(always)]
fn next_byte<I: Stream<Token = u8>>(input: &mut I) -> u8
    requires valid { I.valid input.old }
    requires some { 1 ≤ length (I.remaining input.old) }
    ensures byte { bytes_of (take 1 (I.remaining input.old)) ≡ result ∷ [] }
    ensures stands { ahead I.location I.remaining input.new
        ≡ after_tokens 1 (ahead I.location I.remaining input.old) }
    ensures valid { I.valid input.new }
    ensures kept { I.keeps input.old input.new }
{
    match input.next_token() {
        Some(byte) => byte,
        None => unreachable!(),
    }
}

// Returns the number of `count` bytes, which write a number, and of one byte after them.
#[inline(always)]
fn with_byte(order: Endianness, count: usize, number: u64, byte: u8) -> u64
    requires count { count < 8 }
    requires bound { number < 256 ^ count }
    ensures number { result ≡ with_byte order count number byte }
    ensures bound { result < 256 ^ (count + 1) }
{
    match order {
        Endianness::Big => number * 256 + u64::from(byte),
        Endianness::Little | Endianness::Native => number + (u64::from(byte) << (8 * count)),
    }
}

// Returns the number that the next bytes write, at most eight of them.
#[inline(always)]
pub(crate) fn next_number<I: Stream<Token = u8>>(
    count: usize,
    order: Endianness,
    input: &mut I,
) -> u64
    requires valid { I.valid input.old }
    requires count { count ≤ 8 }
    requires enough { count ≤ length (I.remaining input.old) }
    ensures number { result ≡ number_in order (bytes_of (take count (I.remaining input.old))) }
    ensures stands { ahead I.location I.remaining input.new
        ≡ after_tokens count (ahead I.location I.remaining input.old) }
    ensures valid { I.valid input.new }
    ensures kept { I.keeps input.old input.new }
{
    let mut number = 0;
    for taken in 0..count {
        let byte = next_byte(input);
        number = with_byte(order, taken, number, byte);
    }
    number
}
