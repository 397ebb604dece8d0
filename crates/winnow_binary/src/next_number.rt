//! The numbers that the next bytes of a stream write.

ghost use Rattle.std.specs.Prelude.{◌≡◌, ◌≤◌, ◌<◌, ◌^◌, length, take};
ghost use Rattle.winnow_match.specs.Bytes.{bytes_of};
ghost use Rattle.winnow_parser.specs.Answer.{ahead};
ghost use Rattle.winnow_binary.specs.Numerals.{number_in, bytes_in, after_tokens};

use crate::endianness::{join_bytes, join_eights, join_pairs, join_quads, join_three};
use crate::{Endianness, Width};
use winnow_stream::Stream;

// Returns the next byte.
#[inline(always)]
fn one<I: Stream<Token = u8>>(order: Endianness, input: &mut I) -> u8
    requires valid { I.valid input.old }
    requires enough { 1 ≤ length (I.remaining input.old) }
    ensures number { result ≡ number_in order (bytes_of (take 1 (I.remaining input.old))) }
    ensures stands { ahead I.location I.remaining input.new
        ≡ after_tokens 1 (ahead I.location I.remaining input.old) }
    ensures valid { I.valid input.new }
    ensures kept { I.keeps input.old input.new }
{
    match input.next_token() {
        Some(byte) => byte,
        None => unreachable!(),
    }
}

// Returns the number that the next two bytes write.
#[inline(always)]
fn two<I: Stream<Token = u8>>(order: Endianness, input: &mut I) -> u16
    requires valid { I.valid input.old }
    requires enough { 2 ≤ length (I.remaining input.old) }
    ensures number { result ≡ number_in order (bytes_of (take 2 (I.remaining input.old))) }
    ensures stands { ahead I.location I.remaining input.new
        ≡ after_tokens 2 (ahead I.location I.remaining input.old) }
    ensures valid { I.valid input.new }
    ensures kept { I.keeps input.old input.new }
{
    let first = one(order, input);
    let second = one(order, input);
    join_bytes(order, first, second)
}

// Returns the number that the next three bytes write.
#[inline(always)]
pub(crate) fn three<I: Stream<Token = u8>>(order: Endianness, input: &mut I) -> u32
    requires valid { I.valid input.old }
    requires enough { 3 ≤ length (I.remaining input.old) }
    ensures number { result ≡ number_in order (bytes_of (take 3 (I.remaining input.old))) }
    ensures bound { result < 256 ^ 3 }
    ensures stands { ahead I.location I.remaining input.new
        ≡ after_tokens 3 (ahead I.location I.remaining input.old) }
    ensures valid { I.valid input.new }
    ensures kept { I.keeps input.old input.new }
{
    let first = one(order, input);
    let second = one(order, input);
    let third = one(order, input);
    join_three(order, first, second, third)
}

// Returns the number that the next four bytes write.
#[inline(always)]
fn four<I: Stream<Token = u8>>(order: Endianness, input: &mut I) -> u32
    requires valid { I.valid input.old }
    requires enough { 4 ≤ length (I.remaining input.old) }
    ensures number { result ≡ number_in order (bytes_of (take 4 (I.remaining input.old))) }
    ensures stands { ahead I.location I.remaining input.new
        ≡ after_tokens 4 (ahead I.location I.remaining input.old) }
    ensures valid { I.valid input.new }
    ensures kept { I.keeps input.old input.new }
{
    let first = two(order, input);
    let second = two(order, input);
    join_pairs(order, first, second)
}

// Returns the number that the next eight bytes write.
#[inline(always)]
fn eight<I: Stream<Token = u8>>(order: Endianness, input: &mut I) -> u64
    requires valid { I.valid input.old }
    requires enough { 8 ≤ length (I.remaining input.old) }
    ensures number { result ≡ number_in order (bytes_of (take 8 (I.remaining input.old))) }
    ensures stands { ahead I.location I.remaining input.new
        ≡ after_tokens 8 (ahead I.location I.remaining input.old) }
    ensures valid { I.valid input.new }
    ensures kept { I.keeps input.old input.new }
{
    let first = four(order, input);
    let second = four(order, input);
    join_quads(order, first, second)
}

// Returns the number that the next sixteen bytes write.
#[inline(always)]
pub(crate) fn sixteen<I: Stream<Token = u8>>(order: Endianness, input: &mut I) -> u128
    requires valid { I.valid input.old }
    requires enough { 16 ≤ length (I.remaining input.old) }
    ensures number { result ≡ number_in order (bytes_of (take 16 (I.remaining input.old))) }
    ensures bound { result < 256 ^ 16 }
    ensures stands { ahead I.location I.remaining input.new
        ≡ after_tokens 16 (ahead I.location I.remaining input.old) }
    ensures valid { I.valid input.new }
    ensures kept { I.keeps input.old input.new }
{
    let first = eight(order, input);
    let second = eight(order, input);
    join_eights(order, first, second)
}

// Returns the number that the next bytes write, as many as the width says.
#[inline(always)]
pub(crate) fn next_number<I: Stream<Token = u8>>(
    width: Width,
    order: Endianness,
    input: &mut I,
) -> u64
    requires valid { I.valid input.old }
    requires enough { bytes_in width ≤ length (I.remaining input.old) }
    ensures number { result
        ≡ number_in order (bytes_of (take (bytes_in width) (I.remaining input.old))) }
    ensures bound { result < 256 ^ bytes_in width }
    ensures stands { ahead I.location I.remaining input.new
        ≡ after_tokens (bytes_in width) (ahead I.location I.remaining input.old) }
    ensures valid { I.valid input.new }
    ensures kept { I.keeps input.old input.new }
{
    match width {
        Width::One => u64::from(one(order, input)),
        Width::Two => u64::from(two(order, input)),
        Width::Four => u64::from(four(order, input)),
        Width::Eight => eight(order, input),
    }
}
