//! The orders of the bytes of a number: `ByteOrder`, with `BigEndian` and `LittleEndian`.

ghost use Rattle.std.specs.Prelude.{◌≡◌, ◌≤◌, ◌<◌, ◌^◌, ◌++◌, ℕ, List, length, MatchResult};
ghost use Rattle.winnow_parser.specs.Answer.{ahead};
ghost use Rattle.winnow_codec.specs.Formats.{Takes};
ghost use Rattle.winnow_codec.specs.FormatNumbers.{bytes_in, big_endian, little_endian, IsOrder};
ghost use Rattle.winnow_codec.specs.Orders.{IsOrder-big, IsOrder-little};

use crate::Width;
use crate::next_tokens::{four, one, three, two};
use std::alloc::AllocError;
use winnow_stream::Stream;

/// An order in which the bytes of a number come.
pub trait ByteOrder: Sized {
    // The bytes of a number, as many as asked for.
    ghost order: { ℕ → ℕ → List ℕ };

    /// Reads a number of this width, where so many bytes remain.
    fn read_number<I: Stream<Token = u8>>(width: Width, input: &mut I) -> u64
        requires valid { I.valid input.old }
        requires enough { bytes_in width ≤ length (I.remaining input.old) }
        ensures fits { result < 256 ^ bytes_in width }
        ensures taken { Takes (order (bytes_in width) result)
            (ahead I.location I.remaining input.old) (ahead I.location I.remaining input.new) }
        ensures valid { I.valid input.new }
        ensures kept { I.keeps input.old input.new };

    /// Appends the bytes of a number of this width. If memory is refused, the bytes are what they
    /// were.
    fn write_number(width: Width, number: u64, bytes: &mut Vec<u8>) -> Result<(), AllocError>
        requires { number < 256 ^ bytes_in width }
        ensures { MatchResult result
            (λ _. bytes.new.items ≡ bytes.old.items ++ order (bytes_in width) number)
            (λ _. bytes.new.items ≡ bytes.old.items) };

    /// Reads a number of sixteen bytes. At least that many have to remain.
    fn read_wide<I: Stream<Token = u8>>(input: &mut I) -> u128
        requires valid { I.valid input.old }
        requires enough { 16 ≤ length (I.remaining input.old) }
        ensures fits { result < 256 ^ 16 }
        ensures taken { Takes (order 16 result)
            (ahead I.location I.remaining input.old) (ahead I.location I.remaining input.new) }
        ensures valid { I.valid input.new }
        ensures kept { I.keeps input.old input.new };

    /// Appends the bytes of a number of sixteen bytes. If memory is refused, the bytes are what
    /// they were.
    fn write_wide(number: u128, bytes: &mut Vec<u8>) -> Result<(), AllocError>
        ensures { MatchResult result (λ _. bytes.new.items ≡ bytes.old.items ++ order 16 number)
            (λ _. bytes.new.items ≡ bytes.old.items) };

    // A number has as many bytes as its width says or sixteen, and no other number has them.
    ghost ordered: { IsOrder order };
}

/// The order in which the most significant byte comes first, as in protocols of the Internet.
#[derive(Clone, Copy)]
pub struct BigEndian;

impl ByteOrder for BigEndian {
    ghost order = { big_endian };

    ghost ordered = { IsOrder-big };

    #[inline(always)]
    fn read_number<I: Stream<Token = u8>>(width: Width, input: &mut I) -> u64 {
        match width {
            Width::One => u64::from(one(input)),
            Width::Two => {
                let (a, b) = two(input);
                u64::from(u16::from_be_bytes([a, b]))
            }
            Width::Three => {
                let (a, b, c) = three(input);
                u64::from(u32::from_be_bytes([0, a, b, c]))
            }
            Width::Four => {
                let (a, b, c, d) = four(input);
                u64::from(u32::from_be_bytes([a, b, c, d]))
            }
            Width::Eight => {
                let (a, b, c, d) = four(input);
                let (e, f, g, h) = four(input);
                u64::from_be_bytes([a, b, c, d, e, f, g, h])
            }
        }
    }

    #[inline(always)]
    fn write_number(width: Width, number: u64, bytes: &mut Vec<u8>) -> Result<(), AllocError> {
        let all = number.to_be_bytes();
        bytes.extend_from_slice(&all[8 - width.bytes()..])
    }

    fn read_wide<I: Stream<Token = u8>>(input: &mut I) -> u128 {
        let high = BigEndian::read_number(Width::Eight, input);
        let low = BigEndian::read_number(Width::Eight, input);
        u128::from(high) * 18_446_744_073_709_551_616 + u128::from(low)
    }

    fn write_wide(number: u128, bytes: &mut Vec<u8>) -> Result<(), AllocError> {
        bytes.extend_from_slice(&number.to_be_bytes())
    }
}

/// The order in which the least significant byte comes first.
#[derive(Clone, Copy)]
pub struct LittleEndian;

impl ByteOrder for LittleEndian {
    ghost order = { little_endian };

    ghost ordered = { IsOrder-little };

    #[inline(always)]
    fn read_number<I: Stream<Token = u8>>(width: Width, input: &mut I) -> u64 {
        match width {
            Width::One => u64::from(one(input)),
            Width::Two => {
                let (a, b) = two(input);
                u64::from(u16::from_le_bytes([a, b]))
            }
            Width::Three => {
                let (a, b, c) = three(input);
                u64::from(u32::from_le_bytes([a, b, c, 0]))
            }
            Width::Four => {
                let (a, b, c, d) = four(input);
                u64::from(u32::from_le_bytes([a, b, c, d]))
            }
            Width::Eight => {
                let (a, b, c, d) = four(input);
                let (e, f, g, h) = four(input);
                u64::from_le_bytes([a, b, c, d, e, f, g, h])
            }
        }
    }

    #[inline(always)]
    fn write_number(width: Width, number: u64, bytes: &mut Vec<u8>) -> Result<(), AllocError> {
        let all = number.to_le_bytes();
        bytes.extend_from_slice(&all[..width.bytes()])
    }

    fn read_wide<I: Stream<Token = u8>>(input: &mut I) -> u128 {
        let low = LittleEndian::read_number(Width::Eight, input);
        let high = LittleEndian::read_number(Width::Eight, input);
        u128::from(high) * 18_446_744_073_709_551_616 + u128::from(low)
    }

    fn write_wide(number: u128, bytes: &mut Vec<u8>) -> Result<(), AllocError> {
        bytes.extend_from_slice(&number.to_le_bytes())
    }
}
