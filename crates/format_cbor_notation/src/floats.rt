//! The notation of a float.

use itoa::Buffer;
use std::alloc::AllocError;

/// The value of a float.
#[derive(Clone, Copy, Debug, Drop)]
pub enum Float {
    /// It is no number
    NaN,
    /// It is a number, or infinite
    Number(f64),
}

// The smallest half above 0, 2 to the power of -24.
const SMALLEST_HALF: f64 = 5.960_464_477_539_062_5e-8;

// Returns the value of a float of 16 bits.
pub(crate) fn half_of(bits: u16) -> Float {
    let exponent = bits / 1024 % 32;
    let fraction = bits % 1024;
    let magnitude = match exponent {
        31 if fraction != 0 => return Float::NaN,
        31 => f64::INFINITY,
        0 => f64::from(fraction) * SMALLEST_HALF,
        _ => {
            let power = f64::from(1_u32 << (exponent - 1));
            f64::from(1024 + fraction) * power * SMALLEST_HALF
        }
    };
    Float::Number(if bits < 32768 { magnitude } else { -magnitude })
}

// Returns the value of a float of 32 bits.
pub(crate) fn single_of(bits: u32) -> Float {
    if 0x7f80_0000 < bits % 0x8000_0000 {
        return Float::NaN;
    }
    Float::Number(f64::from(f32::from_bits(bits)))
}

// Returns the value of a float of 64 bits.
pub(crate) fn double_of(bits: u64) -> Float {
    if 0x7ff0_0000_0000_0000 < bits % 0x8000_0000_0000_0000 {
        return Float::NaN;
    }
    Float::Number(f64::from_bits(bits))
}

/// Appends the notation of a float: the shortest decimal number that is read back as it, with a
/// point; or a word.
pub fn append_float(float: Float, text: &mut Vec<u8>) -> Result<(), AllocError> {
    let Float::Number(number) = float else {
        return text.extend_from_slice(b"NaN");
    };
    if number.is_infinite() {
        let word: &[u8] = if number < 0.0 {
            b"-Infinity"
        } else {
            b"Infinity"
        };
        return text.extend_from_slice(word);
    }
    let mut buffer = ryu::Buffer::new();
    append_laid_out(buffer.format(number), text)
}

// Appends a number in the layout of ECMAScript, and with a point: with an exponent if it is below
// 1e-6, or 1e21 or more.
fn append_laid_out(written: &str, text: &mut Vec<u8>) -> Result<(), AllocError> {
    let (mantissa, exponent) = match written.split_once('e') {
        Some((mantissa, power)) => (mantissa, power.parse::<i32>().unwrap_or(0)),
        None => (written, 0),
    };
    let mantissa = match mantissa.strip_prefix('-') {
        Some(magnitude) => {
            text.push(b'-')?;
            magnitude
        }
        None => mantissa,
    };
    let (whole, fraction) = mantissa.split_once('.').unwrap_or((mantissa, ""));
    let mut digits = Vec::new(*text.allocator());
    push_digits(whole, &mut digits)?;
    let before = i32::try_from(digits.len()).unwrap_or(0);
    let zeros = push_digits(fraction, &mut digits)?;
    let point = exponent.saturating_add(before).saturating_sub(zeros);
    append_digits(trimmed(&digits), point, text)
}

// Appends digits without the zeros before the first one, and returns how many those are.
fn push_digits(part: &str, digits: &mut Vec<u8>) -> Result<i32, AllocError> {
    let mut zeros: i32 = 0;
    for byte in part.as_bytes() {
        if *byte == b'0' && digits.is_empty() {
            zeros = zeros.saturating_add(1);
        } else {
            digits.push(*byte)?;
        }
    }
    Ok(zeros)
}

// Returns the digits without the zeros at their end.
fn trimmed(digits: &[u8]) -> &[u8] {
    match digits.iter().rposition(|digit| *digit != b'0') {
        Some(last) => digits.get(..=last).unwrap_or(digits),
        None => &[],
    }
}

// Appends the number with these digits, of which this many are before the point.
fn append_digits(digits: &[u8], point: i32, text: &mut Vec<u8>) -> Result<(), AllocError> {
    if digits.is_empty() {
        return text.extend_from_slice(b"0.0");
    }
    if 21 < point || point <= -6 {
        return append_power(digits, point, text);
    }
    if point <= 0 {
        text.extend_from_slice(b"0.")?;
        append_zeros(point.unsigned_abs(), text)?;
        return text.extend_from_slice(digits);
    }
    let whole = point.unsigned_abs() as usize;
    if whole < digits.len() {
        let (before, after) = digits.split_at(whole);
        text.extend_from_slice(before)?;
        text.push(b'.')?;
        return text.extend_from_slice(after);
    }
    text.extend_from_slice(digits)?;
    append_zeros((whole - digits.len()) as u32, text)?;
    text.extend_from_slice(b".0")
}

// Appends this many zeros.
fn append_zeros(count: u32, text: &mut Vec<u8>) -> Result<(), AllocError> {
    for _ in 0..count {
        text.push(b'0')?;
    }
    Ok(())
}

// Appends the number with these digits, of which this many are before the point, with an exponent.
fn append_power(digits: &[u8], point: i32, text: &mut Vec<u8>) -> Result<(), AllocError> {
    let (first, after) = digits.split_at(digits.len().min(1));
    text.extend_from_slice(first)?;
    text.push(b'.')?;
    text.extend_from_slice(if after.is_empty() { b"0" } else { after })?;
    let power = point.saturating_sub(1);
    text.extend_from_slice(if power < 0 { b"e-" } else { b"e+" })?;
    let mut buffer = Buffer::new();
    text.extend_from_slice(buffer.format(power.unsigned_abs()).as_bytes())
}
