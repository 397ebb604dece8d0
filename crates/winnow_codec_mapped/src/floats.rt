//! Floats by their bits, the most or the least significant byte first.

ghost use Rattle.std.specs.Prelude.{◌≡◌, Some};
ghost use Rattle.std.specs.Float.{binary32, binary64};
ghost use Rattle.winnow_codec_mapped.specs.Floats.{float_of, quiet_four, quiet_eight};
ghost use Rattle.winnow_codec_mapped.specs.Floats.{stands-four, stands-eight};

use crate::{MappedBy, Mapping, mapped};
use std::num::{f32_from_bits_with_nan, f64_from_bits_with_nan};
use winnow_codec::{Be, Le, be_u32, be_u64, le_u32, le_u64};

/// The bits of floats, for which these stand (IEEE 754): 32 of an `f32`, 64 of an `f64`.
///
/// A NaN has one spelling, that of the quiet one that carries nothing (`7f c0 00 00` and
/// `7f f8 00 00 00 00 00 00`), since one NaN is like another here. Other bits of a NaN are not
/// read; a number keeps them ([`be_u32`]).
#[derive(Clone, Copy, Drop)]
pub struct FloatBits;

const QUIET_FOUR: u32 = 0x7fc0_0000;

const QUIET_EIGHT: u64 = 0x7ff8_0000_0000_0000;

impl Mapping<u32> for FloatBits {
    type Value = f32;

    ghost value_of = { λ _. float_of binary32 4294967296 quiet_four };

    ghost one_to_one = { λ _. stands-four };

    fn from_inner(&self, inner: u32) -> Option<f32> {
        let float = f32_from_bits_with_nan(inner);
        if float.is_nan() && inner != QUIET_FOUR {
            return None;
        }
        Some(float)
    }

    fn to_inner(&self, value: &f32) -> Option<u32> {
        Some(bits_of_four(*value))
    }
}

impl Mapping<u64> for FloatBits {
    type Value = f64;

    ghost value_of = { λ _. float_of binary64 18446744073709551616 quiet_eight };

    ghost one_to_one = { λ _. stands-eight };

    fn from_inner(&self, inner: u64) -> Option<f64> {
        let float = f64_from_bits_with_nan(inner);
        if float.is_nan() && inner != QUIET_EIGHT {
            return None;
        }
        Some(float)
    }

    fn to_inner(&self, value: &f64) -> Option<u64> {
        Some(bits_of_eight(*value))
    }
}

// Returns the bits for which a float stands.
fn bits_of_four(float: f32) -> u32
    ensures { float_of binary32 4294967296 quiet_four result ≡ Some float }
{
    if float.is_nan() {
        return QUIET_FOUR;
    }
    float.to_bits()
}

// Returns the bits for which a float stands.
fn bits_of_eight(float: f64) -> u64
    ensures { float_of binary64 18446744073709551616 quiet_eight result ≡ Some float }
{
    if float.is_nan() {
        return QUIET_EIGHT;
    }
    float.to_bits()
}

/// Returns the format of an `f32`, the most significant byte first.
pub fn be_f32() -> MappedBy<Be<u32>, FloatBits> {
    mapped(be_u32(), FloatBits)
}

/// Returns the format of an `f64`, the most significant byte first.
pub fn be_f64() -> MappedBy<Be<u64>, FloatBits> {
    mapped(be_u64(), FloatBits)
}

/// Returns the format of an `f32`, the least significant byte first.
pub fn le_f32() -> MappedBy<Le<u32>, FloatBits> {
    mapped(le_u32(), FloatBits)
}

/// Returns the format of an `f64`, the least significant byte first.
pub fn le_f64() -> MappedBy<Le<u64>, FloatBits> {
    mapped(le_u64(), FloatBits)
}
