//! A scalar as a value: `Scalar`.

ghost use Rattle.std.specs.Prelude.{◌≡◌, ◌↔◌, IsTrue, ℕ, [], MatchOption};
ghost use Rattle.format_cbor.specs.declared.head.Kind.TheVariants.{Simple, Half, Single, Double};
ghost use Rattle.format_cbor.specs.Scalars.{head_of, body_of, IsSpelled, IsString};
ghost use Rattle.format_cbor.specs.declared.scalar.Scalar.{Scalar};

use crate::float::{is_shortest_double, is_shortest_half, is_shortest_single};
use crate::{Head, Kind};

/// A scalar: a data item that holds no other (section 3.1).
#[derive(Debug, Drop)]
pub enum Scalar {
    /// An integer from 0 on
    Unsigned(u64),
    /// A negative integer: -1 minus this number
    Negative(u64),
    /// Bytes
    Bytes(Vec<u8>),
    /// A text
    Text(String),
    /// False or true
    Boolean(bool),
    /// Null
    Null,
    /// Undefined
    Undefined,
    /// A simple value that has no name, by its number. Those from 20 to 31 have no spelling
    Simple(u8),
    /// A float of 16 bits, by its bits. A float has a spelling if no fewer bits have its value
    /// (section 4.2.1), and of the NaNs `Half(0x7e00)` alone has one
    Half(u16),
    /// A float of 32 bits, by its bits
    Single(u32),
    /// A float of 64 bits, by its bits
    Double(u64),
}

// Returns the head of this kind and argument.
pub(crate) fn head(kind: Kind, argument: u64) -> Head
    ensures { result ≡ record { kind = kind; argument = argument } }
{
    Head { kind, argument }
}

// Returns the head of the scalar.
pub(crate) fn head_of(scalar: &Scalar) -> Head
    ensures { result ≡ head_of scalar.now }
{
    match scalar {
        Scalar::Unsigned(number) => head(Kind::Unsigned, *number),
        Scalar::Negative(number) => head(Kind::Negative, *number),
        Scalar::Bytes(held) => head(Kind::Bytes, held.len() as u64),
        Scalar::Text(text) => head(Kind::Text, text.len() as u64),
        Scalar::Boolean(false) => head(Kind::Simple, 20),
        Scalar::Boolean(true) => head(Kind::Simple, 21),
        Scalar::Null => head(Kind::Simple, 22),
        Scalar::Undefined => head(Kind::Simple, 23),
        Scalar::Simple(number) => head(Kind::Simple, u64::from(*number)),
        Scalar::Half(bits) => head(Kind::Half, u64::from(*bits)),
        Scalar::Single(bits) => head(Kind::Single, u64::from(*bits)),
        Scalar::Double(bits) => head(Kind::Double, *bits),
    }
}

// Returns the bytes after the head of the scalar.
pub(crate) fn body_of(scalar: &Scalar) -> &[u8]
    ensures { result.now ≡ body_of scalar.now }
{
    match scalar {
        Scalar::Bytes(held) => held.as_slice(),
        Scalar::Text(text) => text.as_str().as_bytes(),
        Scalar::Unsigned(_) => &[],
        Scalar::Negative(_) => &[],
        Scalar::Boolean(_) => &[],
        Scalar::Null => &[],
        Scalar::Undefined => &[],
        Scalar::Simple(_) => &[],
        Scalar::Half(_) => &[],
        Scalar::Single(_) => &[],
        Scalar::Double(_) => &[],
    }
}

// Returns whether the scalar has a spelling.
pub(crate) fn is_spelled(longest: usize, scalar: &Scalar) -> bool
    ensures { IsTrue result ↔ IsSpelled longest scalar.now }
{
    match scalar {
        Scalar::Bytes(held) => held.len() <= longest,
        Scalar::Text(text) => text.as_str().as_bytes().len() <= longest,
        Scalar::Simple(number) => *number < 20 || 24 <= *number,
        Scalar::Half(bits) => is_shortest_half(*bits),
        Scalar::Single(bits) => is_shortest_single(*bits),
        Scalar::Double(bits) => is_shortest_double(*bits),
        Scalar::Unsigned(_) => true,
        Scalar::Negative(_) => true,
        Scalar::Boolean(_) => true,
        Scalar::Null => true,
        Scalar::Undefined => true,
    }
}

// Returns the simple value with this number.
fn simple(number: u8) -> Scalar
    ensures head { head_of result ≡ record { kind = Simple; argument = number } }
    ensures spelled { (longest : ℕ) → IsSpelled longest result }
    ensures body { body_of result ≡ [] }
{
    match number {
        20 => Scalar::Boolean(false),
        21 => Scalar::Boolean(true),
        22 => Scalar::Null,
        23 => Scalar::Undefined,
        _ => Scalar::Simple(number),
    }
}

// Returns the float with these bits, if no shorter one has its value.
fn half(bits: u16) -> Option<Scalar>
    ensures { MatchOption result
        ((longest : ℕ) (s : Scalar) → (head_of s).kind ≡ Half → (head_of s).argument ≡ bits
        → IsSpelled longest s → IsString s)
        (λ s. (head_of s ≡ record { kind = Half; argument = bits })
        × ((longest : ℕ) → IsSpelled longest s) × (body_of s ≡ [])) }
{
    if is_shortest_half(bits) {
        Some(Scalar::Half(bits))
    } else {
        None
    }
}

// Returns the float with these bits, if no shorter one has its value.
fn single(bits: u32) -> Option<Scalar>
    ensures { MatchOption result
        ((longest : ℕ) (s : Scalar) → (head_of s).kind ≡ Single → (head_of s).argument ≡ bits
        → IsSpelled longest s → IsString s)
        (λ s. (head_of s ≡ record { kind = Single; argument = bits })
        × ((longest : ℕ) → IsSpelled longest s) × (body_of s ≡ [])) }
{
    if is_shortest_single(bits) {
        Some(Scalar::Single(bits))
    } else {
        None
    }
}

// Returns the float with these bits, if no shorter one has its value.
fn double(bits: u64) -> Option<Scalar>
    ensures { MatchOption result
        ((longest : ℕ) (s : Scalar) → (head_of s).kind ≡ Double → (head_of s).argument ≡ bits
        → IsSpelled longest s → IsString s)
        (λ s. (head_of s ≡ record { kind = Double; argument = bits })
        × ((longest : ℕ) → IsSpelled longest s) × (body_of s ≡ [])) }
{
    if is_shortest_double(bits) {
        Some(Scalar::Double(bits))
    } else {
        None
    }
}

// Returns the scalar with this head that is no string, if there is one.
pub(crate) fn of_head(head: Head) -> Option<Scalar>
    ensures { MatchOption result
        ((longest : ℕ) (s : Scalar) → head ≡ head_of s → IsSpelled longest s → IsString s)
        (λ s. (head ≡ head_of s) × ((longest : ℕ) → IsSpelled longest s) × (body_of s ≡ [])) }
{
    match head.kind {
        Kind::Unsigned => Some(Scalar::Unsigned(head.argument)),
        Kind::Negative => Some(Scalar::Negative(head.argument)),
        Kind::Simple => match u8::try_from(head.argument) {
            Ok(number) => Some(simple(number)),
            Err(_) => None,
        },
        Kind::Half => match u16::try_from(head.argument) {
            Ok(bits) => half(bits),
            Err(_) => None,
        },
        Kind::Single => match u32::try_from(head.argument) {
            Ok(bits) => single(bits),
            Err(_) => None,
        },
        Kind::Double => double(head.argument),
        Kind::Bytes => None,
        Kind::Text => None,
        Kind::Array => None,
        Kind::Map => None,
        Kind::Tag => None,
    }
}
