//! The notation of an item.

ghost use Rattle.std.specs.Prelude.{◌<◌};

use crate::floats::{append_float, double_of, half_of, single_of};
use format_cbor::{Item, Scalar};
use format_json_scalars::append_string;
use itoa::Buffer;
use std::alloc::AllocError;

/// Appends the notation of an item (section 8), or a front of it if memory is refused. It is on one
/// line, for any item. Calls are nested as deep as the items.
#[cycle(notation)]
pub fn append_item(item: &Item, text: &mut Vec<u8>) -> Result<(), AllocError> {
    match item {
        Item::Scalar(scalar) => append_scalar(scalar, text),
        Item::Array(items) => append_array(items, text),
        Item::Map(entries) => append_map(entries, text),
        Item::Tagged(number, tagged) => {
            append_number(*number, text)?;
            text.push(b'(')?;
            append_item(tagged, text)?;
            text.push(b')')?;
            Ok(())
        }
    }
}

// Appends the items of an array between brackets.
#[cycle(notation)]
fn append_array(items: &[Item], text: &mut Vec<u8>) -> Result<(), AllocError> {
    text.push(b'[')?;
    let mut comma: &[u8] = b"";
    for item in items {
        text.extend_from_slice(comma)?;
        append_item(item, text)?;
        comma = b", ";
    }
    text.push(b']')?;
    Ok(())
}

// Appends the keys and values of a map between braces.
#[cycle(notation)]
fn append_map(entries: &[(Item, Item)], text: &mut Vec<u8>) -> Result<(), AllocError> {
    text.push(b'{')?;
    let mut comma: &[u8] = b"";
    for (key, value) in entries {
        text.extend_from_slice(comma)?;
        append_item(key, text)?;
        text.extend_from_slice(b": ")?;
        append_item(value, text)?;
        comma = b", ";
    }
    text.push(b'}')?;
    Ok(())
}

// Appends a scalar.
fn append_scalar(scalar: &Scalar, text: &mut Vec<u8>) -> Result<(), AllocError> {
    match scalar {
        Scalar::Unsigned(number) => append_number(*number, text),
        Scalar::Negative(number) => append_negative(*number, text),
        Scalar::Bytes(held) => append_bytes(held, text),
        Scalar::Text(held) => append_string(held, text),
        Scalar::Boolean(false) => text.extend_from_slice(b"false"),
        Scalar::Boolean(true) => text.extend_from_slice(b"true"),
        Scalar::Null => text.extend_from_slice(b"null"),
        Scalar::Undefined => text.extend_from_slice(b"undefined"),
        Scalar::Simple(number) => append_simple(*number, text),
        Scalar::Half(bits) => append_float(half_of(*bits), text),
        Scalar::Single(bits) => append_float(single_of(*bits), text),
        Scalar::Double(bits) => append_float(double_of(*bits), text),
    }
}

// Appends a number.
fn append_number(number: u64, text: &mut Vec<u8>) -> Result<(), AllocError> {
    let mut buffer = Buffer::new();
    text.extend_from_slice(buffer.format(number).as_bytes())
}

// Appends -1 minus the number.
fn append_negative(number: u64, text: &mut Vec<u8>) -> Result<(), AllocError> {
    let mut buffer = Buffer::new();
    text.push(b'-')?;
    text.extend_from_slice(buffer.format(u128::from(number) + 1).as_bytes())
}

// Appends bytes, each as two digits.
fn append_bytes(held: &[u8], text: &mut Vec<u8>) -> Result<(), AllocError> {
    text.extend_from_slice(b"h'")?;
    for byte in held {
        text.push(digit_of(*byte / 16))?;
        text.push(digit_of(*byte % 16))?;
    }
    text.push(b'\'')?;
    Ok(())
}

// Returns the hexadecimal digit of a number below 16.
fn digit_of(number: u8) -> u8
    requires { number < 16 }
{
    if number < 10 {
        return b'0' + number;
    }
    b'a' + (number - 10)
}

// Appends a simple value without a name.
fn append_simple(number: u8, text: &mut Vec<u8>) -> Result<(), AllocError> {
    text.extend_from_slice(b"simple(")?;
    append_number(u64::from(number), text)?;
    text.push(b')')?;
    Ok(())
}
