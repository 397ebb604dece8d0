//! The data of records as a zone file has them.

use crate::failure::Failure;
use crate::name::{append_code, append_name, width_of};
use crate::words::append_number;
use example_base::Trouble;
use format_dns::{Record, names};
use std::alloc::{AllocError, Global};
use std::fmt::{Display, Write};
use std::net::{Ipv4Addr, Ipv6Addr};
use winnow_codec::{
    Unread, Whole, be_u16, be_u32, bytes_after, count_of, filled_by, list_to_end, u8,
};

/// Appends the data of a record, which stand at this byte of the message, as a zone file has them.
/// They are printed as bytes (RFC 3597, section 5) where their type is another, or they are not as
/// their type has them.
pub fn append_data(
    message: &[u8],
    place: usize,
    record: &Record,
    text: &mut Vec<u8>,
) -> Result<(), Failure> {
    let before = text.len();
    match append_known(message, place, record, text) {
        Ok(true) => return Ok(()),
        Ok(false) => {}
        Err(Failure::Stopped(trouble)) => return Err(Failure::Stopped(trouble)),
        // A name in them is not whole.
        Err(_) => text.truncate(before),
    }
    Ok(append_bytes(&record.data, text)?)
}

// Appends the data by their type, if it is known, and they are so. Addresses and services are those
// of the Internet's class.
fn append_known(
    message: &[u8],
    place: usize,
    record: &Record,
    text: &mut Vec<u8>,
) -> Result<bool, Failure> {
    let data = record.data.as_slice();
    match (record.kind, record.class) {
        (1, 1) => append_address(data, text),
        (2, _) => append_alone(message, place, data, text),
        (5, _) => append_alone(message, place, data, text),
        (6, _) => append_zone(message, place, data, text),
        (12, _) => append_alone(message, place, data, text),
        (15, _) => append_exchange(message, place, data, text),
        (16, _) => append_strings(data, text),
        (28, 1) => append_long_address(data, text),
        (33, 1) => append_service(message, place, data, text),
        _ => Ok(false),
    }
}

// Returns what a part reads of all of the data, or nothing where they are not so.
fn whole<W: Whole>(alloc: Global, part: &W, data: &[u8]) -> Result<Option<W::Value>, Failure> {
    match part.read_whole(alloc, data) {
        Ok(value) => Ok(Some(value)),
        Err(Unread::Malformed) => Ok(None),
        Err(Unread::Refused(_)) => Err(Failure::Stopped(Trouble::OutOfMemory)),
    }
}

// Appends an address of version 4 (RFC 1035, section 3.4.1), if the data are one.
fn append_address(data: &[u8], text: &mut Vec<u8>) -> Result<bool, Failure> {
    let bytes = filled_by(((u8(), u8()), (u8(), u8())));
    match whole(*text.allocator(), &bytes, data)? {
        Some(((first, second), (third, fourth))) => {
            append_shown(Ipv4Addr::new(first, second, third, fourth), text)?;
            Ok(true)
        }
        None => Ok(false),
    }
}

// Appends an address of version 6 (RFC 3596, section 2.2), if the data are one.
fn append_long_address(data: &[u8], text: &mut Vec<u8>) -> Result<bool, Failure> {
    let four = (be_u16(), be_u16(), be_u16(), be_u16());
    match whole(*text.allocator(), &filled_by((four, four)), data)? {
        Some(((a, b, c, d), (e, f, g, h))) => {
            append_shown(Ipv6Addr::new(a, b, c, d, e, f, g, h), text)?;
            Ok(true)
        }
        None => Ok(false),
    }
}

// Appends a value as it is displayed.
fn append_shown<D: Display + Drop>(value: D, text: &mut Vec<u8>) -> Result<(), Failure> {
    let mut shown = String::new(*text.allocator());
    match write!(shown, "{value}") {
        Ok(()) => Ok(text.extend_from_slice(shown.as_bytes())?),
        Err(_) => Err(Failure::Stopped(Trouble::OutOfMemory)),
    }
}

// Appends a name (RFC 1035, section 3.3), if the data are one.
fn append_alone(
    message: &[u8],
    place: usize,
    data: &[u8],
    text: &mut Vec<u8>,
) -> Result<bool, Failure> {
    match whole(*text.allocator(), &filled_by(names()), data)? {
        Some(name) => {
            append_name(message, place, &name, text)?;
            Ok(true)
        }
        None => Ok(false),
    }
}

// Appends a preference and the name of a mail exchange (section 3.3.9), if the data are so.
fn append_exchange(
    message: &[u8],
    place: usize,
    data: &[u8],
    text: &mut Vec<u8>,
) -> Result<bool, Failure> {
    match whole(*text.allocator(), &filled_by((be_u16(), names())), data)? {
        Some((preference, name)) => {
            append_field(preference as u64, text)?;
            append_name(message, place.saturating_add(2), &name, text)?;
            Ok(true)
        }
        None => Ok(false),
    }
}

// Appends the start of a zone of authority (section 3.3.13), if the data are one: the names of its
// server and of its keeper's mailbox, and five numbers.
fn append_zone(
    message: &[u8],
    place: usize,
    data: &[u8],
    text: &mut Vec<u8>,
) -> Result<bool, Failure> {
    let numbers = (be_u32(), be_u32(), be_u32(), be_u32(), be_u32());
    match whole(
        *text.allocator(),
        &filled_by((names(), names(), numbers)),
        data,
    )? {
        Some((server, mailbox, (serial, refresh, retry, expire, minimum))) => {
            append_name(message, place, &server, text)?;
            text.push(b' ')?;
            append_name(
                message,
                place.saturating_add(width_of(&server)),
                &mailbox,
                text,
            )?;
            for number in [serial, refresh, retry, expire, minimum] {
                text.push(b' ')?;
                append_number(number as u64, text)?;
            }
            Ok(true)
        }
        None => Ok(false),
    }
}

// Appends the place of a service (RFC 2782), if the data are one.
fn append_service(
    message: &[u8],
    place: usize,
    data: &[u8],
    text: &mut Vec<u8>,
) -> Result<bool, Failure> {
    let parts = filled_by((be_u16(), be_u16(), be_u16(), names()));
    match whole(*text.allocator(), &parts, data)? {
        Some((priority, weight, port, name)) => {
            append_field(priority as u64, text)?;
            append_field(weight as u64, text)?;
            append_field(port as u64, text)?;
            append_name(message, place.saturating_add(6), &name, text)?;
            Ok(true)
        }
        None => Ok(false),
    }
}

// Appends texts between quotes (RFC 1035, section 3.3.14), if the data are one or more.
fn append_strings(data: &[u8], text: &mut Vec<u8>) -> Result<bool, Failure> {
    let strings = list_to_end(bytes_after(count_of(u8())));
    match whole(*text.allocator(), &strings, data)? {
        Some(strings) if !strings.is_empty() => {
            for (index, string) in strings.iter().enumerate() {
                if 0 < index {
                    text.push(b' ')?;
                }
                append_quoted(string, text)?;
            }
            Ok(true)
        }
        _ => Ok(false),
    }
}

// Appends bytes between quotes.
fn append_quoted(bytes: &[u8], text: &mut Vec<u8>) -> Result<(), AllocError> {
    text.push(b'"')?;
    for byte in bytes {
        if *byte == b'"' || *byte == b'\\' {
            text.push(b'\\')?;
            text.push(*byte)?;
        } else if b' ' <= *byte && *byte <= b'~' {
            text.push(*byte)?;
        } else {
            append_code(*byte, text)?;
        }
    }
    text.push(b'"')?;
    Ok(())
}

// Appends a number and a space.
fn append_field(number: u64, text: &mut Vec<u8>) -> Result<(), AllocError> {
    append_number(number, text)?;
    text.push(b' ')?;
    Ok(())
}

// Appends how many bytes there are, and these in hexadecimal digits.
fn append_bytes(data: &[u8], text: &mut Vec<u8>) -> Result<(), AllocError> {
    text.extend_from_slice(b"\\# ")?;
    append_number(data.len() as u64, text)?;
    if !data.is_empty() {
        text.push(b' ')?;
    }
    for byte in data {
        text.push(hex_digit(*byte / 16))?;
        text.push(hex_digit(*byte % 16))?;
    }
    Ok(())
}

// Returns the digit of a number below 16, or that of its last four bits.
fn hex_digit(number: u8) -> u8 {
    let number = number % 16;
    if number < 10 {
        return b'0' + number;
    }
    b'a' + (number - 10)
}
