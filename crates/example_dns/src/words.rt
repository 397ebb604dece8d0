//! The words for the numbers of a message, and numbers as text.

use format_dns::Message;
use itoa::Buffer;
use std::alloc::AllocError;

/// Appends a number in decimal digits.
pub fn append_number(number: u64, text: &mut Vec<u8>) -> Result<(), AllocError> {
    let mut digits = Buffer::new();
    text.extend_from_slice(digits.format(number).as_bytes())
}

/// Returns the name of the type of a record (RFC 1035, section 3.2.2; RFC 2782; RFC 3596), if it is
/// one whose data are printed as a zone file has them.
pub fn kind_name(kind: u16) -> Option<&'static str> {
    match kind {
        1 => Some("A"),
        2 => Some("NS"),
        5 => Some("CNAME"),
        6 => Some("SOA"),
        12 => Some("PTR"),
        15 => Some("MX"),
        16 => Some("TXT"),
        28 => Some("AAAA"),
        33 => Some("SRV"),
        _ => None,
    }
}

/// Appends the name of a type, or `TYPE` and its number (RFC 3597, section 5).
pub fn append_kind(kind: u16, text: &mut Vec<u8>) -> Result<(), AllocError> {
    match kind_name(kind) {
        Some(name) => text.extend_from_slice(name.as_bytes()),
        None => {
            text.extend_from_slice(b"TYPE")?;
            append_number(kind as u64, text)
        }
    }
}

/// Appends the name of a class: `IN`, or `CLASS` and its number (RFC 3597, section 5).
pub fn append_class(class: u16, text: &mut Vec<u8>) -> Result<(), AllocError> {
    if class == 1 {
        return text.extend_from_slice(b"IN");
    }
    text.extend_from_slice(b"CLASS")?;
    append_number(class as u64, text)
}

/// Returns the name of a response code (section 4.1.1), if it has one there.
pub fn code_name(code: u8) -> Option<&'static str> {
    match code {
        0 => Some("NOERROR"),
        1 => Some("FORMERR"),
        2 => Some("SERVFAIL"),
        3 => Some("NXDOMAIN"),
        4 => Some("NOTIMP"),
        5 => Some("REFUSED"),
        _ => None,
    }
}

/// Returns the name of an opcode (section 4.1.1), if it has one there.
pub fn opcode_name(opcode: u8) -> Option<&'static str> {
    match opcode {
        0 => Some("QUERY"),
        1 => Some("IQUERY"),
        2 => Some("STATUS"),
        _ => None,
    }
}

/// Appends a name, or a number where there is none.
pub fn append_name_or(
    name: Option<&'static str>,
    number: u8,
    text: &mut Vec<u8>,
) -> Result<(), AllocError> {
    match name {
        Some(name) => text.extend_from_slice(name.as_bytes()),
        None => append_number(number as u64, text),
    }
}

/// Appends the names of the flags that are set, each after a space.
pub fn append_flags(message: &Message, text: &mut Vec<u8>) -> Result<(), AllocError> {
    if message.is_response() {
        text.extend_from_slice(b" QR")?;
    }
    if message.is_authoritative() {
        text.extend_from_slice(b" AA")?;
    }
    if message.is_truncated() {
        text.extend_from_slice(b" TC")?;
    }
    if message.wants_recursion() {
        text.extend_from_slice(b" RD")?;
    }
    if message.offers_recursion() {
        text.extend_from_slice(b" RA")?;
    }
    Ok(())
}
