//! Names as a zone file has them.

use crate::failure::Failure;
use crate::words::append_number;
use format_dns::{Ending, Name, expand};
use std::alloc::AllocError;

/// Returns how many bytes of its message a name has where it stands.
pub fn width_of(name: &Name) -> usize {
    let mut width = match name.ending {
        Ending::Root => 1_usize,
        Ending::Pointer(_) => 2_usize,
    };
    for label in name.labels.iter() {
        width = width.saturating_add(label.len()).saturating_add(1);
    }
    width
}

/// Appends a name that stands at this byte of the message whole, with the pointers followed. Each
/// must lead further back, the first one to before the name (section 4.1.4).
pub fn append_name(
    message: &[u8],
    place: usize,
    name: &Name,
    text: &mut Vec<u8>,
) -> Result<(), Failure> {
    match name.ending {
        Ending::Pointer(target) if place <= target as usize => {
            return Err(Failure::NotBack(target));
        }
        _ => {}
    }
    let bytes = expand(*text.allocator(), message, name)?;
    Ok(append_labels(&bytes, text)?)
}

// Appends the labels of a name that has no pointer, each before a dot; and a dot for the root.
fn append_labels(bytes: &[u8], text: &mut Vec<u8>) -> Result<(), AllocError> {
    if bytes.len() < 2 {
        text.push(b'.')?;
        return Ok(());
    }
    // How many bytes of the label are still to come.
    let mut left = 0_u8;
    let mut is_first = true;
    for byte in bytes {
        if 0 < left {
            append_escaped(*byte, text)?;
            left -= 1;
        } else {
            if !is_first {
                text.push(b'.')?;
            }
            is_first = false;
            left = *byte;
        }
    }
    Ok(())
}

// Appends a byte of a label (RFC 1035, section 5.1).
fn append_escaped(byte: u8, text: &mut Vec<u8>) -> Result<(), AllocError> {
    if b"\"().;\\@$".contains(&byte) {
        text.push(b'\\')?;
        text.push(byte)?;
        return Ok(());
    }
    if b' ' < byte && byte <= b'~' {
        text.push(byte)?;
        return Ok(());
    }
    append_code(byte, text)
}

/// Appends a backslash and three digits.
pub fn append_code(byte: u8, text: &mut Vec<u8>) -> Result<(), AllocError> {
    text.push(b'\\')?;
    if byte < 100 {
        text.push(b'0')?;
    }
    if byte < 10 {
        text.push(b'0')?;
    }
    append_number(byte as u64, text)
}
