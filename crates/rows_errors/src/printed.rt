//! A value printed under the format that a row names.
use rows::Fault;
use std::alloc::{AllocError, Global};
use std::fmt::{Debug, Display};

/// Returns the debug text of the value. Line breaks in it are written `\n`, as a row is one line.
pub fn debugged<T: Debug>(alloc: Global, format: &str, value: &T) -> Result<String, Fault> {
    let text = match format {
        "" | "{:?}" => format!(in alloc; "{value:?}")?,
        "{:#?}" => format!(in alloc; "{value:#?}")?,
        "{:>4?}" => format!(in alloc; "{value:>4?}")?,
        "{:>8?}" => format!(in alloc; "{value:>8?}")?,
        "{:>12?}" => format!(in alloc; "{value:>12?}")?,
        "{:.1?}" => format!(in alloc; "{value:.1?}")?,
        "{:5?}" => format!(in alloc; "{value:5?}")?,
        "{:6.2?}" => format!(in alloc; "{value:6.2?}")?,
        "{:#6.2?}" => format!(in alloc; "{value:#6.2?}")?,
        "{:#08.1?}" => format!(in alloc; "{value:#08.1?}")?,
        _ => return Err(Fault::NoSuchCall),
    };
    Ok(on_one_line(alloc, text.as_str())?)
}

// Returns the text with its line breaks written `\n`.
fn on_one_line(alloc: Global, text: &str) -> Result<String, AllocError> {
    let mut line = String::new(alloc);
    for sign in text.chars() {
        match sign {
            '\n' => line.push_str("\\n")?,
            sign => line.push(sign)?,
        }
    }
    Ok(line)
}

// Returns the printed text with its four options, if they are one text.
fn printed_alike<T: Display>(alloc: Global, value: &T) -> Result<String, Fault> {
    let text = format!(in alloc; "{value}")?;
    let four = format!(in alloc; "{value}|{value:#}|{value:>60}|{value:.3}")?;
    if four != format!(in alloc; "{text}|{text}|{text}|{text}")? {
        return Err(Fault::NoSuchCall);
    }
    Ok(text)
}

/// Returns the printed text, in quotes. Under `{*}` it is that of four formats, which print the
/// same.
pub fn printed<T: Display>(alloc: Global, format: &str, value: &T) -> Result<String, Fault> {
    let text = match format {
        "{*}" => printed_alike(alloc, value)?,
        "{}" => format!(in alloc; "{value}")?,
        "{:#}" => format!(in alloc; "{value:#}")?,
        "{:>60}" => format!(in alloc; "{value:>60}")?,
        "{:.3}" => format!(in alloc; "{value:.3}")?,
        "{:.2}" => format!(in alloc; "{value:.2}")?,
        "{:.1}" => format!(in alloc; "{value:.1}")?,
        "{:.0}" => format!(in alloc; "{value:.0}")?,
        "{:08}" => format!(in alloc; "{value:08}")?,
        "{:+.9}" => format!(in alloc; "{value:+.9}")?,
        "{:*>9}" => format!(in alloc; "{value:*>9}")?,
        "{:*^9.3}" => format!(in alloc; "{value:*^9.3}")?,
        "{:*>#9.1}" => format!(in alloc; "{value:*>#9.1}")?,
        _ => return Err(Fault::NoSuchCall),
    };
    Ok(quoted(alloc, text.as_str())?)
}

/// Returns the text in quotes.
pub fn quoted(alloc: Global, text: &str) -> Result<String, AllocError> {
    format!(in alloc; "{text:?}")
}

/// Returns whether a format asks for a debug text.
pub fn is_debug(format: &str) -> bool {
    format.is_empty() || format.ends_with("?}")
}

/// Returns the printed text or the debug text, as the format says.
pub fn shown<T: Display + Debug>(alloc: Global, format: &str, value: &T) -> Result<String, Fault> {
    if is_debug(format) {
        debugged(alloc, format, value)
    } else {
        printed(alloc, format, value)
    }
}
