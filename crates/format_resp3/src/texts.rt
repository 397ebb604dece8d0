//! The texts of lines: which bytes they may have, and those of numbers.

ghost use Rattle.std.specs.Prelude.{◌≡◌, ◌↔◌, ◌≤◌, length, IsTrue};
ghost use Rattle.std.specs.List.{prefix_len, list_any};
ghost use Rattle.format_resp3.specs.Texts.{ends_line, is_digit, is_digits, unsigned};
ghost use Rattle.format_resp3.specs.Texts.{after_digits, is_integer, is_exponent, is_fraction};
ghost use Rattle.format_resp3.specs.Texts.{is_decimal, IsDouble};

// Returns whether a text has a carriage return or a newline.
pub(crate) fn has_line_end(text: &[u8]) -> bool
    ensures { result ≡ list_any ends_line text.now }
{
    for byte in text {
        if matches!(byte, b'\r' | b'\n') {
            return true;
        }
    }
    false
}

// Returns whether a byte is a digit.
fn is_digit(byte: u8) -> bool
    ensures { result ≡ is_digit byte }
{
    b'0' <= byte && byte <= b'9'
}

// Returns the number of digits that the text begins with.
fn digits_width(text: &[u8]) -> usize
    ensures width { result ≡ prefix_len is_digit text.now }
    ensures within { result ≤ length text.now }
{
    text.iter().take_while(|byte| is_digit(**byte)).count()
}

// Returns whether a text is digits, at least one.
fn is_digits(text: &[u8]) -> bool
    ensures { result ≡ is_digits text.now }
{
    !text.is_empty() && digits_width(text) == text.len()
}

// Returns the text without the sign that it may begin with.
fn unsigned(text: &[u8]) -> &[u8]
    ensures { result.now ≡ unsigned text.now }
{
    match text.split_first() {
        Some((first, rest)) => {
            if *first == b'+' || *first == b'-' {
                rest
            } else {
                text
            }
        }
        None => text,
    }
}

// Returns what follows the digits that the text begins with.
fn after_digits(text: &[u8]) -> &[u8]
    ensures { result.now ≡ after_digits text.now }
{
    &text[digits_width(text)..]
}

// Returns whether a text is a sign or none, and digits.
pub(crate) fn is_integer(text: &[u8]) -> bool
    ensures { result ≡ is_integer text.now }
{
    is_digits(unsigned(text))
}

// Returns whether a text is an exponent or none.
fn is_exponent(text: &[u8]) -> bool
    ensures { result ≡ is_exponent text.now }
{
    match text.split_first() {
        Some((first, rest)) => (*first == b'E' || *first == b'e') && is_integer(rest),
        None => true,
    }
}

// Returns whether a text is a dot with the digits of a fraction or none, and an exponent or none.
fn is_fraction(text: &[u8]) -> bool
    ensures { result ≡ is_fraction text.now }
{
    match text.split_first() {
        Some((first, rest)) => {
            if *first == b'.' {
                is_exponent(after_digits(rest))
            } else {
                is_exponent(text)
            }
        }
        None => true,
    }
}

// Returns whether a text is digits, and then a fraction and an exponent or none.
fn is_decimal(text: &[u8]) -> bool
    ensures { result ≡ is_decimal text.now }
{
    match text.split_first() {
        Some((first, rest)) => is_digit(*first) && is_fraction(after_digits(rest)),
        None => false,
    }
}

// Returns whether a text is that of a double.
pub(crate) fn is_double(text: &[u8]) -> bool
    ensures { IsTrue result ↔ IsDouble text.now }
{
    is_decimal(unsigned(text))
        || text == b"inf".as_slice()
        || text == b"-inf".as_slice()
        || text == b"nan".as_slice()
}
