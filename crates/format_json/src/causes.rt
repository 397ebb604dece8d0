//! Why a text is malformed: a name for the first byte that cannot continue it.

ghost use Rattle.std.specs.Prelude.{◌≡◌, ◌<◌, length, Some};
ghost use Rattle.format_lemmas.specs.Bytes.{StartsWith};
ghost use Rattle.format_json_scalars.specs.Numbers.{Tells};
ghost use Rattle.format_json_scalars.specs.StringAnswers.{BeginsChar};
ghost use Rattle.format_json.specs.Causes.{is_wide, is_letter, has_leading_zero};
ghost use Rattle.format_json.specs.Causes.{number_cause, other_cause, begins_surrogate, char_cause};
ghost use Rattle.format_json.specs.Causes.{cause_of, IsCut, damage_text};

use crate::tokens::begins_word;
use format_json_scalars::{begins_number, byte_or, digit_value, is_number_byte, may_be_char};
use std::fmt;

/// What is wrong where a token is damaged. Its text says it in a few words.
#[derive(Clone, Copy, Debug, Drop, PartialEq, Eq)]
pub enum Cause {
    /// A zero, 254 or 255, which texts in UTF-16 and UTF-32 have: JSON is in UTF-8
    WideText,
    /// The first byte of a byte order mark, and of some other characters, outside a string
    ByteOrderMark,
    /// A slash or a number sign, which begins a comment elsewhere
    Comment,
    /// A single quote, where strings are in double quotes
    SingleQuote,
    /// A letter that begins none of the words `true`, `false` and `null`, as that of `NaN`; or the
    /// first letter of one that is written otherwise
    OtherWord,
    /// Another byte with which no token begins
    NoToken,
    /// A number with a zero before its first digit, as `01`
    LeadingZero,
    /// Another number that JSON does not write so, as `+1` or `.5`
    BadNumber,
    /// The backslash of an escape that is none, as `\x`
    BadEscape,
    /// The escape of a surrogate without that of the other one of its pair
    LoneSurrogate,
    /// A control character in a string, as a line feed, which is written as an escape there
    ControlCharacter,
    /// Bytes in a string that are no UTF-8
    BadUtf8,
}

impl fmt::Display for Cause {
    ghost output = { λ cause. Some (damage_text cause) };

    fn fmt<W: fmt::Write>(&self, f: &mut fmt::Formatter<W>) -> fmt::Result {
        match self {
            Cause::WideText => write!(f, "a byte of UTF-16 or UTF-32, and JSON is in UTF-8"),
            Cause::ByteOrderMark => write!(
                f,
                "a byte order mark, or another character that is not ASCII, outside a string"
            ),
            Cause::Comment => write!(f, "a comment, which JSON does not have"),
            Cause::SingleQuote => write!(f, "a single quote, and strings are in double quotes"),
            Cause::OtherWord => write!(f, "a word other than true, false and null"),
            Cause::NoToken => write!(f, "no token of JSON begins here"),
            Cause::LeadingZero => write!(f, "a number with a zero before its first digit"),
            Cause::BadNumber => write!(f, "a number that JSON does not write so"),
            Cause::BadEscape => write!(f, "no escape of JSON"),
            Cause::LoneSurrogate => write!(f, "a surrogate without the other one of its pair"),
            Cause::ControlCharacter => {
                write!(f, "a control character, which is an escape in a string")
            }
            Cause::BadUtf8 => write!(f, "bytes that are no UTF-8"),
        }
    }
}

// Returns whether a text in UTF-16 or UTF-32 has the byte, and no token of JSON begins with it.
fn is_wide(byte: u8) -> bool
    ensures { result ≡ is_wide byte }
{
    byte == 0 || byte == 254 || byte == 255
}

// Returns whether the byte is a letter of ASCII.
fn is_letter(byte: u8) -> bool
    ensures { result ≡ is_letter byte }
{
    matches!(byte, b'A'..=b'Z' | b'a'..=b'z')
}

// Returns whether a number begins with a 0 and one more digit, perhaps after a minus.
fn has_leading_zero(bytes: &[u8]) -> bool
    ensures { result ≡ has_leading_zero bytes.now }
{
    let first = byte_or(bytes, 0, 0);
    let second = byte_or(bytes, 1, 0);
    let third = byte_or(bytes, 2, 0);
    first == b'0' && second.is_ascii_digit()
        || first == b'-' && second == b'0' && third.is_ascii_digit()
}

// Returns what is wrong with a number.
fn number_cause(bytes: &[u8]) -> Cause
    ensures { result ≡ number_cause bytes.now }
{
    if has_leading_zero(bytes) {
        return Cause::LeadingZero;
    }
    Cause::BadNumber
}

// Returns what is wrong where the first byte is that of no number and no string.
fn other_cause(byte: u8) -> Cause
    ensures { result ≡ other_cause byte }
{
    if is_wide(byte) {
        return Cause::WideText;
    }
    if byte == 0xEF {
        return Cause::ByteOrderMark;
    }
    if byte == b'/' || byte == b'#' {
        return Cause::Comment;
    }
    if byte == b'\'' {
        return Cause::SingleQuote;
    }
    if is_letter(byte) {
        return Cause::OtherWord;
    }
    Cause::NoToken
}

// Returns whether the bytes begin with an escape of a surrogate, by its first two digits.
fn begins_surrogate(bytes: &[u8]) -> bool
    ensures { result ≡ begins_surrogate bytes.now }
{
    let second = digit_value(byte_or(bytes, 3, 0));
    byte_or(bytes, 1, 0) == b'u'
        && digit_value(byte_or(bytes, 2, 0)) == 13
        && 8 <= second
        && second <= 15
}

// Returns what is wrong where no character begins in a string.
fn char_cause(bytes: &[u8]) -> Cause
    ensures { result ≡ char_cause bytes.now }
{
    let first = byte_or(bytes, 0, 0);
    if first == b'\\' {
        if begins_surrogate(bytes) {
            return Cause::LoneSurrogate;
        }
        return Cause::BadEscape;
    }
    if first == 0 {
        return Cause::WideText;
    }
    if first < 0x20 {
        return Cause::ControlCharacter;
    }
    Cause::BadUtf8
}

/// Returns what is wrong with a token, which is damaged at the rest.
#[doc(hidden)]
pub fn cause_of(here: &[u8], rest: &[u8]) -> Cause
    ensures { result ≡ cause_of here.now rest.now }
{
    let first = byte_or(here, 0, 0);
    if first == b'"' {
        return char_cause(rest);
    }
    if is_number_byte(first) {
        return number_cause(here);
    }
    other_cause(first)
}

/// Returns whether a token, which is damaged at the rest, is only cut off.
#[doc(hidden)]
pub fn is_cut(here: &[u8], rest: &[u8]) -> bool
    requires some { 0 < length here.now }
    requires damaged { StartsWith 34 here.now → ¬ (BeginsChar rest.now) }
    ensures { Tells result (IsCut here.now rest.now) }
{
    if here[0] == b'"' {
        return may_be_char(rest);
    }
    if begins_word(here) {
        return true;
    }
    begins_number(here)
}
