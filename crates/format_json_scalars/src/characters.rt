//! The plain characters of a string, as far as they are UTF-8.

ghost use Rattle.std.specs.Prelude.{◌≡◌, ◌≤◌, ◌<◌, length, take, drop, IfOk};
ghost use Rattle.std.specs.String.{string_bytes};
ghost use Rattle.format_lemmas.specs.Bytes.{Each, Starts, StartsWith};
ghost use Rattle.format_json_scalars.specs.Numbers.{Tells};
ghost use Rattle.format_json_scalars.specs.Strings.{is_plain, is_plain_ascii};
ghost use Rattle.format_json_scalars.specs.StringAnswers.{BeginsChar};
ghost use Rattle.format_json_scalars.specs.Escapes.{MayBeChar};
ghost use Rattle.format_json_scalars.specs.CutChars.{may_follow, is_cut_char, IsLongestText};
ghost use Rattle.format_json_scalars.specs.Steps.{IsStep};
ghost use Rattle.format_json_scalars.specs.Tails.{IsCharAt};

use std::alloc::AllocError;

// What the bytes of a string begin with.
#[derive(Clone, Copy, Debug, Drop, PartialEq, Eq)]
pub(crate) enum Step {
    // This number of bytes, which spell characters
    Taken(usize),
    // The closing quote
    Ended,
    // Bytes that more bytes can make the spelling of a character
    Begun,
    // Neither, no matter what follows
    Wrong,
}

// Returns whether a byte stands for itself in a string.
fn is_plain(byte: u8) -> bool
    ensures { result ≡ is_plain byte }
{
    byte != b'"' && byte != b'\\' && byte >= 0x20
}

// Returns the number of plain bytes with which the bytes begin.
fn plain_count(bytes: &[u8]) -> usize
    ensures within { result ≤ length bytes.now }
    ensures plain { Each is_plain (take result bytes.now) }
    ensures ends { ¬ (Starts is_plain (drop result bytes.now)) }
{
    for (index, byte) in bytes.iter().enumerate() {
        if !is_plain(*byte) {
            return index;
        }
    }
    bytes.len()
}

// Returns whether a byte is a character of ASCII that stands for itself in a string.
fn is_plain_ascii(byte: u8) -> bool
    ensures { result ≡ is_plain_ascii byte }
{
    is_plain(byte) && byte < 0x80
}

// Returns the number of plain characters of ASCII with which the bytes begin.
fn ascii_count(bytes: &[u8]) -> usize
    ensures within { result ≤ length bytes.now }
    ensures ascii { Each is_plain_ascii (take result bytes.now) }
{
    for (index, byte) in bytes.iter().enumerate() {
        if !is_plain_ascii(*byte) {
            return index;
        }
    }
    bytes.len()
}

/// Returns plain characters of ASCII with which the bytes begin. Most strings are no more, and are
/// read without looking through them for UTF-8.
pub(crate) fn ascii_front(bytes: &[u8]) -> &str
    ensures text { result.now ≡ take (length result.now) bytes.now }
    ensures within { length result.now ≤ length bytes.now }
    ensures ascii { Each is_plain_ascii result.now }
{
    let count = ascii_count(bytes);
    unsafe { std::str::from_utf8_unchecked(&bytes[..count]) }
}

// Returns the longest prefix of the bytes that is UTF-8.
fn text_front(bytes: &[u8]) -> &str
    ensures text { result.now ≡ take (length result.now) bytes.now }
    ensures longest { IsLongestText bytes.now (length result.now) }
{
    match std::str::from_utf8(bytes) {
        Ok(text) => text,
        Err(error) => match std::str::from_utf8(&bytes[..error.valid_up_to()]) {
            Ok(text) => text,
            Err(_) => unreachable!(),
        },
    }
}

// Returns whether `second` may be the second byte of a character of three or four bytes.
fn may_follow(first: u8, second: u8) -> bool
    ensures { result ≡ may_follow first second }
{
    match first {
        0xE0 => matches!(second, 0xA0..=0xBF),
        0xED => matches!(second, 0x80..=0x9F),
        0xF0 => matches!(second, 0x90..=0xBF),
        0xF4 => matches!(second, 0x80..=0x8F),
        _ => matches!(second, 0x80..=0xBF),
    }
}

// Returns whether the bytes begin a character and do not finish it.
fn is_cut_char(bytes: &[u8]) -> bool
    ensures { result ≡ is_cut_char bytes.now }
{
    match *bytes {
        [first] => matches!(first, 0xC2..=0xF4),
        [first, second] => matches!(first, 0xE0..=0xF4) && may_follow(first, second),
        [first, second, third] => {
            matches!(first, 0xF0..=0xF4)
                && matches!(third, 0x80..=0xBF)
                && may_follow(first, second)
        }
        _ => false,
    }
}

// Returns whether more bytes make the bytes, with which neither a character nor an escape begins,
// the spelling of a character.
pub(crate) fn is_cut_text(bytes: &[u8]) -> bool
    requires some { 0 < length bytes.now }
    requires no_slash { ¬ (StartsWith 92 bytes.now) }
    requires none { ¬ (BeginsChar bytes.now) }
    ensures { Tells result (MayBeChar bytes.now) }
{
    if plain_count(bytes) != bytes.len() {
        return false;
    }
    is_cut_char(bytes)
}

// Appends the plain characters with which the bytes begin, which begin neither with a quote nor
// with a backslash.
pub(crate) fn append_plain(value: &mut String, bytes: &[u8]) -> Result<Step, AllocError>
    requires some { 0 < length bytes.now }
    requires no_quote { ¬ (StartsWith 34 bytes.now) }
    requires no_slash { ¬ (StartsWith 92 bytes.now) }
    ensures { IfOk result
        (λ step. IsStep bytes.now (string_bytes value.old) step (string_bytes value.new)) }
{
    let count = plain_count(bytes);
    let run = &bytes[..count];
    let text = text_front(run);
    if !text.is_empty() {
        value.push_str(text)?;
        return Ok(Step::Taken(text.len()));
    }
    if count != bytes.len() {
        return Ok(Step::Wrong);
    }
    if is_cut_char(run) {
        return Ok(Step::Begun);
    }
    Ok(Step::Wrong)
}

// Returns what stands at the front of bytes that begin neither with a quote nor with a backslash.
pub(crate) fn plain_at(bytes: &[u8]) -> Step
    requires some { 0 < length bytes.now }
    requires no_slash { ¬ (StartsWith 92 bytes.now) }
    ensures { IsCharAt bytes.now result }
{
    let count = plain_count(bytes);
    let text = text_front(&bytes[..count]);
    if !text.is_empty() {
        return Step::Taken(text.len());
    }
    if count == bytes.len() && is_cut_char(bytes) {
        return Step::Begun;
    }
    Step::Wrong
}
