//! What is wrong where a reply breaks off.

ghost use Rattle.std.specs.Prelude.{◌≡◌, ◌+◌, ◌^◌, ◌≤◌, ◌<◌, length, take, drop, Some, IfSome};
ghost use Rattle.format_resp.specs.Language.{is_in_line};
ghost use Rattle.format_resp.specs.Parts.{text_width, begins_end, line_width, count_of, held_count};
ghost use Rattle.format_resp.specs.Parts.{held_width, part_width, EndsInPart};
ghost use Rattle.format_resp.specs.Parts.{is_number_kind, number_fault, first_fault};
ghost use Rattle.format_resp.specs.Parts.{is_short, fault};
ghost use Rattle.format_resp.specs.Causes.{IsCauseOf, damage_text};

use crate::numbers::number_in;
use std::fmt;

/// What is wrong where a reply breaks off. Its text says it in a few words.
#[derive(Clone, Copy, Debug, Drop, PartialEq, Eq)]
pub enum Cause {
    /// Nothing but that the input ends before the reply does
    EndsInside,
    /// A byte with which no reply begins
    NoKind,
    /// An array with replies in it, within as many arrays as are allowed
    TooDeep,
    /// A line with a text that is no integer
    NoInteger,
    /// A line with a text that is no length
    NoLength,
    /// A line with a length above the limit on bulk strings
    TooLong,
    /// No carriage return with a newline where the text of a line, or a bulk string, ends
    NoLineEnd,
}

impl fmt::Display for Cause {
    ghost output = { λ cause. Some (damage_text cause) };

    fn fmt<W: fmt::Write>(&self, f: &mut fmt::Formatter<W>) -> fmt::Result {
        match self {
            Cause::EndsInside => write!(f, "the input ends before the reply does"),
            Cause::NoKind => write!(f, "no reply begins with this byte"),
            Cause::TooDeep => write!(f, "too many arrays inside one another"),
            Cause::NoInteger => write!(f, "a text that is no integer"),
            Cause::NoLength => write!(f, "a text that is no length"),
            Cause::TooLong => write!(f, "a length above the limit"),
            Cause::NoLineEnd => write!(f, "no CR LF where a line or a bulk string must end"),
        }
    }
}

// Returns whether a byte may stand in a line.
fn is_in_line(byte: u8) -> bool
    ensures { result ≡ is_in_line byte }
{
    !(byte == b'\r' || byte == b'\n')
}

// Returns the number of bytes before the first carriage return or newline.
fn text_width(bytes: &[u8]) -> usize
    ensures width { result ≡ text_width bytes.now }
    ensures within { result ≤ length bytes.now }
{
    bytes.iter().take_while(|byte| is_in_line(**byte)).count()
}

// Returns whether the bytes begin with a line end.
fn begins_end(bytes: &[u8]) -> bool
    ensures { result ≡ begins_end bytes.now }
{
    bytes.len() >= 2 && bytes[0] == b'\r' && bytes[1] == b'\n'
}

// Returns the width of the text of the line that stands first, if one does.
fn line_width(bytes: &[u8]) -> Option<usize>
    ensures line { result ≡ line_width bytes.now }
    ensures within { IfSome result (λ width. width + 2 ≤ length bytes.now) }
{
    let width = text_width(bytes);
    if !begins_end(&bytes[width..]) {
        return None;
    }
    Some(width)
}

// Returns the number that the text is, if it is one of 64 bits as std writes it.
fn count_of(text: &[u8]) -> Option<usize>
    ensures { result ≡ count_of text.now }
{
    number_in(text)
}

// Returns the number of bytes that follow a line with this text, after the byte of the kind.
fn held_count(kind: u8, text: &[u8]) -> Option<usize>
    ensures { result ≡ held_count kind text.now }
{
    if kind != b'$' {
        return None;
    }
    count_of(text)
}

// Returns the width of a part whose text is this wide and that has this number of bytes after its
// line, if they and a line end are among the bytes after the byte of its kind, which are this many.
fn held_width(width: usize, room: usize, count: Option<usize>) -> Option<usize>
    requires line { width + 2 ≤ room }
    requires kind { room + 1 < 2 ^ 64 }
    ensures { result ≡ held_width width room count }
{
    let Some(count) = count else {
        return Some(width + 3);
    };
    let left = room - width - 2;
    if left < 2 || left - 2 < count {
        return None;
    }
    Some(width + count + 5)
}

// Returns the width of the part that stands first, if it is whole.
fn part_width(bytes: &[u8]) -> Option<usize>
    ensures part { result ≡ part_width bytes.now }
    ensures within { IfSome result (λ width. (0 < width) × (width ≤ length bytes.now)) }
{
    if bytes.is_empty() {
        return None;
    }
    let after = &bytes[1..];
    let Some(width) = line_width(after) else {
        return None;
    };
    held_width(width, after.len(), held_count(bytes[0], &after[..width]))
}

// Returns where the part begins that the bytes end in, after whole parts.
fn last_part(bytes: &[u8]) -> usize
    ensures within { result ≤ length bytes.now }
    ensures last { EndsInPart bytes.now (drop result bytes.now) }
{
    let mut at = 0;
    while let Some(width) = part_width(&bytes[at..]) {
        at += width;
    }
    at
}

// Returns what is wrong with the text of a number, after the byte of this kind.
fn number_fault(kind: u8, text: &[u8]) -> Cause
    ensures { result ≡ number_fault kind text.now }
{
    if kind == b':' {
        return Cause::NoInteger;
    }
    if count_of(text).is_none() {
        return Cause::NoLength;
    }
    if kind == b'$' {
        return Cause::TooLong;
    }
    Cause::TooDeep
}

// Returns whether the byte is the kind of a number or of a length.
fn is_number_kind(kind: u8) -> bool
    ensures { result ≡ is_number_kind kind }
{
    kind == b':' || kind == b'$' || kind == b'*'
}

// Returns what is wrong at the rest, right after the byte of this kind.
fn first_fault(kind: u8, rest: &[u8]) -> Cause
    requires { 0 < length rest.now }
    ensures { result ≡ first_fault kind rest.now }
{
    if !is_number_kind(kind) || rest[0] == b'\n' {
        return Cause::NoLineEnd;
    }
    match line_width(rest) {
        Some(width) => number_fault(kind, &rest[..width]),
        None => Cause::EndsInside,
    }
}

// Returns whether the part that has begun is a bulk string with fewer bytes than it says.
fn is_short(begun: &[u8]) -> bool
    requires { 0 < length begun.now }
    ensures { result ≡ is_short begun.now }
{
    let after = &begun[1..];
    let Some(width) = line_width(after) else {
        return false;
    };
    match held_count(begun[0], &after[..width]) {
        Some(count) => after.len() - width - 2 < count,
        None => false,
    }
}

// Returns what is wrong at the rest with the part that has begun.
fn fault(begun: &[u8], rest: &[u8]) -> Cause
    ensures { result ≡ fault begun.now rest.now }
{
    if rest.is_empty() {
        return Cause::EndsInside;
    }
    if begun.is_empty() {
        return Cause::NoKind;
    }
    if begun.len() == 1 {
        return first_fault(begun[0], rest);
    }
    if is_short(begun) {
        return Cause::EndsInside;
    }
    Cause::NoLineEnd
}

/// Returns what is wrong where a reply breaks off. `before` has its bytes from the first one up to
/// the place, and `rest` what stands there.
///
/// It goes over the bytes once. More input changes no cause but
/// [`EndsInside`](Cause::EndsInside), and that is none where more may follow.
pub fn cause_of(before: &[u8], rest: &[u8]) -> Cause
    ensures { IsCauseOf result before.now rest.now }
{
    let begin = last_part(before);
    fault(&before[begin..], rest)
}
