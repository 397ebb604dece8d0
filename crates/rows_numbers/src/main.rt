//! Rows of parsers of ASCII text, of numbers and of counted parts, whole and over each front of
//! their input.
//!
//! ```text
//! dec_uint::<u8>() | "12x" 3 | Read(12, "x")
//! ```
//!
//! The call is a parser as Rust writes it. The input is a text or bytes, and the number of its
//! fronts on which the parser needs more, the empty one first. On each longer front, and on the
//! whole, it answers as the row says: `Read(value, rest)`, `Backtrack(rest)` or `Cut(rest)`. An
//! input with `..` is a front, of which the parser is asked alone: `NeedsMore(needed, rest)`.
#![tactic(auto)]

mod ascii;
mod binary;
mod caseless;
mod other_widths;

use rows::{Answers, Fault, Word, Words};
use rows_fronts::Row;
use std::alloc::Global;
use std::process::ExitCode;
use winnow_wrap::Partial;

// The parsers that rows ask.
struct Calls;

type Text<'w> = Partial<&'w str>;

// Answers a call on a text.
fn of_text(alloc: Global, call: &Words, row: &Row<&str>) -> Result<String, Fault> {
    let name = call.plain(0)?;
    match name {
        "escaped" | "take_escaped" => ascii::escapes::<Text<'_>>(alloc, call, row),
        "newline" | "tab" | "crlf" | "line_ending" | "till_line_ending" => {
            ascii::lines::<Text<'_>>(alloc, name, row)
        }
        "literal" => caseless::texts::<Text<'_>>(alloc, call, row),
        _ if name.ends_with('>') => ascii::numbers::<Text<'_>>(alloc, name, row),
        _ => ascii::classes::<Text<'_>>(alloc, name, row),
    }
}

type Bytes<'w> = Partial<&'w [u8]>;

// Answers a call on bytes.
fn of_bytes(alloc: Global, call: &Words, row: &Row<&[u8]>) -> Result<String, Fault> {
    let name = call.plain(0)?;
    match name {
        "length_and_then" => binary::within(alloc, row),
        "length_take" | "length_repeat" => {
            let inner = call.plain(2).unwrap_or("");
            binary::counted::<Bytes<'_>>(alloc, (name, inner), row)
        }
        "escaped" => ascii::escaped_bytes::<Bytes<'_>>(alloc, row),
        "literal" => match call.word(2)? {
            Word::Bytes(text) => caseless::bytes::<Bytes<'_>>(alloc, text.as_slice(), row),
            _ => caseless::texts::<Bytes<'_>>(alloc, call, row),
        },
        _ if name.ends_with('1') || name.ends_with('0') => {
            ascii::classes::<Bytes<'_>>(alloc, name, row)
        }
        _ => of_number(alloc, call, row),
    }
}

// Answers a call on bytes of a number.
fn of_number(alloc: Global, call: &Words, row: &Row<&[u8]>) -> Result<String, Fault> {
    let number = (call.plain(0)?, call.plain(1).unwrap_or(""));
    let name = number.0;
    if name.ends_with("24") {
        other_widths::three::<Bytes<'_>>(alloc, number, row)
    } else if name.ends_with("f32") || name.ends_with("f64") {
        other_widths::floats::<Bytes<'_>>(alloc, number, row)
    } else if name.ends_with("128") || name.ends_with("_u8") || name.ends_with("_i8") {
        other_widths::others::<Bytes<'_>>(alloc, number, row)
    } else {
        match binary::unsigned::<Bytes<'_>>(alloc, number, row) {
            Err(Fault::NoSuchCall) => binary::signed::<Bytes<'_>>(alloc, number, row),
            answer => answer,
        }
    }
}

impl Answers for Calls {
    fn answer(&self, alloc: Global, call: &str, input: &Words) -> Result<String, Fault> {
        let call = Words::read(alloc, call)?;
        match input.word(0)? {
            Word::Text(text) => of_text(alloc, &call, &Row::of(text.as_str(), input)?),
            Word::Bytes(bytes) => of_bytes(alloc, &call, &Row::of(bytes.as_slice(), input)?),
            _ => Err(Fault::NoSuchCall),
        }
    }
}

fn main(rt: HostRuntime) -> ExitCode {
    rows::run(&rt, &Calls)
}
