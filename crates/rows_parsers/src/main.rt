//! Rows of parsers of tokens and of combinators, whole and over each front of their input.
//!
//! ```text
//! take_while(1.., 'a'..='z') | "abc1" 4 | Read("abc", "1")
//! ```
//!
//! The call is a parser as Rust writes it. The input is a text or bytes, and the number of its
//! fronts on which the parser needs more, the empty one first. On each longer front, and on the
//! whole, it answers as the row says: `Read(value, rest)`, `Backtrack(rest)` or `Cut(rest)`. An
//! input with `..` is a front, of which the parser is asked alone: `NeedsMore(needed, rest)`.
#![tactic(auto)]

mod choices;
mod mapped;
mod one;
mod several;
mod tokens;
mod whole;

use rows::{Answers, Fault, Word, Words};
use rows_fronts::{Part, Row, read_part};
use std::alloc::Global;
use std::process::ExitCode;
use winnow_wrap::Partial;

// The parsers that rows ask.
struct Calls;

type Text<'w> = Partial<&'w str>;

// Answers a call that begins with a parser of tokens: it alone, a method of it, or a tuple.
fn of_parts(alloc: Global, call: &Words, row: &Row<&str>) -> Result<String, Fault> {
    let (part, end) = read_part(call, 0)?;
    match (part, call.plain(end)) {
        (Part::Literal(text), Err(_)) => tokens::literals::<Text<'_>>(alloc, text, row),
        (_, Err(_)) => tokens::tokens::<Text<'_>>(alloc, call, row),
        (Part::TakeWhile(..), Ok(".verify_len" | ".verify_map" | ".try_map" | ".map_len")) =>
            mapped::words::<Text<'_>>(alloc, (call, end), row),
        (_, Ok(name)) if name.starts_with('.') => one::one::<Text<'_>>(alloc, call, 0, row),
        _ => several::two::<Text<'_>>(alloc, call, 0, row),
    }
}

// Answers a call of a combinator on a text.
fn of_combinator(alloc: Global, call: &Words, row: &Row<&str>) -> Result<String, Fault> {
    match call.plain(0)? {
        "opt" | "peek" | "not" | "cut_err" => one::one::<Text<'_>>(alloc, call, 1, row),
        "backtrack_err" | "cond" | "repeat" | "repeat::<usize>" | "repeat_opt" => {
            one::one::<Text<'_>>(alloc, call, 2, row)
        }
        "preceded" | "terminated" => several::two::<Text<'_>>(alloc, call, 1, row),
        "separated" | "repeat_till" | "repeat_till_cut_err" => {
            several::two::<Text<'_>>(alloc, call, 2, row)
        }
        "delimited" | "separated_pair" => several::three::<Text<'_>>(alloc, call, 1, row),
        "alt" => choices::choice::<Text<'_>>(alloc, call, row),
        "repeat_fold" | "separated_foldl1" => mapped::characters::<Text<'_>>(alloc, call, row),
        "counted" => mapped::counted::<Text<'_>>(alloc, row),
        "three_and_end" => mapped::three_and_end::<Text<'_>>(alloc, row),
        _ => Err(Fault::NoSuchCall),
    }
}

// Answers a call on a text that is no combinator.
fn of_tokens(alloc: Global, call: &Words, row: &Row<&str>) -> Result<String, Fault> {
    match call.plain(0)? {
        "take_until" => tokens::until(alloc, call, row),
        "any" | "literal" | "one_of" | "take" | "take_while" => of_parts(alloc, call, row),
        _ => tokens::tokens::<Text<'_>>(alloc, call, row),
    }
}

// Answers a call on a text.
fn of_text(alloc: Global, call: &Words, text: &str, input: &Words) -> Result<String, Fault> {
    let name = call.plain(0)?;
    if name.starts_with("word_or_digit") {
        return whole::failures(alloc, name, text);
    }
    if let Ok(".parse") = call.plain(2) {
        return whole::whole(alloc, call.text(1)?, text);
    }
    if let Ok(".with_span") = call.plain(1) {
        return whole::places(alloc, text);
    }
    let row = Row::of(text, input)?;
    match of_combinator(alloc, call, &row) {
        Err(Fault::NoSuchCall) => of_tokens(alloc, call, &row),
        answer => answer,
    }
}

type Bytes<'w> = Partial<&'w [u8]>;

// Answers a call on bytes.
fn of_bytes(alloc: Global, call: &Words, row: &Row<&[u8]>) -> Result<String, Fault> {
    match call.plain(0)? {
        "literal" => tokens::literals::<Bytes<'_>>(alloc, call.text(1)?, row),
        "setting" => mapped::setting::<Bytes<'_>>(alloc, row),
        _ => tokens::tokens::<Bytes<'_>>(alloc, call, row),
    }
}

impl Answers for Calls {
    fn answer(&self, alloc: Global, call: &str, input: &Words) -> Result<String, Fault> {
        let call = Words::read(alloc, call)?;
        match input.word(0)? {
            Word::Text(text) => of_text(alloc, &call, text.as_str(), input),
            Word::Bytes(bytes) => of_bytes(alloc, &call, &Row::of(bytes.as_slice(), input)?),
            _ => Err(Fault::NoSuchCall),
        }
    }
}

fn main(rt: HostRuntime) -> ExitCode {
    rows::run(&rt, &Calls)
}
