//! `ScriptStep`, a step of a script, and `read_steps`, which reads steps from lines.

ghost use Rattle.std.specs.Prelude.{◌≡◌, ◌+◌, ◌<◌, ◌≤◌, IfOk, IsSome, OnOk, ℕ, is_some, length};
ghost use Rattle.winnow_script_lines.specs.Lines.{reach, AreLines};
ghost use Rattle.winnow_script_lines.specs.Newline.{first_line, rest_lines};
ghost use Rattle.winnow_script_lines.specs.Readings.{IsReading, DenotesNothing};
ghost use Rattle.winnow_script_lines.specs.Steps.{entry, plain_calls, numbered_calls};
ghost use Rattle.winnow_script_lines.specs.Steps.{DenotesCall, DenotesStep};

use crate::contents::Contents;
use crate::lines::Lines;
use crate::words::{read_literal, read_needles, read_number, read_ranges, split_word};
use std::alloc::{AllocError, Global};
use winnow_match::Needles;
use winnow_script_run::Step;
use winnow_sets::CharSet;

/// A step that was read from a line. It owns its literals and the ranges of its set.
#[derive(Drop)]
pub enum ScriptStep<'s, L> {
    /// A call that names no set.
    Call(Step<CharSet<'s>>),
    First(Vec<(char, char)>),
    Compare(L),
    Find(Needles<L>),
}

/// Reads the lines that are steps, and stops before the first line that is none.
pub fn read_steps<'s, L: Contents>(
    alloc: Global,
    lines: &mut Lines,
) -> Result<Vec<ScriptStep<'s, L>>, AllocError>
    ensures steps { IfOk result (λ steps.
        AreLines (DenotesStep L.bytes) lines.old.rest.now steps.items lines.new.rest.now) }
    ensures stops { OnOk result
        (DenotesNothing (DenotesStep L.bytes) (first_line lines.new.rest.now)) }
    ensures number { IfOk result (λ steps.
        lines.new.number ≡ lines.old.number + length steps.items) }
    ensures reach { reach lines.new ≤ reach lines.old }
{
    let mut steps = Vec::new(alloc);
    let mut ahead = *lines;
    while let Some(step) = next_step(alloc, &mut ahead)? {
        steps.push(step)?;
        *lines = ahead;
    }
    Ok(steps)
}

// Returns the step of the next line, if the line is a step.
fn next_step<'s, L: Contents>(
    alloc: Global,
    lines: &mut Lines,
) -> Result<Option<ScriptStep<'s, L>>, AllocError>
    ensures step { IfOk result
        (IsReading (DenotesStep L.bytes) (first_line lines.old.rest.now)) }
    ensures rest { lines.new.rest.now ≡ rest_lines lines.old.rest.now }
    ensures shorter { IfOk result (λ found.
        IsSome found → length lines.new.rest.now < length lines.old.rest.now) }
    ensures number { IfOk result (λ found.
        IsSome found → lines.new.number ≡ lines.old.number + 1) }
    ensures reach { reach lines.new ≤ reach lines.old }
{
    match lines.next_line() {
        Some(line) => read_step(alloc, line),
        None => Ok(None),
    }
}

fn read_step<'s, L: Contents>(
    alloc: Global,
    line: &str,
) -> Result<Option<ScriptStep<'s, L>>, AllocError>
    ensures { IfOk result (IsReading (DenotesStep L.bytes) line.now) }
{
    if let Some(call) = read_call(line) {
        return Ok(Some(ScriptStep::Call(call)));
    }
    let Some((name, words)) = split_word(line) else {
        return Ok(None);
    };
    match name {
        "first" => match read_ranges(alloc, words)? {
            Some(ranges) => Ok(Some(ScriptStep::First(ranges))),
            None => Ok(None),
        },
        "compare" => match read_literal(alloc, words)? {
            Some(literal) => Ok(Some(ScriptStep::Compare(literal))),
            None => Ok(None),
        },
        "find" => match read_needles(alloc, words)? {
            Some(needles) => Ok(Some(ScriptStep::Find(needles))),
            None => Ok(None),
        },
        _ => Ok(None),
    }
}

// Returns the call that a line means, which names no set: the line is a word, or a word and a
// number.
fn read_call<'s>(line: &str) -> Option<Step<CharSet<'s>>>
    ensures { IsReading DenotesCall line.now result }
{
    match split_word(line) {
        Some((name, word)) if takes_number(name) => numbered_call(name, read_number(word)?),
        Some(_) => None,
        None => plain_call(line),
    }
}

fn plain_call<'s>(name: &str) -> Option<Step<CharSet<'s>>>
    ensures { result ≡ entry plain_calls name.now }
{
    match name {
        "next" => Some(Step::Next),
        "peek" => Some(Step::Peek),
        "finish" => Some(Step::Finish),
        "peek-finish" => Some(Step::PeekFinish),
        "eof" => Some(Step::Eof),
        "each" => Some(Step::Each),
        "mark" => Some(Step::Mark),
        _ => None,
    }
}

// Returns whether the word is that of a call that takes a number.
fn takes_number(name: &str) -> bool
    ensures { (number : ℕ) → is_some (entry (numbered_calls number) name.now) ≡ result }
{
    matches!(name, "take" | "look" | "at" | "is" | "reset" | "since")
}

fn numbered_call<'s>(name: &str, number: usize) -> Option<Step<CharSet<'s>>>
    ensures { result ≡ entry (numbered_calls number) name.now }
{
    match name {
        "take" => Some(Step::Take(number)),
        "look" => Some(Step::Look(number)),
        "at" => Some(Step::At(number)),
        "is" => Some(Step::IsOffset(number)),
        "reset" => Some(Step::Reset(number)),
        "since" => Some(Step::Since(number)),
        _ => None,
    }
}
