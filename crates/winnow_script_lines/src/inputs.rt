//! The lines of the `Kind` of a script, of its input, and of a named literal.

ghost use Rattle.std.specs.Prelude.{◌≡◌, ◌+◌, ◌<◌, ◌≤◌, [], ◌∷◌, codes, IfErr, IfOk, OnOk};
ghost use Rattle.std.specs.Prelude.{length};
ghost use Rattle.winnow_script_lines.specs.Fault.{IsLineWhere, IsWithin};
ghost use Rattle.winnow_script_lines.specs.FaultyLines.{FaultsInput};
ghost use Rattle.winnow_script_lines.specs.Inputs.{DenotesKind, DenotesNamed};
ghost use Rattle.winnow_script_lines.specs.Lines.{reach, AreLines};
ghost use Rattle.winnow_script_lines.specs.Newline.{first_line, rest_lines};
ghost use Rattle.winnow_script_lines.specs.Readings.{IsReading, DenotesNothing};

use crate::ScriptFault;
use crate::contents::Contents;
use crate::lines::Lines;
use crate::words::{read_literal, split_word};
use std::alloc::{AllocError, Global};

/// The kind of a script: whether its input is bytes or text, whole or in pieces.
#[derive(Clone, Copy)]
pub enum Kind {
    Bytes,
    Text,
    BytePieces,
    TextPieces,
}

/// Reads the kind of the script from the next line.
pub fn read_kind(lines: &mut Lines) -> Result<Kind, ScriptFault>
    ensures kind { IfOk result (DenotesKind (first_line lines.old.rest.now)) }
    ensures rest { lines.new.rest.now ≡ rest_lines lines.old.rest.now }
    ensures number { OnOk result (lines.new.number ≡ lines.old.number + 1) }
    ensures reach { reach lines.new ≤ reach lines.old }
    ensures fault { IfErr result (IsLineWhere (λ k.
        (k ≡ lines.old.number) × DenotesNothing DenotesKind (first_line lines.old.rest.now))) }
    ensures err { IfErr result (IsWithin (reach lines.old)) }
{
    let fault = lines.fault();
    let Some(line) = lines.next_line() else {
        return Err(fault);
    };
    kind_on_pieces(line).ok_or(fault)
}

fn kind_on_pieces(word: &str) -> Option<Kind>
    ensures { IsReading DenotesKind word.now result }
{
    match word {
        "bytes" => Some(Kind::Bytes),
        "text" => Some(Kind::Text),
        "byte-pieces" => Some(Kind::BytePieces),
        "text-pieces" => Some(Kind::TextPieces),
        _ => None,
    }
}

/// Reads the input from the last line.
pub fn read_script_input<L: Contents>(alloc: Global, lines: &mut Lines) -> Result<L, ScriptFault>
    ensures input { IfOk result (λ input.
        AreLines (DenotesNamed L.bytes (codes "input")) lines.old.rest.now (input ∷ []) []) }
    ensures fault { IfErr result (IsLineWhere
        (FaultsInput L.bytes lines.old.number lines.old.rest.now)) }
    ensures err { IfErr result (IsWithin (reach lines.old)) }
{
    let input = read_line(alloc, lines, "input")?;
    if !lines.is_empty() {
        return Err(lines.fault());
    }
    Ok(input)
}

/// Reads the literal of the next line, which must be the word `name`, a space and a literal.
pub fn read_line<L: Contents>(
    alloc: Global,
    lines: &mut Lines,
    name: &str,
) -> Result<L, ScriptFault>
    ensures told { IfOk result (DenotesNamed L.bytes name.now (first_line lines.old.rest.now)) }
    ensures rest { lines.new.rest.now ≡ rest_lines lines.old.rest.now }
    ensures shorter { OnOk result (length lines.new.rest.now < length lines.old.rest.now) }
    ensures number { OnOk result (lines.new.number ≡ lines.old.number + 1) }
    ensures reach { reach lines.new ≤ reach lines.old }
    ensures fault { IfErr result (IsLineWhere (λ k. (k ≡ lines.old.number)
        × DenotesNothing (DenotesNamed L.bytes name.now) (first_line lines.old.rest.now))) }
    ensures err { IfErr result (IsWithin (reach lines.old)) }
{
    let fault = lines.fault();
    let Some(line) = lines.next_line() else {
        return Err(fault);
    };
    read_named(alloc, line, name)?.ok_or(fault)
}

/// Returns the literal of a line that is the word `name`, a space and a literal, or `None` for
/// another line.
pub fn read_named<L: Contents>(
    alloc: Global,
    line: &str,
    name: &str,
) -> Result<Option<L>, AllocError>
    ensures { IfOk result (IsReading (DenotesNamed L.bytes name.now) line.now) }
{
    match split_word(line) {
        Some((first, word)) if first == name => read_literal(alloc, word),
        _ => Ok(None),
    }
}
