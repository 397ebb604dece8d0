//! `FedLine`, a line of an input in pieces, and `read_fed_lines`, which reads them all.

ghost use Rattle.std.specs.Prelude.{◌≡◌, ◌≢◌, ◌+◌, ◌<◌, ◌≤◌, [], IfErr, IfOk, IsTrue, OnOk};
ghost use Rattle.std.specs.Prelude.{length, sum_by};
ghost use Rattle.winnow_script_lines.specs.Fault.{IsLineWhere, IsWithin};
ghost use Rattle.winnow_script_lines.specs.FaultyLines.{FaultsFed};
ghost use Rattle.winnow_script_lines.specs.Inputs.{DenotesFed, BeginsWithPiece, piece_length};
ghost use Rattle.winnow_script_lines.specs.Lines.{reach, AreLines};
ghost use Rattle.winnow_script_lines.specs.Newline.{first_line, rest_lines};
ghost use Rattle.winnow_script_lines.specs.Readings.{DenotesNothing};
ghost use Rattle.winnow_script_lines.specs.declared.fed_lines.FedLine.TheVariants.{Waits};

use crate::ScriptFault;
use crate::contents::Contents;
use crate::inputs::read_named;
use crate::lines::Lines;
use std::alloc::Global;

/// A line of input in pieces: a piece, or the word `waits`, which asks what the script waits for.
#[derive(Drop)]
pub enum FedLine<L> {
    Piece(L),
    Waits,
}

/// Reads the remaining lines: pieces, and `waits` questions after the first piece.
pub fn read_fed_lines<L: Contents>(
    alloc: Global,
    lines: &mut Lines,
) -> Result<Vec<FedLine<L>>, ScriptFault>
    ensures told { IfOk result (λ told.
        AreLines (DenotesFed L.bytes) lines.old.rest.now told.items []) }
    ensures first { IfOk result (λ told. BeginsWithPiece told.items) }
    ensures short { IfOk result (λ told.
        sum_by (piece_length L.bytes) told.items ≤ length lines.old.rest.now) }
    ensures fault { IfErr result (IsLineWhere
        (FaultsFed L.bytes lines.old.number lines.old.rest.now)) }
    ensures err { IfErr result (IsWithin (reach lines.old)) }
{
    let mut told = Vec::new(alloc);
    while !lines.is_empty() {
        let line = read_fed_line(alloc, lines, told.is_empty())?;
        told.push(line)?;
    }
    Ok(told)
}

// Reads the next line, which must be a piece if it is the first.
fn read_fed_line<L: Contents>(
    alloc: Global,
    lines: &mut Lines,
    is_first: bool,
) -> Result<FedLine<L>, ScriptFault>
    ensures told { IfOk result (DenotesFed L.bytes (first_line lines.old.rest.now)) }
    ensures first { IsTrue is_first → IfOk result (λ line. line ≢ Waits) }
    ensures rest { OnOk result (lines.new.rest.now ≡ rest_lines lines.old.rest.now) }
    ensures shorter { OnOk result (length lines.new.rest.now < length lines.old.rest.now) }
    ensures number { OnOk result (lines.new.number ≡ lines.old.number + 1) }
    ensures reach { reach lines.new ≤ reach lines.old }
    ensures fault { IfErr result (IsLineWhere (λ k. (k ≡ lines.old.number)
        × DenotesNothing (λ line told.
        DenotesFed L.bytes line told × (IsTrue is_first → told ≢ Waits))
        (first_line lines.old.rest.now))) }
    ensures err { IfErr result (IsWithin (reach lines.old)) }
{
    let fault = lines.fault();
    let Some(line) = lines.next_line() else {
        return Err(fault);
    };
    if !is_first && line == "waits" {
        return Ok(FedLine::Waits);
    }
    match read_named(alloc, line, "piece")? {
        Some(piece) => Ok(FedLine::Piece(piece)),
        None => Err(fault),
    }
}
