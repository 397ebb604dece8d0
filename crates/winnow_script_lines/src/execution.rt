//! `execute`, which runs the script of a text and returns its answers as lines.

ghost use Rattle.std.specs.Prelude.{◌+◌, IfErr, IfOk, length, string_bytes};
ghost use Rattle.winnow_script_lines.specs.Fault.{IsLineWhere, IsWithin};
ghost use Rattle.winnow_script_lines.specs.FaultyLines.{FaultsInput, FaultsFed, FaultsAfterSteps};
ghost use Rattle.winnow_script_lines.specs.FaultyScripts.{FaultsAs, FaultsScript};
ghost use Rattle.winnow_script_lines.specs.Lines.{reach};
ghost use Rattle.winnow_script_lines.specs.ScriptLines.{PrintsWhole, PrintsPieces};
ghost use Rattle.winnow_script_lines.specs.ScriptLines.{PrintsAs, PrintsScript};

use crate::ScriptFault;
use crate::fed_lines::{FedLine, read_fed_lines};
use crate::inputs::{Kind, read_kind, read_script_input};
use crate::lines::Lines;
use crate::runs::ScriptInput;
use crate::steps::{ScriptStep, read_steps};
use std::alloc::Global;

/// Runs the script of these lines, and returns its answers as lines.
///
/// The whole text is read first. If it is no script, the fault is its first faulty or missing line,
/// unless memory is refused first.
pub fn execute(alloc: Global, input: &[u8]) -> Result<Vec<u8>, ScriptFault>
    ensures printed { IfOk result (λ printed. PrintsScript input.now printed.items) }
    ensures fault { IfErr result (IsLineWhere (FaultsScript input.now)) }
    ensures err { IfErr result (IsWithin (1 + length input.now)) }
{
    let mut lines = Lines::new(input);
    let kind = read_kind(&mut lines)?;
    let printed = execute_as(alloc, kind, &mut lines)?;
    Ok(printed.into_bytes())
}

// Returns what a script of this kind prints, after the line of the kind was read.
fn execute_as(alloc: Global, kind: Kind, lines: &mut Lines) -> Result<String, ScriptFault>
    ensures printed { IfOk result (λ text.
        PrintsAs kind lines.old.rest.now (string_bytes text)) }
    ensures fault { IfErr result (IsLineWhere
        (FaultsAs kind lines.old.number lines.old.rest.now)) }
    ensures err { IfErr result (IsWithin (reach lines.old)) }
{
    match kind {
        Kind::Bytes => execute_whole::<Vec<u8>>(alloc, lines),
        Kind::Text => execute_whole::<String>(alloc, lines),
        Kind::BytePieces => execute_pieces::<Vec<u8>>(alloc, lines),
        Kind::TextPieces => execute_pieces::<String>(alloc, lines),
    }
}

// Returns what a script over a whole input prints.
fn execute_whole<L: ScriptInput>(alloc: Global, lines: &mut Lines) -> Result<String, ScriptFault>
    ensures printed { IfOk result (λ text.
        PrintsWhole L.bytes L.kind lines.old.rest.now (string_bytes text)) }
    ensures fault { IfErr result (IsLineWhere (FaultsAfterSteps L.bytes (FaultsInput L.bytes)
        lines.old.number lines.old.rest.now)) }
    ensures err { IfErr result (IsWithin (reach lines.old)) }
{
    let steps: Vec<ScriptStep<'_, L>> = read_steps(alloc, lines)?;
    let input: L = read_script_input(alloc, lines)?;
    Ok(input.run_whole(alloc, &steps)?)
}

// Returns what a script over pieces prints.
fn execute_pieces<L: ScriptInput>(alloc: Global, lines: &mut Lines) -> Result<String, ScriptFault>
    ensures printed { IfOk result (λ text.
        PrintsPieces L.bytes L.kind lines.old.rest.now (string_bytes text)) }
    ensures fault { IfErr result (IsLineWhere (FaultsAfterSteps L.bytes (FaultsFed L.bytes)
        lines.old.number lines.old.rest.now)) }
    ensures err { IfErr result (IsWithin (reach lines.old)) }
{
    let steps: Vec<ScriptStep<'_, L>> = read_steps(alloc, lines)?;
    let fed: Vec<FedLine<L>> = read_fed_lines(alloc, lines)?;
    Ok(L::run_pieces(alloc, &steps, &fed)?)
}
