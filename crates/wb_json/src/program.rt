//! Printing the events of an input.

ghost use Rattle.std.specs.Prelude.{◌≡◌, false, OnOk, IfErr, IfSome};
ghost use Rattle.wb_json.specs.Limiting.{IsShortInput};
ghost use Rattle.wb_json.specs.Printing.{PrintsAll, PrintsUntil};
ghost use Rattle.wb_json.specs.Whole.{PrintsValue, IsOfNoValue};

use crate::failure::Failure;
use crate::printing::Printing;
use crate::settings::Settings;
use example_base::{drive, new_buffer};
use format_json_events::events_law;
use std::alloc::Global;
use std::io::{Read, Write};

/// Reads a text to the end of the input, and writes its events as soon as their bytes are there; or
/// the texts of the lines of the input, if the settings say so.
///
/// If the bytes of the input are known, those of the output are known too: what is written of all
/// its events, or of those before the failure, which has the line and column of its place in the
/// whole input. If the input is a value within the limit on depth, the events are those of the
/// value, and no failure is one of the text, but that a token is too long. No token that was read
/// has more bytes than the settings allow; the first that has more stops the reader as any other
/// fault does, where it begins.
pub fn print_events<R: Read, W: Write>(
    alloc: Global,
    settings: Settings,
    input: &mut R,
    output: &mut W,
) -> Result<(), Failure>
    ensures value { settings.by_lines ≡ false → OnOk result (IfSome (R.remaining input.old)
        (λ bytes. PrintsValue settings bytes (W.contents output.old) (W.contents output.new))) }
    ensures none { settings.by_lines ≡ false → IfErr result (λ failure.
        IfSome (R.remaining input.old) (λ bytes. IsOfNoValue settings.depth bytes failure)) }
    ensures within { OnOk result (IfSome (R.remaining input.old) (λ bytes.
        IsShortInput settings.by_lines settings.limit bytes)) }
    ensures printed { OnOk result (IfSome (R.remaining input.old) (λ bytes.
        PrintsAll settings bytes (W.contents output.old) (W.contents output.new))) }
    ensures failed { IfErr result (λ failure. IfSome (R.remaining input.old) (λ bytes.
        PrintsUntil settings bytes failure (W.contents output.old) (W.contents output.new))) }
{
    events_law();
    print_pieces(alloc, settings, input, output)
}

// Reads the pieces of the input to its end, and writes the events that each brings.
fn print_pieces<R: Read, W: Write>(
    alloc: Global,
    settings: Settings,
    input: &mut R,
    output: &mut W,
) -> Result<(), Failure>
    ensures printed { OnOk result (IfSome (R.remaining input.old) (λ bytes.
        PrintsAll settings bytes (W.contents output.old) (W.contents output.new))) }
    ensures failed { IfErr result (λ failure. IfSome (R.remaining input.old) (λ bytes.
        PrintsUntil settings bytes failure (W.contents output.old) (W.contents output.new))) }
{
    let mut buffer = match new_buffer(alloc) {
        Ok(buffer) => buffer,
        Err(trouble) => return Err(Failure::Stopped(trouble)),
    };
    let mut printing = match Printing::begin(alloc, settings, output) {
        Ok(printing) => printing,
        Err(failure) => return Err(failure),
    };
    drive(alloc, input, &mut buffer, &mut printing, output)
}
