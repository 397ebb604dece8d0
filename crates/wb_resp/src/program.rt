//! Printing the replies of an input.

ghost use Rattle.std.specs.Prelude.{◌≡◌, ℕ, List, Some};
ghost use Rattle.wb_replies.specs.Session.{OnAnswer, Tells};
ghost use Rattle.wb_replies.specs.Replies.{PrintsInput};

use crate::settings::Settings;
use std::alloc::Global;
use std::io::{Read, Write};
use wb_replies::{Failure, PlacedReply};
use winnow_reader::Record;

/// Reads replies to the end of the input, and prints each as the settings say, as soon as its bytes
/// are there.
///
/// If the bytes of the input are known, those of the output are known too: all its replies, or
/// those before the failure. Clause `told` says it of the reader and its parser, and `printed` of
/// the bytes that spell the replies.
pub fn print_replies<R: Read, W: Write>(
    alloc: Global,
    settings: Settings,
    input: &mut R,
    output: &mut W,
) -> Result<(), Failure>
    ensures told { (whole before : List ℕ) → R.remaining input.old ≡ Some whole
        → W.contents output.old ≡ Some before
        → OnAnswer result (Tells ⟦<PlacedReply as Record>⟧.means settings.layout
        (record { limits = settings.limits }) whole before (W.contents output.new) result) }
    ensures printed { (whole before : List ℕ) → R.remaining input.old ≡ Some whole
        → W.contents output.old ≡ Some before
        → PrintsInput settings.layout settings.limits whole before (W.contents output.new) result }
{
    wb_replies::print_replies(alloc, settings.limits, settings.layout, input, output)
}
