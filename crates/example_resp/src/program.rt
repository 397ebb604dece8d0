//! Printing the replies of an input.

ghost use Rattle.std.specs.Prelude.{◌≡◌, ℕ, List, Some};
ghost use Rattle.wb_replies.specs.Session.{OnAnswer, Tells};
ghost use Rattle.wb_replies.specs.declared.layout.Layout.TheVariants.{Terminal};

use format_resp::ReplyTo;
use std::alloc::Global;
use std::io::{Read, Write};
use wb_replies::{Failure, Layout, PlacedReply};
use winnow_reader::Record;

/// Reads replies within these limits to the end of the input, and prints each as soon as its bytes
/// are there.
///
/// Where it fails, the replies before are printed, unless memory was refused, or reading or writing
/// failed.
pub fn print_replies<R: Read, W: Write>(
    alloc: Global,
    limits: ReplyTo,
    input: &mut R,
    output: &mut W,
) -> Result<(), Failure>
    ensures { (whole before : List ℕ) → R.remaining input.old ≡ Some whole
        → W.contents output.old ≡ Some before
        → OnAnswer result (Tells ⟦<PlacedReply as Record>⟧.means Terminal
        (record { limits = limits }) whole before (W.contents output.new) result) }
{
    wb_replies::print_replies(alloc, limits, Layout::Terminal, input, output)
}
