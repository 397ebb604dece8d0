//! `run_pieces` and `run_pieces_text`, which feed all pieces to a script.

ghost use Rattle.std.specs.Prelude.{◌<◌, ◌^◌, length, IfOk};
ghost use Rattle.winnow_script_feed.specs.Inputs.{byte_input, text_input, joined, pieces_in};
ghost use Rattle.winnow_script_feed.specs.Feeding.{Finishes};

use crate::{ByteFeed, Finished, TextFeed};
use std::alloc::{AllocError, Global};
use winnow_script_run::SearchStep;
use winnow_sets::CharSet;

/// Feeds all pieces of bytes to a script, ends the input, and returns all answers.
pub fn run_pieces<'k>(
    alloc: Global,
    script: &'k [SearchStep<CharSet<'k>, &'k [u8]>],
    pieces: &[&[u8]],
) -> Result<Finished<u8>, AllocError>
    requires { length (joined (pieces_in pieces.now)) < 2 ^ 64 }
    ensures { IfOk result (Finishes byte_input script.entry.now (pieces_in pieces.now)) }
{
    let mut feed = ByteFeed::new(alloc, script)?;
    for piece in pieces {
        feed.feed(piece)?;
    }
    Ok(feed.end())
}

/// Feeds all pieces of text to a script, ends the input, and returns all answers.
pub fn run_pieces_text<'k>(
    alloc: Global,
    script: &'k [SearchStep<CharSet<'k>, &'k str>],
    pieces: &[&str],
) -> Result<Finished<char>, AllocError>
    requires { length (joined (pieces_in pieces.now)) < 2 ^ 64 }
    ensures { IfOk result (Finishes text_input script.entry.now (pieces_in pieces.now)) }
{
    let mut feed = TextFeed::new(alloc, script)?;
    for piece in pieces {
        feed.feed(piece)?;
    }
    Ok(feed.end())
}
