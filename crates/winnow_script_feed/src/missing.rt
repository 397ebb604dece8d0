//! `next_missing`, which returns the bytes that the next step lacks.

ghost use Rattle.std.specs.Prelude.{◌<◌, true, length, vec_len, option_map, IfOk, OnErr};
ghost use Rattle.winnow_script_attempt.specs.Looks.{piece_reading};
ghost use Rattle.winnow_script_feed.specs.JoinedInput.{IsRun};
ghost use Rattle.winnow_script_feed.specs.Waits.{GivesMissing, MissesSome};

use crate::progress::Progress;
use std::alloc::{AllocError, Global};
use winnow_script_attempt::{Kept, step_missing};
use winnow_sets::AsChar;
use winnow_stream::{AsBStr, Stream, StreamIsPartial};

/// Returns what the next step is missing, given what is kept. The answer is `None` if the step
/// looks for a token of a set that holds none.
pub fn next_missing<S: Kept, L: AsBStr>(
    alloc: Global,
    progress: &Progress<S::Token, L>,
    kept: S,
) -> Result<Option<Vec<u8>>, AllocError>
where
    S::Token: AsChar + Drop,
    S::Slice: Drop,
    requires valid { S.valid kept }
    requires left { vec_len progress.now.told < length progress.now.script.now }
    requires stands { IsRun true
        (piece_reading S.Token.code S.counts_shortage S.write L.text_bytes)
        (S.remaining kept)
        progress.now }
    ensures told { IfOk result (λ more. GivesMissing
        (piece_reading S.Token.code S.counts_shortage S.write L.text_bytes)
        S.greatest S.spell (S.remaining kept) progress.now
        (option_map (λ bytes. bytes.items) more)) }
    ensures refused { OnErr result (MissesSome
        (piece_reading S.Token.code S.counts_shortage S.write L.text_bytes)
        S.greatest S.spell (S.remaining kept) progress.now) }
{
    let script = progress.script;
    let step = &script[progress.told.len()];
    let mut rest = kept;
    rest.next_slice(progress.place - progress.base);
    step_missing(alloc, step, rest, progress.settled)
}
