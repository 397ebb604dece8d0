//! `Progress`, the state of a script over pieces, and `advance`, which attempts its steps.

ghost use Rattle.std.specs.Prelude.{◌≡◌, ◌+◌, ◌≤◌, ◌<◌, ◌∷◌, ◌++◌, [], false, length};
ghost use Rattle.std.specs.Prelude.{IsTrue, vec_len, vec_capacity, if◌then◌else◌};
ghost use Rattle.winnow_script_attempt.specs.Looks.{piece_reading};
ghost use Rattle.winnow_script_feed.specs.JoinedInput.{MayGoOn, KeepsRun, KeepsRunAtRest};
ghost use Rattle.winnow_script_feed.specs.JoinedInput.{ComesToRest, GoesOn, Tries};
ghost use Rattle.winnow_script_feed.specs.ToldAnswers.{capped};

use winnow_match::Finders;
use winnow_script_attempt::{Attempt, Kept, Settled, Standing, Told, attempt_step};
use winnow_script_run::SearchStep;
use winnow_sets::{AsChar, CharSet};
use winnow_stream::{AsBStr, Stream, StreamIsPartial};

/// The progress of a script over pieces. Its cursor, its marks and `base`, from where the input is
/// kept, are places in the joined input.
#[derive(Drop)]
pub(crate) struct Progress<'k, T, L> {
    pub(crate) script: &'k [SearchStep<CharSet<'k>, L>],
    pub(crate) told: Vec<Told<T>>,
    pub(crate) place: usize,
    pub(crate) marks: Vec<usize>,
    pub(crate) settled: Settled,
    pub(crate) base: usize,
    pub(crate) pieces: u64,
    pub(crate) tried: u64,
}

// Appends the place to the marks if a mark is to be made. There is room for it.
fn push_mark(marks: &mut Vec<usize>, at: usize, makes: bool)
    requires { vec_len marks.old < vec_capacity marks.old }
    ensures items { marks.new.items
        ≡ (if makes then marks.old.items ++ at ∷ [] else marks.old.items) }
    ensures len { vec_len marks.new ≤ vec_len marks.old + 1 }
    ensures capacity { vec_capacity marks.old ≤ vec_capacity marks.new }
{
    if makes {
        match marks.push(at) {
            Ok(()) => {}
            Err(_) => unreachable!(),
        }
    }
}

/// Attempts the next step on what is kept, and returns whether it was answered. Its answer is
/// appended with the number of the piece.
#[inline(always)]
pub(crate) fn attempt_next<'k, S: Kept, L: AsBStr>(
    progress: &mut Progress<'k, S::Token, L>,
    finders: &mut Option<Finders<'k>>,
    kept: S,
    piece: Option<u64>,
) -> bool
where
    S::Token: AsChar + Drop,
    S::Slice: Drop,
    requires valid { S.valid kept }
    requires left { vec_len progress.old.told < length progress.old.script.now }
    requires ready { MayGoOn (S.expects_more kept)
        (piece_reading S.Token.code S.counts_shortage S.write L.text_bytes)
        (S.remaining kept)
        progress.old }
    ensures stands { KeepsRun (S.expects_more kept)
        (piece_reading S.Token.code S.counts_shortage S.write L.text_bytes)
        (S.remaining kept)
        progress.old progress.new }
    ensures waits { result ≡ false → IsTrue (S.expects_more kept)
        × ComesToRest (S.expects_more kept)
        (piece_reading S.Token.code S.counts_shortage S.write L.text_bytes)
        (S.remaining kept)
        progress.old progress.new }
    ensures on { GoesOn piece progress.old progress.new }
    ensures tried { progress.new.tried ≡ capped (progress.old.tried + 1) }
    ensures count { vec_len progress.new.told
        ≡ vec_len progress.old.told + (if result then 1 else 0) }
{
    let script = progress.script;
    let step = &script[progress.told.len()];
    let mut rest = kept;
    rest.next_slice(progress.place - progress.base);
    progress.tried = progress.tried.saturating_add(1);
    match attempt_step(
        step,
        rest,
        Standing {
            place: progress.place,
            marks: &progress.marks,
            settled: progress.settled,
            piece,
        },
        finders,
        &mut progress.told,
    ) {
        Attempt::Waits(settled) => {
            progress.settled = settled;
            false
        }
        Attempt::Answered(seen) => {
            push_mark(&mut progress.marks, progress.place, seen.marks);
            progress.place = seen.place;
            progress.settled = Settled::nothing();
            true
        }
    }
}

/// Attempts steps on what is kept, until one waits or none remains. If no more input may follow,
/// none waits.
pub(crate) fn advance<'k, S: Kept, L: AsBStr>(
    progress: &mut Progress<'k, S::Token, L>,
    finders: &mut Option<Finders<'k>>,
    kept: S,
    piece: Option<u64>,
)
where
    S::Token: AsChar + Drop,
    S::Slice: Drop,
    requires valid { S.valid kept }
    requires ready { MayGoOn (S.expects_more kept)
        (piece_reading S.Token.code S.counts_shortage S.write L.text_bytes)
        (S.remaining kept)
        progress.old }
    ensures stands { KeepsRunAtRest (S.expects_more kept)
        (piece_reading S.Token.code S.counts_shortage S.write L.text_bytes)
        (S.remaining kept)
        progress.old progress.new }
    ensures done { S.expects_more kept ≡ false
        → length progress.new.script.now ≤ vec_len progress.new.told }
    ensures on { GoesOn piece progress.old progress.new }
    ensures tried { Tries progress.old progress.new }
{
    while progress.told.len() < progress.script.len() {
        if !attempt_next(progress, finders, kept, piece) {
            return;
        }
    }
}
