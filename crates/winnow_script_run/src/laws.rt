//! Laws of scripts, and `run_and_reset`, which runs a script and goes back.

ghost use Rattle.std.specs.Prelude.{◌≡◌, IfOk};
ghost use Rattle.std.specs.List.{AllZip};
ghost use Rattle.winnow_stream.specs.SliceFrom.{IsSliceFrom};
ghost use Rattle.winnow_script_run.specs.Definite.{StableUnderMore};
ghost use Rattle.winnow_script_run.specs.Script.{AreAnswers, AreReady, SetsCompute, StandsFor};
ghost use Rattle.winnow_script_run.specs.Script.{answers};

use crate::{Answer, Step, run};
use std::alloc::{AllocError, Global};
use winnow_stream::{ScriptSet, Stream};

/// Runs a script and goes back: after any calls, `reset` to an earlier checkpoint restores what
/// remained there.
///
/// A parser looks ahead in this way: it gets the answers of [`run`], and the stream stands where it
/// stood.
pub fn run_and_reset<S: Stream, C: ScriptSet<S::Token>>(
    alloc: Global,
    s: &mut S,
    script: &[Step<C>],
) -> Result<Vec<Answer<S::Token, S::Slice, Vec<(usize, S::Token)>>>, AllocError>
where
    S::Token: Drop,
    S::Slice: Drop,
    requires valid { S.valid s.old }
    requires ready { AreReady C.askable script.now }
    ensures answers { IfOk result (λ out.
        AreAnswers C.may_answer S.is_slice S.counts_shortage (S.remaining s.old)
        script.now out.items) }
    ensures slices { IfOk result (λ out.
        AreAnswers C.may_answer (IsSliceFrom S.is_slice S.slice_from) S.counts_shortage
        (S.remaining s.old) script.now out.items) }
    ensures remains { S.remaining s.new ≡ S.remaining s.old }
    ensures location { S.location s.new ≡ S.location s.old }
    ensures valid { S.valid s.new }
    ensures kept { S.keeps s.old s.new }
{
    let start = s.checkpoint();
    let answers = run(alloc, s, script);
    s.reset(&start);
    answers
}

/// The law of a whole script: if each set that the script names computes, the answers that [`run`]
/// gives are, one by one, those of the script. A law does nothing when called: its contract is the
/// law.
pub fn answers_law<S: Stream, C: ScriptSet<S::Token>>()
    ensures answers { (holds : _) (all : _) (script : _) (out : _)
        → SetsCompute C.may_answer holds script
        → AreAnswers C.may_answer S.is_slice S.counts_shortage all script out
        → AllZip (StandsFor S.is_slice all) (answers holds S.counts_shortage all script) out }
    ensures slices { (holds : _) (all : _) (script : _) (out : _)
        → SetsCompute C.may_answer holds script
        → AreAnswers C.may_answer (IsSliceFrom S.is_slice S.slice_from) S.counts_shortage all
        script out → AllZip (StandsFor (IsSliceFrom S.is_slice S.slice_from) all)
        (answers holds S.counts_shortage all script) out }
{}

/// The law of stability: if the first n answers of a script on a list are definite, they are also
/// the first n answers on that list followed by anything, and definite there. So a reader of input
/// that arrives in pieces may act on a definite answer at once.
pub fn definite_law<T, C, L>()
    ensures { StableUnderMore T C L }
{}
