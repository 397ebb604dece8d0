//! `run_search`, which runs a script of calls, comparisons and searches on a stream.

ghost use Rattle.std.specs.Prelude.{◌≡◌, ◌-◌, IfOk, OnErr, OnOk};
ghost use Rattle.winnow_stream.specs.Source.{width};
ghost use Rattle.winnow_stream.specs.SliceFrom.{IsSliceFrom};
ghost use Rattle.winnow_stream.specs.Location.{location_behind};
ghost use Rattle.winnow_script_run.specs.Searching.{rest_after_search, AreSearchAnswers};
ghost use Rattle.winnow_script_run.specs.Searching.{IsSearchReady};
ghost use Rattle.winnow_script_run.specs.Searching.{AreSearchReady, MayTakeSearchStep};
ghost use Rattle.winnow_script_run.specs.Searching.{TakesSearchStep};
ghost use Rattle.winnow_script_run.specs.RunState.{run_state};

use crate::{Marks, Origin, SearchAnswer, SearchStep, answer_step};
use std::alloc::{AllocError, Global};
use winnow_match::{Compare, FindSlice, Needles};
use winnow_stream::{ScriptSet, Stream};

/// Runs a script of calls, comparisons and searches on a stream, and returns their answers in
/// order.
///
/// It is [`run`](crate::run) with two further steps, which move nothing. The answers are those of
/// one cursor on the list that remained at the call. If memory is refused, the stream stands where
/// it stood.
pub fn run_search<S: Stream + Compare<L> + FindSlice<Needles<L>>, C: ScriptSet<S::Token>, L: Copy>(
    alloc: Global,
    s: &mut S,
    script: &[SearchStep<C, L>],
) -> Result<Vec<SearchAnswer<S::Token, S::Slice, Vec<(usize, S::Token)>>>, AllocError>
where
    S::Token: Drop,
    S::Slice: Drop,
    requires valid { S.valid s.old }
    requires ready { AreSearchReady C.askable script.now }
    ensures answers { IfOk result (λ out.
        AreSearchAnswers C.may_answer S.is_slice S.counts_shortage S.compared S.found
        (S.remaining s.old) script.now out.items) }
    ensures slices { IfOk result (λ out.
        AreSearchAnswers C.may_answer (IsSliceFrom S.is_slice S.slice_from) S.counts_shortage
        S.compared S.found (S.remaining s.old) script.now out.items) }
    ensures remains { OnOk result
        (S.remaining s.new ≡ rest_after_search (S.remaining s.old) script.now) }
    ensures location { OnOk result (S.location s.new
        ≡ location_behind (S.location s.old)
        (width (S.remaining s.old) - width (S.remaining s.new))) }
    ensures refused { OnErr result ((S.remaining s.new ≡ S.remaining s.old)
        × (S.location s.new ≡ S.location s.old)) }
    ensures valid { S.valid s.new }
    ensures kept { S.keeps s.old s.new }
{
    let start = s.checkpoint();
    let answers = search_steps(alloc, s, script);
    if answers.is_err() {
        s.reset(&start);
    }
    answers
}

// Does the same, but if memory is refused the stream stays where the last step left it.
fn search_steps<S: Stream + Compare<L> + FindSlice<Needles<L>>, C: ScriptSet<S::Token>, L: Copy>(
    alloc: Global,
    s: &mut S,
    script: &[SearchStep<C, L>],
) -> Result<Vec<SearchAnswer<S::Token, S::Slice, Vec<(usize, S::Token)>>>, AllocError>
where
    S::Token: Drop,
    S::Slice: Drop,
    requires valid { S.valid s.old }
    requires ready { AreSearchReady C.askable script.now }
    ensures slices { IfOk result (λ out.
        AreSearchAnswers C.may_answer (IsSliceFrom S.is_slice S.slice_from) S.counts_shortage
        S.compared S.found (S.remaining s.old) script.now out.items) }
    ensures remains { OnOk result
        (S.remaining s.new ≡ rest_after_search (S.remaining s.old) script.now) }
    ensures location { OnOk result (S.location s.new
        ≡ location_behind (S.location s.old)
        (width (S.remaining s.old) - width (S.remaining s.new))) }
    ensures valid { S.valid s.new }
    ensures kept { S.keeps s.old s.new }
{
    let origin = Origin::new(s, s.eof_offset());
    let mut marks = Marks::new(alloc);
    let mut answers = Vec::with_capacity(alloc, script.len())?;
    // As in `run`: a slice that gets shorter stays in registers.
    let mut rest = script;
    while let Some((step, later)) = rest.split_first() {
        let answer = search_step(alloc, s, &origin, &mut marks, step)?;
        answers.push(answer)?;
        rest = later;
    }
    Ok(answers)
}

// Answers one step, as `answer_step` does.
fn search_step<S: Stream + Compare<L> + FindSlice<Needles<L>>, C: ScriptSet<S::Token>, L: Copy>(
    alloc: Global,
    s: &mut S,
    origin: &Origin<S::Checkpoint>,
    marks: &mut Marks,
    step: &SearchStep<C, L>,
) -> Result<SearchAnswer<S::Token, S::Slice, Vec<(usize, S::Token)>>, AllocError>
where
    S::Token: Drop,
    S::Slice: Drop,
    requires valid { S.valid s.old × S.valid_checkpoint origin.now.checkpoint }
    requires ready { IsSearchReady C.askable step.now }
    requires stands { MayTakeSearchStep step.now
        (run_state S.remained origin.now (S.remaining s.old) marks.old) }
    ensures step { IfOk result
        (TakesSearchStep C.may_answer (IsSliceFrom S.is_slice S.slice_from) S.counts_shortage
        S.compared S.found step.now
        (run_state S.remained origin.now (S.remaining s.old) marks.old)
        (run_state S.remained origin.now (S.remaining s.new) marks.new)
        (S.Checkpoint.location origin.now.checkpoint) (S.location s.old) (S.location s.new)) }
    ensures valid { S.valid s.new }
    ensures kept { S.keeps s.old s.new }
{
    match step {
        SearchStep::Call(call) => {
            let told = answer_step(alloc, s, origin, marks, call)?;
            Ok(SearchAnswer::Call(told))
        }
        SearchStep::Compare(literal) => Ok(SearchAnswer::Compared(s.compare(*literal))),
        SearchStep::Find(needles) => Ok(SearchAnswer::Hit(s.find_slice(*needles))),
    }
}
