//! `run`, which runs a script of calls on a stream.

ghost use Rattle.std.specs.Prelude.{◌≡◌, ◌-◌, IfOk, OnErr, OnOk};
ghost use Rattle.winnow_stream.specs.Source.{width};
ghost use Rattle.winnow_stream.specs.SliceFrom.{IsSliceFrom};
ghost use Rattle.winnow_stream.specs.Location.{location_behind};
ghost use Rattle.winnow_script_run.specs.Script.{rest_after, AreAnswers, AreReady};

use crate::{Answer, Marks, Origin, Step, answer_step};
use std::alloc::{AllocError, Global};
use winnow_stream::{ScriptSet, Stream};

/// Runs a script of calls on a stream, and returns their answers in order.
///
/// The answers are those of one cursor on the list that remained at the call, for every type of
/// stream. A step that cannot be carried out (its offset is not valid, or its mark was not made)
/// answers that, and moves nothing. If memory is refused, the stream stands where it stood.
pub fn run<S: Stream, C: ScriptSet<S::Token>>(
    alloc: Global,
    s: &mut S,
    script: &[Step<C>],
) -> Result<Vec<Answer<S::Token, S::Slice, Vec<(usize, S::Token)>>>, AllocError>
where
    S::Token: Drop,
    S::Slice: Drop,
    requires valid { S.valid s.old }
    requires ready { AreReady C.askable script.now }
    ensures answers { IfOk result (λ out.
        AreAnswers C.may_answer S.is_slice S.counts_shortage (S.remaining s.old)
        script.now out.items) }
    ensures slices { IfOk result (λ out.
        AreAnswers C.may_answer (IsSliceFrom S.is_slice S.slice_from) S.counts_shortage
        (S.remaining s.old) script.now out.items) }
    ensures remains { OnOk result (S.remaining s.new ≡ rest_after (S.remaining s.old) script.now) }
    ensures location { OnOk result (S.location s.new
        ≡ location_behind (S.location s.old)
        (width (S.remaining s.old) - width (S.remaining s.new))) }
    ensures refused { OnErr result ((S.remaining s.new ≡ S.remaining s.old)
        × (S.location s.new ≡ S.location s.old)) }
    ensures valid { S.valid s.new }
    ensures kept { S.keeps s.old s.new }
{
    let start = s.checkpoint();
    let answers = run_steps(alloc, s, script);
    if answers.is_err() {
        s.reset(&start);
    }
    answers
}

// Does the same, but if memory is refused the stream stays where the last step left it.
fn run_steps<S: Stream, C: ScriptSet<S::Token>>(
    alloc: Global,
    s: &mut S,
    script: &[Step<C>],
) -> Result<Vec<Answer<S::Token, S::Slice, Vec<(usize, S::Token)>>>, AllocError>
where
    S::Token: Drop,
    S::Slice: Drop,
    requires valid { S.valid s.old }
    requires ready { AreReady C.askable script.now }
    ensures slices { IfOk result (λ out.
        AreAnswers C.may_answer (IsSliceFrom S.is_slice S.slice_from) S.counts_shortage
        (S.remaining s.old) script.now out.items) }
    ensures remains { OnOk result (S.remaining s.new ≡ rest_after (S.remaining s.old) script.now) }
    ensures location { OnOk result (S.location s.new
        ≡ location_behind (S.location s.old)
        (width (S.remaining s.old) - width (S.remaining s.new))) }
    ensures valid { S.valid s.new }
    ensures kept { S.keeps s.old s.new }
{
    let origin = Origin::new(s, s.eof_offset());
    let mut marks = Marks::new(alloc);
    let mut answers = Vec::with_capacity(alloc, script.len())?;
    // A slice that gets shorter stays in registers. The index of a `for` did not, and steps waited
    // for it, which took an eighth of the time.
    let mut rest = script;
    while let Some((step, later)) = rest.split_first() {
        let answer = answer_step(alloc, s, &origin, &mut marks, step)?;
        answers.push(answer)?;
        rest = later;
    }
    Ok(answers)
}
