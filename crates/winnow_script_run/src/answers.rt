//! `answer_step`, which runs one step of a script on a stream and returns its answer.

ghost use Rattle.std.specs.Prelude.{◌≡◌, ◌≤◌, Bool, IfOk, IsOk, OnErr};
ghost use Rattle.winnow_stream.specs.SliceFrom.{IsSliceFrom};
ghost use Rattle.winnow_stream.specs.Source.{Computes, first_offset};
ghost use Rattle.winnow_script_run.specs.Marks.{room_of};
ghost use Rattle.winnow_script_run.specs.Script.{IsReady};
ghost use Rattle.winnow_script_run.specs.RunState.{run_state, MayTake, TakesNoMemory, TakesStep};

use crate::{Answer, Marks, Origin, Step};
use std::alloc::{AllocError, Global};
use winnow_stream::{ScriptSet, Stream};

/// Answers one step of a run, which moves the stream and may add a mark.
///
/// It is for engines of scripts that have further steps, or that continue later over a new stream.
/// The stream and its origin stand at places on one list, and the contract speaks of that list
/// alone. If memory is refused, the stream and the marks stay as they were. Only [`Step::Each`],
/// and a mark for which there is no room, can be refused memory.
// Inlined in the two loops that call it: as a call it copies each answer twice, which takes a tenth
// of a step's time.
#[inline(always)]
pub fn answer_step<S: Stream, C: ScriptSet<S::Token>>(
    alloc: Global,
    s: &mut S,
    origin: &Origin<S::Checkpoint>,
    marks: &mut Marks,
    step: &Step<C>,
) -> Result<Answer<S::Token, S::Slice, Vec<(usize, S::Token)>>, AllocError>
where
    S::Token: Drop,
    S::Slice: Drop,
    requires valid { S.valid s.old × S.valid_checkpoint origin.now.checkpoint }
    requires ready { IsReady C.askable step.now }
    requires stands { MayTake step.now
        (run_state S.remained origin.now (S.remaining s.old) marks.old) }
    ensures step { IfOk result
        (TakesStep C.may_answer (IsSliceFrom S.is_slice S.slice_from) S.counts_shortage step.now
        (run_state S.remained origin.now (S.remaining s.old) marks.old)
        (run_state S.remained origin.now (S.remaining s.new) marks.new)
        (S.Checkpoint.location origin.now.checkpoint) (S.location s.old) (S.location s.new)) }
    ensures refused { OnErr result ((run_state S.remained origin.now (S.remaining s.new) marks.new
        ≡ run_state S.remained origin.now (S.remaining s.old) marks.old)
        × (S.location s.new ≡ S.location s.old)) }
    ensures memory { (TakesNoMemory step.now marks.old → IsOk result)
        × (room_of marks.old ≤ room_of marks.new) }
    ensures valid { S.valid s.new }
    ensures kept { S.keeps s.old s.new }
{
    match step {
        Step::Next => Ok(Answer::Token(s.next_token())),
        Step::Peek => Ok(Answer::Token(s.peek_token())),
        Step::Take(offset) => {
            if s.is_offset(*offset) {
                Ok(Answer::Slice(s.next_slice(*offset)))
            } else {
                Ok(Answer::BadOffset)
            }
        }
        Step::Look(offset) => {
            if s.is_offset(*offset) {
                Ok(Answer::Slice(s.peek_slice(*offset)))
            } else {
                Ok(Answer::BadOffset)
            }
        }
        Step::Finish => Ok(Answer::Slice(s.finish())),
        Step::PeekFinish => Ok(Answer::Slice(s.peek_finish())),
        Step::Eof => Ok(Answer::Offset(s.eof_offset())),
        Step::At(tokens) => Ok(Answer::At(s.offset_at(*tokens))),
        Step::IsOffset(offset) => Ok(Answer::Flag(s.is_offset(*offset))),
        Step::First(set) => Ok(Answer::First(first_of(s, set))),
        Step::Each => Ok(Answer::Items(s.iter_offsets().collect(alloc)?)),
        Step::Mark => {
            let number = marks.count();
            marks.push(origin.end - s.eof_offset())?;
            Ok(Answer::Marked(number))
        }
        Step::Reset(number) => match marks.place(*number) {
            Some(place) => {
                s.reset(&origin.checkpoint);
                let _ = s.next_slice(place - origin.place);
                Ok(Answer::Done)
            }
            None => Ok(Answer::NoMark),
        },
        Step::Since(number) => match marks.place(*number) {
            Some(mark) => {
                let place = origin.end - s.eof_offset();
                if place < mark {
                    Ok(Answer::LaterMark)
                } else {
                    Ok(Answer::Offset(place - mark))
                }
            }
            None => Ok(Answer::NoMark),
        },
    }
}

// The first offset whose token a set holds.
fn first_of<S: Stream, C: ScriptSet<S::Token>>(s: &S, set: &C) -> Option<usize>
    requires valid { S.valid s.now }
    requires ready { C.askable set.now }
    ensures { (holds : S.Token → Bool) → Computes (C.may_answer set.now) holds
        → result ≡ first_offset holds (S.remaining s.now) }
{
    s.offset_for(|token| set.holds(token))
}
