//! `AfterTurn`, the parsers of a tuple after the turn of one of them.

ghost use Rattle.std.specs.Prelude.{◌≡◌, IfErr};
ghost use Rattle.winnow_parser.specs.Outcome.{Meaning, Moves};
ghost use Rattle.winnow_parser.specs.Answer.{ahead, outcome};
ghost use Rattle.winnow_parser.specs.Errors.{Errors, FlatMapErrors};
ghost use Rattle.winnow_parser.specs.FlatMap.{FlatMaps};
ghost use Rattle.winnow_permutation.specs.Permutation.{TriesOnce};
ghost use Rattle.winnow_permutation.specs.PermutationErrors.{OnceErrors};

use crate::tried::Tried;
use std::alloc::Global;
use winnow_error::ParserError;
use winnow_parser::{ModalResult, Parser};
use winnow_stream::StreamIsPartial;

// A tuple of parsers, of which the others are called after the turn of one.
pub(crate) trait AfterTurn<I: StreamIsPartial, E>: Sized {
    // The value of a turn, and whose turn it was.
    type Turned;

    // The values of all, in the order of the tuple.
    type Output;

    // What the others may answer after a turn.
    ghost means: { Self → Self.Turned → Meaning Self.Output I.Token };

    // Which errors their failures carry.
    ghost errors: { Self → Self.Turned → Errors E I I.Token };

    // The tuples whose parsers may be called.
    ghost ready: { Self → Type 0 };

    // Calls the others in any order, and puts the value of the turn in its place.
    fn finish(
        &self,
        turn: Self::Turned,
        alloc: Global,
        input: &mut I,
    ) -> ModalResult<Self::Output, E>
        requires ready { ready self.now }
        requires valid { I.valid input.old }
        ensures means { means self.now turn (I.expects_more input.old)
            (ahead I.location I.remaining input.old)
            (outcome result (ahead I.location I.remaining input.new)) }
        ensures onward { Moves (ahead I.location I.remaining input.old)
            (ahead I.location I.remaining input.new) }
        ensures error { IfErr result (errors self.now turn (I.expects_more input.old)
            (ahead I.location I.remaining input.old) input.new) }
        ensures valid { I.valid input.new }
        ensures kept { I.keeps input.old input.new };
}

// Calls the parser of turns, which goes back to where it began if all backtrack, and then the
// others.
pub(crate) fn take_turn<
    I: StreamIsPartial,
    E: ParserError<I>,
    L: AfterTurn<I, E>,
    T: Parser<I, E, Output = L::Turned>,
>(turns: &T, list: &L, alloc: Global, input: &mut I) -> ModalResult<L::Output, E>
where
    L::Turned: Drop,
    requires turns { T.ready turns.now }
    requires list { L.ready list.now }
    requires valid { I.valid input.old }
    ensures means { FlatMaps ◌≡◌ (L.means list.now)
        (TriesOnce E.append_refusable (T.means turns.now)) (I.expects_more input.old)
        (ahead I.location I.remaining input.old)
        (outcome result (ahead I.location I.remaining input.new)) }
    ensures onward { Moves (ahead I.location I.remaining input.old)
        (ahead I.location I.remaining input.new) }
    ensures error { IfErr result (FlatMapErrors ◌≡◌ (L.errors list.now)
        (TriesOnce E.append_refusable (T.means turns.now))
        (OnceErrors (ahead I.location I.remaining) (ahead I.Checkpoint.location I.remained)
        E.or_gives E.append_gives (T.means turns.now) (T.errors turns.now))
        (I.expects_more input.old) (ahead I.location I.remaining input.old) input.new) }
    ensures valid { I.valid input.new }
    ensures kept { I.keeps input.old input.new }
{
    let turn = Tried { inner: turns }.parse_next(alloc, input)?;
    match list.finish(turn, alloc, input) {
        Ok(all) => Ok(all),
        Err(failure) => Err(failure),
    }
}
