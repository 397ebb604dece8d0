//! The parser of a count and of a value in that number of tokens alone: `length_and_then`.

ghost use Rattle.std.specs.Prelude.{◌≡◌, false, IfErr, IfOk};
ghost use Rattle.winnow_parser.specs.Outcome.{Moves};
ghost use Rattle.winnow_parser.specs.Answer.{ahead, outcome};
ghost use Rattle.winnow_parser.specs.Errors.{OwnErrors, PairErrors, FailsLeaving};
ghost use Rattle.winnow_binary.specs.Lengths.{FrontOf, CountedFront, IsParser-CountedFront};
ghost use Rattle.winnow_binary.specs.LengthAndThen.{IsLengthAndThen, IsParser-IsLengthAndThen};
ghost use Rattle.winnow_binary.specs.LengthAndThen.{LengthAndThenErrors, AnswersAlone};

use crate::Length;
use std::alloc::Global;
use winnow_error::ParserError;
use winnow_parser::{ModalResult, Parser};
use winnow_stream::{StreamIsPartial, UpdateSlice};
use winnow_token::take;

/// A parser of a count, and then of what the inner parser reads in that number of tokens;
/// [`length_and_then`] makes it.
#[derive(Clone, Copy, Drop)]
pub struct LengthAndThen<P, Q> {
    length: P,
    inner: Q,
}

/// Returns the parser of a count, and then of what the inner parser reads in that number of tokens
/// alone: a stream of the same type, at the location where these tokens stand, with what the stream
/// keeps. Nothing follows them, so the inner parser never needs more. It need not read all of them.
/// The stream stands after them.
pub fn length_and_then<P, Q>(length: P, inner: Q) -> LengthAndThen<P, Q>
    ensures { result ≡ record { length = length; inner = inner } }
{
    LengthAndThen { length, inner }
}

// Returns a stream of the first tokens alone, and moves past them.
fn take_front<I: StreamIsPartial + UpdateSlice + Copy, E: ParserError<I>>(
    count: usize,
    alloc: Global,
    input: &mut I,
) -> ModalResult<I, E>
    requires valid { I.valid input.old }
    ensures means { FrontOf (ahead I.location I.remaining) I.counts_shortage count
        (I.expects_more input.old) (ahead I.location I.remaining input.old)
        (outcome result (ahead I.location I.remaining input.new)) }
    ensures onward { Moves (ahead I.location I.remaining input.old)
        (ahead I.location I.remaining input.new) }
    ensures error { IfErr result (OwnErrors E.from_input_gives E.assert_gives
        (I.expects_more input.old) (ahead I.location I.remaining input.old) input.new) }
    ensures front { IfOk result I.valid }
    ensures valid { I.valid input.new }
    ensures kept { I.keeps input.old input.new }
{
    let start = input.checkpoint();
    match take(count).parse_next(alloc, input) {
        Ok(slice) => Ok((*input).update_slice(slice, &start)),
        Err(failure) => Err(failure),
    }
}

// Reads a count, and returns a stream of that number of tokens alone, past which it moves.
fn take_counted<I: StreamIsPartial + UpdateSlice + Copy, E: ParserError<I>, P: Parser<I, E>>(
    length: &P,
    alloc: Global,
    input: &mut I,
) -> ModalResult<I, E>
where
    P::Output: Length,
    requires ready { P.ready length.now }
    requires valid { I.valid input.old }
    ensures means { CountedFront P.Output.number (ahead I.location I.remaining) I.counts_shortage
        (P.means length.now) (I.expects_more input.old) (ahead I.location I.remaining input.old)
        (outcome result (ahead I.location I.remaining input.new)) }
    ensures onward { Moves (ahead I.location I.remaining input.old)
        (ahead I.location I.remaining input.new) }
    ensures error { IfErr result (PairErrors (P.means length.now) (P.errors length.now)
        (OwnErrors E.from_input_gives E.assert_gives)
        (I.expects_more input.old) (ahead I.location I.remaining input.old) input.new) }
    ensures front { IfOk result I.valid }
    ensures valid { I.valid input.new }
    ensures kept { I.keeps input.old input.new }
{
    let count = length.parse_next(alloc, input)?;
    let count = count.length();
    match take_front(count, alloc, input) {
        Ok(front) => Ok(front),
        Err(failure) => Err(failure),
    }
}

// Asks a parser of a stream, after which nothing follows.
fn read_alone<S: StreamIsPartial + Drop, E, Q: Parser<S, E>>(
    inner: &Q,
    alloc: Global,
    front: S,
) -> ModalResult<Q::Output, E>
where
    S::PartialState: Drop,
    requires ready { Q.ready inner.now }
    requires valid { S.valid front }
    ensures means { AnswersAlone (Q.means inner.now) (ahead S.location S.remaining front) result }
    ensures error { IfErr result (FailsLeaving (ahead S.location S.remaining) (Q.means inner.now)
        (Q.errors inner.now) false (ahead S.location S.remaining front)) }
{
    let mut front = front;
    let _ = front.complete();
    match inner.parse_next(alloc, &mut front) {
        Ok(value) => Ok(value),
        Err(failure) => Err(failure),
    }
}

impl<
    I: StreamIsPartial + UpdateSlice + Copy,
    E: ParserError<I>,
    P: Parser<I, E>,
    Q: Parser<I, E>,
> Parser<I, E> for LengthAndThen<P, Q>
where
    I::PartialState: Drop,
    P::Output: Length,
{
    type Output = Q::Output;

    ghost means = { λ p. IsLengthAndThen (ahead I.location I.remaining) (Q.means p.inner)
        (CountedFront P.Output.number (ahead I.location I.remaining) I.counts_shortage
        (P.means p.length)) };

    ghost errors = { λ p. LengthAndThenErrors (ahead I.location I.remaining) (Q.means p.inner)
        (Q.errors p.inner)
        (CountedFront P.Output.number (ahead I.location I.remaining) I.counts_shortage
        (P.means p.length))
        (PairErrors (P.means p.length) (P.errors p.length)
        (OwnErrors E.from_input_gives E.assert_gives)) };

    ghost ready = { λ p. P.ready p.length × Q.ready p.inner };

    ghost lawful = { λ p.
        IsParser-IsLengthAndThen (ahead I.location I.remaining) (Q.means p.inner) _
        (IsParser-CountedFront (ahead I.location I.remaining) I.counts_shortage
        P.Output.number (P.means p.length) (P.lawful p.length)) };

    fn parse_next(&self, alloc: Global, input: &mut I) -> ModalResult<Q::Output, E> {
        let front = match take_counted(&self.length, alloc, input) {
            Ok(front) => front,
            Err(failure) => return Err(failure),
        };
        match read_alone(&self.inner, alloc, front) {
            Ok(value) => Ok(value),
            Err(failure) => Err(failure),
        }
    }
}
