//! `read_whole`, which parses a whole input to its end.

ghost use Rattle.std.specs.Prelude.{◌≡◌, ◌-◌, false, IfOk, IfErr};
ghost use Rattle.winnow_stream.specs.Source.{width};
ghost use Rattle.winnow_parser.specs.Outcome.{Refuses, Fails, Moves};
ghost use Rattle.winnow_parser.specs.Answer.{ahead};
ghost use Rattle.winnow_parser.specs.Whole.{ReadsWhole, StopsAfter, StopsWith, KeepsButFlag};

use crate::{Failure, Parser, WholeResult, taken_width_law};
use std::alloc::Global;
use winnow_error::ParserError;
use winnow_error_parse::ParseError;
use winnow_stream::{Stream, StreamIsPartial, taken_law};

// Reads a whole input. Nothing follows it, even where its flag says that more may.
pub(crate) fn read_whole<I, E, P>(
    parser: &P,
    alloc: Global,
    input: I,
) -> WholeResult<P::Output, ParseError<I, E>>
where
    I: StreamIsPartial + Drop,
    I::PartialState: Drop,
    E: ParserError<I>,
    P: Parser<I, E>,
    P::Output: Drop,
    requires ready { P.ready parser.now }
    requires valid { I.valid input }
    ensures value { IfOk result (λ answer. IfOk answer (ReadsWhole (P.means parser.now)
        (ahead I.location I.remaining input))) }
    ensures stopped { IfOk result (λ answer. IfErr answer (λ error. StopsAfter (P.means parser.now)
        (ahead I.location I.remaining input) error.offset)) }
    ensures error { IfOk result (λ answer. IfErr answer (λ error. StopsWith
        (ahead I.location I.remaining) E.from_input_gives (P.means parser.now) (P.errors parser.now)
        (ahead I.location I.remaining input) error.offset error.inner)) }
    ensures input { IfOk result (λ answer. IfErr answer (λ error.
        ahead I.location I.remaining error.input ≡ ahead I.location I.remaining input)) }
    ensures valid { IfOk result (λ answer. IfErr answer (λ error. I.valid error.input)) }
    ensures kept { IfOk result (λ answer. IfErr answer (λ error.
        KeepsButFlag I.same_but_flag I.keeps input error.input)) }
    ensures refused { IfErr result (λ _. P.means parser.now false
        (ahead I.location I.remaining input) (Fails Refuses)) }
{
    let mut input = input;
    let _ = input.complete();
    read_complete(parser, alloc, input)
}

// Reads an input after which nothing follows.
fn read_complete<I, E, P>(
    parser: &P,
    alloc: Global,
    input: I,
) -> WholeResult<P::Output, ParseError<I, E>>
where
    I: StreamIsPartial + Drop,
    E: ParserError<I>,
    P: Parser<I, E>,
    P::Output: Drop,
    requires ready { P.ready parser.now }
    requires valid { I.valid input }
    requires complete { I.expects_more input ≡ false }
    ensures value { IfOk result (λ answer. IfOk answer (ReadsWhole (P.means parser.now)
        (ahead I.location I.remaining input))) }
    ensures stopped { IfOk result (λ answer. IfErr answer (λ error. StopsAfter (P.means parser.now)
        (ahead I.location I.remaining input) error.offset)) }
    ensures error { IfOk result (λ answer. IfErr answer (λ error. StopsWith
        (ahead I.location I.remaining) E.from_input_gives (P.means parser.now) (P.errors parser.now)
        (ahead I.location I.remaining input) error.offset error.inner)) }
    ensures input { IfOk result (λ answer. IfErr answer (λ error.
        ahead I.location I.remaining error.input ≡ ahead I.location I.remaining input)) }
    ensures valid { IfOk result (λ answer. IfErr answer (λ error. I.valid error.input)) }
    ensures kept { IfOk result (λ answer. IfErr answer (λ error. I.keeps input error.input)) }
    ensures refused { IfErr result (λ _. P.means parser.now false
        (ahead I.location I.remaining input) (Fails Refuses)) }
{
    taken_law::<I::Token>();
    let mut input = input;
    let start = input.checkpoint();
    match parser.parse_next(alloc, &mut input) {
        Ok(value) => {
            if input.eof_offset() == 0 {
                return Ok(Ok(value));
            }
            let error = E::from_input(alloc, &input);
            Ok(Err(stopped(input, start, error)))
        }
        Err(Failure::Backtrack(error)) => Ok(Err(stopped(input, start, error))),
        Err(Failure::Cut(error)) => Ok(Err(stopped(input, start, error))),
        Err(Failure::Refused(refused)) => Err(refused),
        Err(Failure::Incomplete(_)) => unreachable!(),
    }
}

// Returns the error for a stream that moved on from the checkpoint and stopped.
fn stopped<I: Stream, E: ParserError<I>>(
    input: I,
    start: I::Checkpoint,
    inner: E,
) -> ParseError<I, E>
    requires valid { I.valid input }
    requires valid_checkpoint { I.valid_checkpoint start }
    requires moved { Moves (ahead I.Checkpoint.location I.remained start)
        (ahead I.location I.remaining input) }
    ensures inner { result.inner ≡ inner }
    ensures offset { result.offset ≡ width (I.remained start) - width (I.remaining input) }
    ensures input { ahead I.location I.remaining result.input
        ≡ ahead I.Checkpoint.location I.remained start }
    ensures valid { I.valid result.input }
    ensures kept { I.keeps input result.input }
{
    taken_width_law::<I::Token>();
    ParseError::new(input, start, inner)
}
