//! Parsers that go on after a failure: a call of each law, and calls through their bounds.
#![tactic(auto)]

ghost use Rattle.std.specs.Prelude.{◌≡◌, ◌++◌, ◌∷◌, [], IfOk, IfNone, List};
ghost use Rattle.winnow_recover.specs.Recovering.{recoverable_inner, recorded_errors};

use std::alloc::Global;
use std::fmt::Debug;
use winnow_error::{EmptyError, FromRecoverableError, ParserError};
use winnow_parser::{ModalResult, Parser, Void};
use winnow_recover::{Recover, Recoverable};
use winnow_resume::{
    RecoveringParser, ResumeAfter, one_record_law, resume_after, retry_after, without_recovery_law,
};
use winnow_stream::StreamIsPartial;

type Recording = Recoverable<&'static str, EmptyError>;

/// Calls each law at a type that a program has.
pub fn call_each_law() {
    one_record_law::<
        &'static str,
        EmptyError,
        EmptyError,
        char,
        Void<char, Recording, EmptyError>,
    >();
    without_recovery_law::<&'static str, EmptyError, char, Void<char, &'static str, EmptyError>>();
}

/// Reads by a parser that resumes. If it has no value, an error was added, after those that the
/// parser and the recovery added.
pub fn resume_and_tell<I, F, E, P, R>(
    parser: &ResumeAfter<P, R, Recoverable<I, F>, E>,
    alloc: Global,
    input: &mut Recoverable<I, F>,
) -> ModalResult<Option<P::Output>, E>
where
    I: StreamIsPartial,
    E: ParserError<Recoverable<I, F>> + FromRecoverableError<Recoverable<I, F>, E>,
    F: FromRecoverableError<Recoverable<I, F>, E> + Debug,
    P: Parser<Recoverable<I, F>, E>,
    R: Parser<Recoverable<I, F>, E, Output = ()>,
    requires parser { P.ready parser.now.parser }
    requires recover { R.ready parser.now.recover }
    requires valid { I.valid (recoverable_inner input.old) }
    ensures told { IfOk result (λ value. IfNone value ((more : List F) × ((e : F)
        × (recorded_errors input.new ≡ (recorded_errors input.old ++ more) ++ e ∷ [])))) }
{
    one_record_law::<I, F, E, P, R>();
    parser.parse_next(alloc, input)
}

/// Reads over a plain text, which records no errors: by both parsers, as functions and as methods.
pub fn read_plainly(alloc: Global, text: &'static str) -> bool {
    let mut input = text;
    let comma: ModalResult<char, EmptyError> = retry_after(',', 'x'.void()).parse_next(
        alloc, &mut input,
    );
    let other: ModalResult<Option<char>, EmptyError> = resume_after(',', 'x'.void()).parse_next(
        alloc, &mut input,
    );
    let last: ModalResult<char, EmptyError> = ','
        .retry_after('x'.void())
        .parse_next(alloc, &mut input);
    comma.is_ok() && other.is_ok() && last.is_ok()
}
