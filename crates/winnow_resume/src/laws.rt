//! Laws of what is recorded. A law does nothing when called: its contract is the law.

ghost use Rattle.std.specs.Prelude.{◌≡◌, ◌++◌, ◌∷◌, [], Bool, List, Option, false};
ghost use Rattle.winnow_parser.specs.Outcome.{Ahead, Outcome};
ghost use Rattle.winnow_parser.specs.Meanings.{Maps};
ghost use Rattle.winnow_parser.specs.Answer.{ahead};
ghost use Rattle.winnow_recover.specs.Recovering.{recorded_errors, IsSame};
ghost use Rattle.winnow_recover.specs.declared.recoverable.Recoverable.{Recoverable};
ghost use Rattle.winnow_resume.specs.Recording.{RecordsOne};
ghost use Rattle.winnow_resume.specs.ResumeAfter.{ResumesAfter, IsSomeOf};
ghost use Rattle.winnow_resume.specs.RetryAfter.{RetriesAfter};

use std::fmt::Debug;
use winnow_error::{FromRecoverableError, ParserError};
use winnow_parser::Parser;
use winnow_recover::{Recover, Recoverable};
use winnow_stream::{Checkpoint, Rest, Stream, StreamIsPartial};

/// The law of one record: between two values of a `Recoverable` between which one failure was
/// skipped, one error was added, made of the parser's error and of the places where the parser
/// began and failed. It comes after those that the parser and the recovery added themselves.
pub fn one_record_law<I, F, E, P, R>()
where
    I: StreamIsPartial,
    E: ParserError<Recoverable<I, F>>,
    F: FromRecoverableError<Recoverable<I, F>, E> + Debug,
    P: Parser<Recoverable<I, F>, E>,
    R: Parser<Recoverable<I, F>, E, Output = ()>,
    ensures { (p : P) (r : R) (partial : Bool) (s t : Recoverable I F)
        (one : RecordsOne (ahead ⟦<Recoverable<I, F> as Rest>⟧.location
        ⟦<Recoverable<I, F> as Stream>⟧.remaining)
        (ahead ⟦<Checkpoint<I::Checkpoint, Recoverable<I, F>> as Rest>⟧.location
        ⟦<Recoverable<I, F> as Stream>⟧.remained)
        ⟦<Recoverable<I, F> as Stream>⟧.keeps ⟦<Recoverable<I, F> as Recover<E>>⟧.records
        (P.means p) (P.errors p) (R.means r) partial s t)
        → (more : List F) × ((u : Recoverable I F) × (IsSame one.recorded.ended u
        × (recorded_errors t ≡ (recorded_errors s ++ more)
        ++ F.recovered one.start one.at u one.error ∷ []))) }
{}

/// The law of streams whose type records no errors: over them the parsers have only the results of
/// the parser that they were made of.
pub fn without_recovery_law<I, E, P, R>()
where
    I: StreamIsPartial + Recover<E>,
    E: FromRecoverableError<I, E> + Drop,
    P: Parser<I, E>,
    R: Parser<I, E, Output = ()>,
    ensures retry { I.supports_recovery ≡ false → (p : P) (r : R) (partial : Bool)
        (a : Ahead I.Token) (v : Outcome P.Output I.Token)
        → RetriesAfter I.supports_recovery (P.means p) (R.means r) partial a v
        → P.means p partial a v }
    ensures resume { I.supports_recovery ≡ false → (p : P) (r : R) (partial : Bool)
        (a : Ahead I.Token) (v : Outcome (Option P.Output) I.Token)
        → ResumesAfter false I.supports_recovery (P.means p) (R.means r) partial a v
        → Maps IsSomeOf (P.means p) partial a v }
{}
