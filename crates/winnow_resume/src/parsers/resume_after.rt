//! `resume_after`, which gives no value in place of a failure.

ghost use Rattle.std.specs.Prelude.{◌≡◌, false, IfOk, IfErr, IfNone};
ghost use Rattle.winnow_parser.specs.Outcome.{Moves};
ghost use Rattle.winnow_parser.specs.Answer.{ahead, outcome};
ghost use Rattle.winnow_resume.specs.Recording.{RecordsOne};
ghost use Rattle.winnow_resume.specs.Failing.{AttemptErrors};
ghost use Rattle.winnow_resume.specs.ResumeAfter.{ResumesAfter, IsParser-ResumesAfter};

use crate::attempt::attempt;
use std::alloc::Global;
use std::marker::PhantomData;
use winnow_error::FromRecoverableError;
use winnow_parser::{ModalResult, Parser};
use winnow_recover::Recover;
use winnow_stream::StreamIsPartial;

/// A parser that gives no value in place of a failure; [`resume_after`] makes it.
#[derive(Drop)]
#[derive_where(Clone, Copy; P, R)]
pub struct ResumeAfter<P, R, I, E> {
    pub(crate) parser: P,
    pub(crate) recover: R,
    parses: PhantomData<(I, E)>,
}

/// Returns the parser that goes on after a failure. If the parser backtracks or cuts, the recovery
/// is called where it failed. If that succeeds, the stream records the error, with the place where
/// the parser began and the place where it failed, and the value is `None`.
///
/// A failure stays one, at its place, if the stream records no errors or refuses this one, or if
/// the recovery backtracks or cuts. The error is then what
/// [`FromRecoverableError`](winnow_error::FromRecoverableError) makes of it. If the recovery needs
/// more input, so does this parser, so that an input in pieces has the result of the whole one. If
/// there is no memory to record the error, this parser is refused memory, and nothing that was
/// recorded is lost.
///
/// ```
/// let item = resume_after(dec_uint(), take_till(0.., (',', ']')).void());
/// delimited('[', separated(0.., item, ','), ']').parse_next(alloc, input)
/// ```
pub fn resume_after<P, R, I, E>(parser: P, recover: R) -> ResumeAfter<P, R, I, E>
    ensures parser { result.parser ≡ parser }
    ensures recover { result.recover ≡ recover }
{
    ResumeAfter {
        parser,
        recover,
        parses: PhantomData,
    }
}

impl<I, E, P, R> Parser<I, E> for ResumeAfter<P, R, I, E>
where
    I: StreamIsPartial + Recover<E>,
    E: FromRecoverableError<I, E> + Drop,
    P: Parser<I, E>,
    R: Parser<I, E, Output = ()>,
{
    type Output = Option<P::Output>;

    ghost means = { λ p.
        ResumesAfter false I.supports_recovery (P.means p.parser) (R.means p.recover) };

    ghost errors = { λ p. AttemptErrors (ahead I.location I.remaining)
        (ahead I.Checkpoint.location I.remained) I.keeps I.refuses E.recovered
        I.supports_recovery (P.means p.parser) (P.errors p.parser) (R.means p.recover) false };

    ghost ready = { λ p. P.ready p.parser × R.ready p.recover };

    ghost lawful = { λ p.
        IsParser-ResumesAfter false I.supports_recovery (P.lawful p.parser) (R.lawful p.recover) };

    fn parse_next(&self, alloc: Global, input: &mut I) -> ModalResult<Option<P::Output>, E>
        requires ready { P.ready self.now.parser × R.ready self.now.recover }
        requires valid { I.valid input.old }
        ensures means { ResumesAfter false I.supports_recovery (P.means self.now.parser)
            (R.means self.now.recover) (I.expects_more input.old)
            (ahead I.location I.remaining input.old)
            (outcome result (ahead I.location I.remaining input.new)) }
        ensures onward { Moves (ahead I.location I.remaining input.old)
            (ahead I.location I.remaining input.new) }
        ensures error { IfErr result (AttemptErrors (ahead I.location I.remaining)
            (ahead I.Checkpoint.location I.remained) I.keeps I.refuses E.recovered
            I.supports_recovery (P.means self.now.parser) (P.errors self.now.parser)
            (R.means self.now.recover) false (I.expects_more input.old)
            (ahead I.location I.remaining input.old) input.new) }
        ensures valid { I.valid input.new }
        ensures kept { I.keeps input.old input.new }
        ensures told { IfOk result (λ value. IfNone value (RecordsOne
            (ahead I.location I.remaining) (ahead I.Checkpoint.location I.remained)
            I.keeps I.records (P.means self.now.parser) (P.errors self.now.parser)
            (R.means self.now.recover) (I.expects_more input.old) input.old input.new)) }
    {
        attempt(&self.parser, &self.recover, false, alloc, input)
    }
}
