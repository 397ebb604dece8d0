//! `RecoveringParser`, the two functions as methods of a parser.

ghost use Rattle.std.specs.Prelude.{◌≡◌};

use crate::{ResumeAfter, RetryAfter, resume_after, retry_after};
use winnow_parser::Parser;
use winnow_recover::Recover;
use winnow_stream::StreamIsPartial;

/// A parser over a stream on which it may record errors: [`resume_after`] and [`retry_after`] as
/// methods. Each parser over such a stream is one.
pub trait RecoveringParser<I: StreamIsPartial + Recover<E>, E>: Parser<I, E> {
    /// Returns the parser that is called again after each failure that the recovery skips.
    final fn retry_after<R>(self, recover: R) -> RetryAfter<Self, R, I, E>
        ensures parser { result.parser ≡ self }
        ensures recover { result.recover ≡ recover }
    {
        retry_after(self, recover)
    }

    /// Returns the parser that gives `None` after a failure that the recovery skips.
    final fn resume_after<R>(self, recover: R) -> ResumeAfter<Self, R, I, E>
        ensures parser { result.parser ≡ self }
        ensures recover { result.recover ≡ recover }
    {
        resume_after(self, recover)
    }
}

impl<I: StreamIsPartial + Recover<E>, E, P: Parser<I, E>> RecoveringParser<I, E> for P {}
