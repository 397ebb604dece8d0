//! `AndThen`: a parser of what another parser gives, which is read as an input of its own.

ghost use Rattle.std.specs.Prelude.{◌≡◌, false, IfErr};
ghost use Rattle.winnow_parser.specs.Alone.{AnswersAlone, Inside, IsParser-Inside, WithinErrors};
ghost use Rattle.winnow_parser.specs.Answer.{ahead};
ghost use Rattle.winnow_parser.specs.Errors.{FailsLeaving};
ghost use Rattle.winnow_parser.specs.Meanings.{GivesOnly};

use crate::{ModalResult, Parser};
use std::alloc::Global;
use std::marker::PhantomData;
use winnow_stream::StreamIsPartial;

// Asks a parser of a stream, after which nothing follows, even where its flag says that more may.
fn read_alone<S: StreamIsPartial + Drop, E, Q: Parser<S, E>>(
    inner: &Q,
    alloc: Global,
    part: S,
) -> ModalResult<Q::Output, E>
where
    S::PartialState: Drop,
    requires ready { Q.ready inner.now }
    requires valid { S.valid part }
    ensures means { AnswersAlone (Q.means inner.now) (ahead S.location S.remaining part) result }
    ensures error { IfErr result (FailsLeaving (ahead S.location S.remaining) (Q.means inner.now)
        (Q.errors inner.now) false (ahead S.location S.remaining part)) }
{
    let mut part = part;
    let _ = part.complete();
    match inner.parse_next(alloc, &mut part) {
        Ok(value) => Ok(value),
        Err(failure) => Err(failure),
    }
}

/// A parser of what another parser gives, as an input of its own; [`Parser::and_then`] makes it.
#[derive(Drop)]
#[derive_where(Clone, Copy; P, Q)]
pub struct AndThen<P, Q, I, E> {
    outer: P,
    inner: Q,
    parses: PhantomData<(I, E)>,
}

impl<P, Q, I, E> AndThen<P, Q, I, E> {
    // Returns the parser that reads what the outer one gives.
    pub(crate) fn new(outer: P, inner: Q) -> Self
        ensures outer { result.outer ≡ outer }
        ensures inner { result.inner ≡ inner }
    {
        AndThen {
            outer,
            inner,
            parses: PhantomData,
        }
    }
}

impl<I: StreamIsPartial, E, P: Parser<I, E>, Q: Parser<P::Output, E>> Parser<I, E>
    for AndThen<P, Q, I, E>
where
    P::Output: StreamIsPartial + Drop,
    <P::Output as StreamIsPartial>::PartialState: Drop,
{
    type Output = Q::Output;

    ghost means = { λ p. Inside (ahead P.Output.location P.Output.remaining) (Q.means p.inner)
        (P.means p.outer) };

    ghost errors = { λ p. WithinErrors (ahead P.Output.location P.Output.remaining)
        (Q.means p.inner) (Q.errors p.inner) (P.means p.outer) (P.errors p.outer) };

    ghost ready = { λ p. P.ready p.outer × Q.ready p.inner
        × GivesOnly (P.means p.outer) P.Output.valid };

    ghost lawful = { λ p. IsParser-Inside (ahead P.Output.location P.Output.remaining)
        (Q.means p.inner) (P.means p.outer) (P.lawful p.outer) };

    fn parse_next(&self, alloc: Global, input: &mut I) -> ModalResult<Q::Output, E> {
        let start = input.checkpoint();
        let part = match self.outer.parse_next(alloc, input) {
            Ok(part) => part,
            Err(failure) => return Err(failure),
        };
        match read_alone(&self.inner, alloc, part) {
            Ok(value) => Ok(value),
            Err(failure) => {
                input.reset(&start);
                Err(failure)
            }
        }
    }
}
