//! Parsers of text with escapes: `escaped` gathers its fragments, `take_escaped` returns its slice.

ghost use Rattle.std.specs.Prelude.{◌<◌, ◌^◌, [], IfErr};
ghost use Rattle.winnow_stream.specs.Source.{width};
ghost use Rattle.winnow_parser.specs.Outcome.{Moves};
ghost use Rattle.winnow_parser.specs.Answer.{ahead, outcome};
ghost use Rattle.winnow_combinator.specs.Gathering.{Gathered, IsParser-Gathered};
ghost use Rattle.winnow_combinator.specs.Misuse.{GatheredErrors};
ghost use Rattle.winnow_ascii.specs.Escaped.{Escape, NextFragment, UpToEnd, IsEscaped};
ghost use Rattle.winnow_ascii.specs.Escaped.{EscapeErrors, FragmentErrors, UpToEndErrors};
ghost use Rattle.winnow_ascii.specs.Escaped.{InTurnErrors};
ghost use Rattle.winnow_ascii.specs.EscapedLaws.{IsParser-IsEscaped};

use crate::{Fragment, escaped};
use std::alloc::Global;
use std::marker::PhantomData;
use winnow_count::Accumulate;
use winnow_error::ParserError;
use winnow_parser::{Failure, ModalResult, Parser};
use winnow_stream::{Needed, StreamIsPartial};

/// A parser of text with escapes, and what gathers its fragments; [`escaped`] makes it.
#[derive(Drop)]
#[derive_where(Clone, Copy; P, C, Q)]
pub struct Escaped<P, C, Q, A> {
    pub(crate) normal: P,
    pub(crate) control: C,
    pub(crate) escapable: Q,
    pub(crate) gathers: PhantomData<A>,
}

// Reads an escape after the control character. Returns `None`, and resets the stream, where the
// control character does not stand at the front.
#[inline(always)]
fn escape<I: StreamIsPartial, E: ParserError<I>, C: Parser<I, E>, Q: Parser<I, E>>(
    control: &C,
    escapable: &Q,
    alloc: Global,
    input: &mut I,
) -> ModalResult<Option<Q::Output>, E>
where
    C::Output: Drop,
    requires control { C.ready control.now }
    requires escapable { Q.ready escapable.now }
    requires valid { I.valid input.old }
    ensures means { Escape (C.means control.now) (Q.means escapable.now)
        (I.expects_more input.old)
        (ahead I.location I.remaining input.old)
        (outcome result (ahead I.location I.remaining input.new)) }
    ensures onward { Moves (ahead I.location I.remaining input.old)
        (ahead I.location I.remaining input.new) }
    ensures error { IfErr result (EscapeErrors (C.means control.now) (C.errors control.now)
        (Q.errors escapable.now) (I.expects_more input.old)
        (ahead I.location I.remaining input.old) input.new) }
    ensures valid { I.valid input.new }
    ensures kept { I.keeps input.old input.new }
{
    let start = input.checkpoint();
    match control.parse_next(alloc, input) {
        Ok(_) => match escapable.parse_next(alloc, input) {
            Ok(value) => Ok(Some(value)),
            Err(failure) => Err(failure),
        },
        Err(Failure::Backtrack(_)) => {
            input.reset(&start);
            Ok(None)
        }
        Err(Failure::Cut(error)) => Err(Failure::Cut(error)),
        Err(Failure::Incomplete(needed)) => Err(Failure::Incomplete(needed)),
        Err(Failure::Refused(refused)) => Err(Failure::Refused(refused)),
    }
}

// Reads the next fragment. Returns `None`, and resets the stream, where none stands at the front.
#[inline(always)]
fn next_fragment<
    I: StreamIsPartial,
    E: ParserError<I>,
    P: Parser<I, E>,
    C: Parser<I, E>,
    Q: Parser<I, E>,
    A,
>(
    text: &Escaped<P, C, Q, A>,
    alloc: Global,
    input: &mut I,
) -> ModalResult<Option<Fragment<P::Output, Q::Output>>, E>
where
    C::Output: Drop,
    requires normal { P.ready text.now.normal }
    requires control { C.ready text.now.control }
    requires escapable { Q.ready text.now.escapable }
    requires valid { I.valid input.old }
    ensures means { NextFragment (P.means text.now.normal) (C.means text.now.control)
        (Q.means text.now.escapable)
        (I.expects_more input.old)
        (ahead I.location I.remaining input.old)
        (outcome result (ahead I.location I.remaining input.new)) }
    ensures onward { Moves (ahead I.location I.remaining input.old)
        (ahead I.location I.remaining input.new) }
    ensures error { IfErr result (FragmentErrors (P.means text.now.normal)
        (P.errors text.now.normal)
        (EscapeErrors (C.means text.now.control) (C.errors text.now.control)
        (Q.errors text.now.escapable)) (I.expects_more input.old)
        (ahead I.location I.remaining input.old) input.new) }
    ensures valid { I.valid input.new }
    ensures kept { I.keeps input.old input.new }
{
    let start = input.checkpoint();
    match text.normal.parse_next(alloc, input) {
        Ok(value) => Ok(Some(Fragment::Normal(value))),
        Err(Failure::Backtrack(_)) => {
            input.reset(&start);
            match escape(&text.control, &text.escapable, alloc, input) {
                Ok(Some(value)) => Ok(Some(Fragment::Escaped(value))),
                Ok(None) => Ok(None),
                Err(failure) => Err(failure),
            }
        }
        Err(Failure::Cut(error)) => Err(Failure::Cut(error)),
        Err(Failure::Incomplete(needed)) => Err(Failure::Incomplete(needed)),
        Err(Failure::Refused(refused)) => Err(Failure::Refused(refused)),
    }
}

// Reads the next fragment, unless the input ends.
#[inline(always)]
fn fragment_or_end<
    I: StreamIsPartial,
    E: ParserError<I>,
    P: Parser<I, E>,
    C: Parser<I, E>,
    Q: Parser<I, E>,
    A,
>(
    text: &Escaped<P, C, Q, A>,
    alloc: Global,
    input: &mut I,
) -> ModalResult<Option<Fragment<P::Output, Q::Output>>, E>
where
    C::Output: Drop,
    requires normal { P.ready text.now.normal }
    requires control { C.ready text.now.control }
    requires escapable { Q.ready text.now.escapable }
    requires valid { I.valid input.old }
    ensures means { UpToEnd (NextFragment (P.means text.now.normal) (C.means text.now.control)
        (Q.means text.now.escapable))
        (I.expects_more input.old)
        (ahead I.location I.remaining input.old)
        (outcome result (ahead I.location I.remaining input.new)) }
    ensures onward { Moves (ahead I.location I.remaining input.old)
        (ahead I.location I.remaining input.new) }
    ensures error { IfErr result (UpToEndErrors (FragmentErrors (P.means text.now.normal)
        (P.errors text.now.normal)
        (EscapeErrors (C.means text.now.control) (C.errors text.now.control)
        (Q.errors text.now.escapable))) (I.expects_more input.old)
        (ahead I.location I.remaining input.old) input.new) }
    ensures valid { I.valid input.new }
    ensures kept { I.keeps input.old input.new }
{
    if input.eof_offset() > 0 {
        return next_fragment(text, alloc, input);
    }
    if input.is_partial() {
        return Err(Failure::Incomplete(Needed::Unknown));
    }
    Ok(None)
}

// Reads all fragments, and gathers them.
fn gather_fragments<
    I: StreamIsPartial,
    E: ParserError<I>,
    P: Parser<I, E>,
    C: Parser<I, E>,
    Q: Parser<I, E>,
    A: Accumulate<Fragment<P::Output, Q::Output>> + Drop,
>(text: &Escaped<P, C, Q, A>, alloc: Global, mut whole: A, input: &mut I) -> ModalResult<A, E>
where
    C::Output: Drop,
    requires normal { P.ready text.now.normal }
    requires control { C.ready text.now.control }
    requires escapable { Q.ready text.now.escapable }
    requires empty { A.holds whole [] }
    requires valid { I.valid input.old }
    requires room { width (I.remaining input.old) < 2 ^ 64 }
    ensures means { Gathered A.refusable (λ fragments made. A.holds made fragments)
        (IsEscaped (P.means text.now.normal) (C.means text.now.control)
        (Q.means text.now.escapable))
        (I.expects_more input.old)
        (ahead I.location I.remaining input.old)
        (outcome result (ahead I.location I.remaining input.new)) }
    ensures onward { Moves (ahead I.location I.remaining input.old)
        (ahead I.location I.remaining input.new) }
    ensures error { IfErr result (GatheredErrors (InTurnErrors
        (UpToEnd (NextFragment (P.means text.now.normal) (C.means text.now.control)
        (Q.means text.now.escapable)))
        (UpToEndErrors (FragmentErrors (P.means text.now.normal) (P.errors text.now.normal)
        (EscapeErrors (C.means text.now.control) (C.errors text.now.control)
        (Q.errors text.now.escapable))))) (I.expects_more input.old)
        (ahead I.location I.remaining input.old) input.new) }
    ensures valid { I.valid input.new }
    ensures kept { I.keeps input.old input.new }
{
    loop {
        let before = input.eof_offset();
        match fragment_or_end(text, alloc, input) {
            Ok(Some(fragment)) => match whole.accumulate(alloc, fragment) {
                Ok(()) => {}
                Err(refused) => return Err(Failure::Refused(refused)),
            },
            Ok(None) => return Ok(whole),
            Err(failure) => return Err(failure),
        }
        if input.eof_offset() >= before {
            return Ok(whole);
        }
    }
}

impl<
    I: StreamIsPartial,
    E: ParserError<I>,
    P: Parser<I, E>,
    C: Parser<I, E>,
    Q: Parser<I, E>,
    A: Accumulate<Fragment<P::Output, Q::Output>> + Drop,
> Parser<I, E> for Escaped<P, C, Q, A>
where
    C::Output: Drop,
{
    type Output = A;

    ghost means = { λ p. Gathered A.refusable (λ fragments whole. A.holds whole fragments)
        (IsEscaped (P.means p.normal) (C.means p.control) (Q.means p.escapable)) };

    ghost errors = { λ p. GatheredErrors (InTurnErrors
        (UpToEnd (NextFragment (P.means p.normal) (C.means p.control) (Q.means p.escapable)))
        (UpToEndErrors (FragmentErrors (P.means p.normal) (P.errors p.normal)
        (EscapeErrors (C.means p.control) (C.errors p.control) (Q.errors p.escapable))))) };

    ghost ready = { λ p. P.ready p.normal × C.ready p.control × Q.ready p.escapable };

    ghost lawful = { λ p.
        IsParser-Gathered A.refusable (λ fragments whole. A.holds whole fragments)
        (IsParser-IsEscaped (P.means p.normal) (C.means p.control) (Q.means p.escapable)
        (P.lawful p.normal) (C.lawful p.control) (Q.lawful p.escapable)) };

    fn parse_next(&self, alloc: Global, input: &mut I) -> ModalResult<A, E> {
        // The width of what remains fits in a `usize`, so the fragments can be counted.
        let _ = input.eof_offset();
        match A::initial(alloc, None) {
            Ok(whole) => gather_fragments(self, alloc, whole, input),
            Err(refused) => Err(Failure::Refused(refused)),
        }
    }
}
