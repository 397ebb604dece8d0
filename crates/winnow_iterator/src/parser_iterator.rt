//! `ParserIterator`, the values of a parser, one after another, and how they ended.

ghost use Rattle.std.specs.Prelude.{◌≡◌, None, IfOk, IfErr, IfSome, Some, Err};
ghost use Rattle.std.specs.Iterator.{at_most};
ghost use Rattle.winnow_stream.specs.Source.{width};
ghost use Rattle.winnow_parser.specs.Outcome.{Moves};
ghost use Rattle.winnow_parser.specs.Answer.{ahead, outcome};
ghost use Rattle.winnow_combinator.specs.Repeat.{Taking, OneMore};
ghost use Rattle.winnow_combinator.specs.Misuse.{TakingErrors};
ghost use Rattle.winnow_iterator.specs.Iterating.{EndsWith, Steps};

use std::alloc::Global;
use winnow_error::ParserError;
use winnow_parser::{Failure, ModalResult, Parser};
use winnow_stream::StreamIsPartial;

/// The values of a parser, one after another; [`iterator`] makes it.
///
/// `next` reads one more value. Where the parser backtracks, nothing is taken and the values have
/// ended. Where it fails otherwise, they have ended with that failure, which [`finish`] returns.
/// After the end `next` gives nothing more and reads nothing.
///
/// [`finish`]: ParserIterator::finish
#[derive(Drop)]
pub struct ParserIterator<P, I, E> {
    parser: P,
    alloc: Global,
    input: I,
    // How the values ended, once they have
    ended: Option<ModalResult<(), E>>,
}

/// Returns an iterator over the values of a parser: what `repeat` would gather, one value at a
/// time.
///
/// ```
/// let pair = terminated(separated_pair(alphanumeric1(), ':', alphanumeric1()), ',');
/// let mut pairs = iterator(alloc, input, pair);
/// ..
/// while let Some(pair) = pairs.next() {
/// ..
/// let (rest, ()) = pairs.finish()?;
/// ```
pub fn iterator<P, I, E>(alloc: Global, input: I, parser: P) -> ParserIterator<P, I, E>
where
    I: StreamIsPartial,
    E: ParserError<I>,
    P: Parser<I, E>,
    ensures parser { result.parser ≡ parser }
    ensures input { result.input ≡ input }
    ensures begins { result.ended ≡ None }
{
    ParserIterator {
        parser,
        alloc,
        input,
        ended: None,
    }
}

impl<P: Drop, I: Drop, E: Drop> ParserIterator<P, I, E> {
    /// Returns the remaining input, or the failure with which the values ended. It asks for no
    /// further value: an input whose values were not all asked for remains from there on.
    pub fn finish(self) -> ModalResult<(I, ()), E>
        ensures rest { IfOk result (λ rest. rest.0 ≡ self.input) }
        ensures failed { IfErr result (λ failure. self.ended ≡ Some (Err failure)) }
        ensures told { IfSome self.ended (λ ended. IfErr ended (λ failure. result ≡ Err failure)) }
    {
        let ParserIterator { input, ended, .. } = self;
        match ended {
            Some(Err(failure)) => Err(failure),
            _ => Ok((input, ())),
        }
    }
}

impl<I, E, P> Iterator for ParserIterator<P, I, E>
where
    I: StreamIsPartial + Drop,
    E: ParserError<I> + Drop,
    P: Parser<I, E> + Drop,
    P::Output: Drop,
{
    type Item = P::Output;

    ghost can_next = { λ s. P.ready s.parser × I.valid s.input };

    ghost next_gives = { λ s r t. Steps (P.means s.parser) (I.expects_more s.input)
        s.ended (ahead I.location I.remaining s.input) r
        t.ended (ahead I.location I.remaining t.input)
        × EndsWith (TakingErrors E.assert_gives (P.means s.parser) (P.errors s.parser))
        (I.expects_more s.input) s.ended (ahead I.location I.remaining s.input) t.ended t.input
        × (s.parser ≡ t.parser) × I.keeps s.input t.input };

    ghost remaining = { λ s. at_most (width (I.remaining s.input)) };

    fn next(&mut self) -> Option<P::Output> {
        if self.ended.is_some() {
            return None;
        }
        match one_value(&self.parser, self.alloc, &mut self.input) {
            Ok(Some(value)) => Some(value),
            Ok(None) => {
                self.ended = Some(Ok(()));
                None
            }
            Err(failure) => {
                self.ended = Some(Err(failure));
                None
            }
        }
    }
}

// Reads one more value, or resets the stream where the parser backtracks. A value for which nothing
// was taken is a failure, since the values would never end.
fn one_value<I: StreamIsPartial, E: ParserError<I>, P: Parser<I, E>>(
    parser: &P,
    alloc: Global,
    input: &mut I,
) -> ModalResult<Option<P::Output>, E>
where
    P::Output: Drop,
    requires ready { P.ready parser.now }
    requires valid { I.valid input.old }
    ensures means { OneMore 0 0 (Taking (P.means parser.now))
        (I.expects_more input.old) (ahead I.location I.remaining input.old)
        (outcome result (ahead I.location I.remaining input.new)) }
    ensures onward { Moves (ahead I.location I.remaining input.old)
        (ahead I.location I.remaining input.new) }
    ensures error { IfErr result (TakingErrors E.assert_gives (P.means parser.now)
        (P.errors parser.now) (I.expects_more input.old)
        (ahead I.location I.remaining input.old) input.new) }
    ensures valid { I.valid input.new }
    ensures kept { I.keeps input.old input.new }
{
    let before = input.eof_offset();
    let start = input.checkpoint();
    match parser.parse_next(alloc, input) {
        Ok(value) => {
            if input.eof_offset() < before {
                return Ok(Some(value));
            }
            let message = "a repeated parser must take something";
            Err(Failure::Cut(E::assert(alloc, input, message)))
        }
        Err(Failure::Backtrack(_)) => {
            input.reset(&start);
            Ok(None)
        }
        Err(failure) => Err(failure),
    }
}
