//! Parsers of the longest prefix of members, `take_while`, or of other tokens, `take_till`.

ghost use Rattle.std.specs.Prelude.{◌≡◌, ℕ, ◌≤◌, Bool, Option, length, take, Some, None, IsTrue};
ghost use Rattle.std.specs.Prelude.{IfErr};
ghost use Rattle.winnow_stream.specs.Source.{width, Computes};
ghost use Rattle.winnow_stream.specs.Front.{is_offset};
ghost use Rattle.winnow_count.specs.CountRange.{least_count, greatest_count, is_up_to};
ghost use Rattle.winnow_parser.specs.Outcome.{Moves};
ghost use Rattle.winnow_parser.specs.Answer.{ahead, outcome};
ghost use Rattle.winnow_parser.specs.Errors.{OwnErrors};
ghost use Rattle.winnow_token.specs.TakeWhile.{TakesWhile, IsFound, IsParser-TakesWhile};
ghost use Rattle.winnow_token.specs.TakeWhile.{held_within};

use crate::counts::{NO_COUNT, allow_some, has_tokens};
use std::alloc::Global;
use winnow_count::Range;
use winnow_error::ParserError;
use winnow_parser::{Failure, ModalResult, Parser};
use winnow_sets::FixedSet;
use winnow_stream::{Needed, Stream, StreamIsPartial};

/// A parser of the tokens that a set holds; [`take_while`] makes it.
#[derive(Clone, Copy, Debug, Drop)]
pub struct TakeWhile<C> {
    pub(crate) counts: Range,
    pub(crate) set: C,
}

impl<I: StreamIsPartial, E: ParserError<I>, C: FixedSet<I::Token>> Parser<I, E> for TakeWhile<C> {
    type Output = I::Slice;

    ghost means = { λ p. TakesWhile I.is_slice
        (C.holds p.set) (least_count p.counts) (greatest_count p.counts) };

    ghost errors = { λ _. OwnErrors E.from_input_gives E.assert_gives };

    ghost ready = { λ p. C.askable p.set };

    ghost lawful = { λ p. IsParser-TakesWhile I.is_slice I.slices_stay
        (C.holds p.set) (least_count p.counts) (greatest_count p.counts) };

    #[inline(always)]
    fn parse_next(&self, alloc: Global, input: &mut I) -> ModalResult<I::Slice, E> {
        let counts = &self.counts;
        take_front(alloc, input, counts, |token| self.set.holds_token(token))
    }
}

// A front that was found: its width, whether it has the least number of tokens, and whether more
// input may lengthen it.
struct Found {
    end: usize,
    enough: bool,
    grows: bool,
}

// Takes the longest front whose tokens the test holds of, as many as the counts allow.
// Inlined: a short front is found in less time than its slice takes through memory.
#[inline(always)]
pub(crate) fn take_front<I: StreamIsPartial, E: ParserError<I>, P: Fn(I::Token) -> bool + Drop>(
    alloc: Global,
    input: &mut I,
    counts: &Range,
    held: P,
) -> ModalResult<I::Slice, E>
    requires valid { I.valid input.old }
    requires callable { P.IsAlwaysCallable held }
    ensures means { (holds : I.Token → Bool) → Computes (P.post held) holds
        → TakesWhile I.is_slice holds (least_count counts.now) (greatest_count counts.now)
        (I.expects_more input.old)
        (ahead I.location I.remaining input.old)
        (outcome result (ahead I.location I.remaining input.new)) }
    ensures onward { Moves (ahead I.location I.remaining input.old)
        (ahead I.location I.remaining input.new) }
    ensures error { IfErr result (OwnErrors E.from_input_gives E.assert_gives
        (I.expects_more input.old) (ahead I.location I.remaining input.old) input.new) }
    ensures valid { I.valid input.new }
    ensures kept { I.keeps input.old input.new }
{
    if !allow_some(counts) {
        return Err(Failure::Cut(E::assert(alloc, input, NO_COUNT)));
    }
    let least = counts.least();
    let Some(greatest) = counts.greatest() else {
        let found = longest(input, least, held);
        return take_found(alloc, input, found);
    };
    let found = longest_within(input, least, greatest, held);
    take_found(alloc, input, found)
}

// Takes the front that was found, if it has enough tokens and no more input lengthens it.
#[inline(always)]
fn take_found<I: StreamIsPartial, E: ParserError<I>>(
    alloc: Global,
    input: &mut I,
    found: Found,
) -> ModalResult<I::Slice, E>
    requires valid { I.valid input.old }
    requires offset { IsTrue (is_offset (I.remaining input.old) found.end) }
    ensures means { (holds : I.Token → Bool) (least : ℕ) (greatest : Option ℕ)
        → IsTrue (is_up_to greatest least)
        → IsFound holds least greatest (I.remaining input.old) found.end found.enough found.grows
        → TakesWhile I.is_slice holds least greatest (I.expects_more input.old)
        (ahead I.location I.remaining input.old)
        (outcome result (ahead I.location I.remaining input.new)) }
    ensures onward { Moves (ahead I.location I.remaining input.old)
        (ahead I.location I.remaining input.new) }
    ensures error { IfErr result (OwnErrors E.from_input_gives E.assert_gives
        (I.expects_more input.old) (ahead I.location I.remaining input.old) input.new) }
    ensures valid { I.valid input.new }
    ensures kept { I.keeps input.old input.new }
{
    let Found { end, enough, grows } = found;
    if grows && input.is_partial() {
        return Err(Failure::Incomplete(Needed::new(1)));
    }
    if !enough {
        return Err(Failure::Backtrack(E::from_input(alloc, input)));
    }
    Ok(input.next_slice(end))
}

// Finds the longest front whose tokens all pass the test.
// Inlined: two calls of it in one loop, as in a list, stayed calls and took half as long again.
#[inline(always)]
fn longest<I: Stream, P: Fn(I::Token) -> bool + Drop>(input: &I, least: usize, held: P) -> Found
    requires valid { I.valid input.now }
    requires callable { P.IsAlwaysCallable held }
    ensures offset { IsTrue (is_offset (I.remaining input.now) result.end) }
    ensures found { (holds : I.Token → Bool) → Computes (P.post held) holds
        → IsFound holds least None (I.remaining input.now) result.end result.enough result.grows }
{
    let room = input.eof_offset();
    let end = input.offset_for(|token| !held(token)).unwrap_or(room);
    Found {
        end,
        enough: has_tokens(input, end, least),
        grows: end == room,
    }
}

// Finds the longest front of at most `greatest` tokens, all of which pass the test.
#[inline(always)]
fn longest_within<I: Stream, P: Fn(I::Token) -> bool + Drop>(
    input: &I,
    least: usize,
    greatest: usize,
    held: P,
) -> Found
    requires valid { I.valid input.now }
    requires callable { P.IsAlwaysCallable held }
    ensures offset { IsTrue (is_offset (I.remaining input.now) result.end) }
    ensures found { (holds : I.Token → Bool) → Computes (P.post held) holds
        → IsFound holds least (Some greatest) (I.remaining input.now)
        result.end result.enough result.grows }
{
    let (count, end) = count_held(input, greatest, held);
    Found {
        end,
        enough: least <= count,
        grows: count < greatest && end == input.eof_offset(),
    }
}

// Returns the number of tokens of that front and its width, in one pass that ends with the token
// after it.
fn count_held<I: Stream, P: Fn(I::Token) -> bool + Drop>(
    input: &I,
    greatest: usize,
    held: P,
) -> (usize, usize)
    requires valid { I.valid input.now }
    requires callable { P.IsAlwaysCallable held }
    ensures count { result.0 ≤ length (I.remaining input.now) }
    ensures end { result.1 ≡ width (take result.0 (I.remaining input.now)) }
    ensures held { (holds : I.Token → Bool) → Computes (P.post held) holds
        → take result.0 (I.remaining input.now)
        ≡ held_within (Some greatest) holds (I.remaining input.now) }
{
    let mut count = 0;
    for (offset, token) in input.iter_offsets() {
        if !held(token) {
            return (count, offset);
        }
        if count == greatest {
            return (count, offset);
        }
        count += 1;
    }
    (count, input.eof_offset())
}
