//! The parser of a reply, nested to a depth.

ghost use Rattle.std.specs.Prelude.{◌≡◌, ◌≢◌, ◌-◌, ◌<◌, true};
ghost use Rattle.winnow_parser.specs.Outcome.{Moves};
ghost use Rattle.winnow_parser.specs.Answer.{ahead, outcome};
ghost use Rattle.winnow_parser.specs.Errors.{AnyError};
ghost use Rattle.winnow_combinator.specs.Ending.{IsFail, IsParser-IsFail};
ghost use Rattle.format_resp.specs.Meanings.{BulkString, ArrayReply, Scalar, Layer, Nested};
ghost use Rattle.format_resp.specs.Meanings.{is_kind, IsParser-Nested};

use crate::Reply;
use crate::lines::{read_bytes, read_integer, read_length, read_text};
use std::alloc::Global;
use winnow_combinator::{cut_err, repeat};
use winnow_error::ParserError;
use winnow_grammar::{Rule, by_rule};
use winnow_parser::{Failure, ModalResult, Parser};
use winnow_sets::AsChar;
use winnow_stream::{AsBytes, Stream, StreamIsPartial};
use winnow_token::one_of;

// Reads a bulk string of at most `longest` bytes, after the byte of its kind.
fn read_bulk<I: StreamIsPartial, E: ParserError<I>>(
    alloc: Global,
    input: &mut I,
    longest: usize,
) -> ModalResult<Reply, E>
where
    I::Token: AsChar + Copy,
    I::Slice: AsBytes + Drop,
    requires { I.valid input.old }
    ensures means { BulkString I.Token.code I.counts_shortage I.is_slice I.Slice.bytes longest
        (I.expects_more input.old) (ahead I.location I.remaining input.old)
        (outcome result (ahead I.location I.remaining input.new)) }
    ensures onward { Moves (ahead I.location I.remaining input.old)
        (ahead I.location I.remaining input.new) }
    ensures valid { I.valid input.new }
    ensures kept { I.keeps input.old input.new }
{
    let Some(count) = read_length(alloc, input, longest)? else {
        return Ok(Reply::NullBulk);
    };
    match read_bytes(alloc, input, count) {
        Ok(bytes) => Ok(Reply::Bulk(bytes)),
        Err(failure) => Err(failure),
    }
}

// Reads an array of at most that many replies, which the inner parser reads, after the byte of its
// kind.
fn read_array<I: StreamIsPartial, E: ParserError<I>, P: Parser<I, E, Output = Reply> + Drop>(
    alloc: Global,
    input: &mut I,
    most: usize,
    inner: P,
) -> ModalResult<Reply, E>
where
    I::Token: AsChar + Copy,
    I::Slice: AsBytes + Drop,
    requires ready { P.ready inner }
    requires valid { I.valid input.old }
    ensures means { ArrayReply I.Token.code
        I.counts_shortage I.is_slice I.Slice.bytes most (P.means inner)
        (I.expects_more input.old) (ahead I.location I.remaining input.old)
        (outcome result (ahead I.location I.remaining input.new)) }
    ensures onward { Moves (ahead I.location I.remaining input.old)
        (ahead I.location I.remaining input.new) }
    ensures valid { I.valid input.new }
    ensures kept { I.keeps input.old input.new }
{
    let Some(count) = read_length(alloc, input, most)? else {
        return Ok(Reply::NullArray);
    };
    match cut_err(repeat(count, inner)).parse_next(alloc, input) {
        Ok(replies) => Ok(Reply::Array(replies)),
        Err(failure) => Err(failure),
    }
}

// Reads a reply that is no array, after the byte of its kind.
// Inlined: a reply that is handed on by a call is copied through memory at each level.
#[inline(always)]
fn read_scalar<I: StreamIsPartial, E: ParserError<I>>(
    alloc: Global,
    input: &mut I,
    longest: usize,
    kind: char,
) -> ModalResult<Reply, E>
where
    I::Token: AsChar + Copy,
    I::Slice: AsBytes + Drop,
    requires valid { I.valid input.old }
    requires kind { is_kind kind ≡ true }
    requires scalar { kind ≢ 42 }
    ensures means { Scalar I.Token.code I.counts_shortage I.is_slice I.Slice.bytes longest kind
        (I.expects_more input.old) (ahead I.location I.remaining input.old)
        (outcome result (ahead I.location I.remaining input.new)) }
    ensures onward { Moves (ahead I.location I.remaining input.old)
        (ahead I.location I.remaining input.new) }
    ensures valid { I.valid input.new }
    ensures kept { I.keeps input.old input.new }
{
    if kind == '+' {
        return match read_text(alloc, input, longest) {
            Ok(text) => Ok(Reply::Simple(text)),
            Err(failure) => Err(failure),
        };
    }
    if kind == '-' {
        return match read_text(alloc, input, longest) {
            Ok(text) => Ok(Reply::Error(text)),
            Err(failure) => Err(failure),
        };
    }
    if kind == ':' {
        return match read_integer(alloc, input) {
            Ok(number) => Ok(Reply::Integer(number)),
            Err(failure) => Err(failure),
        };
    }
    read_bulk(alloc, input, longest)
}

// Reads a reply. The inner parser reads the replies in an array, which are at most that many.
fn read_layer<I: StreamIsPartial, E: ParserError<I>, P: Parser<I, E, Output = Reply> + Drop>(
    alloc: Global,
    input: &mut I,
    longest: usize,
    most: usize,
    inner: P,
) -> ModalResult<Reply, E>
where
    I::Token: AsChar + Copy,
    I::Slice: AsBytes + Drop,
    requires ready { P.ready inner }
    requires valid { I.valid input.old }
    ensures means { Layer I.Token.code
        I.counts_shortage I.is_slice I.Slice.bytes longest most (P.means inner)
        (I.expects_more input.old) (ahead I.location I.remaining input.old)
        (outcome result (ahead I.location I.remaining input.new)) }
    ensures onward { Moves (ahead I.location I.remaining input.old)
        (ahead I.location I.remaining input.new) }
    ensures valid { I.valid input.new }
    ensures kept { I.keeps input.old input.new }
{
    let kinds = one_of(('+', '-', ':', '$', '*'));
    let kind = kinds.parse_next(alloc, input)?.as_char();
    if kind == '*' {
        return read_array(alloc, input, most, inner);
    }
    read_scalar(alloc, input, longest, kind)
}

// The parser that gives no reply: the one inside an array that must have no elements.
#[derive(Clone, Copy, Drop)]
struct NoReply;

impl<I: StreamIsPartial, E: ParserError<I>> Parser<I, E> for NoReply {
    type Output = Reply;

    ghost means = { λ _. IsFail };

    ghost errors = { λ _. AnyError };

    ghost ready = { λ _. Unit {0} };

    ghost lawful = { λ _. IsParser-IsFail };

    fn parse_next(&self, alloc: Global, input: &mut I) -> ModalResult<Reply, E> {
        Err(Failure::Backtrack(E::from_input(alloc, input)))
    }
}

/// The parser of a reply within these limits. It cuts where a limit is passed.
#[derive(Clone, Copy, Debug, Drop)]
pub struct ReplyTo {
    /// The greatest number of arrays that a reply stands in: 0 allows arrays without elements
    pub depth: usize,
    /// The greatest number of bytes in a text or a bulk string
    pub longest: usize,
}

impl<I: StreamIsPartial> Rule<I> for ReplyTo
where
    I::Token: AsChar + Copy,
    I::Slice: AsBytes,
{
    type Output = Reply;

    ghost meaning = { λ rule.
        Nested I.Token.code I.counts_shortage I.is_slice I.Slice.bytes rule.longest rule.depth };

    ghost lawful = { λ rule. IsParser-Nested I.Token.code I.counts_shortage I.is_slice I.Slice.bytes
        I.slices_stay rule.longest rule.depth };
}

impl<I: StreamIsPartial, E: ParserError<I>> Parser<I, E> for ReplyTo
where
    I::Token: AsChar + Copy,
    I::Slice: AsBytes + Drop,
{
    type Output = Reply;

    ghost means = { λ p. Nested I.Token.code I.counts_shortage I.is_slice I.Slice.bytes p.longest
        p.depth };

    ghost errors = { λ _. AnyError };

    ghost ready = { λ _. Unit {0} };

    ghost lawful = { λ p. IsParser-Nested I.Token.code I.counts_shortage I.is_slice I.Slice.bytes
        I.slices_stay p.longest p.depth };

    fn parse_next(&self, alloc: Global, input: &mut I) -> ModalResult<Reply, E> {
        read_nested(alloc, input, self.longest, self.depth)
    }
}

// Reads a reply within these limits. It passes itself on, as the parser of the replies in an array,
// in a closure whose contract is its own with one level less. The checker asks that `Inner` has a
// name.
#[cycle(reply)]
fn read_nested<I: StreamIsPartial, X, E: ParserError<I, Inner = X>>(
    alloc: Global,
    input: &mut I,
    longest: usize,
    depth: usize,
) -> ModalResult<Reply, E>
where
    I::Token: AsChar + Copy,
    I::Slice: AsBytes + Drop,
    requires { I.valid input.old }
    ensures means { Nested I.Token.code I.counts_shortage I.is_slice I.Slice.bytes longest depth
        (I.expects_more input.old) (ahead I.location I.remaining input.old)
        (outcome result (ahead I.location I.remaining input.new)) }
    ensures onward { Moves (ahead I.location I.remaining input.old)
        (ahead I.location I.remaining input.new) }
    ensures valid { I.valid input.new }
    ensures kept { I.keeps input.old input.new }
{
    if depth == 0 {
        return read_layer(alloc, input, longest, 0, NoReply);
    }
    let inner = |alloc: Global, input: &mut I| -> ModalResult<Reply, E>
        requires valid { I.valid input.old }
        requires deep { 0 < depth }
        ensures means { Nested I.Token.code
            I.counts_shortage I.is_slice I.Slice.bytes longest (depth - 1)
            (I.expects_more input.old) (ahead I.location I.remaining input.old)
            (outcome result (ahead I.location I.remaining input.new)) }
        ensures onward { Moves (ahead I.location I.remaining input.old)
            (ahead I.location I.remaining input.new) }
        ensures valid { I.valid input.new }
        ensures kept { I.keeps input.old input.new }
    { read_nested(alloc, input, longest, depth - 1) };
    let rule = ReplyTo {
        depth: depth - 1,
        longest,
    };
    read_layer(alloc, input, longest, usize::MAX, by_rule(rule, inner))
}
