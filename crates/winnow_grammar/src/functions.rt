//! The functions that make the parsers and records of this crate.

ghost use Rattle.std.specs.Prelude.{◌≡◌};

use crate::{
    ByRule, FromFn, MapIn, Nested, NestedAs, Part, PartAs, PlainRecord, PlainTextRecord, TryMapIn,
};
use std::alloc::Global;
use winnow_parser::ModalResult;
use winnow_stream::StreamIsPartial;

/// Returns the parser of a part of a grammar.
pub fn part<R>(reads: R) -> Part<R>
    ensures { result.reads ≡ reads }
{
    Part { reads }
}

/// Returns the parser of a grammar that contains itself, of at most this many layers. It cuts where
/// the input goes deeper, so that no input uses up the stack.
pub fn nested<L>(layer: L, depth: usize) -> Nested<L>
    ensures { result ≡ record { layer = layer; depth = depth } }
{
    Nested { layer, depth }
}

/// Returns the parser of a part of a grammar.
pub fn part_as<R>(reads: R) -> PartAs<R>
    ensures { result.reads ≡ reads }
{
    PartAs { reads }
}

/// Returns the parser of a grammar that contains itself, of at most this many layers. It cuts where
/// the input goes deeper, so that no input uses up the stack.
pub fn nested_as<L>(layer: L, depth: usize) -> NestedAs<L>
    ensures { result ≡ record { layer = layer; depth = depth } }
{
    NestedAs { layer, depth }
}

/// Returns the function as a parser. The function's contract says that its result is one that a
/// parser may return, and that the stream only advanced, as that of [`ask`](crate::ask) does: over
/// a text in one clause, `ReadsText`, and over bytes in `ReadsBytes`. Its failures carry the errors
/// that its contract allows.
pub fn from_fn<I: StreamIsPartial, O, E, F: Fn(Global, &mut I) -> ModalResult<O, E>>(
    read: F,
) -> FromFn<F>
    ensures { result ≡ record { read = read } }
{
    FromFn { read }
}

/// Returns the function as a parser that means what the rule says. The function's own contract has
/// to say so too.
pub fn by_rule<R, F>(rule: R, read: F) -> ByRule<R, F>
    ensures { result ≡ record { rule = rule; read = read } }
{
    ByRule { rule, read }
}

/// Returns the parser of what a function makes of the value, as `map` does, for a function that
/// takes memory. If memory is refused, the parser answers `Failure::Refused`.
///
/// ```
/// let owned = |alloc: Global, letters: I::Piece| String::from_str(alloc, letters.as_text());
/// let name = map_in(alpha1(), owned);
/// ```
pub fn map_in<P, F>(inner: P, f: F) -> MapIn<P, F>
    ensures { result ≡ record { inner = inner; f = f } }
{
    MapIn { inner, f }
}

/// Returns the parser of what a function makes of the value, as `try_map` does, for a function
/// whose error is any type that prints. An error of the function is a backtrack whose cause is the
/// text that it prints, which `ContextError` and `TreeError` keep. That text takes memory: if it is
/// refused, the parser answers `Failure::Refused`.
///
/// ```
/// let port = try_map_in(digit1(), |digits: I::Piece| digits.as_text().parse::<u16>());
/// ```
pub fn try_map_in<P, F>(inner: P, f: F) -> TryMapIn<P, F>
    ensures { result ≡ record { inner = inner; f = f } }
{
    TryMapIn { inner, f }
}

/// Returns the record of bytes of a grammar, for a `ByteReader`.
pub fn record<R>(reads: R) -> PlainRecord<R>
    ensures { result.reads ≡ reads }
{
    PlainRecord { reads }
}

/// Returns the record of text of a grammar, for a `TextReader`:
///
/// ```
/// let mut reader = TextReader::new(alloc, Utf8Record::new(text_record(Line)));
/// ```
pub fn text_record<R>(reads: R) -> PlainTextRecord<R>
    ensures { result.reads ≡ reads }
{
    PlainTextRecord { reads }
}
