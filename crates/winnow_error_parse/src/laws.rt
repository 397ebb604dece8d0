//! Laws of parse errors. A law does nothing when called: its contract is the law.

ghost use Rattle.std.specs.Prelude.{◌≡◌, ◌==◌, ◌&&◌, ◌+◌, ◌<◌, ◌≤◌, ◌++◌, ℕ, List, length};
ghost use Rattle.std.specs.Str.{IsUtf8};
ghost use Rattle.std.specs.Char.{IsScalar, encode_utf8};
ghost use Rattle.winnow_stream.specs.Span.{span};
ghost use Rattle.winnow_error_parse.specs.CharSpan.{char_span, IsCharAt};
ghost use Rattle.winnow_error_parse.specs.Failure.{Failure};

use crate::ParseError;

/// The law of spans: at an offset inside a character of a text, the span is the place of that
/// character; at the end, the span is empty. The place is given by a boundary test, or by the texts
/// before and after the character. A law does nothing when called: its contract is the law.
pub fn char_span_law()
    ensures character { (before after : List ℕ) (c offset : ℕ) → IsUtf8 before → IsScalar c
        → IsUtf8 after
        → length before ≤ offset → offset < length before + length (encode_utf8 c)
        → char_span (before ++ encode_utf8 c ++ after) offset
        ≡ span (length before) (length (encode_utf8 c)) }
    ensures inside { (text : List ℕ) (start end offset : ℕ) → IsCharAt text start end
        → start ≤ offset → offset < end
        → char_span text offset ≡ record { start = start; end = end } }
    ensures at_end { (bytes : List ℕ)
        → char_span bytes (length bytes) ≡ record { start = length bytes; end = length bytes } }
{}

/// The law of equality: two errors are equal exactly if their inputs, their offsets and their inner
/// errors are equal.
pub fn parse_error_equality_law<I: PartialEq, E: PartialEq>()
    ensures { (s t : Failure I E) → ⟦<ParseError<I, E> as PartialEq>⟧.eq s t
        ≡ (I.eq s.input t.input && (s.offset == t.offset) && E.eq s.inner t.inner) }
{}
