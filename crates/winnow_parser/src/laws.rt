//! The laws that each parser keeps (`parser_law`), of consumed widths (`taken_width_law`), and that
//! the parsers made of deterministic parsers are deterministic (`determined_law` and its kind).

ghost use Rattle.std.specs.Prelude.{◌≡◌, ◌-◌, IsTrue, ⊤};
ghost use Rattle.winnow_stream.specs.Source.{HasPositiveWidths, width, IsEndOf};
ghost use Rattle.winnow_stream.specs.Front.{is_offset};
ghost use Rattle.winnow_parser.specs.Laws.{IsParser};
ghost use Rattle.winnow_parser.specs.Outcome.{Ahead, Moves, after};
ghost use Rattle.winnow_count.specs.Reading.{IsSomeExactly, ReadsAlike};
ghost use Rattle.winnow_parser.specs.Meanings.{Maps, Pair, IsAlt2, IsOpt, Peeks, IsNot, CutsErr};
ghost use Rattle.winnow_parser.specs.Meanings.{BacktracksErr, Verifies, VerifyMaps};
ghost use Rattle.winnow_parser.specs.Taken.{Taken, WithTaken};
ghost use Rattle.winnow_parser.specs.Span.{Spans, HasSpan};
ghost use Rattle.winnow_parser.specs.Determined.{IsDetermined, Shows, AreBothSame, AreSameIfAny};
ghost use Rattle.winnow_parser.specs.Determined.{Respects, SlicesRespect};

use crate::{Parser, ValueTest};
use winnow_count::ParseSlice;
use winnow_error::ParserError;
use winnow_stream::StreamIsPartial;

/// The law of a parser: its settled answers stay when more input follows, it needs nothing where
/// nothing may follow, and it only moves the stream on. It is the way to these laws for a parser
/// whose type has no name, since a closure is in it. It does nothing when called: its contract is
/// the law.
pub fn parser_law<I: StreamIsPartial, E, P: Parser<I, E>>(parser: &P)
    ensures { IsParser (P.means parser.now) }
{
    let _ = parser;
}

/// The law of what was taken: a stream that moved on is narrower by an offset, and stands after the
/// front of that width. It does nothing when called: its contract is the law.
pub fn taken_width_law<T>()
    ensures rest { (a b : Ahead T) → Moves a b → IsEndOf b.tokens a.tokens }
    ensures offset { (a b : Ahead T) → HasPositiveWidths a.tokens → Moves a b
        → IsTrue (is_offset a.tokens (width a.tokens - width b.tokens)) }
    ensures after { (a b : Ahead T) → HasPositiveWidths a.tokens → Moves a b
        → after a (width a.tokens - width b.tokens) ≡ b }
{}

/// The laws of two parsers that have one answer each: one after the other they have one answer, and
/// so have they as alternatives. A view shows what counts of a value: values that show the same are
/// the same. It does nothing when called: its contract is the law.
pub fn determined_pair_law<
    I: StreamIsPartial,
    E: ParserError<I>,
    A: Parser<I, E>,
    B: Parser<I, E>,
    C: Parser<I, E, Output = A::Output>,
    V,
    W,
>()
    ensures pair { (view : A.Output → V) (other : B.Output → W) (a : A) (b : B)
        → IsDetermined (Shows view) (A.means a) → IsDetermined (Shows other) (B.means b)
        → IsDetermined (AreBothSame (Shows view) (Shows other)) (Pair (A.means a) (B.means b)) }
    ensures either { (view : A.Output → V) (a : A) (c : C)
        → IsDetermined (Shows view) (A.means a) → IsDetermined (Shows view) (C.means c)
        → IsDetermined (Shows view) (IsAlt2 E.or_refusable (A.means a) (C.means c)) }
{}

/// The laws of a parser that has one answer: what a combinator makes of it has one answer too. It
/// does nothing when called: its contract is the law.
pub fn determined_law<I: StreamIsPartial, E, A: Parser<I, E>, V>()
    ensures optional { (view : A.Output → V) (a : A) → IsDetermined (Shows view) (A.means a)
        → IsDetermined (AreSameIfAny (Shows view)) (IsOpt (A.means a)) }
    ensures looked_at { (view : A.Output → V) (a : A) → IsDetermined (Shows view) (A.means a)
        → IsDetermined (Shows view) (Peeks (A.means a)) }
    ensures negated { (view : A.Output → V) (a : A) → IsDetermined (Shows view) (A.means a)
        → IsDetermined (λ _ _. ⊤) (IsNot (A.means a)) }
    ensures cut_off { (view : A.Output → V) (a : A) → IsDetermined (Shows view) (A.means a)
        → IsDetermined (Shows view) (CutsErr (A.means a)) }
    ensures softened { (view : A.Output → V) (a : A) → IsDetermined (Shows view) (A.means a)
        → IsDetermined (Shows view) (BacktracksErr (A.means a)) }
    ensures spanned { (view : A.Output → V) (a : A) → IsDetermined (Shows view) (A.means a)
        → IsDetermined (λ x y. x ≡ y) (Spans (A.means a)) }
    ensures with_span { (view : A.Output → V) (a : A) → IsDetermined (Shows view) (A.means a)
        → IsDetermined (AreBothSame (Shows view) (λ x y. x ≡ y)) (HasSpan (A.means a)) }
{}

/// The laws of slices: where a view shows the same of all slices of one front, the parser of the
/// slice that another parser takes has one answer if the other has. It does nothing when called:
/// its contract is the law.
pub fn determined_slice_law<I: StreamIsPartial, E, A: Parser<I, E>, V, W>()
    ensures taken { (view : A.Output → V) (bytes : I.Slice → W) (a : A)
        → SlicesRespect I.is_slice (Shows bytes) → IsDetermined (Shows view) (A.means a)
        → IsDetermined (Shows bytes) (Taken I.is_slice (A.means a)) }
    ensures with_taken { (view : A.Output → V) (bytes : I.Slice → W) (a : A)
        → SlicesRespect I.is_slice (Shows bytes) → IsDetermined (Shows view) (A.means a)
        → IsDetermined (AreBothSame (Shows view) (Shows bytes))
        (WithTaken I.is_slice (A.means a)) }
{}

/// The law of values that are read as others: where slices that show the same read as the same
/// value, what is read of a parser with one answer is one value. It does nothing when called: its
/// contract is the law.
pub fn determined_reading_law<I: StreamIsPartial, E, A: Parser<I, E>, R, V>()
where
    A::Output: ParseSlice<R>,
    ensures { (view : A.Output → V) (a : A)
        → ReadsAlike view A.Output.reads → IsDetermined (Shows view) (A.means a)
        → IsDetermined (λ x y. x ≡ y)
        (VerifyMaps (λ slice value. IsSomeExactly (A.Output.reads slice) value) (A.means a)) }
{}

/// The laws of functions: where a function gives the same for the same values, what it makes of a
/// parser with one answer has one answer. It does nothing when called: its contract is the law.
pub fn determined_function_law<
    I: StreamIsPartial,
    E,
    A: Parser<I, E>,
    O,
    F: Fn(A::Output) -> O,
    G: ValueTest<A::Output, By>,
    By,
    V,
    W,
>()
    ensures mapped { (view : A.Output → V) (other : O → W) (f : F) (a : A)
        → Respects (Shows view) (Shows other) (F.post f) → IsDetermined (Shows view) (A.means a)
        → IsDetermined (Shows other) (Maps (F.post f) (A.means a)) }
    ensures verified { (view : A.Output → V) (test : G) (a : A)
        → Respects (Shows view) (λ x y. x ≡ y) (G.says test)
        → IsDetermined (Shows view) (A.means a)
        → IsDetermined (Shows view) (Verifies (G.says test) (A.means a)) }
{}
