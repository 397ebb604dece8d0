//! Laws of parsers of ASCII text. A law does nothing when called: its contract is the law.

ghost use Rattle.std.specs.Prelude.{◌≡◌, ℕ};
ghost use Rattle.winnow_count.specs.Reading.{ReadsAlike};
ghost use Rattle.winnow_parser.specs.Determined.{IsDetermined, Shows, Respects, SlicesRespect};
ghost use Rattle.winnow_token.specs.declared.parsers.take_while.TakeWhile.{TakeWhile};
ghost use Rattle.winnow_combinator.specs.DeterminedLists.{AreSameEach};
ghost use Rattle.winnow_combinator.specs.Gathering.{Gathered};
ghost use Rattle.winnow_ascii.specs.declared.class.Class.{Class};
ghost use Rattle.winnow_ascii.specs.Alike.{AllowSame};
ghost use Rattle.winnow_ascii.specs.Classes.{TakesAll, AllOf};
ghost use Rattle.winnow_ascii.specs.Escaped.{IsEscaped, AreSameFragments};
ghost use Rattle.winnow_ascii.specs.HexUint.{IsHexUint, ReadsText};
ghost use Rattle.winnow_ascii.specs.Lines.{TillLineEnding, IsTillLineEnding, TakesTillLineEnding};
ghost use Rattle.winnow_ascii.specs.Numbers.{IsDecUint, IsDecInt, ReadAs};

use crate::{Class, Fragment, HexUint, TillLineEnding};
use winnow_count::{Accumulate, ParseSlice};
use winnow_error::ParserError;
use winnow_parser::Parser;
use winnow_sets::AsChar;
use winnow_stream::{AsBStr, StreamIsPartial};
use winnow_token::TakeWhile;

/// The laws of classes and lines: the meanings of their parsers on each stream whose tokens stand
/// for characters. It does nothing when called: its contract is the law.
pub fn ascii_law<I: StreamIsPartial, E: ParserError<I>>()
where
    I::Token: AsChar + Copy,
    I::Slice: Drop,
    ensures class { (class : Class) (least : ℕ) (p : TakeWhile Class) → TakesAll class least p
        → AllowSame (⟦<TakeWhile<Class> as Parser<I, E>>⟧.means p)
        (AllOf I.is_slice I.Token.code class least) }
    ensures line { (p : TillLineEnding) → IsTillLineEnding p
        → AllowSame (⟦<TillLineEnding as Parser<I, E>>⟧.means p)
        (TakesTillLineEnding I.is_slice I.Token.code) }
{}

/// The laws of one answer for numbers: a parser of a number has one answer where a view shows the
/// same of all slices of one front, and slices that show the same read as the same value. It does
/// nothing when called: its contract is the law.
pub fn determined_number_law<I: StreamIsPartial, E: ParserError<I>, R, H: HexUint, V>()
where
    I::Token: AsChar,
    I::Slice: ParseSlice<R> + AsBStr,
    ensures unsigned { (view : I.Slice → V) → SlicesRespect I.is_slice (Shows view)
        → ReadsAlike view I.Slice.reads → IsDetermined (λ x y. x ≡ y)
        (ReadAs I.Slice.reads I.is_slice
        (IsDecUint E.or_refusable E.append_refusable I.is_slice I.Token.code)) }
    ensures signed { (view : I.Slice → V) → SlicesRespect I.is_slice (Shows view)
        → ReadsAlike view I.Slice.reads → IsDetermined (λ x y. x ≡ y)
        (ReadAs I.Slice.reads I.is_slice
        (IsDecInt E.or_refusable E.append_refusable I.is_slice I.Token.code)) }
    ensures hexadecimal { (view : I.Slice → V) → SlicesRespect I.is_slice (Shows view)
        → ReadsAlike view (λ s. ReadsText H.reads (I.Slice.text_bytes s))
        → IsDetermined (λ x y. x ≡ y) (IsHexUint (λ s. ReadsText H.reads (I.Slice.text_bytes s))
        I.is_slice I.Token.code H.nibbles) }
{}

/// The law of one answer for text with escapes: where its parts have one answer each, so have the
/// fragments, and so has what is gathered of them, where the same fragments make the same. It does
/// nothing when called: its contract is the law.
pub fn determined_escaped_law<
    I: StreamIsPartial,
    E,
    P: Parser<I, E>,
    C: Parser<I, E>,
    Q: Parser<I, E>,
    A: Accumulate<Fragment<P::Output, Q::Output>>,
    U,
    V,
    W,
    X,
>()
    ensures fragments { (view : P.Output → U) (control : C.Output → V) (other : Q.Output → W)
        (p : P) (c : C) (q : Q) → IsDetermined (Shows view) (P.means p)
        → IsDetermined (Shows control) (C.means c) → IsDetermined (Shows other) (Q.means q)
        → IsDetermined (AreSameEach (AreSameFragments (Shows view) (Shows other)))
        (IsEscaped (P.means p) (C.means c) (Q.means q)) }
    ensures gathered { (view : P.Output → U) (control : C.Output → V) (other : Q.Output → W)
        (whole : A → X) (p : P) (c : C) (q : Q)
        → Respects (AreSameEach (AreSameFragments (Shows view) (Shows other))) (Shows whole)
        (λ fragments made. A.holds made fragments)
        → IsDetermined (Shows view) (P.means p)
        → IsDetermined (Shows control) (C.means c) → IsDetermined (Shows other) (Q.means q)
        → IsDetermined (Shows whole)
        (Gathered A.refusable (λ fragments made. A.holds made fragments)
        (IsEscaped (P.means p) (C.means c) (Q.means q))) }
{}
