//! The laws that parsers made by combinators are deterministic (`determined_repeat_law` and its
//! kind), and of an `alt` in an `alt` (`alternatives_law`).

ghost use Rattle.std.specs.Prelude.{ℕ, Bool, List, All, Option, ⊤, ◌≡◌};
ghost use Rattle.winnow_parser.specs.Determined.{IsDetermined, Shows, Respects, AreSameIfAny};
ghost use Rattle.winnow_parser.specs.Determined.{AreBothSame, SlicesRespect};
ghost use Rattle.winnow_parser.specs.Meanings.{Returns, Maps, IsAlways, IsForgotten, Pair};
ghost use Rattle.winnow_parser.specs.Meanings.{IsPreceded, IsTerminated, VerifyMaps, TriesTo};
ghost use Rattle.winnow_parser.specs.Meanings.{IsAlt2};
ghost use Rattle.winnow_combinator.specs.Appended.{Appending, AppendingIf, needs_some};
ghost use Rattle.winnow_combinator.specs.Appended.{appends_to_first, AppendedErrors};
ghost use Rattle.winnow_combinator.specs.Cond.{IsCond};
ghost use Rattle.winnow_combinator.specs.Counts.{Ascending};
ghost use Rattle.winnow_combinator.specs.DeterminedFolds.{AreSameIfTaken, TriesRespect};
ghost use Rattle.winnow_combinator.specs.DeterminedLists.{AreSameEach, StepsRespect, IsOneStart};
ghost use Rattle.winnow_combinator.specs.Ending.{IsEof, IsFail};
ghost use Rattle.winnow_combinator.specs.Gathering.{Gathered, Folds};
ghost use Rattle.winnow_combinator.specs.Repeat.{Repeats};
ghost use Rattle.winnow_combinator.specs.Separated.{IsSeparated, IsSeparatedFoldl1, Countable};
ghost use Rattle.winnow_combinator.specs.SeparatedFoldr1.{IsSeparatedFoldr1};
ghost use Rattle.winnow_combinator.specs.RepeatTill.{RepeatsTill, MakesOfFirst};
ghost use Rattle.winnow_combinator.specs.TryFold.{TriesFold};
ghost use Rattle.winnow_combinator.specs.VerifyFold.{VerifiesFold};
ghost use Rattle.winnow_parser.specs.Context.{InContext};
ghost use Rattle.winnow_parser.specs.FlatMap.{FlatMaps};
ghost use Rattle.winnow_combinator.specs.OneAnswer.{OneAnswer};
ghost use Rattle.winnow_parser.specs.DeterminedRows.{AreSame3, AreSame4, AreSame5, AreSame6};
ghost use Rattle.winnow_parser.specs.DeterminedRows.{AreSame7, AreSame8, AreSame9, AreSame10};
ghost use Rattle.winnow_parser.specs.Rows.{Row3, Row4, Row5, Row6, Row7, Row8, Row9, Row10};
ghost use Rattle.winnow_combinator.specs.Alt.{IsAlt3, IsAlt4, IsAlt5, IsAlt6, IsAlt7, IsAlt8};
ghost use Rattle.winnow_combinator.specs.Alt.{IsAlt9, IsAlt10};
ghost use Rattle.winnow_combinator.specs.AltOf.{IsAltOfAll};
ghost use Rattle.winnow_error.specs.declared.failure.Failure.TheVariants.{Backtrack};
ghost use Rattle.winnow_parser.specs.Answer.{ahead};
ghost use Rattle.winnow_parser.specs.Outcome.{Ahead};
ghost use Rattle.winnow_combinator.specs.Bracketing.{MeansAlike, MeansAlikeGranted, AltOfTwo};
ghost use Rattle.winnow_combinator.specs.Bracketing.{AltOfThree, AltErrors, JoinsThree};
ghost use Rattle.winnow_combinator.specs.Bracketing.{AppendsThree, AppendsNothing};
ghost use Rattle.winnow_combinator.specs.AltErrors.{AltErrors3};

use crate::Gather;
use winnow_error::{AddContext, AssociativeOr, ParserError};
use winnow_parser::Parser;
use winnow_stream::StreamIsPartial;

/// The laws of a parser that has one answer: repeated, or asked on a condition, it has one answer
/// too. So has what is gathered of its values, where the same values make the same. It does nothing
/// when called: its contract is the law.
pub fn determined_repeat_law<
    I: StreamIsPartial,
    E: ParserError<I>,
    A: Parser<I, E>,
    S: Parser<I, E>,
    G: Gather<A::Output>,
    V,
    W,
    X,
>()
    ensures repeated { (view : A.Output → V) (a : A) (least : ℕ) (greatest : Option ℕ)
        → IsDetermined (Shows view) (A.means a)
        → IsDetermined (AreSameEach (Shows view)) (Repeats least greatest (A.means a)) }
    ensures gathered { (view : A.Output → V) (whole : G.Whole → X) (g : G) (a : A) (least : ℕ)
        (greatest : Option ℕ)
        → Respects (AreSameEach (Shows view)) (Shows whole) (G.makes g)
        → IsDetermined (Shows view) (A.means a)
        → IsDetermined (Shows whole) (Ascending least greatest
        (Gathered G.refusable (G.makes g) (AppendingIf (needs_some least) E.append_refusable
        (Repeats least greatest (A.means a))))) }
    ensures separated { (view : A.Output → V) (other : S.Output → W) (a : A) (s : S) (least : ℕ)
        (greatest : Option ℕ)
        → IsDetermined (Shows other) (S.means s) → IsDetermined (Shows view) (A.means a)
        → IsDetermined (AreSameEach (Shows view))
        (IsSeparated least greatest (S.means s) (A.means a)) }
    ensures conditional { (view : A.Output → V) (a : A) (flag : Bool)
        → IsDetermined (Shows view) (A.means a)
        → IsDetermined (AreSameIfAny (Shows view)) (IsCond flag (A.means a)) }
{}

/// The laws of a repeated parser and a second one that have one answer each. The repetition has one
/// answer, both up to where the second gives a value, and folded with the second between its
/// values. It does nothing when called: its contract is the law.
pub fn determined_till_law<
    I: StreamIsPartial,
    E: ParserError<I>,
    A: Parser<I, E>,
    B: Parser<I, E>,
    G: Gather<A::Output>,
    F: Fn(A::Output, B::Output, A::Output) -> A::Output,
    V,
    W,
    X,
>()
    ensures repeated_till { (view : A.Output → V) (other : B.Output → W) (a : A) (b : B) (least : ℕ)
        (greatest : Option ℕ)
        → IsDetermined (Shows view) (A.means a) → IsDetermined (Shows other) (B.means b)
        → IsDetermined (AreBothSame (AreSameEach (Shows view)) (Shows other))
        (RepeatsTill least greatest (A.means a) (B.means b)) }
    ensures gathered { (view : A.Output → V) (other : B.Output → W) (whole : G.Whole → X) (g : G)
        (a : A) (b : B) (least : ℕ) (greatest : Option ℕ)
        → Respects (AreSameEach (Shows view)) (Shows whole) (G.makes g)
        → IsDetermined (Shows view) (A.means a) → IsDetermined (Shows other) (B.means b)
        → IsDetermined (AreBothSame (Shows whole) (Shows other)) (Ascending least greatest
        (Gathered G.refusable (MakesOfFirst (G.makes g))
        (RepeatsTill least greatest (Appending E.append_refusable (A.means a))
        (B.means b)))) }
    ensures folded { (view : A.Output → V) (other : B.Output → W) (f : F) (a : A) (b : B)
        → StepsRespect (Shows view) (AreBothSame (Shows other) (Shows view))
        (λ left pair new. F.post f left pair.0 pair.1 new)
        → IsDetermined (Shows view) (A.means a) → IsDetermined (Shows other) (B.means b)
        → IsDetermined (Shows view) (IsSeparatedFoldl1 (λ left pair new. F.post f left pair.0 pair.1
        new)
        (B.means b) (A.means a)) }
{}

/// The laws of parsers that take nothing: the end, nothing at all and a failure have one answer,
/// the end for a view that shows the same of all slices of one front. It does nothing when called:
/// its contract is the law.
pub fn determined_end_law<I: StreamIsPartial, O, V>()
    ensures ended { (view : I.Slice → V) → SlicesRespect I.is_slice (Shows view)
        → IsDetermined (Shows view) (IsEof I.is_slice) }
    ensures nothing { IsDetermined {O = Unit {0}} {T = I.Token} (λ _ _. ⊤) (Returns tt) }
    ensures failing { (view : O → V)
        → IsDetermined {O = O} {T = I.Token} (Shows view) IsFail }
{}

/// The laws of parsers in a row of which some values are dropped: they have one answer together
/// where each has one. It does nothing when called: its contract is the law.
pub fn determined_sequence_law<
    I: StreamIsPartial,
    E,
    A: Parser<I, E>,
    B: Parser<I, E>,
    C: Parser<I, E>,
    V,
    W,
    X,
>()
    ensures preceded { (v : A.Output → V) (w : B.Output → W)
        (a : OneAnswer A.means v) (b : OneAnswer B.means w)
        → IsDetermined (Shows w) (IsPreceded (A.means a.parser) (B.means b.parser)) }
    ensures terminated { (v : A.Output → V) (w : B.Output → W)
        (a : OneAnswer A.means v) (b : OneAnswer B.means w)
        → IsDetermined (Shows v) (IsTerminated (A.means a.parser) (B.means b.parser)) }
    ensures delimited { (v : A.Output → V) (w : B.Output → W) (x : C.Output → X)
        (a : OneAnswer A.means v) (b : OneAnswer B.means w) (c : OneAnswer C.means x)
        → IsDetermined (Shows w) (IsPreceded (A.means a.parser)
        (IsTerminated (B.means b.parser) (C.means c.parser))) }
    ensures separated_pair { (v : A.Output → V) (w : B.Output → W) (x : C.Output → X)
        (a : OneAnswer A.means v) (b : OneAnswer B.means w) (c : OneAnswer C.means x)
        → IsDetermined (AreBothSame (Shows v) (Shows x)) (Pair (A.means a.parser)
        (IsPreceded (B.means b.parser) (C.means c.parser))) }
{}

/// The laws of a parser that has one answer: with one value in place of its own, with none, and in
/// a context it has one answer too. It does nothing when called: its contract is the law.
pub fn determined_value_law<I: StreamIsPartial, C, E: AddContext<I, C>, A: Parser<I, E>, O, V, W>()
    ensures value { (v : A.Output → V) (w : O → W) (value : O) (a : OneAnswer A.means v)
        → IsDetermined (Shows w) (Maps (IsAlways value) (A.means a.parser)) }
    ensures void { (v : A.Output → V) (a : OneAnswer A.means v)
        → IsDetermined (λ x y. x ≡ y) (Maps IsForgotten (A.means a.parser)) }
    ensures context { (v : A.Output → V) (a : OneAnswer A.means v)
        → IsDetermined (Shows v) (InContext E.add_context_refusable (A.means a.parser)) }
{}

/// The laws of functions that may make nothing of a value, and of functions that make a parser:
/// where a function makes the same of the same values, what it makes of a parser with one answer
/// has one answer. It does nothing when called: its contract is the law.
pub fn determined_choosing_law<
    I: StreamIsPartial,
    E,
    A: Parser<I, E>,
    Q: Parser<I, E>,
    O,
    Z,
    F: Fn(A::Output) -> Option<O>,
    G: Fn(A::Output) -> Result<O, Z>,
    H: Fn(A::Output) -> Q,
    V,
    W,
    X,
>()
    ensures verify_map { (v : A.Output → V) (w : O → W) (f : F) (a : OneAnswer A.means v)
        → Respects (Shows v) (AreSameIfAny (Shows w)) (F.post f)
        → IsDetermined (Shows w) (VerifyMaps (F.post f) (A.means a.parser)) }
    ensures try_map { (v : A.Output → V) (w : O → W) (f : G) (a : OneAnswer A.means v)
        → Respects (Shows v) (AreSameIfAny (Shows w)) (TriesTo (G.post f))
        → IsDetermined (Shows w) (VerifyMaps (TriesTo (G.post f)) (A.means a.parser)) }
    ensures flat_map { (v : A.Output → V) (x : Q.Output → X) (f : H) (a : OneAnswer A.means v)
        → Respects (Shows v) (λ q r. q ≡ r) (H.post f)
        → ((q : Q) → IsDetermined (Shows x) (Q.means q))
        → IsDetermined (Shows x) (FlatMaps (H.post f) Q.means (A.means a.parser)) }
{}

/// The laws of gathered lists: where the same values make the same, what is gathered of values with
/// separators between them, and what a function folds of repeated values, is one answer. It does
/// nothing when called: its contract is the law.
pub fn determined_gathered_law<
    I: StreamIsPartial,
    E: ParserError<I>,
    A: Parser<I, E>,
    S: Parser<I, E>,
    G: Gather<A::Output>,
    O,
    N: Fn() -> O,
    F: Fn(O, A::Output) -> O,
    V,
    W,
    X,
>()
    ensures separated { (v : A.Output → V) (w : S.Output → W) (x : G.Whole → X) (g : G)
        (a : OneAnswer A.means v) (s : OneAnswer S.means w) (least : ℕ) (greatest : Option ℕ)
        → Respects (AreSameEach (Shows v)) (Shows x) (G.makes g)
        → IsDetermined (Shows x) (Ascending least greatest
        (Countable (Gathered G.refusable (G.makes g)
        (AppendingIf (appends_to_first least greatest) E.append_refusable
        (IsSeparated least greatest (S.means s.parser) (A.means a.parser)))))) }
    ensures fold { (v : A.Output → V) (x : O → X) (init : N) (f : F) (a : OneAnswer A.means v)
        (least : ℕ) (greatest : Option ℕ) → IsOneStart (Shows x) (N.post init)
        → StepsRespect (Shows x) (Shows v) (F.post f)
        → IsDetermined (Shows x) (Ascending least greatest
        (Gathered ⊥ (Folds (N.post init) (F.post f))
        (AppendingIf (needs_some least) E.append_refusable
        (Repeats least greatest (A.means a.parser))))) }
{}

/// The laws of tuples: three to ten parsers in a row have one answer together where each has one.
/// All views show what counts in one type. It does nothing when called: its contract is the law.
pub fn determined_row_law<
    I: StreamIsPartial,
    E,
    A: Parser<I, E>,
    B: Parser<I, E>,
    C: Parser<I, E>,
    D: Parser<I, E>,
    F: Parser<I, E>,
    G: Parser<I, E>,
    H: Parser<I, E>,
    J: Parser<I, E>,
    K: Parser<I, E>,
    L: Parser<I, E>,
    V,
>()
    ensures three { (v1 : A.Output → V) (v2 : B.Output → V) (v3 : C.Output → V)
        (a : OneAnswer A.means v1) (b : OneAnswer B.means v2) (c : OneAnswer C.means v3)
        → IsDetermined (AreSame3 (Shows v1) (Shows v2) (Shows v3)) (Row3 (A.means a.parser)
        (B.means b.parser) (C.means c.parser)) }
    ensures four { (v1 : A.Output → V) (v2 : B.Output → V) (v3 : C.Output → V) (v4 : D.Output → V)
        (a : OneAnswer A.means v1) (b : OneAnswer B.means v2) (c : OneAnswer C.means v3)
        (d : OneAnswer D.means v4) → IsDetermined (AreSame4 (Shows v1) (Shows v2) (Shows v3)
        (Shows v4)) (Row4 (A.means a.parser) (B.means b.parser) (C.means c.parser)
        (D.means d.parser)) }
    ensures five { (v1 : A.Output → V) (v2 : B.Output → V) (v3 : C.Output → V) (v4 : D.Output → V)
        (v5 : F.Output → V) (a : OneAnswer A.means v1) (b : OneAnswer B.means v2)
        (c : OneAnswer C.means v3) (d : OneAnswer D.means v4) (f : OneAnswer F.means v5)
        → IsDetermined (AreSame5 (Shows v1) (Shows v2) (Shows v3) (Shows v4) (Shows v5))
        (Row5 (A.means a.parser) (B.means b.parser) (C.means c.parser) (D.means d.parser)
        (F.means f.parser)) }
    ensures six { (v1 : A.Output → V) (v2 : B.Output → V) (v3 : C.Output → V) (v4 : D.Output → V)
        (v5 : F.Output → V) (v6 : G.Output → V) (a : OneAnswer A.means v1)
        (b : OneAnswer B.means v2) (c : OneAnswer C.means v3) (d : OneAnswer D.means v4)
        (f : OneAnswer F.means v5) (g : OneAnswer G.means v6) → IsDetermined (AreSame6 (Shows v1)
        (Shows v2) (Shows v3) (Shows v4) (Shows v5) (Shows v6)) (Row6 (A.means a.parser)
        (B.means b.parser) (C.means c.parser) (D.means d.parser) (F.means f.parser)
        (G.means g.parser)) }
    ensures seven { (v1 : A.Output → V) (v2 : B.Output → V) (v3 : C.Output → V) (v4 : D.Output → V)
        (v5 : F.Output → V) (v6 : G.Output → V) (v7 : H.Output → V) (a : OneAnswer A.means v1)
        (b : OneAnswer B.means v2) (c : OneAnswer C.means v3) (d : OneAnswer D.means v4)
        (f : OneAnswer F.means v5) (g : OneAnswer G.means v6) (h : OneAnswer H.means v7)
        → IsDetermined (AreSame7 (Shows v1) (Shows v2) (Shows v3) (Shows v4) (Shows v5) (Shows v6)
        (Shows v7)) (Row7 (A.means a.parser) (B.means b.parser) (C.means c.parser)
        (D.means d.parser) (F.means f.parser) (G.means g.parser) (H.means h.parser)) }
    ensures eight { (v1 : A.Output → V) (v2 : B.Output → V) (v3 : C.Output → V) (v4 : D.Output → V)
        (v5 : F.Output → V) (v6 : G.Output → V) (v7 : H.Output → V) (v8 : J.Output → V)
        (a : OneAnswer A.means v1) (b : OneAnswer B.means v2) (c : OneAnswer C.means v3)
        (d : OneAnswer D.means v4) (f : OneAnswer F.means v5) (g : OneAnswer G.means v6)
        (h : OneAnswer H.means v7) (j : OneAnswer J.means v8) → IsDetermined (AreSame8 (Shows v1)
        (Shows v2) (Shows v3) (Shows v4) (Shows v5) (Shows v6) (Shows v7) (Shows v8))
        (Row8 (A.means a.parser) (B.means b.parser) (C.means c.parser) (D.means d.parser)
        (F.means f.parser) (G.means g.parser) (H.means h.parser) (J.means j.parser)) }
    ensures nine { (v1 : A.Output → V) (v2 : B.Output → V) (v3 : C.Output → V) (v4 : D.Output → V)
        (v5 : F.Output → V) (v6 : G.Output → V) (v7 : H.Output → V) (v8 : J.Output → V)
        (v9 : K.Output → V) (a : OneAnswer A.means v1) (b : OneAnswer B.means v2)
        (c : OneAnswer C.means v3) (d : OneAnswer D.means v4) (f : OneAnswer F.means v5)
        (g : OneAnswer G.means v6) (h : OneAnswer H.means v7) (j : OneAnswer J.means v8)
        (k : OneAnswer K.means v9) → IsDetermined (AreSame9 (Shows v1) (Shows v2) (Shows v3)
        (Shows v4) (Shows v5) (Shows v6) (Shows v7) (Shows v8) (Shows v9)) (Row9 (A.means a.parser)
        (B.means b.parser) (C.means c.parser) (D.means d.parser) (F.means f.parser)
        (G.means g.parser) (H.means h.parser) (J.means j.parser) (K.means k.parser)) }
    ensures ten { (v1 : A.Output → V) (v2 : B.Output → V) (v3 : C.Output → V) (v4 : D.Output → V)
        (v5 : F.Output → V) (v6 : G.Output → V) (v7 : H.Output → V) (v8 : J.Output → V)
        (v9 : K.Output → V) (v10 : L.Output → V) (a : OneAnswer A.means v1)
        (b : OneAnswer B.means v2) (c : OneAnswer C.means v3) (d : OneAnswer D.means v4)
        (f : OneAnswer F.means v5) (g : OneAnswer G.means v6) (h : OneAnswer H.means v7)
        (j : OneAnswer J.means v8) (k : OneAnswer K.means v9) (l : OneAnswer L.means v10)
        → IsDetermined (AreSame10 (Shows v1) (Shows v2) (Shows v3) (Shows v4) (Shows v5) (Shows v6)
        (Shows v7) (Shows v8) (Shows v9) (Shows v10)) (Row10 (A.means a.parser) (B.means b.parser)
        (C.means c.parser) (D.means d.parser) (F.means f.parser) (G.means g.parser)
        (H.means h.parser) (J.means j.parser) (K.means k.parser) (L.means l.parser)) }
{}

/// The laws of alternatives: two to ten that have one answer each have one answer together. It does
/// nothing when called: its contract is the law.
pub fn determined_choice_law<
    I: StreamIsPartial,
    E: ParserError<I>,
    A: Parser<I, E>,
    B: Parser<I, E, Output = A::Output>,
    C: Parser<I, E, Output = A::Output>,
    D: Parser<I, E, Output = A::Output>,
    F: Parser<I, E, Output = A::Output>,
    G: Parser<I, E, Output = A::Output>,
    H: Parser<I, E, Output = A::Output>,
    J: Parser<I, E, Output = A::Output>,
    K: Parser<I, E, Output = A::Output>,
    L: Parser<I, E, Output = A::Output>,
    V,
>()
    ensures two { (view : A.Output → V) (a : OneAnswer A.means view) (b : OneAnswer B.means view)
        → IsDetermined (Shows view) (Appending E.append_refusable (IsAlt2 E.or_refusable
        (A.means a.parser) (B.means b.parser))) }
    ensures three { (view : A.Output → V) (a : OneAnswer A.means view)
        (b : OneAnswer B.means view) (c : OneAnswer C.means view) → IsDetermined (Shows view)
        (Appending E.append_refusable (IsAlt3 E.or_refusable (A.means a.parser)
        (B.means b.parser) (C.means c.parser))) }
    ensures four { (view : A.Output → V) (a : OneAnswer A.means view) (b : OneAnswer B.means view)
        (c : OneAnswer C.means view) (d : OneAnswer D.means view) → IsDetermined (Shows view)
        (Appending E.append_refusable (IsAlt4 E.or_refusable (A.means a.parser)
        (B.means b.parser) (C.means c.parser) (D.means d.parser))) }
    ensures five { (view : A.Output → V) (a : OneAnswer A.means view) (b : OneAnswer B.means view)
        (c : OneAnswer C.means view) (d : OneAnswer D.means view) (f : OneAnswer F.means view)
        → IsDetermined (Shows view) (Appending E.append_refusable (IsAlt5 E.or_refusable
        (A.means a.parser) (B.means b.parser) (C.means c.parser) (D.means d.parser)
        (F.means f.parser))) }
    ensures six { (view : A.Output → V) (a : OneAnswer A.means view) (b : OneAnswer B.means view)
        (c : OneAnswer C.means view) (d : OneAnswer D.means view) (f : OneAnswer F.means view)
        (g : OneAnswer G.means view) → IsDetermined (Shows view) (Appending E.append_refusable
        (IsAlt6 E.or_refusable (A.means a.parser) (B.means b.parser) (C.means c.parser)
        (D.means d.parser) (F.means f.parser) (G.means g.parser))) }
    ensures seven { (view : A.Output → V) (a : OneAnswer A.means view)
        (b : OneAnswer B.means view) (c : OneAnswer C.means view) (d : OneAnswer D.means view)
        (f : OneAnswer F.means view) (g : OneAnswer G.means view) (h : OneAnswer H.means view)
        → IsDetermined (Shows view) (Appending E.append_refusable (IsAlt7 E.or_refusable
        (A.means a.parser) (B.means b.parser) (C.means c.parser) (D.means d.parser)
        (F.means f.parser) (G.means g.parser) (H.means h.parser))) }
    ensures eight { (view : A.Output → V) (a : OneAnswer A.means view)
        (b : OneAnswer B.means view) (c : OneAnswer C.means view) (d : OneAnswer D.means view)
        (f : OneAnswer F.means view) (g : OneAnswer G.means view) (h : OneAnswer H.means view)
        (j : OneAnswer J.means view) → IsDetermined (Shows view) (Appending E.append_refusable
        (IsAlt8 E.or_refusable (A.means a.parser) (B.means b.parser) (C.means c.parser)
        (D.means d.parser) (F.means f.parser) (G.means g.parser) (H.means h.parser)
        (J.means j.parser))) }
    ensures nine { (view : A.Output → V) (a : OneAnswer A.means view) (b : OneAnswer B.means view)
        (c : OneAnswer C.means view) (d : OneAnswer D.means view) (f : OneAnswer F.means view)
        (g : OneAnswer G.means view) (h : OneAnswer H.means view) (j : OneAnswer J.means view)
        (k : OneAnswer K.means view) → IsDetermined (Shows view) (Appending E.append_refusable
        (IsAlt9 E.or_refusable (A.means a.parser) (B.means b.parser) (C.means c.parser)
        (D.means d.parser) (F.means f.parser) (G.means g.parser) (H.means h.parser)
        (J.means j.parser) (K.means k.parser))) }
    ensures ten { (view : A.Output → V) (a : OneAnswer A.means view) (b : OneAnswer B.means view)
        (c : OneAnswer C.means view) (d : OneAnswer D.means view) (f : OneAnswer F.means view)
        (g : OneAnswer G.means view) (h : OneAnswer H.means view) (j : OneAnswer J.means view)
        (k : OneAnswer K.means view) (l : OneAnswer L.means view) → IsDetermined (Shows view)
        (Appending E.append_refusable (IsAlt10 E.or_refusable (A.means a.parser)
        (B.means b.parser) (C.means c.parser) (D.means d.parser) (F.means f.parser)
        (G.means g.parser) (H.means h.parser) (J.means j.parser) (K.means k.parser)
        (L.means l.parser))) }
{}

/// The law of brackets of alternatives: an `alt` in an `alt` means what one `alt` means, unless
/// memory is refused. Where appending to an error is never refused, it means that wholly. It does
/// nothing when called: its contract is the law.
pub fn alternatives_law<
    I: StreamIsPartial,
    E: ParserError<I>,
    A: Parser<I, E>,
    B: Parser<I, E, Output = A::Output>,
    C: Parser<I, E, Output = A::Output>,
>()
    ensures left { (a : A) (b : B) (c : C) → MeansAlikeGranted
        (AltOfThree E.append_refusable E.or_refusable (A.means a) (B.means b) (C.means c))
        (AltOfTwo E.append_refusable E.or_refusable
        (AltOfTwo E.append_refusable E.or_refusable (A.means a) (B.means b)) (C.means c)) }
    ensures right { (a : A) (b : B) (c : C) → MeansAlikeGranted
        (AltOfThree E.append_refusable E.or_refusable (A.means a) (B.means b) (C.means c))
        (AltOfTwo E.append_refusable E.or_refusable (A.means a)
        (AltOfTwo E.append_refusable E.or_refusable (B.means b) (C.means c))) }
    ensures left_wholly { ¬ E.append_refusable → (a : A) (b : B) (c : C) → MeansAlike
        (AltOfThree E.append_refusable E.or_refusable (A.means a) (B.means b) (C.means c))
        (AltOfTwo E.append_refusable E.or_refusable
        (AltOfTwo E.append_refusable E.or_refusable (A.means a) (B.means b)) (C.means c)) }
    ensures right_wholly { ¬ E.append_refusable → (a : A) (b : B) (c : C) → MeansAlike
        (AltOfThree E.append_refusable E.or_refusable (A.means a) (B.means b) (C.means c))
        (AltOfTwo E.append_refusable E.or_refusable (A.means a)
        (AltOfTwo E.append_refusable E.or_refusable (B.means b) (C.means c))) }
{}

/// The law of brackets of their errors, where `or` is an associative function. The error of one
/// `alt` of three is what `append` gives of the three errors, joined in their order. Where `append`
/// changes nothing, the error of an `alt` in an `alt` is these three, joined in their order,
/// however the alternatives are bracketed. It does nothing when called: its contract is the law.
pub fn alternative_errors_law<
    I: StreamIsPartial,
    E: AssociativeOr<I>,
    A: Parser<I, E>,
    B: Parser<I, E, Output = A::Output>,
    C: Parser<I, E, Output = A::Output>,
>()
    ensures three { (a : A) (b : B) (c : C) (partial : Bool) (at : Ahead I.Token) (s : I) (e : E)
        → AppendedErrors (ahead I.Checkpoint.location I.remained) E.append_gives
        (AltErrors3 (ahead I.location I.remaining) E.or_refusable E.or_gives (A.means a)
        (A.errors a) (B.means b) (B.errors b) (C.errors c)) partial at s (Backtrack e)
        → AppendsThree (ahead I.Checkpoint.location I.remained) E.append_gives
        (ahead I.location I.remaining) E.joined (A.means a) (A.errors a)
        (B.means b) (B.errors b) (C.errors c) partial at s e }
    ensures left { AppendsNothing E.append_gives
        → (a : A) (b : B) (c : C) (partial : Bool) (at : Ahead I.Token) (s : I) (e : E)
        → AltErrors (ahead I.Checkpoint.location I.remained) E.append_gives
        (ahead I.location I.remaining) E.or_gives
        (AltOfTwo E.append_refusable E.or_refusable (A.means a) (B.means b))
        (AltErrors (ahead I.Checkpoint.location I.remained) E.append_gives
        (ahead I.location I.remaining) E.or_gives (A.means a) (A.errors a) (B.errors b))
        (C.errors c) partial at s (Backtrack e)
        → JoinsThree (ahead I.location I.remaining) E.joined (A.means a) (A.errors a)
        (B.means b) (B.errors b) (C.errors c) partial at s e }
    ensures right { AppendsNothing E.append_gives
        → (a : A) (b : B) (c : C) (partial : Bool) (at : Ahead I.Token) (s : I) (e : E)
        → AltErrors (ahead I.Checkpoint.location I.remained) E.append_gives
        (ahead I.location I.remaining) E.or_gives (A.means a) (A.errors a)
        (AltErrors (ahead I.Checkpoint.location I.remained) E.append_gives
        (ahead I.location I.remaining) E.or_gives (B.means b) (B.errors b) (C.errors c))
        partial at s (Backtrack e)
        → JoinsThree (ahead I.location I.remaining) E.joined (A.means a) (A.errors a)
        (B.means b) (B.errors b) (C.errors c) partial at s e }
{}

/// The law of an `alt` over an array or a slice: if each of its parsers is deterministic, it is. It
/// does nothing when called: its contract is the law.
pub fn determined_list_law<I: StreamIsPartial, E: ParserError<I>, A: Parser<I, E>, V>()
    ensures { (view : A.Output → V) (list : List A)
        → All (λ p. IsDetermined (Shows view) (A.means p)) list
        → IsDetermined (Shows view)
        (IsAltOfAll E.append_refusable E.or_refusable A.means list) }
{}

/// The laws of folds whose function may refuse a value: if all starts are the same, and the
/// function makes the same of results so far and values that are the same, the fold of a
/// deterministic parser is deterministic. It does nothing when called: its contract is the law.
pub fn determined_try_fold_law<
    I: StreamIsPartial,
    E: ParserError<I>,
    A: Parser<I, E>,
    O,
    Z,
    N: Fn() -> O,
    F: Fn(O, A::Output) -> Option<O>,
    G: Fn(O, A::Output) -> Result<O, Z>,
    V,
    X,
>()
    ensures verify_fold { (v : A.Output → V) (x : O → X) (init : N) (op : F)
        (a : OneAnswer A.means v) (least : ℕ) (greatest : Option ℕ)
        → IsOneStart (Shows x) (N.post init)
        → TriesRespect (Shows x) (Shows v) (AreSameIfAny (Shows x)) (F.post op)
        → IsDetermined (Shows x) (Ascending least greatest (VerifiesFold least greatest
        E.append_refusable (N.post init) (F.post op) (A.means a.parser))) }
    ensures try_fold { (v : A.Output → V) (x : O → X) (init : N) (op : G)
        (a : OneAnswer A.means v) (least : ℕ) (greatest : Option ℕ)
        → IsOneStart (Shows x) (N.post init)
        → TriesRespect (Shows x) (Shows v) (AreSameIfTaken (Shows x)) (G.post op)
        → IsDetermined (Shows x) (Ascending least greatest (TriesFold least greatest
        E.append_refusable (N.post init) (G.post op) (A.means a.parser))) }
{}

/// The law of folds from the right: if the function makes the same of values and separators that
/// are the same, the fold of deterministic parsers is deterministic. It does nothing when called:
/// its contract is the law.
pub fn determined_foldr1_law<
    I: StreamIsPartial,
    E: ParserError<I>,
    A: Parser<I, E>,
    S: Parser<I, E>,
    F: Fn(A::Output, S::Output, A::Output) -> A::Output,
    V,
    W,
>()
    ensures { (v : A.Output → V) (w : S.Output → W) (op : F)
        (a : OneAnswer A.means v) (s : OneAnswer S.means w)
        → StepsRespect (Shows v) (AreBothSame (Shows w) (Shows v))
        (λ left pair new. F.post op left pair.0 pair.1 new)
        → IsDetermined (Shows v)
        (IsSeparatedFoldr1 (F.post op) (S.means s.parser) (A.means a.parser)) }
{}
