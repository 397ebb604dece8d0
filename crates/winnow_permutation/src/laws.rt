//! The law that parsers in any order are deterministic.

ghost use Rattle.winnow_parser.specs.Determined.{IsDetermined, Shows, AreBothSame};
ghost use Rattle.winnow_parser.specs.DeterminedRows.{AreSame3, AreSame4, AreSame5};
ghost use Rattle.winnow_combinator.specs.OneAnswer.{OneAnswer};
ghost use Rattle.winnow_permutation.specs.Permutation.{IsPermutation2, IsPermutation3};
ghost use Rattle.winnow_permutation.specs.Permutation.{IsPermutation4, IsPermutation5};

use winnow_error::ParserError;
use winnow_parser::Parser;
use winnow_stream::StreamIsPartial;

/// The law of parsers in any order: they have one answer together if each has one. It does nothing
/// when called: its contract is the law.
pub fn determined_permutation_law<
    I: StreamIsPartial,
    E: ParserError<I>,
    A: Parser<I, E>,
    B: Parser<I, E>,
    C: Parser<I, E>,
    D: Parser<I, E>,
    F: Parser<I, E>,
    V,
    W,
    X,
    Y,
    Z,
>()
    ensures two { (v : A.Output → V) (w : B.Output → W)
        (a : OneAnswer A.means v) (b : OneAnswer B.means w)
        → IsDetermined (AreBothSame (Shows v) (Shows w))
        (IsPermutation2 E.or_refusable E.append_refusable (A.means a.parser) (B.means b.parser)) }
    ensures three { (v : A.Output → V) (w : B.Output → W) (x : C.Output → X)
        (a : OneAnswer A.means v) (b : OneAnswer B.means w) (c : OneAnswer C.means x)
        → IsDetermined (AreSame3 (Shows v) (Shows w) (Shows x))
        (IsPermutation3 E.or_refusable E.append_refusable (A.means a.parser) (B.means b.parser)
        (C.means c.parser)) }
    ensures four { (v : A.Output → V) (w : B.Output → W) (x : C.Output → X) (y : D.Output → Y)
        (a : OneAnswer A.means v) (b : OneAnswer B.means w) (c : OneAnswer C.means x)
        (d : OneAnswer D.means y)
        → IsDetermined (AreSame4 (Shows v) (Shows w) (Shows x) (Shows y))
        (IsPermutation4 E.or_refusable E.append_refusable (A.means a.parser) (B.means b.parser)
        (C.means c.parser) (D.means d.parser)) }
    ensures five { (v : A.Output → V) (w : B.Output → W) (x : C.Output → X) (y : D.Output → Y)
        (z : F.Output → Z) (a : OneAnswer A.means v) (b : OneAnswer B.means w)
        (c : OneAnswer C.means x) (d : OneAnswer D.means y) (f : OneAnswer F.means z)
        → IsDetermined (AreSame5 (Shows v) (Shows w) (Shows x) (Shows y) (Shows z))
        (IsPermutation5 E.or_refusable E.append_refusable (A.means a.parser) (B.means b.parser)
        (C.means c.parser) (D.means d.parser) (F.means f.parser)) }
{}
