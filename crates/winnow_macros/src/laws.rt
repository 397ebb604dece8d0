//! Laws of a chosen parser. A law does nothing when called: its contract is the law.

ghost use Rattle.winnow_parser.specs.Determined.{IsDetermined, Shows};
ghost use Rattle.winnow_macros.specs.declared.chosen.Chosen.{Chosen};
ghost use Rattle.winnow_macros.specs.Chosen.{IsChosen};

use winnow_parser::Parser;
use winnow_stream::StreamIsPartial;

/// The law of a chosen parser: if the parsers of both types are deterministic, it is. It does
/// nothing when called: its contract is the law.
pub fn determined_chosen_law<
    I: StreamIsPartial,
    E,
    A: Parser<I, E>,
    B: Parser<I, E, Output = A::Output>,
    V,
>()
    ensures { (view : A.Output → V) (p : Chosen A B)
        → ((a : A) → IsDetermined (Shows view) (A.means a))
        → ((b : B) → IsDetermined (Shows view) (B.means b))
        → IsDetermined (Shows view) (IsChosen A.means B.means p) }
{}
