//! Laws of modes, of `or`, and of the brackets of alternatives' errors.

ghost use Rattle.std.specs.Prelude.{◌≡◌, IsSome};
ghost use Rattle.winnow_error.specs.declared.combining.OrTree.{OrTree};
ghost use Rattle.winnow_error.specs.Mode.{Mode, ModeOr, mode_cut, mode_backtrack, mode_joined};
ghost use Rattle.winnow_error.specs.Mode.{mode_needs};
ghost use Rattle.winnow_error.specs.Or.{GivesOnly, IsAssociative};
ghost use Rattle.winnow_error.specs.Pick.{leaves, HasNonBacktrack, CombineAlike};

use crate::{AssociativeOr, ParserError};
use winnow_stream::Stream;

/// The law of modes: `cut` and `backtrack` leave `Incomplete` as it is, and a second `cut` or
/// `backtrack` changes nothing. A law does nothing when called: its contract is the law.
pub fn mode_law<E>()
    ensures cut_incomplete { (e : Mode E) → IsSome (mode_needs e) → mode_cut e ≡ e }
    ensures cut_twice { (e : Mode E) → mode_cut (mode_cut e) ≡ mode_cut e }
    ensures backtrack_incomplete { (e : Mode E) → IsSome (mode_needs e) → mode_backtrack e ≡ e }
    ensures backtrack_twice { (e : Mode E) → mode_backtrack (mode_backtrack e) ≡ mode_backtrack e }
{}

/// The law of alternatives: `or` of modes is associative where `or` of the inner errors is.
pub fn or_law<I: Stream, E: AssociativeOr<I>>()
    ensures { IsAssociative (mode_joined E.joined) }
{}

/// The law of brackets: two trees with the same errors in the same order combine to the same error
/// if the inner `or` is an associative function. If some error is no `Backtrack`, they do so for
/// every inner `or`.
pub fn bracket_law<I: Stream, E: ParserError<I>>()
    ensures associative { (join : E → E → E) (s t : OrTree (Mode E)) → GivesOnly E.or_gives join
        → IsAssociative join → leaves s ≡ leaves t → CombineAlike (ModeOr E.or_gives) s t }
    ensures non_backtrack { (s t : OrTree (Mode E)) → HasNonBacktrack (leaves s)
        → leaves s ≡ leaves t → CombineAlike (ModeOr E.or_gives) s t }
{}
