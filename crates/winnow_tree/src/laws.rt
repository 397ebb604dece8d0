//! Laws of trees of errors. A law does nothing when called: its contract is the law.

ghost use Rattle.std.specs.Prelude.{◌≡◌, ◌++◌, ◌∷◌, List, All, IsTrue, IsSome, IsNone};
ghost use Rattle.std.specs.Prelude.{IsPermutation};
ghost use Rattle.std.specs.List.{FoldsTo, flat_map};
ghost use Rattle.winnow_error.specs.declared.combining.OrTree.{OrTree};
ghost use Rattle.winnow_error.specs.Mode.{Mode, ModeOr, IsBacktrackOf, mode_backtracks};
ghost use Rattle.winnow_error.specs.Pick.{Bracketed, leaves, backtracked};
ghost use Rattle.winnow_tree.specs.declared.tree.TreeError.{TreeError};
ghost use Rattle.winnow_tree.specs.Entries.{TreeOr, alternatives, entries};

use crate::TreeError;
use winnow_error::ParserError;
use winnow_stream::Stream;

/// The law of entries: `or` of two trees is an `Alt`, which has each entry as often as both have it
/// together. A fold from the left over errors that are no `Alt` keeps them in order. A law does
/// nothing when called: its contract is the law.
pub fn tree_or_law<I: Stream + Copy, C: Drop>()
    ensures alternatives { (a b r : TreeError I C)
        → ⟦<TreeError<I, C> as ParserError<I>>⟧.or_gives a b r → IsSome (alternatives r) }
    ensures entries { (a b r : TreeError I C)
        → ⟦<TreeError<I, C> as ParserError<I>>⟧.or_gives a b r
        → IsPermutation (entries r) (entries a ++ entries b) }
    ensures order { (a r : TreeError I C) (bs : List (TreeError I C))
        → All (λ e. IsNone (alternatives e)) (a ∷ bs)
        → FoldsTo (⟦<TreeError<I, C> as ParserError<I>>⟧.or_gives) a bs r
        → entries r ≡ a ∷ bs }
{}

/// The law of brackets: if each error of the alternatives is a `Backtrack`, `or` gives a
/// `Backtrack` for all brackets, which has each entry as often as all errors have it together.
pub fn tree_bracket_law<I: Stream + Copy, C: Drop>()
    ensures { (tree : OrTree (Mode (TreeError I C))) (r : Mode (TreeError I C))
        → All (λ m. IsTrue (mode_backtracks m)) (leaves tree)
        → Bracketed (ModeOr TreeOr) tree r
        → IsBacktrackOf (λ e. IsPermutation (entries e)
        (flat_map entries (backtracked (leaves tree)))) r }
{}
