//! `combine_trees`, which joins the errors of alternatives in the order of their brackets.

ghost use Rattle.std.specs.Prelude.{All, IfOk, IsTrue, IsPermutation};
ghost use Rattle.std.specs.List.{flat_map};
ghost use Rattle.winnow_error.specs.Mode.{IsBacktrackOf, ModeOr, mode_backtracks};
ghost use Rattle.winnow_error.specs.Pick.{Bracketed, leaves, backtracked};
ghost use Rattle.winnow_tree.specs.Entries.{TreeOr, entries};

use crate::TreeError;
use std::alloc::{AllocError, Global};
use winnow_error::{ErrMode, OrTree, combine};
use winnow_stream::Stream;

/// Joins the errors of alternatives with `or`, in the order that the brackets say.
///
/// If each error is a `Backtrack`, so is the answer. For all brackets, it has the entries of all
/// errors, each as often as they have it together.
pub fn combine_trees<I: Stream + Copy, C: Drop>(
    alloc: Global,
    tree: OrTree<ErrMode<TreeError<I, C>>>,
) -> Result<ErrMode<TreeError<I, C>>, AllocError>
    ensures bracketed { IfOk result (Bracketed (ModeOr TreeOr) tree) }
    ensures entries { All (λ m. IsTrue (mode_backtracks m)) (leaves tree)
        → IfOk result (IsBacktrackOf (λ e.
        IsPermutation (entries e) (flat_map entries (backtracked (leaves tree))))) }
{
    combine::<I, TreeError<I, C>>(alloc, tree)
}
