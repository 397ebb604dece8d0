//! Laws of slices of tokens. A law does nothing when called: its contract is the law.

ghost use Rattle.std.specs.Prelude.{◌≡◌, ◌&&◌, ◌++◌, ℕ};
ghost use Rattle.std.specs.Borrow.{Bor};
ghost use Rattle.std.specs.Cmp.Lexicographic.{pointwise, slice_cmp};
ghost use Rattle.winnow_match.specs.declared.compare.CompareResult.{CompareResult};
ghost use Rattle.winnow_stream.specs.Source.{Source};
ghost use Rattle.winnow_stream.specs.declared.checkpoint.Checkpoint.{Checkpoint};
ghost use Rattle.winnow_views.specs.TokenPlaces.{whole_of, rest_of, rest_at};
ghost use Rattle.winnow_views.specs.declared.token_slice.TokenSlice.{TokenSlice};
ghost use Rattle.winnow_views.specs.declared.token_view.TokenView.{TokenView};

use crate::{TokenSlice, TokenView};
use std::fmt::Debug;
use winnow_match::Compare;
use winnow_stream::Checkpoint;

/// The law of equality. Two slices of tokens are equal if their whole lists are equal and what
/// remains of them is, no matter what their places are. Two of their checkpoints are equal if what
/// remained is equal.
pub fn token_equality_law<'t, T: PartialEq + 't>()
    ensures slices { (s t : TokenSlice T)
        → ⟦<TokenSlice<'t, T> as PartialEq>⟧.eq s t
        ≡ (pointwise T.eq (whole_of s).now (whole_of t).now && pointwise T.eq (rest_of s)
        (rest_of t)) }
    ensures checkpoints { (c d : Checkpoint (TokenView T) (TokenSlice T))
        → ⟦<Checkpoint<TokenView<'t, T>, TokenSlice<'t, T>> as PartialEq>⟧.eq c d
        ≡ pointwise T.eq (rest_at c) (rest_at d) }
{}

/// The law of order: checkpoints of slices of tokens are ordered by what remained there, in the
/// order of the tokens.
pub fn token_order_law<'t, T: Ord + 't>()
    ensures { (c d : Checkpoint (TokenView T) (TokenSlice T))
        → ⟦<Checkpoint<TokenView<'t, T>, TokenSlice<'t, T>> as Ord>⟧.cmp c d
        ≡ slice_cmp T.cmp (rest_at c) (rest_at d) }
{}

/// The law of comparison: what the comparison of a literal with the first token decided stays when
/// more tokens come.
pub fn token_compare_law<'t, T: Debug + Eq + Drop + 't>()
    ensures ok { (literal : T) (r more : Source (Bor T)) (n : ℕ)
        → ⟦<TokenSlice<'t, T> as Compare<T>>⟧.compared literal r ≡ CompareResult.Ok n
        → ⟦<TokenSlice<'t, T> as Compare<T>>⟧.compared literal (r ++ more) ≡ CompareResult.Ok n }
    ensures error { (literal : T) (r more : Source (Bor T))
        → ⟦<TokenSlice<'t, T> as Compare<T>>⟧.compared literal r ≡ CompareResult.Error
        → ⟦<TokenSlice<'t, T> as Compare<T>>⟧.compared literal (r ++ more) ≡ CompareResult.Error }
{}
