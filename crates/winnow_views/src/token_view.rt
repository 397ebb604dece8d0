//! `TokenView`: the contents of a checkpoint of a `TokenSlice`.

ghost use Rattle.std.specs.Prelude.{◌≡◌, ⊤, ◌+◌, ◌≤◌, Some, drop, length};
ghost use Rattle.std.specs.Cmp.{on_per, on_equiv, on_po, on_total};
ghost use Rattle.std.specs.Cmp.Lexicographic.{pointwise, slice_cmp, slice_partial_cmp, lists_per};
ghost use Rattle.std.specs.Cmp.Lexicographic.{lists_equiv, lists_po, lists_total, lists_agrees};
ghost use Rattle.std.specs.Cmp.Lexicographic.{lists_ties};
ghost use Rattle.std.specs.Fmt.{debug_list};
ghost use Rattle.winnow_views.specs.TokenPlaces.{rest_in, remaining_in, place_in};

use std::alloc::AllocError;
use std::cmp::Ordering;
use std::fmt;
use std::fmt::Debug;
use winnow_stream::{Offset, Rest};
use winnow_stream_window::Window;

/// The contents of a checkpoint of a [`TokenSlice`](crate::TokenSlice): what remains, and its place
/// in the whole list, at which it starts.
///
/// Equality and order are those of what remains.
pub struct TokenView<'t, T> {
    pub(crate) window: Window<'t, T>,
}

impl<T> Clone for TokenView<'_, T> {
    ghost is_clone = { λ s t. s ≡ t };

    ghost is_infallible = { λ _. ⊤ };

    fn clone(&self) -> Result<Self, AllocError> {
        Ok(*self)
    }
}

impl<T> Copy for TokenView<'_, T> {}

impl<T: PartialEq> PartialEq for TokenView<'_, T> {
    ghost eq = { λ s t. pointwise T.eq (rest_in s) (rest_in t) };

    ghost laws = { on_per rest_in (lists_per T.laws) };

    fn eq(&self, other: &Self) -> bool {
        self.window.slice() == other.window.slice()
    }
}

impl<T: Eq> Eq for TokenView<'_, T> {
    ghost laws = { on_equiv rest_in (lists_equiv T.Eq.laws) };
}

impl<T: PartialOrd> PartialOrd for TokenView<'_, T> {
    ghost partial_cmp = { λ s t. slice_partial_cmp T.partial_cmp (rest_in s) (rest_in t) };

    ghost laws = { on_po rest_in (lists_po T.PartialOrd.laws) };

    fn partial_cmp(&self, other: &Self) -> Option<Ordering> {
        self.window.slice().partial_cmp(&other.window.slice())
    }
}

impl<T: Ord> Ord for TokenView<'_, T> {
    ghost cmp = { λ s t. slice_cmp T.cmp (rest_in s) (rest_in t) };

    ghost total = { on_total rest_in (lists_total T.total) };

    ghost matches_partial_cmp = { λ s t.
        lists_agrees T.matches_partial_cmp (rest_in s) (rest_in t) };

    ghost matches_eq = { λ s t. lists_ties T.cmp T.matches_eq (rest_in s) (rest_in t) };

    fn cmp(&self, other: &Self) -> Ordering {
        self.window.slice().cmp(&other.window.slice())
    }
}

/// It prints as a list of what remains.
impl<T: Debug> Debug for TokenView<'_, T> {
    ghost debug_output = { λ s. debug_list T.debug_output (rest_in s) };

    fn fmt<W: fmt::Write>(&self, f: &mut fmt::Formatter<W>) -> fmt::Result {
        self.window.slice().fmt(f)
    }
}

impl<'t, T> TokenView<'t, T> {
    /// Returns what remains after this number of tokens.
    #[tactic(auto, using(crate::proofs::lemmas::TokenLemmas::token_steps))]
    pub(crate) fn behind(self, tokens: usize) -> Self
        requires { tokens ≤ length (rest_in self) }
        ensures remains { remaining_in T.row result ≡ drop tokens (remaining_in T.row self.entry) }
        ensures rest { rest_in result ≡ drop tokens (rest_in self.entry) }
        ensures place { place_in result ≡ place_in self.entry + tokens }
    {
        TokenView {
            window: self.window.behind(tokens),
        }
    }
}

impl<T> Rest for TokenView<'_, T> {
    ghost rest_width = { λ s. length (rest_in s) };

    ghost location = { λ s. Some (place_in s) };
}

impl<'t, T> Offset<TokenView<'t, T>> for TokenView<'t, T> {
    fn offset_from(&self, start: &TokenView<'t, T>) -> usize {
        start.window.len() - self.window.len()
    }
}
