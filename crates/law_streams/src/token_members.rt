//! What a slice of tokens keeps, and how it prints.
ghost use Rattle.std.specs.Prelude.{◌≡◌};
ghost use Rattle.std.specs.Fmt.{debug_list};
ghost use Rattle.winnow_stream.specs.declared.checkpoint.Checkpoint.{Checkpoint};
ghost use Rattle.winnow_views.specs.TokenPlaces.{whole_of, rest_of, rest_in, rest_at};
ghost use Rattle.winnow_views.specs.declared.token_slice.TokenSlice.{TokenSlice};
ghost use Rattle.winnow_views.specs.declared.token_view.TokenView.{TokenView};

use std::fmt::Debug;
use winnow_stream::{Checkpoint, Stream, StreamIsPartial};
use winnow_views::{TokenSlice, TokenView};

/// What a slice of tokens keeps, spelled out: its whole list. It has no flag, so streams that agree
/// in all but the flag are equal.
pub fn tokens_keep<'t, T: Debug + 't>()
    ensures kept { (s t : TokenSlice T) → ⟦<TokenSlice<'t, T> as Stream>⟧.keeps s t
        → whole_of s ≡ whole_of t }
    ensures same { (s t : TokenSlice T) → ⟦<TokenSlice<'t, T> as StreamIsPartial>⟧.same_but_flag s t
        → s ≡ t }
{}

/// The members for debug texts, spelled out: tokens, a checkpoint of them and its contents print as
/// the list of what remains.
pub fn debug_texts<'t, T: Debug + 't>()
    ensures tokens { (s : TokenSlice T) → ⟦<TokenSlice<'t, T> as Debug>⟧.debug_output s
        ≡ debug_list T.debug_output (rest_of s) }
    ensures view { (v : TokenView T) → ⟦<TokenView<'t, T> as Debug>⟧.debug_output v
        ≡ debug_list T.debug_output (rest_in v) }
    ensures checkpoint { (c : Checkpoint (TokenView T) (TokenSlice T))
        → ⟦<Checkpoint<TokenView<'t, T>, TokenSlice<'t, T>> as Debug>⟧.debug_output c
        ≡ debug_list T.debug_output (rest_at c) }
{}
