//! The ghost members for places, bytes and text, spelled out for each stream.
ghost use Rattle.std.specs.Prelude.{◌≡◌, ℕ, List, Some, None};
ghost use Rattle.std.specs.Borrow.{Bor};
ghost use Rattle.winnow_stream_bytes.specs.ByteContents.{bytes_contents};
ghost use Rattle.winnow_stream_bytes.specs.declared.bytes.Bytes.{Bytes};
ghost use Rattle.winnow_kinds.specs.TextContents.{bstr_contents};
ghost use Rattle.winnow_kinds.specs.declared.text.BStr.{BStr};
ghost use Rattle.winnow_recover.specs.Recovering.{recoverable_inner};
ghost use Rattle.winnow_recover.specs.declared.recoverable.Recoverable.{Recoverable};
ghost use Rattle.winnow_views.specs.TokenAnswers.{last_of, next_of};
ghost use Rattle.winnow_views.specs.declared.token_slice.TokenSlice.{TokenSlice};
ghost use Rattle.winnow_wrap.specs.Flag.{partial_inner};
ghost use Rattle.winnow_wrap.specs.Located.{locating_inner, location_of};
ghost use Rattle.winnow_wrap.specs.declared.located.LocatingSlice.{LocatingSlice};
ghost use Rattle.winnow_wrap.specs.declared.partial.Partial.{Partial};
ghost use Rattle.winnow_wrap.specs.declared.stateful.Stateful.{Stateful};

use winnow_kinds::BStr;
use winnow_recover::Recoverable;
use winnow_stream::{AsBStr, AsBytes, Location, Stream};
use winnow_stream_bytes::Bytes;
use winnow_views::TokenSlice;
use winnow_wrap::{LocatingSlice, Partial, Stateful};

/// A location that a stream keeps is both where the last token ends and where the next one starts.
pub fn kept_location_members<I: Stream>()
    ensures end { (s : LocatingSlice I I.Checkpoint I.Rest I.Checkpoint.Rest)
        → ⟦<LocatingSlice<I> as Location>⟧.token_end s ≡ location_of s }
    ensures start { (s : LocatingSlice I I.Checkpoint I.Rest I.Checkpoint.Rest)
        → ⟦<LocatingSlice<I> as Location>⟧.token_start s ≡ location_of s }
{}

/// Around a stream with a location, another wrapper has the same location.
pub fn wrapper_location_members<I: Location, S, E>()
    ensures partial_end { (s : Partial I)
        → ⟦<Partial<I> as Location>⟧.token_end s ≡ I.token_end (partial_inner s) }
    ensures partial_start { (s : Partial I)
        → ⟦<Partial<I> as Location>⟧.token_start s ≡ I.token_start (partial_inner s) }
    ensures stateful_end { (s : Stateful I S)
        → ⟦<Stateful<I, S> as Location>⟧.token_end s ≡ I.token_end s.input }
    ensures stateful_start { (s : Stateful I S)
        → ⟦<Stateful<I, S> as Location>⟧.token_start s ≡ I.token_start s.input }
    ensures recoverable_end { (s : Recoverable I E)
        → ⟦<Recoverable<I, E> as Location>⟧.token_end s ≡ I.token_end (recoverable_inner s) }
    ensures recoverable_start { (s : Recoverable I E)
        → ⟦<Recoverable<I, E> as Location>⟧.token_start s ≡ I.token_start (recoverable_inner s) }
{}

/// A slice of tokens has the end of its last token and the start of its next one, and one of the
/// two for both where the other is missing.
pub fn token_location_members<'t, T: Location + 't>()
    ensures end { (s : TokenSlice T) (last : T) → last_of s ≡ Some last
        → ⟦<TokenSlice<'t, T> as Location>⟧.token_end s ≡ T.token_end last }
    ensures end_before_all { (s : TokenSlice T) (next : T) → last_of s ≡ None
        → next_of s ≡ Some next
        → ⟦<TokenSlice<'t, T> as Location>⟧.token_end s ≡ T.token_start next }
    ensures end_of_none { (s : TokenSlice T) → last_of s ≡ None → next_of s ≡ None
        → ⟦<TokenSlice<'t, T> as Location>⟧.token_end s ≡ 0 }
    ensures start { (s : TokenSlice T) (next : T) → next_of s ≡ Some next
        → ⟦<TokenSlice<'t, T> as Location>⟧.token_start s ≡ T.token_start next }
    ensures start_after_all { (s : TokenSlice T) (last : T) → next_of s ≡ None
        → last_of s ≡ Some last
        → ⟦<TokenSlice<'t, T> as Location>⟧.token_start s ≡ T.token_end last }
    ensures start_of_none { (s : TokenSlice T) → next_of s ≡ None → last_of s ≡ None
        → ⟦<TokenSlice<'t, T> as Location>⟧.token_start s ≡ 0 }
{}

/// The bytes and the text of a plain stream are the rest of it.
pub fn plain_bytes_members()
    ensures slice { (s : Bor (List ℕ)) → ⟦<&'static [u8] as AsBytes>⟧.bytes s ≡ s.now }
    ensures slice_text { (s : Bor (List ℕ)) → ⟦<&'static [u8] as AsBStr>⟧.text_bytes s ≡ s.now }
    ensures text { (s : Bor (List ℕ)) → ⟦<&'static str as AsBStr>⟧.text_bytes s ≡ s.now }
    ensures bytes { (s : Bytes) → ⟦<Bytes<'static> as AsBytes>⟧.bytes s ≡ bytes_contents s }
    ensures bstr { (s : BStr) → ⟦<BStr<'static> as AsBStr>⟧.text_bytes s ≡ bstr_contents s }
{}

/// Those of a wrapper are those of the stream inside.
pub fn wrapper_bytes_members<I: Stream + AsBytes, S, E>()
    ensures located { (s : LocatingSlice I I.Checkpoint I.Rest I.Checkpoint.Rest)
        → ⟦<LocatingSlice<I> as AsBytes>⟧.bytes s ≡ I.bytes (locating_inner s) }
    ensures partial { (s : Partial I)
        → ⟦<Partial<I> as AsBytes>⟧.bytes s ≡ I.bytes (partial_inner s) }
    ensures stateful { (s : Stateful I S)
        → ⟦<Stateful<I, S> as AsBytes>⟧.bytes s ≡ I.bytes s.input }
    ensures recoverable { (s : Recoverable I E)
        → ⟦<Recoverable<I, E> as AsBytes>⟧.bytes s ≡ I.bytes (recoverable_inner s) }
{}

/// The text of a wrapper is that of the stream inside.
pub fn wrapper_text_members<I: Stream + AsBStr, S, E>()
    ensures located { (s : LocatingSlice I I.Checkpoint I.Rest I.Checkpoint.Rest)
        → ⟦<LocatingSlice<I> as AsBStr>⟧.text_bytes s ≡ I.text_bytes (locating_inner s) }
    ensures partial { (s : Partial I)
        → ⟦<Partial<I> as AsBStr>⟧.text_bytes s ≡ I.text_bytes (partial_inner s) }
    ensures stateful { (s : Stateful I S)
        → ⟦<Stateful<I, S> as AsBStr>⟧.text_bytes s ≡ I.text_bytes s.input }
    ensures recoverable { (s : Recoverable I E)
        → ⟦<Recoverable<I, E> as AsBStr>⟧.text_bytes s ≡ I.text_bytes (recoverable_inner s) }
{}
