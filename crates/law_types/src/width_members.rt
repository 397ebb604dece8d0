//! The ghost members for widths and for conversions, spelled out for each type.
ghost use Rattle.std.specs.Prelude.{◌≡◌, ◌+◌, ◌-◌, ◌*◌, ℕ, List, length};
ghost use Rattle.std.specs.Borrow.{Bor};
ghost use Rattle.std.specs.Char.{len_utf8};
ghost use Rattle.winnow_stream_bytes.specs.ByteContents.{bytes_contents};
ghost use Rattle.winnow_stream_bytes.specs.declared.bytes.Bytes.{Bytes};
ghost use Rattle.winnow_kinds.specs.TextContents.{bstr_contents};
ghost use Rattle.winnow_kinds.specs.declared.text.BStr.{BStr};
ghost use Rattle.winnow_recover.specs.Recovering.{recoverable_inner};
ghost use Rattle.winnow_recover.specs.declared.recoverable.Recoverable.{Recoverable};
ghost use Rattle.winnow_views.specs.TokenPlaces.{rest_of};
ghost use Rattle.winnow_views.specs.declared.token_slice.TokenSlice.{TokenSlice};
ghost use Rattle.winnow_wrap.specs.Flag.{partial_inner};
ghost use Rattle.winnow_wrap.specs.Located.{locating_inner};
ghost use Rattle.winnow_wrap.specs.declared.located.LocatingSlice.{LocatingSlice};
ghost use Rattle.winnow_wrap.specs.declared.partial.Partial.{Partial};
ghost use Rattle.winnow_wrap.specs.declared.stateful.Stateful.{Stateful};

use winnow_kinds::BStr;
use winnow_recover::Recoverable;
use winnow_stream::{SliceLen, Stream};
use winnow_stream_bytes::Bytes;
use winnow_views::TokenSlice;
use winnow_wrap::{LocatingSlice, Partial, Stateful};

/// A plain value is as wide as it is long: a text and a character in UTF-8, and a byte has width 1.
pub fn plain_width_members<T, const LEN: usize>()
    ensures slice { (s : Bor (List T)) → ⟦<&'static [T] as SliceLen>⟧.width_of s ≡ length s.now }
    ensures array { (s : List T) → ⟦<[T; LEN] as SliceLen>⟧.width_of s ≡ LEN }
    ensures lent_array { (s : Bor (List T))
        → ⟦<&'static [T; LEN] as SliceLen>⟧.width_of s ≡ LEN }
    ensures text { (s : Bor (List ℕ)) → ⟦<&'static str as SliceLen>⟧.width_of s ≡ length s.now }
    ensures byte { (b : ℕ) → ⟦<u8 as SliceLen>⟧.width_of b ≡ 1 }
    ensures char { (c : ℕ) → ⟦<char as SliceLen>⟧.width_of c ≡ len_utf8 c }
    ensures bytes { (s : Bytes)
        → ⟦<Bytes<'static> as SliceLen>⟧.width_of s ≡ length (bytes_contents s) }
    ensures bstr { (s : BStr)
        → ⟦<BStr<'static> as SliceLen>⟧.width_of s ≡ length (bstr_contents s) }
    ensures tokens { (s : TokenSlice T)
        → ⟦<TokenSlice<'static, T> as SliceLen>⟧.width_of s ≡ length (rest_of s) }
{}

/// A slice of bits is as wide as the number of bits between its two places. A wrapper is as wide as
/// the stream inside.
pub fn wrapper_width_members<I: Stream + SliceLen, S, E>()
    ensures bits { (s : I × ℕ × ℕ)
        → ⟦<(I, usize, usize) as SliceLen>⟧.width_of s ≡ 8 * I.width_of s.0 + s.2 - s.1 }
    ensures located { (s : LocatingSlice I I.Checkpoint I.Rest I.Checkpoint.Rest)
        → ⟦<LocatingSlice<I> as SliceLen>⟧.width_of s ≡ I.width_of (locating_inner s) }
    ensures partial { (s : Partial I)
        → ⟦<Partial<I> as SliceLen>⟧.width_of s ≡ I.width_of (partial_inner s) }
    ensures stateful { (s : Stateful I S)
        → ⟦<Stateful<I, S> as SliceLen>⟧.width_of s ≡ I.width_of s.input }
    ensures recoverable { (s : Recoverable I E)
        → ⟦<Recoverable<I, E> as SliceLen>⟧.width_of s ≡ I.width_of (recoverable_inner s) }
{}

/// A text of bytes is made from its bytes, and gives them back.
pub fn conversion_members()
    ensures bytes { (b : Bor (List ℕ)) (s : Bytes)
        → ⟦<Bytes<'static> as From<&'static [u8]>>⟧.from_gives b s → bytes_contents s ≡ b.now }
    ensures bytes_of_text { (b : Bor (List ℕ)) (s : Bytes)
        → ⟦<Bytes<'static> as From<&'static str>>⟧.from_gives b s → bytes_contents s ≡ b.now }
    ensures bytes_back { (s : Bytes) (b : Bor (List ℕ))
        → ⟦<&'static [u8] as From<Bytes<'static>>>⟧.from_gives s b → b.now ≡ bytes_contents s }
    ensures bstr { (b : Bor (List ℕ)) (s : BStr)
        → ⟦<BStr<'static> as From<&'static [u8]>>⟧.from_gives b s → bstr_contents s ≡ b.now }
    ensures bstr_of_text { (b : Bor (List ℕ)) (s : BStr)
        → ⟦<BStr<'static> as From<&'static str>>⟧.from_gives b s → bstr_contents s ≡ b.now }
    ensures bstr_back { (s : BStr) (b : Bor (List ℕ))
        → ⟦<&'static [u8] as From<BStr<'static>>>⟧.from_gives s b → b.now ≡ bstr_contents s }
{}
