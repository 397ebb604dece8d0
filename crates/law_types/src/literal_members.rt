//! The ghost members of comparison and of search, spelled out for each literal and each needle.
ghost use Rattle.std.specs.Prelude.{◌≡◌, ℕ, List, [], ◌∷◌};
ghost use Rattle.std.specs.Borrow.{Bor};
ghost use Rattle.std.specs.Char.{encode_utf8};
ghost use Rattle.winnow_match.specs.Bytes.{bytes_of, utf8_of};
ghost use Rattle.winnow_match.specs.Comparison.{comparison};
ghost use Rattle.winnow_match.specs.Search.{hit, bytes_of_needles};
ghost use Rattle.winnow_stream.specs.Source.{Source};

use std::fmt::Debug;
use winnow_kinds::{BStr, ByteNeedles};
use winnow_match::{Compare, FindSlice, Needles};
use winnow_recover::Recoverable;
use winnow_stream_bytes::Bytes;
use winnow_wrap::{LocatingSlice, Partial, Stateful};

/// A literal is compared with bytes by its own bytes, and a character by its UTF-8.
pub fn byte_comparison_members<const LEN: usize>()
    ensures slice { (literal : Bor (List ℕ)) (r : Source ℕ)
        → ⟦<&'static [u8] as Compare<&'static [u8]>>⟧.compared literal r
        ≡ comparison literal.now (bytes_of r) }
    ensures array { (literal : List ℕ) (r : Source ℕ)
        → ⟦<&'static [u8] as Compare<[u8; LEN]>>⟧.compared literal r
        ≡ comparison literal (bytes_of r) }
    ensures lent_array { (literal : Bor (List ℕ)) (r : Source ℕ)
        → ⟦<&'static [u8] as Compare<&'static [u8; LEN]>>⟧.compared literal r
        ≡ comparison literal.now (bytes_of r) }
    ensures text { (literal : Bor (List ℕ)) (r : Source ℕ)
        → ⟦<&'static [u8] as Compare<&'static str>>⟧.compared literal r
        ≡ comparison literal.now (bytes_of r) }
    ensures byte { (literal : ℕ) (r : Source ℕ)
        → ⟦<&'static [u8] as Compare<u8>>⟧.compared literal r
        ≡ comparison (literal ∷ []) (bytes_of r) }
    ensures char { (literal : ℕ) (r : Source ℕ)
        → ⟦<&'static [u8] as Compare<char>>⟧.compared literal r
        ≡ comparison (encode_utf8 literal) (bytes_of r) }
{}

/// The same in a `BStr` and in `Bytes`.
pub fn byte_kind_comparison_members<const LEN: usize>()
    ensures bstr_slice { (literal : Bor (List ℕ)) (r : Source ℕ)
        → ⟦<BStr<'static> as Compare<&'static [u8]>>⟧.compared literal r
        ≡ comparison literal.now (bytes_of r) }
    ensures bytes_slice { (literal : Bor (List ℕ)) (r : Source ℕ)
        → ⟦<Bytes<'static> as Compare<&'static [u8]>>⟧.compared literal r
        ≡ comparison literal.now (bytes_of r) }
    ensures bstr_array { (literal : List ℕ) (r : Source ℕ)
        → ⟦<BStr<'static> as Compare<[u8; LEN]>>⟧.compared literal r
        ≡ comparison literal (bytes_of r) }
    ensures bytes_array { (literal : List ℕ) (r : Source ℕ)
        → ⟦<Bytes<'static> as Compare<[u8; LEN]>>⟧.compared literal r
        ≡ comparison literal (bytes_of r) }
    ensures bstr_lent_array { (literal : Bor (List ℕ)) (r : Source ℕ)
        → ⟦<BStr<'static> as Compare<&'static [u8; LEN]>>⟧.compared literal r
        ≡ comparison literal.now (bytes_of r) }
    ensures bytes_lent_array { (literal : Bor (List ℕ)) (r : Source ℕ)
        → ⟦<Bytes<'static> as Compare<&'static [u8; LEN]>>⟧.compared literal r
        ≡ comparison literal.now (bytes_of r) }
    ensures bstr_text { (literal : Bor (List ℕ)) (r : Source ℕ)
        → ⟦<BStr<'static> as Compare<&'static str>>⟧.compared literal r
        ≡ comparison literal.now (bytes_of r) }
    ensures bytes_text { (literal : Bor (List ℕ)) (r : Source ℕ)
        → ⟦<Bytes<'static> as Compare<&'static str>>⟧.compared literal r
        ≡ comparison literal.now (bytes_of r) }
    ensures bstr_byte { (literal : ℕ) (r : Source ℕ)
        → ⟦<BStr<'static> as Compare<u8>>⟧.compared literal r
        ≡ comparison (literal ∷ []) (bytes_of r) }
    ensures bytes_byte { (literal : ℕ) (r : Source ℕ)
        → ⟦<Bytes<'static> as Compare<u8>>⟧.compared literal r
        ≡ comparison (literal ∷ []) (bytes_of r) }
    ensures bstr_char { (literal : ℕ) (r : Source ℕ)
        → ⟦<BStr<'static> as Compare<char>>⟧.compared literal r
        ≡ comparison (encode_utf8 literal) (bytes_of r) }
    ensures bytes_char { (literal : ℕ) (r : Source ℕ)
        → ⟦<Bytes<'static> as Compare<char>>⟧.compared literal r
        ≡ comparison (encode_utf8 literal) (bytes_of r) }
{}

/// A literal is compared with a text, UTF-8 with UTF-8.
pub fn text_comparison_members()
    ensures text { (literal : Bor (List ℕ)) (r : Source ℕ)
        → ⟦<&'static str as Compare<&'static str>>⟧.compared literal r
        ≡ comparison literal.now (utf8_of r) }
    ensures char { (literal : ℕ) (r : Source ℕ)
        → ⟦<&'static str as Compare<char>>⟧.compared literal r
        ≡ comparison (encode_utf8 literal) (utf8_of r) }
{}

/// A needle is searched for in bytes by its own bytes, and a character by its UTF-8. Of several
/// needles at one place the first listed counts.
pub fn byte_search_members()
    ensures slice { (needle : _) (r : Source ℕ)
        → ⟦<&'static [u8] as FindSlice<&'static [u8]>>⟧.found needle r
        ≡ hit (needle.now ∷ []) (bytes_of r) }
    ensures one_slice { (needle : _) (r : Source ℕ)
        → ⟦<&'static [u8] as FindSlice<(&'static [u8],)>>⟧.found needle r
        ≡ hit (needle.0.now ∷ []) (bytes_of r) }
    ensures two_slices { (needle : _) (r : Source ℕ)
        → ⟦<&'static [u8] as FindSlice<(&'static [u8], &'static [u8])>>⟧.found needle r
        ≡ hit (needle.0.now ∷ needle.1.now ∷ []) (bytes_of r) }
    ensures three_slices { (needle : _) (r : Source ℕ)
        → ⟦<&'static [u8] as FindSlice<(&'static [u8], &'static [u8], &'static [u8])>>⟧.found needle
        r
        ≡ hit (needle.0.now ∷ needle.1.now ∷ needle.2.now ∷ []) (bytes_of r) }
    ensures any_slices { (needle : _) (r : Source ℕ)
        → ⟦<&'static [u8] as FindSlice<Needles<&'static [u8]>>>⟧.found needle r
        ≡ hit (bytes_of_needles needle) (bytes_of r) }
    ensures byte { (needle : _) (r : Source ℕ)
        → ⟦<&'static [u8] as FindSlice<u8>>⟧.found needle r
        ≡ hit ((needle ∷ []) ∷ []) (bytes_of r) }
    ensures one_byte { (needle : _) (r : Source ℕ)
        → ⟦<&'static [u8] as FindSlice<(u8,)>>⟧.found needle r
        ≡ hit ((needle.0 ∷ []) ∷ []) (bytes_of r) }
    ensures two_bytes { (needle : _) (r : Source ℕ)
        → ⟦<&'static [u8] as FindSlice<(u8, u8)>>⟧.found needle r
        ≡ hit ((needle.0 ∷ []) ∷ (needle.1 ∷ []) ∷ []) (bytes_of r) }
    ensures three_bytes { (needle : _) (r : Source ℕ)
        → ⟦<&'static [u8] as FindSlice<(u8, u8, u8)>>⟧.found needle r
        ≡ hit ((needle.0 ∷ []) ∷ (needle.1 ∷ []) ∷ (needle.2 ∷ []) ∷ []) (bytes_of r) }
{}

/// Bytes are searched for a text by the bytes of the text.
pub fn byte_search_of_text_members()
    ensures text { (needle : _) (r : Source ℕ)
        → ⟦<&'static [u8] as FindSlice<&'static str>>⟧.found needle r
        ≡ hit (needle.now ∷ []) (bytes_of r) }
    ensures one_text { (needle : _) (r : Source ℕ)
        → ⟦<&'static [u8] as FindSlice<(&'static str,)>>⟧.found needle r
        ≡ hit (needle.0.now ∷ []) (bytes_of r) }
    ensures two_texts { (needle : _) (r : Source ℕ)
        → ⟦<&'static [u8] as FindSlice<(&'static str, &'static str)>>⟧.found needle r
        ≡ hit (needle.0.now ∷ needle.1.now ∷ []) (bytes_of r) }
    ensures three_texts { (needle : _) (r : Source ℕ)
        → ⟦<&'static [u8] as FindSlice<(&'static str, &'static str, &'static str)>>⟧.found needle r
        ≡ hit (needle.0.now ∷ needle.1.now ∷ needle.2.now ∷ []) (bytes_of r) }
    ensures char { (needle : _) (r : Source ℕ)
        → ⟦<&'static [u8] as FindSlice<char>>⟧.found needle r
        ≡ hit (encode_utf8 needle ∷ []) (bytes_of r) }
    ensures one_char { (needle : _) (r : Source ℕ)
        → ⟦<&'static [u8] as FindSlice<(char,)>>⟧.found needle r
        ≡ hit (encode_utf8 needle.0 ∷ []) (bytes_of r) }
    ensures two_chars { (needle : _) (r : Source ℕ)
        → ⟦<&'static [u8] as FindSlice<(char, char)>>⟧.found needle r
        ≡ hit (encode_utf8 needle.0 ∷ encode_utf8 needle.1 ∷ []) (bytes_of r) }
    ensures three_chars { (needle : _) (r : Source ℕ)
        → ⟦<&'static [u8] as FindSlice<(char, char, char)>>⟧.found needle r
        ≡ hit (encode_utf8 needle.0 ∷ encode_utf8 needle.1 ∷ encode_utf8 needle.2
        ∷ []) (bytes_of r) }
{}

/// A `BStr` and `Bytes` are searched by the bytes of the needles, whatever their type.
pub fn byte_kind_search_members<T: ByteNeedles>()
    ensures bstr { (needle : T) (r : Source ℕ)
        → ⟦<BStr<'static> as FindSlice<T>>⟧.found needle r
        ≡ hit (T.needle_bytes needle) (bytes_of r) }
    ensures bytes { (needle : T) (r : Source ℕ)
        → ⟦<Bytes<'static> as FindSlice<T>>⟧.found needle r
        ≡ hit (T.needle_bytes needle) (bytes_of r) }
{}

/// The bytes of each type of needles, in the order in which they are listed.
pub fn needle_bytes_members()
    ensures slice { (needle : _)
        → ⟦<&'static [u8] as ByteNeedles>⟧.needle_bytes needle
        ≡ needle.now ∷ [] }
    ensures one_slice { (needle : _)
        → ⟦<(&'static [u8],) as ByteNeedles>⟧.needle_bytes needle
        ≡ needle.0.now ∷ [] }
    ensures two_slices { (needle : _)
        → ⟦<(&'static [u8], &'static [u8]) as ByteNeedles>⟧.needle_bytes needle
        ≡ needle.0.now ∷ needle.1.now ∷ [] }
    ensures three_slices { (needle : _)
        → ⟦<(&'static [u8], &'static [u8], &'static [u8]) as ByteNeedles>⟧.needle_bytes needle
        ≡ needle.0.now ∷ needle.1.now ∷ needle.2.now ∷ [] }
    ensures any_slices { (needle : _)
        → ⟦<Needles<&'static [u8]> as ByteNeedles>⟧.needle_bytes needle
        ≡ bytes_of_needles needle }
    ensures byte { (needle : _)
        → ⟦<u8 as ByteNeedles>⟧.needle_bytes needle
        ≡ (needle ∷ []) ∷ [] }
    ensures one_byte { (needle : _)
        → ⟦<(u8,) as ByteNeedles>⟧.needle_bytes needle
        ≡ (needle.0 ∷ []) ∷ [] }
    ensures two_bytes { (needle : _)
        → ⟦<(u8, u8) as ByteNeedles>⟧.needle_bytes needle
        ≡ (needle.0 ∷ []) ∷ (needle.1 ∷ []) ∷ [] }
    ensures three_bytes { (needle : _)
        → ⟦<(u8, u8, u8) as ByteNeedles>⟧.needle_bytes needle
        ≡ (needle.0 ∷ []) ∷ (needle.1 ∷ []) ∷ (needle.2 ∷ []) ∷ [] }
    ensures text { (needle : _)
        → ⟦<&'static str as ByteNeedles>⟧.needle_bytes needle
        ≡ needle.now ∷ [] }
    ensures one_text { (needle : _)
        → ⟦<(&'static str,) as ByteNeedles>⟧.needle_bytes needle
        ≡ needle.0.now ∷ [] }
    ensures two_texts { (needle : _)
        → ⟦<(&'static str, &'static str) as ByteNeedles>⟧.needle_bytes needle
        ≡ needle.0.now ∷ needle.1.now ∷ [] }
    ensures three_texts { (needle : _)
        → ⟦<(&'static str, &'static str, &'static str) as ByteNeedles>⟧.needle_bytes needle
        ≡ needle.0.now ∷ needle.1.now ∷ needle.2.now ∷ [] }
    ensures char { (needle : _)
        → ⟦<char as ByteNeedles>⟧.needle_bytes needle
        ≡ encode_utf8 needle ∷ [] }
    ensures one_char { (needle : _)
        → ⟦<(char,) as ByteNeedles>⟧.needle_bytes needle
        ≡ encode_utf8 needle.0 ∷ [] }
    ensures two_chars { (needle : _)
        → ⟦<(char, char) as ByteNeedles>⟧.needle_bytes needle
        ≡ encode_utf8 needle.0 ∷ encode_utf8 needle.1 ∷ [] }
    ensures three_chars { (needle : _)
        → ⟦<(char, char, char) as ByteNeedles>⟧.needle_bytes needle
        ≡ encode_utf8 needle.0 ∷ encode_utf8 needle.1 ∷ encode_utf8 needle.2 ∷ [] }
{}

/// A needle is searched for in a text, UTF-8 in UTF-8.
pub fn text_search_members()
    ensures text { (needle : _) (r : Source ℕ)
        → ⟦<&'static str as FindSlice<&'static str>>⟧.found needle r
        ≡ hit (needle.now ∷ []) (utf8_of r) }
    ensures one_text { (needle : _) (r : Source ℕ)
        → ⟦<&'static str as FindSlice<(&'static str,)>>⟧.found needle r
        ≡ hit (needle.0.now ∷ []) (utf8_of r) }
    ensures two_texts { (needle : _) (r : Source ℕ)
        → ⟦<&'static str as FindSlice<(&'static str, &'static str)>>⟧.found needle r
        ≡ hit (needle.0.now ∷ needle.1.now ∷ []) (utf8_of r) }
    ensures three_texts { (needle : _) (r : Source ℕ)
        → ⟦<&'static str as FindSlice<(&'static str, &'static str, &'static str)>>⟧.found needle r
        ≡ hit (needle.0.now ∷ needle.1.now ∷ needle.2.now ∷ []) (utf8_of r) }
    ensures any_texts { (needle : _) (r : Source ℕ)
        → ⟦<&'static str as FindSlice<Needles<&'static str>>>⟧.found needle r
        ≡ hit (bytes_of_needles needle) (utf8_of r) }
    ensures char { (needle : _) (r : Source ℕ)
        → ⟦<&'static str as FindSlice<char>>⟧.found needle r
        ≡ hit (encode_utf8 needle ∷ []) (utf8_of r) }
    ensures one_char { (needle : _) (r : Source ℕ)
        → ⟦<&'static str as FindSlice<(char,)>>⟧.found needle r
        ≡ hit (encode_utf8 needle.0 ∷ []) (utf8_of r) }
    ensures two_chars { (needle : _) (r : Source ℕ)
        → ⟦<&'static str as FindSlice<(char, char)>>⟧.found needle r
        ≡ hit (encode_utf8 needle.0 ∷ encode_utf8 needle.1 ∷ []) (utf8_of r) }
    ensures three_chars { (needle : _) (r : Source ℕ)
        → ⟦<&'static str as FindSlice<(char, char, char)>>⟧.found needle r
        ≡ hit (encode_utf8 needle.0 ∷ encode_utf8 needle.1 ∷ encode_utf8 needle.2
        ∷ []) (utf8_of r) }
{}

/// A wrapper is compared with each literal as the stream inside.
pub fn wrapper_comparison_members<I: Compare<T>, T, S: Debug>()
    ensures located { (literal : T) (r : Source I.Token)
        → ⟦<LocatingSlice<I> as Compare<T>>⟧.compared literal r ≡ I.compared literal r }
    ensures partial { (literal : T) (r : Source I.Token)
        → ⟦<Partial<I> as Compare<T>>⟧.compared literal r ≡ I.compared literal r }
    ensures stateful { (literal : T) (r : Source I.Token)
        → ⟦<Stateful<I, S> as Compare<T>>⟧.compared literal r ≡ I.compared literal r }
    ensures recoverable { (literal : T) (r : Source I.Token)
        → ⟦<Recoverable<I, S> as Compare<T>>⟧.compared literal r ≡ I.compared literal r }
{}

/// A wrapper is searched for each needle as the stream inside.
pub fn wrapper_search_members<I: FindSlice<T>, T, S: Debug>()
    ensures located { (needle : T) (r : Source I.Token)
        → ⟦<LocatingSlice<I> as FindSlice<T>>⟧.found needle r ≡ I.found needle r }
    ensures partial { (needle : T) (r : Source I.Token)
        → ⟦<Partial<I> as FindSlice<T>>⟧.found needle r ≡ I.found needle r }
    ensures stateful { (needle : T) (r : Source I.Token)
        → ⟦<Stateful<I, S> as FindSlice<T>>⟧.found needle r ≡ I.found needle r }
    ensures recoverable { (needle : T) (r : Source I.Token)
        → ⟦<Recoverable<I, S> as FindSlice<T>>⟧.found needle r ≡ I.found needle r }
{}
