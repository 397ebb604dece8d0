//! The streams that a grammar is generic in: of characters, of bytes, and of either.

use std::fmt::Debug;
use std::hash::Hash;
use winnow_kinds::BStr;
use winnow_match::Compare;
use winnow_sets::AsChar;
use winnow_stream::{AsBytes, Stream, StreamIsPartial};
use winnow_stream_bytes::Bytes;
use winnow_wrap::{LocatingSlice, Partial, Stateful};

/// A slice of characters.
pub trait AsText {
    /// Returns the characters as a text.
    fn as_text(&self) -> &str;
}

impl AsText for &str {
    fn as_text(&self) -> &str {
        self
    }
}

/// A stream of characters: what a grammar of text asks of its stream.
///
/// It is implemented at each stream, and not for every wrapper of a stream that has it: a type that
/// is named through two implementations is one that a check does not follow. A stream of your own
/// needs one line, the type of its slices.
pub trait Text: StreamIsPartial
    + Stream<Token = char, Slice = <Self as Text>::Piece>
    + Compare<&'static str>
    + Compare<char> {
    /// Its slices.
    type Piece: AsText + Copy + Debug + Eq + Hash + Drop;
}

/// A stream of bytes: what a grammar of bytes asks of its stream. [`Text`] says why it is
/// implemented at each stream.
pub trait Octets: StreamIsPartial
    + Stream<Token = u8, Slice = <Self as Octets>::Piece>
    + Compare<&'static str>
    + Compare<&'static [u8]>
    + Compare<u8>
    + Compare<char> {
    /// Its slices.
    type Piece: AsBytes + Copy + Debug + Eq + Hash + Drop;
}

/// A stream of characters or of bytes, for a grammar of ASCII signs that reads both. [`Text`] says
/// why it is implemented at each stream.
pub trait Chars: StreamIsPartial
    + Stream<Token = <Self as Chars>::Char, Slice = <Self as Chars>::Piece>
    + Compare<&'static str>
    + Compare<char> {
    /// Its tokens.
    type Char: AsChar + Copy + Debug + Drop;

    /// Its slices.
    type Piece: Copy + Debug + Eq + Hash + Drop;
}

impl<'a> Text for &'a str {
    type Piece = &'a str;
}

impl<'a> Text for Partial<&'a str> {
    type Piece = &'a str;
}

impl<'a> Text for LocatingSlice<&'a str> {
    type Piece = &'a str;
}

impl<'a> Text for Partial<LocatingSlice<&'a str>> {
    type Piece = &'a str;
}

impl<'a> Text for LocatingSlice<Partial<&'a str>> {
    type Piece = &'a str;
}

impl<'a, S: Debug> Text for Stateful<&'a str, S> {
    type Piece = &'a str;
}

impl<'a, S: Debug> Text for Stateful<LocatingSlice<&'a str>, S> {
    type Piece = &'a str;
}

impl<'a> Octets for &'a [u8] {
    type Piece = &'a [u8];
}

impl<'a> Octets for BStr<'a> {
    type Piece = &'a [u8];
}

impl<'a> Octets for Bytes<'a> {
    type Piece = &'a [u8];
}

impl<'a> Octets for Partial<&'a [u8]> {
    type Piece = &'a [u8];
}

impl<'a> Octets for LocatingSlice<&'a [u8]> {
    type Piece = &'a [u8];
}

impl<'a> Octets for Partial<LocatingSlice<&'a [u8]>> {
    type Piece = &'a [u8];
}

impl<'a> Octets for LocatingSlice<Partial<&'a [u8]>> {
    type Piece = &'a [u8];
}

impl<'a, S: Debug> Octets for Stateful<&'a [u8], S> {
    type Piece = &'a [u8];
}

impl<'a, S: Debug> Octets for Stateful<LocatingSlice<&'a [u8]>, S> {
    type Piece = &'a [u8];
}

impl<'a> Chars for &'a str {
    type Char = char;

    type Piece = &'a str;
}

impl<'a> Chars for Partial<&'a str> {
    type Char = char;

    type Piece = &'a str;
}

impl<'a> Chars for LocatingSlice<&'a str> {
    type Char = char;

    type Piece = &'a str;
}

impl<'a> Chars for Partial<LocatingSlice<&'a str>> {
    type Char = char;

    type Piece = &'a str;
}

impl<'a> Chars for LocatingSlice<Partial<&'a str>> {
    type Char = char;

    type Piece = &'a str;
}

impl<'a, S: Debug> Chars for Stateful<&'a str, S> {
    type Char = char;

    type Piece = &'a str;
}

impl<'a, S: Debug> Chars for Stateful<LocatingSlice<&'a str>, S> {
    type Char = char;

    type Piece = &'a str;
}

impl<'a> Chars for &'a [u8] {
    type Char = u8;

    type Piece = &'a [u8];
}

impl<'a> Chars for BStr<'a> {
    type Char = u8;

    type Piece = &'a [u8];
}

impl<'a> Chars for Bytes<'a> {
    type Char = u8;

    type Piece = &'a [u8];
}

impl<'a> Chars for Partial<&'a [u8]> {
    type Char = u8;

    type Piece = &'a [u8];
}

impl<'a> Chars for LocatingSlice<&'a [u8]> {
    type Char = u8;

    type Piece = &'a [u8];
}

impl<'a> Chars for Partial<LocatingSlice<&'a [u8]>> {
    type Char = u8;

    type Piece = &'a [u8];
}

impl<'a> Chars for LocatingSlice<Partial<&'a [u8]>> {
    type Char = u8;

    type Piece = &'a [u8];
}

impl<'a, S: Debug> Chars for Stateful<&'a [u8], S> {
    type Char = u8;

    type Piece = &'a [u8];
}

impl<'a, S: Debug> Chars for Stateful<LocatingSlice<&'a [u8]>, S> {
    type Char = u8;

    type Piece = &'a [u8];
}
