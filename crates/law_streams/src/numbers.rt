//! Parsers of a number, over any stream of bytes and over any stream of characters.
ghost use Rattle.std.specs.Prelude.{◌≡◌, ℕ, List, IfSome};
ghost use Rattle.std.specs.Str.{IsUtf8};
ghost use Rattle.winnow_stream.specs.Source.{units, held_front};
ghost use Rattle.winnow_stream.specs.SliceBytes.{SlicesHaveBytes, SlicesHaveText};
ghost use Rattle.winnow_stream.specs.Text.{text_source};
ghost use Rattle.winnow_count.specs.Reading.{IsSomeExactly, ReadsBytes, ReadsText, ReadsUnsigned};

use crate::held::take_while;
use winnow_count::{ParseSlice, number_law, parse_slice_law};
use winnow_sets::FixedSet;
use winnow_stream::{AsBStr, AsBytes, Stream, held_law, slice_bytes_law, slice_law, text_law};
use winnow_wrap::LocatingSlice;

/// Returns the number that the tokens of a set ahead write, and moves past them. Returns `None`
/// where they write no number that fits.
pub fn number<S: Stream<Token = u8>, C: FixedSet<u8>>(input: &mut S, digits: &C) -> Option<u32>
where
    S::Slice: AsBytes + ParseSlice<u32> + Drop,
    requires valid { S.valid input.old }
    requires set { C.askable digits.now }
    requires bytes { SlicesHaveBytes S.is_slice S.Slice.bytes }
    requires reads { ReadsBytes S.Slice.reads S.Slice.bytes (ReadsUnsigned 32) }
    ensures number { (text : List ℕ)
        → units text ≡ held_front (C.holds digits.now) (S.remaining input.old)
        → IsSomeExactly (ReadsUnsigned 32 text) result }
    ensures valid { S.valid input.new }
    ensures kept { S.keeps input.old input.new }
{
    held_law::<u8>();
    slice_law::<u8>();
    number_law();
    let taken = take_while(input, digits);
    taken.parse_slice()
}

/// Returns the number that the characters of a set ahead write, and moves past them. Returns `None`
/// where they write no number that fits.
pub fn text_number<S: Stream<Token = char>, C: FixedSet<char>>(
    input: &mut S,
    digits: &C,
) -> Option<u32>
where
    S::Slice: AsBStr + ParseSlice<u32> + Drop,
    requires valid { S.valid input.old }
    requires set { C.askable digits.now }
    requires text { SlicesHaveText S.is_slice S.Slice.text_bytes }
    requires reads { ReadsText S.Slice.reads S.Slice.text_bytes (ReadsUnsigned 32) }
    ensures number { IfSome result (λ v. (text : List ℕ) → IsUtf8 text
        → text_source text ≡ held_front (C.holds digits.now) (S.remaining input.old)
        → ReadsUnsigned 32 text v) }
    ensures valid { S.valid input.new }
    ensures kept { S.keeps input.old input.new }
{
    held_law::<char>();
    text_law();
    number_law();
    let taken = take_while(input, digits);
    taken.parse_slice()
}

/// Returns the number at the front of bytes, read from bytes with a location.
pub fn located_number(bytes: &[u8]) -> Option<u32> {
    slice_bytes_law();
    parse_slice_law::<u32>();
    let mut located = LocatingSlice::new(bytes);
    number(&mut located, &(b'0'..=b'9'))
}

/// Returns the number at the front of a text, read from a text with a location.
pub fn located_text_number(text: &str) -> Option<u32> {
    slice_bytes_law();
    parse_slice_law::<u32>();
    let mut located = LocatingSlice::new(text);
    text_number(&mut located, &('0'..='9'))
}
