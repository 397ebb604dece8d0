//! Laws of values that are read from text. A law does nothing when called: its contract is the law.

ghost use Rattle.std.specs.Prelude.{◌≡◌, ◌↔◌, ℕ, List, ℤ};
ghost use Rattle.std.specs.Str.{IsUtf8};
ghost use Rattle.winnow_count.specs.Reading.{ReadsUnsigned, ReadsSigned, ReadsBytes, ReadsText};
ghost use mir.Syntax.{Width};

use crate::{ParseSlice, Readable};

/// The law of numbers as text: bytes that read as a number are text, and read as no other number.
pub fn number_law()
    ensures unsigned_text { (bits n : ℕ) (text : List ℕ) → ReadsUnsigned bits text n → IsUtf8 text }
    ensures unsigned_only { (bits m n : ℕ) (text : List ℕ) → ReadsUnsigned bits text m
        → ReadsUnsigned bits text n → m ≡ n }
    ensures signed_text { (width : Width) (z : ℤ) (text : List ℕ) → ReadsSigned width text z
        → IsUtf8 text }
    ensures signed_only { (width : Width) (y z : ℤ) (text : List ℕ) → ReadsSigned width text y
        → ReadsSigned width text z → y ≡ z }
{}

/// The law of slices that are read: a slice of bytes reads as a value exactly if its bytes are text
/// that reads as the value, and a slice of a text exactly if the text does.
pub fn parse_slice_law<R: Readable>()
    ensures bytes { ReadsBytes ⟦<&'static [u8] as ParseSlice<R>>⟧.reads (λ s. s.now) R.reads }
    ensures text { ReadsText ⟦<&'static str as ParseSlice<R>>⟧.reads (λ s. s.now) R.reads }
{}
