//! The members for the printed texts of streams of bytes.
ghost use Rattle.std.specs.Prelude.{◌≡◌, ℕ, List, true, false, Some, None};
ghost use Rattle.std.specs.Fmt.{spec_precision};
ghost use Rattle.std.specs.Str.Lossy.{utf8_lossy};
ghost use Rattle.winnow_stream_bytes.specs.ByteContents.{bytes_contents, upper_contents};
ghost use Rattle.winnow_stream_bytes.specs.ByteContents.{lower_contents};
ghost use Rattle.winnow_stream_bytes.specs.Hex.{hex_text};
ghost use Rattle.winnow_stream_bytes.specs.declared.bytes.Bytes.{Bytes};
ghost use Rattle.winnow_stream_bytes.specs.declared.hex.LowerBytes.{LowerBytes};
ghost use Rattle.winnow_stream_bytes.specs.declared.hex.UpperBytes.{UpperBytes};
ghost use Rattle.winnow_kinds.specs.Escapes.{debug_text};
ghost use Rattle.winnow_kinds.specs.LossyText.{lossy_text};
ghost use Rattle.winnow_kinds.specs.TextContents.{bstr_contents};
ghost use Rattle.winnow_kinds.specs.declared.text.BStr.{BStr};

use std::fmt::{Debug, Display};
use winnow_kinds::BStr;
use winnow_stream_bytes::{Bytes, LowerBytes, UpperBytes};

/// The members for the printed texts of a text, spelled out. Of the format options only the
/// precision counts, which is the number of characters that are shown.
pub fn text_members<'i>()
    ensures shown { (s : BStr)
        → ⟦<BStr<'i> as Display>⟧.output s ≡ Some (utf8_lossy (bstr_contents s)) }
    ensures styled { (s : BStr) (spec : _) → ⟦<BStr<'i> as Display>⟧.styled_output s spec
        ≡ Some (lossy_text (spec_precision spec) (bstr_contents s)) }
    ensures whole { (bytes : List ℕ) → lossy_text None bytes ≡ utf8_lossy bytes }
    ensures debugged { (s : BStr)
        → ⟦<BStr<'i> as Debug>⟧.debug_output s ≡ debug_text (bstr_contents s) }
{}

/// The same for those of bytes, which no option changes.
pub fn hexadecimal_members<'i>()
    ensures shown { (s : Bytes)
        → ⟦<Bytes<'i> as Display>⟧.output s ≡ Some (hex_text true (bytes_contents s)) }
    ensures styled { (s : Bytes) (spec : _)
        → ⟦<Bytes<'i> as Display>⟧.styled_output s spec ≡ Some (hex_text true (bytes_contents s)) }
    ensures debugged { (s : Bytes)
        → ⟦<Bytes<'i> as Debug>⟧.debug_output s ≡ Some (hex_text true (bytes_contents s)) }
    ensures upper { (s : UpperBytes)
        → ⟦<UpperBytes<'i> as Display>⟧.output s ≡ Some (hex_text true (upper_contents s)) }
    ensures lower { (s : LowerBytes)
        → ⟦<LowerBytes<'i> as Display>⟧.output s ≡ Some (hex_text false (lower_contents s)) }
{}
