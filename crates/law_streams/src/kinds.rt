//! What the streams of bytes with a text of their own keep.
ghost use Rattle.std.specs.Prelude.{◌≡◌, []};
ghost use Rattle.winnow_kinds.specs.TextContents.{bstr_contents};
ghost use Rattle.winnow_stream_bytes.specs.ByteContents.{bytes_contents};
ghost use Rattle.winnow_kinds.specs.declared.text.BStr.{BStr};
ghost use Rattle.winnow_stream_bytes.specs.declared.bytes.Bytes.{Bytes};

use winnow_kinds::BStr;
use winnow_stream::StreamIsPartial;
use winnow_stream_bytes::Bytes;

/// Neither has a flag, so streams that agree in all but the flag are equal; and a default is empty.
pub fn kinds_keep<'i>()
    ensures text { (s t : BStr) → ⟦<BStr<'i> as StreamIsPartial>⟧.same_but_flag s t → s ≡ t }
    ensures bytes { (s t : Bytes) → ⟦<Bytes<'i> as StreamIsPartial>⟧.same_but_flag s t → s ≡ t }
    ensures no_text { (s : BStr) → ⟦<BStr<'i> as Default>⟧.is_default s → bstr_contents s ≡ [] }
    ensures no_bytes { (s : Bytes) → ⟦<Bytes<'i> as Default>⟧.is_default s
        → bytes_contents s ≡ [] }
{}
