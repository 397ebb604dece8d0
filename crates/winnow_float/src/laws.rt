//! The law that the parser of a float is deterministic.

ghost use Rattle.winnow_parser.specs.Determined.{IsDetermined, Shows, SlicesRespect};
ghost use Rattle.winnow_float.specs.Float.{IsFloat, HaveBytes};

use fast_float::FastFloat;
use winnow_sets::AsChar;
use winnow_stream::{AsBStr, StreamIsPartial};

/// The law of one answer for floats: the parser is deterministic if a view shows the same of all
/// slices of one prefix, and slices that show the same have the same bytes. It does nothing when
/// called: its contract is the law.
pub fn determined_float_law<I: StreamIsPartial, R: FastFloat, V>()
where
    I::Token: AsChar,
    I::Slice: AsBStr,
    ensures { (view : I.Slice → V) → SlicesRespect I.is_slice (Shows view)
        → HaveBytes view I.Slice.text_bytes
        → IsDetermined (Shows R.value)
        (IsFloat R.format R.value I.Slice.text_bytes I.is_slice I.Token.code) }
{}
