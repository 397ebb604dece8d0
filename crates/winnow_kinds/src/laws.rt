//! Laws of bytes that are text by convention. A law does nothing when called: its contract is the
//! law.

ghost use Rattle.std.specs.Prelude.{◌≡◌, ◌↔◌, ℕ, List, IsTrue};
ghost use Rattle.std.specs.Borrow.{Bor};
ghost use Rattle.std.specs.Cmp.Lexicographic.{slice_cmp};
ghost use Rattle.std.specs.Ordering.{nat_cmp};
ghost use Rattle.winnow_stream.specs.Checkpoint.{checkpoint_inner};
ghost use Rattle.winnow_stream.specs.declared.checkpoint.Checkpoint.{Checkpoint};
ghost use Rattle.winnow_stream.specs.SliceBytes.{SlicesHaveBytes};
ghost use Rattle.winnow_kinds.specs.TextContents.{bstr_contents};
ghost use Rattle.winnow_kinds.specs.declared.text.BStr.{BStr};

use crate::BStr;
use std::hash::Hash;
use winnow_stream::{AsBytes, Checkpoint, Stream};

/// The law of equality. Two values are equal exactly if they have the same contents, and two
/// checkpoints exactly if the same contents remained.
pub fn text_equality_law()
    ensures values { (s t : BStr)
        → IsTrue (⟦<BStr<'static> as PartialEq>⟧.eq s t) ↔ (bstr_contents s ≡ bstr_contents t) }
    ensures checkpoints { (c d : Checkpoint BStr BStr)
        → IsTrue (⟦<Checkpoint<BStr<'static>, BStr<'static>> as PartialEq>⟧.eq c d)
        ↔ (bstr_contents (checkpoint_inner c) ≡ bstr_contents (checkpoint_inner d)) }
{}

/// The law of order. Values are ordered as their contents are, by the first byte that differs, and
/// checkpoints as the contents that remained there.
pub fn text_order_law()
    ensures values { (s t : BStr)
        → ⟦<BStr<'static> as Ord>⟧.cmp s t
        ≡ slice_cmp nat_cmp (bstr_contents s) (bstr_contents t) }
    ensures checkpoints { (c d : Checkpoint BStr BStr)
        → ⟦<Checkpoint<BStr<'static>, BStr<'static>> as Ord>⟧.cmp c d
        ≡ slice_cmp nat_cmp (bstr_contents (checkpoint_inner c))
        (bstr_contents (checkpoint_inner d)) }
{}

/// The law of hashes: a value hashes as a slice of the same bytes does.
pub fn text_hash_law()
    ensures { (s : BStr) (bytes : Bor (List ℕ)) → bytes.now ≡ bstr_contents s
        → ⟦<BStr<'static> as Hash>⟧.hash_input s ≡ ⟦<&'static [u8] as Hash>⟧.hash_input bytes }
{}

/// The law of slices of a `BStr`: they have the bytes that were taken.
pub fn bstr_slice_law()
    ensures { SlicesHaveBytes ⟦<BStr<'static> as Stream>⟧.is_slice
        ⟦<&'static [u8] as AsBytes>⟧.bytes }
{}
