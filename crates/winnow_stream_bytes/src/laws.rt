//! Laws of bytes that are no text. A law does nothing when called: its contract is the law.

ghost use Rattle.std.specs.Prelude.{◌≡◌, ◌↔◌, ℕ, List, IsTrue};
ghost use Rattle.std.specs.Borrow.{Bor};
ghost use Rattle.std.specs.Cmp.Lexicographic.{slice_cmp};
ghost use Rattle.std.specs.Ordering.{nat_cmp};
ghost use Rattle.winnow_stream.specs.Checkpoint.{checkpoint_inner};
ghost use Rattle.winnow_stream.specs.declared.checkpoint.Checkpoint.{Checkpoint};
ghost use Rattle.winnow_stream.specs.SliceBytes.{SlicesHaveBytes};
ghost use Rattle.winnow_stream_bytes.specs.ByteContents.{bytes_contents};
ghost use Rattle.winnow_stream_bytes.specs.declared.bytes.Bytes.{Bytes};

use crate::Bytes;
use std::hash::Hash;
use winnow_stream::{AsBytes, Checkpoint, Stream};

/// The law of equality. Two values are equal exactly if they have the same contents, and two
/// checkpoints exactly if the same contents remained.
pub fn bytes_equality_law()
    ensures values { (s t : Bytes)
        → IsTrue (⟦<Bytes<'static> as PartialEq>⟧.eq s t) ↔ (bytes_contents s ≡ bytes_contents t) }
    ensures checkpoints { (c d : Checkpoint Bytes Bytes)
        → IsTrue (⟦<Checkpoint<Bytes<'static>, Bytes<'static>> as PartialEq>⟧.eq c d)
        ↔ (bytes_contents (checkpoint_inner c) ≡ bytes_contents (checkpoint_inner d)) }
{}

/// The law of order. Values are ordered as their contents are, by the first byte that differs, and
/// checkpoints as the contents that remained there.
pub fn bytes_order_law()
    ensures values { (s t : Bytes)
        → ⟦<Bytes<'static> as Ord>⟧.cmp s t
        ≡ slice_cmp nat_cmp (bytes_contents s) (bytes_contents t) }
    ensures checkpoints { (c d : Checkpoint Bytes Bytes)
        → ⟦<Checkpoint<Bytes<'static>, Bytes<'static>> as Ord>⟧.cmp c d
        ≡ slice_cmp nat_cmp (bytes_contents (checkpoint_inner c))
        (bytes_contents (checkpoint_inner d)) }
{}

/// The law of hashes: a value hashes as a slice of the same bytes does.
pub fn bytes_hash_law()
    ensures { (s : Bytes) (bytes : Bor (List ℕ)) → bytes.now ≡ bytes_contents s
        → ⟦<Bytes<'static> as Hash>⟧.hash_input s ≡ ⟦<&'static [u8] as Hash>⟧.hash_input bytes }
{}

/// The law of slices of a `Bytes`: they have the bytes that were taken.
pub fn bytes_slice_law()
    ensures { SlicesHaveBytes ⟦<Bytes<'static> as Stream>⟧.is_slice
        ⟦<&'static [u8] as AsBytes>⟧.bytes }
{}
