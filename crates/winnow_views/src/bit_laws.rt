//! Laws of streams of bits. A law does nothing when called: its contract is the law.

ghost use Rattle.std.specs.Prelude.{◌≡◌, ℕ, ◌+◌, ◌-◌, ◌*◌, ◌/◌, ◌%◌, ◌^◌, ◌<◌, ◌≤◌, ◌&&◌, nat_eq};
ghost use Rattle.std.specs.Prelude.{Bool, List, length, IsTrue};
ghost use Rattle.winnow_stream.specs.Source.{Source, units, width};
ghost use Rattle.winnow_stream.specs.Front.{front, is_offset};
ghost use Rattle.winnow_stream.specs.SliceBytes.{SlicesHaveBytes};
ghost use Rattle.winnow_stream.specs.Checkpoint.{checkpoint_inner};
ghost use Rattle.winnow_stream.specs.declared.checkpoint.Checkpoint.{Checkpoint};
ghost use Rattle.winnow_views.specs.BitSource.{bits_from, bit_place, IsBitSource, IsBitSlice};
ghost use Rattle.winnow_views.specs.BitStream.{bits_inner, bits_place, bytes_at, place_at};
ghost use Rattle.winnow_views.specs.BitStream.{IsCounted};
ghost use Rattle.winnow_stream.specs.SliceWidths.{SlicesHaveWidths};
ghost use Rattle.winnow_views.specs.declared.bits.Bits.{Bits};
ghost use Rattle.winnow_views.specs.declared.bits.BitPlace.{BitPlace};

use crate::{BitPlace, Bits};
use winnow_stream::{Checkpoint, SliceLen, Stream};

/// The law of bytes as bits. The bits of a slice of bytes may be streamed if their number is a
/// `usize`, from its start or, if it has a byte, from a place in its first byte.
pub fn bit_source_law()
    ensures start { (bytes : List ℕ) → 8 * length bytes < 2 ^ 64 → IsBitSource (units bytes) 0 }
    ensures inside { (bytes : List ℕ) (place : ℕ) → place < 8 → 0 < length bytes
        → 8 * length bytes - place < 2 ^ 64 → IsBitSource (units bytes) place }
{}

/// The law of places. The number of bits determines the place, and the bits of some whole bytes,
/// from the place on, are a front of the bits. [`bit_slice_place_law`] says what follows for a
/// slice.
pub fn bit_place_law()
    ensures place { (bytes : Source ℕ) (place : ℕ) → IsBitSource bytes place
        → (width (bits_from bytes place) + place) % 8 ≡ 0 }
    ensures front { (bytes : Source ℕ) (place count : ℕ) → IsBitSource bytes place
        → count ≤ length bytes → bits_from (front bytes count) place
        ≡ front (bits_from bytes place) (8 * count - place) }
{}

/// The law of places of slices. The list that a slice of bits was taken from determines the two
/// numbers of its triple and the number of its bytes, and the bits of its bytes, from the place on,
/// are the first bits of the list. Each call of `Stream` and each run of a script ensures
/// `slice_from`, also through wrappers.
pub fn bit_slice_place_law<I: Stream<Token = u8>>()
    ensures place { (s : I.Slice × ℕ × ℕ) (r : Source Bool) (n : ℕ)
        → ⟦<Bits<I> as Stream>⟧.slice_from s r n → s.1 ≡ bit_place r }
    ensures beyond { (s : I.Slice × ℕ × ℕ) (r : Source Bool) (n : ℕ)
        → ⟦<Bits<I> as Stream>⟧.slice_from s r n → s.2 ≡ (n + bit_place r) % 8 }
    ensures count { (bytes : I.Slice → List ℕ) → SlicesHaveBytes I.is_slice bytes
        → (s : I.Slice × ℕ × ℕ) (r : Source Bool) (n : ℕ) → IsTrue (is_offset r n)
        → ⟦<Bits<I> as Stream>⟧.slice_from s r n
        → length (bytes s.0) ≡ (n + bit_place r) / 8 }
    ensures bits { (bytes : I.Slice → List ℕ) → SlicesHaveBytes I.is_slice bytes
        → (s : I.Slice × ℕ × ℕ) (r : Source Bool) (n : ℕ) → IsTrue (is_offset r n)
        → ⟦<Bits<I> as Stream>⟧.slice_from s r n
        → bits_from (units (bytes s.0)) (bit_place r)
        ≡ front r (8 * length (bytes s.0) - bit_place r) }
{}

/// The law of checkpoints of bits: a valid checkpoint counts its bits. Measuring from one
/// checkpoint to another asks for this.
pub fn bit_checkpoint_law<I: Stream<Token = u8>>()
    ensures { (c : Checkpoint (BitPlace I.Checkpoint) (Bits I))
        → ⟦<Bits<I> as Stream>⟧.valid_checkpoint c
        → IsCounted I.Checkpoint.rest_width (checkpoint_inner c) }
{}

/// The law of slices of bits. If the length of each slice of the stream of bytes is the offset that
/// it was taken at, so is the length of each slice of its bits. `byte_slice_law` states the premise
/// for slices of bytes.
pub fn bit_slice_law<I: Stream<Token = u8>>()
where
    I::Slice: SliceLen,
    ensures { SlicesHaveWidths I.is_slice I.Slice.has_width I.Slice.width_of
        → SlicesHaveWidths (IsBitSlice I.is_slice)
        ⟦<(I::Slice, usize, usize) as SliceLen>⟧.has_width
        ⟦<(I::Slice, usize, usize) as SliceLen>⟧.width_of }
{}

/// The law of equality. Bits are compared by the stream of bytes and the place, and checkpoints by
/// the checkpoint of the bytes and the place.
pub fn bit_equality_law<I: Stream<Token = u8> + PartialEq>()
where
    I::Checkpoint: PartialEq,
    ensures bits { (s t : Bits I)
        → ⟦<Bits<I> as PartialEq>⟧.eq s t
        ≡ (I.eq (bits_inner s) (bits_inner t) && nat_eq (bits_place s) (bits_place t)) }
    ensures checkpoints { (c d : Checkpoint (BitPlace I.Checkpoint) (Bits I))
        → ⟦<Checkpoint<BitPlace<I::Checkpoint>, Bits<I>> as PartialEq>⟧.eq c d
        ≡ (I.Checkpoint.eq (bytes_at c) (bytes_at d) && nat_eq (place_at c) (place_at d)) }
{}
