//! Bits of any stream of bytes: their slices, places and widths, and what they keep.
ghost use Rattle.std.specs.Prelude.{◌≡◌, ◌≤◌, IfSome};
ghost use Rattle.winnow_stream.specs.SliceWidths.{SlicesHaveWidths};
ghost use Rattle.winnow_stream.specs.Source.{units};
ghost use Rattle.winnow_views.specs.BitSource.{IsBitSource};
ghost use Rattle.winnow_views.specs.BitStream.{bits_inner, bits_place, IsValidBits};
ghost use Rattle.winnow_views.specs.declared.bits.Bits.{Bits};

use crate::calls::{tell, width_from};
use std::alloc::{AllocError, Global};
use winnow_kinds::BStr;
use winnow_script_run::Step;
use winnow_stream::{NoSet, SliceLen, Stream, StreamIsPartial, byte_slice_law};
use winnow_stream_bytes::Bytes;
use winnow_views::{Bits, bit_checkpoint_law, bit_place_law, bit_slice_law, bit_source_law};
use winnow_wrap::LocatingSlice;

/// Returns the bits of bytes from a place on, or `None` where there are too many or the place is
/// not in a byte.
pub fn bits_at(bytes: &[u8], place: usize) -> Option<Bits<&[u8]>>
    ensures { IfSome result (λ s. IsBitSource (units (bits_inner s).now) (bits_place s)) }
{
    if bytes.len() > 100 || place > 7 {
        return None;
    }
    bit_source_law();
    if place == 0 {
        return Some(Bits::new(bytes));
    }
    if bytes.is_empty() {
        return None;
    }
    Some(Bits::at_place(bytes, place))
}

/// What bits keep and what they say of their flag, spelled out: all that the stream of bytes does.
/// What changes the flag changes nothing else.
pub fn bits_keep<I: StreamIsPartial + Stream<Token = u8>>()
    ensures kept { (s t : Bits I) → ⟦<Bits<I> as Stream>⟧.keeps s t
        → I.keeps (bits_inner s) (bits_inner t) }
    ensures supported { ⟦<Bits<I> as StreamIsPartial>⟧.supports_partial ≡ I.supports_partial }
    ensures state { (s : Bits I) → ⟦<Bits<I> as StreamIsPartial>⟧.partial_state s
        ≡ I.partial_state (bits_inner s) }
    ensures flag { (s : Bits I) → ⟦<Bits<I> as StreamIsPartial>⟧.expects_more s
        ≡ I.expects_more (bits_inner s) }
    ensures bytes { (s t : Bits I) → ⟦<Bits<I> as StreamIsPartial>⟧.same_but_flag s t
        → I.same_but_flag (bits_inner s) (bits_inner t) }
    ensures place { (s t : Bits I) → ⟦<Bits<I> as StreamIsPartial>⟧.same_but_flag s t
        → bits_place s ≡ bits_place t }
{}

/// Returns the answers of a script, which does not depend on bits.
pub fn told_bits<I: Stream<Token = u8>>(
    alloc: Global,
    bits: &mut Bits<I>,
    script: &[Step<NoSet>],
) -> Result<String, AllocError>
where
    I::Slice: Drop,
    requires { IsValidBits I.valid I.remaining bits.old }
{
    tell(alloc, bits, script)
}

/// A slice of bits, and its length.
pub type Taken<T> = ((T, usize, usize), usize);

/// Returns the slice of `count` bits and its length, which is that number, or `None` where fewer
/// remain.
pub fn take<I: Stream<Token = u8>>(bits: &mut Bits<I>, count: usize) -> Option<Taken<I::Slice>>
where
    I::Slice: SliceLen,
    requires valid { IsValidBits I.valid I.remaining bits.old }
    requires widths { SlicesHaveWidths I.is_slice I.Slice.has_width I.Slice.width_of }
    ensures length { IfSome result (λ taken. taken.1 ≡ count) }
    ensures valid { IsValidBits I.valid I.remaining bits.new }
{
    if !bits.is_offset(count) {
        return None;
    }
    let slice = bits.next_slice(count);
    bit_slice_law::<I>();
    let length = slice.slice_len();
    Some((slice, length))
}

/// The slices of other streams of bytes are as long as their offset too, so those of their bits
/// are.
pub fn slices_have_widths()
    ensures text { SlicesHaveWidths ⟦<BStr<'static> as Stream>⟧.is_slice
        ⟦<&'static [u8] as SliceLen>⟧.has_width
        ⟦<&'static [u8] as SliceLen>⟧.width_of }
    ensures bytes { SlicesHaveWidths ⟦<Bytes<'static> as Stream>⟧.is_slice
        ⟦<&'static [u8] as SliceLen>⟧.has_width
        ⟦<&'static [u8] as SliceLen>⟧.width_of }
    ensures located { SlicesHaveWidths ⟦<LocatingSlice<BStr<'static>> as Stream>⟧.is_slice
        ⟦<&'static [u8] as SliceLen>⟧.has_width
        ⟦<&'static [u8] as SliceLen>⟧.width_of }
{
    byte_slice_law();
}

/// Returns the place, computed from the number of bits.
pub fn place_of<I: Stream<Token = u8>>(s: &Bits<I>) -> usize
    requires { IsValidBits I.valid I.remaining s.now }
    ensures { result ≡ bits_place s.now }
{
    bit_place_law();
    (8 - s.eof_offset() % 8) % 8
}

/// Returns the widths from the start: from a stream, from a checkpoint, and between checkpoints.
pub fn widths_of_one<I>(bytes: I) -> (usize, usize, usize)
where
    I: Stream<Token = u8> + Copy,
    requires { IsValidBits I.valid I.remaining (record { input = bytes; place = 0 }) }
    ensures { result.2 ≤ 1 }
{
    bit_checkpoint_law::<I>();
    let start = Bits::new(bytes);
    let mut end = start;
    let _ = end.next_token();
    let (from, to) = (start.checkpoint(), end.checkpoint());
    (
        width_from(&end, &start),
        width_from(&end, &from),
        width_from(&to, &from),
    )
}
