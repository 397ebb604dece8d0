//! `Bits`: the bits of a stream of bytes, as a stream.

ghost use Rattle.std.specs.Prelude.{◌≡◌, ◌+◌, ◌-◌, ◌*◌, ◌/◌, ◌%◌, ◌<◌, true, [], take, drop};
ghost use Rattle.std.specs.Prelude.{IsTrue, IfSome, IfNone};
ghost use Rattle.winnow_stream.specs.Checkpoint.{checkpoint_inner};
ghost use Rattle.winnow_stream.specs.Source.{first_token, width};
ghost use Rattle.winnow_stream.specs.Front.{is_offset, back};
ghost use Rattle.winnow_stream.specs.Location.{location_behind};
ghost use Rattle.winnow_stream.specs.SliceFrom.{IsSliceFrom};
ghost use Rattle.winnow_views.specs.BitSource.{IsBitSlice, IsBitSliceAt, IsBitSliceFrom};
ghost use Rattle.winnow_views.specs.BitStream.{bits_inner, bits_place, bits_remaining};
ghost use Rattle.winnow_views.specs.BitStream.{bits_remained, IsValidBits, IsValidPlace};
ghost use Rattle.winnow_views.specs.BitStream.{bytes_at, place_at, bits_location, bits_location_at};
ghost use Rattle.winnow_views.specs.BitStream.{IsCounted};
ghost use Rattle.winnow_views.specs.BitLaws.{HasPositiveWidths-bits_from, rest_width-bits_from};
ghost use Rattle.winnow_views.specs.BitLaws.{bits_remaining-same, IsValidBits-same};
ghost use Rattle.winnow_views.specs.BitLaws.{SlicesStay-bits};

use crate::BitOffsets;
use crate::bit_offsets::is_set;
use std::fmt;
use std::num::NonZeroUsize;
use winnow_stream::{Checkpoint, Needed, Offset, Rest, Stream, StreamIsPartial};

/// The bits of a stream of bytes, from a place in its first byte on. The lowest bit of a byte comes
/// first.
///
/// It is valid if the stream of bytes is, each byte has width 1, the place is 0 if no byte remains,
/// and the number of bits is a `usize`. [`bit_source_law`](crate::bit_source_law) says when this
/// holds of a slice of bytes.
///
/// Its slice is a triple: the slice of the whole bytes, the place in the first of them at which the
/// bits begin, and the number of bits that are also taken of the next byte. That byte is not in the
/// slice.
#[derive(Clone, Copy, Debug, PartialEq, Eq, Drop)]
pub struct Bits<I> {
    input: I,
    place: usize,
}

impl<I> Bits<I> {
    /// Returns all bits of the bytes that remain.
    pub fn new(input: I) -> Self
        ensures input { bits_inner result ≡ input }
        ensures place { bits_place result ≡ 0 }
    {
        Bits { input, place: 0 }
    }

    /// Returns the bits of the bytes that remain, without the first `place` bits of the first byte.
    pub fn at_place(input: I, place: usize) -> Self
        requires { place < 8 }
        ensures input { bits_inner result ≡ input }
        ensures place { bits_place result ≡ place }
    {
        Bits { input, place }
    }

    /// Returns the stream of bytes, and the number of bits of its first byte that were taken.
    pub fn into_parts(self) -> (I, usize)
        ensures { result ≡ (bits_inner self, bits_place self) }
    {
        let Bits { input, place } = self;
        (input, place)
    }
}

/// The contents of a checkpoint of [`Bits`]: a checkpoint of the stream of bytes, the place, and
/// the number of bits that remained. Two are equal if the first two are.
#[derive(Clone, Copy, Debug, Drop)]
#[derive_where(PartialEq, Eq; C)]
pub struct BitPlace<C> {
    bytes: C,
    place: usize,
    #[derive_where(skip(EqHashOrd))]
    count: usize,
}

// The number of whole bytes that these bits, from a place in the first byte on, reach over, and the
// number of bits that they take of the next byte.
fn whole_and_rest(bits: usize, place: usize) -> (usize, usize)
    requires { place < 8 }
    ensures whole { result.0 ≡ (bits + place) / 8 }
    ensures rest { result.1 ≡ (bits + place) % 8 }
{
    let end = bits as u128 + place as u128;
    ((end / 8) as usize, (end % 8) as usize)
}

impl<C: Rest> Rest for BitPlace<C> {
    ghost rest_width = { λ c. 8 * C.rest_width c.bytes - c.place };

    ghost location = { bits_location_at C.location };
}

impl<I: Rest> Rest for Bits<I> {
    ghost rest_width = { λ s. 8 * I.rest_width s.input - s.place };

    ghost same_rest = { λ s t. I.same_rest s.input t.input × (s.place ≡ t.place) };

    ghost location = { bits_location I.location };
}

/// Each bit has width 1, and a shortage says how many bits are missing. `Bits` keeps what the
/// stream of bytes keeps.
#[tactic(auto, using(crate::proofs::lemmas::BitLemmas::bit_steps))]
impl<I: Stream<Token = u8>> Stream for Bits<I> {
    type Token = bool;

    type Slice = (I::Slice, usize, usize);

    type IterOffsets = BitOffsets<I::IterOffsets>;

    type Checkpoint = Checkpoint<BitPlace<I::Checkpoint>, Bits<I>>;

    ghost remaining = { bits_remaining I.remaining };

    ghost valid = { IsValidBits I.valid I.remaining };

    ghost remained = { λ c. bits_remained I.remained (checkpoint_inner c) };

    ghost valid_checkpoint = { λ c.
        IsValidPlace I.valid_checkpoint I.remained (checkpoint_inner c) };

    ghost is_slice = { IsBitSlice I.is_slice };

    ghost slice_from = { IsBitSliceFrom (IsSliceFrom I.is_slice I.slice_from) };

    ghost counts_shortage = { true };

    ghost keeps = { λ s t. I.keeps s.input t.input };

    ghost slices_stay = { SlicesStay-bits I.is_slice };

    ghost positive_widths = { λ s _. HasPositiveWidths-bits_from (I.remaining s.input) s.place };

    ghost positive_widths_remained = { λ c _. let b = checkpoint_inner c in
        HasPositiveWidths-bits_from (I.remained b.bytes) b.place };

    ghost rest_width_remaining = { λ s v.
        rest_width-bits_from (I.remaining s.input) s.place (I.rest_width s.input) v.1.units
        (I.rest_width_remaining s.input v.0) };

    ghost rest_width_remained = { λ c v.
        let b = checkpoint_inner c in rest_width-bits_from (I.remained b.bytes) b.place
        (I.Checkpoint.rest_width b.bytes) v.1.units (I.rest_width_remained b.bytes v.0) };

    ghost same_rest_remaining = { λ s t e.
        bits_remaining-same I.remaining s t (I.same_rest_remaining s.input t.input e.0) e.1 };

    ghost same_rest_valid = { λ s t e v.
        IsValidBits-same I.valid I.remaining s t (I.same_rest_remaining s.input t.input e.0)
        (I.same_rest_valid s.input t.input e.0) e.1 v };

    ghost keeps_reflexive = { λ s. I.keeps_reflexive s.input };

    ghost keeps_transitive = { λ s t u. I.keeps_transitive s.input t.input u.input };

    fn iter_offsets(&self) -> BitOffsets<I::IterOffsets> {
        BitOffsets::new(self.input.iter_offsets(), self.place)
    }

    fn eof_offset(&self) -> usize {
        (8 * self.input.eof_offset() as u128 - self.place as u128) as usize
    }

    fn next_token(&mut self) -> Option<bool>
        requires { IsValidBits I.valid I.remaining self.old }
        ensures bytes { IfSome result (λ _. I.remaining (bits_inner self.new)
            ≡ drop ((bits_place self.old + 1) / 8) (I.remaining (bits_inner self.old))) }
        ensures place { IfSome result (λ _. bits_place self.new ≡ (bits_place self.old + 1) % 8) }
        ensures end { IfNone result (self.new ≡ self.old) }
        ensures answer { result ≡ first_token (bits_remaining I.remaining self.old) }
        ensures remains { bits_remaining I.remaining self.new
            ≡ drop 1 (bits_remaining I.remaining self.old) }
        ensures location { bits_location I.location self.new
            ≡ location_behind (bits_location I.location self.old)
            (width (take 1 (bits_remaining I.remaining self.old))) }
        ensures valid { IsValidBits I.valid I.remaining self.new }
        ensures kept { I.keeps (bits_inner self.old) (bits_inner self.new) }
    {
        let bit = self.peek_token()?;
        if self.place < 7 {
            self.place += 1;
        } else {
            let _ = self.input.next_token();
            self.place = 0;
        }
        Some(bit)
    }

    fn peek_token(&self) -> Option<bool> {
        let byte = self.input.peek_token()?;
        Some(is_set(byte, self.place))
    }

    fn offset_at(&self, tokens: usize) -> Result<usize, Needed> {
        match NonZeroUsize::new(tokens.saturating_sub(self.eof_offset())) {
            Some(missing) => Err(Needed::Size(missing)),
            None => Ok(tokens),
        }
    }

    fn is_offset(&self, offset: usize) -> bool {
        offset <= self.eof_offset()
    }

    fn next_slice(&mut self, offset: usize) -> (I::Slice, usize, usize)
        requires valid { IsValidBits I.valid I.remaining self.old }
        requires offset { IsTrue (is_offset (bits_remaining I.remaining self.old) offset) }
        ensures at { IsBitSliceAt I.is_slice result (I.remaining (bits_inner self.old))
            (bits_place self.old) offset }
        ensures place { bits_place self.new ≡ (offset + bits_place self.old) % 8 }
        ensures bytes { I.remaining (bits_inner self.new)
            ≡ back (I.remaining (bits_inner self.old)) ((offset + bits_place self.old) / 8) }
        ensures answer { IsBitSlice I.is_slice result (bits_remaining I.remaining self.old) offset }
        ensures from { IsBitSliceFrom (IsSliceFrom I.is_slice I.slice_from) result
            (bits_remaining I.remaining self.old) offset }
        ensures remains { bits_remaining I.remaining self.new
            ≡ back (bits_remaining I.remaining self.old) offset }
        ensures location { bits_location I.location self.new
            ≡ location_behind (bits_location I.location self.old) offset }
        ensures valid { IsValidBits I.valid I.remaining self.new }
        ensures kept { I.keeps (bits_inner self.old) (bits_inner self.new) }
    {
        let place = self.place;
        let (whole, rest) = whole_and_rest(offset, place);
        let bytes = self.input.next_slice(whole);
        self.place = rest;
        (bytes, place, rest)
    }

    fn peek_slice(&self, offset: usize) -> (I::Slice, usize, usize)
        requires valid { IsValidBits I.valid I.remaining self.now }
        requires offset { IsTrue (is_offset (bits_remaining I.remaining self.now) offset) }
        ensures at { IsBitSliceAt I.is_slice result (I.remaining (bits_inner self.now))
            (bits_place self.now) offset }
        ensures answer { IsBitSlice I.is_slice result (bits_remaining I.remaining self.now) offset }
        ensures from { IsBitSliceFrom (IsSliceFrom I.is_slice I.slice_from) result
            (bits_remaining I.remaining self.now) offset }
    {
        let (whole, rest) = whole_and_rest(offset, self.place);
        (self.input.peek_slice(whole), self.place, rest)
    }

    fn finish(&mut self) -> (I::Slice, usize, usize)
        requires { IsValidBits I.valid I.remaining self.old }
        ensures at { IsBitSliceAt I.is_slice result (I.remaining (bits_inner self.old))
            (bits_place self.old) (width (bits_remaining I.remaining self.old)) }
        ensures place { bits_place self.new ≡ 0 }
        ensures bytes { I.remaining (bits_inner self.new) ≡ [] }
        ensures answer { IsBitSlice I.is_slice result (bits_remaining I.remaining self.old)
            (width (bits_remaining I.remaining self.old)) }
        ensures from { IsBitSliceFrom (IsSliceFrom I.is_slice I.slice_from) result
            (bits_remaining I.remaining self.old) (width (bits_remaining I.remaining self.old)) }
        ensures remains { bits_remaining I.remaining self.new ≡ [] }
        ensures location { bits_location I.location self.new
            ≡ location_behind (bits_location I.location self.old)
            (width (bits_remaining I.remaining self.old)) }
        ensures valid { IsValidBits I.valid I.remaining self.new }
        ensures kept { I.keeps (bits_inner self.old) (bits_inner self.new) }
    {
        let end = self.eof_offset();
        self.next_slice(end)
    }

    fn peek_finish(&self) -> (I::Slice, usize, usize)
        requires { IsValidBits I.valid I.remaining self.now }
        ensures at { IsBitSliceAt I.is_slice result (I.remaining (bits_inner self.now))
            (bits_place self.now) (width (bits_remaining I.remaining self.now)) }
        ensures answer { IsBitSlice I.is_slice result (bits_remaining I.remaining self.now)
            (width (bits_remaining I.remaining self.now)) }
        ensures from { IsBitSliceFrom (IsSliceFrom I.is_slice I.slice_from) result
            (bits_remaining I.remaining self.now) (width (bits_remaining I.remaining self.now)) }
    {
        self.peek_slice(self.eof_offset())
    }

    fn checkpoint(&self) -> Checkpoint<BitPlace<I::Checkpoint>, Bits<I>>
        requires { IsValidBits I.valid I.remaining self.now }
        ensures bytes { I.remained (bytes_at result) ≡ I.remaining (bits_inner self.now) }
        ensures place { place_at result ≡ bits_place self.now }
        ensures means { bits_remained I.remained (checkpoint_inner result)
            ≡ bits_remaining I.remaining self.now }
        ensures location { bits_location_at I.Checkpoint.location (checkpoint_inner result)
            ≡ bits_location I.location self.now }
        ensures valid { IsValidPlace I.valid_checkpoint I.remained (checkpoint_inner result) }
    {
        Checkpoint::new(BitPlace {
            bytes: self.input.checkpoint(),
            place: self.place,
            count: self.eof_offset(),
        })
    }

    fn reset(&mut self, checkpoint: &Checkpoint<BitPlace<I::Checkpoint>, Bits<I>>)
        requires valid { IsValidBits I.valid I.remaining self.old }
        requires valid_checkpoint { IsValidPlace I.valid_checkpoint I.remained
            (checkpoint_inner checkpoint.now) }
        ensures bytes { I.remaining (bits_inner self.new) ≡ I.remained (bytes_at checkpoint.now) }
        ensures place { bits_place self.new ≡ place_at checkpoint.now }
        ensures remains { bits_remaining I.remaining self.new
            ≡ bits_remained I.remained (checkpoint_inner checkpoint.now) }
        ensures location { bits_location I.location self.new
            ≡ bits_location_at I.Checkpoint.location (checkpoint_inner checkpoint.now) }
        ensures valid { IsValidBits I.valid I.remaining self.new }
        ensures kept { I.keeps (bits_inner self.old) (bits_inner self.new) }
    {
        let start = checkpoint.inner();
        self.input.reset(&start.bytes);
        self.place = start.place;
    }

    fn offset_since(&self, start: &Checkpoint<BitPlace<I::Checkpoint>, Bits<I>>) -> usize {
        start.inner().count - self.eof_offset()
    }

    /// Prints the bytes and the place, each field on a line of its own.
    fn trace<W: fmt::Write>(&self, f: &mut fmt::Formatter<W>) -> fmt::Result {
        write!(f, "{self:#?}")
    }
}

impl<I: Stream<Token = u8>> Offset<Bits<I>> for Bits<I> {
    ghost can_measure = { λ s start. IsValidBits I.valid I.remaining s
        × IsValidBits I.valid I.remaining start };

    fn offset_from(&self, start: &Bits<I>) -> usize {
        start.eof_offset() - self.eof_offset()
    }
}

impl<I: Stream<Token = u8>> Offset<Checkpoint<BitPlace<I::Checkpoint>, Bits<I>>> for Bits<I> {
    ghost can_measure = { λ s start. IsValidBits I.valid I.remaining s
        × IsValidPlace I.valid_checkpoint I.remained (checkpoint_inner start) };

    fn offset_from(&self, start: &Checkpoint<BitPlace<I::Checkpoint>, Bits<I>>) -> usize {
        start.inner().count - self.eof_offset()
    }
}

/// The width between two places of one stream of bits, as a valid checkpoint holds them.
impl<C: Rest> Offset<BitPlace<C>> for BitPlace<C> {
    ghost can_measure = { λ c start. IsCounted C.rest_width c × IsCounted C.rest_width start };

    fn offset_from(&self, start: &BitPlace<C>) -> usize {
        start.count - self.count
    }
}

/// It answers as the stream of bytes does.
impl<I: StreamIsPartial + Stream<Token = u8>> StreamIsPartial for Bits<I> {
    type PartialState = I::PartialState;

    ghost supports_partial = { I.supports_partial };

    ghost partial_state = { λ s. I.partial_state s.input };

    ghost expects_more = { λ s. I.expects_more s.input };

    ghost same_but_flag = { λ s t. I.same_but_flag s.input t.input × (s.place ≡ t.place) };

    ghost flag_decides = { λ s t. I.flag_decides s.input t.input };

    ghost no_flag = { λ unsupported s. I.no_flag unsupported s.input };

    ghost keeps_flag = { λ s t. I.keeps_flag s.input t.input };

    fn complete(&mut self) -> I::PartialState {
        self.input.complete()
    }

    fn restore_partial(&mut self, state: I::PartialState) {
        self.input.restore_partial(state);
    }

    fn is_partial_supported() -> bool {
        I::is_partial_supported()
    }

    fn is_partial(&self) -> bool {
        self.input.is_partial()
    }
}
