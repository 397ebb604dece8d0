//! The methods and traits of `LocatingSlice`.

ghost use Rattle.std.specs.Prelude.{◌≡◌, ◌+◌, ◌<◌, ◌^◌, [], Some, take, drop, IsTrue, refl, ℕ};
ghost use Rattle.std.proofs.Common.{◌∙◌, subst};
ghost use Rattle.winnow_stream.specs.Source.{width, first_token};
ghost use Rattle.winnow_stream.specs.Front.{is_offset, back, front, IsSomeFront};
ghost use Rattle.winnow_wrap.specs.Located.{locating_inner, located_start, location_of};
ghost use Rattle.winnow_wrap.specs.Located.{IsValidLocated, KeepsLocated, placed_inner};
ghost use Rattle.winnow_wrap.specs.Located.{placed_location};
ghost use Rattle.winnow_wrap.specs.Located.{inner_at, location_at};

use crate::{LocatingSlice, Placed};
use std::fmt;
use std::fmt::{Debug, Display};
use std::ops::{Deref, Range};
use winnow_match::{Compare, CompareResult, FindSlice};
use winnow_stream::{
    AsBStr, AsBytes, Checkpoint, Location, Needed, Offset, Rest, SliceLen, Stream, StreamIsPartial,
    UpdateSlice,
};

impl<C: Rest> Rest for Placed<C> {
    ghost rest_width = { λ c. C.rest_width (placed_inner c) };

    ghost location = { λ c. Some (placed_location c) };
}

impl<C: Offset<C>> Offset<Placed<C>> for Placed<C> {
    ghost can_measure = { λ c start. C.can_measure (placed_inner c) (placed_inner start) };

    fn offset_from(&self, start: &Placed<C>) -> usize {
        self.inner.offset_from(&start.inner)
    }
}

/// It prints as the checkpoint inside.
impl<C: Debug + Rest> Debug for Placed<C> {
    ghost debug_output = { λ c. C.debug_output (placed_inner c) };

    fn fmt<W: fmt::Write>(&self, f: &mut fmt::Formatter<W>) -> fmt::Result {
        self.inner.fmt(f)
    }
}

impl<I: Stream<Checkpoint = C>, C: Rest + Copy + Debug> LocatingSlice<I, C> {
    /// Returns the stream at location 0. What remains of `input` is the whole input.
    pub fn new(input: I) -> Self
        requires { I.valid input }
        ensures input { locating_inner result ≡ input }
        ensures start { I.remained (located_start result) ≡ I.remaining input }
        ensures valid { IsValidLocated I.valid I.valid_checkpoint result }
        ensures location { location_of result ≡ 0 }
    {
        let start = input.checkpoint();
        // The width of the whole input is a `usize`, so each location is one.
        let _whole = input.eof_offset();
        LocatingSlice {
            start,
            input,
            location: 0,
        }
    }

    /// Returns the stream at a location: what remains is the end of a longer input, of which the
    /// width `location` was taken before. The width of the longer input must be a `usize`.
    ///
    /// [`reset_to_start`](LocatingSlice::reset_to_start) goes back to the place at which this
    /// stream was made, and counts from 0 there.
    pub fn at(input: I, location: usize) -> Self
        requires valid { I.valid input }
        requires fits { location + I.rest_width input < 2 ^ 64 }
        ensures input { locating_inner result ≡ input }
        ensures start { I.remained (located_start result) ≡ I.remaining input }
        ensures valid { IsValidLocated I.valid I.valid_checkpoint result }
        ensures location { location_of result ≡ location }
    {
        let start = input.checkpoint();
        // The width of what remains is a `usize`, so the width at the checkpoint is one.
        let _whole = input.eof_offset();
        LocatingSlice {
            start,
            input,
            location,
        }
    }

    /// Goes back to the place at which the stream was made, also out of a window. The location is
    /// then 0.
    pub fn reset_to_start(&mut self)
        requires { IsValidLocated I.valid I.valid_checkpoint self.old }
        ensures remains { I.remaining (locating_inner self.new)
            ≡ I.remained (located_start self.old) }
        ensures valid { IsValidLocated I.valid I.valid_checkpoint self.new }
        ensures kept { KeepsLocated I.keeps self.old self.new }
        ensures location { location_of self.new ≡ 0 }
    {
        self.input.reset(&self.start);
        self.location = 0;
    }
}

impl<I: Rest, C: Rest> LocatingSlice<I, C> {
    /// Returns the stream inside.
    pub fn inner(&self) -> &I
        ensures { result.now ≡ locating_inner self.now }
    {
        &self.input
    }
}

impl<I: Rest, C: Rest> Deref for LocatingSlice<I, C> {
    type Target = I;

    ghost deref_gives = { λ s t. t ≡ locating_inner s };

    fn deref(&self) -> &I {
        &self.input
    }
}

impl<I: Rest, C: Rest> Rest for LocatingSlice<I, C> {
    ghost rest_width = { λ s. I.rest_width (locating_inner s) };

    ghost same_rest = { λ s t. (located_start s ≡ located_start t)
        × (location_of s ≡ location_of t)
        × I.same_rest (locating_inner s) (locating_inner t) };

    ghost location = { λ s. Some (location_of s) };
}

/// What remains is what remains inside, and the start is kept. The contract of each call says what
/// becomes of the location.
impl<I: Stream<Checkpoint = C>, C: Rest + Copy + Debug> Stream for LocatingSlice<I, C> {
    type Token = I::Token;

    type Slice = I::Slice;

    type IterOffsets = I::IterOffsets;

    type Checkpoint = Checkpoint<Placed<C>, Self>;

    ghost remaining = { λ s. I.remaining (locating_inner s) };

    ghost valid = { IsValidLocated I.valid I.valid_checkpoint };

    ghost remained = { λ c. I.remained (inner_at c) };

    ghost valid_checkpoint = { λ c. I.valid_checkpoint (inner_at c) };

    ghost is_slice = { I.is_slice };

    ghost slice_from = { I.slice_from };

    ghost counts_shortage = { I.counts_shortage };

    ghost keeps = { KeepsLocated I.keeps };

    ghost slices_stay = { I.slices_stay };

    ghost positive_widths = { λ s v. I.positive_widths (locating_inner s) v.0 };

    ghost positive_widths_remained = { λ c v. I.positive_widths_remained (inner_at c) v };

    ghost rest_width_remaining = { λ s v. I.rest_width_remaining (locating_inner s) v.0 };

    ghost rest_width_remained = { λ c v. I.rest_width_remained (inner_at c) v };

    ghost same_rest_remaining = { λ s t e.
        I.same_rest_remaining (locating_inner s) (locating_inner t) e.2 };

    ghost same_rest_valid = { λ s t e v. (
      I.same_rest_valid (locating_inner s) (locating_inner t) e.2 v.0,
      subst I.valid_checkpoint e.0 v.1,
    ) };

    ghost keeps_reflexive = { λ s. (refl, I.keeps_reflexive (locating_inner s)) };

    ghost keeps_transitive = { λ s t u p q. (
      p.0 ∙ q.0,
      I.keeps_transitive (locating_inner s) (locating_inner t) (locating_inner u) p.1 q.1,
    ) };

    fn iter_offsets(&self) -> I::IterOffsets {
        self.input.iter_offsets()
    }

    fn eof_offset(&self) -> usize {
        self.input.eof_offset()
    }

    fn next_token(&mut self) -> Option<I::Token>
        requires { IsValidLocated I.valid I.valid_checkpoint self.old }
        ensures answer { result ≡ first_token (I.remaining (locating_inner self.old)) }
        ensures remains { I.remaining (locating_inner self.new)
            ≡ drop 1 (I.remaining (locating_inner self.old)) }
        ensures valid { IsValidLocated I.valid I.valid_checkpoint self.new }
        ensures kept { KeepsLocated I.keeps self.old self.new }
        ensures location { location_of self.new
            ≡ location_of self.old + width (take 1 (I.remaining (locating_inner self.old))) }
    {
        let before = self.input.eof_offset();
        let token = self.input.next_token();
        self.location += before - self.input.eof_offset();
        token
    }

    fn peek_token(&self) -> Option<I::Token> {
        self.input.peek_token()
    }

    fn offset_at(&self, tokens: usize) -> Result<usize, Needed> {
        self.input.offset_at(tokens)
    }

    fn is_offset(&self, offset: usize) -> bool {
        self.input.is_offset(offset)
    }

    fn next_slice(&mut self, offset: usize) -> I::Slice
        requires valid { IsValidLocated I.valid I.valid_checkpoint self.old }
        requires offset { IsTrue (is_offset (I.remaining (locating_inner self.old)) offset) }
        ensures answer { I.is_slice result (I.remaining (locating_inner self.old)) offset }
        ensures from { I.slice_from result (I.remaining (locating_inner self.old)) offset }
        ensures remains { I.remaining (locating_inner self.new)
            ≡ back (I.remaining (locating_inner self.old)) offset }
        ensures valid { IsValidLocated I.valid I.valid_checkpoint self.new }
        ensures kept { KeepsLocated I.keeps self.old self.new }
        ensures location { location_of self.new ≡ location_of self.old + offset }
    {
        let slice = self.input.next_slice(offset);
        self.location += offset;
        slice
    }

    fn peek_slice(&self, offset: usize) -> I::Slice {
        self.input.peek_slice(offset)
    }

    fn finish(&mut self) -> I::Slice
        requires { IsValidLocated I.valid I.valid_checkpoint self.old }
        ensures answer { I.is_slice result (I.remaining (locating_inner self.old))
            (width (I.remaining (locating_inner self.old))) }
        ensures from { I.slice_from result (I.remaining (locating_inner self.old))
            (width (I.remaining (locating_inner self.old))) }
        ensures remains { I.remaining (locating_inner self.new) ≡ [] }
        ensures valid { IsValidLocated I.valid I.valid_checkpoint self.new }
        ensures kept { KeepsLocated I.keeps self.old self.new }
        ensures location { location_of self.new
            ≡ location_of self.old + width (I.remaining (locating_inner self.old)) }
    {
        let taken = self.input.eof_offset();
        let slice = self.input.finish();
        self.location += taken;
        slice
    }

    fn peek_finish(&self) -> I::Slice {
        self.input.peek_finish()
    }

    fn checkpoint(&self) -> Checkpoint<Placed<C>, Self>
        requires { IsValidLocated I.valid I.valid_checkpoint self.now }
        ensures means { I.remained (inner_at result) ≡ I.remaining (locating_inner self.now) }
        ensures valid { I.valid_checkpoint (inner_at result) }
        ensures location { location_at result ≡ location_of self.now }
    {
        Checkpoint::new(Placed {
            inner: self.input.checkpoint(),
            location: self.location,
        })
    }

    fn reset(&mut self, checkpoint: &Checkpoint<Placed<C>, Self>)
        requires valid { IsValidLocated I.valid I.valid_checkpoint self.old }
        requires valid_checkpoint { I.valid_checkpoint (inner_at checkpoint.now) }
        ensures remains { I.remaining (locating_inner self.new)
            ≡ I.remained (inner_at checkpoint.now) }
        ensures valid { IsValidLocated I.valid I.valid_checkpoint self.new }
        ensures kept { KeepsLocated I.keeps self.old self.new }
        ensures location { location_of self.new ≡ location_at checkpoint.now }
    {
        let placed = checkpoint.inner();
        self.input.reset(&placed.inner);
        self.location = placed.location;
    }

    fn offset_since(&self, start: &Checkpoint<Placed<C>, Self>) -> usize {
        self.input.offset_since(&start.inner().inner)
    }

    fn trace<W: fmt::Write>(&self, f: &mut fmt::Formatter<W>) -> fmt::Result {
        self.input.trace(f)
    }
}

impl<I: Offset<I>, C: Rest> Offset<LocatingSlice<I, C>> for LocatingSlice<I, C> {
    ghost can_measure = { λ s start. I.can_measure (locating_inner s) (locating_inner start) };

    fn offset_from(&self, start: &LocatingSlice<I, C>) -> usize {
        self.input.offset_from(&start.input)
    }
}

impl<I: Offset<C>, C: Rest> Offset<Checkpoint<Placed<C>, LocatingSlice<I, C>>>
    for LocatingSlice<I, C> {
    ghost can_measure = { λ s c. I.can_measure (locating_inner s) (inner_at c) };

    fn offset_from(&self, start: &Checkpoint<Placed<C>, LocatingSlice<I, C>>) -> usize {
        self.input.offset_from(&start.inner().inner)
    }
}

impl<I: SliceLen + Rest, C: Rest> SliceLen for LocatingSlice<I, C> {
    ghost has_width = { λ s. I.has_width (locating_inner s) };

    ghost width_of = { λ s. I.width_of (locating_inner s) };

    fn slice_len(&self) -> usize {
        self.input.slice_len()
    }
}

impl<I: UpdateSlice + Stream<Checkpoint = C>, C: Rest + Copy + Debug> UpdateSlice
    for LocatingSlice<I, C> {
    fn update_slice(self, inner: I::Slice, at: &Checkpoint<Placed<C>, Self>) -> Self
        requires valid { IsValidLocated I.valid I.valid_checkpoint self }
        requires valid_checkpoint { I.valid_checkpoint (inner_at at.now) }
        requires is_prefix { IsSomeFront I.is_slice inner (I.remained (inner_at at.now)) }
        ensures remains { (n : ℕ) → IsTrue (is_offset (I.remained (inner_at at.now)) n)
            → I.is_slice inner (I.remained (inner_at at.now)) n
            → I.remaining (locating_inner result) ≡ front (I.remained (inner_at at.now)) n }
        ensures valid { IsValidLocated I.valid I.valid_checkpoint result }
        ensures kept { KeepsLocated I.keeps self result }
        ensures location { location_of result ≡ location_at at.now }
    {
        let LocatingSlice {
            start,
            input,
            location: _,
        } = self;
        let placed = at.inner();
        LocatingSlice {
            start,
            input: input.update_slice(inner, &placed.inner),
            location: placed.location,
        }
    }
}

impl<I: Rest, C: Rest> Location for LocatingSlice<I, C> {
    ghost token_end = { location_of };

    ghost token_start = { location_of };

    fn previous_token_end(&self) -> usize {
        self.location
    }

    fn current_token_start(&self) -> usize {
        self.location
    }
}

impl<I: AsBytes + Rest, C: Rest> AsBytes for LocatingSlice<I, C> {
    ghost bytes = { λ s. I.bytes (locating_inner s) };

    fn as_bytes(&self) -> &[u8] {
        self.input.as_bytes()
    }
}

impl<I: AsBStr + Rest, C: Rest> AsBStr for LocatingSlice<I, C> {
    ghost text_bytes = { λ s. I.text_bytes (locating_inner s) };

    fn as_bstr(&self) -> &[u8] {
        self.input.as_bstr()
    }
}

impl<I: StreamIsPartial + Stream<Checkpoint = C>, C: Rest + Copy + Debug> StreamIsPartial
    for LocatingSlice<I, C> {
    type PartialState = I::PartialState;

    ghost supports_partial = { I.supports_partial };

    ghost partial_state = { λ s. I.partial_state (locating_inner s) };

    ghost expects_more = { λ s. I.expects_more (locating_inner s) };

    ghost same_but_flag = { λ s t. (located_start s ≡ located_start t)
        × (location_of s ≡ location_of t)
        × I.same_but_flag (locating_inner s) (locating_inner t) };

    ghost flag_decides = { λ s t. I.flag_decides (locating_inner s) (locating_inner t) };

    ghost no_flag = { λ unsupported s. I.no_flag unsupported (locating_inner s) };

    ghost keeps_flag = { λ s t kept. I.keeps_flag (locating_inner s) (locating_inner t) kept.1 };

    fn complete(&mut self) -> I::PartialState {
        self.input.complete()
    }

    fn restore_partial(&mut self, state: I::PartialState) {
        self.input.restore_partial(state)
    }

    fn is_partial_supported() -> bool {
        I::is_partial_supported()
    }

    fn is_partial(&self) -> bool {
        self.input.is_partial()
    }
}

impl<I: Compare<T> + Stream<Checkpoint = C>, C: Rest + Copy + Debug, T> Compare<T>
    for LocatingSlice<I, C> {
    ghost compared = { I.compared };

    ghost literal_width = { I.literal_width };

    ghost comparisons_stay = { I.comparisons_stay };

    #[inline(always)]
    fn compare(&self, t: T) -> CompareResult {
        self.input.compare(t)
    }
}

impl<I: FindSlice<T> + Stream<Checkpoint = C>, C: Rest + Copy + Debug, T> FindSlice<T>
    for LocatingSlice<I, C> {
    ghost found = { I.found };

    fn find_slice(&self, substr: T) -> Option<Range<usize>> {
        self.input.find_slice(substr)
    }
}

/// It prints as the stream inside, also under format options.
impl<I: Display + Rest, C: Rest> Display for LocatingSlice<I, C> {
    ghost output = { λ s. I.output (locating_inner s) };

    ghost styled_output = { λ s. I.styled_output (locating_inner s) };

    fn fmt<W: fmt::Write>(&self, f: &mut fmt::Formatter<W>) -> fmt::Result {
        Display::fmt(&self.input, f)
    }
}

/// It prints as the stream inside.
impl<I: Debug + Rest, C: Rest> Debug for LocatingSlice<I, C> {
    ghost debug_output = { λ s. I.debug_output (locating_inner s) };

    fn fmt<W: fmt::Write>(&self, f: &mut fmt::Formatter<W>) -> fmt::Result {
        self.input.fmt(f)
    }
}
