//! `Recoverable`: a stream with a list of recorded errors.

ghost use Rattle.std.specs.Prelude.{◌≡◌, false, not, ◌||◌, is_some, [], refl, true, IsTrue, ℕ};
ghost use Rattle.std.specs.Prelude.{take, drop};
ghost use Rattle.std.specs.Borrow.{Lends, sem};
ghost use Rattle.std.proofs.Common.{sym, subst};
ghost use Rattle.winnow_stream.specs.Checkpoint.{checkpoint_inner};
ghost use Rattle.winnow_stream.specs.Source.{width, first_token};
ghost use Rattle.winnow_stream.specs.Front.{is_offset, back, front, IsSomeFront};
ghost use Rattle.winnow_stream.specs.Location.{location_behind};
ghost use Rattle.winnow_recover.specs.Recovering.{recoverable_inner, recorded_errors};
ghost use Rattle.winnow_recover.specs.Recovering.{records_errors, IsSame, Records, KeepsErrors};
ghost use Rattle.winnow_recover.specs.Recovering.{AddsErrors, AddsErrors-none, AddsErrors-both};
ghost use Rattle.winnow_recover.specs.Recovering.{with_inner, AddsErrors-one, records-taken};

use crate::{RecordError, Recover};
use std::alloc::Global;
use std::fmt;
use std::fmt::Debug;
use std::ops::{Deref, Range};
use winnow_error::{FromRecoverableError, ParserError};
use winnow_match::{Compare, CompareResult, FindSlice};
use winnow_stream::{
    AsBStr, AsBytes, Checkpoint, Location, Needed, Offset, Rest, SliceLen, Stream, StreamIsPartial,
    UpdateSlice,
};

/// A stream with a list of the errors from which a parser recovered. No call of `Stream` changes
/// the list. A parser may add errors to it, and takes none away.
///
/// Contracts speak of the stream inside, of the errors in their order and of whether the stream
/// records any, but not of the room that the list takes.
///
/// A reader records the faults of a text, and they are printed after it:
///
/// ```
/// let mut input: Recoverable<LocatingSlice<&str>, Fault> = Recoverable::new(rt.alloc(), text);
/// let settings = reader::read_settings(rt.alloc(), &mut input)?;
/// ..
/// for fault in input.into_parts().1 {
///     let error = fault.located(rt.alloc(), TEXT)?;
///     println!(rt; "{error}")?;
/// }
/// ```
#[derive(Debug, Drop)]
pub struct Recoverable<I, E> {
    pub(crate) input: I,
    pub(crate) errors: Vec<E>,
    pub(crate) is_recoverable: bool,
}

impl<I, E> Recoverable<I, E> {
    ghost use Rattle.winnow_recover.specs.contracts.recoverable.Recoverable.{the_row};

    /// Returns the stream with no error yet. It records each error that is not incomplete.
    pub fn new(alloc: Global, input: I) -> Self
        ensures input { recoverable_inner result ≡ input }
        ensures errors { recorded_errors result ≡ [] }
        ensures records { IsTrue (records_errors result) }
    {
        Recoverable {
            input,
            errors: Vec::new(alloc),
            is_recoverable: true,
        }
    }

    /// Returns the stream, which then records no error.
    pub fn unrecoverable(alloc: Global, input: I) -> Self
        ensures input { recoverable_inner result ≡ input }
        ensures errors { recorded_errors result ≡ [] }
        ensures refuses { records_errors result ≡ false }
    {
        Recoverable {
            input,
            errors: Vec::new(alloc),
            is_recoverable: false,
        }
    }

    /// Returns the stream inside.
    pub fn inner(&self) -> &I
        ensures { result.now ≡ recoverable_inner self.now }
    {
        &self.input
    }

    /// Returns the stream inside, to be read. A parser that reads it can record no error here.
    pub fn inner_mut(&mut self) -> &mut I
        ensures value { result.now ≡ recoverable_inner self.old }
        ensures* writes_back { sem 𝓛 (Lends (the_row I.row E.row) I.row self.entry result
            (with_inner self.old)) }
    {
        &mut self.input
    }

    /// Returns the stream inside, and the errors in the order in which they were recorded.
    pub fn into_parts(self) -> (I, Vec<E>)
        ensures input { result.0 ≡ recoverable_inner self }
        ensures errors { result.1.items ≡ recorded_errors self }
    {
        let Recoverable {
            input,
            errors,
            is_recoverable: _,
        } = self;
        (input, errors)
    }
}

impl<I, E> Deref for Recoverable<I, E> {
    type Target = I;

    ghost deref_gives = { λ s t. t ≡ (recoverable_inner s) };

    fn deref(&self) -> &I {
        &self.input
    }
}

impl<I: Rest, E> Rest for Recoverable<I, E> {
    ghost rest_width = { λ s. I.rest_width (recoverable_inner s) };

    ghost same_rest = { λ s t. I.same_rest (recoverable_inner s) (recoverable_inner t) };

    ghost location = { λ s. I.location (recoverable_inner s) };
}

impl<I: Stream, E: Debug> Stream for Recoverable<I, E> {
    type Token = I::Token;

    type Slice = I::Slice;

    type IterOffsets = I::IterOffsets;

    type Checkpoint = Checkpoint<I::Checkpoint, Self>;

    ghost remaining = { λ s. I.remaining (recoverable_inner s) };

    ghost valid = { λ s. I.valid (recoverable_inner s) };

    ghost remained = { λ c. I.remained (checkpoint_inner c) };

    ghost valid_checkpoint = { λ c. I.valid_checkpoint (checkpoint_inner c) };

    ghost is_slice = { I.is_slice };

    ghost slice_from = { I.slice_from };

    ghost counts_shortage = { I.counts_shortage };

    ghost keeps = { AddsErrors I.keeps };

    ghost slices_stay = { I.slices_stay };

    ghost positive_widths = { λ s. I.positive_widths (recoverable_inner s) };

    ghost positive_widths_remained = { λ c. I.positive_widths_remained (checkpoint_inner c) };

    ghost rest_width_remaining = { λ s. I.rest_width_remaining (recoverable_inner s) };

    ghost rest_width_remained = { λ c. I.rest_width_remained (checkpoint_inner c) };

    ghost same_rest_remaining = { λ s t.
        I.same_rest_remaining (recoverable_inner s) (recoverable_inner t) };

    ghost same_rest_valid = { λ s t.
        I.same_rest_valid (recoverable_inner s) (recoverable_inner t) };

    ghost keeps_reflexive = { λ s.
        AddsErrors-none (refl, refl, I.keeps_reflexive (recoverable_inner s)) };

    ghost keeps_transitive = { λ s t u.
        AddsErrors-both (I.keeps_transitive s.input t.input u.input) };

    fn iter_offsets(&self) -> I::IterOffsets {
        self.input.iter_offsets()
    }

    fn eof_offset(&self) -> usize {
        self.input.eof_offset()
    }

    fn next_token(&mut self) -> Option<I::Token>
        requires { I.valid (recoverable_inner self.old) }
        ensures answer { result ≡ first_token (I.remaining (recoverable_inner self.old)) }
        ensures remains { I.remaining (recoverable_inner self.new)
            ≡ drop 1 (I.remaining (recoverable_inner self.old)) }
        ensures location { I.location (recoverable_inner self.new)
            ≡ location_behind (I.location (recoverable_inner self.old))
            (width (take 1 (I.remaining (recoverable_inner self.old)))) }
        ensures valid { I.valid (recoverable_inner self.new) }
        ensures kept { KeepsErrors I.keeps self.old self.new }
    {
        self.input.next_token()
    }

    fn peek_token(&self) -> Option<I::Token> {
        self.input.peek_token()
    }

    fn offset_at(&self, tokens: usize) -> Result<usize, Needed> {
        self.input.offset_at(tokens)
    }

    fn is_offset(&self, offset: usize) -> bool {
        self.input.is_offset(offset)
    }

    fn next_slice(&mut self, offset: usize) -> I::Slice
        requires valid { I.valid (recoverable_inner self.old) }
        requires offset { IsTrue (is_offset (I.remaining (recoverable_inner self.old)) offset) }
        ensures answer { I.is_slice result (I.remaining (recoverable_inner self.old)) offset }
        ensures from { I.slice_from result (I.remaining (recoverable_inner self.old)) offset }
        ensures remains { I.remaining (recoverable_inner self.new)
            ≡ back (I.remaining (recoverable_inner self.old)) offset }
        ensures location { I.location (recoverable_inner self.new)
            ≡ location_behind (I.location (recoverable_inner self.old)) offset }
        ensures valid { I.valid (recoverable_inner self.new) }
        ensures kept { KeepsErrors I.keeps self.old self.new }
    {
        self.input.next_slice(offset)
    }

    fn peek_slice(&self, offset: usize) -> I::Slice {
        self.input.peek_slice(offset)
    }

    fn finish(&mut self) -> I::Slice
        requires { I.valid (recoverable_inner self.old) }
        ensures answer { I.is_slice result (I.remaining (recoverable_inner self.old))
            (width (I.remaining (recoverable_inner self.old))) }
        ensures from { I.slice_from result (I.remaining (recoverable_inner self.old))
            (width (I.remaining (recoverable_inner self.old))) }
        ensures remains { I.remaining (recoverable_inner self.new) ≡ [] }
        ensures location { I.location (recoverable_inner self.new)
            ≡ location_behind (I.location (recoverable_inner self.old))
            (width (I.remaining (recoverable_inner self.old))) }
        ensures valid { I.valid (recoverable_inner self.new) }
        ensures kept { KeepsErrors I.keeps self.old self.new }
    {
        self.input.finish()
    }

    fn peek_finish(&self) -> I::Slice {
        self.input.peek_finish()
    }

    fn checkpoint(&self) -> Checkpoint<I::Checkpoint, Self> {
        Checkpoint::new(self.input.checkpoint())
    }

    fn reset(&mut self, checkpoint: &Checkpoint<I::Checkpoint, Self>)
        requires valid { I.valid (recoverable_inner self.old) }
        requires valid_checkpoint { I.valid_checkpoint (checkpoint_inner checkpoint.now) }
        ensures remains { I.remaining (recoverable_inner self.new)
            ≡ I.remained (checkpoint_inner checkpoint.now) }
        ensures location { I.location (recoverable_inner self.new)
            ≡ I.Checkpoint.location (checkpoint_inner checkpoint.now) }
        ensures valid { I.valid (recoverable_inner self.new) }
        ensures kept { KeepsErrors I.keeps self.old self.new }
    {
        self.input.reset(checkpoint.inner())
    }

    fn offset_since(&self, start: &Checkpoint<I::Checkpoint, Self>) -> usize {
        self.input.offset_since(start.inner())
    }

    fn trace<W: fmt::Write>(&self, f: &mut fmt::Formatter<W>) -> fmt::Result {
        self.input.trace(f)
    }
}

impl<I, E, R> Recover<E> for Recoverable<I, R>
where
    I: Stream,
    E: ParserError<Recoverable<I, R>>,
    R: FromRecoverableError<Recoverable<I, R>, E> + Debug,
{
    ghost refuses = { λ s e. not (records_errors s) || is_some (E.needs e) };

    ghost records = { Records R.recovered };

    ghost unchanged = { IsSame };

    ghost supports_recovery = { true };

    ghost use Rattle.std.proofs.Common.{rules};

    ghost refuses_unsupported = { λ s e never. Prim.search rules };

    ghost unchanged_keeps = { λ s t same. AddsErrors-none (
      sym same.1,
      sym same.2,
      subst (I.keeps s.input) (sym same.0) (I.keeps_reflexive s.input),
    ) };

    ghost records_keeps = { λ s t start at e taken more. AddsErrors-one _ s t
        (records-taken (records_errors s) (is_some (E.needs e)) taken)
        (I.keeps_reflexive s.input) more.2 };

    // A refusal comes before a want of memory. The room is made before the error is converted.
    fn record_err(
        &mut self,
        token_start: &Checkpoint<I::Checkpoint, Recoverable<I, R>>,
        err_start: &Checkpoint<I::Checkpoint, Recoverable<I, R>>,
        err: E,
    ) -> Result<(), RecordError<E>> {
        if !self.is_recoverable || err.is_incomplete() {
            return Err(RecordError::Refused(err));
        }
        if self.errors.reserve(1).is_err() {
            return Err(RecordError::OutOfMemory(err));
        }
        let recorded = R::from_recoverable_error(token_start, err_start, self, err);
        self.errors.push_reserved(recorded);
        Ok(())
    }

    fn is_recovery_supported() -> bool {
        true
    }
}

impl<I: Offset<I>, E> Offset<Self> for Recoverable<I, E> {
    ghost can_measure = { λ s start.
        I.can_measure (recoverable_inner s) (recoverable_inner start) };

    fn offset_from(&self, start: &Self) -> usize {
        self.input.offset_from(&start.input)
    }
}

impl<I: Offset<C>, E, C: Rest> Offset<Checkpoint<C, Self>> for Recoverable<I, E> {
    ghost can_measure = { λ s start. I.can_measure (recoverable_inner s) (checkpoint_inner start) };

    fn offset_from(&self, start: &Checkpoint<C, Self>) -> usize {
        self.input.offset_from(start.inner())
    }
}

impl<I: SliceLen, E> SliceLen for Recoverable<I, E> {
    ghost has_width = { λ s. I.has_width (recoverable_inner s) };

    ghost width_of = { λ s. I.width_of (recoverable_inner s) };

    fn slice_len(&self) -> usize {
        self.input.slice_len()
    }
}

impl<I: UpdateSlice, E: Debug> UpdateSlice for Recoverable<I, E> {
    fn update_slice(self, inner: I::Slice, at: &Checkpoint<I::Checkpoint, Self>) -> Self
        requires valid { I.valid (recoverable_inner self) }
        requires valid_checkpoint { I.valid_checkpoint (checkpoint_inner at.now) }
        requires is_prefix { IsSomeFront I.is_slice inner (I.remained (checkpoint_inner at.now)) }
        ensures remains { (n : ℕ) → IsTrue (is_offset (I.remained (checkpoint_inner at.now)) n)
            → I.is_slice inner (I.remained (checkpoint_inner at.now)) n
            → I.remaining (recoverable_inner result)
            ≡ front (I.remained (checkpoint_inner at.now)) n }
        ensures location { I.location (recoverable_inner result)
            ≡ I.Checkpoint.location (checkpoint_inner at.now) }
        ensures valid { I.valid (recoverable_inner result) }
        ensures kept { KeepsErrors I.keeps self result }
    {
        let Recoverable {
            input,
            errors,
            is_recoverable,
        } = self;
        Recoverable {
            input: input.update_slice(inner, at.inner()),
            errors,
            is_recoverable,
        }
    }
}

impl<I: Location, E> Location for Recoverable<I, E> {
    ghost token_end = { λ s. I.token_end (recoverable_inner s) };

    ghost token_start = { λ s. I.token_start (recoverable_inner s) };

    fn previous_token_end(&self) -> usize {
        self.input.previous_token_end()
    }

    fn current_token_start(&self) -> usize {
        self.input.current_token_start()
    }
}

impl<I: AsBytes, E> AsBytes for Recoverable<I, E> {
    ghost bytes = { λ s. I.bytes (recoverable_inner s) };

    fn as_bytes(&self) -> &[u8] {
        self.input.as_bytes()
    }
}

impl<I: AsBStr, E> AsBStr for Recoverable<I, E> {
    ghost text_bytes = { λ s. I.text_bytes (recoverable_inner s) };

    fn as_bstr(&self) -> &[u8] {
        self.input.as_bstr()
    }
}

impl<I: StreamIsPartial, E: Debug> StreamIsPartial for Recoverable<I, E> {
    type PartialState = I::PartialState;

    ghost supports_partial = { I.supports_partial };

    ghost partial_state = { λ s. I.partial_state (recoverable_inner s) };

    ghost expects_more = { λ s. I.expects_more (recoverable_inner s) };

    ghost same_but_flag = { λ s t. (recorded_errors s ≡ recorded_errors t)
        × (records_errors s ≡ records_errors t) × I.same_but_flag s.input t.input };

    ghost flag_decides = { λ s t. I.flag_decides (recoverable_inner s) (recoverable_inner t) };

    ghost no_flag = { λ unsupported s. I.no_flag unsupported (recoverable_inner s) };

    ghost keeps_flag = { λ s t kept. I.keeps_flag s.input t.input kept.inside };

    fn complete(&mut self) -> I::PartialState {
        self.input.complete()
    }

    fn restore_partial(&mut self, state: I::PartialState) {
        self.input.restore_partial(state)
    }

    fn is_partial_supported() -> bool {
        I::is_partial_supported()
    }

    fn is_partial(&self) -> bool {
        self.input.is_partial()
    }
}

impl<I: Compare<T>, E: Debug, T> Compare<T> for Recoverable<I, E> {
    ghost compared = { I.compared };

    ghost literal_width = { I.literal_width };

    ghost comparisons_stay = { I.comparisons_stay };

    #[inline(always)]
    fn compare(&self, t: T) -> CompareResult {
        self.input.compare(t)
    }
}

impl<I: FindSlice<T>, E: Debug, T> FindSlice<T> for Recoverable<I, E> {
    ghost found = { I.found };

    fn find_slice(&self, substr: T) -> Option<Range<usize>> {
        self.input.find_slice(substr)
    }
}

/// It prints as the stream inside, also under format options.
impl<I: fmt::Display, E> fmt::Display for Recoverable<I, E> {
    ghost output = { λ s. I.output (recoverable_inner s) };

    ghost styled_output = { λ s. I.styled_output (recoverable_inner s) };

    fn fmt<W: fmt::Write>(&self, f: &mut fmt::Formatter<W>) -> fmt::Result {
        self.input.fmt(f)
    }
}
