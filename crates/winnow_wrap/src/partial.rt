//! `Partial`: a stream with a flag that more input may follow.

ghost use Rattle.std.specs.Prelude.{◌≡◌, true, false, refl};
ghost use Rattle.std.proofs.Common.{◌∙◌, sym, ap, subst, true≢false};
ghost use Rattle.winnow_stream.specs.Checkpoint.{checkpoint_inner};
ghost use Rattle.winnow_wrap.specs.Flag.{partial_inner, flag};

use std::fmt;
use std::fmt::Display;
use std::ops::{Deref, Range};
use winnow_match::{Compare, CompareResult, FindSlice};
use winnow_stream::{
    AsBStr, AsBytes, Checkpoint, Location, Needed, Offset, Rest, SliceLen, Stream, StreamIsPartial,
    UpdateSlice,
};

/// A stream with a flag that more input may follow. The flag is set at first, `complete` clears it,
/// and `reset` leaves it is.
///
/// At the end of what remains, a parser calls `is_partial`. If more may follow, the parser answers
/// that it needs more.
///
/// Wrappers nest, in this order or another:
///
/// ```
/// let mut input = Partial::new(LocatingSlice::new(inner));
/// ```
#[derive(Clone, Copy, Debug, Drop, PartialEq, Eq, PartialOrd, Ord)]
pub struct Partial<I> {
    input: I,
    partial: bool,
}

impl<I> Partial<I> {
    /// Returns the stream with its flag set. The stream inside has no flag.
    pub fn new(input: I) -> Self
    where
        I: StreamIsPartial,
        requires { I.supports_partial ≡ false }
        ensures input { partial_inner result ≡ input }
        ensures flag { flag result ≡ true }
    {
        Partial {
            input,
            partial: true,
        }
    }

    /// Returns the stream inside.
    pub fn into_inner(self) -> I
        ensures { result ≡ partial_inner self }
    {
        let Partial { input, partial: _ } = self;
        input
    }
}

impl<I> Deref for Partial<I> {
    type Target = I;

    ghost deref_gives = { λ s t. t ≡ partial_inner s };

    fn deref(&self) -> &I {
        &self.input
    }
}

impl<I: Rest> Rest for Partial<I> {
    ghost rest_width = { λ s. I.rest_width (partial_inner s) };

    // The flag does not belong to what remains.
    ghost same_rest = { λ s t. partial_inner s ≡ partial_inner t };

    ghost location = { λ s. I.location (partial_inner s) };
}

/// What remains is what remains inside, and the flag is kept.
impl<I: Stream> Stream for Partial<I> {
    type Token = I::Token;

    type Slice = I::Slice;

    type IterOffsets = I::IterOffsets;

    type Checkpoint = Checkpoint<I::Checkpoint, Self>;

    ghost remaining = { λ s. I.remaining (partial_inner s) };

    ghost valid = { λ s. I.valid (partial_inner s) };

    ghost remained = { λ c. I.remained (checkpoint_inner c) };

    ghost valid_checkpoint = { λ c. I.valid_checkpoint (checkpoint_inner c) };

    ghost is_slice = { I.is_slice };

    ghost slice_from = { I.slice_from };

    ghost counts_shortage = { I.counts_shortage };

    ghost keeps = { λ s t. (flag s ≡ flag t) × I.keeps (partial_inner s) (partial_inner t) };

    ghost slices_stay = { I.slices_stay };

    ghost positive_widths = { λ s v. I.positive_widths (partial_inner s) v };

    ghost positive_widths_remained = { λ c v. I.positive_widths_remained (checkpoint_inner c) v };

    ghost rest_width_remaining = { λ s v. I.rest_width_remaining (partial_inner s) v };

    ghost rest_width_remained = { λ c v. I.rest_width_remained (checkpoint_inner c) v };

    ghost same_rest_remaining = { λ s t e. ap I.remaining (sym e) };

    ghost same_rest_valid = { λ s t e v. subst I.valid e v };

    ghost keeps_reflexive = { λ s. (refl, I.keeps_reflexive (partial_inner s)) };

    ghost keeps_transitive = { λ s t u p q. (
      p.0 ∙ q.0,
      I.keeps_transitive (partial_inner s) (partial_inner t) (partial_inner u) p.1 q.1,
    ) };

    fn iter_offsets(&self) -> I::IterOffsets {
        self.input.iter_offsets()
    }

    fn eof_offset(&self) -> usize {
        self.input.eof_offset()
    }

    fn next_token(&mut self) -> Option<I::Token> {
        self.input.next_token()
    }

    fn peek_token(&self) -> Option<I::Token> {
        self.input.peek_token()
    }

    fn offset_at(&self, tokens: usize) -> Result<usize, Needed> {
        self.input.offset_at(tokens)
    }

    fn is_offset(&self, offset: usize) -> bool {
        self.input.is_offset(offset)
    }

    fn next_slice(&mut self, offset: usize) -> I::Slice {
        self.input.next_slice(offset)
    }

    fn peek_slice(&self, offset: usize) -> I::Slice {
        self.input.peek_slice(offset)
    }

    fn finish(&mut self) -> I::Slice {
        self.input.finish()
    }

    fn peek_finish(&self) -> I::Slice {
        self.input.peek_finish()
    }

    fn checkpoint(&self) -> Checkpoint<I::Checkpoint, Self> {
        Checkpoint::new(self.input.checkpoint())
    }

    fn reset(&mut self, checkpoint: &Checkpoint<I::Checkpoint, Self>) {
        self.input.reset(checkpoint.inner())
    }

    fn offset_since(&self, start: &Checkpoint<I::Checkpoint, Self>) -> usize {
        self.input.offset_since(start.inner())
    }

    fn trace<W: fmt::Write>(&self, f: &mut fmt::Formatter<W>) -> fmt::Result {
        self.input.trace(f)
    }
}

impl<I: Offset<I>> Offset<Partial<I>> for Partial<I> {
    ghost can_measure = { λ s start. I.can_measure (partial_inner s) (partial_inner start) };

    fn offset_from(&self, start: &Partial<I>) -> usize {
        self.input.offset_from(&start.input)
    }
}

impl<I: Offset<C>, C: Rest> Offset<Checkpoint<C, Partial<I>>> for Partial<I> {
    ghost can_measure = { λ s c. I.can_measure (partial_inner s) (checkpoint_inner c) };

    fn offset_from(&self, start: &Checkpoint<C, Partial<I>>) -> usize {
        self.input.offset_from(start.inner())
    }
}

impl<I: SliceLen> SliceLen for Partial<I> {
    ghost has_width = { λ s. I.has_width (partial_inner s) };

    ghost width_of = { λ s. I.width_of (partial_inner s) };

    fn slice_len(&self) -> usize {
        self.input.slice_len()
    }
}

impl<I: UpdateSlice> UpdateSlice for Partial<I> {
    fn update_slice(self, inner: I::Slice, at: &Checkpoint<I::Checkpoint, Self>) -> Self {
        let Partial { input, partial } = self;
        Partial {
            input: input.update_slice(inner, at.inner()),
            partial,
        }
    }
}

impl<I: Location> Location for Partial<I> {
    ghost token_end = { λ s. I.token_end (partial_inner s) };

    ghost token_start = { λ s. I.token_start (partial_inner s) };

    fn previous_token_end(&self) -> usize {
        self.input.previous_token_end()
    }

    fn current_token_start(&self) -> usize {
        self.input.current_token_start()
    }
}

impl<I: AsBytes> AsBytes for Partial<I> {
    ghost bytes = { λ s. I.bytes (partial_inner s) };

    fn as_bytes(&self) -> &[u8] {
        self.input.as_bytes()
    }
}

impl<I: AsBStr> AsBStr for Partial<I> {
    ghost text_bytes = { λ s. I.text_bytes (partial_inner s) };

    fn as_bstr(&self) -> &[u8] {
        self.input.as_bstr()
    }
}

impl<I: Stream> StreamIsPartial for Partial<I> {
    type PartialState = bool;

    ghost supports_partial = { true };

    ghost partial_state = { flag };

    ghost expects_more = { flag };

    ghost same_but_flag = { λ s t. partial_inner s ≡ partial_inner t };

    ghost flag_decides = { λ _ _ same. same };

    ghost no_flag = { λ unsupported _. absurd (true≢false unsupported) };

    ghost keeps_flag = { λ _ _ kept. sym kept.0 };

    fn complete(&mut self) -> bool {
        let flag = self.partial;
        self.partial = false;
        flag
    }

    fn restore_partial(&mut self, state: bool) {
        self.partial = state;
    }

    fn is_partial_supported() -> bool {
        true
    }

    fn is_partial(&self) -> bool {
        self.partial
    }
}

impl<I: Compare<T>, T> Compare<T> for Partial<I> {
    ghost compared = { I.compared };

    ghost literal_width = { I.literal_width };

    ghost comparisons_stay = { I.comparisons_stay };

    #[inline(always)]
    fn compare(&self, t: T) -> CompareResult {
        self.input.compare(t)
    }
}

impl<I: FindSlice<T>, T> FindSlice<T> for Partial<I> {
    ghost found = { I.found };

    fn find_slice(&self, substr: T) -> Option<Range<usize>> {
        self.input.find_slice(substr)
    }
}

/// It prints as the stream inside, also under format options.
impl<I: Display> Display for Partial<I> {
    ghost output = { λ s. I.output (partial_inner s) };

    ghost styled_output = { λ s. I.styled_output (partial_inner s) };

    fn fmt<W: fmt::Write>(&self, f: &mut fmt::Formatter<W>) -> fmt::Result {
        self.input.fmt(f)
    }
}
