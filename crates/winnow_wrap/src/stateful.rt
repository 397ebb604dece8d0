//! `Stateful`: a stream with a state that no call of `Stream` changes.

ghost use Rattle.std.specs.Prelude.{◌≡◌, refl};
ghost use Rattle.std.proofs.Common.{◌∙◌};
ghost use Rattle.winnow_stream.specs.Checkpoint.{checkpoint_inner};

use std::fmt;
use std::fmt::{Debug, Display};
use std::ops::{Deref, Range};
use winnow_match::{Compare, CompareResult, FindSlice};
use winnow_stream::{
    AsBStr, AsBytes, Checkpoint, Location, Needed, Offset, Rest, SliceLen, Stream, StreamIsPartial,
    UpdateSlice,
};

/// A stream with a state that no call of `Stream` touches: a depth of recursion, a table of names,
/// a log.
///
/// Both are public. A parser takes from the stream inside and reads the state. It may not change
/// the state, since it keeps what no call of `Stream` changes: do that between two parsers.
///
/// A stream gets a state:
///
/// ```
/// let mut input = Stateful { input, state: () };
/// ```
#[derive(Clone, Copy, Debug, Default, Drop, PartialEq, Eq)]
pub struct Stateful<I, S> {
    /// The stream inside
    pub input: I,
    /// The state
    pub state: S,
}

impl<I, S> Deref for Stateful<I, S> {
    type Target = I;

    ghost deref_gives = { λ s t. t ≡ s.input };

    fn deref(&self) -> &I {
        &self.input
    }
}

impl<I: Rest, S> Rest for Stateful<I, S> {
    ghost rest_width = { λ s. I.rest_width s.input };

    ghost same_rest = { λ s t. I.same_rest s.input t.input };

    ghost location = { λ s. I.location s.input };
}

/// What remains is what remains inside, and the state is kept.
impl<I: Stream, S: Debug> Stream for Stateful<I, S> {
    type Token = I::Token;

    type Slice = I::Slice;

    type IterOffsets = I::IterOffsets;

    type Checkpoint = Checkpoint<I::Checkpoint, Self>;

    ghost remaining = { λ s. I.remaining s.input };

    ghost valid = { λ s. I.valid s.input };

    ghost remained = { λ c. I.remained (checkpoint_inner c) };

    ghost valid_checkpoint = { λ c. I.valid_checkpoint (checkpoint_inner c) };

    ghost is_slice = { I.is_slice };

    ghost slice_from = { I.slice_from };

    ghost counts_shortage = { I.counts_shortage };

    ghost keeps = { λ s t. (s.state ≡ t.state) × I.keeps s.input t.input };

    ghost slices_stay = { I.slices_stay };

    ghost positive_widths = { λ s v. I.positive_widths s.input v };

    ghost positive_widths_remained = { λ c v. I.positive_widths_remained (checkpoint_inner c) v };

    ghost rest_width_remaining = { λ s v. I.rest_width_remaining s.input v };

    ghost rest_width_remained = { λ c v. I.rest_width_remained (checkpoint_inner c) v };

    ghost same_rest_remaining = { λ s t e. I.same_rest_remaining s.input t.input e };

    ghost same_rest_valid = { λ s t e v. I.same_rest_valid s.input t.input e v };

    ghost keeps_reflexive = { λ s. (refl, I.keeps_reflexive s.input) };

    ghost keeps_transitive = { λ s t u p q. (
      p.0 ∙ q.0,
      I.keeps_transitive s.input t.input u.input p.1 q.1,
    ) };

    fn iter_offsets(&self) -> I::IterOffsets {
        self.input.iter_offsets()
    }

    fn eof_offset(&self) -> usize {
        self.input.eof_offset()
    }

    fn next_token(&mut self) -> Option<I::Token> {
        self.input.next_token()
    }

    fn peek_token(&self) -> Option<I::Token> {
        self.input.peek_token()
    }

    fn offset_at(&self, tokens: usize) -> Result<usize, Needed> {
        self.input.offset_at(tokens)
    }

    fn is_offset(&self, offset: usize) -> bool {
        self.input.is_offset(offset)
    }

    fn next_slice(&mut self, offset: usize) -> I::Slice {
        self.input.next_slice(offset)
    }

    fn peek_slice(&self, offset: usize) -> I::Slice {
        self.input.peek_slice(offset)
    }

    fn finish(&mut self) -> I::Slice {
        self.input.finish()
    }

    fn peek_finish(&self) -> I::Slice {
        self.input.peek_finish()
    }

    fn checkpoint(&self) -> Checkpoint<I::Checkpoint, Self> {
        Checkpoint::new(self.input.checkpoint())
    }

    fn reset(&mut self, checkpoint: &Checkpoint<I::Checkpoint, Self>) {
        self.input.reset(checkpoint.inner())
    }

    fn offset_since(&self, start: &Checkpoint<I::Checkpoint, Self>) -> usize {
        self.input.offset_since(start.inner())
    }

    fn trace<W: fmt::Write>(&self, f: &mut fmt::Formatter<W>) -> fmt::Result {
        self.input.trace(f)
    }
}

impl<I: Offset<I>, S> Offset<Stateful<I, S>> for Stateful<I, S> {
    ghost can_measure = { λ s start. I.can_measure s.input start.input };

    fn offset_from(&self, start: &Stateful<I, S>) -> usize {
        self.input.offset_from(&start.input)
    }
}

impl<I: Offset<C>, S, C: Rest> Offset<Checkpoint<C, Stateful<I, S>>> for Stateful<I, S> {
    ghost can_measure = { λ s c. I.can_measure s.input (checkpoint_inner c) };

    fn offset_from(&self, start: &Checkpoint<C, Stateful<I, S>>) -> usize {
        self.input.offset_from(start.inner())
    }
}

impl<I: SliceLen, S> SliceLen for Stateful<I, S> {
    ghost has_width = { λ s. I.has_width s.input };

    ghost width_of = { λ s. I.width_of s.input };

    fn slice_len(&self) -> usize {
        self.input.slice_len()
    }
}

impl<I: UpdateSlice, S: Debug> UpdateSlice for Stateful<I, S> {
    fn update_slice(self, inner: I::Slice, at: &Checkpoint<I::Checkpoint, Self>) -> Self {
        let Stateful { input, state } = self;
        Stateful {
            input: input.update_slice(inner, at.inner()),
            state,
        }
    }
}

impl<I: Location, S> Location for Stateful<I, S> {
    ghost token_end = { λ s. I.token_end s.input };

    ghost token_start = { λ s. I.token_start s.input };

    fn previous_token_end(&self) -> usize {
        self.input.previous_token_end()
    }

    fn current_token_start(&self) -> usize {
        self.input.current_token_start()
    }
}

impl<I: AsBytes, S> AsBytes for Stateful<I, S> {
    ghost bytes = { λ s. I.bytes s.input };

    fn as_bytes(&self) -> &[u8] {
        self.input.as_bytes()
    }
}

impl<I: AsBStr, S> AsBStr for Stateful<I, S> {
    ghost text_bytes = { λ s. I.text_bytes s.input };

    fn as_bstr(&self) -> &[u8] {
        self.input.as_bstr()
    }
}

impl<I: StreamIsPartial, S: Debug> StreamIsPartial for Stateful<I, S> {
    type PartialState = I::PartialState;

    ghost supports_partial = { I.supports_partial };

    ghost partial_state = { λ s. I.partial_state s.input };

    ghost expects_more = { λ s. I.expects_more s.input };

    ghost same_but_flag = { λ s t. (s.state ≡ t.state) × I.same_but_flag s.input t.input };

    ghost flag_decides = { λ s t. I.flag_decides s.input t.input };

    ghost no_flag = { λ unsupported s. I.no_flag unsupported s.input };

    ghost keeps_flag = { λ s t kept. I.keeps_flag s.input t.input kept.1 };

    fn complete(&mut self) -> I::PartialState {
        self.input.complete()
    }

    fn restore_partial(&mut self, state: I::PartialState) {
        self.input.restore_partial(state)
    }

    fn is_partial_supported() -> bool {
        I::is_partial_supported()
    }

    fn is_partial(&self) -> bool {
        self.input.is_partial()
    }
}

impl<I: Compare<T>, S: Debug, T> Compare<T> for Stateful<I, S> {
    ghost compared = { I.compared };

    ghost literal_width = { I.literal_width };

    ghost comparisons_stay = { I.comparisons_stay };

    #[inline(always)]
    fn compare(&self, t: T) -> CompareResult {
        self.input.compare(t)
    }
}

impl<I: FindSlice<T>, S: Debug, T> FindSlice<T> for Stateful<I, S> {
    ghost found = { I.found };

    fn find_slice(&self, substr: T) -> Option<Range<usize>> {
        self.input.find_slice(substr)
    }
}

/// It prints as the stream inside, also under format options.
impl<I: Display, S> Display for Stateful<I, S> {
    ghost output = { λ s. I.output s.input };

    ghost styled_output = { λ s. I.styled_output s.input };

    fn fmt<W: fmt::Write>(&self, f: &mut fmt::Formatter<W>) -> fmt::Result {
        self.input.fmt(f)
    }
}
