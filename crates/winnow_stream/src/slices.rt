//! Slices as streams of their elements.

ghost use Rattle.std.specs.Prelude.{◌≡◌, ◌+◌, ◌-◌, ◌<◌, ◌^◌, true, length, IfSome, ⊤};
ghost use Rattle.std.specs.Iterator.{at_most, UpTo, YieldsFirst};
ghost use Rattle.std.specs.Iterator.SizeHint.{IsWithinCount};
ghost use Rattle.std.proofs.Common.{sym, ap};
ghost use Rattle.winnow_stream.specs.Checkpoint.{checkpoint_inner};
ghost use Rattle.winnow_stream.specs.Source.{units, offsets_from};
ghost use Rattle.winnow_stream.specs.Front.{front};
ghost use Rattle.winnow_stream.specs.Longer.{SlicesStay-front};
ghost use Rattle.winnow_stream.specs.Units.{HasPositiveWidths-units, width-units};

use crate::{Checkpoint, Needed, Rest, Stream};
use std::fmt::Debug;
use std::num::NonZeroUsize;

/// An iterator over the elements of a slice, each with its offset.
#[derive(Clone, Copy, Debug)]
pub struct SliceOffsets<'i, T> {
    rest: &'i [T],
    offset: usize,
}

impl<'i, T: Copy> Iterator for SliceOffsets<'i, T> {
    type Item = (usize, T);

    ghost can_next = { λ s. s.offset + length s.rest.now < 2 ^ 64 };

    ghost next_gives = { YieldsFirst (λ s. offsets_from s.offset (units s.rest.now)) };

    ghost remaining = { λ s. at_most (length s.rest.now) };

    fn next(&mut self) -> Option<(usize, T)> {
        let (first, rest) = self.rest.split_first()?;
        let offset = self.offset;
        self.rest = rest;
        self.offset = offset + 1;
        Some((offset, *first))
    }

    fn size_hint(&self) -> (usize, Option<usize>)
        ensures lower { IsWithinCount result.0 (at_most (length self.now.rest.now)) }
        ensures upper { IfSome result.1 (UpTo (at_most (length self.now.rest.now))) }
        ensures exact { result ≡ (length self.now.rest.now, Some (length self.now.rest.now)) }
    {
        (self.rest.len(), Some(self.rest.len()))
    }
}

impl<T> Rest for &[T] {
    ghost rest_width = { λ s. length s.now };
}

/// The remaining slice is the whole state. Each element has width 1, even if its type has no size.
#[tactic(auto, using(crate::proofs::lemmas::UnitLemmas::units_steps))]
impl<'i, T: Copy + Debug> Stream for &'i [T] {
    type Token = T;

    type Slice = &'i [T];

    type IterOffsets = SliceOffsets<'i, T>;

    type Checkpoint = Checkpoint<&'i [T], &'i [T]>;

    ghost remaining = { λ s. units s.now };

    ghost valid = { λ _. ⊤ };

    ghost remained = { λ c. units (checkpoint_inner c).now };

    ghost valid_checkpoint = { λ _. ⊤ };

    ghost is_slice = { λ s r n. units s.now ≡ front r n };

    ghost counts_shortage = { true };

    ghost keeps = { λ _ _. ⊤ };

    ghost slices_stay = { SlicesStay-front (λ s. units s.now) };

    ghost positive_widths = { λ s _. HasPositiveWidths-units s.now };

    ghost positive_widths_remained = { λ c _. HasPositiveWidths-units (checkpoint_inner c).now };

    ghost rest_width_remaining = { λ s _. sym (width-units s.now) };

    ghost rest_width_remained = { λ c _. sym (width-units (checkpoint_inner c).now) };

    ghost same_rest_remaining = { λ s t e. ap (λ v. units v.now) (sym e) };

    ghost same_rest_valid = { λ _ _ _ _. tt };

    ghost keeps_reflexive = { λ _. tt };

    ghost keeps_transitive = { λ _ _ _ _ _. tt };

    fn iter_offsets(&self) -> SliceOffsets<'i, T> {
        SliceOffsets {
            rest: *self,
            offset: 0,
        }
    }

    fn eof_offset(&self) -> usize {
        self.len()
    }

    fn next_token(&mut self) -> Option<T> {
        let (first, rest) = self.split_first()?;
        *self = rest;
        Some(*first)
    }

    fn peek_token(&self) -> Option<T> {
        self.first().copied()
    }

    fn offset_at(&self, tokens: usize) -> Result<usize, Needed> {
        match NonZeroUsize::new(tokens.saturating_sub(self.len())) {
            Some(missing) => Err(Needed::Size(missing)),
            None => Ok(tokens),
        }
    }

    fn is_offset(&self, offset: usize) -> bool {
        offset <= self.len()
    }

    fn next_slice(&mut self, offset: usize) -> &'i [T] {
        let (slice, rest) = self.split_at(offset);
        *self = rest;
        slice
    }

    fn peek_slice(&self, offset: usize) -> &'i [T] {
        &self[..offset]
    }

    fn checkpoint(&self) -> Checkpoint<&'i [T], &'i [T]> {
        Checkpoint::new(*self)
    }

    fn reset(&mut self, checkpoint: &Checkpoint<&'i [T], &'i [T]>) {
        *self = *checkpoint.inner();
    }

    fn offset_since(&self, start: &Checkpoint<&'i [T], &'i [T]>) -> usize {
        start.inner().len() - self.len()
    }
}
