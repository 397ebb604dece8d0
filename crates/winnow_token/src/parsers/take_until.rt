//! The parser of the tokens before a literal: `take_until`.

ghost use Rattle.std.specs.Prelude.{◌≡◌, true};
ghost use Rattle.winnow_count.specs.CountRange.{least_count, greatest_count};
ghost use Rattle.winnow_parser.specs.Errors.{OwnErrors};
ghost use Rattle.winnow_token.specs.TakeUntil.{TakesUntil, HitsStay, IsParser-TakesUntil};

use crate::counts::{NO_COUNT, allow_some, has_counts};
use std::alloc::Global;
use winnow_count::Range;
use winnow_error::ParserError;
use winnow_match::FindSlice;
use winnow_parser::{Failure, ModalResult, Parser};
use winnow_stream::{Needed, StreamIsPartial};

/// A parser of the tokens before a literal; [`take_until`] makes it.
#[derive(Clone, Copy, Debug, Drop)]
pub struct TakeUntil<T> {
    pub(crate) counts: Range,
    pub(crate) literal: T,
}

impl<I: FindSlice<T> + StreamIsPartial, E: ParserError<I>, T: Copy> Parser<I, E> for TakeUntil<T> {
    type Output = I::Slice;

    ghost means = { λ p. TakesUntil I.is_slice
        (I.found p.literal) (least_count p.counts) (greatest_count p.counts) };

    ghost errors = { λ _. OwnErrors E.from_input_gives E.assert_gives };

    ghost ready = { λ p. I.supports_partial ≡ true → HitsStay (I.found p.literal) };

    ghost lawful = { λ p. IsParser-TakesUntil I.is_slice I.slices_stay
        (I.found p.literal) (least_count p.counts) (greatest_count p.counts) };

    fn parse_next(&self, alloc: Global, input: &mut I) -> ModalResult<I::Slice, E> {
        if !allow_some(&self.counts) {
            return Err(Failure::Cut(E::assert(alloc, input, NO_COUNT)));
        }
        let Some(hit) = input.find_slice(self.literal) else {
            if input.is_partial() {
                return Err(Failure::Incomplete(Needed::Unknown));
            }
            return Err(Failure::Backtrack(E::from_input(alloc, input)));
        };
        if !has_counts(input, hit.start, &self.counts) {
            return Err(Failure::Backtrack(E::from_input(alloc, input)));
        }
        Ok(input.next_slice(hit.start))
    }
}
