//! The parser of a number of tokens: `take`.

ghost use Rattle.winnow_parser.specs.Errors.{OwnErrors};
ghost use Rattle.winnow_token.specs.Take.{Takes, IsParser-Takes};

use std::alloc::Global;
use winnow_error::ParserError;
use winnow_parser::{Failure, ModalResult, Parser};
use winnow_stream::{StreamIsPartial, offset_law};

/// A parser of `count` tokens; [`take`] makes it.
#[derive(Clone, Copy, Debug, Drop)]
pub struct Take {
    pub(crate) count: usize,
}

impl<I: StreamIsPartial, E: ParserError<I>> Parser<I, E> for Take {
    type Output = I::Slice;

    ghost means = { λ p. Takes I.counts_shortage I.is_slice p.count };

    ghost errors = { λ _. OwnErrors E.from_input_gives E.assert_gives };

    ghost ready = { λ _. Unit {0} };

    ghost lawful = { λ p. IsParser-Takes I.counts_shortage I.is_slice I.slices_stay p.count };

    #[inline(always)]
    fn parse_next(&self, alloc: Global, input: &mut I) -> ModalResult<I::Slice, E> {
        offset_law::<I::Token>();
        match input.offset_at(self.count) {
            Ok(offset) => Ok(input.next_slice(offset)),
            Err(needed) if input.is_partial() => Err(Failure::Incomplete(needed)),
            Err(_) => Err(Failure::Backtrack(E::from_input(alloc, input))),
        }
    }
}
