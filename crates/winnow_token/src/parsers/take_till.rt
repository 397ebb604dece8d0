ghost use Rattle.std.specs.Prelude.{not};
ghost use Rattle.winnow_count.specs.CountRange.{least_count, greatest_count};
ghost use Rattle.winnow_parser.specs.Errors.{OwnErrors};
ghost use Rattle.winnow_token.specs.TakeWhile.{TakesWhile, IsParser-TakesWhile};

use crate::parsers::take_while::take_front;
use std::alloc::Global;
use winnow_count::Range;
use winnow_error::ParserError;
use winnow_parser::{ModalResult, Parser};
use winnow_sets::FixedSet;
use winnow_stream::StreamIsPartial;

/// A parser of the tokens that a set does not hold; [`take_till`] makes it.
#[derive(Clone, Copy, Debug, Drop)]
pub struct TakeTill<C> {
    pub(crate) counts: Range,
    pub(crate) set: C,
}

impl<I: StreamIsPartial, E: ParserError<I>, C: FixedSet<I::Token>> Parser<I, E> for TakeTill<C> {
    type Output = I::Slice;

    ghost means = { λ p. TakesWhile I.is_slice
        (λ token. not (C.holds p.set token)) (least_count p.counts) (greatest_count p.counts) };

    ghost errors = { λ _. OwnErrors E.from_input_gives E.assert_gives };

    ghost ready = { λ p. C.askable p.set };

    ghost lawful = { λ p. IsParser-TakesWhile I.is_slice I.slices_stay
        (λ token. not (C.holds p.set token)) (least_count p.counts) (greatest_count p.counts) };

    #[inline(always)]
    fn parse_next(&self, alloc: Global, input: &mut I) -> ModalResult<I::Slice, E> {
        let counts = &self.counts;
        take_front(alloc, input, counts, |token| !self.set.holds_token(token))
    }
}
