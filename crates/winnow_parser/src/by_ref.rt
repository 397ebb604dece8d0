//! A reference to a parser as a parser.

use crate::{ModalResult, Parser};
use std::alloc::Global;
use winnow_stream::StreamIsPartial;

/// A reference reads as the parser that it refers to.
impl<I: StreamIsPartial, E, P: Parser<I, E>> Parser<I, E> for &P {
    type Output = P::Output;

    ghost means = { λ p. P.means p.now };

    ghost errors = { λ p. P.errors p.now };

    ghost ready = { λ p. P.ready p.now };

    ghost lawful = { λ p. P.lawful p.now };

    // Inlined: combinators hold their parts by reference where they repeat them.
    #[inline(always)]
    fn parse_next(&self, alloc: Global, input: &mut I) -> ModalResult<P::Output, E> {
        (**self).parse_next(alloc, input)
    }
}
