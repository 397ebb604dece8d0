ghost use Rattle.std.specs.Prelude.{◌≡◌};
ghost use Rattle.winnow_parser.specs.Meanings.{Maps};
ghost use Rattle.winnow_parser.specs.Parts.{IsParser-Maps};
ghost use Rattle.winnow_parser.specs.Taken.{WithTaken, IsParser-WithTaken};
ghost use Rattle.winnow_spans.specs.TokenSpan.{HasTokenSpan};

use crate::SliceSpan;
use crate::parsers::token_span::range_of;
use std::alloc::Global;
use std::ops::Range;
use winnow_parser::{ModalResult, Parser, WithTaken};
use winnow_stream::{Location, StreamIsPartial};

/// A parser of the value and of the range of the tokens that the inner parser takes;
/// [`with_token_span`] makes it.
#[derive(Drop)]
#[derive_where(Clone, Copy; P)]
pub struct WithTokenSpan<P, I, E> {
    inner: WithTaken<P, I, E>,
}

/// Returns the parser of the value and of the range of the tokens that a parser takes, which is
/// that of [`token_span`].
pub fn with_token_span<I: StreamIsPartial, E, P: Parser<I, E>>(parser: P) -> WithTokenSpan<P, I, E>
    ensures inner { result.inner.inner ≡ parser }
{
    WithTokenSpan {
        inner: parser.with_taken(),
    }
}

impl<I: StreamIsPartial + Location, E, P: Parser<I, E>> Parser<I, E> for WithTokenSpan<P, I, E>
where
    I::Slice: SliceSpan + Drop,
{
    type Output = (P::Output, Range<usize>);

    ghost means = { λ p.
        Maps (HasTokenSpan I.Slice.span) (WithTaken I.is_slice (P.means p.inner.inner)) };

    ghost errors = { λ p. P.errors p.inner.inner };

    ghost ready = { λ p. P.ready p.inner.inner };

    ghost lawful = { λ p.
        IsParser-Maps (HasTokenSpan I.Slice.span) (WithTaken I.is_slice (P.means p.inner.inner))
        (IsParser-WithTaken I.is_slice I.slices_stay (P.means p.inner.inner)
        (P.lawful p.inner.inner)) };

    fn parse_next(
        &self,
        alloc: Global,
        input: &mut I,
    ) -> ModalResult<(P::Output, Range<usize>), E> {
        let (value, tokens) = self.inner.parse_next(alloc, input)?;
        let range = range_of(&tokens, input);
        Ok((value, range))
    }
}
