//! Parsers of the span of the consumed tokens: `token_span`, and `with_token_span` with the value.

ghost use Rattle.std.specs.Prelude.{◌≡◌};
ghost use Rattle.winnow_parser.specs.Meanings.{Maps};
ghost use Rattle.winnow_parser.specs.Parts.{IsParser-Maps};
ghost use Rattle.winnow_parser.specs.Taken.{Taken, IsParser-Taken};
ghost use Rattle.winnow_spans.specs.TokenSpan.{IsTokenSpan};

use crate::SliceSpan;
use std::alloc::Global;
use std::ops::Range;
use winnow_parser::{ModalResult, Parser, Taken};
use winnow_stream::{Location, StreamIsPartial};

/// A parser of the range of the tokens that the inner parser takes; [`token_span`] makes it.
#[derive(Drop)]
#[derive_where(Clone, Copy; P)]
pub struct TokenSpan<P, I, E> {
    inner: Taken<P, I, E>,
}

/// Returns the parser of the range of the tokens that a parser takes, from where the first one
/// starts to where the last one ends.
///
/// Where it takes none, the range is that of `span` in the Rust crate, from where the next token
/// starts to where the last one before it ended: no contract says so.
pub fn token_span<I: StreamIsPartial, E, P: Parser<I, E>>(parser: P) -> TokenSpan<P, I, E>
    ensures inner { result.inner.inner ≡ parser }
{
    TokenSpan {
        inner: parser.take(),
    }
}

impl<I: StreamIsPartial + Location, E, P: Parser<I, E>> Parser<I, E> for TokenSpan<P, I, E>
where
    I::Slice: SliceSpan + Drop,
    P::Output: Drop,
{
    type Output = Range<usize>;

    ghost means = { λ p.
        Maps (IsTokenSpan I.Slice.span) (Taken I.is_slice (P.means p.inner.inner)) };

    ghost errors = { λ p. P.errors p.inner.inner };

    ghost ready = { λ p. P.ready p.inner.inner };

    ghost lawful = { λ p.
        IsParser-Maps (IsTokenSpan I.Slice.span) (Taken I.is_slice (P.means p.inner.inner))
        (IsParser-Taken I.is_slice I.slices_stay (P.means p.inner.inner)
        (P.lawful p.inner.inner)) };

    fn parse_next(&self, alloc: Global, input: &mut I) -> ModalResult<Range<usize>, E> {
        let tokens = self.inner.parse_next(alloc, input)?;
        Ok(range_of(&tokens, input))
    }
}

// Returns the range of the tokens that were taken. Where none was, it is made of the stream's own
// locations.
pub(crate) fn range_of<S: SliceSpan, I: Location>(tokens: &S, input: &I) -> Range<usize>
    ensures { IsTokenSpan S.span tokens.now result }
{
    match tokens.span() {
        Some(span) => span,
        None => input.current_token_start()..input.previous_token_end(),
    }
}
