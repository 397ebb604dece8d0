//! The parser of a format: `reading`.

ghost use Rattle.std.specs.Prelude.{◌≡◌};
ghost use Rattle.winnow_parser.specs.Errors.{AnyError};
ghost use Rattle.winnow_codec.specs.Formats.{Reads, IsParser-Reads};

use crate::Format;
use std::alloc::Global;
use winnow_error::ParserError;
use winnow_parser::{Failure, ModalResult, Parser};
use winnow_stream::{Stream, StreamIsPartial};

/// The parser of a format; [`reading`] makes it.
#[derive(Clone, Copy, Drop)]
pub struct ReadOf<F> {
    format: F,
}

/// Returns the parser that reads a format.
pub fn reading<F>(format: F) -> ReadOf<F>
    ensures { result ≡ record { format = format } }
{
    ReadOf { format }
}

impl<I: StreamIsPartial<Token = u8>, E: ParserError<I>, F: Format> Parser<I, E> for ReadOf<F> {
    type Output = F::Value;

    ghost means = { λ p. Reads (F.spells p.format) };

    ghost errors = { λ _. AnyError };

    ghost ready = { λ _. Unit {0} };

    ghost lawful = { λ p. IsParser-Reads (F.spells p.format) };

    fn parse_next(&self, alloc: Global, input: &mut I) -> ModalResult<F::Value, E> {
        let start = input.checkpoint();
        match self.format.read(alloc, input) {
            Ok(value) => Ok(value),
            Err(failure) => match failure {
                Failure::Backtrack(error) => Err(Failure::Backtrack(error)),
                Failure::Cut(error) => Err(Failure::Cut(error)),
                Failure::Incomplete(needed) => {
                    input.reset(&start);
                    Err(Failure::Incomplete(needed))
                }
                Failure::Refused(refused) => {
                    input.reset(&start);
                    Err(Failure::Refused(refused))
                }
            },
        }
    }
}
