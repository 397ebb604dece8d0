ghost use Rattle.winnow_parser.specs.Meanings.{Returns};
ghost use Rattle.winnow_parser.specs.Errors.{NoError};
ghost use Rattle.winnow_parser.specs.Parts.{IsParser-Returns};

use std::alloc::Global;
use winnow_parser::{ModalResult, Parser};
use winnow_stream::StreamIsPartial;

/// A parser of nothing; [`empty`] makes it.
#[derive(Clone, Copy, Debug)]
pub struct Empty;

impl<I: StreamIsPartial, E> Parser<I, E> for Empty {
    type Output = ();

    ghost means = { λ _. Returns tt };

    ghost errors = { λ _. NoError };

    ghost ready = { λ _. Unit {0} };

    ghost lawful = { λ _. IsParser-Returns tt };

    fn parse_next(&self, _alloc: Global, _input: &mut I) -> ModalResult<(), E> {
        Ok(())
    }
}
