//! A reference to a format as a format.

use crate::{Exact, Format, Unwritten};
use std::alloc::Global;
use winnow_error::ParserError;
use winnow_parser::ModalResult;
use winnow_stream::StreamIsPartial;

/// A reference reads and writes as the format that it refers to.
impl<F: Format> Format for &F {
    type Value = F::Value;

    ghost spells = { λ f. F.spells f.now };

    ghost same = { F.same };

    ghost lawful = { λ f. F.lawful f.now };

    #[inline(always)]
    fn read<I: StreamIsPartial<Token = u8>, E: ParserError<I>>(
        &self,
        alloc: Global,
        input: &mut I,
    ) -> ModalResult<F::Value, E> {
        (**self).read(alloc, input)
    }

    #[inline(always)]
    fn write(&self, value: &F::Value, bytes: &mut Vec<u8>) -> Result<(), Unwritten> {
        (**self).write(value, bytes)
    }
}

impl<F: Exact> Exact for &F {
    ghost exact = { F.exact };

    #[inline(always)]
    fn equal(left: &F::Value, right: &F::Value) -> bool {
        F::equal(left, right)
    }
}
