//! A fixed number of values: `repeated`.

ghost use Rattle.std.specs.Prelude.{◌≡◌};
ghost use Rattle.winnow_codec.specs.Lists.{SpellsItems, HaveSameItems, IsFormat-Items};

use crate::lists::{read_items, write_items};
use crate::{Format, Unwritten};
use std::alloc::Global;
use winnow_error::ParserError;
use winnow_parser::ModalResult;
use winnow_stream::StreamIsPartial;

/// The format of a fixed number of values; [`repeated`] makes it.
#[derive(Clone, Copy, Drop)]
pub struct FixedList<F> {
    count: usize,
    item: F,
}

/// Returns the format of this number of values, one after the other, with no count before them. A
/// vector of fewer or more values has no spelling.
///
/// ```
/// let point = repeated(3, be_u16());
/// let numbers = read_all(alloc, &point, b"\0\x01\0\x02\0\x03")?;
/// assert_eq!(rt; numbers.as_slice(), [1, 2, 3].as_slice());
/// ```
pub fn repeated<F>(count: usize, item: F) -> FixedList<F>
    ensures { result ≡ record { count = count; item = item } }
{
    FixedList { count, item }
}

impl<F: Format> Format for FixedList<F>
where
    F::Value: Drop,
{
    type Value = Vec<F::Value>;

    ghost spells = { λ f. SpellsItems (F.spells f.item) f.count };

    ghost same = { HaveSameItems F.same };

    ghost lawful = { λ f. IsFormat-Items F.same (F.spells f.item) (F.lawful f.item) f.count };

    fn read<I: StreamIsPartial<Token = u8>, E: ParserError<I>>(
        &self,
        alloc: Global,
        input: &mut I,
    ) -> ModalResult<Vec<F::Value>, E> {
        read_items(&self.item, self.count, alloc, input)
    }

    fn write(&self, value: &Vec<F::Value>, bytes: &mut Vec<u8>) -> Result<(), Unwritten> {
        if value.len() == self.count {
            write_items(&self.item, value, bytes)
        } else {
            Err(Unwritten::Unspelled)
        }
    }
}
