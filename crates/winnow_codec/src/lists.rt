//! Lists after the number of their values: `list_after`.

ghost use Rattle.std.specs.Prelude.{◌≡◌, length};
ghost use Rattle.winnow_parser.specs.Answer.{ahead, outcome};
ghost use Rattle.winnow_codec.specs.Formats.{Reads};
ghost use Rattle.winnow_codec.specs.Lists.{SpellsEach, SpellsItems};
ghost use Rattle.winnow_codec.specs.Lists.{SpellsItemsAfter, HaveSameItems, IsFormat-ItemsAfter};
ghost use Rattle.winnow_codec.specs.Writing.{Writes};

use crate::{Exact, Format, Unwritten};
use std::alloc::Global;
use winnow_error::ParserError;
use winnow_parser::{Failure, ModalResult};
use winnow_stream::StreamIsPartial;

/// The format of a list after the number of its values; [`list_after`] makes it.
#[derive(Clone, Copy, Drop)]
pub struct Listed<C, F> {
    count: C,
    item: F,
}

/// Returns the format of a list after the number of its values.
pub fn list_after<C, F>(count: C, item: F) -> Listed<C, F>
    ensures { result ≡ record { count = count; item = item } }
{
    Listed { count, item }
}

// Reads that many values. Memory is asked for as values come, never for the count.
pub(crate) fn read_items<I: StreamIsPartial<Token = u8>, E: ParserError<I>, F: Format>(
    item: &F,
    count: usize,
    alloc: Global,
    input: &mut I,
) -> ModalResult<Vec<F::Value>, E>
where
    F::Value: Drop,
    requires { I.valid input.old }
    ensures means { Reads (SpellsItems (F.spells item.now) count) (I.expects_more input.old)
        (ahead I.location I.remaining input.old)
        (outcome result (ahead I.location I.remaining input.new)) }
    ensures valid { I.valid input.new }
    ensures kept { I.keeps input.old input.new }
{
    let mut items = Vec::new(alloc);
    for _k in 0..count {
        match item.read(alloc, input) {
            Ok(value) => match items.push(value) {
                Ok(()) => {}
                Err(failed) => return Err(Failure::Refused(failed.into())),
            },
            Err(failure) => return Err(failure),
        }
    }
    Ok(items)
}

// Appends the bytes that spell the values, one after the other.
pub(crate) fn write_items<F: Format>(
    item: &F,
    values: &[F::Value],
    bytes: &mut Vec<u8>,
) -> Result<(), Unwritten>
    ensures { Writes (SpellsEach (F.spells item.now)) values.now bytes.old.items result
        bytes.new.items }
{
    let start = bytes.len();
    for value in values {
        match item.write(value, bytes) {
            Ok(()) => {}
            Err(unwritten) => {
                bytes.truncate(start);
                return Err(unwritten);
            }
        }
    }
    Ok(())
}

impl<C: Exact<Value = usize>, F: Format> Format for Listed<C, F>
where
    F::Value: Drop,
{
    type Value = Vec<F::Value>;

    ghost spells = { λ f. SpellsItemsAfter (C.spells f.count) (F.spells f.item) };

    ghost same = { HaveSameItems F.same };

    ghost lawful = { λ f. IsFormat-ItemsAfter F.same (F.spells f.item) (F.lawful f.item) C.same
        (C.spells f.count) C.exact (C.lawful f.count) };

    fn read<I: StreamIsPartial<Token = u8>, E: ParserError<I>>(
        &self,
        alloc: Global,
        input: &mut I,
    ) -> ModalResult<Vec<F::Value>, E> {
        match self.count.read(alloc, input) {
            Ok(count) => match read_items(&self.item, count, alloc, input) {
                Ok(items) => Ok(items),
                Err(failure) => Err(failure),
            },
            Err(failure) => Err(failure),
        }
    }

    fn write(&self, value: &Vec<F::Value>, bytes: &mut Vec<u8>) -> Result<(), Unwritten> {
        let start = bytes.len();
        let count = value.len();
        self.count.write(&count, bytes)?;
        match write_items(&self.item, value, bytes) {
            Ok(()) => Ok(()),
            Err(unwritten) => {
                bytes.truncate(start);
                Err(unwritten)
            }
        }
    }
}
