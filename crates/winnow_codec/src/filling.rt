//! One value that fills a part (`filled_by`), and values to its end (`list_to_end`).

ghost use Rattle.std.specs.Prelude.{◌≡◌};
ghost use Rattle.winnow_codec.specs.Lists.{HaveSameItems};
ghost use Rattle.winnow_codec.specs.WholeFormats.{ReadsFirst, SpellsToEnd};
ghost use Rattle.winnow_codec.specs.WholeFormats.{IsWhole-Format, IsWhole-ToEnd};

use crate::lists::write_items;
use crate::some_bytes::SomeBytes;
use crate::{Format, Unread, Unwritten, Whole};
use std::alloc::Global;
use winnow_error::EmptyError;
use winnow_parser::{Failure, ModalResult};

/// The format of a part that one value fills; [`filled_by`] makes it.
#[derive(Clone, Copy, Drop)]
pub struct Filled<F> {
    inner: F,
}

/// Returns the format of a part that one value fills.
pub fn filled_by<F>(inner: F) -> Filled<F>
    ensures { result ≡ record { inner = inner } }
{
    Filled { inner }
}

/// Reads a value from the front of bytes that are all there, and moves past it, as a
/// [`Whole`](crate::Whole) of your own reads its parts. If no value is spelled at their front, it
/// is `Malformed`, and then, and if memory is refused, no contract says which bytes are left.
pub fn read_first<F: Format>(
    format: &F,
    alloc: Global,
    input: &mut &[u8],
) -> Result<F::Value, Unread>
    ensures { ReadsFirst (F.spells format.now) input.old.now result input.new.now }
{
    let read: ModalResult<F::Value, EmptyError> = format.read(alloc, input);
    match read {
        Ok(value) => Ok(value),
        Err(failure) => match failure {
            Failure::Backtrack(_) => Err(Unread::Malformed),
            Failure::Cut(_) => Err(Unread::Malformed),
            Failure::Incomplete(_) => Err(Unread::Malformed),
            Failure::Refused(refused) => Err(Unread::Refused(refused)),
        },
    }
}

impl<F: Format> Whole for Filled<F>
where
    F::Value: Drop,
{
    type Value = F::Value;

    ghost spells = { λ f. F.spells f.inner };

    ghost same = { F.same };

    ghost lawful = { λ f. IsWhole-Format F.same (F.spells f.inner) (F.lawful f.inner) };

    fn read_whole(&self, alloc: Global, part: &[u8]) -> Result<F::Value, Unread> {
        let mut rest = part;
        match read_first(&self.inner, alloc, &mut rest) {
            Ok(value) => {
                if rest.is_empty() {
                    Ok(value)
                } else {
                    Err(Unread::Malformed)
                }
            }
            Err(unread) => Err(unread),
        }
    }

    fn write(&self, value: &F::Value, bytes: &mut Vec<u8>) -> Result<(), Unwritten> {
        self.inner.write(value, bytes)
    }
}

/// The format of a list to the end of its part; [`list_to_end`] makes it.
#[derive(Clone, Copy, Drop)]
pub struct ListToEnd<F> {
    item: SomeBytes<F>,
}

/// Returns the format of a list to the end of its part. Each value has at least one byte: one that
/// no byte spells is neither read nor written.
pub fn list_to_end<F>(item: F) -> ListToEnd<F>
    ensures { result ≡ record { item = record { inner = item } } }
{
    ListToEnd {
        item: SomeBytes { inner: item },
    }
}

impl<F: Format> Whole for ListToEnd<F>
where
    F::Value: Drop,
{
    type Value = Vec<F::Value>;

    ghost spells = { λ f. SpellsToEnd (F.spells f.item.inner) };

    ghost same = { HaveSameItems F.same };

    ghost lawful = { λ f. IsWhole-ToEnd F.same (F.spells f.item.inner) (F.lawful f.item.inner) };

    fn read_whole(&self, alloc: Global, part: &[u8]) -> Result<Vec<F::Value>, Unread> {
        let mut rest = part;
        let mut items = Vec::new(alloc);
        while !rest.is_empty() {
            match read_first(&self.item, alloc, &mut rest) {
                Ok(value) => match items.push(value) {
                    Ok(()) => {}
                    Err(failed) => return Err(Unread::Refused(failed.into())),
                },
                Err(unread) => return Err(unread),
            }
        }
        Ok(items)
    }

    fn write(&self, value: &Vec<F::Value>, bytes: &mut Vec<u8>) -> Result<(), Unwritten> {
        write_items(&self.item, value, bytes)
    }
}
