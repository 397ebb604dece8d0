//! The format of items to a depth: `items`.

ghost use Rattle.std.specs.Prelude.{◌≡◌};
ghost use Rattle.format_cbor.specs.Items.{SpellsItem, AreSame};
ghost use Rattle.format_cbor.specs.ItemLaws.{IsFormat-Item};

use crate::Item;
use crate::item_reading::read_item;
use crate::item_writing::write_item;
use std::alloc::Global;
use winnow_codec::{Format, Unwritten};
use winnow_error::ParserError;
use winnow_parser::ModalResult;
use winnow_stream::StreamIsPartial;

/// The format of items; [`items`] makes it.
#[derive(Clone, Copy, Debug, Drop)]
pub struct ItemFormat {
    longest: usize,
    depth: usize,
}

/// Returns the format of items within at most `depth` arrays, maps and tags, of which strings have
/// at most `longest` bytes. Calls are nested as deep as the items, so `depth` limits the stack.
///
/// The keys of a map are in the bytewise lexicographic order of their spellings, and none is there
/// twice (section 4.2.1). The first key out of order is refused before its value is read.
///
/// ```
/// assert_eq!(rt; text_of(alloc, &items(100, 1), b"\x81\x80")?.as_str(), "Array([Array([])])");
/// ```
pub fn items(longest: usize, depth: usize) -> ItemFormat
    ensures { result ≡ record { longest = longest; depth = depth } }
{
    ItemFormat { longest, depth }
}

impl Format for ItemFormat {
    type Value = Item;

    ghost spells = { λ f. SpellsItem f.longest f.depth };

    ghost same = { AreSame };

    ghost lawful = { λ f. IsFormat-Item f.longest f.depth };

    fn read<I: StreamIsPartial<Token = u8>, E: ParserError<I>>(
        &self,
        alloc: Global,
        input: &mut I,
    ) -> ModalResult<Item, E> {
        read_item(self.longest, self.depth, alloc, input)
    }

    fn write(&self, value: &Item, bytes: &mut Vec<u8>) -> Result<(), Unwritten> {
        write_item(self.longest, self.depth, value, bytes)
    }
}
