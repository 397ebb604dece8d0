//! Writing an item to a depth.

ghost use Rattle.std.specs.Prelude.{[], OnOk};
ghost use Rattle.winnow_codec.specs.Lists.{SpellsEach};
ghost use Rattle.winnow_codec.specs.Writing.{Writes};
ghost use Rattle.format_cbor.specs.Entries.{SpellsEntries, SpellsEntry, SpellsValue};
ghost use Rattle.format_cbor.specs.Items.{item_head, SpellsContents, SpellsWithin, SpellsItem};
ghost use Rattle.format_cbor.specs.declared.item.Item.TheViews.{out-Item};

use crate::entry::is_before;
use crate::item::item_head;
use crate::scalar_format::write_body;
use crate::{Item, heads};
use winnow_codec::{Format, Unwritten};

// Appends an item that stands within fewer than `depth` arrays, maps and tags.
#[cycle(writing)]
pub(crate) fn write_within(
    longest: usize,
    depth: usize,
    item: &Item,
    bytes: &mut Vec<u8>,
) -> Result<(), Unwritten>
    ensures { Writes (SpellsWithin longest depth) item.now bytes.old.items result
        bytes.new.items }
{
    if depth == 0 {
        return Err(Unwritten::Unspelled);
    }
    match write_item(longest, depth - 1, item, bytes) {
        Ok(()) => Ok(()),
        Err(unwritten) => Err(unwritten),
    }
}

// Appends an item that stands within at most `depth` arrays, maps and tags.
#[cycle(writing)]
pub(crate) fn write_item(
    longest: usize,
    depth: usize,
    item: &Item,
    bytes: &mut Vec<u8>,
) -> Result<(), Unwritten>
    ensures { Writes (SpellsItem longest depth) item.now bytes.old.items result bytes.new.items }
{
    let start = bytes.len();
    match heads().write(&item_head(item), bytes) {
        Ok(()) => {}
        Err(unwritten) => return Err(unwritten),
    }
    match write_contents(longest, depth, item, bytes) {
        Ok(()) => Ok(()),
        Err(unwritten) => {
            bytes.truncate(start);
            Err(unwritten)
        }
    }
}

// Appends what follows the head of an item.
#[cycle(writing)]
fn write_contents(
    longest: usize,
    depth: usize,
    item: &Item,
    bytes: &mut Vec<u8>,
) -> Result<(), Unwritten>
    ensures { Writes (SpellsContents longest (SpellsWithin longest depth)
        (item_head (out-Item item.now))) item.now bytes.old.items result bytes.new.items }
{
    match item {
        Item::Scalar(scalar) => write_body(longest, scalar, bytes),
        Item::Array(items) => write_items(longest, depth, items, bytes),
        Item::Map(entries) => write_entries(longest, depth, entries, bytes),
        Item::Tagged(_, tagged) => write_within(longest, depth, tagged, bytes),
    }
}

// Appends the items of an array.
#[cycle(writing)]
fn write_items(
    longest: usize,
    depth: usize,
    items: &[Item],
    bytes: &mut Vec<u8>,
) -> Result<(), Unwritten>
    ensures { Writes (SpellsEach (SpellsWithin longest depth)) items.now bytes.old.items result
        bytes.new.items }
{
    let start = bytes.len();
    for item in items {
        match write_within(longest, depth, item, bytes) {
            Ok(()) => {}
            Err(unwritten) => {
                bytes.truncate(start);
                return Err(unwritten);
            }
        }
    }
    Ok(())
}

// Appends the keys of a map, which have to be in order, each before its value.
#[cycle(writing)]
fn write_entries(
    longest: usize,
    depth: usize,
    entries: &[(Item, Item)],
    bytes: &mut Vec<u8>,
) -> Result<(), Unwritten>
    ensures { Writes (SpellsEntries (SpellsWithin longest depth) []) entries.now bytes.old.items
        result bytes.new.items }
{
    let start = bytes.len();
    let mut last = Vec::new(*bytes.allocator());
    for entry in entries {
        match write_entry(longest, depth, &mut last, entry, bytes) {
            Ok(()) => {}
            Err(unwritten) => {
                bytes.truncate(start);
                return Err(unwritten);
            }
        }
    }
    Ok(())
}

// Appends a key, whose spelling has to be after the last one, and its value. The key's spelling is
// then the last one: it is made in memory of its own, so that no key is written twice.
#[cycle(writing)]
fn write_entry(
    longest: usize,
    depth: usize,
    last: &mut Vec<u8>,
    entry: &(Item, Item),
    bytes: &mut Vec<u8>,
) -> Result<(), Unwritten>
    ensures written { Writes (SpellsEntry (SpellsWithin longest depth) last.old.items) entry.now
        bytes.old.items result bytes.new.items }
    ensures spelling { OnOk result (SpellsWithin longest depth entry.now.0 last.new.items) }
{
    let mut key = Vec::new(*bytes.allocator());
    match write_within(longest, depth, &entry.0, &mut key) {
        Ok(()) => {}
        Err(unwritten) => return Err(unwritten),
    }
    if !is_before(last, &key) {
        return Err(Unwritten::Unspelled);
    }
    match write_value(longest, depth, &key, &entry.1, bytes) {
        Ok(()) => {}
        Err(unwritten) => return Err(unwritten),
    }
    *last = key;
    Ok(())
}

// Appends the bytes of a key, and then a value.
#[cycle(writing)]
fn write_value(
    longest: usize,
    depth: usize,
    key: &[u8],
    value: &Item,
    bytes: &mut Vec<u8>,
) -> Result<(), Unwritten>
    ensures { Writes (SpellsValue (SpellsWithin longest depth) key.now) value.now bytes.old.items
        result bytes.new.items }
{
    let start = bytes.len();
    match bytes.extend_from_slice(key) {
        Ok(()) => {}
        Err(refused) => return Err(Unwritten::Refused(refused)),
    }
    match write_within(longest, depth, value, bytes) {
        Ok(()) => Ok(()),
        Err(unwritten) => {
            bytes.truncate(start);
            Err(unwritten)
        }
    }
}
