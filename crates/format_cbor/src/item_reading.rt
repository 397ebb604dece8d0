//! Reading an item to a depth.

ghost use Rattle.std.specs.Prelude.{IfOk};
ghost use Rattle.winnow_parser.specs.Answer.{ahead, outcome};
ghost use Rattle.winnow_codec.specs.Formats.{Reads};
ghost use Rattle.winnow_codec.specs.Lists.{SpellsItems};
ghost use Rattle.format_cbor.specs.Entries.{SpellsKey, SpellsEntry, SpellsMap};
ghost use Rattle.format_cbor.specs.Items.{SpellsContents, SpellsWithin, SpellsItem};

use crate::entry::is_before;
use crate::item_writing::write_within;
use crate::scalar_format::read_body;
use crate::{Head, Item, Kind, heads};
use std::alloc::Global;
use winnow_codec::{Format, Unwritten};
use winnow_error::ParserError;
use winnow_parser::{Failure, ModalResult};
use winnow_stream::StreamIsPartial;

// Reads an item that stands within fewer than `depth` arrays, maps and tags.
#[cycle(reading)]
fn read_within<I: StreamIsPartial<Token = u8>, E: ParserError<I>>(
    longest: usize,
    depth: usize,
    alloc: Global,
    input: &mut I,
) -> ModalResult<Item, E>
    requires { I.valid input.old }
    ensures means { Reads (SpellsWithin longest depth) (I.expects_more input.old)
        (ahead I.location I.remaining input.old)
        (outcome result (ahead I.location I.remaining input.new)) }
    ensures valid { I.valid input.new }
    ensures kept { I.keeps input.old input.new }
{
    if depth == 0 {
        return Err(Failure::Backtrack(E::from_input(alloc, input)));
    }
    match read_item(longest, depth - 1, alloc, input) {
        Ok(item) => Ok(item),
        Err(failure) => Err(failure),
    }
}

// Reads an item that stands within at most `depth` arrays, maps and tags.
#[cycle(reading)]
pub(crate) fn read_item<I: StreamIsPartial<Token = u8>, E: ParserError<I>>(
    longest: usize,
    depth: usize,
    alloc: Global,
    input: &mut I,
) -> ModalResult<Item, E>
    requires { I.valid input.old }
    ensures means { Reads (SpellsItem longest depth) (I.expects_more input.old)
        (ahead I.location I.remaining input.old)
        (outcome result (ahead I.location I.remaining input.new)) }
    ensures valid { I.valid input.new }
    ensures kept { I.keeps input.old input.new }
{
    match heads().read(alloc, input) {
        Ok(label) => match read_contents(longest, depth, label, alloc, input) {
            Ok(item) => Ok(item),
            Err(failure) => Err(failure),
        },
        Err(failure) => Err(failure),
    }
}

// Reads what follows the head of an item.
#[cycle(reading)]
fn read_contents<I: StreamIsPartial<Token = u8>, E: ParserError<I>>(
    longest: usize,
    depth: usize,
    label: Head,
    alloc: Global,
    input: &mut I,
) -> ModalResult<Item, E>
    requires { I.valid input.old }
    ensures means { Reads (SpellsContents longest (SpellsWithin longest depth) label)
        (I.expects_more input.old) (ahead I.location I.remaining input.old)
        (outcome result (ahead I.location I.remaining input.new)) }
    ensures valid { I.valid input.new }
    ensures kept { I.keeps input.old input.new }
{
    let count = label.argument as usize;
    match label.kind {
        Kind::Array => match read_items(longest, depth, count, alloc, input) {
            Ok(items) => Ok(Item::Array(items)),
            Err(failure) => Err(failure),
        },
        Kind::Map => match read_entries(longest, depth, count, alloc, input) {
            Ok(entries) => Ok(Item::Map(entries)),
            Err(failure) => Err(failure),
        },
        Kind::Tag => match read_within(longest, depth, alloc, input) {
            Ok(item) => match Box::new(alloc, item) {
                Ok(boxed) => Ok(Item::Tagged(label.argument, boxed)),
                Err(failed) => Err(Failure::Refused(failed.into())),
            },
            Err(failure) => Err(failure),
        },
        _ => match read_body(longest, label, alloc, input) {
            Ok(scalar) => Ok(Item::Scalar(scalar)),
            Err(failure) => Err(failure),
        },
    }
}

// Reads the items of an array. Memory is asked for as items come, never for the count.
#[cycle(reading)]
fn read_items<I: StreamIsPartial<Token = u8>, E: ParserError<I>>(
    longest: usize,
    depth: usize,
    count: usize,
    alloc: Global,
    input: &mut I,
) -> ModalResult<Vec<Item>, E>
    requires { I.valid input.old }
    ensures means { Reads (SpellsItems (SpellsWithin longest depth) count)
        (I.expects_more input.old) (ahead I.location I.remaining input.old)
        (outcome result (ahead I.location I.remaining input.new)) }
    ensures valid { I.valid input.new }
    ensures kept { I.keeps input.old input.new }
{
    let mut items = Vec::new(alloc);
    for _k in 0..count {
        match read_within(longest, depth, alloc, input) {
            Ok(item) => match items.push(item) {
                Ok(()) => {}
                Err(failed) => return Err(Failure::Refused(failed.into())),
            },
            Err(failure) => return Err(failure),
        }
    }
    Ok(items)
}

// Reads the keys of a map, which have to be in order, each before its value.
#[cycle(reading)]
fn read_entries<I: StreamIsPartial<Token = u8>, E: ParserError<I>>(
    longest: usize,
    depth: usize,
    count: usize,
    alloc: Global,
    input: &mut I,
) -> ModalResult<Vec<(Item, Item)>, E>
    requires { I.valid input.old }
    ensures means { Reads (SpellsMap (SpellsWithin longest depth) count)
        (I.expects_more input.old) (ahead I.location I.remaining input.old)
        (outcome result (ahead I.location I.remaining input.new)) }
    ensures valid { I.valid input.new }
    ensures kept { I.keeps input.old input.new }
{
    let mut entries = Vec::new(alloc);
    let mut last = Vec::new(alloc);
    for _k in 0..count {
        match read_entry(longest, depth, &mut last, alloc, input) {
            Ok(entry) => match entries.push(entry) {
                Ok(()) => {}
                Err(failed) => return Err(Failure::Refused(failed.into())),
            },
            Err(failure) => return Err(failure),
        }
    }
    Ok(entries)
}

// Reads a key, whose spelling has to be after the last one, and its value. The key's spelling is
// then the last one.
#[cycle(reading)]
fn read_entry<I: StreamIsPartial<Token = u8>, E: ParserError<I>>(
    longest: usize,
    depth: usize,
    last: &mut Vec<u8>,
    alloc: Global,
    input: &mut I,
) -> ModalResult<(Item, Item), E>
    requires { I.valid input.old }
    ensures means { Reads (SpellsEntry (SpellsWithin longest depth) last.old.items)
        (I.expects_more input.old) (ahead I.location I.remaining input.old)
        (outcome result (ahead I.location I.remaining input.new)) }
    ensures spelling { IfOk result (λ entry. SpellsWithin longest depth entry.0 last.new.items) }
    ensures valid { I.valid input.new }
    ensures kept { I.keeps input.old input.new }
{
    match read_key(longest, depth, last, alloc, input) {
        Ok(key) => match read_within(longest, depth, alloc, input) {
            Ok(value) => Ok((key, value)),
            Err(failure) => Err(failure),
        },
        Err(failure) => Err(failure),
    }
}

// Reads a key, whose spelling has to be after the last one, and is then the last one. The writer
// makes it, since a stream keeps no bytes.
#[cycle(reading)]
fn read_key<I: StreamIsPartial<Token = u8>, E: ParserError<I>>(
    longest: usize,
    depth: usize,
    last: &mut Vec<u8>,
    alloc: Global,
    input: &mut I,
) -> ModalResult<Item, E>
    requires { I.valid input.old }
    ensures means { Reads (SpellsKey (SpellsWithin longest depth) last.old.items)
        (I.expects_more input.old) (ahead I.location I.remaining input.old)
        (outcome result (ahead I.location I.remaining input.new)) }
    ensures spelling { IfOk result (λ key. SpellsWithin longest depth key last.new.items) }
    ensures valid { I.valid input.new }
    ensures kept { I.keeps input.old input.new }
{
    let key = match read_within(longest, depth, alloc, input) {
        Ok(key) => key,
        Err(failure) => return Err(failure),
    };
    let mut spelling = Vec::new(alloc);
    match write_within(longest, depth, &key, &mut spelling) {
        Ok(()) => {}
        Err(Unwritten::Unspelled) => unreachable!(),
        Err(Unwritten::Refused(refused)) => return Err(Failure::Refused(refused)),
    }
    if !is_before(last, &spelling) {
        return Err(Failure::Backtrack(E::from_input(alloc, input)));
    }
    *last = spelling;
    Ok(key)
}
