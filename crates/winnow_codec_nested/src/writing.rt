//! Writing values that hold values of their own type.

ghost use Rattle.winnow_codec.specs.Lists.{SpellsEach};
ghost use Rattle.winnow_codec.specs.Writing.{Writes};
ghost use Rattle.winnow_codec_nested.specs.Layered.{SpellsNested};

use crate::Layered;
use winnow_codec::{Format, Unwritten};

// Appends the bytes that spell a value in at most this many layers.
#[cycle(writing)]
pub(crate) fn write_value<L, H>(
    layers: &L,
    heads: &H,
    depth: usize,
    value: &L::Value,
    bytes: &mut Vec<u8>,
) -> Result<(), Unwritten>
where
    L: Layered<Heads = H>,
    H: Format,
    H::Value: Drop,
    ensures { Writes (SpellsNested (H.spells heads.now) L.head_of L.held L.count_after depth)
        value.now bytes.old.items result bytes.new.items }
{
    if depth == 0 {
        return Err(Unwritten::Unspelled);
    }
    if layers.count_said(value) != layers.count(value) as u128 {
        return Err(Unwritten::Unspelled);
    }
    let start = bytes.len();
    match layers.write_head(heads, value, bytes) {
        Ok(()) => {}
        Err(unwritten) => return Err(unwritten),
    }
    match write_inners(layers, heads, depth - 1, value, bytes) {
        Ok(()) => Ok(()),
        Err(unwritten) => {
            bytes.truncate(start);
            Err(unwritten)
        }
    }
}

// Appends the bytes that spell the values that a value holds, one after the other.
#[cycle(writing)]
fn write_inners<L, H>(
    layers: &L,
    heads: &H,
    depth: usize,
    value: &L::Value,
    bytes: &mut Vec<u8>,
) -> Result<(), Unwritten>
where
    L: Layered<Heads = H>,
    H: Format,
    H::Value: Drop,
    ensures { Writes
        (SpellsEach (SpellsNested (H.spells heads.now) L.head_of L.held L.count_after depth))
        (L.held value.now) bytes.old.items result bytes.new.items }
{
    let start = bytes.len();
    for index in 0..layers.count(value) {
        match write_value(layers, heads, depth, layers.inner(value, index), bytes) {
            Ok(()) => {}
            Err(unwritten) => {
                bytes.truncate(start);
                return Err(unwritten);
            }
        }
    }
    Ok(())
}
