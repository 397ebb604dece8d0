//! The parts of a name: `name_parts`.

ghost use Rattle.std.specs.Prelude.{◌≡◌, ◌<◌};
ghost use Rattle.winnow_codec.specs.Writing.{Writes};
ghost use Rattle.format_dns.specs.Parts.{first_of, SpellsAfter, SpellsPart};
ghost use Rattle.format_dns.specs.Parts.{AreSamePart, AreCases-After};
ghost use Rattle.winnow_codec.specs.declared.choice.Choice.TheVariants.{First, Other};

use crate::Ending;
use std::alloc::Global;
use winnow_codec::{Cases, Choice, Format, OneByte, Tagged, Unwritten, by_tag, byte, rest, sized};
use winnow_error::ParserError;
use winnow_parser::{Failure, ModalResult};
use winnow_stream::StreamIsPartial;

/// A part of a name: a label, or what ends the labels.
pub type NamePart = Choice<Vec<u8>, Ending>;

/// What follows the first byte of a part: below 64 it is the number of bytes of a label, where 0
/// ends the name at the root; from 192 on it begins a pointer (section 4.1.4). No other byte begins
/// a part.
#[derive(Clone, Copy, Drop)]
pub struct PartAfter;

/// Returns the format of the parts of a name.
pub fn name_parts() -> Tagged<OneByte, PartAfter> {
    by_tag(byte(), PartAfter)
}

// Appends a label without its length.
fn write_label(label: &Vec<u8>, bytes: &mut Vec<u8>) -> Result<(), Unwritten>
    ensures { Writes (SpellsAfter (first_of (First label.now))) (First label.now) bytes.old.items
        result bytes.new.items }
{
    if label.is_empty() || 63 < label.len() {
        return Err(Unwritten::Unspelled);
    }
    match bytes.extend_from_slice(label) {
        Ok(()) => Ok(()),
        Err(refused) => Err(Unwritten::Refused(refused)),
    }
}

/// Appends a label, with its length.
pub(crate) fn write_label_part(label: &Vec<u8>, bytes: &mut Vec<u8>) -> Result<(), Unwritten>
    ensures { Writes SpellsPart (First label.now) bytes.old.items result bytes.new.items }
{
    if label.is_empty() || 63 < label.len() {
        return Err(Unwritten::Unspelled);
    }
    let start = bytes.len();
    match bytes.push(label.len() as u8) {
        Ok(()) => {}
        Err(failed) => return Err(Unwritten::Refused(failed.into())),
    }
    match write_label(label, bytes) {
        Ok(()) => Ok(()),
        Err(unwritten) => {
            bytes.truncate(start);
            Err(unwritten)
        }
    }
}

/// Appends an ending.
pub(crate) fn write_ending_part(ending: Ending, bytes: &mut Vec<u8>) -> Result<(), Unwritten>
    ensures { Writes SpellsPart (Other ending) bytes.old.items result bytes.new.items }
{
    name_parts().write(&Choice::Other(ending), bytes)
}

// Appends an ending without its first byte.
fn write_ending(ending: Ending, bytes: &mut Vec<u8>) -> Result<(), Unwritten>
    ensures { Writes (SpellsAfter (first_of (Other ending))) (Other ending) bytes.old.items
        result bytes.new.items }
{
    let Ending::Pointer(place) = ending else {
        return Ok(());
    };
    if 16_383 < place {
        return Err(Unwritten::Unspelled);
    }
    match bytes.push((place % 256) as u8) {
        Ok(()) => Ok(()),
        Err(failed) => Err(Unwritten::Refused(failed.into())),
    }
}

impl Cases<OneByte> for PartAfter {
    type Value = NamePart;

    ghost spells = { λ _. SpellsAfter };

    ghost same = { AreSamePart };

    ghost tag_of = { λ _. first_of };

    ghost lawful = { λ _. AreCases-After };

    fn tag(&self, value: &NamePart) -> u8 {
        match value {
            Choice::First(label) => label.len().min(255) as u8,
            Choice::Other(Ending::Root) => 0,
            Choice::Other(Ending::Pointer(place)) => 192 + ((*place / 256).min(63) as u8),
        }
    }

    fn read_after<I: StreamIsPartial<Token = u8>, E: ParserError<I>>(
        &self,
        label: u8,
        alloc: Global,
        input: &mut I,
    ) -> ModalResult<NamePart, E> {
        if label == 0 {
            return Ok(Choice::Other(Ending::Root));
        }
        if label < 64 {
            return match sized(label as usize, rest()).read(alloc, input) {
                Ok(bytes) => Ok(Choice::First(bytes)),
                Err(failure) => Err(failure),
            };
        }
        if label < 192 {
            return Err(Failure::Backtrack(E::from_input(alloc, input)));
        }
        match byte().read(alloc, input) {
            Ok(low) => {
                let place = (label as u16 - 192) * 256 + low as u16;
                Ok(Choice::Other(Ending::Pointer(place)))
            }
            Err(failure) => Err(failure),
        }
    }

    fn write_after(&self, value: &NamePart, bytes: &mut Vec<u8>) -> Result<(), Unwritten> {
        match value {
            Choice::First(label) => write_label(label, bytes),
            Choice::Other(ending) => write_ending(*ending, bytes),
        }
    }
}
