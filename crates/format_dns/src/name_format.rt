//! The format of names: `names`.

ghost use Rattle.std.specs.Prelude.{◌≡◌, ◌++◌, ◌∷◌, [], map, OnOk};
ghost use Rattle.winnow_parser.specs.Answer.{ahead, outcome};
ghost use Rattle.winnow_codec.specs.Formats.{Reads};
ghost use Rattle.winnow_codec.specs.Lists.{SpellsEach};
ghost use Rattle.winnow_codec.specs.Writing.{Writes};
ghost use Rattle.winnow_codec.specs.declared.choice.Choice.TheVariants.{First, Other};
ghost use Rattle.format_dns.specs.Names.{SpellsName, AreSameName, IsFormat-Name, SpellsLabels};
ghost use Rattle.format_dns.specs.Parts.{SpellsPart};

use crate::parts::{name_parts, write_ending_part, write_label_part};
use crate::{Ending, Name};
use std::alloc::Global;
use winnow_codec::{Choice, Format, Unwritten};
use winnow_error::ParserError;
use winnow_parser::{Failure, ModalResult};
use winnow_stream::StreamIsPartial;

// A name of 255 bytes has no more labels (section 2.3.4).
const MOST_LABELS: usize = 127;

/// The format of names; [`names`] makes it.
#[derive(Clone, Copy, Drop)]
pub struct NameFormat;

/// Returns the format of names as a message spells them: at most 127 labels, and then the root or a
/// pointer.
pub fn names() -> NameFormat {
    NameFormat
}

/// Appends labels.
pub(crate) fn write_labels(labels: &[Vec<u8>], bytes: &mut Vec<u8>) -> Result<(), Unwritten>
    ensures { Writes SpellsLabels labels.now bytes.old.items result bytes.new.items }
{
    let start = bytes.len();
    for label in labels {
        match write_label_part(label, bytes) {
            Ok(()) => {}
            Err(unwritten) => {
                bytes.truncate(start);
                return Err(unwritten);
            }
        }
    }
    Ok(())
}

impl Format for NameFormat {
    type Value = Name;

    ghost spells = { λ _. SpellsName };

    ghost same = { AreSameName };

    ghost lawful = { λ _. IsFormat-Name };

    fn read<I: StreamIsPartial<Token = u8>, E: ParserError<I>>(
        &self,
        alloc: Global,
        input: &mut I,
    ) -> ModalResult<Name, E> {
        let mut labels = Vec::new(alloc);
        for _k in 0..MOST_LABELS + 1 {
            match name_parts().read(alloc, input) {
                Ok(Choice::First(label)) => match labels.push(label) {
                    Ok(()) => {}
                    Err(failed) => return Err(Failure::Refused(failed.into())),
                },
                Ok(Choice::Other(ending)) => return Ok(Name { labels, ending }),
                Err(failure) => return Err(failure),
            }
        }
        Err(Failure::Backtrack(E::from_input(alloc, input)))
    }

    fn write(&self, value: &Name, bytes: &mut Vec<u8>) -> Result<(), Unwritten> {
        if MOST_LABELS < value.labels.len() {
            return Err(Unwritten::Unspelled);
        }
        let start = bytes.len();
        match write_labels(&value.labels, bytes) {
            Ok(()) => {}
            Err(unwritten) => return Err(unwritten),
        }
        match write_ending_part(value.ending, bytes) {
            Ok(()) => Ok(()),
            Err(unwritten) => {
                bytes.truncate(start);
                Err(unwritten)
            }
        }
    }
}
