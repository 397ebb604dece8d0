//! All bytes of a part: `rest`.

ghost use Rattle.winnow_codec.specs.WholeFormats.{SpellsRest, AreSameRest, IsWhole-Rest};

use crate::{Unread, Unwritten, Whole};
use std::alloc::Global;

/// The format of all bytes of a part; [`rest`] makes it.
#[derive(Clone, Copy)]
pub struct RestBytes;

/// Returns the format of all bytes of a part.
pub fn rest() -> RestBytes {
    RestBytes
}

impl Whole for RestBytes {
    type Value = Vec<u8>;

    ghost spells = { λ _. SpellsRest };

    ghost same = { AreSameRest };

    ghost lawful = { λ _. IsWhole-Rest };

    fn read_whole(&self, alloc: Global, part: &[u8]) -> Result<Vec<u8>, Unread> {
        match Vec::from_slice(alloc, part) {
            Ok(bytes) => Ok(bytes),
            Err(refused) => Err(Unread::Refused(refused)),
        }
    }

    fn write(&self, value: &Vec<u8>, bytes: &mut Vec<u8>) -> Result<(), Unwritten> {
        match bytes.extend_from_slice(value) {
            Ok(()) => Ok(()),
            Err(refused) => Err(Unwritten::Refused(refused)),
        }
    }
}
