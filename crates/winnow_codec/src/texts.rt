//! A text that fills a part: `text`.

ghost use Rattle.winnow_codec.specs.FormatTexts.{SpellsText, HaveSameText, IsWhole-Text};

use crate::{Unread, Unwritten, Whole};
use std::alloc::Global;

/// The format of a text that fills a part; [`text`] makes it.
#[derive(Clone, Copy)]
pub struct Utf8Text;

/// Returns the format of a text in UTF-8 that fills a part: `within(count, text())` is a text after
/// the number of its bytes, `till(b"\0", text())` a text up to an end mark. A part that is not UTF-8
/// is not read.
///
/// ```
/// let name = within(count_of(u8()), text());
/// assert_eq!(rt; read_all(alloc, &name, b"\x03h\xc3\xa9")?.as_str(), "hé");
/// ```
pub fn text() -> Utf8Text {
    Utf8Text
}

impl Whole for Utf8Text {
    type Value = String;

    ghost spells = { λ _. SpellsText };

    ghost same = { HaveSameText };

    ghost lawful = { λ _. IsWhole-Text };

    fn read_whole(&self, alloc: Global, part: &[u8]) -> Result<String, Unread> {
        match str::from_utf8(part) {
            Ok(text) => match String::from_str(alloc, text) {
                Ok(owned) => Ok(owned),
                Err(refused) => Err(Unread::Refused(refused)),
            },
            Err(_) => Err(Unread::Malformed),
        }
    }

    fn write(&self, value: &String, bytes: &mut Vec<u8>) -> Result<(), Unwritten> {
        match bytes.extend_from_slice(value.as_str().as_bytes()) {
            Ok(()) => Ok(()),
            Err(refused) => Err(Unwritten::Refused(refused)),
        }
    }
}
