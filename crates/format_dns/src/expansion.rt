//! `expand`: a name whose pointers are followed.

ghost use Rattle.std.specs.Prelude.{◌≡◌, drop, IfOk, IfErr};
ghost use Rattle.format_dns.specs.Pointers.{Expands, IsWhyNot, AppendsName, IsWhyNone};
ghost use Rattle.format_dns.specs.declared.name.Name.{Name};

use crate::name_format::write_labels;
use crate::{Ending, Name, names};
use std::alloc::{AllocError, Global};
use winnow_codec::{Unread, Unwritten, read_first};

// A pointer has 14 bits.
const PLACES: u16 = 16_384;

// A name of more bytes is none, with its root (section 2.3.4).
const LONGEST: usize = 254;

/// Why a name is not expanded.
#[derive(Debug, Drop)]
pub enum Unexpanded {
    /// No name stands at the place to which this pointer leads
    NoName(u16),
    /// This pointer leads no further back than the one before it
    NotBack(u16),
    /// The name has more than 255 bytes
    TooLong,
    /// A label of the name itself is empty, or longer than 63 bytes
    Unspelled,
    /// Memory was refused
    Refused(AllocError),
}

// Returns the bytes of a message from this place on.
fn bytes_from(message: &[u8], place: u16) -> &[u8]
    ensures { result.now ≡ drop place message.now }
{
    if message.len() <= place as usize {
        return b"";
    }
    &message[place as usize..]
}

// Appends the labels of the name that stands at the place, and returns what ends them.
fn append_name(
    alloc: Global,
    message: &[u8],
    place: u16,
    text: &mut Vec<u8>,
) -> Result<Ending, Unexpanded>
    ensures appended { IfOk result (λ ending. (n : Name) × ((ending ≡ n.ending)
        × AppendsName message.now place text.old.items n text.new.items)) }
    ensures failed { IfErr result (IsWhyNone message.now place) }
{
    let mut rest = bytes_from(message, place);
    let name = match read_first(&names(), alloc, &mut rest) {
        Ok(name) => name,
        Err(Unread::Malformed) => return Err(Unexpanded::NoName(place)),
        Err(Unread::Refused(refused)) => return Err(Unexpanded::Refused(refused)),
    };
    match write_labels(&name.labels, text) {
        Ok(()) => Ok(name.ending),
        Err(Unwritten::Unspelled) => unreachable!(),
        Err(Unwritten::Refused(refused)) => Err(Unexpanded::Refused(refused)),
    }
}

/// Returns the bytes of a name of this message with its pointers followed: its labels, each after
/// its length, and the root. [`names`] reads them.
///
/// Each pointer must lead further back than the one before it, so that none leads in a circle.
pub fn expand(alloc: Global, message: &[u8], name: &Name) -> Result<Vec<u8>, Unexpanded>
    ensures expanded { IfOk result (λ bytes. Expands message.now name.now bytes.items) }
    ensures failed { IfErr result (IsWhyNot message.now name.now) }
{
    let mut text = Vec::new(alloc);
    match write_labels(&name.labels, &mut text) {
        Ok(()) => {}
        Err(Unwritten::Unspelled) => return Err(Unexpanded::Unspelled),
        Err(Unwritten::Refused(refused)) => return Err(Unexpanded::Refused(refused)),
    }
    let mut ending = name.ending;
    let mut limit = PLACES;
    for _k in 0..PLACES + 1 {
        if LONGEST < text.len() {
            return Err(Unexpanded::TooLong);
        }
        let Ending::Pointer(place) = ending else {
            return match text.push(0) {
                Ok(()) => Ok(text),
                Err(failed) => Err(Unexpanded::Refused(failed.into())),
            };
        };
        if limit <= place {
            return Err(Unexpanded::NotBack(place));
        }
        match append_name(alloc, message, place, &mut text) {
            Ok(next) => ending = next,
            Err(unexpanded) => return Err(unexpanded),
        }
        limit = place;
    }
    unreachable!()
}
