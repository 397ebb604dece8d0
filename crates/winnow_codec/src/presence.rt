//! A part that is there if a flag says so: `optional`, `present_if`, `flag`.

ghost use Rattle.std.specs.Prelude.{◌≡◌, is_some};
ghost use Rattle.winnow_codec.specs.Presence.{flag_byte, flag-tells};
ghost use Rattle.winnow_codec.specs.Presence.{SpellsPresent, AreSamePresent};
ghost use Rattle.winnow_codec.specs.Presence.{IsFormat-Present, AreCases-Present};

use crate::one_byte::OneByte;
use crate::{
    ByCode, Cases, Coded, Exact, ExactCoded, Format, Tagged, Unwritten, by_code_of, by_tag,
};
use std::alloc::Global;
use winnow_error::ParserError;
use winnow_parser::ModalResult;
use winnow_stream::StreamIsPartial;

/// The code of `false` is 0, that of `true` is 1.
impl Coded<u8> for bool {
    ghost code = { flag_byte };

    fn from_code(number: u8) -> Option<Self> {
        match number {
            0 => Some(false),
            1 => Some(true),
            _ => None,
        }
    }

    fn to_code(&self) -> u8 {
        if *self { 1 } else { 0 }
    }
}

impl ExactCoded<u8> for bool {
    ghost tells = { flag-tells };
}

/// Returns the format of a flag of one byte: 0 is `false`, 1 is `true`, and no other byte is read.
pub fn flag() -> ByCode<bool, OneByte> {
    by_code_of(OneByte)
}

/// The format of a part that is there, or of nothing; [`present_if`] makes it.
#[derive(Clone, Copy, Drop)]
pub struct PresentIf<F> {
    present: bool,
    part: F,
}

/// Returns the format of a part if it is there, and of nothing if it is not, as a value that was
/// read before says: [`choose_next`](crate::choose_next) reads that value. If the part is there,
/// `None` is not written, and if it is not, `Some` is not.
///
/// ```
/// assert_eq!(rt; read_all(alloc, &present_if(true, be_u16()), b"\0\x50")?, Some(80));
/// assert_eq!(rt; read_all(alloc, &present_if(false, be_u16()), b"")?, None);
/// ```
pub fn present_if<F>(present: bool, part: F) -> PresentIf<F>
    ensures { result ≡ record { present = present; part = part } }
{
    PresentIf { present, part }
}

impl<F: Format> Format for PresentIf<F> {
    type Value = Option<F::Value>;

    ghost spells = { λ f. SpellsPresent (F.spells f.part) f.present };

    ghost same = { AreSamePresent F.same };

    ghost lawful = { λ f. IsFormat-Present F.same (F.spells f.part) (F.lawful f.part) f.present };

    fn read<I: StreamIsPartial<Token = u8>, E: ParserError<I>>(
        &self,
        alloc: Global,
        input: &mut I,
    ) -> ModalResult<Option<F::Value>, E> {
        if self.present {
            match self.part.read(alloc, input) {
                Ok(value) => Ok(Some(value)),
                Err(failure) => Err(failure),
            }
        } else {
            Ok(None)
        }
    }

    fn write(&self, value: &Option<F::Value>, bytes: &mut Vec<u8>) -> Result<(), Unwritten> {
        match value {
            Some(part) if self.present => self.part.write(part, bytes),
            None if !self.present => Ok(()),
            _ => Err(Unwritten::Unspelled),
        }
    }
}

/// What follows a flag: the part if the flag is set, and nothing if it is not.
#[derive(Clone, Copy, Drop)]
pub struct Presence<F> {
    part: F,
}

/// Returns the format of a part after a flag: `Some` if the flag is set, and `None`, with no bytes
/// after the flag, if it is not. [`flag`] is a flag of one byte.
///
/// ```
/// let number = optional(flag(), le_u32());
/// assert_eq!(rt; read_all(alloc, &number, b"\x01\x07\0\0\0")?, Some(7));
/// assert_eq!(rt; read_all(alloc, &number, b"\0")?, None);
/// ```
pub fn optional<B, F>(flags: B, part: F) -> Tagged<B, Presence<F>>
    ensures { result ≡ record { tags = flags; cases = record { part = part } } }
{
    by_tag(flags, Presence { part })
}

impl<B: Exact<Value = bool>, F: Format> Cases<B> for Presence<F> {
    type Value = Option<F::Value>;

    ghost spells = { λ c. SpellsPresent (F.spells c.part) };

    ghost same = { AreSamePresent F.same };

    ghost tag_of = { λ _. is_some };

    ghost lawful = { λ c. AreCases-Present F.same (F.spells c.part) (F.lawful c.part) };

    fn tag(&self, value: &Option<F::Value>) -> bool {
        value.is_some()
    }

    fn read_after<I: StreamIsPartial<Token = u8>, E: ParserError<I>>(
        &self,
        label: bool,
        alloc: Global,
        input: &mut I,
    ) -> ModalResult<Option<F::Value>, E> {
        let present = label;
        let part = &self.part;
        PresentIf { present, part }.read(alloc, input)
    }

    fn write_after(&self, value: &Option<F::Value>, bytes: &mut Vec<u8>) -> Result<(), Unwritten> {
        let present = value.is_some();
        let part = &self.part;
        PresentIf { present, part }.write(value, bytes)
    }
}
