//! The argument of a head, as the additional information of its initial byte says: `Argument`.

ghost use Rattle.std.specs.Prelude.{◌≡◌, ◌<◌, ◌≤◌, ◌^◌, ◌↔◌, IsTrue};
ghost use Rattle.winnow_parser.specs.Answer.{ahead, outcome};
ghost use Rattle.winnow_codec.specs.Formats.{Reads, IsEqual};
ghost use Rattle.winnow_codec.specs.FormatNumbers.{bytes_in};
ghost use Rattle.winnow_codec.specs.Writing.{Writes};
ghost use Rattle.format_cbor.specs.Arguments.{SpellsBig, SpellsArgument, IsFormat-Argument};

use std::alloc::Global;
use winnow_codec::{BigEndian, ByteOrder, Format, Unwritten, Width};
use winnow_error::ParserError;
use winnow_parser::{Failure, ModalResult};
use winnow_stream::StreamIsPartial;

/// The format of the argument of a head (section 3), after its initial byte.
#[derive(Clone, Copy, Debug, Drop)]
pub enum Argument {
    /// The argument is in the initial byte, and no bytes follow
    Held(u8),
    /// The argument follows in this number of bytes, the most significant first
    Following(Width),
    /// There is none: the additional information is reserved, or begins an indefinite length
    Missing,
}

// Reads an argument of this number of bytes.
fn read_following<I: StreamIsPartial<Token = u8>, E: ParserError<I>>(
    width: Width,
    alloc: Global,
    input: &mut I,
) -> ModalResult<u64, E>
    requires { I.valid input.old }
    ensures means { Reads (SpellsBig (bytes_in width)) (I.expects_more input.old)
        (ahead I.location I.remaining input.old)
        (outcome result (ahead I.location I.remaining input.new)) }
    ensures valid { I.valid input.new }
    ensures kept { I.keeps input.old input.new }
{
    match input.offset_at(width.bytes()) {
        Ok(_) => Ok(BigEndian::read_number(width, input)),
        Err(needed) if input.is_partial() => Err(Failure::Incomplete(needed)),
        Err(_) => Err(Failure::Backtrack(E::from_input(alloc, input))),
    }
}

// Returns whether the number fits this number of bytes.
fn fits(width: Width, number: u64) -> bool
    ensures { IsTrue result ↔ number < 256 ^ bytes_in width }
{
    match width {
        Width::One => number < 256,
        Width::Two => number < 65536,
        Width::Three => number < 16_777_216,
        Width::Four => number < 4_294_967_296,
        Width::Eight => true,
    }
}

// Appends an argument of this number of bytes.
fn write_following(width: Width, number: u64, bytes: &mut Vec<u8>) -> Result<(), Unwritten>
    ensures { Writes (SpellsBig (bytes_in width)) number bytes.old.items result bytes.new.items }
{
    if !fits(width, number) {
        return Err(Unwritten::Unspelled);
    }
    match BigEndian::write_number(width, number, bytes) {
        Ok(()) => Ok(()),
        Err(refused) => Err(Unwritten::Refused(refused)),
    }
}

impl Format for Argument {
    type Value = u64;

    ghost spells = { λ f. SpellsArgument f };

    ghost same = { IsEqual };

    ghost lawful = { λ f. IsFormat-Argument f };

    fn read<I: StreamIsPartial<Token = u8>, E: ParserError<I>>(
        &self,
        alloc: Global,
        input: &mut I,
    ) -> ModalResult<u64, E> {
        match self {
            Argument::Held(number) => Ok(u64::from(*number)),
            Argument::Following(width) => match read_following(*width, alloc, input) {
                Ok(number) => Ok(number),
                Err(failure) => Err(failure),
            },
            Argument::Missing => Err(Failure::Backtrack(E::from_input(alloc, input))),
        }
    }

    fn write(&self, value: &u64, bytes: &mut Vec<u8>) -> Result<(), Unwritten> {
        match self {
            Argument::Held(number) => {
                if *value == u64::from(*number) {
                    Ok(())
                } else {
                    Err(Unwritten::Unspelled)
                }
            }
            Argument::Following(width) => match write_following(*width, *value, bytes) {
                Ok(()) => Ok(()),
                Err(unwritten) => Err(unwritten),
            },
            Argument::Missing => Err(Unwritten::Unspelled),
        }
    }
}
