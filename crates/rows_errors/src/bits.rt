//! Errors at bits and at their bytes, converted to one another.
use crate::printed::debugged;
use rows::{Fault, Words};
use std::alloc::Global;
use winnow_error::ErrMode::Cut;
use winnow_error::{ErrMode, ErrorConvert, InputError};
use winnow_views::Bits;

type AtBytes<'w> = InputError<&'w [u8]>;

type AtBits<'w> = InputError<Bits<&'w [u8]>>;

/// Answers a question about an error at bytes, or at their bits from a place on.
pub fn answer(alloc: Global, question: &str, input: &Words) -> Result<String, Fault> {
    let bytes = input.bytes(0)?;
    if question == "to_bits" {
        let at_bits: AtBits = InputError::at(bytes).convert(alloc)?;
        return debugged(alloc, "", &at_bits);
    }
    let place = input.number(1)?;
    if place >= 8 {
        return Err(Fault::NoSuchCall);
    }
    let at_bits = InputError::at(Bits::at_place(bytes, place));
    match question {
        "to_bytes" => {
            let at_bytes: AtBytes = at_bits.convert(alloc)?;
            debugged(alloc, "", &at_bytes)
        }
        "mode_to_bytes" => {
            let cut: ErrMode<AtBytes> = Cut(at_bits).convert(alloc)?;
            debugged(alloc, "", &cut)
        }
        _ => Err(Fault::NoSuchCall),
    }
}
