//! Converts an error at bits to an error at their bytes, and back, without taking memory.

ghost use Rattle.std.specs.Prelude.{◌≡◌};
ghost use Rattle.winnow_views.specs.BitStream.{bits_inner, bits_place};

use crate::{ErrorConvert, InputError};
use std::alloc::{AllocError, Global};
use winnow_views::Bits;

/// The input becomes all of its bits.
impl<I> ErrorConvert<InputError<Bits<I>>> for InputError<I> {
    ghost convert_gives = { λ e r. (bits_inner r.input ≡ e.input) × (bits_place r.input ≡ 0) };

    ghost convert_refusable = { ⊥ };

    fn convert(self, _alloc: Global) -> Result<InputError<Bits<I>>, AllocError> {
        Ok(InputError::at(Bits::new(self.input)))
    }
}

/// The input becomes its bytes, which include a byte of which some bits were read.
impl<I: Drop> ErrorConvert<InputError<I>> for InputError<Bits<I>> {
    ghost convert_gives = { λ e r. r.input ≡ bits_inner e.input };

    ghost convert_refusable = { ⊥ };

    fn convert(self, _alloc: Global) -> Result<InputError<I>, AllocError> {
        let (input, _place) = self.input.into_parts();
        Ok(InputError::at(input))
    }
}
