//! Conversions of a `TreeError` between bytes and their bits.

ghost use Rattle.std.specs.Prelude.{◌≡◌, ⊤};
ghost use Rattle.winnow_views.specs.BitStream.{bits_inner, bits_place};
ghost use Rattle.winnow_tree.specs.TreeContents.{tree_contents};
ghost use Rattle.winnow_tree.specs.Maps.{TreeMaps};

use crate::TreeError;
use std::alloc::{AllocError, Global};
use winnow_error::ErrorConvert;
use winnow_views::Bits;

/// Each input becomes all of its bits.
impl<I: Drop, C: Drop> ErrorConvert<TreeError<Bits<I>, C>> for TreeError<I, C> {
    ghost convert_gives = { λ e r. TreeMaps (λ i j. (bits_inner j ≡ i) × (bits_place j ≡ 0))
        (tree_contents e) (tree_contents r) };

    ghost convert_refusable = { ⊤ };

    fn convert(self, alloc: Global) -> Result<TreeError<Bits<I>, C>, AllocError> {
        self.map_input(
            alloc,
            |input: I| -> Bits<I>
                ensures { (bits_inner result ≡ input) × (bits_place result ≡ 0) }
            { Bits::new(input) },
        )
    }
}

/// Each input becomes its bytes, which include a byte of which some bits were read.
impl<I: Drop, C: Drop> ErrorConvert<TreeError<I, C>> for TreeError<Bits<I>, C> {
    ghost convert_gives = { λ e r. TreeMaps (λ i j. j ≡ bits_inner i) (tree_contents e)
        (tree_contents r) };

    ghost convert_refusable = { ⊤ };

    fn convert(self, alloc: Global) -> Result<TreeError<I, C>, AllocError> {
        self.map_input(
            alloc,
            |bits: Bits<I>| -> I
                ensures { result ≡ bits_inner bits }
            {
                let (input, _place) = bits.into_parts();
                input
            },
        )
    }
}
