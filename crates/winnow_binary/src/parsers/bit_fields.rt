//! The parser of fields of bits: `bit_fields`.

ghost use Rattle.std.specs.Prelude.{◌≡◌};
ghost use Rattle.winnow_parser.specs.Errors.{OwnErrors};
ghost use Rattle.winnow_binary.specs.declared.endianness.Endianness.TheVariants.{Big, Little};
ghost use Rattle.winnow_binary.specs.BitFields.{IsBitFields, IsParser-IsBitFields};

use crate::Endianness;
use crate::bit_number::next_number;
use crate::bit_widths::{NO_BYTES, fields_in, filled_bytes};
use std::alloc::Global;
use winnow_error::ParserError;
use winnow_parser::{Failure, ModalResult, Parser};
use winnow_stream::StreamIsPartial;

/// A parser of fields of bits; [`bit_fields`] makes it.
#[derive(Clone, Copy, Debug, Drop)]
pub struct BitFields<const N: usize> {
    order: Endianness,
    widths: [u32; N],
}

/// Returns the parser of fields of these widths, in bits, which fill whole bytes together. If the
/// most significant byte comes first (`Big`), the first field has the highest bits, as in the
/// headers of network protocols; if the least significant one does, it has the lowest bits, as in
/// DEFLATE.
///
/// The widths are at least 1, and their sum is a multiple of 8 and at most 64; otherwise the parser
/// cuts at once. If fewer bytes remain, it needs the missing ones if more may follow, and
/// backtracks if nothing may. More than 64 bits are read by one parser after another.
///
/// The first four bytes of a header of IPv4: the version, the header's length in units of four
/// bytes, two fields of the service, and the length of the whole.
///
/// ```
/// let fields = be_bit_fields([4, 4, 6, 2, 16]).verify_map(|fields: [u64; 5]| {
///     let [version, words, service, congestion, total] = fields;
/// ```
pub fn bit_fields<const N: usize>(order: Endianness, widths: [u32; N]) -> BitFields<N>
    ensures { result ≡ record { order = order; widths = widths.entry } }
{
    BitFields { order, widths }
}

/// Returns the parser of fields of these widths, the highest bits first, as [`bit_fields`] does for
/// `Big`.
pub fn be_bit_fields<const N: usize>(widths: [u32; N]) -> BitFields<N>
    ensures { result ≡ record { order = Big; widths = widths.entry } }
{
    bit_fields(Endianness::Big, widths)
}

/// Returns the parser of fields of these widths, the lowest bits first, as [`bit_fields`] does for
/// `Little`.
pub fn le_bit_fields<const N: usize>(widths: [u32; N]) -> BitFields<N>
    ensures { result ≡ record { order = Little; widths = widths.entry } }
{
    bit_fields(Endianness::Little, widths)
}

impl<I: StreamIsPartial<Token = u8>, E: ParserError<I>, const N: usize> Parser<I, E>
    for BitFields<N> {
    type Output = [u64; N];

    ghost means = { λ p. IsBitFields I.counts_shortage p.order p.widths };

    ghost errors = { λ _. OwnErrors E.from_input_gives E.assert_gives };

    ghost ready = { λ _. Unit {0} };

    ghost lawful = { λ p. IsParser-IsBitFields I.counts_shortage p.order p.widths };

    fn parse_next(&self, alloc: Global, input: &mut I) -> ModalResult<[u64; N], E> {
        let Some(count) = filled_bytes(&self.widths) else {
            return Err(Failure::Cut(E::assert(alloc, input, NO_BYTES)));
        };
        match input.offset_at(count) {
            Ok(_) => {
                let number = next_number(count, self.order, input);
                Ok(fields_in(self.order, &self.widths, count, number))
            }
            Err(needed) if input.is_partial() => Err(Failure::Incomplete(needed)),
            Err(_) => Err(Failure::Backtrack(E::from_input(alloc, input))),
        }
    }
}
