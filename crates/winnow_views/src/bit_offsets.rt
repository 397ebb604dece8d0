//! `BitOffsets`, the iterator over bits with their offsets.

ghost use Rattle.std.specs.Prelude.{◌≡◌, ◌+◌, ◌≤◌, ◌<◌, ◌^◌};
ghost use Rattle.std.specs.Iterator.{IsFinite, size, at_most};
ghost use Rattle.winnow_views.specs.BitSource.{bit_of};
ghost use Rattle.winnow_views.specs.BitSteps.{bits_ahead, BitStep};

/// An iterator over bits, each with its offset, made from an iterator over bytes with their
/// offsets.
#[derive(Clone, Copy, Debug, Drop)]
pub struct BitOffsets<J> {
    bytes: J,
    offset: usize,
    // The next bit of `byte`, or 8 if none is left.
    bit: usize,
    // The first bit of the next byte: 0 for each byte but the first.
    place: usize,
    byte: u8,
}

impl<J> BitOffsets<J> {
    pub(crate) fn new(bytes: J, place: usize) -> Self
        ensures bytes { result.bytes ≡ bytes }
        ensures offset { result.offset ≡ 0 }
        ensures bit { result.bit ≡ 8 }
        ensures place { result.place ≡ place }
    {
        BitOffsets {
            bytes,
            offset: 0,
            bit: 8,
            place,
            byte: 0,
        }
    }
}

// Whether this bit of a byte is set; bit 0 is the lowest.
pub(crate) fn is_set(byte: u8, bit: usize) -> bool
    requires { bit < 8 }
    ensures { result ≡ bit_of byte bit }
{
    (byte >> bit) % 2 == 1
}

impl<J: Iterator<Item = (usize, u8)>> Iterator for BitOffsets<J> {
    type Item = (usize, bool);

    ghost can_next = { λ s. J.can_next s.bytes × IsFinite (J.remaining s.bytes) × (s.bit ≤ 8)
        × (s.place < 8) × (s.offset + bits_ahead (size (J.remaining s.bytes)) s < 2 ^ 64) };

    ghost next_gives = { BitStep J.next_gives };

    ghost remaining = { λ s. at_most (bits_ahead (size (J.remaining s.bytes)) s) };

    fn next(&mut self) -> Option<(usize, bool)> {
        if self.bit == 8 {
            let (_, byte) = self.bytes.next()?;
            self.byte = byte;
            self.bit = self.place;
            self.place = 0;
        }
        let is_set = is_set(self.byte, self.bit);
        let offset = self.offset;
        self.bit += 1;
        self.offset = offset + 1;
        Some((offset, is_set))
    }
}
