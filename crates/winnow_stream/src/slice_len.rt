//! `SliceLen`, the width of a slice, an array or a token.

ghost use Rattle.std.specs.Prelude.{◌≡◌, ℕ, ◌+◌, ◌-◌, ◌*◌, ◌^◌, ◌≤◌, ◌<◌, length, ⊤};
ghost use Rattle.std.specs.Char.{len_utf8};

/// The width of a slice, an array or a token.
pub trait SliceLen {
    // The values that have a width.
    ghost has_width: { Self → Type 0 } = { λ _. ⊤ };

    ghost width_of: { Self → ℕ };

    /// Returns the width, in the offsets of the stream that the slice was taken from.
    fn slice_len(&self) -> usize
        requires { has_width self.now }
        ensures { result ≡ width_of self.now };
}

impl<T> SliceLen for &[T] {
    ghost width_of = { λ s. length s.now };

    fn slice_len(&self) -> usize {
        self.len()
    }
}

impl<T, const LEN: usize> SliceLen for [T; LEN] {
    ghost width_of = { λ s. LEN };

    fn slice_len(&self) -> usize {
        LEN
    }
}

impl<T, const LEN: usize> SliceLen for &[T; LEN] {
    ghost width_of = { λ s. LEN };

    fn slice_len(&self) -> usize {
        LEN
    }
}

impl SliceLen for &str {
    ghost width_of = { λ s. length s.now };

    fn slice_len(&self) -> usize {
        self.len()
    }
}

impl SliceLen for u8 {
    ghost width_of = { λ _. 1 };

    fn slice_len(&self) -> usize {
        1
    }
}

impl SliceLen for char {
    ghost width_of = { λ c. len_utf8 c };

    fn slice_len(&self) -> usize {
        self.len_utf8()
    }
}

/// The slice of a stream of bits: the bits of a slice of bytes, from a place in its first byte on,
/// and then bits of the next byte, which is not in the slice.
/// [`Stream::next_slice`](crate::Stream::next_slice) of a stream of bits returns it.
impl<S: SliceLen> SliceLen for (S, usize, usize) {
    ghost has_width = { λ s. S.has_width s.0 × (s.1 ≤ 8 * S.width_of s.0 + s.2)
        × (8 * S.width_of s.0 + s.2 - s.1 < 2 ^ 64) };

    ghost width_of = { λ s. 8 * S.width_of s.0 + s.2 - s.1 };

    fn slice_len(&self) -> usize {
        let (bytes, start, end) = self;
        (8 * bytes.slice_len() as u128 + *end as u128 - *start as u128) as usize
    }
}
