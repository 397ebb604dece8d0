//! `ToUsize`, the trait of unsigned numbers that can be a count.

ghost use Rattle.std.specs.Prelude.{◌≡◌, ◌≤◌, ℕ};

/// A number that can be a count, as a length field holds one.
pub trait ToUsize {
    // The number.
    ghost number: { Self → ℕ };

    /// Returns the number.
    fn to_usize(&self) -> usize
        requires { number self.now ≤ usize.MAX }
        ensures { result ≡ number self.now };
}

impl ToUsize for u8 {
    ghost number = { λ n. n };

    fn to_usize(&self) -> usize {
        *self as usize
    }
}

impl ToUsize for u16 {
    ghost number = { λ n. n };

    fn to_usize(&self) -> usize {
        *self as usize
    }
}

impl ToUsize for u32 {
    ghost number = { λ n. n };

    fn to_usize(&self) -> usize {
        *self as usize
    }
}

impl ToUsize for u64 {
    ghost number = { λ n. n };

    fn to_usize(&self) -> usize {
        *self as usize
    }
}

impl ToUsize for usize {
    ghost number = { λ n. n };

    fn to_usize(&self) -> usize {
        *self
    }
}
