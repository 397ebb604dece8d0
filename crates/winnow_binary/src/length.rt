//! The numbers that a length field may hold: `Length`.

ghost use Rattle.std.specs.Prelude.{◌≡◌, ℕ};

/// A number that says how much comes next, as a length field holds one. Unlike `ToUsize`, it is a
/// `usize` at each of its values.
pub trait Length {
    // The number.
    ghost number: { Self → ℕ };

    /// Returns the number.
    fn length(self) -> usize
        ensures { result ≡ number self };
}

impl Length for u8 {
    ghost number = { λ n. n };

    fn length(self) -> usize {
        self as usize
    }
}

impl Length for u16 {
    ghost number = { λ n. n };

    fn length(self) -> usize {
        self as usize
    }
}

impl Length for u32 {
    ghost number = { λ n. n };

    fn length(self) -> usize {
        self as usize
    }
}

impl Length for u64 {
    ghost number = { λ n. n };

    fn length(self) -> usize {
        self as usize
    }
}

impl Length for usize {
    ghost number = { λ n. n };

    fn length(self) -> usize {
        self
    }
}
