//! `ParseSlice`, the trait of slices that are read as values.

ghost use Rattle.std.specs.Prelude.{IsUtf8};
ghost use Rattle.winnow_count.specs.Reading.{IsSomeExactly};

use crate::Readable;

/// A slice that was taken, and that may read as a value of type `R`.
pub trait ParseSlice<R> {
    // The slice reads as the value.
    ghost reads: { Self → R → Type 0 };

    /// Returns the value that the slice reads as, or `None` if it reads as none.
    fn parse_slice(&self) -> Option<R>
        ensures { IsSomeExactly (reads self.now) result };
}

/// The bytes have to be UTF-8.
impl<R: Readable> ParseSlice<R> for &[u8] {
    ghost reads = { λ bytes v. IsUtf8 bytes.now × R.reads bytes.now v };

    fn parse_slice(&self) -> Option<R> {
        let Ok(text) = str::from_utf8(self) else {
            return None;
        };
        R::read(text)
    }
}

impl<R: Readable> ParseSlice<R> for &str {
    ghost reads = { λ text v. R.reads text.now v };

    fn parse_slice(&self) -> Option<R> {
        R::read(self)
    }
}
