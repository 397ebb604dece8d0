//! Calls of `parse_slice`: at a type that is named, and through the bound `ParseSlice`.

ghost use Rattle.std.specs.Prelude.{IsUtf8};
ghost use Rattle.winnow_count.specs.Reading.{IsSomeExactly, ReadsUnsigned};

use winnow_count::ParseSlice;

/// Returns what bytes read as, at a type that is named.
pub fn byte_of(bytes: &[u8]) -> Option<u8>
    ensures { IsSomeExactly (λ n. IsUtf8 bytes.now × ReadsUnsigned 8 bytes.now n) result }
{
    bytes.parse_slice()
}

/// Returns what a slice reads as, called through the bound.
pub fn parsed<R, S: ParseSlice<R>>(slice: &S) -> Option<R>
    ensures { IsSomeExactly (S.reads slice.now) result }
{
    slice.parse_slice()
}
