//! Rows of `to_usize`, at each type of number.

ghost use Rattle.std.specs.Prelude.{◌≡◌, ◌≤◌};

use rows::{Fault, Words};
use std::alloc::Global;
use winnow_count::ToUsize;

// Returns the number, called through the bound.
fn size<N: ToUsize>(number: &N) -> usize
    requires { N.number number.now ≤ usize.MAX }
    ensures { result ≡ N.number number.now }
{
    number.to_usize()
}

// Returns the size that a number of the type with this name gives.
fn size_of(name: &str, digits: &str) -> Option<usize> {
    match name {
        "u8" => Some(size(&digits.parse::<u8>().ok()?)),
        "u16" => Some(size(&digits.parse::<u16>().ok()?)),
        "u32" => Some(size(&digits.parse::<u32>().ok()?)),
        "u64" => Some(size(&digits.parse::<u64>().ok()?)),
        "usize" => Some(size(&digits.parse::<usize>().ok()?)),
        _ => None,
    }
}

/// Returns the size that a number gives: the name of its type, and the number.
pub fn to_usize(alloc: Global, words: &Words) -> Result<String, Fault> {
    match size_of(words.plain(0)?, words.plain(1)?) {
        Some(size) => Ok(format!(in alloc; "{size}")?),
        None => Err(Fault::NoSuchCall),
    }
}
