//! The order of the keys of a map.

ghost use Rattle.std.specs.Prelude.{◌↔◌, IsTrue};
ghost use Rattle.format_cbor.specs.Entries.{IsBefore};

use std::cmp::Ordering;

// Returns whether the first bytes are before the others.
pub(crate) fn is_before(key: &[u8], other: &[u8]) -> bool
    ensures { IsTrue result ↔ IsBefore key.now other.now }
{
    match key.cmp(other) {
        Ordering::Less => true,
        Ordering::Equal => false,
        Ordering::Greater => false,
    }
}
