//! Why a part was not read: `Unread`.

use std::alloc::AllocError;

/// Why no value was read of a part.
#[derive(Clone, Copy, Debug, Drop)]
pub enum Unread {
    /// The bytes of the part spell no value
    Malformed,
    /// Memory was refused
    Refused(AllocError),
}
