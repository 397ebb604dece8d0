//! What is to be read and printed.

use format_cbor_general::Limits;

/// What is read, and whether it is printed.
#[derive(Clone, Copy, Debug, Drop)]
pub struct Settings {
    /// What an item may have
    pub limits: Limits,
    /// Whether only the deterministic form is read
    pub deterministic: bool,
    /// Whether nothing is printed
    pub silent: bool,
}
