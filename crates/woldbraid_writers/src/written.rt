//! `Written`: what a writer has written, as a plain struct.

/// What was written and not dropped.
#[repr(C)]
#[derive(Drop)]
pub struct Written {
    /// Where its bytes lie, until the next call
    pub text: *const u8,
    /// How many these are
    pub length: usize,
}
