//! Comparing values by their texts, which takes no memory.

use std::alloc::AllocError;
use std::fmt::{Debug, InlineText, Write};

/// Returns whether what was made has this debug text.
pub fn gives<T: Debug + Drop>(
    made: Result<T, AllocError>,
    wanted: &str,
) -> Result<bool, AllocError> {
    let made = made?;
    let mut text: InlineText<256> = InlineText::new();
    Ok(write!(text, "{made:?}").is_ok() && text.as_str() == wanted)
}
