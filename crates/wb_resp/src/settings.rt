//! What is to be read and printed.

use format_resp::ReplyTo;
use wb_replies::Layout;

/// Which replies are read, and how they are printed.
#[derive(Clone, Copy, Debug, Drop)]
pub struct Settings {
    /// The limits on a reply
    pub limits: ReplyTo,
    /// How a reply is printed
    pub layout: Layout,
}
