//! `Layout`: how a reply is printed.

ghost use Rattle.std.specs.Prelude.{◌≡◌, ◌++◌, OnOk, OnErr};
ghost use Rattle.wb_replies.specs.Layouts.{printed};

use crate::printing::append_reply;
use crate::raw::append_raw;
use format_resp::Reply;
use std::alloc::AllocError;

/// How a reply is printed.
#[derive(Clone, Copy, Debug, Drop, PartialEq, Eq)]
pub enum Layout {
    /// As `redis-cli` prints it to a terminal
    Terminal,
    /// As its text stands, as `redis-cli` prints the replies of `INFO` and some other commands
    Raw,
    /// Not at all
    Nothing,
}

impl Layout {
    /// Appends a reply. When memory is refused, the text is what it was.
    ///
    /// Calls are nested as deep as the arrays of the reply.
    pub fn append(self, reply: &Reply, text: &mut Vec<u8>) -> Result<(), AllocError>
        ensures printed { OnOk result (text.new.items
            ≡ text.old.items ++ printed self reply.now) }
        ensures refused { OnErr result (text.new.items ≡ text.old.items) }
    {
        match self {
            Layout::Terminal => append_reply(reply, text),
            Layout::Raw => append_raw(reply, text),
            Layout::Nothing => Ok(()),
        }
    }
}
