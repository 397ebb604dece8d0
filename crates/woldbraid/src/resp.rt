//! The calls of a reader of the events of replies.

ghost use Rattle.std.specs.Prelude.{◌≡◌, None};
ghost use Rattle.woldbraid.specs.Handles.{HasReader};
ghost use Rattle.woldbraid.specs.Calls.{MakesRespReader, NextReply};

use crate::handle::Handle;
use format_resp::ReplyTo;
use std::alloc::Global;
use woldbraid_readers::{Kept, RespEvent, RespReader, Status};

/// Puts a new reader of replies into a handle without one. Replies may stand within `depth` arrays,
/// their texts may have `longest` bytes, and `kept` bytes may wait to be read when a piece is
/// pushed. When memory is refused, there is no reader, and the status says so.
#[unsafe(no_mangle)]
pub extern "C" fn woldbraid_resp_new(
    handle: &mut Handle,
    depth: usize,
    longest: usize,
    kept: usize,
    alloc: Global,
) -> u32
    requires { handle.old.value ≡ None }
    ensures { MakesRespReader (record { depth = depth; longest = longest }) kept result
        handle.new.value }
{
    let limits = ReplyTo { depth, longest };
    match Box::new(alloc, Kept::Resp(RespReader::new(alloc, limits, kept))) {
        Ok(reader) => {
            handle.put(reader);
            Status::Ok.code()
        }
        Err(_) => Status::Refused.code(),
    }
}

/// Reads the next event of replies. What it lends stays until the next call.
#[unsafe(no_mangle)]
pub extern "C" fn woldbraid_resp_next(
    handle: &mut Handle,
    event: &mut RespEvent,
    alloc: Global,
) -> u32
    requires { HasReader handle.old.value }
    ensures { NextReply handle.old.value result event.new handle.new.value }
{
    let mut reader = handle.take(alloc);
    let status = reader.next_reply(event);
    handle.put(reader);
    status.code()
}
