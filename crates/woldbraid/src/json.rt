//! The calls of a reader of the events of a JSON text.

ghost use Rattle.std.specs.Prelude.{◌≡◌, None};
ghost use Rattle.woldbraid.specs.Handles.{HasReader};
ghost use Rattle.woldbraid.specs.Calls.{MakesReader, NextEvent};

use crate::handle::Handle;
use std::alloc::Global;
use woldbraid_readers::{JsonEvent, JsonReader, Kept, Status};

/// Puts a new reader of a JSON text into a handle without one. Values may stand within `depth`
/// arrays and objects, and `kept` bytes may wait to be read when a piece is pushed. When memory is
/// refused, there is no reader, and the status says so.
#[unsafe(no_mangle)]
pub extern "C" fn woldbraid_json_new(
    handle: &mut Handle,
    depth: usize,
    kept: usize,
    alloc: Global,
) -> u32
    requires { handle.old.value ≡ None }
    ensures { MakesReader depth kept result handle.new.value }
{
    match Box::new(alloc, Kept::Json(JsonReader::new(alloc, depth, kept))) {
        Ok(reader) => {
            handle.put(reader);
            Status::Ok.code()
        }
        Err(_) => Status::Refused.code(),
    }
}

/// Reads the next event of a JSON text. What it lends stays until the next call.
#[unsafe(no_mangle)]
pub extern "C" fn woldbraid_json_next(
    handle: &mut Handle,
    event: &mut JsonEvent,
    alloc: Global,
) -> u32
    requires { HasReader handle.old.value }
    ensures { NextEvent handle.old.value result event.new handle.new.value }
{
    let mut reader = handle.take(alloc);
    let status = reader.next_event(event);
    handle.put(reader);
    status.code()
}
