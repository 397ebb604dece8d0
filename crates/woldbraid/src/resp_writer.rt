//! The calls of a writer of replies and commands.

ghost use Rattle.std.specs.Prelude.{◌≡◌, None};
ghost use Rattle.woldbraid_writers.specs.Replies.{Simple, Error, Integer, Bulk};
ghost use Rattle.woldbraid_writers.specs.Replies.{NullBulk, Array, NullArray};
ghost use Rattle.woldbraid.specs.WriterHandles.{HasWriter};
ghost use Rattle.woldbraid.specs.Writing.{MakesResp, PutsResp, CutsWritten};

use crate::writer_handle::WriterHandle;
use std::alloc::Global;
use woldbraid_writers::{RespWriter, Status, Writer};

/// Puts a new writer of replies into a handle without one. When memory is
/// refused, there is no writer, and the status says so.
#[unsafe(no_mangle)]
pub extern "C" fn woldbraid_resp_writer_new(handle: &mut WriterHandle, alloc: Global) -> u32
    requires { handle.old.value ≡ None }
    ensures { MakesResp result handle.new.value }
{
    match Box::new(alloc, Writer::Resp(RespWriter::new(alloc))) {
        Ok(writer) => {
            handle.put(writer);
            Status::Ok.code()
        }
        Err(_) => Status::Refused.code(),
    }
}

/// Writes a simple string, whose text must have neither CR nor LF.
#[unsafe(no_mangle)]
pub extern "C" fn woldbraid_resp_simple(
    handle: &mut WriterHandle,
    text: &[u8],
    alloc: Global,
) -> u32
    requires { HasWriter handle.old.value }
    ensures { PutsResp handle.old.value (Simple text.now) result handle.new.value }
{
    let mut writer = handle.take(alloc);
    let status = writer.resp_simple(text);
    handle.put(writer);
    status.code()
}

/// Writes an error, whose text must have neither CR nor LF.
#[unsafe(no_mangle)]
pub extern "C" fn woldbraid_resp_error(handle: &mut WriterHandle, text: &[u8], alloc: Global) -> u32
    requires { HasWriter handle.old.value }
    ensures { PutsResp handle.old.value (Error text.now) result handle.new.value }
{
    let mut writer = handle.take(alloc);
    let status = writer.resp_error(text);
    handle.put(writer);
    status.code()
}

/// Writes an integer.
#[unsafe(no_mangle)]
pub extern "C" fn woldbraid_resp_integer(
    handle: &mut WriterHandle,
    number: i64,
    alloc: Global,
) -> u32
    requires { HasWriter handle.old.value }
    ensures { PutsResp handle.old.value (Integer number) result handle.new.value }
{
    let mut writer = handle.take(alloc);
    let status = writer.resp_integer(number);
    handle.put(writer);
    status.code()
}

/// Writes a bulk string.
#[unsafe(no_mangle)]
pub extern "C" fn woldbraid_resp_bulk(handle: &mut WriterHandle, held: &[u8], alloc: Global) -> u32
    requires { HasWriter handle.old.value }
    ensures { PutsResp handle.old.value (Bulk held.now) result handle.new.value }
{
    let mut writer = handle.take(alloc);
    let status = writer.resp_bulk(held);
    handle.put(writer);
    status.code()
}

/// Writes the null that stands for a bulk string.
#[unsafe(no_mangle)]
pub extern "C" fn woldbraid_resp_null_bulk(handle: &mut WriterHandle, alloc: Global) -> u32
    requires { HasWriter handle.old.value }
    ensures { PutsResp handle.old.value NullBulk result handle.new.value }
{
    let mut writer = handle.take(alloc);
    let status = writer.resp_null_bulk();
    handle.put(writer);
    status.code()
}

/// Writes the head of an array of this number of replies, which come next.
#[unsafe(no_mangle)]
pub extern "C" fn woldbraid_resp_array(
    handle: &mut WriterHandle,
    count: usize,
    alloc: Global,
) -> u32
    requires { HasWriter handle.old.value }
    ensures { PutsResp handle.old.value (Array count) result handle.new.value }
{
    let mut writer = handle.take(alloc);
    let status = writer.resp_array(count);
    handle.put(writer);
    status.code()
}

/// Writes the null that stands for an array.
#[unsafe(no_mangle)]
pub extern "C" fn woldbraid_resp_null_array(handle: &mut WriterHandle, alloc: Global) -> u32
    requires { HasWriter handle.old.value }
    ensures { PutsResp handle.old.value NullArray result handle.new.value }
{
    let mut writer = handle.take(alloc);
    let status = writer.resp_null_array();
    handle.put(writer);
    status.code()
}

/// Keeps the first bytes of what was written, at most this number.
#[unsafe(no_mangle)]
pub extern "C" fn woldbraid_resp_cut(handle: &mut WriterHandle, length: usize, alloc: Global)
    requires { HasWriter handle.old.value }
    ensures { CutsWritten handle.old.value length handle.new.value }
{
    let mut writer = handle.take(alloc);
    writer.cut(length);
    handle.put(writer);
}
