//! The calls of a reader of records of comma-separated values.

ghost use Rattle.std.specs.Prelude.{◌≡◌, None};
ghost use Rattle.woldbraid.specs.Handles.{HasReader};
ghost use Rattle.woldbraid.specs.Calls.{MakesCsvReader, NextRecord};

use crate::handle::Handle;
use std::alloc::Global;
use woldbraid_readers::{CsvReader, CsvRecord, Kept, Status};

/// Puts a new reader of comma-separated values into a handle without one. `kept` bytes may wait to
/// be read when a piece is pushed. When memory is refused, there is no reader, and the status says
/// so.
#[unsafe(no_mangle)]
pub extern "C" fn woldbraid_csv_new(handle: &mut Handle, kept: usize, alloc: Global) -> u32
    requires { handle.old.value ≡ None }
    ensures { MakesCsvReader kept result handle.new.value }
{
    match Box::new(alloc, Kept::Csv(CsvReader::new(alloc, kept))) {
        Ok(reader) => {
            handle.put(reader);
            Status::Ok.code()
        }
        Err(_) => Status::Refused.code(),
    }
}

/// Reads the next record. What it lends stays until the next call.
#[unsafe(no_mangle)]
pub extern "C" fn woldbraid_csv_next(
    handle: &mut Handle,
    shown: &mut CsvRecord,
    alloc: Global,
) -> u32
    requires { HasReader handle.old.value }
    ensures { NextRecord handle.old.value result shown.new handle.new.value }
{
    let mut reader = handle.take(alloc);
    let status = reader.next_record(shown);
    handle.put(reader);
    status.code()
}
