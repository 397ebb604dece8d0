//! The calls of a writer of comma-separated values.

ghost use Rattle.std.specs.Prelude.{◌≡◌, None};
ghost use Rattle.woldbraid_writers.specs.Records.{Field, End};
ghost use Rattle.woldbraid.specs.WriterHandles.{HasWriter};
ghost use Rattle.woldbraid.specs.Writing.{MakesCsv, PutsCsv};

use crate::writer_handle::WriterHandle;
use std::alloc::Global;
use woldbraid_writers::{CsvWriter, Status, Writer};

/// Puts a new writer of comma-separated values into a handle without one. When memory is
/// refused, there is no writer, and the status says so.
#[unsafe(no_mangle)]
pub extern "C" fn woldbraid_csv_writer_new(handle: &mut WriterHandle, alloc: Global) -> u32
    requires { handle.old.value ≡ None }
    ensures { MakesCsv result handle.new.value }
{
    match Box::new(alloc, Writer::Csv(CsvWriter::new(alloc))) {
        Ok(writer) => {
            handle.put(writer);
            Status::Ok.code()
        }
        Err(_) => Status::Refused.code(),
    }
}

/// Writes a field, after a comma where the record has one.
#[unsafe(no_mangle)]
pub extern "C" fn woldbraid_csv_field(handle: &mut WriterHandle, field: &[u8], alloc: Global) -> u32
    requires { HasWriter handle.old.value }
    ensures { PutsCsv handle.old.value (Field field.now) result handle.new.value }
{
    let mut writer = handle.take(alloc);
    let status = writer.csv_field(field);
    handle.put(writer);
    status.code()
}

/// Ends the record, which must have a field.
#[unsafe(no_mangle)]
pub extern "C" fn woldbraid_csv_end_record(handle: &mut WriterHandle, alloc: Global) -> u32
    requires { HasWriter handle.old.value }
    ensures { PutsCsv handle.old.value End result handle.new.value }
{
    let mut writer = handle.take(alloc);
    let status = writer.csv_end();
    handle.put(writer);
    status.code()
}
