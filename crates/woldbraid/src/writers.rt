//! The calls that the writers of all formats have.

ghost use Rattle.std.specs.Prelude.{◌≡◌, None};
ghost use Rattle.woldbraid.specs.WriterHandles.{HasWriter};
ghost use Rattle.woldbraid.specs.Writing.{ShowsWritten, DropsWritten, CountsOpen, TellsWhole};

use crate::writer_handle::WriterHandle;
use std::alloc::Global;
use woldbraid_writers::Written;

/// Lends what was written and not dropped, until the next call.
#[unsafe(no_mangle)]
pub extern "C" fn woldbraid_written(handle: &mut WriterHandle, shown: &mut Written, alloc: Global)
    requires { HasWriter handle.old.value }
    ensures { ShowsWritten handle.old.value shown.new handle.new.value }
{
    let writer = handle.take(alloc);
    *shown = writer.written();
    handle.put(writer);
}

/// Drops what was written. The text goes on after it.
#[unsafe(no_mangle)]
pub extern "C" fn woldbraid_forget(handle: &mut WriterHandle, alloc: Global)
    requires { HasWriter handle.old.value }
    ensures { DropsWritten handle.old.value handle.new.value }
{
    let mut writer = handle.take(alloc);
    writer.forget();
    handle.put(writer);
}

/// Returns how many arrays and objects of a JSON text are open, or 0 of another format.
#[unsafe(no_mangle)]
pub extern "C" fn woldbraid_writer_level(handle: &mut WriterHandle, alloc: Global) -> usize
    requires { HasWriter handle.old.value }
    ensures { CountsOpen handle.old.value result handle.new.value }
{
    let writer = handle.take(alloc);
    let level = writer.level();
    handle.put(writer);
    level
}

/// Returns whether the JSON text is whole, or the last record has ended.
#[unsafe(no_mangle)]
pub extern "C" fn woldbraid_is_whole(handle: &mut WriterHandle, alloc: Global) -> bool
    requires { HasWriter handle.old.value }
    ensures { TellsWhole handle.old.value result handle.new.value }
{
    let writer = handle.take(alloc);
    let is_whole = writer.is_whole();
    handle.put(writer);
    is_whole
}

/// Frees a writer. The handle has none then.
#[unsafe(no_mangle)]
pub extern "C" fn woldbraid_writer_free(handle: &mut WriterHandle, alloc: Global)
    requires { HasWriter handle.old.value }
    ensures { handle.new.value ≡ None }
{
    drop(handle.take(alloc));
}
