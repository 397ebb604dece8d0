//! The calls that the readers of all formats have.

ghost use Rattle.std.specs.Prelude.{◌≡◌, None};
ghost use Rattle.woldbraid.specs.Handles.{HasReader};
ghost use Rattle.woldbraid.specs.Calls.{PushesPiece, EndsInput};
ghost use Rattle.woldbraid.specs.Calls.{CountsFed, CountsHeld, CountsRead, CountsLevel};

use crate::handle::Handle;
use std::alloc::Global;

/// Appends a piece to what waits to be read.
#[unsafe(no_mangle)]
pub extern "C" fn woldbraid_push(handle: &mut Handle, piece: &[u8], alloc: Global) -> u32
    requires { HasReader handle.old.value }
    ensures { PushesPiece handle.old.value piece.now result handle.new.value }
{
    let mut reader = handle.take(alloc);
    let status = reader.push(piece);
    handle.put(reader);
    status.code()
}

/// Notes that nothing more follows.
#[unsafe(no_mangle)]
pub extern "C" fn woldbraid_end(handle: &mut Handle, alloc: Global)
    requires { HasReader handle.old.value }
    ensures { EndsInput handle.old.value handle.new.value }
{
    let mut reader = handle.take(alloc);
    reader.end();
    handle.put(reader);
}

/// Returns the length of the joined input so far, in bytes.
#[unsafe(no_mangle)]
pub extern "C" fn woldbraid_fed(handle: &mut Handle, alloc: Global) -> usize
    requires { HasReader handle.old.value }
    ensures { CountsFed handle.old.value result handle.new.value }
{
    let reader = handle.take(alloc);
    let fed = reader.fed();
    handle.put(reader);
    fed
}

/// Returns how many bytes of the input are kept.
#[unsafe(no_mangle)]
pub extern "C" fn woldbraid_held(handle: &mut Handle, alloc: Global) -> usize
    requires { HasReader handle.old.value }
    ensures { CountsHeld handle.old.value result handle.new.value }
{
    let reader = handle.take(alloc);
    let held = reader.held();
    handle.put(reader);
    held
}

/// Returns how many bytes of the input were read.
#[unsafe(no_mangle)]
pub extern "C" fn woldbraid_place(handle: &mut Handle, alloc: Global) -> usize
    requires { HasReader handle.old.value }
    ensures { CountsRead handle.old.value result handle.new.value }
{
    let reader = handle.take(alloc);
    let place = reader.place();
    handle.put(reader);
    place
}

/// Returns how many arrays and objects are open, or 0 of comma-separated values.
#[unsafe(no_mangle)]
pub extern "C" fn woldbraid_level(handle: &mut Handle, alloc: Global) -> usize
    requires { HasReader handle.old.value }
    ensures { CountsLevel handle.old.value result handle.new.value }
{
    let reader = handle.take(alloc);
    let level = reader.level();
    handle.put(reader);
    level
}

/// Frees a reader. The handle has none then.
#[unsafe(no_mangle)]
pub extern "C" fn woldbraid_free(handle: &mut Handle, alloc: Global)
    requires { HasReader handle.old.value }
    ensures { handle.new.value ≡ None }
{
    drop(handle.take(alloc));
}
