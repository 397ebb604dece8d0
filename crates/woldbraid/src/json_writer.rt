//! The calls of a generator of a JSON text.

ghost use Rattle.std.specs.Prelude.{◌≡◌, None};
ghost use Rattle.std.specs.Fmt.{signed_decimal};
ghost use Rattle.format_json.specs.Language.{null_word, bool_word};
ghost use Rattle.woldbraid_writers.specs.Drafts.{Word, Number, Quoted, Name, Start, Finish};
ghost use Rattle.woldbraid.specs.WriterHandles.{HasWriter};
ghost use Rattle.woldbraid.specs.Writing.{MakesJson, PutsJson, bracket_of};

use crate::writer_handle::WriterHandle;
use std::alloc::Global;
use woldbraid_writers::{Bracket, JsonWriter, Status, Writer};

/// Puts a new writer of a JSON text into a handle without one. Values may stand within `depth`
/// arrays and objects. When memory is refused, there is no writer, and the status says so.
#[unsafe(no_mangle)]
pub extern "C" fn woldbraid_json_writer_new(
    handle: &mut WriterHandle,
    depth: usize,
    alloc: Global,
) -> u32
    requires { handle.old.value ≡ None }
    ensures { MakesJson depth result handle.new.value }
{
    match Box::new(alloc, Writer::Json(JsonWriter::new(alloc, depth))) {
        Ok(writer) => {
            handle.put(writer);
            Status::Ok.code()
        }
        Err(_) => Status::Refused.code(),
    }
}

/// Writes `null`.
#[unsafe(no_mangle)]
pub extern "C" fn woldbraid_json_null(handle: &mut WriterHandle, alloc: Global) -> u32
    requires { HasWriter handle.old.value }
    ensures { PutsJson handle.old.value (Word null_word) result handle.new.value }
{
    let mut writer = handle.take(alloc);
    let status = writer.json_null();
    handle.put(writer);
    status.code()
}

/// Writes `true` or `false`.
#[unsafe(no_mangle)]
pub extern "C" fn woldbraid_json_bool(handle: &mut WriterHandle, value: bool, alloc: Global) -> u32
    requires { HasWriter handle.old.value }
    ensures { PutsJson handle.old.value (Word (bool_word value)) result handle.new.value }
{
    let mut writer = handle.take(alloc);
    let status = writer.json_bool(value);
    handle.put(writer);
    status.code()
}

/// Writes an integer.
#[unsafe(no_mangle)]
pub extern "C" fn woldbraid_json_integer(
    handle: &mut WriterHandle,
    number: i64,
    alloc: Global,
) -> u32
    requires { HasWriter handle.old.value }
    ensures { PutsJson handle.old.value (Word (signed_decimal number)) result handle.new.value }
{
    let mut writer = handle.take(alloc);
    let status = writer.json_integer(number);
    handle.put(writer);
    status.code()
}

/// Writes a number by its text, which must be one of JSON.
#[unsafe(no_mangle)]
pub extern "C" fn woldbraid_json_number(
    handle: &mut WriterHandle,
    text: &[u8],
    alloc: Global,
) -> u32
    requires { HasWriter handle.old.value }
    ensures { PutsJson handle.old.value (Number text.now) result handle.new.value }
{
    let mut writer = handle.take(alloc);
    let status = writer.json_number(text);
    handle.put(writer);
    status.code()
}

/// Writes a string of these bytes, which must be UTF-8.
#[unsafe(no_mangle)]
pub extern "C" fn woldbraid_json_string(
    handle: &mut WriterHandle,
    text: &[u8],
    alloc: Global,
) -> u32
    requires { HasWriter handle.old.value }
    ensures { PutsJson handle.old.value (Quoted text.now) result handle.new.value }
{
    let mut writer = handle.take(alloc);
    let status = writer.json_string(text);
    handle.put(writer);
    status.code()
}

/// Writes the name of a member, whose bytes must be UTF-8.
#[unsafe(no_mangle)]
pub extern "C" fn woldbraid_json_name(handle: &mut WriterHandle, text: &[u8], alloc: Global) -> u32
    requires { HasWriter handle.old.value }
    ensures { PutsJson handle.old.value (Name text.now) result handle.new.value }
{
    let mut writer = handle.take(alloc);
    let status = writer.json_name(text);
    handle.put(writer);
    status.code()
}

/// Begins an object, or else an array.
#[unsafe(no_mangle)]
pub extern "C" fn woldbraid_json_start(
    handle: &mut WriterHandle,
    is_object: bool,
    alloc: Global,
) -> u32
    requires { HasWriter handle.old.value }
    ensures { PutsJson handle.old.value (Start (bracket_of is_object)) result handle.new.value }
{
    let mut writer = handle.take(alloc);
    let status = writer.json_start(bracket_of(is_object));
    handle.put(writer);
    status.code()
}

/// Ends the innermost object, or else array, which must be of this kind.
#[unsafe(no_mangle)]
pub extern "C" fn woldbraid_json_finish(
    handle: &mut WriterHandle,
    is_object: bool,
    alloc: Global,
) -> u32
    requires { HasWriter handle.old.value }
    ensures { PutsJson handle.old.value (Finish (bracket_of is_object)) result handle.new.value }
{
    let mut writer = handle.take(alloc);
    let status = writer.json_finish(bracket_of(is_object));
    handle.put(writer);
    status.code()
}

// Returns the bracket of an object, or else of an array.
fn bracket_of(is_object: bool) -> Bracket
    ensures { result ≡ bracket_of is_object }
{
    if is_object {
        return Bracket::Object;
    }
    Bracket::Array
}
