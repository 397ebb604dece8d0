//! An event as it is written.

ghost use Rattle.std.specs.Prelude.{◌≡◌, ◌++◌, ◌∷◌, [], OnOk, codes, decimal};
ghost use Rattle.std.specs.List.{list_all, flat_map};
ghost use Rattle.format_json.specs.Quoting.{written_string};
ghost use Rattle.wb_json.specs.Paths.{closed};
ghost use Rattle.wb_json.specs.Lines.{begins_name, continues_name, is_identifier, member_text};
ghost use Rattle.wb_json.specs.Lines.{step_text, path_text, value_text, assignment, assigned};
ghost use Rattle.wb_json.specs.Lines.{comma_before, comma_between, feed_after, compact, line_of};

use crate::path::{Path, Step};
use crate::settings::Layout;
use format_json::write_string;
use format_json_events::Event;
use itoa::Buffer;
use std::alloc::AllocError;

/// Appends what is written of an event at a place.
pub fn append_line(
    layout: Layout,
    path: &Path,
    event: &Event,
    text: &mut Vec<u8>,
) -> Result<(), AllocError>
    ensures { OnOk result (text.new.items ≡ text.old.items ++ line_of layout path.now event.now) }
{
    match layout {
        Layout::Assignments => append_assigned(path, event, text),
        Layout::Values => append_compact(path, event, text),
        Layout::Nothing => Ok(()),
    }
}

// Appends the assignment of an event, if a value begins with it.
fn append_assigned(path: &Path, event: &Event, text: &mut Vec<u8>) -> Result<(), AllocError>
    ensures { OnOk result (text.new.items ≡ text.old.items ++ assigned path.now event.now) }
{
    match event {
        Event::Key(_) => Ok(()),
        Event::EndArray => Ok(()),
        Event::EndObject => Ok(()),
        _ => append_assignment(path, event, text),
    }
}

// Appends the assignment of the value that begins with an event.
fn append_assignment(path: &Path, event: &Event, text: &mut Vec<u8>) -> Result<(), AllocError>
    ensures { OnOk result (text.new.items
        ≡ text.old.items ++ assignment path.now (value_text event.now)) }
{
    append_path(path, text)?;
    text.extend_from_slice(b" = ")?;
    append_value(event, text)?;
    text.extend_from_slice(b";\n")?;
    Ok(())
}

// Appends a path.
fn append_path(path: &Path, text: &mut Vec<u8>) -> Result<(), AllocError>
    ensures { OnOk result (text.new.items ≡ text.old.items ++ path_text path.now) }
{
    text.extend_from_slice(b"json")?;
    append_steps(path.outer(), text)?;
    append_step(path.here(), text)?;
    Ok(())
}

// Appends steps.
fn append_steps(steps: &[Step], text: &mut Vec<u8>) -> Result<(), AllocError>
    ensures { OnOk result (text.new.items ≡ text.old.items ++ flat_map step_text steps.now) }
{
    for step in steps {
        append_step(step, text)?;
    }
    Ok(())
}

// Appends a step.
fn append_step(step: &Step, text: &mut Vec<u8>) -> Result<(), AllocError>
    ensures { OnOk result (text.new.items ≡ text.old.items ++ step_text step.now) }
{
    match step {
        Step::Root => Ok(()),
        Step::Element(index) => append_index(*index, text),
        Step::Inside => Ok(()),
        Step::Member(name) => append_member(name, text),
    }
}

// Appends an index in brackets.
fn append_index(index: usize, text: &mut Vec<u8>) -> Result<(), AllocError>
    ensures { OnOk result (text.new.items ≡ text.old.items ++ 91 ∷ (decimal index ++ 93 ∷ [])) }
{
    let mut buffer = Buffer::new();
    text.push(b'[')?;
    text.extend_from_slice(buffer.format(index).as_bytes())?;
    text.push(b']')?;
    Ok(())
}

// Appends a name, after a point or in brackets.
fn append_member(name: &str, text: &mut Vec<u8>) -> Result<(), AllocError>
    ensures { OnOk result (text.new.items ≡ text.old.items ++ member_text name.now) }
{
    if is_identifier(name.as_bytes()) {
        text.push(b'.')?;
        text.extend_from_slice(name.as_bytes())?;
        return Ok(());
    }
    text.push(b'[')?;
    write_string(name, text)?;
    text.push(b']')?;
    Ok(())
}

// Returns whether a name is an identifier.
fn is_identifier(name: &[u8]) -> bool
    ensures { result ≡ is_identifier name.now }
{
    match name {
        [] => false,
        [first, rest @ ..] => begins_name(*first) && continue_name(rest),
    }
}

// Returns whether an identifier goes on with these bytes.
fn continue_name(bytes: &[u8]) -> bool
    ensures { result ≡ list_all continues_name bytes.now }
{
    for byte in bytes {
        if !continues_name(*byte) {
            return false;
        }
    }
    true
}

// Returns whether an identifier may begin with a byte.
fn begins_name(byte: u8) -> bool
    ensures { result ≡ begins_name byte }
{
    byte.is_ascii_alphabetic() || byte == b'$' || byte == b'_'
}

// Returns whether an identifier may have a byte after its first one.
fn continues_name(byte: u8) -> bool
    ensures { result ≡ continues_name byte }
{
    begins_name(byte) || byte.is_ascii_digit()
}

// Appends a value that is no array and no object, or the brackets of one that begins.
fn append_value(event: &Event, text: &mut Vec<u8>) -> Result<(), AllocError>
    ensures { OnOk result (text.new.items ≡ text.old.items ++ value_text event.now) }
{
    match event {
        Event::StartArray => text.extend_from_slice(b"[]"),
        Event::StartObject => text.extend_from_slice(b"{}"),
        Event::Null => text.extend_from_slice(b"null"),
        Event::Bool(true) => text.extend_from_slice(b"true"),
        Event::Bool(false) => text.extend_from_slice(b"false"),
        Event::Number(number) => text.extend_from_slice(&number.text),
        Event::String(value) => write_string(value, text),
        _ => Ok(()),
    }
}

// Appends an event of a text without blanks.
fn append_compact(path: &Path, event: &Event, text: &mut Vec<u8>) -> Result<(), AllocError>
    ensures { OnOk result (text.new.items ≡ text.old.items ++ compact path.now event.now) }
{
    match event {
        Event::StartArray => append_opening(path.here(), b'[', text),
        Event::StartObject => append_opening(path.here(), b'{', text),
        Event::EndArray => append_closing(b']', path, text),
        Event::EndObject => append_closing(b'}', path, text),
        Event::Key(name) => append_name(path.here(), name, text),
        _ => append_scalar(path, event, text),
    }
}

// Appends an opening bracket.
fn append_opening(here: &Step, bracket: u8, text: &mut Vec<u8>) -> Result<(), AllocError>
    ensures { OnOk result (text.new.items
        ≡ text.old.items ++ (comma_before here.now ++ bracket ∷ [])) }
{
    append_comma(here, text)?;
    text.push(bracket)?;
    Ok(())
}

// Appends a closing bracket.
fn append_closing(bracket: u8, path: &Path, text: &mut Vec<u8>) -> Result<(), AllocError>
    ensures { OnOk result (text.new.items
        ≡ text.old.items ++ bracket ∷ feed_after (closed path.now).outer) }
{
    text.push(bracket)?;
    if path.outer().len() <= 1 {
        text.push(b'\n')?;
    }
    Ok(())
}

// Appends a name.
fn append_name(here: &Step, name: &str, text: &mut Vec<u8>) -> Result<(), AllocError>
    ensures { OnOk result (text.new.items
        ≡ text.old.items ++ (comma_between here.now ++ (written_string name.now ++ 58 ∷ []))) }
{
    if !matches!(here, Step::Inside) {
        text.push(b',')?;
    }
    write_string(name, text)?;
    text.push(b':')?;
    Ok(())
}

// Appends a value that is no array and no object.
fn append_scalar(path: &Path, event: &Event, text: &mut Vec<u8>) -> Result<(), AllocError>
    ensures { OnOk result (text.new.items ≡ text.old.items
        ++ (comma_before path.now.here ++ (value_text event.now ++ feed_after path.now.outer))) }
{
    append_comma(path.here(), text)?;
    append_value(event, text)?;
    if path.outer().is_empty() {
        text.push(b'\n')?;
    }
    Ok(())
}

// Appends what stands before a value.
fn append_comma(here: &Step, text: &mut Vec<u8>) -> Result<(), AllocError>
    ensures { OnOk result (text.new.items ≡ text.old.items ++ comma_before here.now) }
{
    match here {
        Step::Element(0) => Ok(()),
        Step::Element(_) => {
            text.push(b',')?;
            Ok(())
        }
        _ => Ok(()),
    }
}
