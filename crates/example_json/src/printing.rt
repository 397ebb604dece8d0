//! An event as a line.

ghost use Rattle.std.specs.Prelude.{◌≡◌, ◌++◌, ◌+◌, ◌*◌, min, replicate, OnOk, IfOk};
ghost use Rattle.example_json.specs.Lines.{shown, line_of, level_after};

use format_json::write_string;
use format_json_events::Event;
use std::alloc::AllocError;

/// Appends the line of an event, before which this many arrays and objects are open, and moves the
/// level on by the event.
pub fn append_line(event: &Event, level: &mut usize, text: &mut Vec<u8>) -> Result<(), AllocError>
    ensures level { OnOk result (level.new ≡ level_after level.old event.now) }
    ensures line { OnOk result (text.new.items ≡ text.old.items
        ++ line_of (min level.old (level_after level.old event.now)) event.now) }
{
    let before = *level;
    let after = level_after(before, event)?;
    append_within(before.min(after), event, text)?;
    *level = after;
    Ok(())
}

// Returns how many arrays and objects are open after an event. Each that is open takes memory, so
// there are no more than can be counted.
fn level_after(level: usize, event: &Event) -> Result<usize, AllocError>
    ensures { IfOk result (λ after. after ≡ level_after level event.now) }
{
    match event {
        Event::StartArray => next_level(level),
        Event::StartObject => next_level(level),
        Event::EndArray => Ok(level.saturating_sub(1)),
        Event::EndObject => Ok(level.saturating_sub(1)),
        _ => Ok(level),
    }
}

// Returns the level within one array or object more.
fn next_level(level: usize) -> Result<usize, AllocError>
    ensures { IfOk result (λ next. next ≡ level + 1) }
{
    match level.checked_add(1) {
        Some(next) => Ok(next),
        None => Err(AllocError),
    }
}

// Appends the line of an event that stands in this many arrays and objects.
fn append_within(level: usize, event: &Event, text: &mut Vec<u8>) -> Result<(), AllocError>
    ensures { OnOk result (text.new.items ≡ text.old.items ++ line_of level event.now) }
{
    append_margin(level, text)?;
    append_event(event, text)?;
    text.push(b'\n')?;
    Ok(())
}

// Appends two spaces for each array and object.
fn append_margin(level: usize, text: &mut Vec<u8>) -> Result<(), AllocError>
    ensures { OnOk result (text.new.items ≡ text.old.items ++ replicate (2 * level) 32) }
{
    for _turn in 0..level {
        text.push(b' ')?;
        text.push(b' ')?;
    }
    Ok(())
}

// Appends what shows an event.
fn append_event(event: &Event, text: &mut Vec<u8>) -> Result<(), AllocError>
    ensures { OnOk result (text.new.items ≡ text.old.items ++ shown event.now) }
{
    match event {
        Event::StartArray => text.extend_from_slice(b"["),
        Event::EndArray => text.extend_from_slice(b"]"),
        Event::StartObject => text.extend_from_slice(b"{"),
        Event::EndObject => text.extend_from_slice(b"}"),
        Event::Key(name) => {
            write_string(name, text)?;
            text.extend_from_slice(b":")
        }
        Event::Null => text.extend_from_slice(b"null"),
        Event::Bool(true) => text.extend_from_slice(b"true"),
        Event::Bool(false) => text.extend_from_slice(b"false"),
        Event::Number(number) => text.extend_from_slice(&number.text),
        Event::String(value) => write_string(value, text),
    }
}
