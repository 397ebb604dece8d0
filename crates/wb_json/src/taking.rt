//! Taking the events that are there, and writing their lines.

ghost use Rattle.std.specs.Prelude.{◌≡◌, None, OnOk};
ghost use Rattle.std.specs.Io.KnownBytes.{Appends};
ghost use Rattle.format_json_events.specs.Reading.{KeepsLimits};
ghost use Rattle.format_json_events.specs.Lengths.{KeepsShort};
ghost use Rattle.wb_json.specs.Paths.{moved};
ghost use Rattle.wb_json.specs.Lines.{line_of};
ghost use Rattle.wb_json.specs.Taking.{IsTaken, IsStopAt, IsStopOf};

use crate::failure::Fault;
use crate::lines::append_line;
use crate::path::Path;
use crate::settings::{Layout, Settings};
use example_base::Trouble;
use format_json_events::{Event, EventError, EventReader, WithinError};
use std::io::Write;
use winnow_reader::Next;

/// Why no more events are taken.
#[derive(Clone, Copy, Debug, Drop)]
pub enum Stop {
    /// The text has this fault at this place
    Faulty(usize, Fault),
    /// Memory was refused, or writing failed
    Stopped(Trouble),
}

/// Takes the events that are there, and writes their lines. The text is room for a line.
pub fn take_events<W: Write>(
    settings: Settings,
    reader: &mut EventReader,
    path: &mut Path,
    text: &mut Vec<u8>,
    output: &mut W,
) -> Result<Next<()>, Stop>
    requires { reader.old.stopped ≡ None }
    ensures keeps { KeepsLimits reader.old reader.new }
    ensures short { OnOk result (KeepsShort settings.limit reader.old reader.new) }
    ensures taken { IsTaken settings reader.old path.old result reader.new path.new
        (W.contents output.old) (W.contents output.new) }
{
    // No text has enough events to use up the turns.
    for _turn in 0..u64::MAX {
        match take_event(settings, reader, path, text, output) {
            Ok(Next::Value(())) => {}
            Ok(Next::NeedsMore) => return Ok(Next::NeedsMore),
            Ok(Next::Done) => return Ok(Next::Done),
            Err(stop) => return Err(stop),
        }
    }
    Ok(Next::Value(()))
}

// Takes the next event, if its bytes are there, and writes its line.
fn take_event<W: Write>(
    settings: Settings,
    reader: &mut EventReader,
    path: &mut Path,
    text: &mut Vec<u8>,
    output: &mut W,
) -> Result<Next<()>, Stop>
    requires { reader.old.stopped ≡ None }
    ensures keeps { KeepsLimits reader.old reader.new }
    ensures short { OnOk result (KeepsShort settings.limit reader.old reader.new) }
    ensures taken { IsTaken settings reader.old path.old result reader.new path.new
        (W.contents output.old) (W.contents output.new) }
{
    match reader.next_within(settings.limit) {
        Ok(Next::Value(event)) => match write_event(settings.layout, event, path, text, output) {
            Ok(()) => Ok(Next::Value(())),
            Err(trouble) => Err(Stop::Stopped(trouble)),
        },
        Ok(Next::NeedsMore) => Ok(Next::NeedsMore),
        Ok(Next::Done) => Ok(Next::Done),
        Err(error) => Err(stop_of(settings.limit, error)),
    }
}

/// Writes the line of an event, and moves the path past it. The text is room for a line.
pub fn write_event<W: Write>(
    layout: Layout,
    event: Event,
    path: &mut Path,
    text: &mut Vec<u8>,
    output: &mut W,
) -> Result<(), Trouble>
    ensures path { OnOk result (path.new ≡ moved path.old event) }
    ensures wrote { OnOk result (Appends (W.contents output.old) (W.contents output.new)
        (line_of layout path.old event)) }
{
    text.clear();
    if let Err(refused) = append_line(layout, path, &event, text) {
        return Err(Trouble::from(refused));
    }
    if let Err(error) = output.write_all(text) {
        return Err(Trouble::writing(error));
    }
    match path.follow(event) {
        Ok(()) => Ok(()),
        Err(refused) => Err(Trouble::from(refused)),
    }
}

// Returns why no more events are taken after an error of the reader.
fn stop_of(limit: usize, error: WithinError) -> Stop
    ensures { IsStopOf limit error result }
{
    match error {
        WithinError::TooLong { place } => Stop::Faulty(place, Fault::TooLong(limit)),
        WithinError::Failed(error) => stop_at(error),
    }
}

// Returns why no more events are taken after an error that has nothing to do with the limit.
fn stop_at(error: EventError) -> Stop
    ensures { IsStopAt error result }
{
    match error {
        EventError::Damaged { place, cause } => Stop::Faulty(place, Fault::Damaged(cause)),
        EventError::Unexpected { place } => Stop::Faulty(place, Fault::Unexpected),
        EventError::TooDeep { place } => Stop::Faulty(place, Fault::TooDeep),
        EventError::EndsEarly { place } => Stop::Faulty(place, Fault::EndsEarly),
        EventError::Refused(refused) => Stop::Stopped(Trouble::from(refused)),
    }
}
