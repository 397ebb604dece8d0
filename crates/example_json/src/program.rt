//! Printing the events of an input.

ghost use Rattle.std.specs.Prelude.{◌≡◌, ℕ, ◌++◌, ◌+◌, ◌<◌, ◌^◌, List, [], false, Option, None};
ghost use Rattle.std.specs.Prelude.{length, IfOk, OnOk, IfErr, IfSome, true};
ghost use Rattle.std.specs.Io.KnownBytes.{Appends};
ghost use Rattle.format_json_events.specs.Reading.{events_ended, KeepsLimits, IsWhole};
ghost use Rattle.example_json.specs.Positions.{IsWithin};
ghost use Rattle.example_json.specs.Faults.{Places};
ghost use Rattle.example_json.specs.Taking.{IsTaken, PrintsOn, IsDone, Answers};
ghost use Rattle.example_json.specs.Printing.{IsBegun, BreaksOn, FollowsOn, FailsOn};
ghost use Rattle.example_json.specs.Printing.{Prints, PrintsAll, PrintsUntil, TellsInput};
ghost use Rattle.example_json.specs.Whole.{PrintsValue, IsOfNoValue};
ghost use Rattle.example_base.specs.declared.trouble.Trouble.TheVariants.{TooLong};
ghost use Rattle.example_json.specs.declared.failure.Failure.TheVariants.{Stopped};

use crate::failure::Failure;
use crate::positions::{Line, Position};
use crate::printing::append_line;
use example_base::{Driven, Trouble, drive, new_buffer};
use format_json_events::{EventError, EventReader, events_law};
use std::alloc::Global;
use std::io::{Read, Write};
use winnow_reader::Next;

/// What is kept of the input beside the reader.
#[derive(Clone, Copy, Debug, Drop)]
pub struct Progress {
    /// The line on which the last piece begins
    pub line: Line,
    /// How many arrays and objects are open after the events that were written
    pub level: usize,
}

/// Reads a text to the end of the input, and writes each event as soon as its bytes are there. Each
/// value may stand within at most `depth` arrays and objects.
///
/// Where the bytes of the input are known, those of the output are known too: the lines of all its
/// events, or of those before the failure, which has the line and column of its place in the whole
/// input. Where the input is a value within the limit on depth, the events are those of the value,
/// and no failure is one of the text.
pub fn print_events<R: Read, W: Write>(
    alloc: Global,
    depth: usize,
    input: &mut R,
    output: &mut W,
) -> Result<(), Failure>
    ensures printed { OnOk result (IfSome (R.remaining input.old) (λ bytes.
        PrintsAll depth bytes (W.contents output.old) (W.contents output.new))) }
    ensures failed { IfErr result (λ failure. IfSome (R.remaining input.old) (λ bytes.
        PrintsUntil depth bytes failure (W.contents output.old) (W.contents output.new))) }
    ensures value { OnOk result (IfSome (R.remaining input.old) (λ bytes.
        PrintsValue depth bytes (W.contents output.old) (W.contents output.new))) }
    ensures none { IfErr result (λ failure. IfSome (R.remaining input.old) (λ bytes.
        IsOfNoValue depth bytes failure)) }
{
    events_law();
    print_pieces(alloc, depth, input, output)
}

// Reads the pieces of the input to its end, and writes the events that each brings.
fn print_pieces<R: Read, W: Write>(
    alloc: Global,
    depth: usize,
    input: &mut R,
    output: &mut W,
) -> Result<(), Failure>
    ensures printed { OnOk result (IfSome (R.remaining input.old) (λ bytes.
        PrintsAll depth bytes (W.contents output.old) (W.contents output.new))) }
    ensures failed { IfErr result (λ failure. IfSome (R.remaining input.old) (λ bytes.
        PrintsUntil depth bytes failure (W.contents output.old) (W.contents output.new))) }
{
    let mut buffer = match new_buffer(alloc) {
        Ok(buffer) => buffer,
        Err(trouble) => return Err(Failure::Stopped(trouble)),
    };
    let mut printing = Printing::new(alloc, depth);
    drive(alloc, input, &mut buffer, &mut printing, output)
}

/// A reader of events, with what is kept beside it.
#[derive(Drop)]
pub struct Printing {
    reader: EventReader,
    progress: Progress,
}

impl Printing {
    // Returns a printer that was passed nothing.
    fn new(alloc: Global, depth: usize) -> Self
        ensures begun { IsBegun result.reader result.progress }
        ensures limit { result.reader.text.depth ≡ depth }
        ensures goes_on { result.reader.tokens.ended ≡ false }
        ensures prints { (held : Option (List ℕ))
            → Prints result.reader.text.depth [] held held result.reader result.progress }
    {
        Printing {
            reader: EventReader::new(alloc, depth),
            progress: Progress {
                line: Line::first(),
                level: 0,
            },
        }
    }
}

/// It writes the events that are there with each piece.
impl<W: Write> Driven<W> for Printing {
    type Failure = Failure;

    ghost ready = { λ s. IsBegun s.reader s.progress × (s.reader.tokens.ended ≡ false) };

    ghost follows = { λ start input held now s.
        Prints start.reader.text.depth input held now s.reader s.progress };

    ghost tells = { λ start input held now result.
        TellsInput start.reader.text.depth input held now result };

    fn piece(&mut self, alloc: Global, piece: &[u8], output: &mut W) -> Result<(), Failure> {
        print_piece(alloc, piece, &mut self.reader, &mut self.progress, output)
    }

    fn end(&mut self, alloc: Global, output: &mut W) -> Result<(), Failure> {
        print_last(alloc, &mut self.reader, &mut self.progress, output)
    }

    fn trouble(trouble: Trouble) -> Failure {
        Failure::Stopped(trouble)
    }
}

// Writes the events that are there with a piece more. An input of more bytes than can be counted is
// refused.
fn print_piece<W: Write>(
    alloc: Global,
    piece: &[u8],
    reader: &mut EventReader,
    progress: &mut Progress,
    output: &mut W,
) -> Result<(), Failure>
    requires begun { IsBegun reader.old progress.old }
    requires goes_on { reader.old.tokens.ended ≡ false }
    ensures keeps { OnOk result (KeepsLimits reader.old reader.new) }
    ensures printed { OnOk result (FollowsOn reader.old progress.old piece.now
        reader.new progress.new (Appends (W.contents output.old) (W.contents output.new))) }
    ensures failed { IfErr result (λ failure. FailsOn reader.old progress.old piece.now
        reader.old failure (Appends (W.contents output.old) (W.contents output.new))) }
{
    if piece.len() >= usize::MAX - progress.line.bytes {
        return Err(Failure::Stopped(Trouble::TooLong));
    }
    if let Err(refused) = reader.push(piece) {
        return Err(Failure::from(refused));
    }
    if let Err(failure) = print_ready(alloc, piece, reader, progress, output) {
        return Err(failure);
    }
    progress.line = progress.line.after(piece);
    Ok(())
}

// Writes the events that are there at the end of the input.
fn print_last<W: Write>(
    alloc: Global,
    reader: &mut EventReader,
    progress: &mut Progress,
    output: &mut W,
) -> Result<(), Failure>
    requires { IsBegun reader.old progress.old }
    ensures limit { OnOk result (reader.new.text.depth ≡ reader.old.text.depth) }
    ensures done { OnOk result (IsDone reader.new) }
    ensures printed { OnOk result (PrintsOn reader.old progress.old.level reader.new
        progress.new.level (Appends (W.contents output.old) (W.contents output.new))) }
    ensures failed { IfErr result (λ failure. FailsOn reader.old progress.old []
        (events_ended reader.old) failure
        (Appends (W.contents output.old) (W.contents output.new))) }
{
    reader.end();
    if let Err(failure) = print_ready(alloc, b"", reader, progress, output) {
        return Err(failure);
    }
    Ok(())
}

// Writes the events that are there, also those before a fault. The piece is the last one.
fn print_ready<W: Write>(
    alloc: Global,
    piece: &[u8],
    reader: &mut EventReader,
    progress: &mut Progress,
    output: &mut W,
) -> Result<(), Failure>
    requires going { reader.old.stopped ≡ None }
    requires within { IsWithin progress.old.line }
    requires fits { progress.old.line.bytes + length piece.now + 1 < 2 ^ 64 }
    ensures going { OnOk result (reader.new.stopped ≡ None) }
    ensures whole { OnOk result (reader.new.tokens.ended ≡ true → IsWhole reader.new) }
    ensures keeps { KeepsLimits reader.old reader.new }
    ensures line { progress.new.line ≡ progress.old.line }
    ensures printed { OnOk result (PrintsOn reader.old progress.old.level reader.new
        progress.new.level (Appends (W.contents output.old) (W.contents output.new))) }
    ensures failed { IfErr result (λ failure. BreaksOn reader.old progress.old piece.now
        failure (Appends (W.contents output.old) (W.contents output.new))) }
{
    let mut text = Vec::new(alloc);
    let mut level = progress.level;
    let taken = take_events(reader, &mut level, &mut text);
    progress.level = level;
    match output.write_all(&text) {
        Ok(()) => answer(taken, progress.line, piece),
        Err(error) => Err(Failure::Stopped(Trouble::writing(error))),
    }
}

// Takes the events that are there, and appends their lines to the text.
fn take_events(
    reader: &mut EventReader,
    level: &mut usize,
    text: &mut Vec<u8>,
) -> Result<Next<()>, EventError>
    requires { reader.old.stopped ≡ None }
    ensures keeps { KeepsLimits reader.old reader.new }
    ensures taken { IsTaken reader.old level.old result reader.new level.new
        (λ lines. text.new.items ≡ text.old.items ++ lines) }
{
    // No text has enough events to use up the turns.
    for _turn in 0..u64::MAX {
        match take_event(reader, level, text) {
            Ok(Next::Value(())) => {}
            Ok(Next::NeedsMore) => return Ok(Next::NeedsMore),
            Ok(Next::Done) => return Ok(Next::Done),
            Err(error) => return Err(error),
        }
    }
    Ok(Next::Value(()))
}

// Takes the next event, if its bytes are there, and appends its line to the text.
fn take_event(
    reader: &mut EventReader,
    level: &mut usize,
    text: &mut Vec<u8>,
) -> Result<Next<()>, EventError>
    requires { reader.old.stopped ≡ None }
    ensures keeps { KeepsLimits reader.old reader.new }
    ensures taken { IsTaken reader.old level.old result reader.new level.new
        (λ lines. text.new.items ≡ text.old.items ++ lines) }
{
    match reader.next_event() {
        Ok(Next::Value(event)) => match append_line(&event, level, text) {
            Ok(()) => Ok(Next::Value(())),
            Err(refused) => Err(EventError::Refused(refused)),
        },
        Ok(Next::NeedsMore) => Ok(Next::NeedsMore),
        Ok(Next::Done) => Ok(Next::Done),
        Err(error) => Err(error),
    }
}

// Returns what is answered where the events were taken so. The last piece begins on the line.
fn answer(taken: Result<Next<()>, EventError>, line: Line, piece: &[u8]) -> Result<(), Failure>
    requires within { IsWithin line }
    requires fits { line.bytes + length piece.now + 1 < 2 ^ 64 }
    ensures { Answers line piece.now taken result }
{
    match taken {
        Ok(Next::Value(())) => Err(Failure::Stopped(Trouble::TooLong)),
        Ok(Next::NeedsMore) => Ok(()),
        Ok(Next::Done) => Ok(()),
        Err(EventError::Damaged { place, cause }) => {
            Err(Failure::Damaged(position(line, piece, place)?, cause))
        }
        Err(EventError::Unexpected { place }) => {
            Err(Failure::Unexpected(position(line, piece, place)?))
        }
        Err(EventError::TooDeep { place }) => {
            Err(Failure::TooDeep(position(line, piece, place)?))
        }
        Err(EventError::EndsEarly { place }) => {
            Err(Failure::EndsEarly(position(line, piece, place)?))
        }
        Err(EventError::Refused(refused)) => Err(Failure::from(refused)),
    }
}

// Returns the position of a place in the piece, or in the token that began before it: no line ends
// in a token.
fn position(line: Line, piece: &[u8], place: usize) -> Result<Position, Failure>
    requires within { IsWithin line }
    requires fits { line.bytes + length piece.now + 1 < 2 ^ 64 }
    ensures placed { IfOk result (Places line piece.now place) }
    ensures failed { IfErr result (λ failure. failure ≡ Stopped TooLong) }
{
    let width = place.saturating_sub(line.bytes).min(piece.len());
    match line.after(&piece[..width]).position(place) {
        Some(position) => Ok(position),
        None => Err(Failure::Stopped(Trouble::TooLong)),
    }
}
