//! Copying the records of an input as lines.

ghost use Rattle.std.specs.Prelude.{◌≡◌, ◌<◌, true, [], ℕ, List, Option, length, IfOk, OnOk, IfErr};
ghost use Rattle.std.specs.Prelude.{IfSome};
ghost use Rattle.std.specs.Io.KnownBytes.{Consumes, IsAtEnd, prepend_known};
ghost use Rattle.wb_csv.specs.Copying.{IsOfInput, Copies, CopiesAll, CopiesUntil};
ghost use Rattle.wb_csv.specs.Copying.{CopiesBytes, StopsBytes, CopiesInput, StopsInput};
ghost use Rattle.wb_csv.specs.Plain.{IsPlain, CopiesPlain};

use crate::copying::Copying;
use crate::failure::Failure;
use crate::laws::comma_law;
use crate::settings::Settings;
use example_base::{Driven, Trouble, drive, new_buffer, read_piece};
use format_csv::skip_mark;
use std::alloc::Global;
use std::io::{Read, Write};
use wb_base::Exchanged;

/// Reads the records of an input to its end, and writes the line of each. A byte order mark of
/// UTF-8 before the first record is skipped; any other mark is a failure.
///
/// The delimiter of the settings takes the place of the comma as the input is read, and the comma
/// its place; both are back in a field that is written.
///
/// If the bytes of the input are known, those of the output are known too: the lines of all its
/// records, or of those before the failure. No record that is written has more bytes than the
/// settings allow. Without an option for what is written these are the records of RFC 4180, as
/// `format_csv` reads and writes them (clause `plain`, by [`comma_law`](crate::laws::comma_law)).
pub fn copy_records<R: Read, W: Write>(
    alloc: Global,
    settings: Settings,
    input: &mut R,
    output: &mut W,
) -> Result<(), Failure>
    ensures copied { OnOk result (IfSome (R.remaining input.old) (λ bytes.
        CopiesInput settings bytes (W.contents output.old) (W.contents output.new))) }
    ensures failed { IfErr result (λ failure. IfSome (R.remaining input.old) (λ bytes.
        StopsInput settings bytes failure (W.contents output.old) (W.contents output.new))) }
    ensures plain { IsPlain settings → OnOk result (IfSome (R.remaining input.old) (λ bytes.
        CopiesPlain bytes (W.contents output.old) (W.contents output.new))) }
{
    comma_law();
    let mut exchanged = Exchanged {
        inner: input,
        one: b',',
        other: settings.delimiter,
    };
    copy_bytes(alloc, settings, &mut exchanged, output)
}

// Reads and writes the records of bytes in which the delimiter has the place of the comma.
fn copy_bytes<R: Read, W: Write>(
    alloc: Global,
    settings: Settings,
    input: &mut R,
    output: &mut W,
) -> Result<(), Failure>
    ensures copied { OnOk result (IfSome (R.remaining input.old) (λ bytes.
        CopiesBytes settings bytes (W.contents output.old) (W.contents output.new))) }
    ensures failed { IfErr result (λ failure. IfSome (R.remaining input.old) (λ bytes.
        StopsBytes settings bytes failure (W.contents output.old) (W.contents output.new))) }
{
    let mut buffer = match new_buffer(alloc) {
        Ok(buffer) => buffer,
        Err(trouble) => return Err(Failure::Stopped(trouble)),
    };
    let mut start = Vec::new(alloc);
    for _ in 0..u64::MAX {
        let ended = match read_on(input, &mut buffer, &mut start) {
            Ok(ended) => ended,
            Err(failure) => return Err(failure),
        };
        match skip_mark(&start, true, ended) {
            None => {}
            Some(Ok(text)) => {
                let copying = Copying::new(alloc, settings);
                return copy_text(copying, text, ended, input, &mut buffer, output);
            }
            Some(Err(mark)) => return Err(Failure::Marked(mark)),
        }
    }
    Err(Failure::Stopped(Trouble::TooLong))
}

// Reads a piece, and appends it. Returns whether the input has ended.
fn read_on<R: Read>(input: &mut R, buffer: &mut [u8], start: &mut Vec<u8>) -> Result<bool, Failure>
    requires { 0 < length buffer.old }
    ensures taken { (had : Option (List ℕ)) → OnOk result
        (Consumes had (R.remaining input.old) start.old.items
        → Consumes had (R.remaining input.new) start.new.items) }
    ensures end { IfOk result (λ ended. ended ≡ true → IsAtEnd (R.remaining input.new)) }
    ensures failed { IfErr result (λ failure. ¬ (IsOfInput failure)) }
{
    let count = match read_piece(input, buffer) {
        Ok(count) => count,
        Err(trouble) => return Err(Failure::Stopped(trouble)),
    };
    match start.extend_from_slice(&buffer[..count]) {
        Ok(()) => Ok(count == 0),
        Err(refused) => Err(Failure::from(refused)),
    }
}

// Copies the records of a text, which begins with these bytes and goes on with the input, unless
// that has ended. Nothing was copied before.
fn copy_text<R: Read, W: Write>(
    mut copying: Copying,
    text: &[u8],
    ended: bool,
    input: &mut R,
    buffer: &mut [u8],
    output: &mut W,
) -> Result<(), Failure>
    requires room { 0 < length buffer.old }
    requires end { ended ≡ true → IsAtEnd (R.remaining input.old) }
    requires fresh { (held : Option (List ℕ))
        → Copies copying.settings [] held held copying.reader copying.progress }
    ensures copied { OnOk result (IfSome (prepend_known text.now (R.remaining input.old)) (λ bytes.
        CopiesAll copying.settings bytes (W.contents output.old) (W.contents output.new))) }
    ensures failed { IfErr result (λ failure.
        IfSome (prepend_known text.now (R.remaining input.old)) (λ bytes.
        CopiesUntil copying.settings bytes failure (W.contents output.old)
        (W.contents output.new))) }
{
    let alloc = copying.allocator();
    if let Err(failure) = copying.piece(alloc, text, output) {
        return Err(failure);
    }
    if ended {
        return copying.end(alloc, output);
    }
    drive(alloc, input, buffer, &mut copying, output)
}
