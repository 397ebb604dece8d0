//! Copying the records of an input as lines.

ghost use Rattle.std.specs.Prelude.{◌≡◌, ◌+◌, ◌-◌, ◌≤◌, ◌<◌, ◌^◌, true, [], length};
ghost use Rattle.std.specs.Prelude.{ℕ, List, Option, take, drop, IfOk, OnOk, IfErr};
ghost use Rattle.std.specs.Prelude.{IfSome};
ghost use Rattle.std.specs.Io.KnownBytes.{Appends, Consumes, IsAtEnd, prepend_known};
ghost use Rattle.winnow.specs.State.{fed_of};
ghost use Rattle.format_csv.specs.Writing.{values_in};
ghost use Rattle.example_csv.specs.Lines.{line_of};
ghost use Rattle.example_csv.specs.Copying.{IsOfInput, IsDamageAfter, IsBegun, WritesOn, StopsWith};
ghost use Rattle.example_csv.specs.Copying.{CopiesAll, CopiesUntil, CopiesInput, StopsInput};
ghost use Rattle.example_base.specs.declared.trouble.Trouble.TheVariants.{TooLong};
ghost use Rattle.example_csv.specs.declared.failure.Failure.TheVariants.{Stopped};

use crate::copying::Copying;
use crate::failure::{Failure, Fault};
use crate::lines::line_of;
use crate::positions::position_after;
use crate::progress::Progress;
use example_base::{Driven, Trouble, drive, new_buffer, read_piece};
use format_csv::{Row, rows_in_pieces_law, skip_mark};
use std::alloc::Global;
use std::io::{Read, Write};
use winnow::reader::{Next, ReadError};
use winnow::scan::ScanReader;

/// Reads the records of an input to its end, and writes each as a line. A byte order mark of UTF-8
/// before the first record is skipped, if it is to be; any other mark is a failure.
///
/// If the bytes of the input are known, those of the output are known too: the lines of all its
/// records, or of those before the failure.
pub fn copy_records<R: Read, W: Write>(
    alloc: Global,
    skips_mark: bool,
    input: &mut R,
    output: &mut W,
) -> Result<(), Failure>
    ensures copied { OnOk result (IfSome (R.remaining input.old) (λ bytes.
        CopiesInput skips_mark bytes (W.contents output.old) (W.contents output.new))) }
    ensures failed { IfErr result (λ failure. IfSome (R.remaining input.old) (λ bytes.
        StopsInput skips_mark bytes failure (W.contents output.old) (W.contents output.new))) }
{
    let mut buffer = match new_buffer(alloc) {
        Ok(buffer) => buffer,
        Err(trouble) => return Err(Failure::Stopped(trouble)),
    };
    let mut start = Vec::new(alloc);
    for _ in 0..u64::MAX {
        let ended = match read_on(input, &mut buffer, &mut start) {
            Ok(ended) => ended,
            Err(failure) => return Err(failure),
        };
        match skip_mark(&start, skips_mark, ended) {
            None => {}
            Some(Ok(text)) => return copy_text(alloc, text, ended, input, &mut buffer, output),
            Some(Err(mark)) => return Err(Failure::Marked(mark)),
        }
    }
    Err(Failure::Stopped(Trouble::TooLong))
}

// Reads a piece, and appends it. Returns whether the input has ended.
fn read_on<R: Read>(input: &mut R, buffer: &mut [u8], start: &mut Vec<u8>) -> Result<bool, Failure>
    requires { 0 < length buffer.old }
    ensures taken { (had : Option (List ℕ)) → OnOk result
        (Consumes had (R.remaining input.old) start.old.items
        → Consumes had (R.remaining input.new) start.new.items) }
    ensures end { IfOk result (λ ended. ended ≡ true → IsAtEnd (R.remaining input.new)) }
    ensures failed { IfErr result (λ failure. ¬ (IsOfInput failure)) }
{
    let count = match read_piece(input, buffer) {
        Ok(count) => count,
        Err(trouble) => return Err(Failure::Stopped(trouble)),
    };
    match start.extend_from_slice(&buffer[..count]) {
        Ok(()) => Ok(count == 0),
        Err(refused) => Err(Failure::from(refused)),
    }
}

// Copies the records of a text, which begins with these bytes and goes on with the input, unless
// that has ended.
fn copy_text<R: Read, W: Write>(
    alloc: Global,
    text: &[u8],
    ended: bool,
    input: &mut R,
    buffer: &mut [u8],
    output: &mut W,
) -> Result<(), Failure>
    requires room { 0 < length buffer.old }
    requires end { ended ≡ true → IsAtEnd (R.remaining input.old) }
    ensures copied { OnOk result (IfSome (prepend_known text.now (R.remaining input.old)) (λ bytes.
        CopiesAll bytes (W.contents output.old) (W.contents output.new))) }
    ensures failed { IfErr result (λ failure.
        IfSome (prepend_known text.now (R.remaining input.old)) (λ bytes.
        CopiesUntil bytes failure (W.contents output.old) (W.contents output.new))) }
{
    let mut copying = Copying::new(alloc);
    if let Err(failure) = copying.piece(alloc, text, output) {
        return Err(failure);
    }
    if ended {
        return copying.end(alloc, output);
    }
    drive(alloc, input, buffer, &mut copying, output)
}

// Writes the records that are ahead, also those before one that fails, and flushes the output.
pub(crate) fn write_ahead<W: Write>(
    alloc: Global,
    reader: &mut ScanReader<Row>,
    progress: &mut Progress,
    output: &mut W,
) -> Result<(), Failure>
    requires { IsBegun reader.old progress.old }
    ensures ok { OnOk result (WritesOn reader.old progress.old (W.contents output.old)
        reader.new progress.new (W.contents output.new)) }
    ensures through { OnOk result (reader.old.ended ≡ true → reader.new.ahead ≡ []) }
    ensures ended { OnOk result (reader.new.ended ≡ reader.old.ended) }
    ensures failed { IfErr result (λ failure. StopsWith reader.old progress.old
        (W.contents output.old) failure (W.contents output.new)) }
{
    let answer = write_records(alloc, reader, progress, output);
    if let Err(error) = output.flush() {
        return Err(Failure::Stopped(Trouble::writing(error)));
    }
    answer
}

// Reads until there is no record, and writes each.
fn write_records<W: Write>(
    alloc: Global,
    reader: &mut ScanReader<Row>,
    progress: &mut Progress,
    output: &mut W,
) -> Result<(), Failure>
    requires { IsBegun reader.old progress.old }
    ensures ok { OnOk result (WritesOn reader.old progress.old (W.contents output.old)
        reader.new progress.new (W.contents output.new)) }
    ensures through { OnOk result (reader.old.ended ≡ true → reader.new.ahead ≡ []) }
    ensures ended { OnOk result (reader.new.ended ≡ reader.old.ended) }
    ensures failed { IfErr result (λ failure. StopsWith reader.old progress.old
        (W.contents output.old) failure (W.contents output.new)) }
{
    rows_in_pieces_law();
    loop {
        match reader.read_next() {
            Ok(Next::Value(row)) => {
                if let Err(failure) = progress.count(&row) {
                    return Err(failure);
                }
                if let Err(failure) = write_line(alloc, &row, output) {
                    return Err(failure);
                }
            }
            Ok(Next::NeedsMore) => return Ok(()),
            Ok(Next::Done) => return Ok(()),
            Err(
                ReadError::Failed {
                    error: _,
                    place,
                    is_cut: _,
                },
            ) => {
                return Err(damage(reader, progress.feeds, place));
            }
            Err(ReadError::TakesNothing { place: _ }) => unreachable!(),
            Err(ReadError::Refused(_)) => return Err(Failure::Stopped(Trouble::OutOfMemory)),
        }
    }
}

// Says what is wrong at this place of the joined input.
fn damage(reader: &ScanReader<Row>, feeds: usize, place: usize) -> Failure
    requires from { reader.now.place ≤ place }
    requires to { place ≤ fed_of reader.now }
    requires counted { feeds + length reader.now.ahead + 1 < 2 ^ 64 }
    ensures { IsDamageAfter feeds (take (place - reader.now.place) reader.now.ahead)
        (drop (place - reader.now.place) reader.now.ahead) result }
{
    let (before, rest) = reader.ahead().split_at(place - reader.place());
    Failure::Damaged(position_after(feeds, before), Fault::of(rest))
}

// Writes a record as a line.
fn write_line<W: Write>(alloc: Global, fields: &[Vec<u8>], output: &mut W) -> Result<(), Failure>
    ensures ok { OnOk result (Appends (W.contents output.old) (W.contents output.new)
        (line_of (values_in fields.now))) }
    ensures failed { IfErr result (λ failure. ¬ (IsOfInput failure)) }
{
    match line_of(alloc, fields) {
        Ok(line) => match output.write_all(&line) {
            Ok(()) => Ok(()),
            Err(error) => Err(Failure::Stopped(Trouble::writing(error))),
        },
        Err(refused) => Err(Failure::from(refused)),
    }
}
