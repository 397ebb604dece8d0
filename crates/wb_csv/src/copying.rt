//! `Copying`: the records of the pieces of a text, written as lines.

ghost use Rattle.std.specs.Prelude.{◌≡◌, ◌+◌, ◌<◌, ◌^◌, ◌≤◌, true, false, [], length};
ghost use Rattle.std.specs.Prelude.{ℕ, List, Option, OnOk, IfErr};
ghost use Rattle.std.specs.Io.KnownBytes.{Appends};
ghost use Rattle.winnow_reader.specs.State.{pushed, fed_of};
ghost use Rattle.format_csv.specs.RowReader.{ReadsAlso};
ghost use Rattle.wb_csv.specs.Copying.{IsOfInput, IsBegun, WritesOn, StopsWith, Copies, TellsText};
ghost use Rattle.example_base.specs.declared.trouble.Trouble.TheVariants.{TooLong};
ghost use Rattle.wb_csv.specs.declared.failure.Failure.TheVariants.{Stopped};

use crate::failure::Failure;
use crate::progress::Progress;
use crate::reading::read_records;
use crate::settings::Settings;
use example_base::{Driven, Trouble};
use format_csv::{ByteRecord, RowReader};
use std::alloc::Global;
use std::io::Write;

/// A reader of records, with what is kept of those that were read.
#[derive(Drop)]
pub struct Copying {
    settings: Settings,
    reader: RowReader,
    // The record that is read, and the lines that are to be written.
    row: ByteRecord,
    text: Vec<u8>,
    progress: Progress,
}

impl Copying {
    /// Returns a copy that was passed nothing.
    pub fn new(alloc: Global, settings: Settings) -> Self
        ensures settings { result.settings ≡ settings }
        ensures copies { (held : Option (List ℕ))
            → Copies result.settings [] held held result.reader result.progress }
    {
        Copying {
            settings,
            reader: RowReader::new(alloc),
            row: ByteRecord::new(alloc),
            text: Vec::new(alloc),
            progress: Progress {
                feeds: 0,
                width: None,
            },
        }
    }

    /// Returns what it allocates from.
    pub fn allocator(&self) -> Global {
        *self.text.allocator()
    }

    // Writes the lines of the records that are ahead, also those before one that fails.
    fn write_ahead<W: Write>(&mut self, output: &mut W) -> Result<(), Failure>
        requires { IsBegun self.old.settings self.old.reader self.old.progress }
        ensures settings { OnOk result (self.new.settings ≡ self.old.settings) }
        ensures ok { OnOk result (WritesOn self.old.settings self.old.reader self.old.progress
            (W.contents output.old) self.new.reader self.new.progress (W.contents output.new)) }
        ensures through { OnOk result (self.old.reader.ended ≡ true
            → self.new.reader.ahead ≡ []) }
        ensures ended { OnOk result (self.new.reader.ended ≡ self.old.reader.ended) }
        ensures failed { IfErr result (λ failure. StopsWith self.old.settings self.old.reader
            self.old.progress (W.contents output.old) failure (W.contents output.new)) }
    {
        self.text.clear();
        let answer = read_records(
            &self.settings,
            &mut self.reader,
            &mut self.row,
            &mut self.progress,
            &mut self.text,
        );
        if let Err(trouble) = write_out(&self.text, output) {
            return Err(Failure::Stopped(trouble));
        }
        answer
    }
}

/// It writes the records that are there with each piece.
impl<W: Write> Driven<W> for Copying {
    type Failure = Failure;

    ghost ready = { λ s. IsBegun s.settings s.reader s.progress × (s.reader.ended ≡ false) };

    ghost follows = { λ start input held now s. (s.settings ≡ start.settings)
        × Copies start.settings input held now s.reader s.progress };

    ghost tells = { λ start input held now result.
        TellsText start.settings input held now result };

    fn piece(&mut self, _alloc: Global, piece: &[u8], output: &mut W) -> Result<(), Failure> {
        if let Err(failure) = push(&mut self.reader, piece) {
            return Err(failure);
        }
        self.write_ahead(output)
    }

    fn end(&mut self, _alloc: Global, output: &mut W) -> Result<(), Failure> {
        self.reader.end();
        self.write_ahead(output)
    }

    fn trouble(trouble: Trouble) -> Failure {
        Failure::Stopped(trouble)
    }
}

// Pushes a piece. An input of more bytes than can be counted is refused.
fn push(reader: &mut RowReader, piece: &[u8]) -> Result<(), Failure>
    requires { reader.old.ended ≡ false }
    ensures ok { OnOk result (reader.new ≡ pushed reader.old piece.now) }
    ensures read { OnOk result (ReadsAlso reader.old piece.now reader.new) }
    ensures counted { OnOk result (fed_of reader.new + 1 < 2 ^ 64) }
    ensures failed { IfErr result (λ failure. ¬ (IsOfInput failure)) }
    ensures long { IfErr result (λ failure. failure ≡ Stopped TooLong
        → 2 ^ 64 ≤ fed_of reader.old + length piece.now + 1) }
{
    if piece.len() >= usize::MAX - reader.fed() {
        return Err(Failure::Stopped(Trouble::TooLong));
    }
    match reader.push(piece) {
        Ok(()) => Ok(()),
        Err(refused) => Err(Failure::from(refused)),
    }
}

// Writes lines, and flushes the output.
fn write_out<W: Write>(text: &[u8], output: &mut W) -> Result<(), Trouble>
    ensures { OnOk result (Appends (W.contents output.old) (W.contents output.new) text.now) }
{
    if let Err(error) = output.write_all(text) {
        return Err(Trouble::writing(error));
    }
    match output.flush() {
        Ok(()) => Ok(()),
        Err(error) => Err(Trouble::writing(error)),
    }
}
