//! `Copying`: the records of the pieces of a text, written as lines.

ghost use Rattle.std.specs.Prelude.{◌≡◌, ◌+◌, ◌<◌, ◌^◌, ◌≤◌, false, [], length};
ghost use Rattle.std.specs.Prelude.{ℕ, List, Option, OnOk, IfErr};
ghost use Rattle.winnow.specs.State.{pushed, fed_of};
ghost use Rattle.winnow.specs.Reading.{ReadsAlso};
ghost use Rattle.format_csv.specs.Reading.{RowInPieces};
ghost use Rattle.example_csv.specs.Copying.{IsOfInput, IsBegun, Copies, TellsText};
ghost use Rattle.example_base.specs.declared.trouble.Trouble.TheVariants.{TooLong};
ghost use Rattle.example_csv.specs.declared.failure.Failure.TheVariants.{Stopped};

use crate::failure::Failure;
use crate::program::write_ahead;
use crate::progress::Progress;
use example_base::{Driven, Trouble};
use format_csv::{Row, rows_in_pieces_law};
use std::alloc::Global;
use std::io::Write;
use winnow::scan::ScanReader;

/// A reader of records, with what is kept of those that were read.
#[derive(Drop)]
pub struct Copying {
    reader: ScanReader<Row>,
    progress: Progress,
}

impl Copying {
    /// Returns a copy that was passed nothing.
    pub fn new(alloc: Global) -> Self
        ensures begun { IsBegun result.reader result.progress }
        ensures copies { (held : Option (List ℕ))
            → Copies [] held held result.reader result.progress }
    {
        Copying {
            reader: ScanReader::new(alloc, Row),
            progress: Progress {
                feeds: 0,
                width: None,
            },
        }
    }
}

/// It writes the records that are there with each piece.
impl<W: Write> Driven<W> for Copying {
    type Failure = Failure;

    ghost ready = { λ s. IsBegun s.reader s.progress × (s.reader.ended ≡ false) };

    ghost follows = { λ _ input held now s. Copies input held now s.reader s.progress };

    ghost tells = { λ _ input held now result. TellsText input held now result };

    fn piece(&mut self, alloc: Global, piece: &[u8], output: &mut W) -> Result<(), Failure> {
        if let Err(failure) = push(&mut self.reader, piece) {
            return Err(failure);
        }
        write_ahead(alloc, &mut self.reader, &mut self.progress, output)
    }

    fn end(&mut self, alloc: Global, output: &mut W) -> Result<(), Failure> {
        rows_in_pieces_law();
        self.reader.end();
        write_ahead(alloc, &mut self.reader, &mut self.progress, output)
    }

    fn trouble(trouble: Trouble) -> Failure {
        Failure::Stopped(trouble)
    }
}

// Pushes a piece. An input of more bytes than can be counted is refused.
fn push(reader: &mut ScanReader<Row>, piece: &[u8]) -> Result<(), Failure>
    requires { reader.old.ended ≡ false }
    ensures ok { OnOk result (reader.new ≡ pushed reader.old piece.now) }
    ensures read { OnOk result (ReadsAlso (λ r. RowInPieces) reader.old piece.now reader.new) }
    ensures counted { OnOk result (fed_of reader.new + 1 < 2 ^ 64) }
    ensures failed { IfErr result (λ failure. ¬ (IsOfInput failure)) }
    ensures long { IfErr result (λ failure. failure ≡ Stopped TooLong
        → 2 ^ 64 ≤ fed_of reader.old + length piece.now + 1) }
{
    if piece.len() >= usize::MAX - reader.fed() {
        return Err(Failure::Stopped(Trouble::TooLong));
    }
    match reader.push(piece) {
        Ok(()) => Ok(()),
        Err(refused) => Err(Failure::from(refused)),
    }
}
