//! Reading lines from pieces.

ghost use Rattle.std.specs.Prelude.{◌≡◌, ℕ, false, List, IfOk, OnOk};
ghost use Rattle.winnow_base.specs.Inputs.{joined, pieces_in};
ghost use Rattle.winnow.specs.State.{pushed};
ghost use Rattle.winnow.specs.Reading.{Lacks, ReadsAlso};
ghost use Rattle.example_lines.specs.Lines.{AreLines, HasLines, OneLine};

use crate::lines::Line;
use std::alloc::AllocError;
use std::io::{self, ErrorKind};
use winnow::reader::{ByteReader, Next, ReadError};
use winnow::stream::BStr;

// Reads all lines that have ended, and appends them to `lines`. When memory is refused, it has
// read some.
fn read_lines(reader: &mut ByteReader<Line>, lines: &mut Vec<Vec<u8>>) -> Result<(), AllocError>
    requires { reader.old.ended ≡ false }
    ensures read { (input : List ℕ) → HasLines reader.old input lines.old.items
        → HasLines reader.new input lines.new.items }
    ensures all { OnOk result ((input : List ℕ) → HasLines reader.old input lines.old.items
        → Lacks (λ _. OneLine) reader.new) }
    ensures ended { reader.new.ended ≡ false }
{
    loop {
        lines.reserve(1)?;
        match reader.read_next() {
            Ok(Next::Value(line)) => match lines.push(line) {
                Ok(()) => {}
                Err(_) => unreachable!(),
            },
            Ok(Next::NeedsMore) => return Ok(()),
            Err(ReadError::Refused(refused)) => return Err(refused),
            Ok(Next::Done) => unreachable!(),
            Err(ReadError::Failed { .. }) => unreachable!(),
            Err(ReadError::TakesNothing { .. }) => unreachable!(),
        }
    }
}

// Pushes a piece, if the length of the whole input fits a `usize` with it.
fn push(reader: &mut ByteReader<Line>, piece: &[u8]) -> io::Result<()>
    requires { reader.old.ended ≡ false }
    ensures pushed { OnOk result (reader.new ≡ pushed reader.old piece.now) }
    ensures read { OnOk result (ReadsAlso (λ _. OneLine) reader.old piece.now reader.new) }
{
    if piece.len() > usize::MAX - reader.fed() {
        return Err(io::Error::from(ErrorKind::FileTooLarge));
    }
    reader.push(piece)?;
    Ok(())
}

/// Reads the pieces, prints each line after the piece that ends it, and returns all lines and the
/// bytes after the last.
pub fn print_lines(
    rt: &(impl Print + AllocGlobal),
    pieces: &[&[u8]],
) -> io::Result<(Vec<Vec<u8>>, Vec<u8>)>
    ensures { IfOk result (λ read.
        AreLines (joined (pieces_in pieces.now)) read.0.items read.1.items) }
{
    let mut reader = ByteReader::new(rt.alloc(), Line);
    let mut lines = Vec::new(rt.alloc());
    for (i, piece) in pieces.iter().enumerate() {
        let before = lines.len();
        push(&mut reader, piece)?;
        read_lines(&mut reader, &mut lines)?;
        print_from(rt, i + 1, &lines, before)?;
    }
    let rest = reader.ahead().to_vec(rt.alloc())?;
    Ok((lines, rest))
}

// Prints the lines from index `from` on, which this piece ended.
fn print_from(rt: &impl Print, piece: usize, lines: &[Vec<u8>], from: usize) -> io::Result<()> {
    for line in lines.iter().skip(from) {
        println!(rt; "{piece}: {}", BStr::new(line))?;
    }
    Ok(())
}
