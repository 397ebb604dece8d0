//! `Report`, the lines that a run over pieces prints.

ghost use Rattle.std.specs.Prelude.{◌≡◌, ◌++◌, ◌+◌, [], drop, length, min, string_bytes, OnOk};
ghost use Rattle.winnow_script_feed.specs.ToldAnswers.{capped};
ghost use Rattle.winnow_script_lines.specs.ReportLines.{told_lines, waiting_line};

use std::alloc::{AllocError, Global};
use winnow_script_feed::{Told, Waiting};
use winnow_script_print::{PushWords, push_numbered};
use winnow_sets::AsChar;

/// The lines that a run over pieces prints, and the numbers of answers and pieces so far.
#[derive(Drop)]
pub struct Report {
    text: String,
    answers: usize,
    pieces: usize,
}

impl Report {
    /// Returns a report without lines.
    pub fn new(alloc: Global) -> Self
        ensures text { string_bytes result.text ≡ [] }
        ensures answers { result.answers ≡ 0 }
        ensures pieces { result.pieces ≡ 0 }
    {
        Report {
            text: String::new(alloc),
            answers: 0,
            pieces: 0,
        }
    }

    /// Counts one more piece.
    pub fn count_piece(&mut self)
        ensures text { self.new.text ≡ self.old.text }
        ensures answers { self.new.answers ≡ self.old.answers }
        ensures pieces { self.new.pieces ≡ capped (self.old.pieces + 1) }
    {
        self.pieces = self.pieces.saturating_add(1);
    }

    /// Appends the lines of the answers that were not reported before.
    pub fn push_answers<T: AsChar + Copy>(&mut self, answers: &[Told<T>]) -> Result<(), AllocError>
        ensures text { OnOk result (string_bytes self.new.text
            ≡ string_bytes self.old.text ++ told_lines T.code (drop self.old.answers answers.now)) }
        ensures answers { OnOk result (self.new.answers ≡ length answers.now) }
        ensures pieces { self.new.pieces ≡ self.old.pieces }
    {
        if let Some(further) = answers.get(self.answers..) {
            push_all_told(&mut self.text, further)?;
        }
        self.answers = answers.len();
        Ok(())
    }

    /// Appends the line that says what the feed waits for.
    pub fn push_waiting<P: PushWords + Drop>(
        &mut self,
        waiting: Waiting<P>,
    ) -> Result<(), AllocError>
        ensures text { OnOk result (string_bytes self.new.text
            ≡ string_bytes self.old.text ++ waiting_line P.words self.old.pieces waiting) }
        ensures answers { self.new.answers ≡ self.old.answers }
        ensures pieces { self.new.pieces ≡ self.old.pieces }
    {
        let pieces = self.pieces;
        write!(self.text, "{pieces} waits")?;
        match waiting {
            Waiting::Until(more) => more.push_words(&mut self.text)?,
            Waiting::ToEnd => self.text.push_str(" end")?,
            // No line asks before a piece was fed.
            Waiting::NotWaiting | Waiting::NotFed => self.text.push_str(" none")?,
        }
        self.text.push('\n')
    }

    /// Returns the lines as text.
    pub fn into_text(self) -> String
        ensures { result ≡ self.text }
    {
        self.text
    }
}

// Appends the line of each answer, in order.
fn push_all_told<T: AsChar + Copy>(text: &mut String, answers: &[Told<T>]) -> Result<(), AllocError>
    ensures { OnOk result (string_bytes text.new
        ≡ string_bytes text.old ++ told_lines T.code answers.now) }
{
    for told in answers {
        push_numbered(text, told.piece, &told.answer)?;
    }
    Ok(())
}
