//! `ScriptInput`: runs of a script on bytes or text, whole or in pieces.

ghost use Rattle.std.specs.Prelude.{◌≡◌, ◌+◌, ◌<◌, ◌^◌, [], IfOk, OnOk, string_bytes, sum_by};
ghost use Rattle.winnow_script_feed.specs.Feeding.{bytes_fed};
ghost use Rattle.winnow_script_feed.specs.Inputs.{InputRules, byte_input, text_input};
ghost use Rattle.winnow_script_lines.specs.Inputs.{piece_length};
ghost use Rattle.winnow_script_lines.specs.ReportLines.{Prints};
ghost use Rattle.winnow_script_lines.specs.ScriptLines.{RunsWhole, RunsPieces};
ghost use Rattle.winnow_script_lines.specs.TakenLines.{TakesLine, ReportsAll};

use crate::contents::Contents;
use crate::fed_lines::FedLine;
use crate::loans::lend_steps;
use crate::report::Report;
use crate::steps::ScriptStep;
use crate::whole::print_answers;
use std::alloc::{AllocError, Global};
use winnow_script_feed::{ByteFeed, TextFeed};
use winnow_script_run::SearchStep;
use winnow_sets::CharSet;

/// Contents that a script runs on, whole or in pieces.
pub trait ScriptInput: Contents {
    // The kind of input that the contents are.
    ghost kind: { InputRules };

    /// Runs the steps on the contents, and returns the lines of their answers.
    fn run_whole<'k>(
        &self,
        alloc: Global,
        steps: &'k [ScriptStep<'k, Self>],
    ) -> Result<String, AllocError>
        ensures { IfOk result (λ text.
            RunsWhole Self.bytes kind steps.now self.now (string_bytes text)) };

    /// Runs the steps on the pieces of these lines, and returns the lines that they print.
    fn run_pieces<'k>(
        alloc: Global,
        steps: &'k [ScriptStep<'k, Self>],
        lines: &[FedLine<Self>],
    ) -> Result<String, AllocError>
        requires { sum_by (piece_length Self.bytes) lines.now < 2 ^ 64 }
        ensures { IfOk result (λ text.
            RunsPieces Self.bytes kind steps.now lines.now (string_bytes text)) };
}

impl ScriptInput for Vec<u8> {
    ghost kind = { byte_input };

    fn run_whole<'k>(
        &self,
        alloc: Global,
        steps: &'k [ScriptStep<'k, Vec<u8>>],
    ) -> Result<String, AllocError> {
        let steps = lend_steps(alloc, steps)?;
        print_answers(alloc, self.as_slice(), &steps)
    }

    fn run_pieces<'k>(
        alloc: Global,
        steps: &'k [ScriptStep<'k, Vec<u8>>],
        lines: &[FedLine<Vec<u8>>],
    ) -> Result<String, AllocError> {
        let steps = lend_steps(alloc, steps)?;
        let mut report = Report::new(alloc);
        feed_byte_lines(alloc, &steps, lines, &mut report)?;
        Ok(report.into_text())
    }
}

impl ScriptInput for String {
    ghost kind = { text_input };

    fn run_whole<'k>(
        &self,
        alloc: Global,
        steps: &'k [ScriptStep<'k, String>],
    ) -> Result<String, AllocError> {
        let steps = lend_steps(alloc, steps)?;
        print_answers(alloc, self.as_str(), &steps)
    }

    fn run_pieces<'k>(
        alloc: Global,
        steps: &'k [ScriptStep<'k, String>],
        lines: &[FedLine<String>],
    ) -> Result<String, AllocError> {
        let steps = lend_steps(alloc, steps)?;
        let mut report = Report::new(alloc);
        feed_text_lines(alloc, &steps, lines, &mut report)?;
        Ok(report.into_text())
    }
}

// Takes all lines of pieces in order, then ends the input and reports the remaining answers.
fn feed_byte_lines(
    alloc: Global,
    steps: &[SearchStep<CharSet<'_>, &[u8]>],
    lines: &[FedLine<Vec<u8>>],
    report: &mut Report,
) -> Result<(), AllocError>
    requires short { sum_by (piece_length (λ piece. piece.items)) lines.now < 2 ^ 64 }
    requires text { string_bytes report.old.text ≡ [] }
    requires answers { report.old.answers ≡ 0 }
    requires pieces { report.old.pieces ≡ 0 }
    ensures { OnOk result (Prints byte_input steps.now (λ piece. piece.items) [] 0 lines.now
        (string_bytes report.new.text)) }
{
    let mut feed = ByteFeed::new(alloc, steps)?;
    for line in lines {
        take_byte_line(&mut feed, report, line)?;
    }
    end_byte_feed(feed, report)?;
    Ok(())
}

// Ends the input, and reports the answers that were not reported before.
fn end_byte_feed(feed: ByteFeed, report: &mut Report) -> Result<(), AllocError>
    ensures { OnOk result (ReportsAll byte_input feed.entry report.old report.new) }
{
    report.push_answers(feed.end().answers())
}

// Feeds the piece of a line, or reports what the feed waits for if the line asks.
fn take_byte_line(
    feed: &mut ByteFeed,
    report: &mut Report,
    line: &FedLine<Vec<u8>>,
) -> Result<(), AllocError>
    requires { bytes_fed feed.old + piece_length (λ piece. piece.items) line.now < 2 ^ 64 }
    ensures { OnOk result (TakesLine byte_input (λ piece. piece.items) line.now
        feed.old report.old feed.new report.new) }
{
    match line {
        FedLine::Piece(piece) => {
            feed.feed(piece.as_slice())?;
            report.count_piece();
        }
        FedLine::Waits => {
            report.push_answers(feed.answers())?;
            report.push_waiting(feed.waits_for()?)?;
        }
    }
    Ok(())
}

// Takes all lines of pieces in order, then ends the input and reports the remaining answers.
fn feed_text_lines(
    alloc: Global,
    steps: &[SearchStep<CharSet<'_>, &str>],
    lines: &[FedLine<String>],
    report: &mut Report,
) -> Result<(), AllocError>
    requires short { sum_by (piece_length string_bytes) lines.now < 2 ^ 64 }
    requires text { string_bytes report.old.text ≡ [] }
    requires answers { report.old.answers ≡ 0 }
    requires pieces { report.old.pieces ≡ 0 }
    ensures { OnOk result (Prints text_input steps.now string_bytes [] 0 lines.now
        (string_bytes report.new.text)) }
{
    let mut feed = TextFeed::new(alloc, steps)?;
    for line in lines {
        take_text_line(&mut feed, report, line)?;
    }
    end_text_feed(feed, report)?;
    Ok(())
}

// Ends the input, and reports the answers that were not reported before.
fn end_text_feed(feed: TextFeed, report: &mut Report) -> Result<(), AllocError>
    ensures { OnOk result (ReportsAll text_input feed.entry report.old report.new) }
{
    report.push_answers(feed.end().answers())
}

// Feeds the piece of a line, or reports what the feed waits for if the line asks.
fn take_text_line(
    feed: &mut TextFeed,
    report: &mut Report,
    line: &FedLine<String>,
) -> Result<(), AllocError>
    requires { bytes_fed feed.old + piece_length string_bytes line.now < 2 ^ 64 }
    ensures { OnOk result (TakesLine text_input string_bytes line.now
        feed.old report.old feed.new report.new) }
{
    match line {
        FedLine::Piece(piece) => {
            feed.feed(piece.as_str())?;
            report.count_piece();
        }
        FedLine::Waits => {
            report.push_answers(feed.answers())?;
            report.push_waiting(feed.waits_for()?)?;
        }
    }
    Ok(())
}
