//! `Printing`: the events of the pieces of an input, as they are written.

ghost use Rattle.std.specs.Prelude.{◌≡◌, ◌++◌, ◌∷◌, [], ℕ, List, Option, true, false, None};
ghost use Rattle.std.specs.Prelude.{OnOk, IfOk, IfErr};
ghost use Rattle.std.specs.Io.KnownBytes.{Appends, Keeps};
ghost use Rattle.format_json_events.specs.Reading.{IsWhole, HasGiven, events_ended, new_reader};
ghost use Rattle.wb_json.specs.Paths.{at_root};
ghost use Rattle.wb_json.specs.Failures.{IsOfText};
ghost use Rattle.wb_json.specs.Taking.{PrintsOn};
ghost use Rattle.wb_json.specs.Texts.{IsLine, IsWithin};
ghost use Rattle.wb_json.specs.Printing.{reached, written};
ghost use Rattle.wb_json.specs.Printing.{IsBegun, KeepsAll, BreaksOn, FollowsOn, FailsOn};
ghost use Rattle.wb_json.specs.Printing.{PassesOver, EndsText, Prints, IsReady, PrintsMore};
ghost use Rattle.wb_json.specs.Printing.{FailsMore, TellsInput, IsFlushed};

use crate::failure::Failure;
use crate::path::Path;
use crate::settings::{Layout, Settings};
use crate::splitting::split_line;
use crate::taking::{Stop, take_events, write_event};
use crate::window::Window;
use example_base::{Driven, Trouble};
use format_json::blank_count;
use format_json_events::{Event, EventReader};
use std::alloc::Global;
use std::io::Write;
use winnow_reader::Next;

/// A reader of events, with what is kept beside it.
#[derive(Drop)]
pub struct Printing {
    settings: Settings,
    reader: EventReader,
    path: Path,
    window: Window,
    // Whether the line has more than blanks.
    begun: bool,
    // Room for a line.
    text: Vec<u8>,
}

impl Printing {
    /// Returns a printer that has written what stands before the first text.
    pub fn begin<W: Write>(
        alloc: Global,
        settings: Settings,
        output: &mut W,
    ) -> Result<Self, Failure>
        ensures settings { IfOk result (λ p. p.settings ≡ settings) }
        ensures prints { IfOk result (λ p. Prints p [] (W.contents output.old)
            (W.contents output.new)) }
        ensures failed { IfErr result (λ failure. ¬ (IsOfText failure)) }
    {
        let mut path = Path::root(alloc);
        let mut text = Vec::new(alloc);
        if let Err(trouble) = write_opening(settings, &mut path, &mut text, output) {
            return Err(Failure::Stopped(trouble));
        }
        Ok(Printing {
            settings,
            reader: EventReader::new(alloc, settings.depth),
            path,
            window: Window::new(alloc),
            begun: false,
            text,
        })
    }

    // Writes the events that are there with a part of the text more.
    fn print_part<W: Write>(&mut self, part: &[u8], output: &mut W) -> Result<(), Failure>
        requires { IsBegun self.old }
        ensures settings { OnOk result (self.new.settings ≡ self.old.settings) }
        ensures begun { OnOk result (self.new.begun ≡ self.old.begun) }
        ensures follows { OnOk result (FollowsOn self.old part.now self.new
            (W.contents output.old) (W.contents output.new)) }
        ensures failed { IfErr result (λ failure. FailsOn self.old part.now self.old.reader
            failure (W.contents output.old) (W.contents output.new)) }
    {
        if let Err(failure) = self.window.append(part) {
            return Err(failure);
        }
        if let Err(refused) = self.reader.push(part) {
            return Err(Failure::from(refused));
        }
        self.print_ready(output)
    }

    // Writes the events that are there at the end of the text.
    fn print_rest<W: Write>(&mut self, output: &mut W) -> Result<(), Failure>
        requires { IsBegun self.old }
        ensures settings { OnOk result (self.new.settings ≡ self.old.settings) }
        ensures ends { OnOk result (EndsText self.old self.new
            (W.contents output.old) (W.contents output.new)) }
        ensures failed { IfErr result (λ failure. FailsOn self.old []
            (events_ended self.old.reader) failure (W.contents output.old)
            (W.contents output.new)) }
    {
        self.reader.end();
        self.print_ready(output)
    }

    // Writes the events that are there, also those before a fault.
    fn print_ready<W: Write>(&mut self, output: &mut W) -> Result<(), Failure>
        requires { self.old.reader.stopped ≡ None }
        ensures keeps { OnOk result (KeepsAll self.old self.new) }
        ensures whole { OnOk result (self.new.reader.tokens.ended ≡ true
            → IsWhole self.new.reader) }
        ensures printed { OnOk result (PrintsOn self.old.settings.layout self.old.reader
            self.old.path self.new.reader self.new.path (W.contents output.old)
            (W.contents output.new)) }
        ensures failed { IfErr result (λ failure. BreaksOn self.old failure
            (W.contents output.old) (W.contents output.new)) }
    {
        match take_events(
            self.settings,
            &mut self.reader,
            &mut self.path,
            &mut self.text,
            output,
        ) {
            Ok(Next::Value(())) => Err(Failure::Stopped(Trouble::TooLong)),
            Ok(Next::NeedsMore) => {
                self.window.drop_before(self.reader.place());
                Ok(())
            }
            Ok(Next::Done) => Ok(()),
            Err(Stop::Faulty(place, fault)) => Err(self.window.failure(place, fault)),
            Err(Stop::Stopped(trouble)) => Err(Failure::Stopped(trouble)),
        }
    }
}

impl Printing {
    // Writes the events that are there with a part of the input more; where each line is a text,
    // the part is of one line.
    fn print_more<W: Write>(&mut self, part: &[u8], output: &mut W) -> Result<(), Failure>
        requires ready { IsReady self.old }
        requires line { IsWithin self.old.settings.by_lines part.now }
        ensures settings { OnOk result (self.new.settings ≡ self.old.settings) }
        ensures ready { OnOk result (IsReady self.new) }
        ensures prints { OnOk result (PrintsMore self.old part.now self.new
            (W.contents output.old) (W.contents output.new)) }
        ensures failed { IfErr result (λ failure. FailsMore self.old part.now failure
            (W.contents output.old) (W.contents output.new)) }
    {
        if self.settings.by_lines {
            return self.print_in_line(part, output);
        }
        self.print_part(part, output)
    }

    // Writes the events that are there with a part of a line more.
    fn print_in_line<W: Write>(&mut self, part: &[u8], output: &mut W) -> Result<(), Failure>
        requires ready { IsReady self.old }
        requires lines { self.old.settings.by_lines ≡ true }
        requires line { IsLine part.now }
        ensures settings { OnOk result (self.new.settings ≡ self.old.settings) }
        ensures ready { OnOk result (IsReady self.new) }
        ensures prints { OnOk result (PrintsMore self.old part.now self.new
            (W.contents output.old) (W.contents output.new)) }
        ensures failed { IfErr result (λ failure. FailsMore self.old part.now failure
            (W.contents output.old) (W.contents output.new)) }
    {
        if self.begun {
            return self.print_part(part, output);
        }
        self.print_first(part, output)
    }

    // Writes the events that are there with the first part of a line, of which the text begins
    // after the blanks.
    fn print_first<W: Write>(&mut self, part: &[u8], output: &mut W) -> Result<(), Failure>
        requires ready { IsReady self.old }
        requires lines { self.old.settings.by_lines ≡ true }
        requires fresh { self.old.begun ≡ false }
        requires line { IsLine part.now }
        ensures settings { OnOk result (self.new.settings ≡ self.old.settings) }
        ensures ready { OnOk result (IsReady self.new) }
        ensures prints { OnOk result (PrintsMore self.old part.now self.new
            (W.contents output.old) (W.contents output.new)) }
        ensures failed { IfErr result (λ failure. FailsMore self.old part.now failure
            (W.contents output.old) (W.contents output.new)) }
    {
        let (blanks, rest) = part.split_at(blank_count(part));
        if let Err(failure) = self.pass_blanks(blanks) {
            return Err(failure);
        }
        if rest.is_empty() {
            return Ok(());
        }
        self.begun = true;
        self.print_part(rest, output)
    }

    // Passes over blanks at the start of a line: the text begins after them.
    fn pass_blanks(&mut self, blanks: &[u8]) -> Result<(), Failure>
        ensures passes { OnOk result (PassesOver self.old blanks.now self.new) }
        ensures reader { OnOk result (self.new.reader ≡ self.old.reader) }
        ensures begun { OnOk result (self.new.begun ≡ self.old.begun) }
        ensures failed { IfErr result (λ failure. ¬ (IsOfText failure)) }
    {
        if let Err(failure) = self.window.append(blanks) {
            return Err(failure);
        }
        self.window.begin_text();
        // However many they are, no more of them are kept than a line shows.
        self.window.drop_before(0);
        Ok(())
    }

    // Writes the rest of a line, which is a text unless it is blank, and begins the next one.
    fn end_line<W: Write>(&mut self, output: &mut W) -> Result<(), Failure>
        requires ready { IsReady self.old }
        requires lines { self.old.settings.by_lines ≡ true }
        ensures settings { OnOk result (self.new.settings ≡ self.old.settings) }
        ensures ready { OnOk result (IsReady self.new) }
        ensures prints { OnOk result (PrintsMore self.old (10 ∷ []) self.new
            (W.contents output.old) (W.contents output.new)) }
        ensures failed { IfErr result (λ failure. FailsMore self.old (10 ∷ []) failure
            (W.contents output.old) (W.contents output.new)) }
    {
        if self.begun {
            return self.end_text(output);
        }
        self.begin_line()
    }

    // Writes the rest of the text of a line, and begins the next one.
    fn end_text<W: Write>(&mut self, output: &mut W) -> Result<(), Failure>
        requires ready { IsReady self.old }
        requires lines { self.old.settings.by_lines ≡ true }
        ensures settings { OnOk result (self.new.settings ≡ self.old.settings) }
        ensures ready { OnOk result (IsReady self.new) }
        ensures prints { OnOk result (PrintsMore self.old (10 ∷ []) self.new
            (W.contents output.old) (W.contents output.new)) }
        ensures failed { IfErr result (λ failure. FailsMore self.old (10 ∷ []) failure
            (W.contents output.old) (W.contents output.new)) }
    {
        if let Err(failure) = self.print_rest(output) {
            return Err(failure);
        }
        self.begin_line()
    }

    // Begins a line after the line feed of the one before.
    fn begin_line(&mut self) -> Result<(), Failure>
        ensures passes { OnOk result (PassesOver self.old (10 ∷ []) self.new) }
        ensures reader { OnOk result (self.new.reader ≡ new_reader self.old.settings.depth) }
        ensures read { OnOk result (HasGiven self.new.reader [] []) }
        ensures begun { OnOk result (self.new.begun ≡ false) }
        ensures failed { IfErr result (λ failure. ¬ (IsOfText failure)) }
    {
        if let Err(failure) = self.window.append(b"\n") {
            return Err(failure);
        }
        self.window.begin_text();
        self.window.drop_before(0);
        self.reader = EventReader::new(*self.text.allocator(), self.settings.depth);
        self.begun = false;
        Ok(())
    }

    // Writes the events that are there with the rest of a line, and begins the next one.
    fn print_line<W: Write>(&mut self, line: &[u8], output: &mut W) -> Result<(), Failure>
        requires ready { IsReady self.old }
        requires lines { self.old.settings.by_lines ≡ true }
        requires line { IsLine line.now }
        ensures settings { OnOk result (self.new.settings ≡ self.old.settings) }
        ensures ready { OnOk result (IsReady self.new) }
        ensures prints { OnOk result (PrintsMore self.old (line.now ++ 10 ∷ []) self.new
            (W.contents output.old) (W.contents output.new)) }
        ensures failed { IfErr result (λ failure. FailsMore self.old (line.now ++ 10 ∷ []) failure
            (W.contents output.old) (W.contents output.new)) }
    {
        if let Err(failure) = self.print_more(line, output) {
            return Err(failure);
        }
        self.end_line(output)
    }

    // Writes the events that are there with a piece more, of which each line is a text.
    fn print_lines<W: Write>(&mut self, piece: &[u8], output: &mut W) -> Result<(), Failure>
        requires ready { IsReady self.old }
        requires lines { self.old.settings.by_lines ≡ true }
        ensures settings { OnOk result (self.new.settings ≡ self.old.settings) }
        ensures ready { OnOk result (IsReady self.new) }
        ensures prints { OnOk result (PrintsMore self.old piece.now self.new
            (W.contents output.old) (W.contents output.new)) }
        ensures failed { IfErr result (λ failure. FailsMore self.old piece.now failure
            (W.contents output.old) (W.contents output.new)) }
    {
        let mut rest = piece;
        // No piece has enough lines to use up the turns.
        for _turn in 0..u64::MAX {
            match split_line(rest) {
                Some((line, after)) => {
                    if let Err(failure) = self.print_line(line, output) {
                        return Err(failure);
                    }
                    rest = after;
                }
                None => return self.print_more(rest, output),
            }
        }
        Err(Failure::Stopped(Trouble::TooLong))
    }

    // Writes the events that are there with a piece more.
    fn print_piece<W: Write>(&mut self, piece: &[u8], output: &mut W) -> Result<(), Failure>
        requires { IsReady self.old }
        ensures settings { OnOk result (self.new.settings ≡ self.old.settings) }
        ensures ready { OnOk result (IsReady self.new) }
        ensures prints { OnOk result (PrintsMore self.old piece.now self.new
            (W.contents output.old) (W.contents output.new)) }
        ensures failed { IfErr result (λ failure. FailsMore self.old piece.now failure
            (W.contents output.old) (W.contents output.new)) }
    {
        if self.settings.by_lines {
            return self.print_lines(piece, output);
        }
        self.print_more(piece, output)
    }

    // Writes the events that are there at the end of the input.
    fn print_last<W: Write>(&mut self, output: &mut W) -> Result<(), Failure>
        requires { IsReady self.old }
        ensures { (input : List ℕ) (had : Option (List ℕ))
            → Prints self.old input had (W.contents output.old)
            → TellsInput self.old.settings input had (W.contents output.new) result }
    {
        if self.settings.by_lines {
            return self.print_last_line(output);
        }
        self.print_rest(output)
    }

    // Writes the events that are there at the end of the last line, unless it is blank.
    fn print_last_line<W: Write>(&mut self, output: &mut W) -> Result<(), Failure>
        requires ready { IsReady self.old }
        requires lines { self.old.settings.by_lines ≡ true }
        ensures { (input : List ℕ) (had : Option (List ℕ))
            → Prints self.old input had (W.contents output.old)
            → TellsInput self.old.settings input had (W.contents output.new) result }
    {
        if self.begun {
            return self.print_rest(output);
        }
        Ok(())
    }
}

/// It writes the events that are there with each piece.
impl<W: Write> Driven<W> for Printing {
    type Failure = Failure;

    ghost ready = { λ s. IsReady s };

    ghost follows = { λ start input held now s. (s.settings ≡ start.settings)
        × Prints s input held now };

    ghost tells = { λ start input held now result.
        TellsInput start.settings input held now result };

    fn piece(&mut self, _alloc: Global, piece: &[u8], output: &mut W) -> Result<(), Failure> {
        let answer = self.print_piece(piece, output);
        flushed(answer, output)
    }

    fn end(&mut self, _alloc: Global, output: &mut W) -> Result<(), Failure> {
        let answer = self.print_last(output);
        flushed(answer, output)
    }

    fn trouble(trouble: Trouble) -> Failure {
        Failure::Stopped(trouble)
    }
}

// Writes what stands before the first text: where each line is a text, these are the elements of an
// array.
fn write_opening<W: Write>(
    settings: Settings,
    path: &mut Path,
    text: &mut Vec<u8>,
    output: &mut W,
) -> Result<(), Trouble>
    requires { path.old ≡ at_root }
    ensures path { OnOk result (path.new ≡ reached settings []) }
    ensures wrote { OnOk result (Appends (W.contents output.old) (W.contents output.new)
        (written settings [])) }
{
    if !settings.by_lines || settings.layout != Layout::Assignments {
        return Ok(());
    }
    write_event(Layout::Assignments, Event::StartArray, path, text, output)
}

// Flushes the output, and returns the answer, unless that cannot be written.
fn flushed<W: Write>(answer: Result<(), Failure>, output: &mut W) -> Result<(), Failure>
    ensures keeps { Keeps (W.contents output.old) (W.contents output.new) }
    ensures answer { IsFlushed answer result }
{
    match output.flush() {
        Ok(()) => answer,
        Err(error) => Err(Failure::Stopped(Trouble::writing(error))),
    }
}
