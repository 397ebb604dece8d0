//! The replies of the pieces of an input, printed.

ghost use Rattle.std.specs.Prelude.{◌≡◌, ℕ, ◌++◌, ◌+◌, ◌-◌, ◌<◌, ◌≤◌, ◌^◌, List, [], false, Some};
ghost use Rattle.std.specs.Prelude.{Option, take, drop, length};
ghost use Rattle.std.specs.Prelude.{IfOk, IfErr, OnOk, OnErr, OnSome, IfSome, IfNone};
ghost use Rattle.std.specs.Io.KnownBytes.{Appends};
ghost use Rattle.winnow_reader.specs.State.{ReaderState};
ghost use Rattle.winnow_reader.specs.Answering.{FailsAt};
ghost use Rattle.format_resp.specs.Causes.{IsCauseOf};
ghost use Rattle.format_resp.specs.declared.reply.Reply.{Reply};
ghost use Rattle.wb_base.specs.Excerpts.{IsExcerpt};
ghost use Rattle.wb_base.specs.declared.excerpt.Excerpt.{Excerpt};
ghost use Rattle.wb_replies.specs.Positions.{position_after};
ghost use Rattle.wb_replies.specs.Layouts.{printed, printed_all};
ghost use Rattle.wb_replies.specs.Session.{IsSteady, HasSameInput, StandsOn, next_replies};
ghost use Rattle.wb_replies.specs.Session.{ReadsReplies, HasNoneLeft, FailsThere};
ghost use Rattle.wb_replies.specs.Session.{OnAnswer, ended_as, Follows, Continues, EndsAs, Tells};
ghost use Rattle.wb_replies.specs.Session.{Prints, TellsInput};
ghost use Rattle.wb_replies.specs.Replies.{PrintsInput};
ghost use Rattle.example_base.specs.declared.trouble.Trouble.TheVariants.{OutOfMemory};
ghost use Rattle.wb_replies.specs.declared.failure.Failure.TheVariants.{Stopped};

use crate::failure::Failure;
use crate::layout::Layout;
use crate::placed::{Placed, PlacedReply};
use crate::positions::Position;
use example_base::{Driven, Trouble, drive, new_buffer};
use format_resp::{Cause, Reply, ReplyTo, cause_of};
use std::alloc::Global;
use std::io::{Read, Write};
use wb_base::Excerpt;
use winnow_reader::{Next, ReadError, Record};
use winnow_scan::ScanReader;

/// Reads replies within these limits to the end of the input, and prints each as the layout says,
/// as soon as its bytes are there.
///
/// Where it fails, the replies before are printed, unless memory was refused, or reading or writing
/// failed. Clause `told` says it of the reader and its parser, and `printed` of the bytes that
/// spell the replies.
pub fn print_replies<R: Read, W: Write>(
    alloc: Global,
    limits: ReplyTo,
    layout: Layout,
    input: &mut R,
    output: &mut W,
) -> Result<(), Failure>
    ensures told { (whole before : List ℕ) → R.remaining input.old ≡ Some whole
        → W.contents output.old ≡ Some before
        → OnAnswer result (Tells ⟦<PlacedReply as Record>⟧.means layout
        (record { limits = limits }) whole before (W.contents output.new) result) }
    ensures printed { (whole before : List ℕ) → R.remaining input.old ≡ Some whole
        → W.contents output.old ≡ Some before
        → PrintsInput layout limits whole before (W.contents output.new) result }
{
    let mut buffer = match new_buffer(alloc) {
        Ok(buffer) => buffer,
        Err(trouble) => return Err(Failure::Stopped(trouble)),
    };
    let mut printing = Printing::new(alloc, limits, layout);
    drive(alloc, input, &mut buffer, &mut printing, output)
}

/// A reader of replies, where it stands in the input, and how they are printed.
#[derive(Drop)]
pub struct Printing {
    reader: ScanReader<PlacedReply>,
    place: Position,
    layout: Layout,
}

impl Printing {
    // Returns a printer that was passed nothing.
    fn new(alloc: Global, limits: ReplyTo, layout: Layout) -> Self
        ensures steady { IsSteady result.reader result.place }
        ensures goes_on { result.reader.ended ≡ false }
        ensures parser { result.reader.parser ≡ record { limits = limits } }
        ensures layout { result.layout ≡ layout }
        ensures prints { (had : Option (List ℕ)) → Prints ⟦<PlacedReply as Record>⟧.means
            result.layout result.reader.parser [] had had result.reader result.place }
    {
        Printing {
            reader: ScanReader::new(alloc, PlacedReply { limits }),
            place: Position::start(),
            layout,
        }
    }

    // Reads on with a piece more, and prints the replies that are there.
    fn print_piece<W: Write>(
        &mut self,
        alloc: Global,
        piece: &[u8],
        output: &mut W,
    ) -> Result<(), Failure>
        requires steady { IsSteady self.old.reader self.old.place }
        requires goes_on { self.old.reader.ended ≡ false }
        ensures steady { IsSteady self.new.reader self.new.place }
        ensures goes_on { self.new.reader.ended ≡ false }
        ensures parser { self.new.reader.parser ≡ self.old.reader.parser }
        ensures layout { self.new.layout ≡ self.old.layout }
        ensures told { (input : List ℕ) (replies : List Reply)
            → Follows ⟦<PlacedReply as Record>⟧.means input replies self.old.reader self.old.place
            → OnAnswer result (Continues ⟦<PlacedReply as Record>⟧.means self.old.layout
            (input ++ piece.now) replies self.new.reader self.new.place
            (W.contents output.old) (W.contents output.new)) }
        ensures failed { IfErr result
            (FailsThere ⟦<PlacedReply as Record>⟧.means self.new.reader self.new.place) }
    {
        if piece.len() >= usize::MAX - self.reader.fed() {
            return Err(Failure::Stopped(Trouble::TooLong));
        }
        self.reader.push(piece)?;
        self.print_ready(alloc, output)
    }

    // Reads on at the end of the input, and prints the replies that are there.
    fn print_last<W: Write>(&mut self, alloc: Global, output: &mut W) -> Result<(), Failure>
        requires { IsSteady self.old.reader self.old.place }
        ensures parser { self.new.reader.parser ≡ self.old.reader.parser }
        ensures told { (input : List ℕ) (replies : List Reply)
            → Follows ⟦<PlacedReply as Record>⟧.means input replies self.old.reader self.old.place
            → OnAnswer result (Continues ⟦<PlacedReply as Record>⟧.means self.old.layout
            input replies self.new.reader self.new.place
            (W.contents output.old) (W.contents output.new)) }
        ensures ends { EndsAs ⟦<PlacedReply as Record>⟧.means
            self.new.reader self.new.place [] result }
    {
        self.reader.end();
        let taken = self.print_ready(alloc, output);
        let excerpt = excerpt_of(alloc, b"", self.reader.ahead());
        ended_as(taken, self.place, excerpt)
    }

    // Prints the replies that are there.
    fn print_ready<W: Write>(&mut self, alloc: Global, output: &mut W) -> Result<(), Failure>
        requires { IsSteady self.old.reader self.old.place }
        ensures steady { IsSteady self.new.reader self.new.place }
        ensures same { HasSameInput self.old.reader self.new.reader }
        ensures layout { self.new.layout ≡ self.old.layout }
        ensures stands { StandsOn self.old.reader self.old.place self.new.reader self.new.place }
        ensures printed { OnAnswer result ((replies : List Reply)
            × (ReadsReplies ⟦<PlacedReply as Record>⟧.means self.old.reader replies self.new.reader
            × Appends (W.contents output.old) (W.contents output.new)
            (printed_all self.old.layout replies))) }
        ensures all { OnOk result
            (HasNoneLeft ⟦<PlacedReply as Record>⟧.means self.old.reader self.new.reader) }
        ensures failed { IfErr result
            (FailsThere ⟦<PlacedReply as Record>⟧.means self.new.reader self.new.place) }
    {
        let mut text = Vec::new(alloc);
        let taken = take_replies(self.layout, &mut self.reader, &mut self.place, &mut text);
        match write_out(&text, output) {
            Ok(()) => taken,
            Err(trouble) => Err(Failure::Stopped(trouble)),
        }
    }
}

/// It prints the replies that are there with each piece.
impl<W: Write> Driven<W> for Printing {
    type Failure = Failure;

    ghost ready = { λ s. IsSteady s.reader s.place × (s.reader.ended ≡ false) };

    ghost follows = { λ start input had now s. (s.layout ≡ start.layout)
        × Prints ⟦<PlacedReply as Record>⟧.means
        start.layout start.reader.parser input had now s.reader s.place };

    ghost tells = { λ start input had now result. TellsInput ⟦<PlacedReply as Record>⟧.means
        start.layout start.reader.parser input had now result };

    fn piece(&mut self, alloc: Global, piece: &[u8], output: &mut W) -> Result<(), Failure> {
        self.print_piece(alloc, piece, output)
    }

    fn end(&mut self, alloc: Global, output: &mut W) -> Result<(), Failure> {
        self.print_last(alloc, output)
    }

    fn trouble(trouble: Trouble) -> Failure {
        Failure::Stopped(trouble)
    }
}

// Returns what the program answers at the end of the input, where its last replies answered so.
// What is left then is a reply that needed more, and this is its first line.
fn ended_as(
    taken: Result<(), Failure>,
    place: Position,
    excerpt: Option<Excerpt>,
) -> Result<(), Failure>
    ensures { result ≡ ended_as taken place excerpt }
{
    match taken {
        Ok(()) => Ok(()),
        Err(Failure::NoReply { .. }) => Err(Failure::EndsInside { place, excerpt }),
        Err(Failure::EndsInside { place, excerpt }) => {
            Err(Failure::EndsInside { place, excerpt })
        }
        Err(Failure::Stopped(trouble)) => Err(Failure::Stopped(trouble)),
    }
}

/// Writes text, and flushes the output.
pub fn write_out<W: Write>(text: &[u8], output: &mut W) -> Result<(), Trouble>
    ensures { OnOk result (Appends (W.contents output.old) (W.contents output.new) text.now) }
{
    if let Err(error) = output.write_all(text) {
        return Err(Trouble::writing(error));
    }
    match output.flush() {
        Ok(()) => Ok(()),
        Err(error) => Err(Trouble::writing(error)),
    }
}

// Takes the replies that are there, and appends them to the text.
fn take_replies(
    layout: Layout,
    reader: &mut ScanReader<PlacedReply>,
    place: &mut Position,
    text: &mut Vec<u8>,
) -> Result<(), Failure>
    requires { IsSteady reader.old place.old }
    ensures steady { IsSteady reader.new place.new }
    ensures same { HasSameInput reader.old reader.new }
    ensures stands { StandsOn reader.old place.old reader.new place.new }
    ensures printed { OnAnswer result ((replies : List Reply)
        × (ReadsReplies ⟦<PlacedReply as Record>⟧.means reader.old replies reader.new
        × (text.new.items ≡ text.old.items ++ printed_all layout replies))) }
    ensures all { OnOk result
        (HasNoneLeft ⟦<PlacedReply as Record>⟧.means reader.old reader.new) }
    ensures failed { IfErr result
        (FailsThere ⟦<PlacedReply as Record>⟧.means reader.new place.new) }
{
    loop {
        match next_reply(*text.allocator(), reader, place) {
            Ok(Some(reply)) => append_one(layout, reply, text)?,
            Ok(None) => return Ok(()),
            Err(failure) => return Err(failure),
        }
    }
}

// Appends a reply, and drops it.
fn append_one(layout: Layout, reply: Reply, text: &mut Vec<u8>) -> Result<(), Failure>
    ensures printed { OnOk result (text.new.items ≡ text.old.items ++ printed layout reply) }
    ensures refused { IfErr result (λ failure. failure ≡ Stopped OutOfMemory) }
{
    layout.append(&reply, text)?;
    Ok(())
}

// Takes the next reply, if its bytes are there, and moves the place on by them.
fn next_reply(
    alloc: Global,
    reader: &mut ScanReader<PlacedReply>,
    place: &mut Position,
) -> Result<Option<Reply>, Failure>
    requires { IsSteady reader.old place.old }
    ensures steady { IsSteady reader.new place.new }
    ensures same { HasSameInput reader.old reader.new }
    ensures stands { StandsOn reader.old place.old reader.new place.new }
    ensures reads { IfOk result (λ next. ReadsReplies ⟦<PlacedReply as Record>⟧.means
        reader.old (next_replies next) reader.new) }
    ensures kept { OnErr result (reader.new ≡ reader.old) }
    ensures fewer { IfOk result (λ next.
        OnSome next (length reader.new.ahead < length reader.old.ahead)) }
    ensures none { IfOk result (λ next.
        IfNone next (HasNoneLeft ⟦<PlacedReply as Record>⟧.means reader.old reader.new)) }
    ensures failed { IfErr result
        (FailsThere ⟦<PlacedReply as Record>⟧.means reader.new place.new) }
{
    failure_law::<PlacedReply>();
    match reader.read_next() {
        Ok(Next::Value(placed)) => {
            let Placed { reply, end } = placed;
            *place = place.joined_with(end);
            Ok(Some(reply))
        }
        Ok(Next::NeedsMore) => Ok(None),
        Ok(Next::Done) => Ok(None),
        Err(
            ReadError::Failed {
                error: _,
                place: failed,
                is_cut: _,
            },
        ) => {
            let cause = cause_ahead(reader, failed);
            let excerpt = excerpt_ahead(alloc, reader, failed);
            Err(Failure::NoReply {
                place: place_ahead(reader, *place, failed),
                cause,
                excerpt,
            })
        }
        Err(ReadError::TakesNothing { place: failed }) => {
            let cause = cause_ahead(reader, failed);
            let excerpt = excerpt_ahead(alloc, reader, failed);
            Err(Failure::NoReply {
                place: place_ahead(reader, *place, failed),
                cause,
                excerpt,
            })
        }
        Err(ReadError::Refused(refused)) => Err(Failure::from(refused)),
    }
}

// Returns the place that this many bytes of the joined input lead to, from that of the reader on.
fn place_ahead(reader: &ScanReader<PlacedReply>, place: Position, bytes: usize) -> Position
    requires { IsSteady reader.now place }
    ensures { result
        ≡ position_after place (take (bytes - reader.now.place) reader.now.ahead) }
{
    let ahead = reader.ahead();
    let width = bytes.saturating_sub(reader.place()).min(ahead.len());
    place.after(&ahead[..width])
}

// Returns the cause for which a reply breaks off after this many bytes of the joined input, if one
// does that begins at the place of the reader.
fn cause_ahead(reader: &ScanReader<PlacedReply>, bytes: usize) -> Cause
    ensures { let width = bytes - reader.now.place in
        IsCauseOf result (take width reader.now.ahead) (drop width reader.now.ahead) }
{
    let ahead = reader.ahead();
    let width = bytes.saturating_sub(reader.place()).min(ahead.len());
    cause_of(&ahead[..width], &ahead[width..])
}

// Returns the line of the place after this many bytes of the joined input, as far as its bytes are
// ahead.
fn excerpt_ahead(alloc: Global, reader: &ScanReader<PlacedReply>, bytes: usize) -> Option<Excerpt>
    ensures { let width = bytes - reader.now.place in
        IfSome result (IsExcerpt (take width reader.now.ahead) (drop width reader.now.ahead)) }
{
    let ahead = reader.ahead();
    let width = bytes.saturating_sub(reader.place()).min(ahead.len());
    excerpt_of(alloc, &ahead[..width], &ahead[width..])
}

// Returns the line of the place between these bytes, unless memory for it is refused.
fn excerpt_of(alloc: Global, before: &[u8], rest: &[u8]) -> Option<Excerpt>
    ensures { IfSome result (IsExcerpt before.now rest.now) }
{
    Excerpt::new(alloc, before, rest).ok()
}

// The law of failures: where a reader's record fails, no matter what follows, is in what is ahead.
// It does nothing when called.
fn failure_law<R: Record>()
    ensures { (f : ReaderState R) (there : ℕ) → FailsAt R.means f there
        → (n : ℕ) × ((n ≤ length f.ahead) × (there ≡ f.place + n)) }
{}
