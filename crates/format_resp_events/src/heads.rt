//! The head of a reply: a whole reply, if it is no array with replies in it, or the line with which
//! an array begins.

ghost use Rattle.std.specs.Prelude.{◌≡◌, ◌<◌, ◌≤◌, ◌^◌, ℕ, length, decimal};
ghost use Rattle.winnow_reader.specs.Answering.{FailsAt};
ghost use Rattle.format_resp.specs.Language.{is_in_line};
ghost use Rattle.format_resp.specs.Parts.{text_width};
ghost use Rattle.format_resp_events.specs.Heads.{BeginsArray, IsArrayHead, IsHead, BreaksWithin};

use crate::EventError;
use format_resp::{Cause, Reply, ReplyTo, cause_of};
use winnow_reader::{Next, ReadError, Record};
use winnow_scan::ScanReader;

/// What comes next of an input where a reply is due.
#[derive(Debug, Drop)]
pub(crate) enum Head {
    /// A whole reply. If it is an array, it has no replies
    Whole(Reply),
    /// The line with which an array of this number of replies begins
    Array(usize),
    /// Bytes that are not there yet
    NeedsMore,
    /// The end
    End,
}

/// Takes the head of the next reply, if its bytes are there. `deep` says that an array with replies
/// in it may not stand there. The reader is one of replies that stand in no array: it finds such an
/// array too deep, and all else that it finds damaged is damaged anywhere.
pub(crate) fn next_head(replies: &mut ScanReader<ReplyTo>, deep: bool) -> Result<Head, EventError>
    requires { replies.old.parser.depth ≡ 0 }
    ensures { IsHead deep replies.old result replies.new }
{
    match replies.read_next() {
        Ok(Next::Value(reply)) => Ok(Head::Whole(reply)),
        Ok(Next::NeedsMore) => Ok(Head::NeedsMore),
        Ok(Next::Done) => Ok(Head::End),
        Err(
            ReadError::Failed {
                error: _,
                place,
                is_cut: _,
            },
        ) => array_or_damage(replies, deep, place),
        Err(ReadError::TakesNothing { place: _ }) => unreachable!(),
        Err(ReadError::Refused(refused)) => Err(EventError::Refused(refused)),
    }
}

// Takes the line with which an array begins, if that is all that the reader fails at, and an array
// may stand there. Else the reply that is ahead breaks off at the place.
fn array_or_damage(
    replies: &mut ScanReader<ReplyTo>,
    deep: bool,
    place: usize,
) -> Result<Head, EventError>
    requires flat { replies.old.parser.depth ≡ 0 }
    requires fails { FailsAt ⟦<ReplyTo as Record>⟧.means replies.old place }
    ensures { IsHead deep replies.old result replies.new }
{
    let cause = cause_at(replies, place);
    let Cause::TooDeep = cause else {
        return Err(EventError::Damaged { place, cause });
    };
    if deep {
        return Err(EventError::Damaged { place, cause });
    }
    let head = array_head(replies.ahead());
    let _ = replies.skip(head.width);
    Ok(Head::Array(head.count))
}

// Returns the cause for which the reply that is ahead breaks off at the place.
fn cause_at(replies: &ScanReader<ReplyTo>, place: usize) -> Cause
    requires { FailsAt ⟦<ReplyTo as Record>⟧.means replies.now place }
    ensures { BreaksWithin replies.now.parser.depth replies.now place result }
{
    let ahead = replies.ahead();
    let width = place.saturating_sub(replies.place()).min(ahead.len());
    cause_of(&ahead[..width], &ahead[width..])
}

// The line with which an array begins: how many replies the array has, and how many bytes there are
// of the byte of its kind, the line and its end.
#[derive(Clone, Copy, Debug, Drop)]
struct ArrayHead {
    count: usize,
    width: usize,
}

// Returns whether a byte may stand in a line.
fn is_in_line(byte: u8) -> bool
    ensures { result ≡ is_in_line byte }
{
    !(byte == b'\r' || byte == b'\n')
}

// Returns the number of bytes before the first carriage return or newline.
fn text_width(bytes: &[u8]) -> usize
    ensures width { result ≡ text_width bytes.now }
    ensures within { result ≤ length bytes.now }
{
    bytes.iter().take_while(|byte| is_in_line(**byte)).count()
}

// Returns the line with which the array begins that is ahead.
fn array_head(ahead: &[u8]) -> ArrayHead
    requires { BeginsArray ahead.now }
    ensures { IsArrayHead ahead.now result }
{
    let after = &ahead[1..];
    let width = text_width(after);
    ArrayHead {
        count: count_in(&after[..width]),
        width: width + 3,
    }
}

// Returns the number that the text writes.
fn count_in(text: &[u8]) -> usize
    requires { (n : ℕ) × ((n < 2 ^ 64) × (text.now ≡ decimal n)) }
    ensures { text.now ≡ decimal result }
{
    let Ok(text) = str::from_utf8(text) else {
        unreachable!()
    };
    let Ok(count) = text.parse::<usize>() else {
        unreachable!()
    };
    count
}
