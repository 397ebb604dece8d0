//! One call of a record of text on bytes that are UTF-8.

ghost use Rattle.std.specs.Prelude.{◌≡◌, ◌+◌, ◌-◌, ◌≤◌, ◌<◌, ◌^◌, ◌==◌, ◌||◌, not, length};
ghost use Rattle.std.specs.Prelude.{ℕ, MatchOption, IfErr};
ghost use Rattle.winnow_parser.specs.Outcome.{Ahead};
ghost use Rattle.winnow_parser.specs.Laws.{IsSettled};
ghost use Rattle.std.specs.Str.Lossy.{utf8_valid_len};
ghost use Rattle.winnow_stream.specs.Shortage.{needed};
ghost use Rattle.winnow_parser.specs.Answer.{outcome};
ghost use Rattle.winnow_wrap.specs.Flag.{flag};
ghost use Rattle.winnow_reader.specs.Place.{bytes_at};
ghost use Rattle.winnow_reader.specs.TextPlace.{text_at, stands_text};
ghost use Rattle.winnow_reader.specs.Wanted.{size_of};
ghost use Rattle.winnow_reader.specs.InUtf8.{InUtf8, text_in, past_text, is_damaged, past};
ghost use Rattle.winnow_reader.specs.TextTelling.{TellsDamage, TextTold, FrontTold};

use crate::asking::size_of;
use crate::{TextError, TextRecord, TextRecordInput};
use std::alloc::Global;
use winnow_parser::{Failure, ModalResult};
use winnow_stream::{Needed, Stream, StreamIsPartial};
use winnow_wrap::{LocatingSlice, Partial};

// Returns the longest front of the bytes that is UTF-8, and whether what follows it is damaged.
fn text_front(bytes: &[u8], partial: bool) -> (&str, bool)
    ensures text { result.0.now ≡ text_in bytes.now }
    ensures len { length result.0.now ≡ utf8_valid_len bytes.now }
    ensures damaged { result.1 ≡ is_damaged partial (past_text bytes.now) }
{
    match std::str::from_utf8(bytes) {
        Ok(text) => (text, false),
        Err(error) => match std::str::from_utf8(&bytes[..error.valid_up_to()]) {
            Ok(text) => (text, !partial || error.error_len().is_some()),
            Err(_) => unreachable!(),
        },
    }
}

// The text as a stream that stands at a place of the joined input.
fn stream_over_text<'b>(text: &'b str, place: usize, partial: bool) -> TextRecordInput<'b>
    requires { place + length text.now < 2 ^ 64 }
    ensures stands { stands_text result ≡ text_at place text.now }
    ensures flag { flag result ≡ partial }
{
    let mut input = Partial::new(LocatingSlice::at(text, place));
    if !partial {
        let _ = input.complete();
        return input;
    }
    input
}

// Returns whether a record of text is told that more may follow.
fn goes_on(partial: bool, following: usize) -> bool
    ensures { result ≡ (partial || not (following == 0)) }
{
    partial || following != 0
}

// How many bytes more are needed where some follow the text.
fn needed_past(wanted: Needed, following: usize) -> Needed
    ensures { result ≡ needed (size_of wanted - following) }
{
    Needed::new(size_of(wanted).saturating_sub(following))
}

// Asks a record of text of these bytes. Returns its answer, and how many bytes it took.
fn ask_text<R: TextRecord>(
    parser: &R,
    alloc: Global,
    bytes: &[u8],
    place: usize,
    partial: bool,
) -> (ModalResult<R::Output, TextError<R::Error>>, usize)
    requires ready { R.ready parser.now }
    requires fits { place + length bytes.now < 2 ^ 64 }
    ensures answer { InUtf8 (R.means parser.now) partial (bytes_at place bytes.now)
        (outcome result.0 (past (bytes_at place bytes.now) result.1)) }
    ensures within { result.1 ≤ length bytes.now }
    ensures damage { IfErr result.0 (TellsDamage (R.means parser.now) partial
        (bytes_at place bytes.now) (past (bytes_at place bytes.now) result.1)) }
    ensures error { IfErr result.0 (TextTold (R.errors parser.now) partial
        (bytes_at place bytes.now) (past (bytes_at place bytes.now) result.1)) }
{
    let (text, damaged) = text_front(bytes, partial);
    let following = bytes.len() - text.len();
    let mut input = stream_over_text(text, place, goes_on(partial, following));
    let answer = parser.read(alloc, &mut input);
    let taken = text.len().saturating_sub(input.eof_offset());
    match answer {
        Ok(value) => (Ok(value), taken),
        Err(Failure::Incomplete(_)) if damaged => {
            (Err(Failure::Cut(TextError::Damaged)), text.len())
        }
        Err(Failure::Incomplete(wanted)) => {
            (Err(Failure::Incomplete(needed_past(wanted, following))), 0)
        }
        Err(Failure::Backtrack(error)) => (Err(Failure::Backtrack(TextError::Text(error))), taken),
        Err(Failure::Cut(error)) => (Err(Failure::Cut(TextError::Text(error))), taken),
        Err(Failure::Refused(refused)) => (Err(Failure::Refused(refused)), 0),
    }
}

// Returns an answer that asks neither for more input nor for more memory.
fn settled<O, E>(answer: ModalResult<O, E>) -> Option<ModalResult<O, E>>
    ensures { MatchOption result ((a : Ahead ℕ) → ¬ (IsSettled (outcome answer a)))
        (λ given. (given ≡ answer) × ((a : Ahead ℕ) → IsSettled (outcome answer a))) }
{
    match answer {
        Ok(value) => Some(Ok(value)),
        Err(Failure::Backtrack(error)) => Some(Err(Failure::Backtrack(error))),
        Err(Failure::Cut(error)) => Some(Err(Failure::Cut(error))),
        Err(Failure::Incomplete(_)) => None,
        Err(Failure::Refused(_)) => None,
    }
}

// How many bytes a record of text is asked of first.
const FIRST: usize = 256;

// Asks a record of text of longer and longer fronts of these bytes, until it answers: so the bytes
// whose UTF-8 is looked at are bounded by what the record reads, and not by what is ahead.
pub(crate) fn ask_fronts<R: TextRecord>(
    parser: &R,
    alloc: Global,
    bytes: &[u8],
    place: usize,
    partial: bool,
) -> (ModalResult<R::Output, TextError<R::Error>>, usize)
    requires ready { R.ready parser.now }
    requires fits { place + length bytes.now < 2 ^ 64 }
    ensures answer { InUtf8 (R.means parser.now) partial (bytes_at place bytes.now)
        (outcome result.0 (past (bytes_at place bytes.now) result.1)) }
    ensures within { result.1 ≤ length bytes.now }
    ensures damage { IfErr result.0 (TellsDamage (R.means parser.now) partial
        (bytes_at place bytes.now) (past (bytes_at place bytes.now) result.1)) }
    ensures error { IfErr result.0 (FrontTold (R.means parser.now) (R.errors parser.now) partial
        (bytes_at place bytes.now) (past (bytes_at place bytes.now) result.1)) }
{
    let mut len = FIRST;
    for _ in 0..usize::BITS {
        if bytes.len() <= len {
            break;
        }
        let (answer, taken) = ask_text(parser, alloc, &bytes[..len], place, true);
        if let Some(answer) = settled(answer) {
            return (answer, taken);
        }
        len = len.saturating_mul(2);
    }
    ask_text(parser, alloc, bytes, place, partial)
}
