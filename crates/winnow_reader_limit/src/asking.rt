//! One call of a record on the first bytes ahead.

ghost use Rattle.std.specs.Prelude.{◌≡◌, ◌+◌, ◌≤◌, ◌<◌, ◌^◌, ◌||◌, min, nat_lt, take, length};
ghost use Rattle.std.specs.Prelude.{IfErr};
ghost use Rattle.winnow_stream.specs.Shortage.{needed};
ghost use Rattle.winnow_parser.specs.Answer.{outcome};
ghost use Rattle.winnow_wrap.specs.Flag.{flag};
ghost use Rattle.winnow_reader.specs.Place.{bytes_at, stands};
ghost use Rattle.winnow_reader.specs.Wanted.{size_of};
ghost use Rattle.winnow_reader.specs.InUtf8.{past};
ghost use Rattle.winnow_reader_limit.specs.Within.{Within};
ghost use Rattle.winnow_reader_limit.specs.Why.{TellsWhy};
ghost use Rattle.winnow_reader_limit.specs.LimitTelling.{FirstTold};

use crate::LimitedError;
use std::alloc::Global;
use winnow_parser::{Failure, ModalResult};
use winnow_reader::{Record, RecordInput};
use winnow_stream::{Needed, Stream, StreamIsPartial};
use winnow_wrap::{LocatingSlice, Partial};

// The bytes as a stream that stands at a place of the joined input.
fn stream_over<'b>(bytes: &'b [u8], place: usize, partial: bool) -> RecordInput<'b>
    requires { place + length bytes.now < 2 ^ 64 }
    ensures stands { stands result ≡ bytes_at place bytes.now }
    ensures flag { flag result ≡ partial }
{
    let mut input = Partial::new(LocatingSlice::at(bytes, place));
    if !partial {
        let _ = input.complete();
        return input;
    }
    input
}

// How many bytes more a record needs, but no more than there is room for, and one.
fn needed_within(wanted: Needed, room: usize) -> Needed
    ensures { result ≡ needed (min (size_of wanted) (room + 1)) }
{
    let size = match wanted {
        Needed::Unknown => 1,
        Needed::Size(size) => size.get(),
    };
    Needed::new(size.min(room.saturating_add(1)))
}

// Returns whether more bytes are ahead than a record may have.
fn is_over(greatest: usize, len: usize) -> bool
    ensures { result ≡ nat_lt greatest len }
{
    greatest < len
}

// Returns whether a record is told that more may follow.
fn goes_on(partial: bool, over: bool) -> bool
    ensures { result ≡ (partial || over) }
{
    partial || over
}

// Returns the first bytes, at most this many.
fn first_of(bytes: &[u8], greatest: usize) -> &[u8]
    ensures { result.now ≡ take greatest bytes.now }
{
    &bytes[..greatest.min(bytes.len())]
}

// Asks a record of the first of these bytes. Returns its answer, and how many bytes it took.
pub(crate) fn ask_first<R: Record>(
    inner: &R,
    greatest: usize,
    alloc: Global,
    bytes: &[u8],
    place: usize,
    partial: bool,
) -> (ModalResult<R::Output, LimitedError<R::Error>>, usize)
    requires ready { R.ready inner.now }
    requires fits { place + length bytes.now < 2 ^ 64 }
    ensures answer { Within greatest (R.means inner.now) partial (bytes_at place bytes.now)
        (outcome result.0 (past (bytes_at place bytes.now) result.1)) }
    ensures within { result.1 ≤ length bytes.now }
    ensures why { TellsWhy greatest (R.means inner.now) partial (bytes_at place bytes.now)
        result.0 }
    ensures error { IfErr result.0 (FirstTold greatest (R.errors inner.now) place bytes.now) }
{
    let over = is_over(greatest, bytes.len());
    let first = first_of(bytes, greatest);
    let mut input = stream_over(first, place, goes_on(partial, over));
    let answer = inner.read(alloc, &mut input);
    let taken = first.len().saturating_sub(input.eof_offset());
    match answer {
        Ok(value) => (Ok(value), taken),
        Err(Failure::Incomplete(_)) if over => { (Err(Failure::Cut(LimitedError::TooLong)), 0) }
        Err(Failure::Incomplete(wanted)) => {
            let room = greatest.saturating_sub(bytes.len());
            (Err(Failure::Incomplete(needed_within(wanted, room))), 0)
        }
        Err(Failure::Backtrack(error)) => {
            (Err(Failure::Backtrack(LimitedError::Failed(error))), taken)
        }
        Err(Failure::Cut(error)) => (Err(Failure::Cut(LimitedError::Failed(error))), taken),
        Err(Failure::Refused(refused)) => (Err(Failure::Refused(refused)), 0),
    }
}
