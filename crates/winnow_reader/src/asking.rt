//! One call of a record on the bytes that are not read yet.

ghost use Rattle.std.specs.Prelude.{◌≡◌, ◌+◌, ◌<◌, ◌^◌, length, not};
ghost use Rattle.winnow_wrap.specs.Flag.{flag};
ghost use Rattle.winnow_reader.specs.Place.{bytes_at, stands};
ghost use Rattle.winnow_reader.specs.Wanted.{size_of};
ghost use Rattle.winnow_reader.specs.Asked.{IsAnswer};
ghost use Rattle.winnow_reader.specs.Telling.{AsksError};

use crate::{Record, RecordInput};
use std::alloc::{AllocError, Global};
use winnow_parser::Failure;
use winnow_stream::{Location, Needed, Stream, StreamIsPartial};
use winnow_wrap::{LocatingSlice, Partial};

// What came of asking a record of what is ahead.
pub(crate) enum Asked<O, E> {
    // A value, and how many bytes it took
    Value(O, usize),
    // The number of bytes that must be ahead before it is asked again
    Waits(usize),
    // Nothing remains of an input that has ended
    Done,
    // It failed at this place, and whether it cut
    Failed(E, usize, bool),
    // It gave a value and took nothing
    Idle,
    // Memory was refused
    Refused(AllocError),
}

// How many bytes more a record needs: one where it cannot say.
pub(crate) fn size_of(needed: Needed) -> usize
    ensures { result ≡ size_of needed }
{
    match needed {
        Needed::Unknown => 1,
        Needed::Size(size) => size.get(),
    }
}

// The bytes as a stream that stands at a place of the joined input.
fn stream_over<'b>(ahead: &'b [u8], place: usize, ended: bool) -> RecordInput<'b>
    requires { place + length ahead.now < 2 ^ 64 }
    ensures stands { stands result ≡ bytes_at place ahead.now }
    ensures flag { flag result ≡ not ended }
{
    let mut input = Partial::new(LocatingSlice::at(ahead, place));
    if ended {
        let _ = input.complete();
        return input;
    }
    input
}

// Asks a record of what is ahead.
pub(crate) fn ask_record<R: Record>(
    parser: &R,
    alloc: Global,
    ahead: &[u8],
    place: usize,
    ended: bool,
) -> Asked<R::Output, R::Error>
    requires ready { R.ready parser.now }
    requires fits { place + length ahead.now < 2 ^ 64 }
    ensures answer { IsAnswer (R.means parser.now) place ahead.now ended result }
    ensures error { AsksError (R.errors parser.now) place ahead.now ended result }
{
    let mut input = stream_over(ahead, place, ended);
    match parser.read(alloc, &mut input) {
        Ok(value) => {
            let taken = ahead.len() - input.eof_offset();
            if taken == 0 {
                return Asked::Idle;
            }
            Asked::Value(value, taken)
        }
        Err(Failure::Incomplete(needed)) => {
            Asked::Waits(ahead.len().saturating_add(size_of(needed)))
        }
        Err(Failure::Backtrack(error)) => Asked::Failed(error, input.current_token_start(), false),
        Err(Failure::Cut(error)) => Asked::Failed(error, input.current_token_start(), true),
        Err(Failure::Refused(refused)) => Asked::Refused(refused),
    }
}
