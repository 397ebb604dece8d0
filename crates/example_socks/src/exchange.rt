//! Requests that are read and written, with the promises in the words of `specs/`.

ghost use Rattle.winnow_parser.specs.Answer.{ahead, outcome};
ghost use Rattle.winnow_codec.specs.Formats.{Reads};
ghost use Rattle.winnow_codec.specs.RoundTrips.{WritesWhatItReads};
ghost use Rattle.winnow_codec.specs.Writing.{Writes};
ghost use Rattle.example_socks.specs.Requests.{SpellsRequest};

use crate::{Request, request_format};
use std::alloc::Global;
use winnow_codec::{Format, Unwritten, round_trip_law};
use winnow_error::ParserError;
use winnow_parser::ModalResult;
use winnow_stream::StreamIsPartial;

/// The law of requests: what is read is written back, byte for byte. It does nothing when called:
/// its contract is the law.
pub fn request_law()
    ensures { WritesWhatItReads SpellsRequest }
{
    round_trip_law(&request_format());
}

/// Reads a request.
pub fn read_request<I: StreamIsPartial<Token = u8>, E: ParserError<I>>(
    alloc: Global,
    input: &mut I,
) -> ModalResult<Request, E>
    requires { I.valid input.old }
    ensures { Reads SpellsRequest (I.expects_more input.old)
        (ahead I.location I.remaining input.old)
        (outcome result (ahead I.location I.remaining input.new)) }
{
    request_format().read(alloc, input)
}

/// Appends the bytes of a request.
pub fn write_request(request: &Request, bytes: &mut Vec<u8>) -> Result<(), Unwritten>
    ensures { Writes SpellsRequest request.now bytes.old.items result bytes.new.items }
{
    request_format().write(request, bytes)
}
