//! Messages that are read and written, with the promises in the words of `specs/`.

ghost use Rattle.winnow_parser.specs.Answer.{ahead, outcome};
ghost use Rattle.winnow_codec.specs.Formats.{Reads};
ghost use Rattle.winnow_codec.specs.RoundTrips.{ReadsWhatItWrites, WritesWhatItReads};
ghost use Rattle.winnow_codec.specs.Writing.{Writes};
ghost use Rattle.format_dns.specs.Messages.{SpellsMessage, AreSameMessage};

use crate::{Message, messages};
use std::alloc::Global;
use winnow_codec::{Format, Unwritten, round_trip_law};
use winnow_error::ParserError;
use winnow_parser::ModalResult;
use winnow_stream::StreamIsPartial;

/// The law of messages: what is written is read back, no matter what follows, and what is read is
/// written back, byte for byte, with its compression. It does nothing when called: its contract is
/// the law.
pub fn message_law()
    ensures read { ReadsWhatItWrites AreSameMessage SpellsMessage }
    ensures written { WritesWhatItReads SpellsMessage }
{
    round_trip_law(&messages());
}

/// Reads a message. What follows it stays.
pub fn read_message<I: StreamIsPartial<Token = u8>, E: ParserError<I>>(
    alloc: Global,
    input: &mut I,
) -> ModalResult<Message, E>
    requires { I.valid input.old }
    ensures { Reads SpellsMessage (I.expects_more input.old)
        (ahead I.location I.remaining input.old)
        (outcome result (ahead I.location I.remaining input.new)) }
{
    messages().read(alloc, input)
}

/// Appends the bytes of a message.
pub fn write_message(message: &Message, bytes: &mut Vec<u8>) -> Result<(), Unwritten>
    ensures { Writes SpellsMessage message.now bytes.old.items result bytes.new.items }
{
    messages().write(message, bytes)
}
