//! Records and extensions that are read and written, with the promises in the words of `specs/`.

ghost use Rattle.winnow_parser.specs.Answer.{ahead, outcome};
ghost use Rattle.winnow_codec.specs.Formats.{Reads};
ghost use Rattle.winnow_codec.specs.RoundTrips.{ReadsWhatItWrites, WritesWhatItReads};
ghost use Rattle.winnow_codec.specs.Writing.{Writes};
ghost use Rattle.example_tls.specs.Records.{SpellsRecord, AreSameRecord, SpellsExtensions};

use crate::{Extension, TlsRecord, extensions, tls_record};
use std::alloc::Global;
use winnow_codec::{Format, Unwritten, round_trip_law};
use winnow_error::ParserError;
use winnow_parser::ModalResult;
use winnow_stream::StreamIsPartial;

/// The law of records: what is written is read back, no matter what follows, and what is read is
/// written back, byte for byte. It does nothing when called: its contract is the law.
pub fn record_law()
    ensures read { ReadsWhatItWrites AreSameRecord SpellsRecord }
    ensures written { WritesWhatItReads SpellsRecord }
{
    round_trip_law(&tls_record());
}

/// Reads a record.
pub fn read_record<I: StreamIsPartial<Token = u8>, E: ParserError<I>>(
    alloc: Global,
    input: &mut I,
) -> ModalResult<TlsRecord, E>
    requires { I.valid input.old }
    ensures { Reads SpellsRecord (I.expects_more input.old)
        (ahead I.location I.remaining input.old)
        (outcome result (ahead I.location I.remaining input.new)) }
{
    tls_record().read(alloc, input)
}

/// Appends the bytes of a record.
pub fn write_record(value: &TlsRecord, bytes: &mut Vec<u8>) -> Result<(), Unwritten>
    ensures { Writes SpellsRecord value.now bytes.old.items result bytes.new.items }
{
    tls_record().write(value, bytes)
}

/// Reads extensions.
pub fn read_extensions<I: StreamIsPartial<Token = u8>, E: ParserError<I>>(
    alloc: Global,
    input: &mut I,
) -> ModalResult<Vec<Extension>, E>
    requires { I.valid input.old }
    ensures { Reads SpellsExtensions (I.expects_more input.old)
        (ahead I.location I.remaining input.old)
        (outcome result (ahead I.location I.remaining input.new)) }
{
    extensions().read(alloc, input)
}

/// Appends the bytes of extensions.
pub fn write_extensions(
    extension_list: &Vec<Extension>,
    bytes: &mut Vec<u8>,
) -> Result<(), Unwritten>
    ensures { Writes SpellsExtensions extension_list.now bytes.old.items result bytes.new.items }
{
    extensions().write(extension_list, bytes)
}
