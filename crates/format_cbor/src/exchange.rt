//! Heads, scalars and items that are read and written, with the promises in the words of `specs/`.

ghost use Rattle.winnow_parser.specs.Answer.{ahead, outcome};
ghost use Rattle.winnow_codec.specs.Formats.{Reads, IsEqual};
ghost use Rattle.winnow_codec.specs.RoundTrips.{ReadsWhatItWrites, WritesWhatItReads};
ghost use Rattle.winnow_codec.specs.Writing.{Writes};
ghost use Rattle.format_cbor.specs.Heads.{SpellsHead};
ghost use Rattle.format_cbor.specs.Scalars.{SpellsScalar, AreSameScalar};
ghost use Rattle.format_cbor.specs.Items.{SpellsItem, AreSame};

use crate::{Scalar, heads, items, scalars};
use std::alloc::Global;
use winnow_codec::{Format, Unwritten, round_trip_law};
use winnow_error::ParserError;
use winnow_parser::ModalResult;
use winnow_stream::StreamIsPartial;

/// The law of heads: what is written is read back, whatever follows, and what is read is written
/// back, byte for byte. It does nothing when called: its contract is the law.
pub fn head_law()
    ensures read { ReadsWhatItWrites IsEqual SpellsHead }
    ensures written { WritesWhatItReads SpellsHead }
{
    round_trip_law(&heads());
}

/// The law of scalars, as [`head_law`] is that of heads.
pub fn scalar_law(longest: usize)
    ensures read { ReadsWhatItWrites AreSameScalar (SpellsScalar longest) }
    ensures written { WritesWhatItReads (SpellsScalar longest) }
{
    round_trip_law(&scalars(longest));
}

/// The law of items, as [`head_law`] is that of heads.
pub fn item_law(longest: usize, depth: usize)
    ensures read { ReadsWhatItWrites AreSame (SpellsItem longest depth) }
    ensures written { WritesWhatItReads (SpellsItem longest depth) }
{
    round_trip_law(&items(longest, depth));
}

/// Reads a data item that holds no other, of which a string has at most `longest` bytes.
pub fn read_data_item<I: StreamIsPartial<Token = u8>, E: ParserError<I>>(
    longest: usize,
    alloc: Global,
    input: &mut I,
) -> ModalResult<Scalar, E>
    requires { I.valid input.old }
    ensures { Reads (SpellsScalar longest) (I.expects_more input.old)
        (ahead I.location I.remaining input.old)
        (outcome result (ahead I.location I.remaining input.new)) }
{
    scalars(longest).read(alloc, input)
}

/// Appends the bytes of a data item that holds no other, of which a string has at most `longest`
/// bytes.
pub fn write_data_item(
    longest: usize,
    scalar: &Scalar,
    bytes: &mut Vec<u8>,
) -> Result<(), Unwritten>
    ensures { Writes (SpellsScalar longest) scalar.now bytes.old.items result bytes.new.items }
{
    scalars(longest).write(scalar, bytes)
}
