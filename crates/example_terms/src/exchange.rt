//! TermLayers that are read and written, with the promises in the words of `specs/`.

ghost use Rattle.winnow_parser.specs.Answer.{ahead, outcome};
ghost use Rattle.winnow_codec.specs.Formats.{Reads};
ghost use Rattle.winnow_codec.specs.RoundTrips.{ReadsWhatItWrites, WritesWhatItReads};
ghost use Rattle.winnow_codec.specs.Writing.{Writes};
ghost use Rattle.example_terms.specs.Terms.{SpellsTerm, AreSameTerm};

use crate::{Term, terms};
use std::alloc::Global;
use winnow_codec::{Format, Unwritten, round_trip_law};
use winnow_error::ParserError;
use winnow_parser::ModalResult;
use winnow_stream::StreamIsPartial;

/// The law of terms: what is written is read back, no matter what follows, and what is read is
/// written back, byte for byte. It does nothing when called: its contract is the law.
pub fn term_law(depth: usize)
    ensures read { ReadsWhatItWrites AreSameTerm (SpellsTerm depth) }
    ensures written { WritesWhatItReads (SpellsTerm depth) }
{
    round_trip_law(&terms(depth));
}

/// Reads a term in at most this many layers.
pub fn read_term<I: StreamIsPartial<Token = u8>, E: ParserError<I>>(
    depth: usize,
    alloc: Global,
    input: &mut I,
) -> ModalResult<Term, E>
    requires { I.valid input.old }
    ensures { Reads (SpellsTerm depth) (I.expects_more input.old)
        (ahead I.location I.remaining input.old)
        (outcome result (ahead I.location I.remaining input.new)) }
{
    terms(depth).read(alloc, input)
}

/// Appends the bytes of a term.
pub fn write_term(depth: usize, term: &Term, bytes: &mut Vec<u8>) -> Result<(), Unwritten>
    ensures { Writes (SpellsTerm depth) term.now bytes.old.items result bytes.new.items }
{
    terms(depth).write(term, bytes)
}
