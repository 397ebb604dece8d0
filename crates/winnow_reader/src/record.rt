//! `Record`: a parser of bytes in pieces, generic in the lifetime of the bytes.

ghost use Rattle.std.specs.Prelude.{ℕ, IfErr};
ghost use Rattle.winnow_parser.specs.Outcome.{Ahead, Meaning};
ghost use Rattle.winnow_parser.specs.Errors.{Errors};
ghost use Rattle.winnow_parser.specs.Answer.{outcome};
ghost use Rattle.winnow_parser.specs.Laws.{IsParser};
ghost use Rattle.winnow_wrap.specs.Flag.{flag};
ghost use Rattle.winnow_reader.specs.Place.{stands};

use std::alloc::Global;
use winnow_parser::ModalResult;
use winnow_wrap::{LocatingSlice, Partial};

/// The stream that a record is given: bytes to which more may come, with their place in the joined
/// input.
pub type RecordInput<'b> = Partial<LocatingSlice<&'b [u8]>>;

/// What is read again and again from bytes that come in pieces.
///
/// A reader asks it of one buffer after the other, so `read` is generic in the lifetime of the
/// bytes: no bound says that a type is a parser for all of them. What it reads is owned, and
/// borrows nothing of them. It keeps the laws of a parser, so an `impl` mostly calls a parser and
/// means what that means.
pub trait Record {
    /// What it reads.
    type Output: Drop;

    /// What its failures carry.
    type Error;

    // What it may answer of what stands at the front.
    ghost means: { Self → Meaning Self.Output ℕ };

    // The errors that its failures may carry: of what stands at the front, whether more may follow,
    // and what is left.
    ghost errors: { Self → Errors Self.Error (Ahead ℕ) ℕ };

    // The records that may be asked.
    ghost ready: { Self → Type 0 };

    /// Reads a value from the front, as a parser does. The stream knows its place in the joined
    /// input.
    fn read<'b>(
        &self,
        alloc: Global,
        input: &mut RecordInput<'b>,
    ) -> ModalResult<Self::Output, Self::Error>
        requires { ready self.now }
        ensures means { means self.now (flag input.old) (stands input.old)
            (outcome result (stands input.new)) }
        ensures error { IfErr result (errors self.now (flag input.old) (stands input.old)
            (stands input.new)) };

    // It keeps the laws of a parser.
    ghost lawful: { (r : Self) → IsParser (means r) };
}
