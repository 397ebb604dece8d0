//! `TextRecord`: a parser of text in pieces.

ghost use Rattle.std.specs.Prelude.{ℕ, IfErr};
ghost use Rattle.winnow_parser.specs.Outcome.{Ahead, Meaning};
ghost use Rattle.winnow_parser.specs.Errors.{Errors};
ghost use Rattle.winnow_parser.specs.Answer.{outcome};
ghost use Rattle.winnow_parser.specs.Laws.{IsParser};
ghost use Rattle.winnow_wrap.specs.Flag.{flag};
ghost use Rattle.winnow_reader.specs.TextPlace.{stands_text};

use std::alloc::Global;
use winnow_parser::ModalResult;
use winnow_wrap::{LocatingSlice, Partial};

/// The stream that a record of text is given: characters to which more may come, with their place
/// in the joined input, counted in bytes.
pub type TextRecordInput<'b> = Partial<LocatingSlice<&'b str>>;

/// What is read again and again from text that comes as bytes in pieces: as [`Record`], over
/// characters.
///
/// [`Utf8Record`] makes a record of bytes of it.
///
/// [`Record`]: crate::Record
/// [`Utf8Record`]: crate::Utf8Record
pub trait TextRecord {
    /// What it reads.
    type Output: Drop;

    /// What its failures carry.
    type Error;

    // What it may answer of the characters that stand at the front.
    ghost means: { Self → Meaning Self.Output ℕ };

    // The errors that its failures may carry: of what stands at the front, whether more may follow,
    // and what is left.
    ghost errors: { Self → Errors Self.Error (Ahead ℕ) ℕ };

    // The records that may be asked.
    ghost ready: { Self → Type 0 };

    /// Reads a value from the front, as a parser does. The stream knows its place in the joined
    /// input.
    fn read<'b>(
        &self,
        alloc: Global,
        input: &mut TextRecordInput<'b>,
    ) -> ModalResult<Self::Output, Self::Error>
        requires { ready self.now }
        ensures means { means self.now (flag input.old) (stands_text input.old)
            (outcome result (stands_text input.new)) }
        ensures error { IfErr result (errors self.now (flag input.old) (stands_text input.old)
            (stands_text input.new)) };

    // It keeps the laws of a parser.
    ghost lawful: { (r : Self) → IsParser (means r) };
}
