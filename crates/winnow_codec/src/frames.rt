//! Parts with a frame that tells their end, and values that fill them: `Frame`, `Inside`.

ghost use Rattle.std.specs.Prelude.{◌≡◌, List, ℕ};
ghost use Rattle.winnow_parser.specs.Answer.{ahead, outcome};
ghost use Rattle.winnow_codec.specs.Formats.{IsFormat, IsEqual};
ghost use Rattle.winnow_codec.specs.Frames.{ReadsPart, SpellsInside, IsFormat-Inside};
ghost use Rattle.winnow_codec.specs.Writing.{Writes};

use crate::{Format, Unread, Unwritten, Whole};
use std::alloc::Global;
use winnow_error::ParserError;
use winnow_parser::{Failure, ModalResult};
use winnow_stream::StreamIsPartial;

/// A frame tells the end of a part: by a number of bytes ([`sized`](crate::sized)), or by an end
/// mark ([`till`](crate::till)).
pub trait Frame: Sized {
    // Which bytes are which part with its frame.
    ghost frames: { Self → List ℕ → List ℕ → Type 0 };

    /// Reads the bytes of a part, and moves the stream past them and their frame. It fails as
    /// [`Format::read`] does.
    fn read_part<I: StreamIsPartial<Token = u8>, E: ParserError<I>>(
        &self,
        alloc: Global,
        input: &mut I,
    ) -> ModalResult<Vec<u8>, E>
        requires { I.valid input.old }
        ensures means { ReadsPart (frames self.now) (I.expects_more input.old)
            (ahead I.location I.remaining input.old)
            (outcome result (ahead I.location I.remaining input.new)) }
        ensures valid { I.valid input.new }
        ensures kept { I.keeps input.old input.new };

    /// Appends the bytes of a part with their frame. If the part has no frame, it returns
    /// `Unspelled`; then, and if memory is refused, the bytes are what they were.
    fn write_part(&self, part: &[u8], bytes: &mut Vec<u8>) -> Result<(), Unwritten>
        ensures { Writes (frames self.now) part.now bytes.old.items result bytes.new.items };

    // A part has one frame, and no part with its frame is the front of another.
    ghost lawful: { (f : Self) → IsFormat IsEqual (frames f) };
}

/// The format of a value that fills a part with a frame; [`sized`](crate::sized) and
/// [`till`](crate::till) make it.
#[derive(Clone, Copy, Drop)]
pub struct Inside<F, W> {
    pub(crate) frame: F,
    pub(crate) part: W,
}

impl<F: Frame, W: Whole> Format for Inside<F, W> {
    type Value = W::Value;

    ghost spells = { λ f. SpellsInside (F.frames f.frame) (W.spells f.part) };

    ghost same = { W.same };

    ghost lawful = { λ f. IsFormat-Inside (F.frames f.frame) (F.lawful f.frame) W.same
        (W.spells f.part) (W.lawful f.part) };

    fn read<I: StreamIsPartial<Token = u8>, E: ParserError<I>>(
        &self,
        alloc: Global,
        input: &mut I,
    ) -> ModalResult<W::Value, E> {
        match self.frame.read_part(alloc, input) {
            Ok(bytes) => match self.part.read_whole(alloc, &bytes) {
                Ok(value) => Ok(value),
                Err(Unread::Malformed) => Err(Failure::Backtrack(E::from_input(alloc, input))),
                Err(Unread::Refused(refused)) => Err(Failure::Refused(refused)),
            },
            Err(failure) => Err(failure),
        }
    }

    fn write(&self, value: &W::Value, bytes: &mut Vec<u8>) -> Result<(), Unwritten> {
        // The part is written alone first, since its frame may depend on all of its bytes.
        let mut part = Vec::new(*bytes.allocator());
        self.part.write(value, &mut part)?;
        self.frame.write_part(&part, bytes)
    }
}
