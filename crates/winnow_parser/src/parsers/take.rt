//! `Taken` and `WithTaken`: parsers of the slice that another parser consumes.

ghost use Rattle.std.specs.Prelude.{◌≡◌};
ghost use Rattle.winnow_parser.specs.Outcome.{Moves};
ghost use Rattle.winnow_parser.specs.Answer.{ahead};
ghost use Rattle.winnow_parser.specs.Taken.{IsFrontTaken, Taken, IsParser-Taken};

use crate::{ModalResult, Parser, taken_width_law};
use std::alloc::Global;
use std::marker::PhantomData;
use winnow_stream::{Stream, StreamIsPartial};

/// A parser of the slice that the inner parser takes; [`Parser::take`] makes it.
#[derive(Drop)]
#[derive_where(Clone, Copy; P)]
pub struct Taken<P, I, E> {
    inner: P,
    parses: PhantomData<(I, E)>,
}

impl<P, I, E> Taken<P, I, E> {
    // Returns the parser of the slice that the inner one takes.
    pub(crate) fn new(inner: P) -> Self
        ensures inner { result.inner ≡ inner }
    {
        Taken {
            inner,
            parses: PhantomData,
        }
    }
}

impl<I: StreamIsPartial, E, P: Parser<I, E>> Parser<I, E> for Taken<P, I, E>
where
    P::Output: Drop,
{
    type Output = I::Slice;

    ghost means = { λ p. Taken I.is_slice (P.means p.inner) };

    ghost errors = { λ p. P.errors p.inner };

    ghost ready = { λ p. P.ready p.inner };

    ghost lawful = { λ p.
        IsParser-Taken I.is_slice I.slices_stay (P.means p.inner) (P.lawful p.inner) };

    // Inlined: an answer that a call hands on is copied through memory.
    #[inline(always)]
    fn parse_next(&self, alloc: Global, input: &mut I) -> ModalResult<I::Slice, E> {
        let start = input.checkpoint();
        let _ = self.inner.parse_next(alloc, input)?;
        Ok(take_since(input, &start))
    }
}

// Returns the slice that was taken since a checkpoint. Afterwards the stream stands where it stood
// before.
pub(crate) fn take_since<I: Stream>(input: &mut I, start: &I::Checkpoint) -> I::Slice
    requires valid { I.valid input.old }
    requires valid_checkpoint { I.valid_checkpoint start.now }
    requires moved { Moves (ahead I.Checkpoint.location I.remained start.now)
        (ahead I.location I.remaining input.old) }
    ensures taken { IsFrontTaken I.is_slice result
        (ahead I.Checkpoint.location I.remained start.now)
        (ahead I.location I.remaining input.old) }
    ensures stands { ahead I.location I.remaining input.new
        ≡ ahead I.location I.remaining input.old }
    ensures valid { I.valid input.new }
    ensures kept { I.keeps input.old input.new }
{
    taken_width_law::<I::Token>();
    let width = input.offset_since(start);
    input.reset(start);
    input.next_slice(width)
}
