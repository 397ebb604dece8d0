//! The `Marks` of a run, and its `Origin`, the position to which it can go back.

ghost use Rattle.std.specs.Prelude.{◌≡◌, ◌-◌, ◌≤◌, [], ◌∷◌, ◌++◌, length, slice_get, IfOk, IsOk};
ghost use Rattle.std.specs.Prelude.{OnErr, OnOk};
ghost use Rattle.winnow_stream.specs.Source.{width};

use std::alloc::{AllocError, Global};
use winnow_stream::{Rest, Stream};

/// The marks of a run: the place of each, in the order in which they were made.
///
/// A place is a width from the start of the run's list.
#[derive(Debug, Drop)]
pub struct Marks {
    places: Vec<usize>,
}

impl Marks {
    ghost use Rattle.winnow_script_run.specs.Marks.{places_of, room_of, HasRoom};

    /// Returns an empty list of marks, and takes no memory.
    pub fn new(alloc: Global) -> Self
        ensures { places_of result ≡ [] }
    {
        Marks {
            places: Vec::new(alloc),
        }
    }

    /// Returns an empty list of marks with room for the given number, so that making these takes no
    /// memory.
    pub fn with_capacity(alloc: Global, count: usize) -> Result<Self, AllocError>
        ensures none { IfOk result (λ marks. places_of marks ≡ []) }
        ensures room { IfOk result (λ marks. count ≤ room_of marks) }
    {
        let places = Vec::with_capacity(alloc, count)?;
        Ok(Marks { places })
    }

    /// Returns the number of marks that were made.
    pub fn count(&self) -> usize
        ensures { result ≡ length (places_of self.now) }
    {
        self.places.len()
    }

    /// Returns the place of the mark with the given number, counted from 0, if there is one.
    pub fn place(&self, number: usize) -> Option<usize>
        ensures { result ≡ slice_get (places_of self.now) number }
    {
        self.places.get(number).copied()
    }

    /// Adds a mark, and takes memory only if there is no room for it.
    pub fn push(&mut self, place: usize) -> Result<(), AllocError>
        ensures ok { OnOk result (places_of self.new ≡ places_of self.old ++ place ∷ []) }
        ensures refused { OnErr result (places_of self.new ≡ places_of self.old) }
        ensures sure { HasRoom self.old → IsOk result }
        ensures room { room_of self.old ≤ room_of self.new }
    {
        self.places.push(place)?;
        Ok(())
    }
}

/// The position that a run can go back to, and the place of the end of its list.
#[derive(Clone, Copy, Debug)]
pub struct Origin<K> {
    /// A checkpoint, which knows what remained there
    pub checkpoint: K,
    /// The place of the checkpoint
    pub place: usize,
    /// The place of the end
    pub end: usize,
}

impl<K> Origin<K> {
    /// Returns the stream's position as the origin of a run whose list ends at the place `end`.
    pub fn new<S: Stream<Checkpoint = K>>(s: &S, end: usize) -> Self
    where
        K: Rest,
        requires valid { S.valid s.now }
        requires fits { width (S.remaining s.now) ≤ end }
        ensures means { S.remained result.checkpoint ≡ S.remaining s.now }
        ensures valid { S.valid_checkpoint result.checkpoint }
        ensures located { K.location result.checkpoint ≡ S.location s.now }
        ensures place { result.place ≡ end - width (S.remaining s.now) }
        ensures end { result.end ≡ end }
    {
        Origin {
            checkpoint: s.checkpoint(),
            place: end - s.eof_offset(),
            end,
        }
    }
}
