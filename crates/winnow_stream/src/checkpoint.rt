//! `Checkpoint`, a place in the input to which `reset` goes back.

ghost use Rattle.std.specs.Prelude.{◌≡◌};
ghost use Rattle.winnow_stream.specs.Checkpoint.{checkpoint_inner};

use crate::Rest;
use std::fmt;
use std::fmt::Debug;
use std::marker::PhantomData;

/// The place at which a stream of type `S` stood: a later `reset` goes back there.
///
/// It holds a `T`, from which the stream knows what remained. Equality and order are those of the
/// `T`.
#[derive(Drop)]
#[derive_where(Clone, Copy, PartialEq, Eq, PartialOrd, Ord; T)]
pub struct Checkpoint<T, S> {
    inner: T,
    of: PhantomData<S>,
}

impl<T, S> Checkpoint<T, S> {
    #[doc(hidden)]
    pub fn new(inner: T) -> Self
        ensures { checkpoint_inner result ≡ inner }
    {
        Checkpoint {
            inner,
            of: PhantomData,
        }
    }

    #[doc(hidden)]
    pub fn inner(&self) -> &T
        ensures { result.now ≡ checkpoint_inner self.now }
    {
        &self.inner
    }
}

impl<T: Rest, S> Rest for Checkpoint<T, S> {
    ghost rest_width = { λ c. T.rest_width (checkpoint_inner c) };

    ghost location = { λ c. T.location (checkpoint_inner c) };
}

/// A checkpoint prints as the value that it holds.
impl<T: Debug, S> Debug for Checkpoint<T, S> {
    ghost debug_output = { λ c. T.debug_output (checkpoint_inner c) };

    fn fmt<W: fmt::Write>(&self, f: &mut fmt::Formatter<W>) -> fmt::Result {
        self.inner.fmt(f)
    }
}
