//! The types of a script that also compares and searches: a `SearchStep` and its `SearchAnswer`.

use crate::{Answer, Step};
use std::ops::Range;
use winnow_match::{CompareResult, Needles};

/// A step of a script that also compares and searches, as data. `C` is a set of tokens, `L` a
/// literal.
#[derive(Clone, Copy, Debug, Drop)]
pub enum SearchStep<C, L> {
    /// A call of `Stream`
    Call(Step<C>),
    /// `compare` with the literal
    Compare(L),
    /// `find_slice` of the needles
    Find(Needles<L>),
}

/// The answer to a step: to a call, a comparison or a search. See [`Answer`] for `T`, `S` and `L`.
#[derive(Debug, Drop, PartialEq, Eq)]
pub enum SearchAnswer<T, S, L> {
    /// What the call answers
    Call(Answer<T, S, L>),
    /// How the literal compares with what remains
    Compared(CompareResult),
    /// The first place of a needle in what remains, counted from the stream's position
    Hit(Option<Range<usize>>),
}

/// An answer whose slices and items are places in the joined input.
pub type PieceAnswer<T> = SearchAnswer<T, Range<usize>, Range<usize>>;
