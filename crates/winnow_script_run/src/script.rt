//! The types of a script of calls: a `Step` and its `Answer`.

use winnow_stream::Needed;

/// A call on a stream, as data. `C` is a set of tokens; offsets and marks are numbers.
#[derive(Clone, Copy, Debug, Drop)]
pub enum Step<C> {
    /// `next_token`
    Next,
    /// `peek_token`
    Peek,
    /// `next_slice`, where the offset is valid
    Take(usize),
    /// `peek_slice`, where the offset is valid
    Look(usize),
    /// `finish`
    Finish,
    /// `peek_finish`
    PeekFinish,
    /// `eof_offset`
    Eof,
    /// `offset_at`
    At(usize),
    /// `is_offset`
    IsOffset(usize),
    /// `offset_for`
    First(C),
    /// `iter_offsets`
    Each,
    /// `checkpoint`; marks are numbered from 0
    Mark,
    /// `reset` to the mark with that number
    Reset(usize),
    /// `offset_since` the mark with that number
    Since(usize),
}

/// The answer to a step: a token `T`, a slice `S`, a number, or a list `L` of offsets and tokens.
///
/// `N` is the answer to a shortage. It is always `Needed`: write `Answer<T, S, L>`.
#[derive(Debug, Drop, PartialEq, Eq)]
pub enum Answer<T, S, L, N = Needed> {
    /// The first token, or `None` at the end
    Token(Option<T>),
    /// The slice that was requested
    Slice(S),
    /// A width, in the stream's offsets
    Offset(usize),
    /// The offset after a number of tokens, or how many tokens are missing
    At(Result<usize, N>),
    /// Whether an offset is valid
    Flag(bool),
    /// The offset of the first token in the set, if there is one
    First(Option<usize>),
    /// Each remaining token with its offset
    Items(L),
    /// The number of the new mark
    Marked(usize),
    /// The stream stands at the mark
    Done,
    /// No front has that width, and nothing moved
    BadOffset,
    /// There is no mark with that number, and nothing moved
    NoMark,
    /// The mark is after the stream's position
    LaterMark,
}
