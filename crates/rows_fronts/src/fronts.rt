//! Streams that are made of an input, or of a front of it.

use std::alloc::{AllocError, Global};
use winnow_stream::{Stream, StreamIsPartial};
use winnow_wrap::Partial;

/// A stream that is made of an input or of a front of it. A parser is asked in functions that are
/// generic over it.
pub trait Fronts: StreamIsPartial + Drop {
    /// What a row gives: a text, or bytes.
    type Whole: Copy;

    /// Returns the number of bytes.
    fn width(whole: Self::Whole) -> usize;

    /// Returns whether a front may end here.
    fn has_front(whole: Self::Whole, end: usize) -> bool;

    /// Returns the stream of a front, after which more may come.
    fn of_front(whole: Self::Whole, end: usize) -> Self
        ensures { Self.valid result };

    /// Returns the stream of the whole, after which nothing comes.
    fn of_whole(whole: Self::Whole) -> Self
        ensures { Self.valid result };

    /// Returns what remains, as its debug text.
    fn rest(&self, alloc: Global) -> Result<String, AllocError>
        requires { Self.valid self.now };
}

impl<'a> Fronts for Partial<&'a str> {
    type Whole = &'a str;

    fn width(whole: &'a str) -> usize {
        whole.len()
    }

    fn has_front(whole: &'a str, end: usize) -> bool {
        whole.is_char_boundary(end)
    }

    fn of_front(whole: &'a str, end: usize) -> Self {
        Partial::new(whole.get(..end).unwrap_or(whole))
    }

    fn of_whole(whole: &'a str) -> Self {
        let mut input = Partial::new(whole);
        let _ = input.complete();
        input
    }

    fn rest(&self, alloc: Global) -> Result<String, AllocError> {
        let rest = self.peek_finish();
        format!(in alloc; "{rest:?}")
    }
}

impl<'a> Fronts for Partial<&'a [u8]> {
    type Whole = &'a [u8];

    fn width(whole: &'a [u8]) -> usize {
        whole.len()
    }

    fn has_front(_whole: &'a [u8], _end: usize) -> bool {
        true
    }

    fn of_front(whole: &'a [u8], end: usize) -> Self {
        Partial::new(whole.get(..end).unwrap_or(whole))
    }

    fn of_whole(whole: &'a [u8]) -> Self {
        let mut input = Partial::new(whole);
        let _ = input.complete();
        input
    }

    fn rest(&self, alloc: Global) -> Result<String, AllocError> {
        let rest = self.peek_finish();
        format!(in alloc; "{rest:?}")
    }
}
