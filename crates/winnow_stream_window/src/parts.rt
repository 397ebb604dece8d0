//! The methods of a `Window`: its elements, its start, and parts of it.

ghost use Rattle.std.specs.Prelude.{◌≡◌, ◌+◌, ◌<◌, ◌≤◌, Some, length, take, drop, slice_get};
ghost use Rattle.winnow_stream_window.specs.Contents.{contents_of, start_of, slice_of};
ghost use Rattle.winnow_stream_window.specs.Contents.{slice_behind};
ghost use Rattle.winnow_stream_window.specs.Contents.{slice_before};

use crate::Window;

#[tactic(auto, using(crate::proofs::lemmas::PartLemmas::range_steps), unfolding(crate::specs::Contents::contents_of, crate::specs::Contents::address_of))]
impl<'i, T> Window<'i, T> {
    /// Returns the window of the whole slice.
    pub fn new(whole: &'i [T]) -> Self
        ensures slice { slice_of T.row result ≡ whole.entry }
        ensures contents { contents_of result ≡ whole.now }
        ensures start { start_of result ≡ 0 }
    {
        Window {
            whole,
            start: 0,
            end: whole.len(),
        }
    }

    /// Returns the part as a slice.
    pub fn slice(&self) -> &'i [T]
        ensures slice { result ≡ slice_of T.row self.now }
        ensures contents { result.now ≡ contents_of self.now }
    {
        &self.whole[self.start..self.end]
    }

    /// Returns the element at a place of the part.
    pub fn at(&self, place: usize) -> &'i T
        requires { place < length (contents_of self.now) }
        ensures { slice_get (contents_of self.now) place ≡ Some result.now }
    {
        &self.slice()[place]
    }

    /// Returns the number of elements of the part.
    pub fn len(&self) -> usize
        ensures { result ≡ length (contents_of self.now) }
    {
        self.end - self.start
    }

    /// Returns the place in the whole slice at which the part starts.
    pub fn start(&self) -> usize
        ensures { result ≡ start_of self.now }
    {
        self.start
    }

    /// Returns the part after its first `count` elements.
    pub fn behind(self, count: usize) -> Self
        requires { count ≤ length (contents_of self) }
        ensures slice { slice_of T.row result
            ≡ slice_behind T.row count (slice_of T.row self.entry) }
        ensures contents { contents_of result ≡ drop count (contents_of self.entry) }
        ensures start { start_of result ≡ start_of self.entry + count }
    {
        Window {
            whole: self.whole,
            start: self.start + count,
            end: self.end,
        }
    }

    /// Returns the first `count` elements of the part.
    pub fn before(self, count: usize) -> Self
        requires { count ≤ length (contents_of self) }
        ensures slice { slice_of T.row result ≡ slice_before count (slice_of T.row self.entry) }
        ensures contents { contents_of result ≡ take count (contents_of self.entry) }
        ensures start { start_of result ≡ start_of self.entry }
    {
        Window {
            whole: self.whole,
            start: self.start,
            end: self.start + count,
        }
    }
}
