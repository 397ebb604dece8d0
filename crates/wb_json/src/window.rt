//! `Window`: the input around the place of a fault.

ghost use Rattle.std.specs.Prelude.{◌≡◌, ℕ, ◌++◌, ◌≤◌, List, [], length, drop, OnOk, IfErr};
ghost use Rattle.wb_json.specs.Failures.{IsOfText};
ghost use Rattle.wb_json.specs.Windows.{IsWindow, Tells};

use crate::failure::{Failure, Fault};
use example_base::Trouble;
use std::alloc::Global;
use wb_base::Recent;

/// The bytes of the input that its reader has not taken, and what is kept of those before them.
#[derive(Drop)]
pub struct Window {
    // What is kept of the bytes that were dropped, and how many they are.
    recent: Recent,
    dropped: usize,
    // The bytes after them.
    bytes: Vec<u8>,
    // How many bytes of the input stand before the text.
    start: usize,
}

impl Window {
    /// Returns what is kept of an input of which nothing was read.
    pub fn new(alloc: Global) -> Window
        ensures window { IsWindow [] result }
        ensures start { result.start ≡ 0 }
    {
        Window {
            recent: Recent::new(),
            dropped: 0,
            bytes: Vec::new(alloc),
            start: 0,
        }
    }

    /// Appends a piece. An input of more bytes than can be counted is refused.
    pub fn append(&mut self, piece: &[u8]) -> Result<(), Failure>
        ensures window { OnOk result ((input : List ℕ) → IsWindow input self.old
            → IsWindow (input ++ piece.now) self.new) }
        ensures start { OnOk result (self.new.start ≡ self.old.start) }
        ensures failed { IfErr result (λ failure. ¬ (IsOfText failure)) }
    {
        let length = self.dropped.saturating_add(self.bytes.len());
        if piece.len() >= usize::MAX - length {
            return Err(Failure::Stopped(Trouble::TooLong));
        }
        match self.bytes.extend_from_slice(piece) {
            Ok(()) => Ok(()),
            Err(refused) => Err(Failure::from(refused)),
        }
    }

    /// Drops the bytes before this place of the text, which no fault is in.
    pub fn drop_before(&mut self, place: usize)
        ensures window { (input : List ℕ) → IsWindow input self.old → IsWindow input self.new }
        ensures start { self.new.start ≡ self.old.start }
    {
        let place = self.start.saturating_add(place);
        let width = place.saturating_sub(self.dropped).min(self.bytes.len());
        self.recent.take(&self.bytes[..width]);
        drop_first(&mut self.bytes, width);
        self.dropped = self.dropped.saturating_add(width);
    }

    /// Begins a text after the input so far.
    pub fn begin_text(&mut self)
        ensures window { (input : List ℕ) → IsWindow input self.old → IsWindow input self.new }
        ensures start { (input : List ℕ) → IsWindow input self.old
            → self.new.start ≡ length input }
    {
        self.start = self.dropped.saturating_add(self.bytes.len());
    }

    /// Returns the failure of a fault at this place of the text.
    pub fn failure(&self, place: usize, fault: Fault) -> Failure
        ensures { (input : List ℕ) → IsWindow input self.now
            → Tells input self.now.start place fault result }
    {
        let there = self.start.saturating_add(place);
        if there < self.dropped || self.bytes.len() < there - self.dropped {
            return Failure::Stopped(Trouble::TooLong);
        }
        let (before, rest) = self.bytes.split_at(there - self.dropped);
        Failure::Faulty {
            position: self.recent.position(before),
            fault,
            excerpt: self
                .recent
                .excerpt(*self.bytes.allocator(), before, rest)
                .ok(),
        }
    }
}

// Drops the first bytes.
fn drop_first(bytes: &mut Vec<u8>, count: usize)
    requires { count ≤ length bytes.old.items }
    ensures { bytes.new.items ≡ drop count bytes.old.items }
{
    let length = bytes.len();
    bytes.copy_within(count..length, 0);
    bytes.truncate(length - count);
}
