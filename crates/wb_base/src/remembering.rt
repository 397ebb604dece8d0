//! `Recent`: what is kept of an input whose bytes are dropped as they are read.

ghost use Rattle.std.specs.Prelude.{◌≡◌, ℕ, ◌+◌, ◌<◌, ◌≤◌, ◌^◌, List, [], ◌++◌, length, IfOk};
ghost use Rattle.std.specs.List.{fold};
ghost use Rattle.arrayvec.specs.ArrayVec.{array_vec_len};
ghost use Rattle.wb_base.specs.Positions.{next_column, IsPositionAfter};
ghost use Rattle.wb_base.specs.Excerpts.{IsExcerpt};
ghost use Rattle.wb_base.specs.Recents.{AreLastOf, IsRecent};

use crate::excerpt::{Excerpt, WIDTH};
use crate::position::{Position, is_inside, line_feeds};
use arrayvec::ArrayVec;
use std::alloc::{AllocError, Global};

// As many bytes are kept before the first of them are dropped.
const ROOM: usize = 240;

/// What is kept of the bytes of an input that were taken: how many line feeds they have, how many
/// characters their last line has, and as many of their last bytes as an excerpt shows.
///
/// So the place and the line of a fault in the bytes ahead can be told. Nothing is allocated as
/// bytes are taken.
#[derive(Debug, Drop)]
pub struct Recent {
    feeds: usize,
    column: usize,
    last: ArrayVec<u8, 240>,
}

impl Recent {
    /// Returns what is kept of an input of which no byte was taken.
    pub fn new() -> Recent
        ensures { IsRecent [] result }
    {
        Recent {
            feeds: 0,
            column: 0,
            last: ArrayVec::new(),
        }
    }

    /// Takes bytes, which follow those that were taken.
    pub fn take(&mut self, bytes: &[u8])
        ensures { (taken : List ℕ) → IsRecent taken self.old
            → length (taken ++ bytes.now) + 1 < 2 ^ 64 → IsRecent (taken ++ bytes.now) self.new }
    {
        self.feeds = self.feeds.saturating_add(line_feeds(bytes));
        self.column = column_after(self.column, bytes);
        keep_last(&mut self.last, bytes);
    }

    /// Returns the position after these bytes, which follow those that were taken.
    pub fn position(&self, before: &[u8]) -> Position
        ensures { (taken : List ℕ) → IsRecent taken self.now
            → length (taken ++ before.now) + 1 < 2 ^ 64
            → IsPositionAfter (taken ++ before.now) result }
    {
        let feeds = self.feeds.saturating_add(line_feeds(before));
        let column = column_after(self.column, before);
        Position {
            line: feeds.saturating_add(1),
            column: column.saturating_add(1),
        }
    }

    /// Returns the line of the place between these bytes, of which the first follow those that were
    /// taken.
    pub fn excerpt(&self, alloc: Global, before: &[u8], rest: &[u8]) -> Result<Excerpt, AllocError>
        ensures { (taken : List ℕ) → IsRecent taken self.now
            → IfOk result (λ excerpt. IsExcerpt (taken ++ before.now) rest.now excerpt) }
    {
        if WIDTH <= before.len() {
            return Excerpt::new(alloc, before, rest);
        }
        let mut line = Vec::new(alloc);
        line.extend_from_slice(self.last.as_slice())?;
        line.extend_from_slice(before)?;
        Excerpt::new(alloc, &line, rest)
    }
}

// Returns how many characters a line has after these bytes, if it had so many before them.
fn column_after(start: usize, bytes: &[u8]) -> usize
    ensures { start + length bytes.now < 2 ^ 64 → result ≡ fold next_column start bytes.now }
{
    let mut column = start;
    for byte in bytes {
        if *byte == b'\n' {
            column = 0;
        } else if !is_inside(*byte) {
            column = column.saturating_add(1);
        }
    }
    column
}

// Keeps the last bytes, after more of them.
fn keep_last(last: &mut ArrayVec<u8, 240>, bytes: &[u8])
    ensures { (taken : List ℕ) → AreLastOf taken last.old.items
        → AreLastOf (taken ++ bytes.now) last.new.items }
{
    if WIDTH <= bytes.len() {
        last.clear();
        let _ = last.try_extend_from_slice(last_of(bytes));
        return;
    }
    make_room(last, bytes.len());
    let _ = last.try_extend_from_slice(bytes);
}

// Makes room for so many bytes more.
fn make_room(last: &mut ArrayVec<u8, 240>, more: usize)
    requires { more < 120 }
    ensures kept { (taken : List ℕ) → AreLastOf taken last.old.items
        → AreLastOf taken last.new.items }
    ensures room { array_vec_len last.new + more ≤ 240 }
{
    if ROOM < last.len() + more {
        drop_first(last);
    }
}

// Drops all but the last bytes that an excerpt shows.
fn drop_first(last: &mut ArrayVec<u8, 240>)
    ensures kept { (taken : List ℕ) → AreLastOf taken last.old.items
        → AreLastOf taken last.new.items }
    ensures room { array_vec_len last.new ≤ 120 }
{
    let mut kept = ArrayVec::new();
    let _ = kept.try_extend_from_slice(last_of(last.as_slice()));
    *last = kept;
}

// Returns the last bytes that an excerpt shows.
fn last_of(bytes: &[u8]) -> &[u8]
    ensures last { AreLastOf bytes.now result.now }
    ensures within { length result.now ≤ 120 }
{
    let (_, last) = bytes.split_at(bytes.len().saturating_sub(WIDTH));
    last
}
