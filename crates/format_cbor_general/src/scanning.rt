//! `Scan`: where an item ends, as its bytes come.

use crate::cursor::Cursor;
use crate::fault::{Cause, ReadError};
use crate::general_head::{GeneralHead, read_head};
use crate::reading::Limits;
use std::alloc::{AllocError, Global};

// An item around the next head.
#[derive(Clone, Copy, Drop)]
enum Open {
    // This number of items is still to come in it
    Items(u64),
    // Items come until a break
    Until,
    // Chunks of a string come until a break
    Chunks,
}

// What a head made of a scan.
#[derive(Clone, Copy, Drop, PartialEq, Eq)]
enum Found {
    // The item goes on
    More,
    // Nothing more is needed to read the item, or to say what is wrong
    Enough,
    // More bytes are needed
    Wanting,
}

/// A search for the end of an item whose bytes come in pieces. It looks at each head once, and
/// keeps what is open around the next one, so at most as much as the limit on depth allows.
#[derive(Drop)]
pub struct Scan {
    limits: Limits,
    open: Vec<Open>,
    // Where the next head is.
    place: usize,
}

impl Scan {
    /// Returns a search before an item.
    pub fn new(alloc: Global, limits: Limits) -> Result<Scan, AllocError> {
        let mut open = Vec::new(alloc);
        open.push(Open::Items(1))?;
        Ok(Scan {
            limits,
            open,
            place: 0,
        })
    }

    /// Goes on in the bytes of the item that are there, from its first one on, and returns whether
    /// [`read_item`](crate::read_item) can read it or say what is wrong without more of them. At
    /// each call the bytes are those of the call before it, and may have more after them.
    pub fn is_ready(&mut self, bytes: &[u8]) -> Result<bool, AllocError> {
        // There are more turns than an input can have heads.
        for _ in 0..u64::MAX {
            match self.step(bytes)? {
                Found::More => {}
                Found::Enough => return Ok(true),
                Found::Wanting => return Ok(false),
            }
        }
        Ok(false)
    }

    // Goes past a head, or out of an item that is whole.
    fn step(&mut self, bytes: &[u8]) -> Result<Found, AllocError> {
        let Some(open) = self.open.pop() else {
            return Ok(whole(self.place, bytes));
        };
        match open {
            Open::Items(0) => Ok(Found::More),
            _ => match self.next_head(bytes) {
                Ok(head) => self.pass(open, head),
                Err(found) => {
                    self.open.push(open)?;
                    Ok(found)
                }
            },
        }
    }

    // Reads the next head, or returns what the scan found.
    fn next_head(&mut self, bytes: &[u8]) -> Result<GeneralHead, Found> {
        let Some(rest) = bytes.get(self.place..) else {
            return Err(Found::Wanting);
        };
        let mut cursor = Cursor::new(rest);
        match read_head(&mut cursor) {
            Ok(head) => {
                self.place = self.place.saturating_add(cursor.offset());
                Ok(head)
            }
            Err(
                ReadError::Faulty {
                    cause: Cause::EndsEarly,
                    ..
                },
            ) => Err(Found::Wanting),
            Err(_) => Err(Found::Enough),
        }
    }

    // Goes past this head, which is the next in this item.
    fn pass(&mut self, open: Open, head: GeneralHead) -> Result<Found, AllocError> {
        if head.major == 7 && head.argument.is_none() {
            return match open {
                Open::Items(_) => Ok(Found::Enough),
                _ => Ok(Found::More),
            };
        }
        match open {
            Open::Items(count) => self.open.push(Open::Items(count.saturating_sub(1)))?,
            other => self.open.push(other)?,
        }
        if self.limits.depth < self.open.len().saturating_sub(1) && !matches!(open, Open::Chunks) {
            return Ok(Found::Enough);
        }
        self.enter(head)
    }

    // Goes into the item with this head, if it holds others, or past its bytes.
    fn enter(&mut self, head: GeneralHead) -> Result<Found, AllocError> {
        let Some(count) = head.argument else {
            match head.major {
                2 | 3 => self.open.push(Open::Chunks)?,
                4 | 5 => self.open.push(Open::Until)?,
                _ => return Ok(Found::Enough),
            }
            return Ok(Found::More);
        };
        match head.major {
            2 | 3 => {
                let count = count as usize;
                if self.limits.longest < count {
                    return Ok(Found::Enough);
                }
                self.place = self.place.saturating_add(count);
            }
            4 => self.open.push(Open::Items(count))?,
            5 => self.open.push(Open::Items(count.saturating_mul(2)))?,
            6 => self.open.push(Open::Items(1))?,
            _ => {}
        }
        Ok(Found::More)
    }
}

// Returns whether an item that ends at this place is there.
fn whole(place: usize, bytes: &[u8]) -> Found {
    if bytes.len() < place {
        return Found::Wanting;
    }
    Found::Enough
}
