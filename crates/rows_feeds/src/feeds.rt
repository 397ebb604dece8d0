//! A feed of bytes or of text, whose pieces are words of a row.

use rows::{Fault, Words};
use std::alloc::{AllocError, Global};
use std::fmt::Debug;
use winnow_script_feed::{ByteFeed, Finished, TextFeed, Waiting};

// Places have to fit and no piece of a row is long, so a feed near this takes no more.
const MOST: usize = 1_000_000;

/// A feed.
pub trait Feed: Drop {
    /// A token of the input.
    type Token: Debug + Drop;

    /// Feeds the piece that a word writes, and returns the number of answers that came out.
    fn take(&mut self, words: &Words, index: usize) -> Result<usize, Fault>;

    /// Returns the numbers of bytes that were fed and that are kept, of attempted steps, and of
    /// answers that are out.
    fn counts(&self) -> (usize, usize, u64, usize);

    /// Returns the missing input, or words for what is waited for.
    fn waits(&self, alloc: Global) -> Result<String, AllocError>;

    /// Ends the input.
    fn finished(self) -> Finished<Self::Token>;
}

impl<'k> Feed for ByteFeed<'k> {
    type Token = u8;

    fn take(&mut self, words: &Words, index: usize) -> Result<usize, Fault> {
        let piece = words.bytes(index)?;
        if self.fed() > MOST || piece.len() > MOST {
            return Err(Fault::NoSuchCall);
        }
        Ok(self.feed(piece)?)
    }

    fn counts(&self) -> (usize, usize, u64, usize) {
        (self.fed(), self.held(), self.tried(), self.answers().len())
    }

    fn waits(&self, alloc: Global) -> Result<String, AllocError> {
        match self.waits_for() {
            Ok(Waiting::Until(more)) => String::from_utf8_lossy(alloc, more.as_slice()),
            Ok(other) => names(alloc, &other),
            Err(_) => String::from_str(alloc, "(refused)"),
        }
    }

    fn finished(self) -> Finished<u8> {
        self.end()
    }
}

impl<'k> Feed for TextFeed<'k> {
    type Token = char;

    fn take(&mut self, words: &Words, index: usize) -> Result<usize, Fault> {
        let piece = words.text(index)?;
        if self.fed() > MOST || piece.len() > MOST {
            return Err(Fault::NoSuchCall);
        }
        Ok(self.feed(piece)?)
    }

    fn counts(&self) -> (usize, usize, u64, usize) {
        (self.fed(), self.held(), self.tried(), self.answers().len())
    }

    fn waits(&self, alloc: Global) -> Result<String, AllocError> {
        match self.waits_for() {
            Ok(Waiting::Until(more)) => Ok(more),
            Ok(other) => names(alloc, &other),
            Err(_) => String::from_str(alloc, "(refused)"),
        }
    }

    fn finished(self) -> Finished<char> {
        self.end()
    }
}

// Returns words for what is waited for, other than an input.
fn names<P>(alloc: Global, waiting: &Waiting<P>) -> Result<String, AllocError> {
    let text = match waiting {
        Waiting::NotFed => "(not fed)",
        Waiting::NotWaiting => "(nothing)",
        Waiting::Until(_) => "(more)",
        Waiting::ToEnd => "(the end)",
    };
    String::from_str(alloc, text)
}
