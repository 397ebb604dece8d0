//! Feeds of bytes and of text, which are asked alike. Their pieces are text.

use crate::printing::gives;
use std::alloc::AllocError;
use winnow_script_feed::{ByteFeed, Finished, TextFeed, Told};

// No place comes near the greatest `usize`.
const MOST: usize = 1_000_000;

/// A feed.
pub trait Feed: Drop {
    /// A token of the input.
    type Token: PartialEq + Drop;

    /// Feeds a piece, and returns whether it was short enough to be fed.
    fn take(&mut self, piece: &str) -> Result<bool, AllocError>;

    /// Returns the numbers of fed and kept bytes, of attempts and of answers.
    fn counts(&self) -> (usize, usize, u64, usize);

    /// Returns the answers so far.
    fn told(&self) -> &[Told<Self::Token>];

    /// Returns whether it waits for what has this debug text.
    fn waits(&self, wanted: &str) -> Result<bool, AllocError>;

    /// Ends the input.
    fn finished(self) -> Finished<Self::Token>;
}

impl<'k> Feed for ByteFeed<'k> {
    type Token = u8;

    fn take(&mut self, piece: &str) -> Result<bool, AllocError> {
        if self.fed() > MOST || piece.len() > MOST {
            return Ok(false);
        }
        self.feed(piece.as_bytes())?;
        Ok(true)
    }

    fn counts(&self) -> (usize, usize, u64, usize) {
        (self.fed(), self.held(), self.tried(), self.answers().len())
    }

    fn told(&self) -> &[Told<u8>] {
        self.answers()
    }

    fn waits(&self, wanted: &str) -> Result<bool, AllocError> {
        gives(self.waits_for(), wanted)
    }

    fn finished(self) -> Finished<u8> {
        self.end()
    }
}

impl<'k> Feed for TextFeed<'k> {
    type Token = char;

    fn take(&mut self, piece: &str) -> Result<bool, AllocError> {
        if self.fed() > MOST || piece.len() > MOST {
            return Ok(false);
        }
        self.feed(piece)?;
        Ok(true)
    }

    fn counts(&self) -> (usize, usize, u64, usize) {
        (self.fed(), self.held(), self.tried(), self.answers().len())
    }

    fn told(&self) -> &[Told<char>] {
        self.answers()
    }

    fn waits(&self, wanted: &str) -> Result<bool, AllocError> {
        gives(self.waits_for(), wanted)
    }

    fn finished(self) -> Finished<char> {
        self.end()
    }
}
