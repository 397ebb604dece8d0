//! `skip` and `skip_to`: a reader goes past damage.

ghost use Rattle.winnow_reader.specs.Skips.{SkipsTo};

use crate::{ByteReader, Record};
use memchr::memmem::find;

/// What came of skipping up to a literal, and how many bytes were dropped.
#[derive(Clone, Copy, Debug, PartialEq, Eq)]
pub enum Skipped {
    /// The literal was found, and is the last of the bytes that were dropped
    Found(usize),
    /// The literal is not there yet: more bytes are needed to decide, or the end of the input
    NeedsMore(usize),
    /// The input has ended without the literal, and nothing remains of it
    Done(usize),
}

impl Skipped {
    ghost use Rattle.std.specs.Prelude.{◌≡◌};
    ghost use Rattle.winnow_reader.specs.Skips.{bytes_skipped};

    /// Returns how many bytes were dropped.
    pub fn bytes(&self) -> usize
        ensures { result ≡ bytes_skipped self.now }
    {
        match self {
            Skipped::Found(bytes) | Skipped::NeedsMore(bytes) | Skipped::Done(bytes) => *bytes,
        }
    }
}

impl<R: Record> ByteReader<R> {
    ghost use Rattle.std.specs.Prelude.{◌≡◌, [], length, min};
    ghost use Rattle.winnow_reader.specs.Since.{HasReadSince};
    ghost use Rattle.winnow_reader.specs.Skips.{skipped, bytes_skipped, SkipsTo};

    /// Drops the next bytes, this many or all that are ahead if these are fewer, and returns how
    /// many. The next record begins after them.
    ///
    /// What was read before stays read, and the reader reads on as one that began at the new place:
    /// `skip_law` says so of each later call. No bytes are wanted any more, so the next call of
    /// `read_next` may call the record.
    pub fn skip(&mut self, count: usize) -> usize
        ensures count { result ≡ min count (length self.old.ahead) }
        ensures state { self.new ≡ skipped self.old result }
        ensures read { HasReadSince R.means self.new.place self.new self.new.ahead [] }
    {
        let dropped = count.min(self.ahead().len());
        self.drop_ahead(dropped);
        dropped
    }

    /// Drops the bytes up to the end of the first occurrence of a literal, and returns how many.
    /// The next record begins after the literal.
    ///
    /// If the literal is not ahead yet, the call drops the bytes that cannot be part of it, keeps
    /// fewer bytes than the literal has, and returns [`Skipped::NeedsMore`]: after the next piece,
    /// or the end, it is to be called again. At the end all bytes are dropped. An empty literal is
    /// found at once, and nothing is dropped. Over pieces the occurrence is the first one in the
    /// joined input after the place at which the calls began, as `skip_to_law` says.
    ///
    /// So one damaged line does not end a log:
    ///
    /// ```
    /// if skipping {
    ///     let skipped = reader.skip_to(b"\n");
    ///     ..
    ///     if !matches!(skipped, Skipped::Found(_)) {
    ///         return Ok(true);
    ///     }
    /// }
    /// skipping = false;
    /// match reader.read_next() {
    ///     Ok(Next::Value(number)) => log.numbers.push(number)?,
    ///     Ok(Next::NeedsMore | Next::Done) => return Ok(false),
    ///     Err(ReadError::Refused(refused)) => return Err(refused),
    ///     Err(_) => {
    ///         ..
    ///         skipping = true;
    ///     }
    /// }
    /// ```
    pub fn skip_to(&mut self, literal: &[u8]) -> Skipped
        ensures bytes { SkipsTo literal.now self.old.ended self.old.ahead result }
        ensures state { self.new ≡ skipped self.old (bytes_skipped result) }
        ensures read { HasReadSince R.means self.new.place self.new self.new.ahead [] }
    {
        let skipped = skipped_to(literal, self.ahead(), self.has_ended());
        self.drop_ahead(skipped.bytes());
        skipped
    }
}

// Returns what is to be dropped of the bytes ahead for a literal.
fn skipped_to(literal: &[u8], ahead: &[u8], ended: bool) -> Skipped
    ensures { SkipsTo literal.now ended ahead.now result }
{
    match find(ahead, literal) {
        Some(first) => Skipped::Found(first + literal.len()),
        None if ended => Skipped::Done(ahead.len()),
        None => Skipped::NeedsMore(ahead.len().saturating_sub(literal.len().saturating_sub(1))),
    }
}
