//! Feeds of bytes and of text, whose buffers grow while memory may be refused.

use crate::cases::tell;
use crate::feed::Feed;
use std::alloc::{AllocError, Global};
use std::ops::Range;
use std::str;
use winnow_script_feed::{ByteFeed, Finished, TextFeed, Told, run_pieces, run_pieces_text};
use winnow_script_run::SearchStep::Call;
use winnow_script_run::Step::{Finish, Next, Peek, Take};
use winnow_script_run::{Answer, SearchAnswer, SearchStep};
use winnow_sets::CharSet;

type ByteStep<'k> = SearchStep<CharSet<'k>, &'k [u8]>;

type TextStep<'k> = SearchStep<CharSet<'k>, &'k str>;

const BYTES: [ByteStep<'static>; 4] = [Call(Next), Call(Next), Call(Peek), Call(Finish)];

const TEXTS: [TextStep<'static>; 4] = [Call(Next), Call(Next), Call(Peek), Call(Finish)];

// The length of a piece for which the buffer has to grow.
const LONG: usize = 65_536;

// Returns the answers over an `a`, an empty piece, and `LONG` times `b`.
fn answers<T>(a: T, b: T, again: T) -> [Told<T>; 4] {
    [
        told(Some(1), Answer::Token(Some(a))),
        told(Some(3), Answer::Token(Some(b))),
        told(Some(3), Answer::Token(Some(again))),
        told(None, Answer::Slice(2..LONG + 1)),
    ]
}

fn told<T>(piece: Option<u64>, answer: Answer<T, Range<usize>, Range<usize>>) -> Told<T> {
    Told {
        piece,
        answer: SearchAnswer::Call(answer),
    }
}

// Returns whether the answers in `out` are the first of `all`.
fn are_first<T: PartialEq>(out: &[Told<T>], all: &[Told<T>]) -> bool {
    match all.get(..out.len()) {
        Some(first) => first == out,
        None => false,
    }
}

// Returns whether these are all answers, and the final place.
fn is_finished<T: PartialEq>(finished: &Finished<T>, answers: &[Told<T>]) -> bool {
    finished.answers() == answers && finished.cursor() == LONG + 1
}

// Feeds a piece. When memory is refused, the feed is as it was, and takes the same piece again.
fn feed_again<F: Feed>(
    feed: &mut F,
    piece: &str,
    all: &[Told<F::Token>],
) -> Result<bool, AllocError> {
    let before = feed.counts();
    match feed.take(piece) {
        Ok(fits) => Ok(fits),
        Err(_) => {
            let kept = feed.counts() == before && are_first(feed.told(), all);
            tell(true, kept && feed.take(piece).unwrap_or(false))
        }
    }
}

// Feeds an `a`, an empty piece, and a long one. When memory is refused, the feed is as it was, and
// takes the same piece again.
fn feed_pieces<F: Feed>(
    mut feed: F,
    long: &[u8],
    wanted: &[Told<F::Token>],
) -> Result<bool, AllocError> {
    let Ok(long) = str::from_utf8(long) else {
        return Ok(false);
    };
    let mut refused = false;
    for piece in ["a", "", long] {
        match feed_again(&mut feed, piece, wanted) {
            Ok(true) => {}
            Ok(false) => return Ok(false),
            Err(_) => refused = true,
        }
    }
    let (_, held, _, out) = feed.counts();
    let waits = out == 3 && held == LONG - 1;
    tell(refused, waits && is_finished(&feed.finished(), wanted))
}

/// A feed of bytes. When memory is refused, it is as it was, and takes the same piece again.
pub fn feed_bytes(alloc: Global) -> Result<bool, AllocError> {
    let long = vec![in alloc; b'b'; LONG]?;
    let feed = ByteFeed::new(alloc, &BYTES)?;
    feed_pieces(feed, long.as_slice(), &answers(97, 98, 98))
}

/// A feed of text. When memory is refused, it is as it was, and takes the same piece again.
pub fn feed_text(alloc: Global) -> Result<bool, AllocError> {
    let long = vec![in alloc; b'b'; LONG]?;
    let feed = TextFeed::new(alloc, &TEXTS)?;
    feed_pieces(feed, long.as_slice(), &answers('a', 'b', 'b'))
}

/// The same pieces of bytes at once.
pub fn all_bytes(alloc: Global) -> Result<bool, AllocError> {
    let long = vec![in alloc; b'b'; LONG]?;
    let finished = run_pieces(alloc, &BYTES, &[b"a", b"", long.as_slice()])?;
    Ok(is_finished(&finished, &answers(97, 98, 98)))
}

/// The same pieces of text at once.
pub fn all_text(alloc: Global) -> Result<bool, AllocError> {
    let long = vec![in alloc; b'b'; LONG]?;
    let Ok(long) = str::from_utf8(long.as_slice()) else {
        return Ok(false);
    };
    let finished = run_pieces_text(alloc, &TEXTS, &["a", "", long])?;
    Ok(is_finished(&finished, &answers('a', 'b', 'b')))
}

// Feeds `pieces` pieces of this length, and returns whether the feed kept none of their bytes, and
// answered a step for each 1,024 of them.
fn keeps_none<F: Feed>(
    alloc: Global,
    mut feed: F,
    length: usize,
    pieces: usize,
) -> Result<bool, AllocError> {
    let bytes = vec![in alloc; b'a'; 262_144]?;
    for piece in bytes.as_slice().chunks(length.max(1)).take(pieces) {
        let Ok(piece) = str::from_utf8(piece) else {
            return Ok(false);
        };
        if !feed.take(piece)? || feed.counts().1 != 0 {
            return Ok(false);
        }
    }
    let (fed, _, _, out) = feed.counts();
    Ok(fed == length.saturating_mul(pieces) && out == fed / 1024)
}

/// Feeds pieces of this length, from which a script takes parts of 1,024 characters as they come.
pub fn drain_text(alloc: Global, length: usize, pieces: usize) -> Result<bool, AllocError> {
    let script: [TextStep; 256] = [Call(Take(1024)); 256];
    keeps_none(alloc, TextFeed::new(alloc, &script)?, length, pieces)
}

/// Feeds pieces of this length, from which a script takes parts of 1,024 bytes as they come.
pub fn drain(alloc: Global, length: usize, pieces: usize) -> Result<bool, AllocError> {
    let script: [ByteStep; 256] = [Call(Take(1024)); 256];
    keeps_none(alloc, ByteFeed::new(alloc, &script)?, length, pieces)
}
