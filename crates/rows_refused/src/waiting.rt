//! Feeds that wait for the suffix of a literal, which is copied while memory may be refused.

use crate::cases::tell;
use crate::feed::Feed;
use std::alloc::{AllocError, Global};
use winnow_script_feed::{ByteFeed, TextFeed};
use winnow_script_run::SearchStep;
use winnow_script_run::SearchStep::{Call, Compare};
use winnow_script_run::Step::Next;
use winnow_sets::CharSet;

const BYTES: [SearchStep<CharSet<'static>, &[u8]>; 2] = [Call(Next), Compare(b"bcd")];

const TEXTS: [SearchStep<CharSet<'static>, &str>; 2] = [Call(Next), Compare("bcd")];

// Returns whether a feed waits for the missing part of the literal. When memory is refused, it is
// as it was, and answers when it is asked again.
fn wait_for<F: Feed>(mut feed: F, wanted: &str) -> Result<bool, AllocError> {
    if !feed.take("ab")? {
        return Ok(false);
    }
    let before = feed.counts();
    match feed.waits(wanted) {
        Ok(right) => Ok(right),
        Err(_) if feed.counts() != before => Ok(false),
        Err(_) => tell(true, feed.waits(wanted).unwrap_or(false)),
    }
}

/// The input that a feed of bytes waits for.
pub fn wait_for_bytes(alloc: Global) -> Result<bool, AllocError> {
    wait_for(ByteFeed::new(alloc, &BYTES)?, "Until([99, 100])")
}

/// The input that a feed of text waits for.
pub fn wait_for_text(alloc: Global) -> Result<bool, AllocError> {
    wait_for(TextFeed::new(alloc, &TEXTS)?, "Until(\"cd\")")
}
