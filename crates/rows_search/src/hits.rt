//! Rows of `find_slice`, over each stream of bytes or of text and with each kind of needle.

use crate::needles;
use crate::sameness::same;
use rows::{Fault, Word, Words};
use std::alloc::{AllocError, Global};
use std::ops::Range;
use winnow_kinds::BStr;
use winnow_match::{FindSlice, Needles};
use winnow_stream_bytes::Bytes;

// A range, if there is one, in each way to make the call; or none if the ways differ.
type Hit = Option<Option<Range<usize>>>;

// Returns the answer of a search, called through its bound.
fn hit<T, S: FindSlice<T> + Drop>(stream: S, needles: T) -> Option<Range<usize>>
    requires { S.valid stream }
{
    stream.find_slice(needles)
}

// Searches for one to three needles as a tuple; one needle is also searched for alone.
fn in_order<N, S>(stream: S, needles: &[N]) -> Hit
where
    N: Copy,
    S: FindSlice<N> + FindSlice<(N,)> + FindSlice<(N, N)> + FindSlice<(N, N, N)> + Copy,
    requires { S.valid stream }
{
    match needles {
        [a] => same(hit(stream, *a), hit(stream, (*a,))),
        [a, b] => Some(hit(stream, (*a, *b))),
        [a, b, c] => Some(hit(stream, (*a, *b, *c))),
        _ => None,
    }
}

// Returns the needles as data.
fn as_data<N: Copy>(needles: &[N]) -> Option<Needles<N>> {
    match needles {
        [a] => Some(Needles::One(*a)),
        [a, b] => Some(Needles::Two(*a, *b)),
        [a, b, c] => Some(Needles::Three(*a, *b, *c)),
        _ => None,
    }
}

// Searches for needles as data and in order.
fn both_ways<N, S>(stream: S, needles: &[N]) -> Hit
where
    N: Copy,
    S: FindSlice<Needles<N>> + FindSlice<N> + FindSlice<(N,)> + FindSlice<(N, N)>,
    S: FindSlice<(N, N, N)> + Copy,
    requires { S.valid stream }
{
    let data = hit(stream, as_data(needles)?);
    same(data, in_order(stream, needles)?)
}

// Searches each stream of these bytes for needles that are bytes.
fn slices_in_bytes(bytes: &[u8], needles: &[&[u8]]) -> Hit {
    let slice = both_ways(bytes, needles)?;
    let text = both_ways(BStr::new(bytes), needles)?;
    let hex = both_ways(Bytes::new(bytes), needles)?;
    same(same(slice, text)?, hex)
}

// Searches a text and its bytes for texts.
fn texts_in_text(text: &str, needles: &[&str]) -> Hit {
    same(
        both_ways(text, needles)?,
        in_order(text.as_bytes(), needles)?,
    )
}

// Searches a text and its bytes for characters.
fn signs_in_text(text: &str, needles: &[char]) -> Hit {
    same(
        in_order(text, needles)?,
        in_order(text.as_bytes(), needles)?,
    )
}

// Searches for the bytes that the words after the first write: as slices, and as bytes if each is
// one byte.
fn find_bytes(alloc: Global, bytes: &[u8], words: &Words, start: usize) -> Result<Hit, Fault> {
    let slices = needles::slices(alloc, words, start)?;
    let found = slices_in_bytes(bytes, slices.as_slice());
    let single = needles::single_bytes(alloc, words, start)?;
    if single.len() < slices.len() {
        return Ok(found);
    }
    match (found, in_order(bytes, single.as_slice())) {
        (Some(found), Some(other)) => Ok(same(found, other)),
        _ => Ok(None),
    }
}

// Searches a text for the texts that the words after the first write.
fn find_texts(alloc: Global, text: &str, words: &Words) -> Result<Hit, Fault> {
    let texts = needles::texts(alloc, words)?;
    Ok(texts_in_text(text, texts.as_slice()))
}

// Searches a text or bytes for the characters that the words after the first write.
fn find_signs(alloc: Global, input: &Word, words: &Words) -> Result<Hit, Fault> {
    let signs = needles::signs(alloc, words)?;
    match input {
        Word::Text(text) => Ok(signs_in_text(text.as_str(), signs.as_slice())),
        Word::Bytes(bytes) => Ok(in_order(bytes.as_slice(), signs.as_slice())),
        _ => Ok(None),
    }
}

// Searches the input that the first word writes.
fn found(alloc: Global, input: &Word, needle: &Word, words: &Words) -> Result<Hit, Fault> {
    match (input, needle) {
        (_, Word::Char(_)) => find_signs(alloc, input, words),
        (Word::Text(text), _) => find_texts(alloc, text.as_str(), words),
        (Word::Bytes(bytes), _) => find_bytes(alloc, bytes.as_slice(), words, 1),
        _ => Ok(None),
    }
}

// Returns the text of a hit.
fn text(alloc: Global, hit: &Hit) -> Result<String, Fault> {
    match hit {
        Some(hit) => Ok(format!(in alloc; "{hit:?}")?),
        None => Err(Fault::NoSuchCall),
    }
}

/// Returns where the first of one to three needles stands. A text is searched as its bytes too.
pub fn find_slice(alloc: Global, words: &Words) -> Result<String, Fault> {
    let hit = found(alloc, words.word(0)?, words.word(1)?, words)?;
    text(alloc, &hit)
}

// Returns a length of letters `a`, of which the one at a place is a `b`.
fn letters(alloc: Global, length: usize, place: usize) -> Result<Vec<u8>, AllocError> {
    let mut letters = vec![in alloc; b'a'; length]?;
    if let Some(letter) = letters.get_mut(place) {
        *letter = b'b';
    }
    Ok(letters)
}

/// Returns where the first needle stands in a length of letters `a`, of which the one at a place is
/// a `b`. The length and the place are the first two words, the needles the others.
pub fn find_slice_in_letters(alloc: Global, words: &Words) -> Result<String, Fault> {
    let letters = letters(alloc, words.number(0)?, words.number(1)?)?;
    let hit = find_bytes(alloc, letters.as_slice(), words, 2)?;
    text(alloc, &hit)
}
