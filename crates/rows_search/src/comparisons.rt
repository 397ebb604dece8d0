//! Rows of `compare`, over each stream of bytes or of text and with each kind of literal.

use crate::sameness::same;
use rows::{Fault, Word, Words};
use std::alloc::Global;
use winnow_kinds::BStr;
use winnow_match::{Compare, CompareResult};
use winnow_stream_bytes::Bytes;

// Returns the answer of a comparison, called through its bound.
fn compared<T, S: Compare<T> + Drop>(stream: S, literal: T) -> CompareResult
    requires { S.valid stream }
{
    stream.compare(literal)
}

// Compares with bytes: as a slice, and as a byte or as an array of three if they are so many.
fn with_bytes<'l, S>(stream: S, literal: &'l [u8]) -> Option<CompareResult>
where
    S: Compare<&'l [u8]> + Compare<u8> + Compare<[u8; 3]> + Compare<&'l [u8; 3]> + Copy,
    requires { S.valid stream }
{
    let slice = compared(stream, literal);
    if let [byte] = literal {
        return same(slice, compared(stream, *byte));
    }
    match literal.as_array::<3>() {
        Some(array) => {
            let arrays = same(compared(stream, *array), compared(stream, array))?;
            same(slice, arrays)
        }
        None => Some(slice),
    }
}

// Compares a stream of bytes with a literal of any kind.
fn with_literal<'l, S>(stream: S, literal: &'l Word) -> Option<CompareResult>
where
    S: Compare<&'l [u8]> + Compare<u8> + Compare<[u8; 3]> + Compare<&'l [u8; 3]>,
    S: Compare<&'l str> + Compare<char> + Copy,
    requires { S.valid stream }
{
    match literal {
        Word::Bytes(bytes) => with_bytes(stream, bytes.as_slice()),
        Word::Text(text) => Some(compared(stream, text.as_str())),
        Word::Char(sign) => Some(compared(stream, *sign)),
        Word::Plain(_) => None,
    }
}

// Compares bytes, as each stream that holds them.
fn bytes_compared(bytes: &[u8], literal: &Word) -> Option<CompareResult> {
    let slice = with_literal(bytes, literal)?;
    let text = with_literal(BStr::new(bytes), literal)?;
    let hex = with_literal(Bytes::new(bytes), literal)?;
    same(same(slice, text)?, hex)
}

// Compares text.
fn text_compared(text: &str, literal: &Word) -> Option<CompareResult> {
    match literal {
        Word::Text(literal) => Some(compared(text, literal.as_str())),
        Word::Char(literal) => Some(compared(text, *literal)),
        _ => None,
    }
}

// Compares what the words write, in each way to write it.
fn words_compared(words: &Words) -> Option<CompareResult> {
    let literal = words.word(1).ok()?;
    match words.word(0).ok()? {
        Word::Bytes(bytes) => bytes_compared(bytes.as_slice(), literal),
        Word::Text(text) => text_compared(text.as_str(), literal),
        _ => None,
    }
}

/// Returns how a stream of bytes or of text compares with a literal.
pub fn compare(alloc: Global, words: &Words) -> Result<String, Fault> {
    match words_compared(words) {
        Some(answer) => Ok(format!(in alloc; "{answer:?}")?),
        None => Err(Fault::NoSuchCall),
    }
}
