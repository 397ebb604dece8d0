//! Rows of unions: tuples of up to ten sets, a closure in a union, and an iterated range.

use crate::sets::holds;
use rows::{Word, Words};
use winnow_sets::{ContainsToken, Where};

// The union of the first letters, up to five of them: each set has one.
fn in_few_letters(count: usize, token: &Word) -> Option<bool> {
    match count {
        1 => holds(&('a',), token),
        2 => holds(&('a', 'b'), token),
        3 => holds(&('a', 'b', 'c'), token),
        4 => holds(&('a', 'b', 'c', 'd'), token),
        5 => holds(&('a', 'b', 'c', 'd', 'e'), token),
        _ => None,
    }
}

// The union of the first letters, six to ten of them.
fn in_many_letters(count: usize, token: &Word) -> Option<bool> {
    match count {
        6 => holds(&('a', 'b', 'c', 'd', 'e', 'f'), token),
        7 => holds(&('a', 'b', 'c', 'd', 'e', 'f', 'g'), token),
        8 => holds(&('a', 'b', 'c', 'd', 'e', 'f', 'g', 'h'), token),
        9 => holds(&('a', 'b', 'c', 'd', 'e', 'f', 'g', 'h', 'i'), token),
        10 => holds(&('a', 'b', 'c', 'd', 'e', 'f', 'g', 'h', 'i', 'j'), token),
        _ => None,
    }
}

/// The union of the bytes below a number and of the byte `a`.
pub fn in_closure_or_letter(words: &Words) -> Option<bool> {
    let (low, token) = (words.number(1).ok()?, *words.bytes(2).ok()?.first()?);
    let small = Where(|token: u8| (token as usize) < low);
    Some((small, b'a').contains_token(token))
}

// A range keeps its last byte though it was iterated over to its end.
fn in_iterated(token: &Word) -> Option<bool> {
    let mut range = b'a'..=b'b';
    match [range.next(), range.next(), range.next()] {
        [Some(b'a'), Some(b'b'), None] => holds(&range, token),
        _ => None,
    }
}

/// Returns whether a union of the kind with this name holds the token.
pub fn held(kind: &str, count: usize, token: &Word) -> Option<bool> {
    match kind {
        "none" => holds(&(), token),
        "several" => holds(&('x', b'0'..=b'9', [b'-', b'+'], ()), token),
        "hexadecimal" => holds(&('a'..='f', 'A'..='F', '0'..='9'), token),
        "iterated" => in_iterated(token),
        "letters" if count <= 5 => in_few_letters(count, token),
        "letters" => in_many_letters(count, token),
        _ => None,
    }
}
