//! Rows of accumulators: `accumulate` at texts, maps, sets and lists of each type of item.

use crate::items::{cows, numbers, pairs, signs, slices, strings, texts};
use rows::{Fault, Word, Words};
use std::alloc::{AllocError, Global};
use std::borrow::CowStr;
use std::collections::{BTreeMap, BTreeSet, HashMap, HashSet, VecDeque};
use std::fmt::Debug;
use winnow_count::{Accumulate, accumulate_all};

// Returns the debug text of what an accumulator of this type gathers, called through its bound.
fn gathered<A: Accumulate<T> + Debug + Drop, T: Drop>(
    alloc: Global,
    items: Vec<T>,
) -> Result<String, Fault> {
    let gathered: A = accumulate_all(alloc, items)?;
    Ok(format!(in alloc; "{gathered:?}")?)
}

// Gathers into texts.
fn in_text(alloc: Global, kind: &str, words: &Words) -> Result<String, Fault> {
    match kind {
        "String-of-char" => gathered::<String, char>(alloc, signs(alloc, words)?),
        "String-of-str" => gathered::<String, &str>(alloc, texts(alloc, words)?),
        "String-of-Cow" => gathered::<String, CowStr<'_, Global>>(alloc, cows(alloc, words)?),
        "String-of-String" => gathered::<String, String>(alloc, strings(alloc, words)?),
        _ => in_cow(alloc, kind, words),
    }
}

// Gathers into texts that may be borrowed.
fn in_cow(alloc: Global, kind: &str, words: &Words) -> Result<String, Fault> {
    match kind {
        "Cow-of-char" => gathered::<CowStr<'_, Global>, char>(alloc, signs(alloc, words)?),
        "Cow-of-str" => gathered::<CowStr<'_, Global>, &str>(alloc, texts(alloc, words)?),
        "Cow-of-Cow" => {
            gathered::<CowStr<'_, Global>, CowStr<'_, Global>>(alloc, cows(alloc, words)?)
        }
        "Cow-of-String" => gathered::<CowStr<'_, Global>, String>(alloc, strings(alloc, words)?),
        "Cow" => cow_states(alloc, words),
        _ => Err(Fault::NoSuchCall),
    }
}

// Gives a text that may be borrowed the item that a word writes, a text or a character.
fn take<'w>(alloc: Global, cow: &mut CowStr<'w, Global>, word: &'w Word) -> Result<(), Fault> {
    match word {
        Word::Text(text) => cow.accumulate(alloc, text.as_str())?,
        Word::Char(sign) => cow.accumulate(alloc, *sign)?,
        _ => return Err(Fault::NoSuchCall),
    }
    Ok(())
}

// Returns the text, and whether it is borrowed.
fn state(alloc: Global, cow: &CowStr<'_, Global>) -> Result<String, AllocError> {
    match cow {
        CowStr::Borrowed(text) => format!(in alloc; "Borrowed({text:?})"),
        CowStr::Owned(text) => format!(in alloc; "Owned({text:?})"),
    }
}

// Returns a text that may be borrowed as it is after each item.
fn cow_states(alloc: Global, words: &Words) -> Result<String, Fault> {
    let mut cow = <CowStr<'_, Global> as Accumulate<&str>>::initial(alloc, None)?;
    let mut line = state(alloc, &cow)?;
    for at in 1..words.len() {
        take(alloc, &mut cow, words.word(at)?)?;
        line.push_str(", ")?;
        line.push_str(state(alloc, &cow)?.as_str())?;
    }
    Ok(line)
}

// Returns the last value of each key, which a hash map gathers, in the order of the keys.
fn in_hash_map(alloc: Global, pairs: Vec<(u8, char)>) -> Result<String, Fault> {
    let hashed: HashMap<u8, char> = accumulate_all(alloc, pairs)?;
    let mut ordered = BTreeMap::new(alloc);
    for (key, value) in hashed.iter() {
        ordered.insert(*key, *value).map_err(AllocError::from)?;
    }
    Ok(format!(in alloc; "{ordered:?}")?)
}

// Returns the keys that a hash set gathers, in their order.
fn in_hash_set(alloc: Global, keys: Vec<u8>) -> Result<String, Fault> {
    let hashed: HashSet<u8> = accumulate_all(alloc, keys)?;
    let mut ordered = BTreeSet::new(alloc);
    for key in hashed.iter() {
        ordered.insert(*key).map_err(AllocError::from)?;
    }
    Ok(format!(in alloc; "{ordered:?}")?)
}

/// Returns what an accumulator gathers: its type and that of its items, and the items.
pub fn accumulate(alloc: Global, words: &Words) -> Result<String, Fault> {
    let kind = words.plain(0)?;
    match kind {
        "unit" => gathered::<(), u8>(alloc, numbers(alloc, words)?),
        "usize" => gathered::<usize, &str>(alloc, texts(alloc, words)?),
        "Vec" => gathered::<Vec<u8>, u8>(alloc, numbers(alloc, words)?),
        "Vec-of-slice" => gathered::<Vec<u8>, &[u8]>(alloc, slices(alloc, words)?),
        "VecDeque-of-slice" => gathered::<VecDeque<u8>, &[u8]>(alloc, slices(alloc, words)?),
        "BTreeMap" => gathered::<BTreeMap<u8, char>, (u8, char)>(alloc, pairs(alloc, words)?),
        "BTreeSet" => gathered::<BTreeSet<u8>, u8>(alloc, numbers(alloc, words)?),
        "HashMap" => in_hash_map(alloc, pairs(alloc, words)?),
        "HashSet" => in_hash_set(alloc, numbers(alloc, words)?),
        _ => in_text(alloc, kind, words),
    }
}
