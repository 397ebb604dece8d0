//! Rows of the room that a hash map and a hash set have for an announced number of items.

use rows::{Fault, Words};
use std::alloc::{AllocError, Global};
use std::collections::{HashMap, HashSet};
use winnow_count::Accumulate;

// Returns the room of a hash map for which that many items are announced.
fn map_room(alloc: Global, said: usize) -> Result<usize, AllocError> {
    let map = <HashMap<u8, char> as Accumulate<(u8, char)>>::initial(alloc, Some(said))?;
    Ok(map.capacity())
}

// Returns the room of a hash set for which that many items are announced.
fn set_room(alloc: Global, said: usize) -> Result<usize, AllocError> {
    let set = <HashSet<u8> as Accumulate<u8>>::initial(alloc, Some(said))?;
    Ok(set.capacity())
}

// Returns the room that std gives a map for that many items.
fn std_map_room(alloc: Global, count: usize) -> Result<usize, AllocError> {
    let map: HashMap<u8, char> = HashMap::with_capacity(alloc, count)?;
    Ok(map.capacity())
}

// Returns the room that std gives a set for that many items.
fn std_set_room(alloc: Global, count: usize) -> Result<usize, AllocError> {
    let set: HashSet<u8> = HashSet::with_capacity(alloc, count)?;
    Ok(set.capacity())
}

/// Returns whether a hash map and a hash set for which a number of items is announced have the room
/// that std gives those for another number.
pub fn rooms(alloc: Global, words: &Words) -> Result<String, Fault> {
    let said = match words.plain(0)? {
        "usize::MAX" => usize::MAX,
        _ => words.number(0)?,
    };
    let trusted = words.number(1)?;
    let (map, set) = (map_room(alloc, said)?, set_room(alloc, said)?);
    let (std_map, std_set) = (std_map_room(alloc, trusted)?, std_set_room(alloc, trusted)?);
    let (map, set) = (map == std_map, set == std_set);
    Ok(format!(in alloc; "({map}, {set})")?)
}
