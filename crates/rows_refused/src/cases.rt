//! All cases by their subjects, and `tell`, the result of a case.

use crate::accumulators::gather;
use crate::items::Cow;
use crate::{
    alternatives, errors, feeding_pieces, kinds, parsers, recovery, scripts, trees, waiting, words,
};
use std::alloc::{AllocError, Global};
use std::collections::{BTreeMap, BTreeSet, HashMap, HashSet, VecDeque};

/// A case by its name, with whether it went right. It is an `Err` where memory was refused and the
/// rest went right.
pub type Case = (&'static str, Result<bool, AllocError>);

/// Returns the result of a case in which a call may have been refused, and was then made again on
/// the state that the refusal left.
pub fn tell(refused: bool, right: bool) -> Result<bool, AllocError> {
    if refused && right {
        Err(AllocError)
    } else {
        Ok(right)
    }
}

/// The cases by their subjects.
pub type Cases = ([Case; 14], [Case; 15], [Case; 13], [Case; 8]);

/// Each case, made once.
pub fn all(alloc: Global) -> Cases {
    (
        values(alloc),
        accumulators(alloc),
        trees_and_feeds(alloc),
        parsers::cases(alloc),
    )
}

/// Returns the cases, one subject after the other.
pub fn subjects(all: &Cases) -> [&[Case]; 4] {
    [&all.0, &all.1, &all.2, &all.3]
}

fn values(alloc: Global) -> [Case; 14] {
    [
        ("run", scripts::run_script(alloc)),
        ("run_and_reset", scripts::look_ahead(alloc)),
        ("run_search", scripts::search_script(alloc)),
        ("push", errors::push(alloc)),
        ("extend", errors::extend(alloc)),
        ("clone", errors::clone(alloc)),
        ("add_context", errors::add_context(alloc)),
        ("into_owned", errors::into_owned(alloc)),
        ("convert", errors::convert(alloc)),
        ("append and combine", alternatives::combine_three(alloc)),
        ("to_vec of BStr", kinds::text_to_vec(alloc)),
        ("to_vec of Bytes", kinds::bytes_to_vec(alloc)),
        ("literal", words::read_literal(alloc)),
        ("record_err", recovery::record_err(alloc)),
    ]
}

type Slice = &'static [usize];

type Text = &'static str;

type Pair = (usize, usize);

fn accumulators(alloc: Global) -> [Case; 15] {
    [
        ("Vec of items", gather::<Vec<usize>, usize>(alloc)),
        ("Vec of slices", gather::<Vec<usize>, Slice>(alloc)),
        (
            "VecDeque of slices",
            gather::<VecDeque<usize>, Slice>(alloc),
        ),
        ("String of characters", gather::<String, char>(alloc)),
        ("String of texts", gather::<String, Text>(alloc)),
        ("String of cows", gather::<String, Cow>(alloc)),
        ("String of strings", gather::<String, String>(alloc)),
        ("CowStr of characters", gather::<Cow, char>(alloc)),
        ("CowStr of texts", gather::<Cow, Text>(alloc)),
        ("CowStr of cows", gather::<Cow, Cow>(alloc)),
        ("CowStr of strings", gather::<Cow, String>(alloc)),
        ("BTreeMap", gather::<BTreeMap<usize, usize>, Pair>(alloc)),
        ("HashMap", gather::<HashMap<usize, usize>, Pair>(alloc)),
        ("BTreeSet", gather::<BTreeSet<usize>, usize>(alloc)),
        ("HashSet", gather::<HashSet<usize>, usize>(alloc)),
    ]
}

fn trees_and_feeds(alloc: Global) -> [Case; 13] {
    [
        ("tree append", trees::append(alloc)),
        ("tree or", trees::or(alloc)),
        ("tree text", trees::text(alloc)),
        ("tree parts", trees::parts(alloc)),
        ("tree map_input", trees::map_input(alloc)),
        ("tree convert", trees::convert(alloc)),
        ("tree combine", trees::combine(alloc)),
        ("ByteFeed", feeding_pieces::feed_bytes(alloc)),
        ("TextFeed", feeding_pieces::feed_text(alloc)),
        ("run_pieces", feeding_pieces::all_bytes(alloc)),
        ("run_pieces_text", feeding_pieces::all_text(alloc)),
        ("waits_for of bytes", waiting::wait_for_bytes(alloc)),
        ("waits_for of text", waiting::wait_for_text(alloc)),
    ]
}
