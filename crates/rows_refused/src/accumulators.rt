//! Accumulators. Each takes items until it has grown.

use crate::cases::tell;
use crate::items::{Cow, Item, TEXT};
use std::alloc::{AllocError, Global};
use std::borrow::CowStr;
use std::collections::{BTreeMap, BTreeSet, HashMap, HashSet, VecDeque};
use winnow_count::Accumulate;

/// Takes item after item, from an accumulator with room for one. When memory is refused, the
/// accumulator holds the items from before, and takes an equal item when it is asked again.
pub fn gather<A: Accumulate<T> + Holds<T> + Drop, T: Item>(
    alloc: Global,
) -> Result<bool, AllocError>
    requires { (a : A) → A.can_accumulate a }
{
    let mut all = A::initial(alloc, Some(1))?;
    let mut refused = false;
    for count in 0..T::TOTAL {
        let item = T::made(alloc, count)?;
        if all.accumulate(alloc, item).is_ok() {
            continue;
        }
        refused = true;
        let equal = T::made(alloc, count)?;
        if !all.holds_first(count) || all.accumulate(alloc, equal).is_err() {
            return Ok(false);
        }
    }
    tell(refused, all.holds_first(T::TOTAL))
}

/// An accumulator that can be asked which items it holds.
pub trait Holds<T> {
    /// Returns whether it holds the first `count` items, and nothing else.
    fn holds_first(&self, count: usize) -> bool;
}

impl<T: Item> Holds<T> for Vec<usize> {
    fn holds_first(&self, count: usize) -> bool {
        self.iter().copied().eq(0..count.saturating_mul(T::WIDTH))
    }
}

impl Holds<char> for Vec<char> {
    fn holds_first(&self, count: usize) -> bool {
        self.len() == count && self.iter().copied().eq(TEXT.chars().take(count))
    }
}

/// What ends the items is no item.
impl<S> Holds<char> for (Vec<char>, S) {
    fn holds_first(&self, count: usize) -> bool {
        self.0.holds_first(count)
    }
}

impl<T: Item> Holds<T> for VecDeque<usize> {
    fn holds_first(&self, count: usize) -> bool {
        self.iter().copied().eq(0..count.saturating_mul(T::WIDTH))
    }
}

// Returns whether `text` is the front of the whole text that has `count` items.
fn is_front<T: Item>(text: &str, count: usize) -> bool {
    TEXT.as_bytes().get(..count.saturating_mul(T::WIDTH)) == Some(text.as_bytes())
}

impl<T: Item> Holds<T> for String {
    fn holds_first(&self, count: usize) -> bool {
        is_front::<T>(self.as_str(), count)
    }
}

/// A first text that is lent stays lent.
impl<T: Item> Holds<T> for Cow {
    fn holds_first(&self, count: usize) -> bool {
        let is_owned = count > usize::from(!T::IS_OWNED);
        matches!(self, CowStr::Owned(_)) == is_owned && is_front::<T>(self.as_str(), count)
    }
}

impl Holds<(usize, usize)> for BTreeMap<usize, usize> {
    fn holds_first(&self, count: usize) -> bool {
        self.len() == count && (0..count).all(|number| self.get(&number) == Some(&number))
    }
}

impl Holds<(usize, usize)> for HashMap<usize, usize> {
    fn holds_first(&self, count: usize) -> bool {
        self.len() == count && (0..count).all(|number| self.get(&number) == Some(&number))
    }
}

impl Holds<usize> for BTreeSet<usize> {
    fn holds_first(&self, count: usize) -> bool {
        self.iter().copied().eq(0..count)
    }
}

impl Holds<usize> for HashSet<usize> {
    fn holds_first(&self, count: usize) -> bool {
        self.len() == count && (0..count).all(|number| self.contains(&number))
    }
}
