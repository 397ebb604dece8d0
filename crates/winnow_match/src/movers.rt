//! `stretch`, which returns the needle to which a continuation may move a hit.

ghost use Rattle.std.specs.Prelude.{◌≡◌, ◌↔◌, ◌≤◌, [], ◌∷◌, Some, IfSome, IsNone, IsTrue};
ghost use Rattle.memchr.specs.Find.{FindsNeedle};
ghost use Rattle.winnow_match.specs.Comparison.{is_prefix};
ghost use Rattle.winnow_match.specs.Search.{bytes_of_needles};
ghost use Rattle.winnow_match.specs.Stretch.{IsHit, IsLeastPlace, hit_is_definite, stretch_of};
ghost use Rattle.winnow_match.specs.Stretch.{stretches, mover, mover_or};

use crate::compare_bytes::begins_with;
use crate::finding::has_empty;
use crate::{Needles, Stretch};
use memchr::memmem::find;
use std::ops::Range;

/// Returns what could still move a hit: the least place at which a needle stretches that would come
/// before the hit, and there the first listed one. It is `None` exactly if the hit is definite: no
/// further input moves it.
///
/// A needle stretches at a place if the input ends inside it. What stands at the hit stands nowhere
/// before. So in a needle that stretches from a place before the hit, it stands first at the
/// distance of the two. Therefore a needle stretches at one place at most, and a look is linear in
/// the lengths of the needles. If no needle is longer than what remains from the start of the hit
/// on, nothing is searched.
pub fn stretch(input: &[u8], needles: &Needles<&[u8]>, hit: &Range<usize>) -> Option<Stretch>
    requires { IsHit (bytes_of_needles needles.now) input.now hit.now }
    ensures value { result ≡ stretch_of (bytes_of_needles needles.now) input.now }
    ensures definite { IsNone result
        ↔ IsTrue (hit_is_definite (bytes_of_needles needles.now) input.now) }
{
    if has_empty(needles) {
        return None;
    }
    let stands = &input[hit.start..hit.end];
    let place = first_place(input, needles, stands, hit.start);
    if hit.start < place {
        return None;
    }
    match mover(&input[place..], needles) {
        Some(needle) => Some(Stretch { needle, place }),
        None => None,
    }
}

// The least place up to `at` at which some needle stretches, or a place after `at`. What stands at
// `at` stands nowhere before.
#[tactic(auto, using(crate::proofs::lemmas::PlaceLemmas::least_places))]
fn first_place(input: &[u8], needles: &Needles<&[u8]>, stands: &[u8], at: usize) -> usize
    requires { FindsNeedle input.now stands.now 0 (Some at) }
    ensures { IsLeastPlace (bytes_of_needles needles.now) input.now at result }
{
    match needles {
        Needles::One(a) => place_of(input, a, stands, at),
        Needles::Two(a, b) => place_of(input, a, stands, at).min(place_of(input, b, stands, at)),
        Needles::Three(a, b, c) => {
            let first = place_of(input, a, stands, at).min(place_of(input, b, stands, at));
            first.min(place_of(input, c, stands, at))
        }
    }
}

// Returns the least place of one needle, if that is at most `at`, or a place after `at`.
fn place_of(input: &[u8], needle: &[u8], stands: &[u8], at: usize) -> usize
    requires { FindsNeedle input.now stands.now 0 (Some at) }
    ensures { IsLeastPlace (needle.now ∷ []) input.now at result }
{
    if needle.len() <= input.len() - at {
        return at + 1;
    }
    let Some(distance) = find(needle, stands) else {
        return at + 1;
    };
    if at < distance {
        return at + 1;
    }
    let place = at - distance;
    if ends_inside(&input[place..], needle) {
        place
    } else {
        at + 1
    }
}

// Whether the input ends inside the needle.
fn ends_inside(input: &[u8], needle: &[u8]) -> bool
    ensures { result ≡ stretches needle.now input.now }
{
    input.len() < needle.len() && begins_with(needle, input)
}

// The number of the first needle, 0, if the input ends inside it, and none if it stands here; else
// the number that the later needles give.
fn listed(input: &[u8], needle: &[u8], later: Option<usize>) -> Option<usize>
    requires { IfSome later (λ i. i ≤ 2) }
    ensures { result ≡ mover_or
        (is_prefix needle.now input.now) (stretches needle.now input.now) later }
{
    if begins_with(input, needle) {
        None
    } else if ends_inside(input, needle) {
        Some(0)
    } else {
        later.map(|i| i + 1)
    }
}

// The number of the first listed needle that the input ends inside, if no needle before it stands
// here.
fn mover(input: &[u8], needles: &Needles<&[u8]>) -> Option<usize>
    ensures { result ≡ mover (bytes_of_needles needles.now) input.now }
{
    match needles {
        Needles::One(a) => listed(input, a, None),
        Needles::Two(a, b) => listed(input, a, listed(input, b, None)),
        Needles::Three(a, b, c) => listed(input, a, listed(input, b, listed(input, c, None))),
    }
}
