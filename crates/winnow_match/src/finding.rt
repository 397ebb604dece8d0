//! The search for the first hit in bytes, of single bytes and of `Needles`.

ghost use Rattle.std.specs.Prelude.{◌≡◌, ℕ, ◌<◌, ◌≤◌, [], ◌∷◌, ◌++◌, List, false, length};
ghost use Rattle.std.specs.Prelude.{slice_index, IfSome, MatchOption};
ghost use Rattle.std.specs.List.{list_any};
ghost use Rattle.memchr.specs.Find.{IsFirst, Nowhere, NoneBefore};
ghost use Rattle.winnow_match.specs.Search.{hit, is_empty, needle_at, SomeOccurs, bytes_of_needles};

use crate::Needles;
use crate::compare_bytes::begins_with;
use crate::finders::{Finders, place_below};
use memchr::memmem::Finder;
use memchr::{memchr, memchr2, memchr3};
use std::ops::Range;

// The number of places that are tried by their first byte, before a search that has to be set up.
const NEAR_TRIES: usize = 4;

/// Returns the first place of the byte.
#[tactic(auto, using(crate::proofs::lemmas::SearchLemmas::single_bytes))]
pub(crate) fn find_byte(input: &[u8], byte: u8) -> Option<Range<usize>>
    ensures { result ≡ hit ((byte ∷ []) ∷ []) input.now }
{
    let at = memchr(byte, input)?;
    Some(at..at + 1)
}

/// Returns the first place of one of two bytes.
#[tactic(auto, using(crate::proofs::lemmas::SearchLemmas::single_bytes))]
pub(crate) fn find_two_bytes(input: &[u8], a: u8, b: u8) -> Option<Range<usize>>
    ensures { result ≡ hit ((a ∷ []) ∷ (b ∷ []) ∷ []) input.now }
{
    let at = memchr2(a, b, input)?;
    Some(at..at + 1)
}

/// Returns the first place of one of three bytes.
#[tactic(auto, using(crate::proofs::lemmas::SearchLemmas::single_bytes))]
pub(crate) fn find_three_bytes(input: &[u8], a: u8, b: u8, c: u8) -> Option<Range<usize>>
    ensures { result ≡ hit ((a ∷ []) ∷ (b ∷ []) ∷ (c ∷ []) ∷ []) input.now }
{
    let at = memchr3(a, b, c, input)?;
    Some(at..at + 1)
}

/// Returns the first hit of the needles.
///
/// The first byte finds a near hit, and a search for the whole needle a far one. Several needles
/// are searched for in windows that grow, so none is searched for far past the first hit. It is
/// inlined with the functions that match on the needles, so each caller has only the code for its
/// own number of needles.
#[inline(always)]
pub(crate) fn find_needles(input: &[u8], needles: &Needles<&[u8]>) -> Option<Range<usize>>
    ensures { result ≡ hit (bytes_of_needles needles.now) input.now }
{
    if has_empty(needles) {
        return Some(0..0);
    }
    let mut passed = 0;
    for _ in 0..NEAR_TRIES {
        let at = passed + next_first_byte(&input[passed..], needles)?;
        if let Some(length) = front_needle(&input[at..], needles) {
            return Some(at..at + length);
        }
        passed = at + 1;
    }
    let at = passed + far_place(&input[passed..], needles)?;
    let length = front_needle(&input[at..], needles)?;
    Some(at..at + length)
}

// Whether some needle is empty.
#[inline(always)]
pub(crate) fn has_empty(needles: &Needles<&[u8]>) -> bool
    ensures { result ≡ list_any is_empty (bytes_of_needles needles.now) }
{
    match needles {
        Needles::One(a) => a.is_empty(),
        Needles::Two(a, b) => a.is_empty() || b.is_empty(),
        Needles::Three(a, b, c) => a.is_empty() || b.is_empty() || c.is_empty(),
    }
}

// The length of the needle, if the input begins with it.
#[inline(always)]
fn front_length(input: &[u8], needle: &[u8]) -> Option<usize>
    ensures value { result ≡ needle_at (needle.now ∷ []) input.now }
    ensures fits { IfSome result (λ n. n ≤ length input.now) }
{
    if begins_with(input, needle) {
        Some(needle.len())
    } else {
        None
    }
}

// The length of the first listed needle that the input begins with.
#[inline(always)]
pub(crate) fn front_needle(input: &[u8], needles: &Needles<&[u8]>) -> Option<usize>
    ensures value { result ≡ needle_at (bytes_of_needles needles.now) input.now }
    ensures fits { IfSome result (λ n. n ≤ length input.now) }
{
    match needles {
        Needles::One(a) => front_length(input, a),
        Needles::Two(a, b) => front_length(input, a).or_else(|| front_length(input, b)),
        Needles::Three(a, b, c) => front_length(input, a)
            .or_else(|| front_length(input, b))
            .or_else(|| front_length(input, c)),
    }
}

// The first byte of a needle.
#[inline(always)]
fn first_byte(needle: &[u8]) -> u8
    requires { is_empty needle.now ≡ false }
    ensures { result ≡ slice_index needle.now 0 }
{
    needle[0]
}

// A place before which no needle stands: the first place whose byte begins some needle.
#[inline(always)]
fn next_first_byte(input: &[u8], needles: &Needles<&[u8]>) -> Option<usize>
    requires { list_any is_empty (bytes_of_needles needles.now) ≡ false }
    ensures { MatchOption result
        (Nowhere (SomeOccurs (bytes_of_needles needles.now) input.now) 0 (length input.now)) (λ at.
        NoneBefore (SomeOccurs (bytes_of_needles needles.now) input.now) 0 (length input.now) at) }
{
    match needles {
        Needles::One(a) => memchr(first_byte(a), input),
        Needles::Two(a, b) => memchr2(first_byte(a), first_byte(b), input),
        Needles::Three(a, b, c) => memchr3(first_byte(a), first_byte(b), first_byte(c), input),
    }
}

// The first place at which some needle stands, found by searches that have to be set up.
#[inline(always)]
fn far_place(input: &[u8], needles: &Needles<&[u8]>) -> Option<usize>
    requires { list_any is_empty (bytes_of_needles needles.now) ≡ false }
    ensures { IsFirst (SomeOccurs (bytes_of_needles needles.now) input.now) 0 (length input.now)
        result }
{
    match needles {
        Needles::One(a) => place_below(input, &Finder::new(a), input.len()),
        _ => Finders::new(needles).place(input),
    }
}
