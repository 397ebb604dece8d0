//! Searches for needles, and comparisons with literals, that resume on kept input.

ghost use Rattle.std.specs.Prelude.{◌≡◌, ◌≤◌, ◌<◌, [], ◌∷◌, None, false, length, drop, IfSome};
ghost use Rattle.std.specs.Prelude.{IsTrue};
ghost use Rattle.winnow_match.specs.Comparison.{comparison, is_prefix};
ghost use Rattle.std.specs.Prelude.{slice_index};
ghost use Rattle.std.specs.List.{list_any};
ghost use Rattle.winnow_match.specs.Search.{hit, is_empty, needle_of, needle_list};
ghost use Rattle.winnow_match.specs.Search.{bytes_of_needles};
ghost use Rattle.winnow_match.specs.Stretch.{hit_is_definite, mover, mover_or, stretches};
ghost use Rattle.winnow_script_attempt.specs.Settled.{AreSame, NoneOccurs, IsSearchSettled};
ghost use Rattle.winnow_script_attempt.specs.Fitting.{FindAlike, first_bytes};

use crate::calls::Settled;
use std::ops::Range;
use winnow_match::{Compare, CompareResult, FindSlice, Finders, Needles, stretch};
use winnow_stream::AsBStr;

/// Returns the needles as bytes.
// Inlined, as are the functions below: needles that are settled on would be copied through memory.
#[inline(always)]
pub(crate) fn needle_bytes<L: AsBStr>(needles: &Needles<L>) -> Needles<&[u8]>
    ensures { bytes_of_needles result ≡ needle_list L.text_bytes needles.now }
{
    match needles {
        Needles::One(a) => Needles::One(a.as_bstr()),
        Needles::Two(a, b) => Needles::Two(a.as_bstr(), b.as_bstr()),
        Needles::Three(a, b, c) => Needles::Three(a.as_bstr(), b.as_bstr(), c.as_bstr()),
    }
}

/// Returns the needle with that number, counted from 0, or nothing if there is none.
pub(crate) fn needle_of<'n>(needles: &Needles<&'n [u8]>, number: usize) -> &'n [u8]
    ensures { result.now ≡ needle_of (bytes_of_needles needles.now) number }
{
    match needles {
        Needles::One(a) | Needles::Two(a, _) | Needles::Three(a, _, _) if number == 0 => a,
        Needles::Two(_, b) | Needles::Three(_, b, _) if number == 1 => b,
        Needles::Three(_, _, c) if number == 2 => c,
        _ => &[],
    }
}

// Returns what follows the first n bytes.
#[inline(always)]
fn behind(bytes: &[u8], n: usize) -> &[u8]
    requires { n ≤ length bytes.now }
    ensures { result.now ≡ drop n bytes.now }
{
    bytes.split_at(n).1
}

// Returns how the literal compares with the bytes.
#[tactic(auto, using(winnow_match::proofs::lemmas::ByteLemmas::source_bytes))]
fn compare_all(literal: &[u8], bytes: &[u8]) -> CompareResult
    ensures { result ≡ comparison literal.now bytes.now }
{
    bytes.compare(literal)
}

// The number of bytes from which a search that resumes is set up once, and kept for further pieces.
const FAR: usize = 256;

// Returns the first place of a needle in the bytes, by searches that it sets up and keeps.
#[inline(never)]
fn find_set_up<'n>(
    needles: &Needles<&'n [u8]>,
    bytes: &[u8],
    finders: &mut Option<Finders<'n>>,
) -> Option<Range<usize>>
    ensures { result ≡ hit (bytes_of_needles needles.now) bytes.now }
{
    let made = Finders::new(needles);
    let found = made.find(bytes);
    *finders = Some(made);
    found
}

// Does the same, by searches that an earlier piece set up, if they are for these needles.
fn find_far<'n>(
    needles: &Needles<&'n [u8]>,
    bytes: &[u8],
    finders: &mut Option<Finders<'n>>,
) -> Option<Range<usize>>
    ensures { result ≡ hit (bytes_of_needles needles.now) bytes.now }
{
    if let Some(kept) = finders {
        if kept.are_for(needles) {
            return kept.find(bytes);
        }
    }
    find_set_up(needles, bytes, finders)
}

// Returns the needle if it is no longer than `len`.
fn fitting_one(a: &[u8], len: usize) -> Option<Needles<&[u8]>>
    ensures { FindAlike len (a.now ∷ []) result }
{
    if len < a.len() {
        return None;
    }
    Some(Needles::One(a))
}

// Returns those of two needles that are no longer than `len`.
fn fitting_two<'n>(a: &'n [u8], b: &'n [u8], len: usize) -> Option<Needles<&'n [u8]>>
    ensures { FindAlike len (a.now ∷ b.now ∷ []) result }
{
    if len < a.len() {
        return fitting_one(b, len);
    }
    if len < b.len() {
        return fitting_one(a, len);
    }
    Some(Needles::Two(a, b))
}

// Returns those of three needles that are no longer than `len`.
fn fitting_three<'n>(a: &'n [u8], b: &'n [u8], c: &'n [u8], len: usize) -> Option<Needles<&'n [u8]>>
    ensures { FindAlike len (a.now ∷ b.now ∷ c.now ∷ []) result }
{
    if len < a.len() {
        return fitting_two(b, c, len);
    }
    if len < b.len() {
        return fitting_two(a, c, len);
    }
    if len < c.len() {
        return fitting_two(a, b, len);
    }
    Some(Needles::Three(a, b, c))
}

// Returns the needles that are no longer than `len`, so that none is set up in vain.
fn fitting<'n>(needles: &Needles<&'n [u8]>, len: usize) -> Option<Needles<&'n [u8]>>
    ensures { FindAlike len (bytes_of_needles needles.now) result }
{
    match needles {
        Needles::One(a) => fitting_one(a, len),
        Needles::Two(a, b) => fitting_two(a, b, len),
        Needles::Three(a, b, c) => fitting_three(a, b, c, len),
    }
}

// Returns the first place of a needle in the bytes, by a search for this call alone.
#[tactic(auto, using(crate::proofs::lemmas::LookLemmas::hits_fit))]
#[inline(always)]
fn find_once(needles: &Needles<&[u8]>, bytes: &[u8]) -> Option<Range<usize>>
    ensures { result ≡ hit (bytes_of_needles needles.now) bytes.now }
{
    match needles {
        Needles::One(a) => bytes.find_slice(*a),
        Needles::Two(a, b) => bytes.find_slice((*a, *b)),
        Needles::Three(a, b, c) => bytes.find_slice((*a, *b, *c)),
    }
}

// Returns the first place of a needle in the bytes, for a search that resumes.
#[inline(never)]
fn find_on<'n>(
    needles: &Needles<&'n [u8]>,
    bytes: &[u8],
    finders: &mut Option<Finders<'n>>,
) -> Option<Range<usize>>
    ensures { result ≡ hit (bytes_of_needles needles.now) bytes.now }
{
    match fitting(needles, bytes.len()) {
        None => None,
        Some(few) => {
            if FAR <= bytes.len() {
                find_far(needles, bytes, finders)
            } else {
                find_once(&few, bytes)
            }
        }
    }
}

// Returns the first place of a needle in the bytes, for a search that begins there or resumes.
#[inline(always)]
fn find_all<'n>(
    needles: &Needles<&'n [u8]>,
    bytes: &[u8],
    resumes: bool,
    finders: &mut Option<Finders<'n>>,
) -> Option<Range<usize>>
    ensures value { result ≡ hit (bytes_of_needles needles.now) bytes.now }
    ensures fits { IfSome result (λ p. (p.start ≤ p.end) × (p.end ≤ length bytes.now)) }
{
    if resumes {
        find_on(needles, bytes, finders)
    } else {
        find_once(needles, bytes)
    }
}

/// Returns how the literal compares with the bytes, where the first `settled` bytes are the same.
pub(crate) fn compare_from(literal: &[u8], bytes: &[u8], settled: usize) -> CompareResult
    requires { AreSame literal.now bytes.now settled }
    ensures { result ≡ comparison literal.now bytes.now }
{
    match compare_all(behind(literal, settled), behind(bytes, settled)) {
        CompareResult::Ok(_) => CompareResult::Ok(literal.len()),
        CompareResult::Incomplete => CompareResult::Incomplete,
        CompareResult::Error => CompareResult::Error,
    }
}

/// Returns the first place of a needle in the bytes, where none stands before what is settled. A
/// search that resumes on enough bytes uses the finders if they are for its needles, and else
/// replaces them.
#[inline(always)]
pub(crate) fn find_from<'n>(
    needles: &Needles<&'n [u8]>,
    bytes: &[u8],
    settled: Settled,
    finders: &mut Option<Finders<'n>>,
) -> Option<Range<usize>>
    requires { NoneOccurs (bytes_of_needles needles.now) bytes.now settled.width }
    ensures { result ≡ hit (bytes_of_needles needles.now) bytes.now }
{
    let passed = settled.width;
    let resumes = 0 < passed || 0 < settled.compared;
    match find_all(needles, behind(bytes, passed), resumes, finders) {
        Some(places) => Some(passed + places.start..passed + places.end),
        None => None,
    }
}

// Returns the number of the first needle, 0, if the bytes end inside it, and none if it stands
// here; else the number that the later needles give.
fn listed(bytes: &[u8], needle: &[u8], later: Option<usize>) -> Option<usize>
    requires { IfSome later (λ i. i ≤ 2) }
    ensures { result ≡ mover_or
        (is_prefix needle.now bytes.now) (stretches needle.now bytes.now) later }
{
    match compare_all(needle, bytes) {
        CompareResult::Ok(_) => None,
        CompareResult::Incomplete => Some(0),
        CompareResult::Error => later.map(|i| i + 1),
    }
}

// Returns the number of the first listed needle that the bytes end inside, if no needle before it
// stands here.
fn mover(bytes: &[u8], needles: &Needles<&[u8]>) -> Option<usize>
    ensures { result ≡ mover (bytes_of_needles needles.now) bytes.now }
{
    match needles {
        Needles::One(a) => listed(bytes, a, None),
        Needles::Two(a, b) => listed(bytes, a, listed(bytes, b, None)),
        Needles::Three(a, b, c) => listed(bytes, a, listed(bytes, b, listed(bytes, c, None))),
    }
}

// Returns the first byte of a needle.
#[inline(always)]
fn first_byte(needle: &[u8]) -> u8
    requires { is_empty needle.now ≡ false }
    ensures { result ≡ slice_index needle.now 0 }
{
    needle[0]
}

// Returns the first place whose byte is the first of a needle.
#[tactic(auto, using(crate::proofs::lemmas::LookLemmas::hits_fit))]
fn first_start(needles: &Needles<&[u8]>, bytes: &[u8]) -> Option<Range<usize>>
    requires { list_any is_empty (bytes_of_needles needles.now) ≡ false }
    ensures { result ≡ hit (first_bytes (bytes_of_needles needles.now)) bytes.now }
{
    match needles {
        Needles::One(a) => bytes.find_slice(first_byte(a)),
        Needles::Two(a, b) => bytes.find_slice((first_byte(a), first_byte(b))),
        Needles::Three(a, b, c) => {
            bytes.find_slice((first_byte(a), first_byte(b), first_byte(c)))
        }
    }
}

// Returns what a search has settled that found nothing: the first place from `from` on at which the
// bytes end inside a needle, or their end.
#[inline(never)]
fn first_begun(needles: &Needles<&[u8]>, bytes: &[u8], from: usize) -> Settled
    requires none { hit (bytes_of_needles needles.now) bytes.now ≡ None }
    requires from { NoneOccurs (bytes_of_needles needles.now) bytes.now from }
    ensures { IsSearchSettled (bytes_of_needles needles.now) bytes.now result }
{
    let mut place = from;
    while let Some(start) = first_start(needles, behind(bytes, place)) {
        place += start.start;
        if let Some(needle) = mover(behind(bytes, place), needles) {
            return Settled {
                width: place,
                tokens: 0,
                needle,
                compared: bytes.len() - place,
            };
        }
        place += 1;
    }
    Settled {
        width: bytes.len(),
        tokens: 0,
        needle: 0,
        compared: 0,
    }
}

/// Returns whether a hit was found that no further input can move, and what the search has settled:
/// without such a hit, the first place where a needle could come to stand, and how much of it is
/// there.
#[tactic(auto, using(crate::proofs::lemmas::AttemptLemmas::found_hits))]
#[inline(always)]
pub(crate) fn searched(
    needles: &Needles<&[u8]>,
    bytes: &[u8],
    found: &Option<Range<usize>>,
    settled: Settled,
) -> (bool, Settled)
    requires found { found.now ≡ hit (bytes_of_needles needles.now) bytes.now }
    requires settled { IsSearchSettled (bytes_of_needles needles.now) bytes.now settled }
    ensures definite { result.0 ≡ hit_is_definite (bytes_of_needles needles.now) bytes.now }
    ensures settled { IsSearchSettled (bytes_of_needles needles.now) bytes.now result.1 }
{
    match found {
        Some(hit) => match stretch(bytes, needles, hit) {
            Some(stretch) => {
                let begun = Settled {
                    width: stretch.place,
                    tokens: 0,
                    needle: stretch.needle,
                    compared: bytes.len() - stretch.place,
                };
                (false, begun)
            }
            None => (true, settled),
        },
        None => {
            let last = needles.longest().saturating_sub(1);
            let from = settled.width.max(bytes.len().saturating_sub(last));
            (false, first_begun(needles, bytes, from))
        }
    }
}

/// Returns what a search has settled, if the bytes still end inside the needle of which it has
/// compared a part: then it waits. Only the bytes that were not compared are read.
pub(crate) fn begun_further(
    needles: &Needles<&[u8]>,
    bytes: &[u8],
    settled: Settled,
) -> Option<Settled>
    requires { IsSearchSettled (bytes_of_needles needles.now) bytes.now settled }
    ensures { IfSome result (λ more. (hit_is_definite (bytes_of_needles needles.now) bytes.now
        ≡ false) × IsSearchSettled (bytes_of_needles needles.now) bytes.now more) }
{
    if settled.compared == 0 {
        return None;
    }
    let needle = needle_of(needles, settled.needle);
    let ahead = behind(bytes, settled.width);
    match compare_from(needle, ahead, settled.compared) {
        CompareResult::Incomplete => Some(Settled {
            compared: ahead.len(),
            ..settled
        }),
        _ => None,
    }
}
