//! `Finders`: searches for one to three needles over bytes, set up once for many inputs.

ghost use Rattle.std.specs.Prelude.{◌≡◌, ◌↔◌, ℕ, [], ◌∷◌, ◌++◌, List, false, length, IsTrue};
ghost use Rattle.std.specs.List.{list_any};
ghost use Rattle.memchr.specs.Find.{IsFirst};
ghost use Rattle.winnow_match.specs.Search.{hit, is_empty, SomeOccurs, bytes_of_needles};

use crate::Needles;
use crate::finding::{front_needle, has_empty};
use memchr::memmem::Finder;
use std::marker::Model;
use std::ops::Range;

// The number of places in the first window of a search for several needles.
const FIRST_WINDOW: usize = 2048;

/// Searches for one to three needles over bytes, set up once for any number of inputs.
///
/// They serve engines whose search goes on in bytes that come later. A hit is expected far away, so
/// no place is tried by its first byte before the searches for whole needles.
#[derive(Drop)]
pub struct Finders<'n> {
    listed: Needles<Finder<'n>>,
}

impl<'n> Model for Finders<'n> {
    ghost use Rattle.std.specs.Prelude.{ℕ, List};
    ghost use Rattle.winnow_match.specs.Search.{needle_list};

    ghost Value = { List (List ℕ) };

    ghost view = { λ f. needle_list (λ needle. needle) f.listed };
}

impl<'n> Finders<'n> {
    /// Sets up the searches.
    pub fn new(needles: &Needles<&'n [u8]>) -> Finders<'n>
        ensures { result ≡ bytes_of_needles needles.now }
    {
        let listed = match needles {
            Needles::One(a) => Needles::One(Finder::new(a)),
            Needles::Two(a, b) => Needles::Two(Finder::new(a), Finder::new(b)),
            Needles::Three(a, b, c) => Needles::Three(
                Finder::new(a),
                Finder::new(b),
                Finder::new(c),
            ),
        };
        Finders { listed }
    }

    /// Returns whether the searches are for these needles, listed in this order.
    pub fn are_for(&self, needles: &Needles<&[u8]>) -> bool
        ensures { IsTrue result ↔ self.now ≡ bytes_of_needles needles.now }
    {
        match (&self.listed, needles) {
            (Needles::One(a), Needles::One(x)) => a.needle() == *x,
            (Needles::Two(a, b), Needles::Two(x, y)) => a.needle() == *x && b.needle() == *y,
            (Needles::Three(a, b, c), Needles::Three(x, y, z)) => a.needle() == *x
                && b.needle() == *y
                && c.needle() == *z,
            _ => false,
        }
    }

    /// Returns the first hit, as [`FindSlice::find_slice`](crate::FindSlice::find_slice) does over
    /// bytes.
    pub fn find(&self, input: &[u8]) -> Option<Range<usize>>
        ensures { result ≡ hit self.now input.now }
    {
        let sought = self.needles();
        if has_empty(&sought) {
            return Some(0..0);
        }
        let at = self.place(input)?;
        let length = front_needle(&input[at..], &sought)?;
        Some(at..at + length)
    }

    // The needles that are searched for.
    #[inline(always)]
    fn needles(&self) -> Needles<&[u8]>
        ensures { bytes_of_needles result ≡ self.now }
    {
        match &self.listed {
            Needles::One(a) => Needles::One(a.needle()),
            Needles::Two(a, b) => Needles::Two(a.needle(), b.needle()),
            Needles::Three(a, b, c) => Needles::Three(a.needle(), b.needle(), c.needle()),
        }
    }

    /// Returns the first place at which some needle stands.
    pub(crate) fn place(&self, input: &[u8]) -> Option<usize>
        requires { list_any is_empty self.now ≡ false }
        ensures { IsFirst (SomeOccurs self.now input.now) 0 (length input.now) result }
    {
        match &self.listed {
            Needles::One(a) => place_below(input, a, input.len()),
            _ => self.place_by_windows(input),
        }
    }

    // Finds the first place at which some needle stands. The windows grow, so no needle is searched
    // for far past the first hit.
    fn place_by_windows(&self, input: &[u8]) -> Option<usize>
        requires { list_any is_empty self.now ≡ false }
        ensures { IsFirst (SomeOccurs self.now input.now) 0 (length input.now) result }
    {
        let mut passed = 0;
        let mut width = FIRST_WINDOW;
        while passed < input.len() {
            if let Some(at) = self.first_below(&input[passed..], width) {
                return Some(passed + at);
            }
            passed = passed.saturating_add(width);
            width = width.saturating_mul(2);
        }
        None
    }

    // Finds the first place below `limit` at which some needle stands.
    fn first_below(&self, input: &[u8], limit: usize) -> Option<usize>
        requires { list_any is_empty self.now ≡ false }
        ensures { IsFirst (SomeOccurs self.now input.now) 0 limit result }
    {
        match &self.listed {
            Needles::One(a) => place_below(input, a, limit),
            Needles::Two(a, b) => sooner(place_below(input, a, limit), input, b, limit),
            Needles::Three(a, b, c) => {
                let first = sooner(place_below(input, a, limit), input, b, limit);
                sooner(first, input, c, limit)
            }
        }
    }
}

/// Returns the first place below `limit` at which the needle stands.
#[inline(always)]
pub(crate) fn place_below(input: &[u8], needle: &Finder, limit: usize) -> Option<usize>
    requires { is_empty needle.now ≡ false }
    ensures { IsFirst (SomeOccurs (needle.now ∷ []) input.now) 0 limit result }
{
    let reach = limit.saturating_add(needle.needle().len() - 1);
    needle.find(&input[..reach.min(input.len())])
}

// Returns the first place below `limit` at which a needle stands: `found`, which the earlier
// needles gave, or the place of this needle if that comes sooner.
fn sooner(found: Option<usize>, input: &[u8], needle: &Finder, limit: usize) -> Option<usize>
    requires { is_empty needle.now ≡ false }
    ensures { (listed : List (List ℕ)) → IsFirst (SomeOccurs listed input.now) 0 limit found
        → IsFirst (SomeOccurs (listed ++ needle.now ∷ []) input.now) 0 limit result }
{
    match found {
        Some(at) => Some(place_below(input, needle, at).unwrap_or(at)),
        None => place_below(input, needle, limit),
    }
}
