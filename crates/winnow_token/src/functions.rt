//! All functions that make parsers, in the order of the Rust crate's documents.

ghost use Rattle.std.specs.Prelude.{◌≡◌, ◌≤◌};

use crate::{Any, NoneOf, OneOf, Rest, RestLen, Take, TakeTill, TakeUntil, TakeWhile};
use winnow_count::{Range, ToUsize};

/// Returns the parser of one token, whichever it is.
pub fn any() -> Any {
    Any
}

/// Returns the parser of one token that the set holds.
pub fn one_of<C>(set: C) -> OneOf<C>
    ensures { result ≡ record { set = set } }
{
    OneOf { set }
}

/// Returns the parser of one token that the set does not hold.
pub fn none_of<C>(set: C) -> NoneOf<C>
    ensures { result ≡ record { set = set } }
{
    NoneOf { set }
}

/// Returns the parser of a slice of `count` tokens. As in the Rust crate, a number that is written
/// out says its type: `take(4_usize)`, `take(4_u8)`.
#[inline(always)]
pub fn take<N: ToUsize>(count: N) -> Take
where
    N: Drop,
    requires { N.number count ≤ usize.MAX }
    ensures { result ≡ record { count = N.number count } }
{
    Take {
        count: count.to_usize(),
    }
}

/// Returns the parser of the tokens up to the first that the set does not hold, as many as the
/// counts allow: a number or a range of numbers. Where the least count is above the greatest, the
/// parser cuts.
pub fn take_while<N: Into<Range>, C>(counts: N, set: C) -> TakeWhile<C>
    ensures counts { N.converts counts result.counts }
    ensures set { result.set ≡ set }
{
    TakeWhile {
        counts: counts.into(),
        set,
    }
}

/// Returns the parser of the tokens up to the first that the set holds, as many as the counts
/// allow: a number or a range of numbers. Where the least count is above the greatest, the parser
/// cuts.
pub fn take_till<N: Into<Range>, C>(counts: N, set: C) -> TakeTill<C>
    ensures counts { N.converts counts result.counts }
    ensures set { result.set ≡ set }
{
    TakeTill {
        counts: counts.into(),
        set,
    }
}

/// Returns the parser of the tokens before the first place at which the literal stands, as many as
/// the counts allow: a number or a range of numbers. The literal itself is not taken. Where the
/// least count is above the greatest, the parser cuts.
///
/// Where more may follow, a hit must stay when more follows.
/// [`hits_stay_law`](crate::hits_stay_law) proves that for one literal.
pub fn take_until<N: Into<Range>, T>(counts: N, literal: T) -> TakeUntil<T>
    ensures counts { N.converts counts result.counts }
    ensures literal { result.literal ≡ literal }
{
    TakeUntil {
        counts: counts.into(),
        literal,
    }
}

/// Returns the parser of the slice of all that remains. Where more may follow it needs more, so it
/// gives a value only at the end of the input.
pub fn rest() -> Rest {
    Rest
}

/// Returns the parser of the width of all that remains. It takes nothing, and needs more where more
/// may follow.
pub fn rest_len() -> RestLen {
    RestLen
}
