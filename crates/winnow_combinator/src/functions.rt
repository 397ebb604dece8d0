//! All functions that make parsers, in the order of the Rust crate's documents.

ghost use Rattle.std.specs.Prelude.{◌≡◌};

use crate::{
    Accumulated, Alt, BacktrackErr, Cond, CutErr, Delimited, Empty, Eof, Fail, Not, Opt, Peek,
    Preceded, Repeat, RepeatTill, Separated, SeparatedFoldl1, SeparatedFoldr1, SeparatedPair,
    Terminated,
};
use std::marker::PhantomData;
use winnow_count::Range;

/// Returns the parser that tries each of a tuple of parsers, from the same place, until one does
/// not backtrack. Where all do, their errors are joined by `or`, and `append` records in the joined
/// one that this parser failed.
pub fn alt<L>(list: L) -> Alt<L>
    ensures { result ≡ record { list = list } }
{
    Alt { list }
}

/// Returns the parser that gives the inner one's value in `Some`. Where the inner one backtracks,
/// it gives `None` and takes nothing.
pub fn opt<P>(inner: P) -> Opt<P>
    ensures { result ≡ record { inner = inner } }
{
    Opt { inner }
}

/// Returns the parser that gives the inner one's value and takes nothing.
pub fn peek<P>(inner: P) -> Peek<P>
    ensures { result ≡ record { inner = inner } }
{
    Peek { inner }
}

/// Returns the parser that succeeds where the inner one backtracks, and backtracks where the inner
/// one gives a value. It takes nothing.
pub fn not<P>(inner: P) -> Not<P>
    ensures { result ≡ record { inner = inner } }
{
    Not { inner }
}

/// Returns the parser that asks the inner one if `is_asked`, and gives its value in `Some`. If not,
/// the parser gives `None` and takes nothing.
pub fn cond<P>(is_asked: bool, parser: P) -> Cond<P>
    ensures { result ≡ record { is_asked = is_asked; inner = parser } }
{
    Cond {
        is_asked,
        inner: parser,
    }
}

/// Returns the parser of both, one after the other, that gives the second value.
pub fn preceded<A, B>(ignored: A, parser: B) -> Preceded<A, B>
    ensures { result ≡ record { first = ignored; second = parser } }
{
    Preceded {
        first: ignored,
        second: parser,
    }
}

/// Returns the parser of both, one after the other, that gives the first value.
pub fn terminated<A, B>(parser: A, ignored: B) -> Terminated<A, B>
    ensures { result ≡ record { first = parser; second = ignored } }
{
    Terminated {
        first: parser,
        second: ignored,
    }
}

/// Returns the parser of all three, one after the other, that gives the second value.
pub fn delimited<A, B, C>(before: A, parser: B, after: C) -> Delimited<A, B, C>
    ensures { result
        ≡ record { first = before; second = record { first = parser; second = after } } }
{
    preceded(before, terminated(parser, after))
}

/// Returns the parser of all three, one after the other, that gives the first value and the last.
pub fn separated_pair<A, S, B>(first: A, separator: S, second: B) -> SeparatedPair<A, S, B>
    ensures { result ≡ (first, record { first = separator; second = second }) }
{
    (first, preceded(separator, second))
}

/// Returns the parser that asks the inner one until it backtracks or has given the greatest count
/// of values, and gathers them in an `A`. Where there are fewer than the least count, the parser
/// backtracks, and `append` records that in the inner one's error.
///
/// It cuts where the inner parser gives a value and takes nothing, since it would never end, and
/// where the greatest count is below the least.
pub fn repeat<P, A, C: Into<Range>>(counts: C, inner: P) -> Repeat<P, Accumulated<A>>
    ensures counts { C.converts counts result.counts }
    ensures inner { result.inner ≡ inner }
{
    Repeat {
        counts: counts.into(),
        inner,
        gather: Accumulated::new(),
    }
}

/// Returns the parser that asks the inner one until the terminator gives a value, gathers the
/// values before that in an `A`, and gives both. Once there are the least count of values, the
/// terminator is asked before each further value. At the greatest count the terminator alone is
/// asked, and where it backtracks then, so does this parser. Where the inner one backtracks, so
/// does this parser, and `append` records that in the error.
///
/// It cuts where the inner parser gives a value and takes nothing, since it would never end, and
/// where the greatest count is below the least.
pub fn repeat_till<P, Q, A, C: Into<Range>>(
    counts: C,
    inner: P,
    terminator: Q,
) -> RepeatTill<P, Q, Accumulated<A>>
    ensures counts { C.converts counts result.counts }
    ensures inner { result.inner ≡ inner }
    ensures terminator { result.terminator ≡ terminator }
{
    RepeatTill {
        counts: counts.into(),
        inner,
        terminator,
        gather: Accumulated::new(),
    }
}

/// Returns the parser that asks the inner one and the separator in turn, until one backtracks or
/// the inner one has given the greatest count of values, and gathers these in an `A`. Where there
/// are fewer than the least count, the parser backtracks, and `append` records that in the error,
/// except for the first value of one or more. It does not take a separator that no value follows.
///
/// It cuts where a separator and a value together take nothing, since it would never end, and where
/// the greatest count is below the least. It refuses an input whose width is the greatest `usize`,
/// since that might hold one more value than can be counted.
pub fn separated<P, S, A, C: Into<Range>>(
    counts: C,
    parser: P,
    separator: S,
) -> Separated<P, S, Accumulated<A>>
    ensures counts { C.converts counts result.counts }
    ensures inner { result.inner ≡ parser }
    ensures separator { result.separator ≡ separator }
{
    Separated {
        counts: counts.into(),
        inner: parser,
        separator,
        gather: Accumulated::new(),
    }
}

/// Returns the parser that asks the inner one and the separator in turn, until one backtracks. It
/// folds the values from the left by a function of the result so far, the separator and the next
/// value. It does not take a separator that no value follows, and backtracks without a first value.
///
/// It cuts where a separator and a value together take nothing, since it would never end.
pub fn separated_foldl1<P, S, F>(parser: P, separator: S, op: F) -> SeparatedFoldl1<P, S, F>
    ensures { result ≡ record { inner = parser; separator = separator; op = op } }
{
    SeparatedFoldl1 {
        inner: parser,
        separator,
        op,
    }
}

/// Returns the parser that calls the inner one and the separator in turn, until one backtracks. It
/// folds the values from the right by a function of a value, the separator after it and the result
/// of all that follow: `a op b op c` is `a op (b op c)`. It does not consume a separator that no
/// value follows, and backtracks without a first value.
///
/// It keeps all values before it folds them, so memory may be refused. It cuts if a separator and a
/// value together consume nothing, since it would never end.
///
/// ```
/// let digit = one_of('0'..='9').map(value);
/// let power = separated_foldr1(digit, '^', |base: u32, _: char, power: u32| base.pow(power));
/// ```
pub fn separated_foldr1<P, S, F>(parser: P, separator: S, op: F) -> SeparatedFoldr1<P, S, F>
    ensures { result ≡ record { inner = parser; separator = separator; op = op } }
{
    SeparatedFoldr1 {
        inner: parser,
        separator,
        op,
    }
}

/// Returns the parser of the end of the input, which gives the empty slice. Where more may follow,
/// it needs one more token to decide.
pub fn eof() -> Eof {
    Eof
}

/// Returns the parser that takes nothing and gives nothing.
pub fn empty() -> Empty {
    Empty
}

/// Returns the parser that backtracks on each input. Its values may have any type, since it gives
/// none.
pub fn fail<O>() -> Fail<O> {
    Fail { value: PhantomData }
}

/// Returns the parser that cuts where the inner one backtracks. Where the inner one needs more
/// input, so does this one.
pub fn cut_err<P>(inner: P) -> CutErr<P>
    ensures { result ≡ record { inner = inner } }
{
    CutErr { inner }
}

/// Returns the parser that backtracks where the inner one cuts.
pub fn backtrack_err<P>(inner: P) -> BacktrackErr<P>
    ensures { result ≡ record { inner = inner } }
{
    BacktrackErr { inner }
}
