//! Laws of parsers of binary formats. A law does nothing when called: its contract is the law.

ghost use Rattle.std.specs.Prelude.{◌≡◌, ℕ, Bool, List, reverse};
ghost use Rattle.winnow_parser.specs.Answer.{ahead};
ghost use Rattle.winnow_parser.specs.Determined.{IsDetermined, Shows, Respects, SlicesRespect};
ghost use Rattle.winnow_token.specs.Prompt.{IsPrompt};
ghost use Rattle.winnow_combinator.specs.DeterminedLists.{AreSameEach};
ghost use Rattle.winnow_binary.specs.declared.endianness.Endianness.{Endianness};
ghost use Rattle.winnow_binary.specs.Lengths.{LengthTakes, CountedFront, LengthRepeats};
ghost use Rattle.winnow_binary.specs.Numerals.{most_first, least_first, FixedNumeral};
ghost use Rattle.winnow_binary.specs.LengthAndThen.{IsLengthAndThen};

use crate::Length;
use winnow_count::Accumulate;
use winnow_error::ParserError;
use winnow_parser::Parser;
use winnow_stream::StreamIsPartial;

/// The laws of numbers of any number of bytes, also of floats. A parser of a number has one answer.
/// Where it needs k more bytes, its answer is not settled before k have come. Bytes read with the
/// most significant one first are the number that the reversed bytes are with the least significant
/// one first. It does nothing when called: its contract is the law.
pub fn binary_number_law<N>()
    ensures determined { (counts_shortage : Bool) (width : ℕ) (value_of : ℕ → N)
        (order : Endianness)
        → IsDetermined (λ x y. x ≡ y) (FixedNumeral counts_shortage width value_of order) }
    ensures prompt { (counts_shortage : Bool) (width : ℕ) (value_of : ℕ → N)
        (order : Endianness)
        → IsPrompt (FixedNumeral counts_shortage width value_of order) }
    ensures reversed { (bytes : List ℕ) → most_first bytes ≡ least_first (reverse bytes) }
{}

/// The laws of one answer for what comes after a count: where the count and the inner parser have
/// one answer each, so have the slice of that number of tokens and that number of values. A view
/// shows what counts of a value or of a slice. It does nothing when called: its contract is the
/// law.
pub fn determined_length_law<
    I: StreamIsPartial,
    E: ParserError<I>,
    P: Parser<I, E>,
    Q: Parser<I, E>,
    A,
    V,
    W,
    X,
>()
where
    P::Output: Length,
    A: Accumulate<Q::Output>,
    ensures slice { (bytes : I.Slice → V) (p : P) → SlicesRespect I.is_slice (Shows bytes)
        → IsDetermined (Shows P.Output.number) (P.means p)
        → IsDetermined (Shows bytes)
        (LengthTakes P.Output.number I.counts_shortage I.is_slice (P.means p)) }
    ensures values { (view : Q.Output → W) (whole : A → X) (p : P) (q : Q)
        → Respects (AreSameEach (Shows view)) (Shows whole) (λ values a. A.holds a values)
        → IsDetermined (Shows P.Output.number) (P.means p)
        → IsDetermined (Shows view) (Q.means q)
        → IsDetermined (Shows whole) (LengthRepeats P.Output.number A.refusable
        E.append_refusable (λ values a. A.holds a values) (P.means p) (Q.means q)) }
{}

/// The law of one answer for what is read in a part alone: where the count and the inner parser
/// have one answer each, so has what `length_and_then` makes of them. It does nothing when called:
/// its contract is the law.
pub fn determined_slice_read_law<I: StreamIsPartial, E, P: Parser<I, E>, Q: Parser<I, E>, V>()
where
    P::Output: Length,
    ensures { (view : Q.Output → V) (p : P) (q : Q)
        → IsDetermined (Shows P.Output.number) (P.means p)
        → IsDetermined (Shows view) (Q.means q)
        → IsDetermined (Shows view) (IsLengthAndThen (ahead I.location I.remaining) (Q.means q)
        (CountedFront P.Output.number (ahead I.location I.remaining) I.counts_shortage
        (P.means p))) }
{}
