//! Comparison of a literal with a prefix of the input: `Compare` and `CompareResult`.

ghost use Rattle.std.specs.Prelude.{◌≡◌, ℕ};
ghost use Rattle.winnow_stream.specs.Source.{Source};
ghost use Rattle.winnow_match.specs.Comparison.{EndsAtOffset, AgreesWithWidth};
ghost use Rattle.winnow_match.specs.Staying.{ComparisonsStay};
ghost use Rattle.winnow_match.specs.declared.compare.CompareResult.{CompareResult};

use winnow_stream::Stream;

/// How a literal compares with the front of a stream.
#[derive(Debug, Drop, PartialEq, Eq)]
pub enum CompareResult {
    /// The stream begins with the literal, which has this width
    Ok(usize),
    /// What remains is a front of the literal, and shorter: more input may complete the literal
    Incomplete,
    /// The stream does not begin with the literal, no matter what input follows
    Error,
}

/// A stream whose front is compared with a literal `T`.
///
/// A function over any such stream takes the literal, if the stream begins with it:
///
/// ```
/// match input.compare(wanted) {
///     CompareResult::Ok(width) => Some(input.next_slice(width)),
///     CompareResult::Incomplete | CompareResult::Error => None,
/// }
/// ```
pub trait Compare<T>: Stream {
    // The answer of the comparison, for a literal and what remains.
    ghost compared: { T → Source Self.Token → CompareResult };

    // The width that a literal has in the stream.
    ghost literal_width: { T → ℕ };

    /// Returns how the literal compares with the front of the stream, which stays where it is. The
    /// width of an `Ok` is an offset, so that a slice may be taken up to it. If the answer is
    /// `Incomplete`, what remains is less wide than the literal, and the difference is lacking.
    fn compare(&self, t: T) -> CompareResult
        requires { Self.valid self.now }
        ensures answer { result ≡ compared t (Self.remaining self.now) }
        ensures offset { EndsAtOffset result (Self.remaining self.now) }
        ensures width { AgreesWithWidth result (literal_width t) (Self.remaining self.now) };

    // An answer other than `Incomplete` stays when more input follows.
    ghost comparisons_stay: { (t : T) → ComparisonsStay (compared t) };
}
