//! Constructors whose name is that of their type but for the case: a module may not have both.

ghost use Rattle.std.specs.Prelude.{◌≡◌};

use crate::Permutation;

/// Returns the parser that calls each of a tuple of two to five parsers once, in any order, and
/// returns their values in the order of the tuple. At each place it tries those that have returned
/// no value yet, in the order of the tuple, until one does not backtrack. If all of them backtrack,
/// the whole backtracks at that place: their errors are joined by `or`, and `append` records in the
/// joined one that this parser failed.
///
/// So a parser that succeeds on less comes after those that want more.
///
/// ```
/// let code = permutation((alpha1(), digit1()));
/// ```
pub fn permutation<L>(list: L) -> Permutation<L>
    ensures { result ≡ record { list = list } }
{
    Permutation { list }
}
