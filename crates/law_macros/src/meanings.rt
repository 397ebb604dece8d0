//! Contracts of `dispatch!` and `seq!`: a function that is written with them means the parser of
//! the arm that was chosen, and the values of the parsers of the fields.

ghost use Rattle.std.specs.Prelude.{◌≡◌, IfErr};
ghost use Rattle.winnow_parser.specs.Answer.{ahead, outcome};
ghost use Rattle.winnow_parser.specs.Errors.{FlatMapErrors, PairErrors};
ghost use Rattle.winnow_parser.specs.FlatMap.{FlatMaps};
ghost use Rattle.winnow_parser.specs.Meanings.{Maps};
ghost use Rattle.winnow_parser.specs.Rows.{Row3};
ghost use Rattle.law_macros.specs.declared.meanings.Both.{Both};
ghost use Rattle.law_macros.specs.Kinds.{by_kind, HasBoth};

use std::alloc::Global;
use winnow_macros::{dispatch, seq};
use winnow_parser::{ModalResult, Parser};
use winnow_stream::StreamIsPartial;

/// Reads a kind by one parser, and then by the parser of that kind: the first at 0, the second at 1
/// and 2, and the other at each other kind. Its errors are those of the parser that was chosen.
pub fn read_by_kind<
    I: StreamIsPartial,
    E,
    K: Parser<I, E, Output = u8> + Copy + Drop,
    A: Parser<I, E> + Copy + Drop,
    B: Parser<I, E, Output = A::Output> + Copy + Drop,
    C: Parser<I, E, Output = A::Output> + Copy + Drop,
>(alloc: Global, input: &mut I, kind: K, first: A, second: B, other: C) -> ModalResult<A::Output, E>
    requires kind { K.ready kind }
    requires first { A.ready first }
    requires second { B.ready second }
    requires other { C.ready other }
    requires valid { I.valid input.old }
    ensures means { FlatMaps ◌≡◌ (by_kind (A.means first) (B.means second) (C.means other))
        (K.means kind) (I.expects_more input.old) (ahead I.location I.remaining input.old)
        (outcome result (ahead I.location I.remaining input.new)) }
    ensures error { IfErr result (FlatMapErrors ◌≡◌
        (by_kind (A.errors first) (B.errors second) (C.errors other)) (K.means kind)
        (K.errors kind) (I.expects_more input.old) (ahead I.location I.remaining input.old)
        input.new) }
{
    let parser = dispatch!(kind; 0 => first, 1 | 2 => second, _ => other);
    parser.parse_next(alloc, input)
}

/// Two values.
pub struct Both<A, B> {
    /// The first
    pub first: A,
    /// The second
    pub second: B,
}

/// Reads two values with a sign between them, which is left out. Its errors are those of the parser
/// that failed.
pub fn read_both<
    I: StreamIsPartial,
    E,
    A: Parser<I, E> + Copy + Drop,
    S: Parser<I, E> + Copy + Drop,
    B: Parser<I, E> + Copy + Drop,
>(
    alloc: Global,
    input: &mut I,
    first: A,
    sign: S,
    second: B,
) -> ModalResult<Both<A::Output, B::Output>, E>
where
    A::Output: Drop,
    S::Output: Drop,
    B::Output: Drop,
    requires first { A.ready first }
    requires sign { S.ready sign }
    requires second { B.ready second }
    requires valid { I.valid input.old }
    ensures means { Maps HasBoth (Row3 (A.means first) (S.means sign) (B.means second))
        (I.expects_more input.old) (ahead I.location I.remaining input.old)
        (outcome result (ahead I.location I.remaining input.new)) }
    ensures error { IfErr result (PairErrors (A.means first) (A.errors first)
        (PairErrors (S.means sign) (S.errors sign) (B.errors second)) (I.expects_more input.old)
        (ahead I.location I.remaining input.old) input.new) }
{
    let parser = seq!(Both { first: first, _: sign, second: second });
    parser.parse_next(alloc, input)
}
