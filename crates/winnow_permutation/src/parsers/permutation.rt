//! `permutation`, and `Permutation` of two to five parsers.

ghost use Rattle.winnow_parser.specs.Answer.{ahead};
ghost use Rattle.winnow_permutation.specs.Permutation.{AfterTurn2, AfterTurn3, AfterTurn4};
ghost use Rattle.winnow_permutation.specs.Permutation.{AfterTurn5};
ghost use Rattle.winnow_permutation.specs.Permutation.{IsPermutation2, IsPermutation3};
ghost use Rattle.winnow_permutation.specs.Permutation.{IsPermutation4, IsPermutation5};
ghost use Rattle.winnow_permutation.specs.Permutation.{IsParser-IsPermutation2};
ghost use Rattle.winnow_permutation.specs.Permutation.{IsParser-IsPermutation3};
ghost use Rattle.winnow_permutation.specs.Permutation.{IsParser-IsPermutation4};
ghost use Rattle.winnow_permutation.specs.Permutation.{IsParser-IsPermutation5};
ghost use Rattle.winnow_permutation.specs.PermutationErrors.{AfterTurnErrors2, AfterTurnErrors3};
ghost use Rattle.winnow_permutation.specs.PermutationErrors.{AfterTurnErrors4, AfterTurnErrors5};
ghost use Rattle.winnow_permutation.specs.PermutationErrors.{PermutationErrors2};
ghost use Rattle.winnow_permutation.specs.PermutationErrors.{PermutationErrors3};
ghost use Rattle.winnow_permutation.specs.PermutationErrors.{PermutationErrors4};
ghost use Rattle.winnow_permutation.specs.PermutationErrors.{PermutationErrors5};

use crate::after_turn::{AfterTurn, take_turn};
use crate::tried::Tried;
use crate::turns::{Turn, Turns};
use std::alloc::Global;
use winnow_error::ParserError;
use winnow_parser::{ModalResult, Parser};
use winnow_stream::StreamIsPartial;

/// A parser that calls each of several parsers once, in any order;
/// [`permutation`](crate::permutation) makes it.
#[derive(Clone, Copy, Drop)]
pub struct Permutation<L> {
    pub(crate) list: L,
}

impl<I: StreamIsPartial, E: ParserError<I>, A: Parser<I, E>, B: Parser<I, E>> AfterTurn<I, E>
    for (A, B)
where
    A::Output: Drop,
    B::Output: Drop,
{
    type Turned = Turn<A::Output, B::Output>;

    type Output = (A::Output, B::Output);

    ghost means = { λ p. AfterTurn2 E.append_refusable (A.means p.0) (B.means p.1) };

    ghost errors = { λ p. AfterTurnErrors2 (ahead I.location I.remaining)
        (ahead I.Checkpoint.location I.remained) E.or_gives E.append_gives (A.means p.0)
        (A.errors p.0) (B.means p.1) (B.errors p.1) };

    ghost ready = { λ p. A.ready p.0 × B.ready p.1 };

    fn finish(
        &self,
        turn: Turn<A::Output, B::Output>,
        alloc: Global,
        input: &mut I,
    ) -> ModalResult<Self::Output, E> {
        match turn {
            Turn::This(first) => match (Tried { inner: &self.1 }).parse_next(alloc, input) {
                Ok(second) => Ok((first, second)),
                Err(failure) => Err(failure),
            },
            Turn::Other(second) => match (Tried { inner: &self.0 }).parse_next(alloc, input) {
                Ok(first) => Ok((first, second)),
                Err(failure) => Err(failure),
            },
        }
    }
}

/// Calls two parsers, each once, in any order.
impl<I: StreamIsPartial, E: ParserError<I>, A: Parser<I, E>, B: Parser<I, E>> Parser<I, E>
    for Permutation<(A, B)>
where
    A::Output: Drop,
    B::Output: Drop,
{
    type Output = (A::Output, B::Output);

    ghost means = { λ p. IsPermutation2 E.or_refusable E.append_refusable (A.means p.list.0)
        (B.means p.list.1) };

    ghost errors = { λ p. PermutationErrors2 (ahead I.location I.remaining)
        (ahead I.Checkpoint.location I.remained) E.or_gives E.append_gives (A.means p.list.0)
        (A.errors p.list.0) (B.means p.list.1) (B.errors p.list.1) E.or_refusable
        E.append_refusable };

    ghost ready = { λ p. A.ready p.list.0 × B.ready p.list.1 };

    ghost lawful = { λ p. IsParser-IsPermutation2 E.or_refusable E.append_refusable
        (A.lawful p.list.0) (B.lawful p.list.1) };

    fn parse_next(&self, alloc: Global, input: &mut I) -> ModalResult<Self::Output, E> {
        let turns = Turns {
            this: &self.list.0,
            other: &self.list.1,
        };
        take_turn(&turns, &self.list, alloc, input)
    }
}

impl<
    I: StreamIsPartial,
    E: ParserError<I>,
    A: Parser<I, E>,
    B: Parser<I, E>,
    C: Parser<I, E>,
> AfterTurn<I, E> for (A, B, C)
where
    A::Output: Drop,
    B::Output: Drop,
    C::Output: Drop,
{
    type Turned = Turn<Turn<A::Output, B::Output>, C::Output>;

    type Output = (A::Output, B::Output, C::Output);

    ghost means = { λ p. AfterTurn3 E.or_refusable E.append_refusable (A.means p.0) (B.means p.1)
        (C.means p.2) };

    ghost errors = { λ p. AfterTurnErrors3 (ahead I.location I.remaining)
        (ahead I.Checkpoint.location I.remained) E.or_gives E.append_gives E.or_refusable
        E.append_refusable (A.means p.0) (A.errors p.0) (B.means p.1) (B.errors p.1) (C.means p.2)
        (C.errors p.2) };

    ghost ready = { λ p. A.ready p.0 × B.ready p.1 × C.ready p.2 };

    fn finish(
        &self,
        turn: Turn<Turn<A::Output, B::Output>, C::Output>,
        alloc: Global,
        input: &mut I,
    ) -> ModalResult<Self::Output, E> {
        let (a, b, c) = (&self.0, &self.1, &self.2);
        match turn {
            Turn::This(Turn::This(first)) => {
                match (Permutation { list: (b, c) }).parse_next(alloc, input) {
                    Ok((second, third)) => Ok((first, second, third)),
                    Err(failure) => Err(failure),
                }
            }
            Turn::This(Turn::Other(second)) => {
                match (Permutation { list: (a, c) }).parse_next(alloc, input) {
                    Ok((first, third)) => Ok((first, second, third)),
                    Err(failure) => Err(failure),
                }
            }
            Turn::Other(third) => {
                match (Permutation { list: (a, b) }).parse_next(alloc, input) {
                    Ok((first, second)) => Ok((first, second, third)),
                    Err(failure) => Err(failure),
                }
            }
        }
    }
}

/// Calls three parsers, each once, in any order.
impl<
    I: StreamIsPartial,
    E: ParserError<I>,
    A: Parser<I, E>,
    B: Parser<I, E>,
    C: Parser<I, E>,
> Parser<I, E> for Permutation<(A, B, C)>
where
    A::Output: Drop,
    B::Output: Drop,
    C::Output: Drop,
{
    type Output = (A::Output, B::Output, C::Output);

    ghost means = { λ p. IsPermutation3 E.or_refusable E.append_refusable (A.means p.list.0)
        (B.means p.list.1) (C.means p.list.2) };

    ghost errors = { λ p. PermutationErrors3 (ahead I.location I.remaining)
        (ahead I.Checkpoint.location I.remained) E.or_gives E.append_gives E.or_refusable
        E.append_refusable (A.means p.list.0) (A.errors p.list.0) (B.means p.list.1)
        (B.errors p.list.1) (C.means p.list.2) (C.errors p.list.2) };

    ghost ready = { λ p. A.ready p.list.0 × B.ready p.list.1 × C.ready p.list.2 };

    ghost lawful = { λ p. IsParser-IsPermutation3 E.or_refusable E.append_refusable
        (A.lawful p.list.0) (B.lawful p.list.1) (C.lawful p.list.2) };

    fn parse_next(&self, alloc: Global, input: &mut I) -> ModalResult<Self::Output, E> {
        let of_two = Turns {
            this: &self.list.0,
            other: &self.list.1,
        };
        let turns = Turns {
            this: of_two,
            other: &self.list.2,
        };
        take_turn(&turns, &self.list, alloc, input)
    }
}

impl<
    I: StreamIsPartial,
    E: ParserError<I>,
    A: Parser<I, E>,
    B: Parser<I, E>,
    C: Parser<I, E>,
    D: Parser<I, E>,
> AfterTurn<I, E> for (A, B, C, D)
where
    A::Output: Drop,
    B::Output: Drop,
    C::Output: Drop,
    D::Output: Drop,
{
    type Turned = Turn<Turn<Turn<A::Output, B::Output>, C::Output>, D::Output>;

    type Output = (A::Output, B::Output, C::Output, D::Output);

    ghost means = { λ p. AfterTurn4 E.or_refusable E.append_refusable (A.means p.0) (B.means p.1)
        (C.means p.2) (D.means p.3) };

    ghost errors = { λ p. AfterTurnErrors4 (ahead I.location I.remaining)
        (ahead I.Checkpoint.location I.remained) E.or_gives E.append_gives E.or_refusable
        E.append_refusable (A.means p.0) (A.errors p.0) (B.means p.1) (B.errors p.1) (C.means p.2)
        (C.errors p.2) (D.means p.3) (D.errors p.3) };

    ghost ready = { λ p. A.ready p.0 × B.ready p.1 × C.ready p.2 × D.ready p.3 };

    fn finish(
        &self,
        turn: Turn<Turn<Turn<A::Output, B::Output>, C::Output>, D::Output>,
        alloc: Global,
        input: &mut I,
    ) -> ModalResult<Self::Output, E> {
        let (a, b, c, d) = (&self.0, &self.1, &self.2, &self.3);
        match turn {
            Turn::This(Turn::This(Turn::This(first))) => {
                match (Permutation { list: (b, c, d) }).parse_next(alloc, input) {
                    Ok((second, third, fourth)) => Ok((first, second, third, fourth)),
                    Err(failure) => Err(failure),
                }
            }
            Turn::This(Turn::This(Turn::Other(second))) => {
                match (Permutation { list: (a, c, d) }).parse_next(alloc, input) {
                    Ok((first, third, fourth)) => Ok((first, second, third, fourth)),
                    Err(failure) => Err(failure),
                }
            }
            Turn::This(Turn::Other(third)) => {
                match (Permutation { list: (a, b, d) }).parse_next(alloc, input) {
                    Ok((first, second, fourth)) => Ok((first, second, third, fourth)),
                    Err(failure) => Err(failure),
                }
            }
            Turn::Other(fourth) => {
                match (Permutation { list: (a, b, c) }).parse_next(alloc, input) {
                    Ok((first, second, third)) => Ok((first, second, third, fourth)),
                    Err(failure) => Err(failure),
                }
            }
        }
    }
}

/// Calls four parsers, each once, in any order.
impl<
    I: StreamIsPartial,
    E: ParserError<I>,
    A: Parser<I, E>,
    B: Parser<I, E>,
    C: Parser<I, E>,
    D: Parser<I, E>,
> Parser<I, E> for Permutation<(A, B, C, D)>
where
    A::Output: Drop,
    B::Output: Drop,
    C::Output: Drop,
    D::Output: Drop,
{
    type Output = (A::Output, B::Output, C::Output, D::Output);

    ghost means = { λ p. IsPermutation4 E.or_refusable E.append_refusable (A.means p.list.0)
        (B.means p.list.1) (C.means p.list.2) (D.means p.list.3) };

    ghost errors = { λ p. PermutationErrors4 (ahead I.location I.remaining)
        (ahead I.Checkpoint.location I.remained) E.or_gives E.append_gives E.or_refusable
        E.append_refusable (A.means p.list.0) (A.errors p.list.0) (B.means p.list.1)
        (B.errors p.list.1) (C.means p.list.2) (C.errors p.list.2) (D.means p.list.3)
        (D.errors p.list.3) };

    ghost ready = { λ p. A.ready p.list.0 × B.ready p.list.1 × C.ready p.list.2
        × D.ready p.list.3 };

    ghost lawful = { λ p. IsParser-IsPermutation4 E.or_refusable E.append_refusable
        (A.lawful p.list.0) (B.lawful p.list.1) (C.lawful p.list.2) (D.lawful p.list.3) };

    fn parse_next(&self, alloc: Global, input: &mut I) -> ModalResult<Self::Output, E> {
        let of_two = Turns {
            this: &self.list.0,
            other: &self.list.1,
        };
        let of_three = Turns {
            this: of_two,
            other: &self.list.2,
        };
        let turns = Turns {
            this: of_three,
            other: &self.list.3,
        };
        take_turn(&turns, &self.list, alloc, input)
    }
}

impl<
    I: StreamIsPartial,
    E: ParserError<I>,
    A: Parser<I, E>,
    B: Parser<I, E>,
    C: Parser<I, E>,
    D: Parser<I, E>,
    F: Parser<I, E>,
> AfterTurn<I, E> for (A, B, C, D, F)
where
    A::Output: Drop,
    B::Output: Drop,
    C::Output: Drop,
    D::Output: Drop,
    F::Output: Drop,
{
    type Turned = Turn<Turn<Turn<Turn<A::Output, B::Output>, C::Output>, D::Output>, F::Output>;

    type Output = (A::Output, B::Output, C::Output, D::Output, F::Output);

    ghost means = { λ p. AfterTurn5 E.or_refusable E.append_refusable (A.means p.0) (B.means p.1)
        (C.means p.2) (D.means p.3) (F.means p.4) };

    ghost errors = { λ p. AfterTurnErrors5 (ahead I.location I.remaining)
        (ahead I.Checkpoint.location I.remained) E.or_gives E.append_gives E.or_refusable
        E.append_refusable (A.means p.0) (A.errors p.0) (B.means p.1) (B.errors p.1) (C.means p.2)
        (C.errors p.2) (D.means p.3) (D.errors p.3) (F.means p.4) (F.errors p.4) };

    ghost ready = { λ p. A.ready p.0 × B.ready p.1 × C.ready p.2 × D.ready p.3 × F.ready p.4 };

    fn finish(
        &self,
        turn: Turn<Turn<Turn<Turn<A::Output, B::Output>, C::Output>, D::Output>, F::Output>,
        alloc: Global,
        input: &mut I,
    ) -> ModalResult<Self::Output, E> {
        let (a, b, c, d, f) = (&self.0, &self.1, &self.2, &self.3, &self.4);
        match turn {
            Turn::This(Turn::This(Turn::This(Turn::This(first)))) => {
                match (Permutation { list: (b, c, d, f) }).parse_next(alloc, input) {
                    Ok((second, third, fourth, fifth)) => Ok((first, second, third, fourth, fifth)),
                    Err(failure) => Err(failure),
                }
            }
            Turn::This(Turn::This(Turn::This(Turn::Other(second)))) => {
                match (Permutation { list: (a, c, d, f) }).parse_next(alloc, input) {
                    Ok((first, third, fourth, fifth)) => Ok((first, second, third, fourth, fifth)),
                    Err(failure) => Err(failure),
                }
            }
            Turn::This(Turn::This(Turn::Other(third))) => {
                match (Permutation { list: (a, b, d, f) }).parse_next(alloc, input) {
                    Ok((first, second, fourth, fifth)) => Ok((first, second, third, fourth, fifth)),
                    Err(failure) => Err(failure),
                }
            }
            Turn::This(Turn::Other(fourth)) => {
                match (Permutation { list: (a, b, c, f) }).parse_next(alloc, input) {
                    Ok((first, second, third, fifth)) => Ok((first, second, third, fourth, fifth)),
                    Err(failure) => Err(failure),
                }
            }
            Turn::Other(fifth) => {
                match (Permutation { list: (a, b, c, d) }).parse_next(alloc, input) {
                    Ok((first, second, third, fourth)) => Ok((first, second, third, fourth, fifth)),
                    Err(failure) => Err(failure),
                }
            }
        }
    }
}

/// Calls five parsers, each once, in any order.
impl<
    I: StreamIsPartial,
    E: ParserError<I>,
    A: Parser<I, E>,
    B: Parser<I, E>,
    C: Parser<I, E>,
    D: Parser<I, E>,
    F: Parser<I, E>,
> Parser<I, E> for Permutation<(A, B, C, D, F)>
where
    A::Output: Drop,
    B::Output: Drop,
    C::Output: Drop,
    D::Output: Drop,
    F::Output: Drop,
{
    type Output = (A::Output, B::Output, C::Output, D::Output, F::Output);

    ghost means = { λ p. IsPermutation5 E.or_refusable E.append_refusable (A.means p.list.0)
        (B.means p.list.1) (C.means p.list.2) (D.means p.list.3) (F.means p.list.4) };

    ghost errors = { λ p. PermutationErrors5 (ahead I.location I.remaining)
        (ahead I.Checkpoint.location I.remained) E.or_gives E.append_gives E.or_refusable
        E.append_refusable (A.means p.list.0) (A.errors p.list.0) (B.means p.list.1)
        (B.errors p.list.1) (C.means p.list.2) (C.errors p.list.2) (D.means p.list.3)
        (D.errors p.list.3) (F.means p.list.4) (F.errors p.list.4) };

    ghost ready = { λ p. A.ready p.list.0 × B.ready p.list.1 × C.ready p.list.2 × D.ready p.list.3
        × F.ready p.list.4 };

    ghost lawful = { λ p. IsParser-IsPermutation5 E.or_refusable E.append_refusable
        (A.lawful p.list.0) (B.lawful p.list.1) (C.lawful p.list.2) (D.lawful p.list.3)
        (F.lawful p.list.4) };

    fn parse_next(&self, alloc: Global, input: &mut I) -> ModalResult<Self::Output, E> {
        let of_two = Turns {
            this: &self.list.0,
            other: &self.list.1,
        };
        let of_three = Turns {
            this: of_two,
            other: &self.list.2,
        };
        let of_four = Turns {
            this: of_three,
            other: &self.list.3,
        };
        let turns = Turns {
            this: of_four,
            other: &self.list.4,
        };
        take_turn(&turns, &self.list, alloc, input)
    }
}
