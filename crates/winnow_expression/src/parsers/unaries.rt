//! Operators of one operand, before or after it: `UnaryOperators`.

ghost use Rattle.std.specs.Prelude.{ℤ};
ghost use Rattle.winnow_parser.specs.Outcome.{Meaning, Moves};
ghost use Rattle.winnow_parser.specs.Answer.{ahead, outcome};
ghost use Rattle.winnow_parser.specs.Laws.{IsParser};
ghost use Rattle.winnow_parser.specs.Meanings.{Returns, Maps};
ghost use Rattle.winnow_parser.specs.Parts.{IsParser-Returns, IsParser-Maps};
ghost use Rattle.winnow_combinator.specs.Ending.{IsFail, IsParser-IsFail};
ghost use Rattle.winnow_expression.specs.Unary.{HasPrefix, HasPostfix};
ghost use Rattle.winnow_expression.specs.Then.{Yields, IsParser-Yields};

use crate::{Postfix, Prefix};
use std::alloc::Global;
use winnow_error::ParserError;
use winnow_parser::{Failure, ModalResult, Parser};
use winnow_stream::StreamIsPartial;

/// Operators of one operand of type `O`, all before it or all after it.
pub trait UnaryOperators<I: StreamIsPartial, E, O> {
    /// Which operator it is.
    type Operator;

    // What is read as an operator, with its binding power.
    ghost reads: { Self → Meaning (ℤ × Self.Operator) I.Token };

    // What an operator makes of its operand.
    ghost folds: { Self → Self.Operator → O → Meaning O I.Token };

    // The operators that may be asked.
    ghost ready: { Self → Type 0 };

    /// Reads an operator, and returns its binding power with it.
    fn read_operator(&self, alloc: Global, input: &mut I) -> ModalResult<(i64, Self::Operator), E>
        requires ready { ready self.now }
        requires valid { I.valid input.old }
        ensures means { reads self.now (I.expects_more input.old)
            (ahead I.location I.remaining input.old)
            (outcome result (ahead I.location I.remaining input.new)) }
        ensures onward { Moves (ahead I.location I.remaining input.old)
            (ahead I.location I.remaining input.new) }
        ensures valid { I.valid input.new }
        ensures kept { I.keeps input.old input.new };

    /// Applies an operator to its operand. Both were read already.
    fn apply(
        &self,
        alloc: Global,
        input: &mut I,
        operator: Self::Operator,
        operand: O,
    ) -> ModalResult<O, E>
        requires ready { ready self.now }
        requires valid { I.valid input.old }
        ensures means { folds self.now operator operand (I.expects_more input.old)
            (ahead I.location I.remaining input.old)
            (outcome result (ahead I.location I.remaining input.new)) }
        ensures onward { Moves (ahead I.location I.remaining input.old)
            (ahead I.location I.remaining input.new) }
        ensures valid { I.valid input.new }
        ensures kept { I.keeps input.old input.new };

    // Reading an operator keeps the laws of a parser.
    ghost reads_lawful: { (o : Self) → IsParser (reads o) };

    // Applying an operator keeps the laws of a parser.
    ghost folds_lawful: { (o : Self) (x : Self.Operator) (y : O) → IsParser (folds o x y) };
}

/// No operators: none is read, so none is applied.
#[derive(Clone, Copy, Debug, Drop)]
pub struct NoOperators;

impl<I: StreamIsPartial, E: ParserError<I>, O> UnaryOperators<I, E, O> for NoOperators {
    type Operator = ();

    ghost reads = { λ _. IsFail };

    ghost folds = { λ _ _ operand. Returns operand };

    ghost ready = { λ _. Unit {0} };

    fn read_operator(&self, alloc: Global, input: &mut I) -> ModalResult<(i64, ()), E> {
        Err(Failure::Backtrack(E::from_input(alloc, input)))
    }

    fn apply(
        &self,
        _alloc: Global,
        _input: &mut I,
        _operator: (),
        operand: O,
    ) -> ModalResult<O, E> {
        Ok(operand)
    }

    ghost reads_lawful = { λ _. IsParser-IsFail };

    ghost folds_lawful = { λ _ _ operand. IsParser-Returns operand };
}

/// Prefix operators: a parser of [`Prefix`], and a function that applies one of them.
#[derive(Clone, Copy, Drop)]
pub struct PrefixBy<Q, F> {
    pub(crate) parser: Q,
    pub(crate) fold: F,
}

impl<
    I: StreamIsPartial,
    E,
    O,
    T,
    Q: Parser<I, E, Output = Prefix<T>>,
    F: Fn(T, O) -> O,
> UnaryOperators<I, E, O> for PrefixBy<Q, F> {
    type Operator = T;

    ghost reads = { λ o. Maps HasPrefix (Q.means o.parser) };

    ghost folds = { λ o x y. Yields (F.post o.fold x y) };

    ghost ready = { λ o. Q.ready o.parser × F.IsAlwaysCallable o.fold };

    fn read_operator(&self, alloc: Global, input: &mut I) -> ModalResult<(i64, T), E> {
        let Prefix(power, operator) = self.parser.parse_next(alloc, input)?;
        Ok((power, operator))
    }

    fn apply(&self, _alloc: Global, _input: &mut I, operator: T, operand: O) -> ModalResult<O, E> {
        Ok((self.fold)(operator, operand))
    }

    ghost reads_lawful = { λ o. IsParser-Maps HasPrefix (Q.means o.parser) (Q.lawful o.parser) };

    ghost folds_lawful = { λ o x y. IsParser-Yields (F.post o.fold x y) };
}

/// Postfix operators: a parser of [`Postfix`], and a function that applies one of them.
#[derive(Clone, Copy, Drop)]
pub struct PostfixBy<Q, F> {
    pub(crate) parser: Q,
    pub(crate) fold: F,
}

impl<
    I: StreamIsPartial,
    E,
    O,
    T,
    Q: Parser<I, E, Output = Postfix<T>>,
    F: Fn(O, T) -> O,
> UnaryOperators<I, E, O> for PostfixBy<Q, F> {
    type Operator = T;

    ghost reads = { λ o. Maps HasPostfix (Q.means o.parser) };

    ghost folds = { λ o x y. Yields (F.post o.fold y x) };

    ghost ready = { λ o. Q.ready o.parser × F.IsAlwaysCallable o.fold };

    fn read_operator(&self, alloc: Global, input: &mut I) -> ModalResult<(i64, T), E> {
        let Postfix(power, operator) = self.parser.parse_next(alloc, input)?;
        Ok((power, operator))
    }

    fn apply(&self, _alloc: Global, _input: &mut I, operator: T, operand: O) -> ModalResult<O, E> {
        Ok((self.fold)(operand, operator))
    }

    ghost reads_lawful = { λ o. IsParser-Maps HasPostfix (Q.means o.parser) (Q.lawful o.parser) };

    ghost folds_lawful = { λ o x y. IsParser-Yields (F.post o.fold y x) };
}
