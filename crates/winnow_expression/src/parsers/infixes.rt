//! Operators between two operands: `InfixOperators`.

ghost use Rattle.winnow_parser.specs.Outcome.{Meaning, Moves};
ghost use Rattle.winnow_parser.specs.Answer.{ahead, outcome};
ghost use Rattle.winnow_parser.specs.Laws.{IsParser};
ghost use Rattle.winnow_parser.specs.Meanings.{Returns};
ghost use Rattle.winnow_parser.specs.Parts.{IsParser-Returns};
ghost use Rattle.winnow_combinator.specs.Ending.{IsFail, IsParser-IsFail};
ghost use Rattle.winnow_expression.specs.Then.{Yields, IsParser-Yields};
ghost use Rattle.winnow_expression.specs.declared.operators.Infix.{Infix};

use crate::{Infix, NoOperators};
use std::alloc::Global;
use winnow_error::ParserError;
use winnow_parser::{Failure, ModalResult, Parser};
use winnow_stream::StreamIsPartial;

/// Operators between two operands of type `O`.
pub trait InfixOperators<I: StreamIsPartial, E, O> {
    /// Which operator it is.
    type Operator;

    // What is read as an operator, with its binding power.
    ghost reads: { Self → Meaning (Infix Self.Operator) I.Token };

    // What an operator makes of the operands on its left and right side.
    ghost folds: { Self → O → Self.Operator → O → Meaning O I.Token };

    // The operators that may be asked.
    ghost ready: { Self → Type 0 };

    /// Reads an operator, with its binding power.
    fn read_operator(&self, alloc: Global, input: &mut I) -> ModalResult<Infix<Self::Operator>, E>
        requires ready { ready self.now }
        requires valid { I.valid input.old }
        ensures means { reads self.now (I.expects_more input.old)
            (ahead I.location I.remaining input.old)
            (outcome result (ahead I.location I.remaining input.new)) }
        ensures onward { Moves (ahead I.location I.remaining input.old)
            (ahead I.location I.remaining input.new) }
        ensures valid { I.valid input.new }
        ensures kept { I.keeps input.old input.new };

    /// Applies an operator to its operands. All three were read already.
    fn apply(
        &self,
        alloc: Global,
        input: &mut I,
        left: O,
        operator: Self::Operator,
        right: O,
    ) -> ModalResult<O, E>
        requires ready { ready self.now }
        requires valid { I.valid input.old }
        ensures means { folds self.now left operator right (I.expects_more input.old)
            (ahead I.location I.remaining input.old)
            (outcome result (ahead I.location I.remaining input.new)) }
        ensures onward { Moves (ahead I.location I.remaining input.old)
            (ahead I.location I.remaining input.new) }
        ensures valid { I.valid input.new }
        ensures kept { I.keeps input.old input.new };

    // Reading an operator keeps the laws of a parser.
    ghost reads_lawful: { (o : Self) → IsParser (reads o) };

    // Applying an operator keeps the laws of a parser.
    ghost folds_lawful: { (o : Self) (x : O) (y : Self.Operator) (z : O)
        → IsParser (folds o x y z) };
}

impl<I: StreamIsPartial, E: ParserError<I>, O: Drop> InfixOperators<I, E, O> for NoOperators {
    type Operator = ();

    ghost reads = { λ _. IsFail };

    ghost folds = { λ _ left _ _. Returns left };

    ghost ready = { λ _. Unit {0} };

    fn read_operator(&self, alloc: Global, input: &mut I) -> ModalResult<Infix<()>, E> {
        Err(Failure::Backtrack(E::from_input(alloc, input)))
    }

    fn apply(
        &self,
        _alloc: Global,
        _input: &mut I,
        left: O,
        _operator: (),
        _right: O,
    ) -> ModalResult<O, E> {
        Ok(left)
    }

    ghost reads_lawful = { λ _. IsParser-IsFail };

    ghost folds_lawful = { λ _ left _ _. IsParser-Returns left };
}

/// Infix operators: a parser of [`Infix`], and a function that applies one of them.
#[derive(Clone, Copy, Drop)]
pub struct InfixBy<Q, F> {
    pub(crate) parser: Q,
    pub(crate) fold: F,
}

impl<
    I: StreamIsPartial,
    E,
    O,
    T,
    Q: Parser<I, E, Output = Infix<T>>,
    F: Fn(O, T, O) -> O,
> InfixOperators<I, E, O> for InfixBy<Q, F> {
    type Operator = T;

    ghost reads = { λ o. Q.means o.parser };

    ghost folds = { λ o x y z. Yields (F.post o.fold x y z) };

    ghost ready = { λ o. Q.ready o.parser × F.IsAlwaysCallable o.fold };

    fn read_operator(&self, alloc: Global, input: &mut I) -> ModalResult<Infix<T>, E> {
        self.parser.parse_next(alloc, input)
    }

    fn apply(
        &self,
        _alloc: Global,
        _input: &mut I,
        left: O,
        operator: T,
        right: O,
    ) -> ModalResult<O, E> {
        Ok((self.fold)(left, operator, right))
    }

    ghost reads_lawful = { λ o. Q.lawful o.parser };

    ghost folds_lawful = { λ o x y z. IsParser-Yields (F.post o.fold x y z) };
}
