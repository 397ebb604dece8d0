//! `Expression`, the parser of operands with operators before, after and between them.

ghost use Rattle.std.specs.Prelude.{◌≡◌, Option, None};
ghost use Rattle.winnow_parser.specs.Outcome.{Moves};
ghost use Rattle.winnow_parser.specs.Answer.{ahead, outcome};
ghost use Rattle.winnow_parser.specs.Errors.{AnyError};
ghost use Rattle.winnow_expression.specs.Turns.{IsTurn, IsFollowed};
ghost use Rattle.winnow_expression.specs.Found.{Absent};
ghost use Rattle.winnow_expression.specs.Expression.{IsOperand, IsNext, IsExpression};
ghost use Rattle.winnow_expression.specs.Expression.{IsParser-IsExpression};
ghost use Rattle.winnow_expression.specs.declared.level.Level.TheVariants.{AtLeast};

use crate::level::Level;
use crate::turn::Turn;
use crate::{InfixBy, InfixOperators, PostfixBy, PrefixBy, UnaryOperators};
use std::alloc::Global;
use winnow_combinator::{cut_err, fail};
use winnow_error::ParserError;
use winnow_parser::{Failure, ModalResult, Parser};
use winnow_stream::StreamIsPartial;

/// A parser of operands with operators before, after and between them;
/// [`expression`](crate::expression) makes it.
#[derive(Clone, Copy, Drop)]
pub struct Expression<P, A, B, C> {
    pub(crate) operand: P,
    pub(crate) prefixes: A,
    pub(crate) postfixes: B,
    pub(crate) infixes: C,
    pub(crate) level: i64,
    pub(crate) depth: usize,
}

impl<P, A, B, C> Expression<P, A, B, C> {
    /// Returns the expression with these prefix operators.
    pub fn prefix<Q, F>(self, parser: Q, fold: F) -> Expression<P, PrefixBy<Q, F>, B, C>
    where
        A: Drop,
        ensures { result ≡ record {
          operand = self.operand;
          prefixes = record { parser = parser; fold = fold };
          postfixes = self.postfixes;
          infixes = self.infixes;
          level = self.level;
          depth = self.depth;
        } }
    {
        let Expression {
            operand,
            prefixes: _,
            postfixes,
            infixes,
            level,
            depth,
        } = self;
        Expression {
            operand,
            prefixes: PrefixBy { parser, fold },
            postfixes,
            infixes,
            level,
            depth,
        }
    }

    /// Returns the expression with these postfix operators.
    pub fn postfix<Q, F>(self, parser: Q, fold: F) -> Expression<P, A, PostfixBy<Q, F>, C>
    where
        B: Drop,
        ensures { result ≡ record {
          operand = self.operand;
          prefixes = self.prefixes;
          postfixes = record { parser = parser; fold = fold };
          infixes = self.infixes;
          level = self.level;
          depth = self.depth;
        } }
    {
        let Expression {
            operand,
            prefixes,
            postfixes: _,
            infixes,
            level,
            depth,
        } = self;
        Expression {
            operand,
            prefixes,
            postfixes: PostfixBy { parser, fold },
            infixes,
            level,
            depth,
        }
    }

    /// Returns the expression with these infix operators.
    pub fn infix<Q, F>(self, parser: Q, fold: F) -> Expression<P, A, B, InfixBy<Q, F>>
    where
        C: Drop,
        ensures { result ≡ record {
          operand = self.operand;
          prefixes = self.prefixes;
          postfixes = self.postfixes;
          infixes = record { parser = parser; fold = fold };
          level = self.level;
          depth = self.depth;
        } }
    {
        let Expression {
            operand,
            prefixes,
            postfixes,
            infixes: _,
            level,
            depth,
        } = self;
        Expression {
            operand,
            prefixes,
            postfixes,
            infixes: InfixBy { parser, fold },
            level,
            depth,
        }
    }

    /// Returns the expression whose operators have this power or a greater one. It is 0 if this is
    /// not called.
    pub fn current_precedence_level(self, level: i64) -> Self
        ensures { result ≡ record self { level = level } }
    {
        Expression { level, ..self }
    }
}

// Where an operator is read: which powers are admitted, also after one that stands alone, and how
// many layers its right side may have.
#[derive(Clone, Copy)]
struct Side {
    level: Level,
    alone: Option<i64>,
    depth: usize,
}

// Reads an expression of operators that the level admits.
#[cycle(climb)]
fn climb<
    I: StreamIsPartial,
    X,
    E: ParserError<I, Inner = X>,
    P: Parser<I, E>,
    A: UnaryOperators<I, E, P::Output>,
    B: UnaryOperators<I, E, P::Output>,
    C: InfixOperators<I, E, P::Output>,
>(
    parser: &Expression<P, A, B, C>,
    alloc: Global,
    input: &mut I,
    level: Level,
    depth: usize,
) -> ModalResult<P::Output, E>
where
    P::Output: Drop,
    A::Operator: Drop,
    B::Operator: Drop,
    C::Operator: Drop,
    requires operand { P.ready parser.now.operand }
    requires prefixes { A.ready parser.now.prefixes }
    requires postfixes { B.ready parser.now.postfixes }
    requires infixes { C.ready parser.now.infixes }
    requires valid { I.valid input.old }
    ensures means { IsExpression (P.means parser.now.operand)
        (A.reads parser.now.prefixes) (A.folds parser.now.prefixes)
        (B.reads parser.now.postfixes) (B.folds parser.now.postfixes)
        (C.reads parser.now.infixes) (C.folds parser.now.infixes) depth level
        (I.expects_more input.old) (ahead I.location I.remaining input.old)
        (outcome result (ahead I.location I.remaining input.new)) }
    ensures onward { Moves (ahead I.location I.remaining input.old)
        (ahead I.location I.remaining input.new) }
    ensures valid { I.valid input.new }
    ensures kept { I.keeps input.old input.new }
{
    if depth == 0 {
        return cut_err(fail()).parse_next(alloc, input);
    }
    let mut value = first(parser, alloc, input, depth - 1)?;
    let mut alone = None;
    loop {
        let side = Side {
            level,
            alone,
            depth: depth - 1,
        };
        match next(parser, alloc, input, side, value) {
            Ok(Turn::Ended(value)) => return Ok(value),
            Ok(Turn::Went(new, power)) => {
                value = new;
                alone = power;
            }
            Err(failure) => return Err(failure),
        }
    }
}

// Reads an operand, or a prefix operator and the expression to which it is applied.
#[cycle(climb)]
fn first<
    I: StreamIsPartial,
    X,
    E: ParserError<I, Inner = X>,
    P: Parser<I, E>,
    A: UnaryOperators<I, E, P::Output>,
    B: UnaryOperators<I, E, P::Output>,
    C: InfixOperators<I, E, P::Output>,
>(
    parser: &Expression<P, A, B, C>,
    alloc: Global,
    input: &mut I,
    depth: usize,
) -> ModalResult<P::Output, E>
where
    P::Output: Drop,
    A::Operator: Drop,
    B::Operator: Drop,
    C::Operator: Drop,
    requires operand { P.ready parser.now.operand }
    requires prefixes { A.ready parser.now.prefixes }
    requires postfixes { B.ready parser.now.postfixes }
    requires infixes { C.ready parser.now.infixes }
    requires valid { I.valid input.old }
    ensures means { IsOperand (P.means parser.now.operand)
        (A.reads parser.now.prefixes) (A.folds parser.now.prefixes)
        (B.reads parser.now.postfixes) (B.folds parser.now.postfixes)
        (C.reads parser.now.infixes) (C.folds parser.now.infixes)
        (IsExpression (P.means parser.now.operand)
        (A.reads parser.now.prefixes) (A.folds parser.now.prefixes)
        (B.reads parser.now.postfixes) (B.folds parser.now.postfixes)
        (C.reads parser.now.infixes) (C.folds parser.now.infixes) depth)
        (I.expects_more input.old) (ahead I.location I.remaining input.old)
        (outcome result (ahead I.location I.remaining input.new)) }
    ensures onward { Moves (ahead I.location I.remaining input.old)
        (ahead I.location I.remaining input.new) }
    ensures valid { I.valid input.new }
    ensures kept { I.keeps input.old input.new }
{
    let start = input.checkpoint();
    match parser.operand.parse_next(alloc, input) {
        Ok(value) => Ok(value),
        Err(Failure::Backtrack(_)) => {
            input.reset(&start);
            let (power, operator) = parser.prefixes.read_operator(alloc, input)?;
            let operand = climb(parser, alloc, input, Level::AtLeast(power), depth)?;
            parser.prefixes.apply(alloc, input, operator, operand)
        }
        Err(Failure::Cut(error)) => Err(Failure::Cut(error)),
        Err(Failure::Incomplete(needed)) => Err(Failure::Incomplete(needed)),
        Err(Failure::Refused(refused)) => Err(Failure::Refused(refused)),
    }
}

// Reads one more operator that applies to the value, with the side on its right, and takes
// something for it.
#[cycle(climb)]
fn next<
    I: StreamIsPartial,
    X,
    E: ParserError<I, Inner = X>,
    P: Parser<I, E>,
    A: UnaryOperators<I, E, P::Output>,
    B: UnaryOperators<I, E, P::Output>,
    C: InfixOperators<I, E, P::Output>,
>(
    parser: &Expression<P, A, B, C>,
    alloc: Global,
    input: &mut I,
    side: Side,
    value: P::Output,
) -> ModalResult<Turn<P::Output>, E>
where
    P::Output: Drop,
    A::Operator: Drop,
    B::Operator: Drop,
    C::Operator: Drop,
    requires operand { P.ready parser.now.operand }
    requires prefixes { A.ready parser.now.prefixes }
    requires postfixes { B.ready parser.now.postfixes }
    requires infixes { C.ready parser.now.infixes }
    requires valid { I.valid input.old }
    ensures means { IsNext (P.means parser.now.operand)
        (A.reads parser.now.prefixes) (A.folds parser.now.prefixes)
        (B.reads parser.now.postfixes) (B.folds parser.now.postfixes)
        (C.reads parser.now.infixes) (C.folds parser.now.infixes)
        (IsExpression (P.means parser.now.operand)
        (A.reads parser.now.prefixes) (A.folds parser.now.prefixes)
        (B.reads parser.now.postfixes) (B.folds parser.now.postfixes)
        (C.reads parser.now.infixes) (C.folds parser.now.infixes) side.depth)
        side.level value side.alone
        (I.expects_more input.old) (ahead I.location I.remaining input.old)
        (outcome result (ahead I.location I.remaining input.new)) }
    ensures onward { Moves (ahead I.location I.remaining input.old)
        (ahead I.location I.remaining input.new) }
    ensures valid { I.valid input.new }
    ensures kept { I.keeps input.old input.new }
{
    let before = input.eof_offset();
    match turn(parser, alloc, input, side, value) {
        Ok(Turn::Went(value, alone)) => {
            if input.eof_offset() < before {
                return Ok(Turn::Went(value, alone));
            }
            let message = "an operator must take something";
            Err(Failure::Cut(E::assert(alloc, input, message)))
        }
        Ok(Turn::Ended(value)) => Ok(Turn::Ended(value)),
        Err(failure) => Err(failure),
    }
}

// Reads a postfix operator that applies to the value. Where there is none, reads an infix operator.
#[cycle(climb)]
fn turn<
    I: StreamIsPartial,
    X,
    E: ParserError<I, Inner = X>,
    P: Parser<I, E>,
    A: UnaryOperators<I, E, P::Output>,
    B: UnaryOperators<I, E, P::Output>,
    C: InfixOperators<I, E, P::Output>,
>(
    parser: &Expression<P, A, B, C>,
    alloc: Global,
    input: &mut I,
    side: Side,
    value: P::Output,
) -> ModalResult<Turn<P::Output>, E>
where
    P::Output: Drop,
    A::Operator: Drop,
    B::Operator: Drop,
    C::Operator: Drop,
    requires operand { P.ready parser.now.operand }
    requires prefixes { A.ready parser.now.prefixes }
    requires postfixes { B.ready parser.now.postfixes }
    requires infixes { C.ready parser.now.infixes }
    requires valid { I.valid input.old }
    ensures means { IsTurn (B.reads parser.now.postfixes) (B.folds parser.now.postfixes)
        (C.reads parser.now.infixes) (C.folds parser.now.infixes)
        (IsExpression (P.means parser.now.operand)
        (A.reads parser.now.prefixes) (A.folds parser.now.prefixes)
        (B.reads parser.now.postfixes) (B.folds parser.now.postfixes)
        (C.reads parser.now.infixes) (C.folds parser.now.infixes) side.depth)
        side.level value side.alone
        (I.expects_more input.old) (ahead I.location I.remaining input.old)
        (outcome result (ahead I.location I.remaining input.new)) }
    ensures onward { Moves (ahead I.location I.remaining input.old)
        (ahead I.location I.remaining input.new) }
    ensures valid { I.valid input.new }
    ensures kept { I.keeps input.old input.new }
{
    let start = input.checkpoint();
    match parser.postfixes.read_operator(alloc, input) {
        Ok((power, operator)) => {
            if !side.level.admits(power) {
                input.reset(&start);
                return Ok(Turn::Ended(value));
            }
            let value = parser.postfixes.apply(alloc, input, operator, value)?;
            Ok(Turn::Went(value, side.alone))
        }
        Err(Failure::Backtrack(_)) => {
            input.reset(&start);
            join(parser, alloc, input, side, value)
        }
        Err(Failure::Cut(error)) => Err(Failure::Cut(error)),
        Err(Failure::Incomplete(needed)) => Err(Failure::Incomplete(needed)),
        Err(Failure::Refused(refused)) => Err(Failure::Refused(refused)),
    }
}

// Reads an infix operator, with the side on its right, and applies it to the value and that side.
#[cycle(climb)]
fn join<
    I: StreamIsPartial,
    X,
    E: ParserError<I, Inner = X>,
    P: Parser<I, E>,
    A: UnaryOperators<I, E, P::Output>,
    B: UnaryOperators<I, E, P::Output>,
    C: InfixOperators<I, E, P::Output>,
>(
    parser: &Expression<P, A, B, C>,
    alloc: Global,
    input: &mut I,
    side: Side,
    value: P::Output,
) -> ModalResult<Turn<P::Output>, E>
where
    P::Output: Drop,
    A::Operator: Drop,
    B::Operator: Drop,
    C::Operator: Drop,
    requires operand { P.ready parser.now.operand }
    requires prefixes { A.ready parser.now.prefixes }
    requires postfixes { B.ready parser.now.postfixes }
    requires infixes { C.ready parser.now.infixes }
    requires valid { I.valid input.old }
    ensures means { IsFollowed (B.reads parser.now.postfixes) (B.folds parser.now.postfixes)
        (C.reads parser.now.infixes) (C.folds parser.now.infixes)
        (IsExpression (P.means parser.now.operand)
        (A.reads parser.now.prefixes) (A.folds parser.now.prefixes)
        (B.reads parser.now.postfixes) (B.folds parser.now.postfixes)
        (C.reads parser.now.infixes) (C.folds parser.now.infixes) side.depth)
        side.level value side.alone Absent
        (I.expects_more input.old) (ahead I.location I.remaining input.old)
        (outcome result (ahead I.location I.remaining input.new)) }
    ensures onward { Moves (ahead I.location I.remaining input.old)
        (ahead I.location I.remaining input.new) }
    ensures valid { I.valid input.new }
    ensures kept { I.keeps input.old input.new }
{
    let start = input.checkpoint();
    match parser.infixes.read_operator(alloc, input) {
        Ok(sign) => {
            let found = sign.parts();
            if !side.level.admits_after(side.alone, found.power) {
                input.reset(&start);
                return Ok(Turn::Ended(value));
            }
            let right = climb(parser, alloc, input, found.right, side.depth)?;
            let value = parser
                .infixes
                .apply(alloc, input, value, found.operator, right)?;
            Ok(Turn::Went(value, found.alone))
        }
        Err(Failure::Backtrack(_)) => {
            input.reset(&start);
            Ok(Turn::Ended(value))
        }
        Err(Failure::Cut(error)) => Err(Failure::Cut(error)),
        Err(Failure::Incomplete(needed)) => Err(Failure::Incomplete(needed)),
        Err(Failure::Refused(refused)) => Err(Failure::Refused(refused)),
    }
}

impl<
    I: StreamIsPartial,
    X,
    E: ParserError<I, Inner = X>,
    P: Parser<I, E>,
    A: UnaryOperators<I, E, P::Output>,
    B: UnaryOperators<I, E, P::Output>,
    C: InfixOperators<I, E, P::Output>,
> Parser<I, E> for Expression<P, A, B, C>
where
    P::Output: Drop,
    A::Operator: Drop,
    B::Operator: Drop,
    C::Operator: Drop,
{
    type Output = P::Output;

    ghost means = { λ p. IsExpression (P.means p.operand) (A.reads p.prefixes) (A.folds p.prefixes)
        (B.reads p.postfixes) (B.folds p.postfixes) (C.reads p.infixes) (C.folds p.infixes) p.depth
        (AtLeast p.level) };

    ghost errors = { λ _. AnyError };

    ghost ready = { λ p. P.ready p.operand × A.ready p.prefixes × B.ready p.postfixes
        × C.ready p.infixes };

    ghost lawful = { λ p. IsParser-IsExpression (P.lawful p.operand) (A.reads_lawful p.prefixes)
        (A.folds_lawful p.prefixes) (B.reads_lawful p.postfixes) (B.folds_lawful p.postfixes)
        (C.reads_lawful p.infixes) (C.folds_lawful p.infixes) p.depth (AtLeast p.level) };

    fn parse_next(&self, alloc: Global, input: &mut I) -> ModalResult<P::Output, E> {
        climb(self, alloc, input, Level::AtLeast(self.level), self.depth)
    }
}
