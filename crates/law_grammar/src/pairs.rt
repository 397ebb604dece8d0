//! Parts that hold a parser, and two grammars that contain each other.

use std::alloc::Global;
use winnow_ascii::multispace0;
use winnow_combinator::{alt, delimited, repeat, terminated};
use winnow_error::EmptyError;
use winnow_grammar::{Layer, Reads, Text, ask, nested, part};
use winnow_parser::{ModalResult, Parser};
use winnow_token::one_of;

// What a parser reads, with spaces around it.
#[derive(Clone, Copy, Drop)]
struct Spaced<P> {
    inner: P,
}

impl<I: Text, P: Parser<I, EmptyError>> Reads<I, EmptyError> for Spaced<P>
where
    P::Output: Drop,
{
    type Output = P::Output;

    ghost ready = { λ p. P.ready p.inner };

    fn read(&self, alloc: Global, input: &mut I) -> ModalResult<P::Output, EmptyError> {
        let spaced = delimited(multispace0(), &self.inner, multispace0());
        ask(alloc, input, &spaced)
    }
}

// An expression is a digit, or statements in braces. It is read as the number of its digits.
#[derive(Clone, Copy, Drop)]
struct Expression<P> {
    statement: P,
}

impl<I: Text, P: Parser<I, EmptyError, Output = u32>> Reads<I, EmptyError> for Expression<P> {
    type Output = u32;

    ghost ready = { λ p. P.ready p.statement };

    fn read(&self, alloc: Global, input: &mut I) -> ModalResult<u32, EmptyError> {
        let digit = one_of('0'..='9').value(1);
        let sum = |sum: u32, digits: u32| sum.saturating_add(digits);
        let statements = repeat(0.., &self.statement).fold(|| 0, sum);
        let block = delimited(one_of('{'), statements, one_of('}'));
        ask(alloc, input, &alt((digit, block)))
    }
}

// A statement is an expression and a semicolon.
#[derive(Clone, Copy, Drop)]
struct Statement;

impl<I: Text> Layer<I, EmptyError> for Statement {
    type Output = u32;

    fn read<P: Parser<I, EmptyError, Output = u32> + Copy + Drop>(
        &self,
        alloc: Global,
        input: &mut I,
        statement: P,
    ) -> ModalResult<u32, EmptyError> {
        let expression = part(Expression { statement });
        let expression = part(Spaced { inner: expression });
        ask(alloc, input, &terminated(expression, one_of(';')))
    }
}

/// Reads a statement, of at most ten layers, and returns the number of its digits.
pub fn count_digits(alloc: Global, input: &mut &str) -> ModalResult<u32, EmptyError> {
    nested(Statement, 10).parse_next(alloc, input)
}
