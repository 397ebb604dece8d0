//! The Rust crate's example `arithmetic`: it evaluates expressions, with parentheses to a depth;
//! [`tree`] reads them as trees.
#![tactic(auto)]

pub mod tree;

use std::alloc::Global;
use winnow_ascii::{digit1, multispace0};
use winnow_combinator::{alt, delimited, separated_foldl1};
use winnow_error::EmptyError;
use winnow_grammar::{AsText, Layer, Text, ask, nested};
use winnow_parser::{ModalResult, Parser};
use winnow_token::one_of;

// An expression. Its value is `None` if a number is too great, or a divisor is 0.
#[derive(Clone, Copy, Drop)]
struct Expr;

fn apply(left: Option<i64>, op: char, right: Option<i64>) -> Option<i64> {
    let (left, right) = (left?, right?);
    match op {
        '+' => left.checked_add(right),
        '-' => left.checked_sub(right),
        '*' => left.checked_mul(right),
        _ => left.checked_div(right),
    }
}

impl<I: Text> Layer<I, EmptyError> for Expr {
    type Output = Option<i64>;

    fn read<P: Parser<I, EmptyError, Output = Option<i64>> + Copy + Drop>(
        &self,
        alloc: Global,
        input: &mut I,
        expr: P,
    ) -> ModalResult<Option<i64>, EmptyError> {
        let number = digit1().map(|digits: I::Piece| digits.as_text().parse::<i64>().ok());
        let parens = delimited(one_of('('), expr, one_of(')'));
        let factor = delimited(multispace0(), alt((number, parens)), multispace0());
        let term = separated_foldl1(factor, one_of(('*', '/')), apply);
        let sum = separated_foldl1(term, one_of(('+', '-')), apply);
        ask(alloc, input, &sum)
    }
}

/// Reads an expression, of at most a hundred layers, and returns its value. It backtracks if a
/// number is too great, or a divisor is 0.
pub fn parse_expr(alloc: Global, input: &mut &str) -> ModalResult<i64, EmptyError> {
    let value = nested(Expr, 100).verify_map(|value: Option<i64>| value);
    value.parse_next(alloc, input)
}
