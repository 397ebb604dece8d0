//! A calculator: sums, products, powers, signs, factorials, and parentheses to a depth.
#![tactic(auto)]

use std::alloc::Global;
use winnow_ascii::{digit1, multispace0};
use winnow_combinator::{alt, delimited, preceded, terminated};
use winnow_error::EmptyError;
use winnow_expression::{Infix, Postfix, Prefix, expression};
use winnow_grammar::{AsText, Layer, Reads, Text, ask, nested, part};
use winnow_parser::{ModalResult, Parser};
use winnow_token::one_of;

// A sign between two operands, with its binding power.
#[derive(Clone, Copy, Drop)]
struct Sign;

impl<I: Text> Reads<I, EmptyError> for Sign {
    type Output = Infix<char>;

    fn read(&self, alloc: Global, input: &mut I) -> ModalResult<Infix<char>, EmptyError> {
        let sum = one_of(('+', '-')).map(|sign: char| Infix::Left(1, sign));
        let product = one_of(('*', '/')).map(|sign: char| Infix::Left(2, sign));
        let power = one_of('^').map(|sign: char| Infix::Right(4, sign));
        ask(alloc, input, &alt((sum, product, power)))
    }
}

// An expression. Its value is `None` if a number is too great, or a divisor is 0.
#[derive(Clone, Copy, Drop)]
struct Calculator;

fn negate(_sign: char, value: Option<i64>) -> Option<i64> {
    value?.checked_neg()
}

fn factorial(value: Option<i64>, _sign: char) -> Option<i64> {
    let mut product: i64 = 1;
    for factor in 2..=value? {
        product = product.checked_mul(factor)?;
    }
    Some(product)
}

fn apply(left: Option<i64>, sign: char, right: Option<i64>) -> Option<i64> {
    let (left, right) = (left?, right?);
    match sign {
        '+' => left.checked_add(right),
        '-' => left.checked_sub(right),
        '*' => left.checked_mul(right),
        '/' => left.checked_div(right),
        _ => left.checked_pow(u32::try_from(right).ok()?),
    }
}

impl<I: Text> Layer<I, EmptyError> for Calculator {
    type Output = Option<i64>;

    fn read<P: Parser<I, EmptyError, Output = Option<i64>> + Copy + Drop>(
        &self,
        alloc: Global,
        input: &mut I,
        inner: P,
    ) -> ModalResult<Option<i64>, EmptyError> {
        let number = digit1().map(|digits: I::Piece| digits.as_text().parse::<i64>().ok());
        let parens = delimited(one_of('('), inner, one_of(')'));
        let operand = delimited(multispace0(), alt((number, parens)), multispace0());
        let minus = preceded(multispace0(), one_of('-')).map(|sign: char| Prefix(3, sign));
        let exclamation = terminated(one_of('!'), multispace0());
        let exclamation = exclamation.map(|sign: char| Postfix(5, sign));
        let sum = expression(operand, 100)
            .prefix(minus, negate)
            .postfix(exclamation, factorial)
            .infix(part(Sign), apply);
        ask(alloc, input, &sum)
    }
}

/// Reads an expression, with at most a hundred pairs of parentheses around any part of it, and
/// returns its value. It backtracks if a number is too great, a divisor is 0, or an exponent is
/// negative.
pub fn calculate(alloc: Global, input: &mut &str) -> ModalResult<i64, EmptyError> {
    let checked = nested(Calculator, 100).verify_map(|value: Option<i64>| value);
    checked.parse_next(alloc, input)
}
