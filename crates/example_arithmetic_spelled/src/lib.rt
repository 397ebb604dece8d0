//! The Rust crate's example `arithmetic` once more, with what it reads: the text that is taken for
//! an expression writes one that is worth the value.
#![tactic(auto)]

ghost use Rattle.std.specs.Prelude.{◌≡◌, pos, Some, IfSome};
ghost use Rattle.example_arithmetic_spelled.specs.Expressions.{Expression, Writes, WritesPart};
ghost use Rattle.example_arithmetic_spelled.specs.Expressions.{WritesValue};
ghost use Rattle.winnow_grammar.specs.Texts.{SpelledText};
ghost use Rattle.example_arithmetic_spelled.specs.Steps.{HasDigit, IsSum, IsProduct};

use std::alloc::Global;
use winnow_ascii::{Class, multispace0};
use winnow_combinator::{alt, delimited, repeat, separated_foldl1};
use winnow_error::{EmptyError, ParserError};
use winnow_grammar::{LayerAs, ReadsAs, Spells, Text, ask_as, ask_text, nested_as, part_as};
use winnow_parser::{ModalResult, Parser};
use winnow_token::one_of;

/// A number. It has no value if it is too great.
#[derive(Clone, Copy, Drop)]
struct Number;

// Returns the number with one more digit.
fn with_digit(number: Option<i64>, digit: char) -> Option<i64>
    ensures { IfSome result (HasDigit number digit) }
{
    let number = number?;
    let digit = digit.to_digit(10)? as i64;
    number.checked_mul(10)?.checked_add(digit)
}

impl<I: Text, E: ParserError<I>> ReadsAs<I, E> for Number {
    type Output = Option<i64>;

    ghost spells = { λ _. WritesValue };

    fn read(&self, alloc: Global, input: &mut I) -> ModalResult<Option<i64>, E> {
        let digit = one_of(Class::Digit);
        let digits = repeat(1.., digit).fold(
            || -> Option<i64>
                ensures { result ≡ Some (pos 0) }
            { Some(0) },
            |number: Option<i64>, digit: char| -> Option<i64>
                ensures { IfSome result (HasDigit number digit) }
            { with_digit(number, digit) },
        );
        ask_as(alloc, input, &digits)
    }
}

/// An expression. It has no value if a number is too great, or a divisor is 0.
#[derive(Clone, Copy, Drop)]
struct Expr;

fn add(left: Option<i64>, sign: char, right: Option<i64>) -> Option<i64>
    ensures { IfSome result (IsSum left sign right) }
{
    let (left, right) = (left?, right?);
    match sign {
        '+' => left.checked_add(right),
        '-' => left.checked_sub(right),
        _ => None,
    }
}

fn multiply(left: Option<i64>, sign: char, right: Option<i64>) -> Option<i64>
    ensures { IfSome result (IsProduct left sign right) }
{
    let (left, right) = (left?, right?);
    match sign {
        '*' => left.checked_mul(right),
        '/' => left.checked_div(right),
        _ => None,
    }
}

impl<I: Text, E: ParserError<I>> LayerAs<I, E> for Expr {
    type Output = Option<i64>;

    ghost spells = { λ _. WritesPart Expression };

    fn read<P: Spells<I, E, Output = Option<i64>> + Copy + Drop>(
        &self,
        alloc: Global,
        input: &mut I,
        expr: P,
    ) -> ModalResult<Option<i64>, E> {
        let spaces = multispace0();
        let parens = delimited(one_of('('), expr, one_of(')'));
        let factor = delimited(spaces, alt((part_as(Number), parens)), spaces);
        let term = separated_foldl1(
            factor,
            one_of(('*', '/')),
            |left: Option<i64>, sign: char, right: Option<i64>| -> Option<i64>
                ensures { IfSome result (IsProduct left sign right) }
            { multiply(left, sign, right) },
        );
        let sum = separated_foldl1(
            term,
            one_of(('+', '-')),
            |left: Option<i64>, sign: char, right: Option<i64>| -> Option<i64>
                ensures { IfSome result (IsSum left sign right) }
            { add(left, sign, right) },
        );
        ask_as(alloc, input, &sum)
    }
}

/// Reads an expression, of at most a hundred layers, and returns its value. It backtracks if a
/// number is too great, or a divisor is 0.
pub fn parse_expr(alloc: Global, input: &mut &str) -> ModalResult<i64, EmptyError>
    ensures { SpelledText (Writes Expression) input.old result input.new }
{
    let value = nested_as(Expr, 100).verify_map(
        |value: Option<i64>| -> Option<i64>
            ensures { result ≡ value }
        { value },
    );
    ask_text(alloc, input, &value)
}
