//! The Rust crate's example `arithmetic` a third time, proved against its language: what is read is
//! the longest expression at the front of the text, and none is missed.
#![tactic(auto, using(winnow_parser::proofs::lemmas::OnwardLemmas::onward_steps))]

ghost use Rattle.std.specs.Prelude.{◌≡◌};
ghost use Rattle.std.specs.Str.{chars};
ghost use Rattle.winnow_exact.specs.Nested.{IsParser-IsNested};
ghost use Rattle.example_arithmetic_exact.specs.Steps.{OfBoth, Adds, Multiplies};
ghost use Rattle.example_arithmetic_exact.specs.Reading.{IsAnswer};
ghost use Rattle.example_arithmetic_exact.specs.Expressions.{IsValue};
ghost use Rattle.example_arithmetic_exact.specs.Grammar.{AddsDigit, IsLayer, IsParser-IsLayer};

use std::alloc::Global;
use winnow_ascii::{Class, multispace0};
use winnow_combinator::{alt, delimited, repeat, separated_foldl1};
use winnow_error::EmptyError;
use winnow_exact::{LayerRule, nested_by_rule};
use winnow_parser::{ModalResult, Parser};
use winnow_stream::{Stream, StreamIsPartial};
use winnow_token::one_of;

// Returns the number with one more digit.
#[tactic(auto, using(crate::proofs::DigitLemmas::digit_added, crate::proofs::DigitLemmas::product_great))]
fn with_digit(number: Option<i64>, digit: char) -> Option<i64>
    ensures { AddsDigit number digit result }
{
    let number = number?;
    let digit = digit.to_digit(10)? as i64;
    number.checked_mul(10)?.checked_add(digit)
}

fn add(left: Option<i64>, sign: char, right: Option<i64>) -> Option<i64>
    ensures { OfBoth (Adds sign) left right result }
{
    let (left, right) = (left?, right?);
    match sign {
        '+' => left.checked_add(right),
        _ => left.checked_sub(right),
    }
}

fn multiply(left: Option<i64>, sign: char, right: Option<i64>) -> Option<i64>
    ensures { OfBoth (Multiplies sign) left right result }
{
    let (left, right) = (left?, right?);
    match sign {
        '*' => left.checked_mul(right),
        _ => left.checked_div(right),
    }
}

// An expression. It has no value if a number is too great, or a divisor is 0.
#[derive(Clone, Copy, Drop)]
struct Expr;

impl<I: StreamIsPartial + Stream<Token = char>> LayerRule<I, EmptyError> for Expr
where
    I::Slice: Drop,
{
    type Output = Option<i64>;

    ghost layer = { λ _. IsLayer I.is_slice };

    fn read<P: Parser<I, EmptyError, Output = Option<i64>> + Copy + Drop>(
        &self,
        alloc: Global,
        input: &mut I,
        inner: P,
    ) -> ModalResult<Option<i64>, EmptyError> {
        let spaces = multispace0();
        let digit = one_of(Class::Digit);
        let number = repeat(1.., digit).fold(
            || -> Option<i64>
                ensures { IsValue 0 result }
            { Some(0) },
            |number: Option<i64>, digit: char| -> Option<i64>
                ensures { AddsDigit number digit result }
            { with_digit(number, digit) },
        );
        let open = one_of('(');
        let close = one_of(')');
        let parens = delimited(open, inner, close);
        let core = alt((number, parens));
        let factor = delimited(spaces, core, spaces);
        let times = one_of(('*', '/'));
        let term = separated_foldl1(
            factor,
            times,
            |left: Option<i64>, sign: char, right: Option<i64>| -> Option<i64>
                ensures { OfBoth (Multiplies sign) left right result }
            { multiply(left, sign, right) },
        );
        let plus = one_of(('+', '-'));
        let sum = separated_foldl1(
            term,
            plus,
            |left: Option<i64>, sign: char, right: Option<i64>| -> Option<i64>
                ensures { OfBoth (Adds sign) left right result }
            { add(left, sign, right) },
        );
        sum.parse_next(alloc, input)
    }

    ghost lawful = { λ _. IsParser-IsNested (IsLayer I.is_slice)
        (IsParser-IsLayer I.is_slice I.slices_stay) };
}

/// Reads the longest expression at the front of the text and returns its value.
///
/// It backtracks if there is none, and if the longest has no value, since a number or a result is
/// too great or a divisor is 0. It cuts where a hundred parentheses are open at once.
pub fn parse_expr(alloc: Global, input: &mut &str) -> ModalResult<i64, EmptyError>
    ensures { IsAnswer (chars input.old.now) result (chars input.new.now) }
{
    let value = nested_by_rule(Expr, 100).verify_map(
        |value: Option<i64>| -> Option<i64>
            ensures { result ≡ value }
        { value },
    );
    value.parse_next(alloc, input)
}
