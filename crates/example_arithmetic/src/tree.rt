//! The tree of an expression, in place of its value.

use std::alloc::{AllocError, Global};
use winnow_ascii::{digit1, multispace0};
use winnow_combinator::{alt, delimited, separated_foldl1};
use winnow_error::EmptyError;
use winnow_grammar::{AsText, Layer, Text, ask, map_in, nested};
use winnow_parser::{ModalResult, Parser};
use winnow_token::one_of;

/// An expression as it is written.
#[derive(Debug, Drop)]
pub enum Expr {
    /// A number
    Value(i64),
    /// A sum
    Add(Box<Expr>, Box<Expr>),
    /// A difference
    Sub(Box<Expr>, Box<Expr>),
    /// A product
    Mul(Box<Expr>, Box<Expr>),
    /// A quotient
    Div(Box<Expr>, Box<Expr>),
    /// An expression in parentheses
    Paren(Box<Expr>),
}

// An expression, or that memory for it was refused.
type Made = Result<Expr, AllocError>;

fn apply(alloc: Global, left: Made, op: char, right: Made) -> Made {
    let (left, right) = (Box::new(alloc, left?)?, Box::new(alloc, right?)?);
    Ok(match op {
        '+' => Expr::Add(left, right),
        '-' => Expr::Sub(left, right),
        '*' => Expr::Mul(left, right),
        _ => Expr::Div(left, right),
    })
}

fn paren(alloc: Global, inside: Expr) -> Made {
    Ok(Expr::Paren(Box::new(alloc, inside)?))
}

#[derive(Clone, Copy, Drop)]
struct Tree;

impl<I: Text> Layer<I, EmptyError> for Tree {
    type Output = Expr;

    fn read<P: Parser<I, EmptyError, Output = Expr> + Copy + Drop>(
        &self,
        alloc: Global,
        input: &mut I,
        expr: P,
    ) -> ModalResult<Expr, EmptyError> {
        let number = digit1().verify_map(|digits: I::Piece| digits.as_text().parse::<i64>().ok());
        let number = number.map(|number: i64| -> Made { Ok(Expr::Value(number)) });
        let parens = delimited(one_of('('), expr, one_of(')')).map(|inside| paren(alloc, inside));
        let factor = delimited(multispace0(), alt((number, parens)), multispace0());
        let apply = |left: Made, op: char, right: Made| apply(alloc, left, op, right);
        let term = separated_foldl1(factor, one_of(('*', '/')), apply);
        let sum = separated_foldl1(term, one_of(('+', '-')), apply);
        let tree = map_in(sum, |_alloc: Global, made: Made| made);
        ask(alloc, input, &tree)
    }
}

/// Reads an expression, of at most a hundred layers, as a tree. It backtracks if a number is too
/// great.
pub fn parse_tree(alloc: Global, input: &mut &str) -> ModalResult<Expr, EmptyError> {
    nested(Tree, 100).parse_next(alloc, input)
}
