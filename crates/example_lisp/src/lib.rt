//! The Rust crate's example `s_expression`, as far as it reads: a small Lisp.
#![tactic(auto)]

use std::alloc::{AllocError, Global};
use winnow_ascii::{alpha1, digit1, multispace0, multispace1};
use winnow_combinator::{alt, cut_err, delimited, opt, preceded, repeat};
use winnow_error::EmptyError;
use winnow_grammar::{AsText, Layer, Reads, Text, ask, map_in, nested, part};
use winnow_parser::{ModalResult, Parser};
use winnow_token::{literal, one_of};

type Error = EmptyError;

/// A function that the language has.
#[derive(Clone, Copy, Debug, PartialEq, Eq, Drop)]
pub enum BuiltIn {
    /// `+`
    Plus,
    /// `-`
    Minus,
    /// `*`
    Times,
    /// `/`
    Divide,
    /// `=`
    Equal,
    /// `not`
    Not,
}

/// What has no parts.
#[derive(Debug, PartialEq, Drop)]
pub enum Atom {
    /// A number
    Num(i32),
    /// A name after a colon
    Keyword(String),
    /// `#t` or `#f`
    Boolean(bool),
    /// A function that the language has
    BuiltIn(BuiltIn),
}

/// An expression.
#[derive(Debug, Drop)]
pub enum Expr {
    /// An atom
    Constant(Atom),
    /// A function, and what it is called with
    Application(Box<Expr>, Vec<Expr>),
    /// A test, and what holds if it does
    If(Box<Expr>, Box<Expr>),
    /// A test, what holds if it does, and what holds if not
    IfElse(Box<Expr>, Box<Expr>, Box<Expr>),
    /// Expressions that are not evaluated
    Quote(Vec<Expr>),
}

fn keyword(alloc: Global, name: &str) -> Result<Atom, AllocError> {
    Ok(Atom::Keyword(String::from_str(alloc, name)?))
}

fn application(alloc: Global, parts: (Expr, Vec<Expr>)) -> Result<Expr, AllocError> {
    let (head, tail) = parts;
    Ok(Expr::Application(Box::new(alloc, head)?, tail))
}

fn conditional(alloc: Global, parts: (Expr, Expr, Option<Expr>)) -> Result<Expr, AllocError> {
    let (test, yes, no) = parts;
    let (test, yes) = (Box::new(alloc, test)?, Box::new(alloc, yes)?);
    Ok(match no {
        Some(no) => Expr::IfElse(test, yes, Box::new(alloc, no)?),
        None => Expr::If(test, yes),
    })
}

#[derive(Clone, Copy, Drop)]
struct Number;

impl<I: Text> Reads<I, Error> for Number {
    type Output = Atom;

    fn read(&self, alloc: Global, input: &mut I) -> ModalResult<Atom, Error> {
        let value = |digits: I::Piece| digits.as_text().parse::<i32>().ok();
        let positive = digit1().verify_map(value);
        let negative = preceded(one_of('-'), digit1()).verify_map(|digits: I::Piece| digits
            .as_text()
            .parse::<i32>()
            .ok()?
            .checked_neg());
        let number = alt((positive, negative)).map(|number: i32| Atom::Num(number));
        ask(alloc, input, &number)
    }
}

#[derive(Clone, Copy, Drop)]
struct Operator;

impl<I: Text> Reads<I, Error> for Operator {
    type Output = BuiltIn;

    fn read(&self, alloc: Global, input: &mut I) -> ModalResult<BuiltIn, Error> {
        let operator = alt((
            one_of('+').value(BuiltIn::Plus),
            one_of('-').value(BuiltIn::Minus),
            one_of('*').value(BuiltIn::Times),
            one_of('/').value(BuiltIn::Divide),
            one_of('=').value(BuiltIn::Equal),
            literal("not").value(BuiltIn::Not),
        ));
        ask(alloc, input, &operator)
    }
}

#[derive(Clone, Copy, Drop)]
struct AnyAtom;

impl<I: Text> Reads<I, Error> for AnyAtom {
    type Output = Atom;

    fn read(&self, alloc: Global, input: &mut I) -> ModalResult<Atom, Error> {
        let boolean = alt((literal("#t").value(true), literal("#f").value(false)));
        let name = preceded(one_of(':'), cut_err(alpha1()));
        let atom = alt((
            part(Number),
            boolean.map(|b: bool| Atom::Boolean(b)),
            part(Operator).map(|b: BuiltIn| Atom::BuiltIn(b)),
            map_in(
                name,
                |alloc: Global, name: I::Piece| keyword(alloc, name.as_text()),
            ),
        ));
        ask(alloc, input, &atom)
    }
}

// What stands in parentheses.
macro_rules! in_parentheses {
    ($inner:expr) => {
        delimited(
            one_of('('),
            preceded(multispace0(), $inner),
            cut_err(preceded(multispace0(), one_of(')'))),
        )
    };
}

#[derive(Clone, Copy, Drop)]
struct Lisp;

impl<I: Text> Layer<I, Error> for Lisp {
    type Output = Expr;

    fn read<P: Parser<I, Error, Output = Expr> + Copy + Drop>(
        &self,
        alloc: Global,
        input: &mut I,
        expr: P,
    ) -> ModalResult<Expr, Error> {
        let call = in_parentheses!((expr, repeat::<_, Vec<Expr>, _>(0.., expr)));
        let branches = preceded(
            (literal("if"), multispace1()),
            cut_err((expr, expr, opt(expr))),
        );
        let quoted = in_parentheses!(repeat::<_, Vec<Expr>, _>(0.., expr));
        let quote = preceded(one_of('\''), cut_err(quoted));
        let any = alt((
            part(AnyAtom).map(|atom: Atom| Expr::Constant(atom)),
            map_in(call, application),
            map_in(in_parentheses!(branches), conditional),
            quote.map(|exprs: Vec<Expr>| Expr::Quote(exprs)),
        ));
        ask(alloc, input, &preceded(multispace0(), any))
    }
}

/// Reads an expression, of at most a hundred layers.
pub fn parse_expr(alloc: Global, input: &mut &str) -> ModalResult<Expr, Error> {
    nested(Lisp, 100).parse_next(alloc, input)
}
