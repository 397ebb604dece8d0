//! The laws of expressions, each called once, and the meaning of one as its user may write it.

ghost use Rattle.std.specs.Prelude.{ℕ};
ghost use Rattle.winnow_parser.specs.Determined.{IsDetermined, Shows};
ghost use Rattle.winnow_expression.specs.Agreeing.{HasOneAnswer};
ghost use Rattle.winnow_expression.specs.Expression.{IsExpression};
ghost use Rattle.winnow_expression.specs.declared.level.Level.{Level};

use winnow_error::{EmptyError, ParserError};
use winnow_expression::{
    InfixOperators, NoOperators, UnaryOperators, determined_expression_law, determined_fold_law,
};
use winnow_parser::Parser;
use winnow_stream::StreamIsPartial;
use winnow_token::Any;
use winnow_wrap::Partial;

type Text = Partial<&'static str>;

// An expression with one kind of unary operators has one answer if its parts have.
fn unary_law<
    I: StreamIsPartial,
    E: ParserError<I>,
    P: Parser<I, E>,
    A: UnaryOperators<I, E, P::Output>,
    C: InfixOperators<I, E, P::Output>,
    V,
    W,
    Y,
>()
    ensures { (view : P.Output → V) (v : A.Operator → W) (y : C.Operator → Y) (p : P) (a b : A)
        (c : C) (depth : ℕ) (level : Level)
        → HasOneAnswer (Shows view) (Shows v) (Shows v) (Shows y) (P.means p) (A.reads a)
        (A.folds a) (A.reads b) (A.folds b) (C.reads c) (C.folds c)
        → IsDetermined (Shows view) (IsExpression (P.means p) (A.reads a) (A.folds a) (A.reads b)
        (A.folds b) (C.reads c) (C.folds c) depth level) }
{
    determined_expression_law::<I, E, P, A, A, C, V, W, W, Y>();
}

// Calls the laws of functions that apply operators.
fn call_fold_laws<
    I: StreamIsPartial,
    E: ParserError<I>,
    P: Parser<I, E>,
    F: Fn(P::Output, P::Output) -> P::Output,
    H: Fn(P::Output, P::Output, P::Output) -> P::Output,
>() {
    determined_fold_law::<I, P::Output, P::Output, F, F, H, usize, usize>();
}

#[test]
fn laws_of_expressions_are_called(_rt: HostRuntime) {
    type Apply = fn(char, char) -> char;
    type Join = fn(char, char, char) -> char;
    unary_law::<Text, EmptyError, Any, NoOperators, NoOperators, usize, usize, usize>();
    call_fold_laws::<Text, EmptyError, Any, Apply, Join>();
}
