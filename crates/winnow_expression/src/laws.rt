//! Laws that expressions are deterministic.

ghost use Rattle.std.specs.Prelude.{ℕ};
ghost use Rattle.winnow_parser.specs.Determined.{IsDetermined, Shows};
ghost use Rattle.winnow_expression.specs.Agreeing.{HasOneAnswer, AnswersAgree};
ghost use Rattle.winnow_expression.specs.Expression.{IsExpression};
ghost use Rattle.winnow_expression.specs.Then.{Yields};
ghost use Rattle.winnow_expression.specs.declared.level.Level.{Level};

use crate::{InfixOperators, UnaryOperators};
use winnow_parser::Parser;
use winnow_stream::StreamIsPartial;

/// The law of an expression whose operands and operators have one answer each: it has one answer,
/// at each level and with each limit. Operators that are alike make the same of values that are the
/// same. It does nothing when called: its contract is the law.
pub fn determined_expression_law<
    I: StreamIsPartial,
    E,
    P: Parser<I, E>,
    A: UnaryOperators<I, E, P::Output>,
    B: UnaryOperators<I, E, P::Output>,
    C: InfixOperators<I, E, P::Output>,
    V,
    W,
    X,
    Y,
>()
    ensures { (view : P.Output → V) (v : A.Operator → W) (w : B.Operator → X) (x : C.Operator → Y)
        (p : P) (a : A) (b : B) (c : C) (depth : ℕ) (level : Level)
        → HasOneAnswer (Shows view) (Shows v) (Shows w) (Shows x) (P.means p) (A.reads a)
        (A.folds a) (B.reads b) (B.folds b) (C.reads c) (C.folds c)
        → IsDetermined (Shows view) (IsExpression (P.means p) (A.reads a) (A.folds a) (B.reads b)
        (B.folds b) (C.reads c) (C.folds c) depth level) }
{}

/// The laws of functions that apply operators: where a function makes the same of operators that
/// are alike and values that are the same, what it makes agrees. It does nothing when called: its
/// contract is the law.
pub fn determined_fold_law<
    I: StreamIsPartial,
    O,
    T,
    F: Fn(T, O) -> O,
    G: Fn(O, T) -> O,
    H: Fn(O, T, O) -> O,
    V,
    W,
>()
    ensures prefix { (view : O → V) (v : T → W) (f : F)
        → ((p q : T) (x y k l : O) → Shows v p q → Shows view x y → F.post f p x k → F.post f q y l
        → Shows view k l)
        → (p q : T) (x y : O) → Shows v p q → Shows view x y
        → AnswersAgree {T = I.Token} (Shows view) (Yields (F.post f p x)) (Yields (F.post f q y)) }
    ensures postfix { (view : O → V) (v : T → W) (g : G)
        → ((p q : T) (x y k l : O) → Shows v p q → Shows view x y → G.post g x p k → G.post g y q l
        → Shows view k l)
        → (p q : T) (x y : O) → Shows v p q → Shows view x y
        → AnswersAgree {T = I.Token} (Shows view) (Yields (G.post g x p)) (Yields (G.post g y q)) }
    ensures infixed { (view : O → V) (v : T → W) (h : H)
        → ((x y : O) (p q : T) (z w k l : O) → Shows view x y → Shows v p q → Shows view z w
        → H.post h x p z k → H.post h y q w l → Shows view k l)
        → (x y : O) (p q : T) (z w : O) → Shows view x y → Shows v p q → Shows view z w
        → AnswersAgree {T = I.Token} (Shows view) (Yields (H.post h x p z))
        (Yields (H.post h y q w)) }
{}
