//! Constructors whose name is that of their type but for the case: a module may not have both.

ghost use Rattle.std.specs.Prelude.{◌≡◌, pos};

use crate::{Expression, NoOperators};

/// Returns the parser of expressions whose operands this parser reads, of at most `depth` layers.
/// It has no operators until `prefix`, `postfix` and `infix` set them.
///
/// ```
/// let minus = preceded(multispace0(), one_of('-')).map(|sign: char| Prefix(3, sign));
/// ..
/// let sum = expression(operand, 100)
///     .prefix(minus, negate)
///     .postfix(exclamation, factorial)
///     .infix(part(Sign), apply);
/// ```
///
/// It calls the parser of operands, and, if that backtracks, the parser of prefix operators. After
/// an operand it calls the parsers of postfix and of infix operators, in turn, until both backtrack
/// or an operator has a power that is not admitted, which then is not consumed.
///
/// What a prefix operator applies to, and the right side of an infix operator, is one layer deeper.
/// If the input goes deeper than `depth`, the parser cuts, so that no input uses up the stack. It
/// also cuts if an operator and what follows it together consume nothing.
pub fn expression<P>(
    operand: P,
    depth: usize,
) -> Expression<P, NoOperators, NoOperators, NoOperators>
    ensures operand { result.operand ≡ operand }
    ensures level { result.level ≡ pos 0 }
    ensures depth { result.depth ≡ depth }
{
    Expression {
        operand,
        prefixes: NoOperators,
        postfixes: NoOperators,
        infixes: NoOperators,
        level: 0,
        depth,
    }
}
