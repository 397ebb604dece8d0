//! The operators of an expression, as their parsers return them: `Prefix`, `Postfix` and `Infix`.

ghost use Rattle.std.specs.Prelude.{◌≡◌};
ghost use Rattle.winnow_expression.specs.Powers.{power_of, alone_of, right_of, operator_of};

use crate::level::Level;

/// A prefix operator: its binding power, and which operator it is.
#[derive(Clone, Copy, Debug, Drop)]
pub struct Prefix<T>(pub i64, pub T);

/// A postfix operator: its binding power, and which operator it is.
#[derive(Clone, Copy, Debug, Drop)]
pub struct Postfix<T>(pub i64, pub T);

/// An infix operator: its binding power, and which operator it is.
#[derive(Clone, Copy, Debug, Drop)]
pub enum Infix<T> {
    /// Of several in a row the first binds first: `a - b - c` is `(a - b) - c`
    Left(i64, T),
    /// Of several in a row the last binds first: `a = b = c` is `a = (b = c)`
    Right(i64, T),
    /// There are not several in a row: after `a == b` no other operator of this power is read
    Neither(i64, T),
}

// The parts of an infix operator.
#[derive(Drop)]
pub(crate) struct Parts<T> {
    pub(crate) power: i64,
    pub(crate) right: Level,
    pub(crate) alone: Option<i64>,
    pub(crate) operator: T,
}

impl<T> Parts<T> {
    // Returns these parts.
    fn of(power: i64, right: Level, alone: Option<i64>, operator: T) -> Self
        ensures { result
            ≡ record { power = power; right = right; alone = alone; operator = operator } }
    {
        Parts {
            power,
            right,
            alone,
            operator,
        }
    }
}

impl<T> Infix<T> {
    // Returns the parts of the operator.
    pub(crate) fn parts(self) -> Parts<T>
        ensures power { result.power ≡ power_of self }
        ensures right { result.right ≡ right_of self }
        ensures alone { result.alone ≡ alone_of self }
        ensures operator { result.operator ≡ operator_of self }
    {
        match self {
            Infix::Left(power, operator) => Parts::of(power, Level::Above(power), None, operator),
            Infix::Right(power, operator) => {
                Parts::of(power, Level::AtLeast(power), None, operator)
            }
            Infix::Neither(power, operator) => {
                Parts::of(power, Level::Above(power), Some(power), operator)
            }
        }
    }
}
