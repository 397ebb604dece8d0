//! `Level`, the binding powers of the operators that an expression may have.

ghost use Rattle.std.specs.Prelude.{◌↔◌, IsTrue, Some};
ghost use Rattle.winnow_expression.specs.Levels.{Admits, MayFollow};

/// The binding powers that the operators of an expression may have, outside of its operands. It is
/// what the meaning of an [`Expression`](crate::Expression) speaks of: a contract that names
/// `IsExpression` names it, code need not.
#[derive(Clone, Copy, Debug, Drop, PartialEq, Eq)]
pub enum Level {
    /// This power and greater ones
    AtLeast(i64),
    /// Greater powers alone
    Above(i64),
}

impl Level {
    // Returns whether an operator may have this power.
    pub(crate) fn admits(self, power: i64) -> bool
        ensures { IsTrue result ↔ Admits self power }
    {
        match self {
            Level::AtLeast(least) => least <= power,
            Level::Above(below) => below < power,
        }
    }

    // Returns whether an infix operator may have this power, after one of power `alone`, beside
    // which no other of its power may stand.
    pub(crate) fn admits_after(self, alone: Option<i64>, power: i64) -> bool
        ensures { IsTrue result ↔ MayFollow self alone power }
    {
        match alone {
            Some(alone) => self.admits(power) && alone != power,
            None => self.admits(power),
        }
    }
}
