//! Constructors whose name is that of their type but for the case: a module may not have both.

ghost use Rattle.std.specs.Prelude.{◌≡◌};

use crate::Literal;

/// Returns the parser of the slice that the literal covers.
pub fn literal<T>(text: T) -> Literal<T>
    ensures { result ≡ record { text = text } }
{
    Literal { text }
}
