//! `Spells`: a parser and the relation between its values and the tokens consumed for them.

ghost use Rattle.std.specs.Prelude.{◌≡◌};
ghost use Rattle.winnow_grammar.specs.Spelling.{Spelling, IsSpelled};

use winnow_parser::Parser;
use winnow_stream::StreamIsPartial;

/// A parser of which it is known which tokens spell each value.
pub trait Spells<I: StreamIsPartial, E>: Parser<I, E> {
    // The tokens that spell each value.
    ghost spells: { Self → Spelling Self.Output I.Token };

    /// Returns the parser itself.
    fn this(&self) -> &Self
        ensures { result.now ≡ self.now }
    {
        self
    }

    // The tokens that are taken for a value spell it.
    ghost spelled: { (p : Self) → IsSpelled (spells p) (Self.means p) };
}
