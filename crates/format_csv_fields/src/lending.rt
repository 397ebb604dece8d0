//! Lending the value of a field.

ghost use Rattle.std.specs.Prelude.{◌≡◌, ℕ, ◌≤◌, List, drop, length as len, IfOk};
ghost use Rattle.format_csv_fields.specs.Looking.{IsText};
ghost use Rattle.format_csv_fields.specs.Lending.{IsLent, Lends};

use crate::looking::Text;
use crate::unescaping::unescape;
use std::alloc::AllocError;

/// Where the value is that a reader lends.
#[derive(Clone, Copy, Debug, Drop)]
pub(crate) enum Lent {
    /// None is lent
    Nothing,
    /// From one index of the kept bytes up to another
    Kept(usize, usize),
    /// It was put together
    Value,
}

// Returns where the value of the text is that begins at an index of the kept bytes. It is put
// together if a quote in it is doubled.
pub(crate) fn lend(
    kept: &[u8],
    at: usize,
    text: Text,
    value: &mut Vec<u8>,
) -> Result<Lent, AllocError>
    requires within { at ≤ len kept.now }
    requires text { IsText (drop at kept.now) text }
    ensures within { IfOk result (λ lent. IsLent lent kept.now) }
    ensures value { IfOk result (λ lent.
        Lends (drop at kept.now) text lent kept.now value.new.items) }
{
    match text {
        Text::Plain(length) => Ok(Lent::Kept(at, at + length)),
        Text::Quoted(close, doubled) => {
            if doubled {
                unescape(&kept[at + 1..], value)?;
                return Ok(Lent::Value);
            }
            Ok(Lent::Kept(at + 1, at + close))
        }
        Text::Open(_) => Ok(Lent::Nothing),
    }
}
