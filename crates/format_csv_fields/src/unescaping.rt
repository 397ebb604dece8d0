//! Putting together a value in which a quote is doubled.

ghost use Rattle.std.specs.Prelude.{◌≡◌, ℕ, List, OnOk};
ghost use Rattle.format_csv.specs.FillingFields.{ClosesQuoted};

use crate::looking::has_quote;
use memchr::memchr;
use std::alloc::AllocError;

// Puts together the value before a closing quote: by the chunks between quotes.
pub(crate) fn unescape(inside: &[u8], value: &mut Vec<u8>) -> Result<(), AllocError>
    requires { (field : List ℕ) × ((rest : List ℕ) × ClosesQuoted field inside.now rest) }
    ensures { (field rest : List ℕ) → ClosesQuoted field inside.now rest
        → OnOk result (value.new.items ≡ field) }
{
    value.clear();
    let mut at = 0;
    loop {
        let rest = &inside[at..];
        let Some(length) = memchr(b'"', rest) else {
            return Ok(());
        };
        value.extend_from_slice(&rest[..length])?;
        at += length + 1;
        if !has_quote(inside, at) {
            return Ok(());
        }
        value.push(b'"')?;
        at += 1;
    }
}
