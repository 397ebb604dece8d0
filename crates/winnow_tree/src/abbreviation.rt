//! The abbreviated text of an input: the first characters of its first line.

ghost use Rattle.std.specs.Prelude.{◌≡◌, ◌++◌, OnOk, string_bytes};
ghost use Rattle.std.specs.Str.{chars};
ghost use Rattle.winnow_tree.specs.Abbreviation.{abbreviation};

use std::alloc::AllocError;

/// Writes the front of the text's first line, at most 20 characters, then three dots if that is not
/// the whole text.
pub(crate) fn write_abbreviated(out: &mut String, text: &str) -> Result<(), AllocError>
    ensures { OnOk result (
        string_bytes out.new ≡ string_bytes out.old ++ abbreviation 20 (chars text.now)) }
{
    let mut room = 20u8;
    for c in text.chars() {
        if c == '\n' {
            out.push_str("...")?;
            return Ok(());
        }
        if room == 0 {
            out.push_str("...")?;
            return Ok(());
        }
        out.push(c)?;
        room -= 1;
    }
    Ok(())
}
