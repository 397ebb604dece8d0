//! Printing an enum's variant as a derived `Debug` prints it (`write_variant`).

ghost use Rattle.std.specs.Fmt.{DisplaysOnOk, debug_variant};

use std::fmt;

/// Prints the variant `name`, which holds `value`, as a derived `Debug` prints it: `name(value)`,
/// and over several lines under `{:#?}`.
pub fn write_variant<T: fmt::Debug, W: fmt::Write>(
    f: &mut fmt::Formatter<W>,
    name: &str,
    value: &T,
) -> fmt::Result
    ensures { DisplaysOnOk W.write_str_gives f.old result
        (debug_variant name.now (T.debug_output value.now)) f.new }
{
    if f.alternate() {
        return f.debug_tuple(name).field(value).finish();
    }
    f.write_str(name)?;
    f.write_str("(")?;
    value.fmt(f)?;
    f.write_str(")")
}
