//! Text that no option changes: a width, a precision or a `#` for the whole does not reach its
//! parts.

ghost use Rattle.std.specs.Prelude.{◌≡◌};
ghost use Rattle.std.specs.Fmt.{DisplaysOnOk, DisplaysStyledOnOk, HasWrittenStyled, IsFlush};

use std::fmt;

/// Passes each text on to a formatter as it is.
#[derive(Drop)]
struct Bare<'f, W> {
    f: &'f mut fmt::Formatter<W>,
}

impl<W: fmt::Write> fmt::Write for Bare<'_, W> {
    ghost write_str_gives = { λ s bs t. (IsFlush s.f.now
        → HasWrittenStyled W.write_str_gives s.f.now bs t.f.now)
        × (t.f.ghost_name ≡ s.f.ghost_name) };

    fn write_str(&mut self, s: &str) -> fmt::Result {
        self.f.write_str(s)
    }
}

/// Writes a value as `{}` does, for any options of the formatter.
#[doc(hidden)]
pub fn write_bare<W: fmt::Write, D: fmt::Display + Drop>(
    f: &mut fmt::Formatter<W>,
    value: D,
) -> fmt::Result
    ensures writes { DisplaysOnOk W.write_str_gives f.old result (D.output value) f.new }
    ensures styled { DisplaysStyledOnOk W.write_str_gives f.old result (D.output value) f.new }
{
    let mut bare = fmt::Formatter::new(Bare { f });
    let result = bare.write(value);
    // Does nothing at run time: the proof learns from it what `f` holds.
    let _behind = bare.into_inner().f;
    result
}
