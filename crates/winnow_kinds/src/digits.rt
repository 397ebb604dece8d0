//! The hexadecimal digit of a value: `hex_digit`.

ghost use Rattle.std.specs.Prelude.{◌≡◌, ◌<◌};
ghost use Rattle.std.specs.Fmt.{digit_glyph};

/// Returns the hexadecimal digit of a value, as a capital letter if `upper` is set.
#[doc(hidden)]
pub fn hex_digit(value: u8, upper: bool) -> u8
    requires { value < 16 }
    ensures { result ≡ digit_glyph upper value }
{
    if value < 10 {
        b'0' + value
    } else if upper {
        b'A' - 10 + value
    } else {
        b'a' - 10 + value
    }
}
