//! The first line of some bytes.

ghost use Rattle.std.specs.Prelude.{◌≡◌, ◌++◌, ◌∷◌, IfSome, IfNone};
ghost use Rattle.wb_json.specs.Texts.{IsLine};

use memchr::memchr;

/// Returns the bytes before the first line feed and those after it, or `None` if there is none.
pub fn split_line<'a>(bytes: &'a [u8]) -> Option<(&'a [u8], &'a [u8])>
    ensures some { IfSome result (λ parts. IsLine parts.0.now
        × (bytes.now ≡ parts.0.now ++ 10 ∷ parts.1.now)) }
    ensures none { IfNone result (IsLine bytes.now) }
{
    match memchr(b'\n', bytes) {
        Some(end) => {
            let (line, rest) = bytes.split_at(end);
            Some((line, &rest[1..]))
        }
        None => None,
    }
}
