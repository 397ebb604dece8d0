//! The bytes that end a field without quotes.

ghost use Rattle.std.specs.Prelude.{◌≡◌, ◌≤◌, length, take, drop};
ghost use Rattle.memchr.specs.Find.{IsFirstByte};
ghost use Rattle.format_lemmas.specs.Bytes.{Each, Starts};
ghost use Rattle.format_csv.specs.Fields.{is_special as special, is_plain};

// Returns how many bytes come before the first that is special.
pub(crate) fn plain_length(bytes: &[u8]) -> usize
    ensures bound { result ≤ length bytes.now }
    ensures plain { Each is_plain (take result bytes.now) }
    ensures ends { ¬ (Starts is_plain (drop result bytes.now)) }
{
    match first_special(bytes) {
        Some(length) => length,
        None => bytes.len(),
    }
}

// Returns where the first special byte is.
fn first_special(bytes: &[u8]) -> Option<usize>
    ensures { IsFirstByte special bytes.now result }
{
    for index in 0..bytes.len() {
        if is_special(bytes[index]) {
            return Some(index);
        }
    }
    None
}

// Returns whether a byte is a quote, a comma, CR or LF.
fn is_special(byte: u8) -> bool
    ensures { result ≡ special byte }
{
    matches!(byte, b'"' | b',' | b'\r' | b'\n')
}
