//! Escapes of strings, with pairs of surrogates.

ghost use Rattle.std.specs.Prelude.{◌≡◌, ◌∷◌, get_or, MatchOption};
ghost use Rattle.std.specs.Char.{digit_value};
ghost use Rattle.format_json_scalars.specs.Numbers.{Tells};
ghost use Rattle.format_json_scalars.specs.Strings.{AreHex, hex_number, escaped, IsHigh, IsLow};
ghost use Rattle.format_json_scalars.specs.Escapes.{IsEscape, IsPair, FillsLow, low_number};
ghost use Rattle.format_json_scalars.specs.Escapes.{FillsCode, code_number};

// What bytes that begin with a backslash are.
#[derive(Clone, Copy, Debug, Drop, PartialEq, Eq)]
pub(crate) enum Escape {
    // An escape of this character, and the number of its bytes
    Whole(char, usize),
    // Bytes that more bytes can make an escape
    Begun,
    // Bytes that no more bytes make an escape
    Wrong,
}

/// Returns the value of a hexadecimal digit, or more than 15 if the byte is none.
pub fn digit_value(byte: u8) -> u32
    ensures { result ≡ digit_value byte }
{
    match byte {
        b'0'..=b'9' => (byte - b'0') as u32,
        b'A'..=b'Z' => (byte - b'A') as u32 + 10,
        b'a'..=b'z' => (byte - b'a') as u32 + 10,
        _ => 36,
    }
}

// Returns the number that four hexadecimal digits write, if all of them are such digits.
fn hex_number(a: u8, b: u8, c: u8, d: u8) -> Option<u32>
    ensures { MatchOption result (¬ (AreHex a b c d))
        (λ n. AreHex a b c d × (n ≡ hex_number a b c d)) }
{
    let a = digit_value(a);
    let b = digit_value(b);
    let c = digit_value(c);
    let d = digit_value(d);
    if a < 16 && b < 16 && c < 16 && d < 16 {
        return Some(a * 4096 + b * 256 + c * 16 + d);
    }
    None
}

/// Returns the byte at the index, or the other one after the end.
pub fn byte_or(bytes: &[u8], index: usize, other: u8) -> u8
    ensures { result ≡ get_or bytes.now index other }
{
    match bytes.get(index) {
        Some(byte) => *byte,
        None => other,
    }
}

// Returns the character for which a letter after a backslash stands.
fn escaped(letter: u8) -> Option<char>
    ensures { result ≡ escaped letter }
{
    match letter {
        b'"' | b'\\' | b'/' => Some(letter as char),
        b'b' => Some('\u{8}'),
        b'f' => Some('\u{c}'),
        b'n' => Some('\n'),
        b'r' => Some('\r'),
        b't' => Some('\t'),
        _ => None,
    }
}

// Returns whether the number is that of the second of two surrogates.
fn is_low(number: u32) -> bool
    ensures { Tells result (IsLow number) }
{
    0xDC00 <= number && number <= 0xDFFF
}

// Returns the number of a second surrogate that the bytes write. Bytes that are missing are taken
// to be those of one that may stand there: so the bytes that are there begin one if these do.
fn low_number(rest: &[u8]) -> Option<u32>
    ensures { MatchOption result (¬ (FillsLow rest.now))
        (λ n. FillsLow rest.now × (n ≡ low_number rest.now)) }
{
    if byte_or(rest, 0, b'\\') != b'\\' {
        return None;
    }
    if byte_or(rest, 1, b'u') != b'u' {
        return None;
    }
    let number = hex_number(
        byte_or(rest, 2, b'D'),
        byte_or(rest, 3, b'C'),
        byte_or(rest, 4, b'0'),
        byte_or(rest, 5, b'0'),
    );
    match number {
        Some(number) if is_low(number) => Some(number),
        Some(_) => None,
        None => None,
    }
}

// Returns what the bytes after an escape of the first of two surrogates make of it.
fn pair_escape(high: u32, rest: &[u8]) -> Escape
    requires { IsHigh high }
    ensures { IsPair high rest.now result }
{
    match low_number(rest) {
        None => Escape::Wrong,
        Some(_) if rest.len() < 6 => Escape::Begun,
        Some(low) => match char::from_u32(0x10000 + (high - 0xD800) * 1024 + (low - 0xDC00)) {
            Some(pair) => Escape::Whole(pair, 12),
            None => unreachable!(),
        },
    }
}

// Returns the number that the digits after `\u` write, unless it is that of a second surrogate.
// Digits that are missing are taken to be zeros.
fn code_number(rest: &[u8]) -> Option<u32>
    ensures { MatchOption result (¬ (FillsCode rest.now))
        (λ n. FillsCode rest.now × (n ≡ code_number rest.now)) }
{
    let number = hex_number(
        byte_or(rest, 0, b'0'),
        byte_or(rest, 1, b'0'),
        byte_or(rest, 2, b'0'),
        byte_or(rest, 3, b'0'),
    );
    match number {
        Some(number) if is_low(number) => None,
        Some(number) => Some(number),
        None => None,
    }
}

// Returns what the bytes after `\u` make of it.
fn code_escape(rest: &[u8]) -> Escape
    ensures { IsEscape (92 ∷ 117 ∷ rest.now) result }
{
    let Some(code) = code_number(rest) else {
        return Escape::Wrong;
    };
    if rest.len() < 4 {
        return Escape::Begun;
    }
    if 0xD800 <= code && code <= 0xDBFF {
        return pair_escape(code, &rest[4..]);
    }
    match char::from_u32(code) {
        Some(code) => Escape::Whole(code, 6),
        None => unreachable!(),
    }
}

// Returns what the bytes after a backslash make of it.
pub(crate) fn escape_at(rest: &[u8]) -> Escape
    ensures { IsEscape (92 ∷ rest.now) result }
{
    if rest.is_empty() {
        return Escape::Begun;
    }
    let letter = rest[0];
    if letter == b'u' {
        return code_escape(&rest[1..]);
    }
    match escaped(letter) {
        Some(character) => Escape::Whole(character, 2),
        None => Escape::Wrong,
    }
}
