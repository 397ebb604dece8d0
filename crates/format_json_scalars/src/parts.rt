//! The parts of a number, byte by byte.

ghost use Rattle.std.specs.Prelude.{◌≡◌};
ghost use Rattle.format_json_scalars.specs.Numbers.{IsNumber, BeginsNumber, Tells};
ghost use Rattle.format_json_scalars.specs.Parts.{whole_part, letter_part, tail_part, power_part};
ghost use Rattle.format_json_scalars.specs.Parts.{next_part, run, is_last, is_wrong};
ghost use Rattle.format_json_scalars.specs.declared.parts.Part.TheVariants.{Begin};

// The part of a number to which a byte belongs.
#[derive(Clone, Copy, Debug, Drop, PartialEq, Eq)]
enum Part {
    // No byte was read
    Begin,
    // The minus before the whole part
    Minus,
    // The 0 that is a whole part
    Nought,
    // A digit of another whole part
    Whole,
    // The point before the fraction
    Point,
    // A digit of the fraction
    Fraction,
    // The letter before the power
    Letter,
    // The sign of the power
    Sign,
    // A digit of the power
    Exponent,
    // The bytes begin no number
    Wrong,
}

// Returns the part that the first byte of a whole part makes.
fn whole_part(byte: u8) -> Part
    ensures { result ≡ whole_part byte }
{
    if byte == b'0' {
        return Part::Nought;
    }
    if byte.is_ascii_digit() {
        return Part::Whole;
    }
    Part::Wrong
}

// Returns the part that a byte makes after a fraction, unless it is one more digit.
fn letter_part(byte: u8) -> Part
    ensures { result ≡ letter_part byte }
{
    if byte == b'e' || byte == b'E' {
        return Part::Letter;
    }
    Part::Wrong
}

// Returns the part that a byte begins after the integer part of a number: the point of a
// fraction, or the letter of an exponent. A digit comes here only after a leading 0, and is
// `Wrong`, since JSON has no leading zeros.
fn tail_part(byte: u8) -> Part
    ensures { result ≡ tail_part byte }
{
    if byte == b'.' {
        return Part::Point;
    }
    letter_part(byte)
}

// Returns the part that a byte makes where a digit of a power may stand.
fn power_part(byte: u8) -> Part
    ensures { result ≡ power_part byte }
{
    if byte.is_ascii_digit() {
        return Part::Exponent;
    }
    Part::Wrong
}

// Returns the part that a byte makes after another part.
fn next_part(part: Part, byte: u8) -> Part
    ensures { result ≡ next_part part byte }
{
    let is_digit = byte.is_ascii_digit();
    match part {
        Part::Begin if byte == b'-' => Part::Minus,
        Part::Begin | Part::Minus => whole_part(byte),
        Part::Whole if is_digit => Part::Whole,
        Part::Nought | Part::Whole => tail_part(byte),
        Part::Point | Part::Fraction if is_digit => Part::Fraction,
        Part::Point => Part::Wrong,
        Part::Fraction => letter_part(byte),
        Part::Letter if byte == b'+' || byte == b'-' => Part::Sign,
        Part::Letter | Part::Sign | Part::Exponent => power_part(byte),
        Part::Wrong => Part::Wrong,
    }
}

// Returns whether a number may end with the part.
fn is_last(part: Part) -> bool
    ensures { result ≡ is_last part }
{
    match part {
        Part::Nought | Part::Whole | Part::Fraction | Part::Exponent => true,
        _ => false,
    }
}

// Returns whether bytes with this last part begin no number.
fn is_wrong(part: Part) -> bool
    ensures { result ≡ is_wrong part }
{
    match part {
        Part::Wrong => true,
        _ => false,
    }
}

// Returns the part of the last byte.
fn last_part(text: &[u8]) -> Part
    ensures { result ≡ run Begin text.now }
{
    let mut part = Part::Begin;
    for byte in text {
        part = next_part(part, *byte);
    }
    part
}

/// Returns whether the text is a number.
pub fn is_number(text: &[u8]) -> bool
    ensures { Tells result (IsNumber text.now) }
{
    is_last(last_part(text))
}

/// Returns whether more bytes can make the text a number.
pub fn begins_number(text: &[u8]) -> bool
    ensures { Tells result (BeginsNumber text.now) }
{
    !is_wrong(last_part(text))
}
