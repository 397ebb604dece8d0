//! The numbers of digits, with their limits.

ghost use Rattle.std.specs.Prelude.{◌≡◌, ◌<◌, ◌^◌, suc, negsuc, FitsSigned, decimal};
ghost use Rattle.std.specs.Int.{w64};
ghost use Rattle.winnow_count.specs.Reading.{IsSomeExactly};
ghost use Rattle.format_resp.specs.Language.{IsInteger, IsLength};
ghost use Rattle.format_resp.specs.Numbers.{is_plain, HasDigit, AreDigitsOf};
ghost use Rattle.format_resp.specs.Numbers.{IsNegative, IsPositive};

// Returns whether a text has neither a plus nor a 0 before other digits.
fn is_plain(text: &[u8]) -> bool
    ensures { result ≡ is_plain text.now }
{
    match text.split_first() {
        Some((first, rest)) => *first != b'+' && (*first != b'0' || rest.is_empty()),
        None => false,
    }
}

// Returns the number with one digit more, if the byte is a digit and a `usize` has the number.
fn with_digit(number: usize, byte: u8) -> Option<usize>
    ensures { IsSomeExactly (HasDigit number byte) result }
{
    if byte < b'0' || byte > b'9' {
        return None;
    }
    let digit = (byte - b'0') as usize;
    match number.checked_mul(10) {
        Some(tens) => tens.checked_add(digit),
        None => None,
    }
}

// Returns the number that decimal digits write, if a `usize` has it. A length has few digits, and
// to look first whether they are UTF-8, as std's reading of a `&str` asks, takes as long again.
fn digits_in(text: &[u8]) -> Option<usize>
    ensures { IsSomeExactly (AreDigitsOf text.now) result }
{
    let mut number = 0;
    for byte in text {
        match with_digit(number, *byte) {
            Some(longer) => number = longer,
            None => return None,
        }
    }
    Some(number)
}

/// Returns the number that a text writes as std does, if a `usize` has it.
pub(crate) fn number_in(text: &[u8]) -> Option<usize>
    ensures { IsSomeExactly (λ n. (n < 2 ^ 64) × (text.now ≡ decimal n)) result }
{
    if !is_plain(text) {
        return None;
    }
    digits_in(text)
}

// Returns the negative of a number that is not 0, if an `i64` has it.
fn negative(number: usize) -> Option<i64>
    ensures { IsSomeExactly (IsNegative number) result }
{
    if number == 0 {
        return None;
    }
    let above = i64::try_from(number - 1).ok()?;
    Some(-above - 1)
}

// Returns a number, if an `i64` has it.
fn positive(number: usize) -> Option<i64>
    ensures { IsSomeExactly (IsPositive number) result }
{
    i64::try_from(number).ok()
}

/// Returns the integer that a text writes as std does, if an `i64` has it.
pub(crate) fn integer_in(text: &[u8]) -> Option<i64>
    ensures { IsSomeExactly (IsInteger text.now) result }
{
    let Some((first, digits)) = text.split_first() else {
        return None;
    };
    if *first == b'-' {
        let Some(number) = number_in(digits) else {
            return None;
        };
        return negative(number);
    }
    let Some(number) = number_in(text) else {
        return None;
    };
    positive(number)
}

/// Returns the length that a text writes, if it is at most `greatest`, or `Some(None)` for `-1`.
pub(crate) fn length_in(text: &[u8], greatest: usize) -> Option<Option<usize>>
    ensures { IsSomeExactly (IsLength greatest text.now) result }
{
    if text == b"-1".as_slice() {
        return Some(None);
    }
    let Some(number) = number_in(text) else {
        return None;
    };
    if number > greatest {
        return None;
    }
    Some(Some(number))
}
