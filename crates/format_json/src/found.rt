//! Blanks, and the next byte after them.

ghost use Rattle.std.specs.Prelude.{◌≡◌, ◌≤◌, length, drop};
ghost use Rattle.format_json.specs.Language.{is_blank, after_blanks, WordAhead};
ghost use Rattle.format_json.specs.Founds.{IsFound, IsNext, IsByte};
ghost use Rattle.format_json.specs.Damage.{ByteIsMissing, IsPlaced};
ghost use Rattle.format_json.specs.Begun.{BeginsWord, IsOpen};

// What some bytes begin with.
#[derive(Debug, Drop)]
pub(crate) enum Found<T> {
    // This value, and the number of its bytes
    Whole(T, usize),
    // The bytes end too early, and more may follow
    Begun,
    // No value, no matter what follows, and the number of bytes before the place that is wrong
    Damaged(usize),
}

// What follows an element of an array, or a member of an object.
#[derive(Clone, Copy, Debug, Drop)]
pub(crate) enum Next {
    // A comma, and the number of bytes up to its end
    More(usize),
    // The closing bracket, and the number of bytes up to its end
    Closed(usize),
    // The bytes end too early, and more may follow
    Begun,
    // Neither, no matter what follows, and the number of bytes before the place that is wrong
    Damaged(usize),
}

/// Returns whether the byte is a blank, which may stand around each token.
pub(crate) fn is_blank(byte: u8) -> bool
    ensures { result ≡ is_blank byte }
{
    byte <= b' ' && matches!(byte, b' ' | b'\t' | b'\n' | b'\r')
}

/// Returns the number of blanks with which the bytes begin.
#[doc(hidden)]
pub fn blank_count(bytes: &[u8]) -> usize
    ensures within { result ≤ length bytes.now }
    ensures rest { drop result bytes.now ≡ after_blanks bytes.now }
{
    for (index, byte) in bytes.iter().enumerate() {
        if !is_blank(*byte) {
            return index;
        }
    }
    bytes.len()
}

// Returns whether the bytes begin with a word.
#[inline(always)]
pub(crate) fn word_at(bytes: &[u8], partial: bool, word: &[u8]) -> Found<()>
    ensures found { IsFound (WordAhead word.now) partial bytes.now result }
    ensures place { IsPlaced (λ whole rest. rest ≡ whole) bytes.now result }
    ensures begun { IsOpen (BeginsWord word.now) bytes.now result }
{
    for (index, byte) in word.iter().enumerate() {
        if index == bytes.len() {
            if partial {
                return Found::Begun;
            }
            return Found::Damaged(0);
        }
        if bytes[index] != *byte {
            return Found::Damaged(0);
        }
    }
    Found::Whole((), word.len())
}

// Returns whether this byte is the first after blanks.
pub(crate) fn byte_at(bytes: &[u8], partial: bool, byte: u8) -> Found<()>
    ensures found { IsByte byte partial bytes.now result }
    ensures place { IsPlaced (ByteIsMissing byte) bytes.now result }
{
    let at = blank_count(bytes);
    if at == bytes.len() {
        if partial {
            return Found::Begun;
        }
        return Found::Damaged(at);
    }
    if bytes[at] == byte {
        return Found::Whole((), at + 1);
    }
    Found::Damaged(at)
}

// Returns whether a comma, or the closing bracket `close`, is the first byte after blanks.
pub(crate) fn next_at(bytes: &[u8], partial: bool, close: u8) -> Next
    ensures { IsNext close partial bytes.now result }
{
    let at = blank_count(bytes);
    if at == bytes.len() {
        if partial {
            return Next::Begun;
        }
        return Next::Damaged(at);
    }
    if bytes[at] == close {
        return Next::Closed(at + 1);
    }
    if bytes[at] == b',' {
        return Next::More(at + 1);
    }
    Next::Damaged(at)
}
