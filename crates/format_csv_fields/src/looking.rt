//! Looking at the text of a field, from where an earlier look stopped.

ghost use Rattle.std.specs.Prelude.{◌≡◌, ◌∷◌, ◌+◌, ℕ, List, true, false, drop, length as len};
ghost use Rattle.format_lemmas.specs.Bytes.{StartsWith};
ghost use Rattle.format_csv_fields.specs.Looking.{IsLooked, IsText, looked_at as seen};
ghost use Rattle.format_csv_fields.specs.declared.looking.Looked.TheVariants.{Plain, Quoted};

use crate::special::plain_length;
use memchr::memchr;

/// How far a field was looked at.
#[derive(Clone, Copy, Debug, Drop)]
pub(crate) enum Looked {
    /// This number of bytes are plain
    Plain(usize),
    /// This number of bytes are an opening quote and bytes of the value, in which a quote is
    /// doubled or not
    Quoted(usize, bool),
}

/// The text of a field.
#[derive(Clone, Copy, Debug, Drop)]
pub(crate) enum Text {
    /// This number of plain bytes
    Plain(usize),
    /// An opening quote and all bytes up to the closing quote, which stands at this index; a quote
    /// between them is doubled or not
    Quoted(usize, bool),
    /// An opening quote and all other bytes, in which a quote is doubled or not
    Open(bool),
}

// Returns the text of the field with which the bytes begin.
pub(crate) fn look(bytes: &[u8], looked: Looked) -> Text
    requires { IsLooked bytes.now looked }
    ensures { IsText bytes.now result }
{
    match looked {
        Looked::Plain(at) => look_plain(bytes, at),
        Looked::Quoted(at, doubled) => look_quoted(bytes, at, doubled),
    }
}

// Returns the text of a field of which this number of plain bytes was looked at.
fn look_plain(bytes: &[u8], at: usize) -> Text
    requires { IsLooked bytes.now (Plain at) }
    ensures { IsText bytes.now result }
{
    if at == 0 {
        return look_anew(bytes);
    }
    Text::Plain(at + plain_length(&bytes[at..]))
}

// Returns the text of a field of which nothing was looked at.
fn look_anew(bytes: &[u8]) -> Text
    ensures { IsText bytes.now result }
{
    if has_quote(bytes, 0) {
        return look_quoted(bytes, 1, false);
    }
    Text::Plain(plain_length(bytes))
}

// Returns the text of a field between quotes.
fn look_quoted(bytes: &[u8], looked: usize, doubled_before: bool) -> Text
    requires { IsLooked bytes.now (Quoted looked doubled_before) }
    ensures { IsText bytes.now result }
{
    let mut at = looked;
    let mut doubled = doubled_before;
    loop {
        let Some(length) = memchr(b'"', &bytes[at..]) else {
            return Text::Open(doubled);
        };
        let close = at + length;
        if !has_quote(bytes, close + 1) {
            return Text::Quoted(close, doubled);
        }
        at = close + 2;
        doubled = true;
    }
}

// Returns how far the bytes are looked at whose text this is.
pub(crate) fn looked_at(text: Text, length: usize) -> Looked
    ensures { (bytes : List ℕ) → len bytes ≡ length → result ≡ seen bytes text }
{
    match text {
        Text::Plain(at) => Looked::Plain(at),
        Text::Quoted(at, doubled) => Looked::Quoted(at, doubled),
        Text::Open(doubled) => Looked::Quoted(length, doubled),
    }
}

// Returns whether a quote stands at an index.
pub(crate) fn has_quote(bytes: &[u8], index: usize) -> bool
    ensures quote { result ≡ true → drop index bytes.now ≡ 34 ∷ drop (index + 1) bytes.now }
    ensures other { result ≡ false → ¬ (StartsWith 34 (drop index bytes.now)) }
{
    if index >= bytes.len() {
        return false;
    }
    bytes[index] == b'"'
}
