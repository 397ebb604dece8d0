//! The words of slices and of items in a line: `PushWords`.

ghost use Rattle.std.specs.Prelude.{◌≡◌, ◌++◌, ℕ, List, string_bytes, OnOk};
ghost use Rattle.winnow_match.specs.Bytes.{utf8_of};
ghost use Rattle.winnow_stream.specs.Text.{text_source};
ghost use Rattle.winnow_script_print.specs.AnswerLines.{bytes_word, place_word, item_words};

use std::alloc::AllocError;
use std::ops::Range;
use winnow_sets::AsChar;

/// A value that is printed after the word `slice`, `items` or `waits`, as words with a space before
/// each.
pub trait PushWords {
    // The words, with a space before each.
    ghost words: { Self → List ℕ };

    fn push_words(&self, text: &mut String) -> Result<(), AllocError>
        ensures { OnOk result (string_bytes text.new
            ≡ string_bytes text.old ++ words self.now) };
}

impl PushWords for &[u8] {
    ghost words = { λ bytes. bytes_word bytes.now };

    fn push_words(&self, text: &mut String) -> Result<(), AllocError> {
        if self.is_empty() {
            return text.push_str(" -");
        }
        let digits = hex::encode(*text.allocator(), *self)?;
        write!(text, " {digits}")
    }
}

// The words are stated in terms of the text's characters, since only these are known of a slice.
impl PushWords for &str {
    ghost words = { λ text. bytes_word (utf8_of (text_source text.now)) };

    fn push_words(&self, text: &mut String) -> Result<(), AllocError> {
        push_text(text, self)
    }
}

impl PushWords for Vec<u8> {
    ghost words = { λ bytes. bytes_word bytes.items };

    fn push_words(&self, text: &mut String) -> Result<(), AllocError> {
        self.as_slice().push_words(text)
    }
}

impl PushWords for String {
    ghost words = { λ text. bytes_word (string_bytes text) };

    fn push_words(&self, text: &mut String) -> Result<(), AllocError> {
        push_text(text, self.as_str())
    }
}

impl<T: AsChar + Copy> PushWords for Vec<(usize, T)> {
    ghost words = { λ items. item_words T.code items.items };

    fn push_words(&self, text: &mut String) -> Result<(), AllocError> {
        push_items(text, self.as_slice())
    }
}

impl PushWords for Range<usize> {
    ghost words = { place_word };

    fn push_words(&self, text: &mut String) -> Result<(), AllocError> {
        let start = self.start;
        let end = self.end;
        write!(text, " {start}..{end}")
    }
}

fn push_items<T: AsChar + Copy>(text: &mut String, items: &[(usize, T)]) -> Result<(), AllocError>
    ensures { OnOk result (string_bytes text.new
        ≡ string_bytes text.old ++ item_words T.code items.now) }
{
    for (offset, token) in items {
        let number = token.as_char() as u32;
        write!(text, " {offset}:{number}")?;
    }
    Ok(())
}

fn push_text(text: &mut String, word: &str) -> Result<(), AllocError>
    ensures bytes { OnOk result (string_bytes text.new
        ≡ string_bytes text.old ++ bytes_word word.now) }
    ensures chars { OnOk result (string_bytes text.new
        ≡ string_bytes text.old ++ bytes_word (utf8_of (text_source word.now))) }
{
    word.as_bytes().push_words(text)
}
