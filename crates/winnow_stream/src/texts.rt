//! Texts as streams of characters.

ghost use Rattle.std.specs.Prelude.{◌≡◌, false, [], ◌∷◌, ⊤, IsTrue, MatchOption, refl};
ghost use Rattle.std.specs.Str.{chars};
ghost use Rattle.std.specs.Char.{len_utf8};
ghost use Rattle.std.proofs.Common.{sym, ap};
ghost use Rattle.winnow_stream.specs.Checkpoint.{checkpoint_inner};
ghost use Rattle.winnow_stream.specs.Source.{width};
ghost use Rattle.winnow_stream.specs.Front.{front, back, is_offset};
ghost use Rattle.winnow_stream.specs.Longer.{SlicesStay-front};
ghost use Rattle.winnow_stream.specs.Text.{text_source, HasPositiveWidths-char_source};

use crate::{Checkpoint, Needed, Rest, Stream};
use std::str::CharIndices;

/// A text as a stream of characters.
pub type Str<'i> = &'i str;

// The width of a text: its length in bytes.
pub(crate) fn width_of(text: &str) -> usize
    ensures { result ≡ width (text_source text.now) }
{
    text.len()
}

// The first character of a text, and what follows it.
fn split_first_char(text: &str) -> Option<(char, &str)>
    ensures { MatchOption result (text_source text.now ≡ []) (λ p.
        text_source text.now ≡ (p.0, len_utf8 p.0) ∷ text_source p.1.now) }
{
    let mut chars = text.chars();
    let first = chars.next()?;
    Some((first, chars.as_str()))
}

// The front of a text of width `offset`, and what follows it.
fn split_at_offset(text: &str, offset: usize) -> (&str, &str)
    requires { IsTrue (is_offset (text_source text.now) offset) }
    ensures front { text_source result.0.now ≡ front (text_source text.now) offset }
    ensures back { text_source result.1.now ≡ back (text_source text.now) offset }
{
    text.split_at(offset)
}

impl Rest for &str {
    ghost rest_width = { λ s. width (text_source s.now) };
}

/// The remaining text is the whole state. A character's width is its length in UTF-8, and a
/// shortage is not counted.
impl<'i> Stream for &'i str {
    type Token = char;

    type Slice = &'i str;

    type IterOffsets = CharIndices<'i>;

    type Checkpoint = Checkpoint<&'i str, &'i str>;

    ghost remaining = { λ s. text_source s.now };

    ghost valid = { λ _. ⊤ };

    ghost remained = { λ c. text_source (checkpoint_inner c).now };

    ghost valid_checkpoint = { λ _. ⊤ };

    ghost is_slice = { λ s r n. text_source s.now ≡ front r n };

    ghost counts_shortage = { false };

    ghost keeps = { λ _ _. ⊤ };

    ghost slices_stay = { SlicesStay-front (λ s. text_source s.now) };

    ghost positive_widths = { λ s _. HasPositiveWidths-char_source (chars s.now) };

    ghost positive_widths_remained = { λ c _.
        HasPositiveWidths-char_source (chars (checkpoint_inner c).now) };

    ghost rest_width_remaining = { λ s _. refl };

    ghost rest_width_remained = { λ c _. refl };

    ghost same_rest_remaining = { λ s t e. ap (λ v. text_source v.now) (sym e) };

    ghost same_rest_valid = { λ _ _ _ _. tt };

    ghost keeps_reflexive = { λ _. tt };

    ghost keeps_transitive = { λ _ _ _ _ _. tt };

    fn iter_offsets(&self) -> CharIndices<'i> {
        self.char_indices()
    }

    fn eof_offset(&self) -> usize {
        width_of(self)
    }

    fn next_token(&mut self) -> Option<char> {
        let (token, rest) = split_first_char(self)?;
        *self = rest;
        Some(token)
    }

    fn peek_token(&self) -> Option<char> {
        let (token, _) = split_first_char(self)?;
        Some(token)
    }

    fn offset_at(&self, tokens: usize) -> Result<usize, Needed> {
        let mut count = 0;
        for (offset, _) in self.char_indices() {
            if count == tokens {
                return Ok(offset);
            }
            count += 1;
        }
        if count == tokens {
            Ok(self.eof_offset())
        } else {
            Err(Needed::Unknown)
        }
    }

    fn is_offset(&self, offset: usize) -> bool {
        self.is_char_boundary(offset)
    }

    fn next_slice(&mut self, offset: usize) -> &'i str {
        let (slice, rest) = split_at_offset(self, offset);
        *self = rest;
        slice
    }

    fn peek_slice(&self, offset: usize) -> &'i str {
        split_at_offset(self, offset).0
    }

    fn checkpoint(&self) -> Checkpoint<&'i str, &'i str> {
        Checkpoint::new(*self)
    }

    fn reset(&mut self, checkpoint: &Checkpoint<&'i str, &'i str>) {
        *self = *checkpoint.inner();
    }

    fn offset_since(&self, start: &Checkpoint<&'i str, &'i str>) -> usize {
        width_of(start.inner()) - width_of(self)
    }
}
