//! `Kept`, the trait of inputs that a feed keeps.

ghost use Rattle.std.specs.Prelude.{◌≡◌, ℕ, ◌-◌, ◌∷◌, [], List, length, if◌then◌else◌};
ghost use Rattle.std.specs.Prelude.{option_map, IfOk, OnErr, IsSome};
ghost use Rattle.std.proofs.Common.{sym};
ghost use Rattle.std.specs.Char.{encode_utf8};
ghost use Rattle.winnow_match.specs.Bytes.{written};
ghost use Rattle.winnow_sets.specs.Sets.{char_ranges, least_of_first};
ghost use Rattle.winnow_script_attempt.specs.Missing.{greatest_byte, greatest_char};

use crate::attempts::tokens_left;
use std::alloc::{AllocError, Global};
use winnow_sets::CharSet;
use winnow_stream::{Stream, StreamIsPartial};
use winnow_wrap::Partial;

/// The input that a feed has kept: a stream whose bytes can be read, with a flag that says whether
/// more may follow.
pub trait Kept: Stream + StreamIsPartial + Copy {
    // The bytes of a token.
    ghost write: { Self.Token → List ℕ };

    /// Returns the bytes that remain.
    fn bytes(&self) -> &[u8]
        requires { Self.valid self.now }
        ensures { result.now ≡ written write (Self.remaining self.now) };

    // The greatest number of a token, and the bytes of the token with a number.
    ghost greatest: { ℕ };

    ghost spell: { ℕ → List ℕ };

    /// Returns the bytes of the token that `least_of_first` gives for the set, or `None` if it
    /// gives none.
    fn spell_one(&self, alloc: Global, set: &CharSet) -> Result<Option<Vec<u8>>, AllocError>
        ensures told { IfOk result (λ one. option_map (λ bytes. bytes.items) one
            ≡ option_map spell (least_of_first greatest (char_ranges set.now))) }
        ensures refused { OnErr result (IsSome (least_of_first greatest (char_ranges set.now))) };

    /// Returns the number of letters that change the answer of a call that counts `asked` tokens,
    /// if fewer remain.
    fn letters_to(&self, asked: usize) -> usize
        requires { Self.valid self.now }
        ensures { result
            ≡ (if Self.counts_shortage then 1 else asked - length (Self.remaining self.now)) };

    // A call of the stream does not change the flag.
    ghost keeps_flag: { (s t : Self) → Self.keeps s t → Self.expects_more t ≡ Self.expects_more s };
}

#[tactic(auto, using(winnow_match::proofs::lemmas::ByteLemmas::source_bytes))]
impl<'b> Kept for Partial<&'b [u8]> {
    ghost write = { λ byte. byte ∷ [] };

    ghost greatest = { greatest_byte };

    ghost spell = { λ byte. byte ∷ [] };

    ghost keeps_flag = { λ s t kept. sym kept.0 };

    fn bytes(&self) -> &[u8] {
        (*self).into_inner()
    }

    fn spell_one(&self, alloc: Global, set: &CharSet) -> Result<Option<Vec<u8>>, AllocError> {
        match set.any_byte() {
            Some(byte) => Ok(Some(Vec::from_slice(alloc, &[byte])?)),
            None => Ok(None),
        }
    }

    fn letters_to(&self, _asked: usize) -> usize {
        1
    }
}

#[tactic(auto, using(winnow_match::proofs::lemmas::ByteLemmas::source_bytes))]
impl<'b> Kept for Partial<&'b str> {
    ghost write = { encode_utf8 };

    ghost greatest = { greatest_char };

    ghost spell = { encode_utf8 };

    ghost keeps_flag = { λ s t kept. sym kept.0 };

    fn bytes(&self) -> &[u8] {
        (*self).into_inner().as_bytes()
    }

    fn spell_one(&self, alloc: Global, set: &CharSet) -> Result<Option<Vec<u8>>, AllocError> {
        match set.any_char() {
            Some(c) => {
                let mut one = String::new(alloc);
                one.push(c)?;
                Ok(Some(one.into_bytes()))
            }
            None => Ok(None),
        }
    }

    fn letters_to(&self, asked: usize) -> usize {
        asked.saturating_sub(tokens_left(*self))
    }
}
