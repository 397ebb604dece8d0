//! Literals that are compared without regard to the case of ASCII letters: `Caseless`.

ghost use Rattle.std.specs.Prelude.{◌≡◌, ◌≤◌, [], ◌∷◌, length, IsTrue};
ghost use Rattle.std.specs.Char.{encode_utf8};
ghost use Rattle.std.specs.Str.{str_to_ascii_lowercase};
ghost use Rattle.winnow_match.specs.Bytes.{bytes_of, utf8_of};
ghost use Rattle.winnow_match.specs.Caseless.{caseless, ComparisonsStay-caseless};
ghost use Rattle.winnow_match.specs.Comparison.{is_prefix};

use crate::{Compare, CompareResult};

/// A literal that is compared without regard to the case of ASCII letters: `Caseless("select")`
/// stands where `SELECT` does. Other characters are compared as they are.
#[derive(Clone, Copy, Debug, Drop)]
pub struct Caseless<T>(pub T);

// Returns whether the prefix is a front of the input, but for the case of ASCII letters.
#[inline(always)]
fn begins_with_caseless(input: &[u8], prefix: &[u8]) -> bool
    ensures { result ≡ is_prefix
        (str_to_ascii_lowercase prefix.now) (str_to_ascii_lowercase input.now) }
{
    if input.len() < prefix.len() {
        return false;
    }
    prefix.eq_ignore_ascii_case(&input[..prefix.len()])
}

// Compares the literal with the front of the input, but for the case of ASCII letters.
#[inline(always)]
#[tactic(auto, using(crate::proofs::lemmas::CaselessLemmas::caseless_comparisons))]
fn compare_caseless(input: &[u8], literal: &[u8]) -> CompareResult
    ensures { result ≡ caseless literal.now input.now }
{
    if begins_with_caseless(input, literal) {
        CompareResult::Ok(literal.len())
    } else if begins_with_caseless(literal, input) {
        CompareResult::Incomplete
    } else {
        CompareResult::Error
    }
}

#[tactic(auto, using(crate::proofs::lemmas::CaselessLemmas::caseless_answers))]
impl<'i, 'l> Compare<Caseless<&'l [u8]>> for &'i [u8] {
    ghost compared = { λ literal r. caseless literal.0.now (bytes_of r) };

    ghost literal_width = { λ literal. length literal.0.now };

    ghost comparisons_stay = { λ literal.
        ComparisonsStay-caseless (λ byte. byte ∷ []) literal.0.now };

    #[inline(always)]
    fn compare(&self, literal: Caseless<&'l [u8]>) -> CompareResult {
        compare_caseless(self, literal.0)
    }
}

#[tactic(auto, using(crate::proofs::lemmas::CaselessLemmas::caseless_answers))]
impl<'i, 'l> Compare<Caseless<&'l str>> for &'i [u8] {
    ghost compared = { λ literal r. caseless literal.0.now (bytes_of r) };

    ghost literal_width = { λ literal. length literal.0.now };

    ghost comparisons_stay = { λ literal.
        ComparisonsStay-caseless (λ byte. byte ∷ []) literal.0.now };

    #[inline(always)]
    fn compare(&self, literal: Caseless<&'l str>) -> CompareResult {
        compare_caseless(self, literal.0.as_bytes())
    }
}

/// The character is compared in its UTF-8 form.
#[tactic(auto, using(crate::proofs::lemmas::CaselessLemmas::caseless_answers))]
impl<'i> Compare<Caseless<char>> for &'i [u8] {
    ghost compared = { λ literal r. caseless (encode_utf8 literal.0) (bytes_of r) };

    ghost literal_width = { λ literal. length (encode_utf8 literal.0) };

    ghost comparisons_stay = { λ literal.
        ComparisonsStay-caseless (λ byte. byte ∷ []) (encode_utf8 literal.0) };

    #[inline(always)]
    fn compare(&self, literal: Caseless<char>) -> CompareResult {
        let mut buffer = [0; 4];
        compare_caseless(self, literal.0.encode_utf8(&mut buffer).as_bytes())
    }
}

#[tactic(auto, using(crate::proofs::lemmas::CaselessLemmas::caseless_answers))]
impl<'i, 'l> Compare<Caseless<&'l str>> for &'i str {
    ghost compared = { λ literal r. caseless literal.0.now (utf8_of r) };

    ghost literal_width = { λ literal. length literal.0.now };

    ghost comparisons_stay = { λ literal. ComparisonsStay-caseless encode_utf8 literal.0.now };

    #[inline(always)]
    fn compare(&self, literal: Caseless<&'l str>) -> CompareResult {
        compare_caseless((*self).as_bytes(), literal.0.as_bytes())
    }
}

#[tactic(auto, using(crate::proofs::lemmas::CaselessLemmas::caseless_answers))]
impl<'i> Compare<Caseless<char>> for &'i str {
    ghost compared = { λ literal r. caseless (encode_utf8 literal.0) (utf8_of r) };

    ghost literal_width = { λ literal. length (encode_utf8 literal.0) };

    ghost comparisons_stay = { λ literal.
        ComparisonsStay-caseless encode_utf8 (encode_utf8 literal.0) };

    #[inline(always)]
    fn compare(&self, literal: Caseless<char>) -> CompareResult {
        let mut buffer = [0; 4];
        compare_caseless(
            (*self).as_bytes(),
            literal.0.encode_utf8(&mut buffer).as_bytes(),
        )
    }
}
