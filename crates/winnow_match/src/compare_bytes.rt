//! `Compare` for slices of bytes.

ghost use Rattle.std.specs.Prelude.{◌≡◌, ◌≤◌, [], ◌∷◌, length, IsTrue};
ghost use Rattle.std.specs.Char.{encode_utf8};
ghost use Rattle.winnow_match.specs.Bytes.{bytes_of};
ghost use Rattle.winnow_match.specs.Comparison.{is_prefix, comparison};
ghost use Rattle.winnow_match.specs.Staying.{ComparisonsStay-written};
ghost use Rattle.winnow_match.specs.declared.compare.CompareResult.{CompareResult};

use crate::{Compare, CompareResult};

// The length up to which bytes are compared one by one.
const SHORT: usize = 16;

// Returns whether the prefix is a front of the input, which is at least as long.
// Inlined: where the length of a literal is known, no loop is left.
#[inline(always)]
fn begins_with_short(input: &[u8], prefix: &[u8]) -> bool
    requires { length prefix.now ≤ length input.now }
    ensures { result ≡ is_prefix prefix.now input.now }
{
    for at in 0..prefix.len() {
        if prefix[at] != input[at] {
            return false;
        }
    }
    true
}

// Returns whether the prefix is a front of the input. `==` takes a call, which a short prefix does
// without; and on those longer it is quicker than `starts_with`.
#[inline(always)]
#[tactic(auto, using(crate::proofs::lemmas::ByteFrontLemmas::front_tests))]
pub(crate) fn begins_with(input: &[u8], prefix: &[u8]) -> bool
    ensures value { result ≡ is_prefix prefix.now input.now }
    ensures fits { IsTrue result → length prefix.now ≤ length input.now }
{
    if input.len() < prefix.len() {
        return false;
    }
    if prefix.len() <= SHORT {
        return begins_with_short(input, prefix);
    }
    prefix == &input[..prefix.len()]
}

// Whether both have a first byte, and these two differ.
#[inline(always)]
fn first_bytes_differ(input: &[u8], literal: &[u8]) -> bool
    ensures { IsTrue result → comparison literal.now input.now ≡ CompareResult.Error }
{
    !input.is_empty() && !literal.is_empty() && input[0] != literal[0]
}

// Compares the literal with the front of the input, in one pass. Most comparisons end at the first
// byte, before a call.
#[inline(always)]
pub(crate) fn compare_front(input: &[u8], literal: &[u8]) -> CompareResult
    ensures { result ≡ comparison literal.now input.now }
{
    if first_bytes_differ(input, literal) {
        return CompareResult::Error;
    }
    compare_whole(input, literal)
}

// Compares them without the test of the first byte.
#[inline(always)]
#[tactic(auto, using(crate::proofs::lemmas::ComparisonLemmas::comparisons))]
fn compare_whole(input: &[u8], literal: &[u8]) -> CompareResult
    ensures { result ≡ comparison literal.now input.now }
{
    if begins_with(input, literal) {
        CompareResult::Ok(literal.len())
    } else if input.len() < literal.len() && begins_with(literal, input) {
        CompareResult::Incomplete
    } else {
        CompareResult::Error
    }
}

#[tactic(auto, using(crate::proofs::lemmas::AnswerLemmas::source_answers))]
impl<'i, 'l> Compare<&'l [u8]> for &'i [u8] {
    ghost compared = { λ literal r. comparison literal.now (bytes_of r) };

    ghost literal_width = { λ literal. length literal.now };

    ghost comparisons_stay = { λ literal. ComparisonsStay-written (λ byte. byte ∷ []) literal.now };

    // Inlined, as all comparisons here: the length of a literal is known where it is written.
    #[inline(always)]
    fn compare(&self, literal: &'l [u8]) -> CompareResult {
        compare_front(self, literal)
    }
}

#[tactic(auto, using(crate::proofs::lemmas::AnswerLemmas::source_answers))]
impl<'i, const LEN: usize> Compare<[u8; LEN]> for &'i [u8] {
    ghost compared = { λ literal r. comparison literal (bytes_of r) };

    ghost literal_width = { λ literal. length literal };

    ghost comparisons_stay = { λ literal. ComparisonsStay-written (λ byte. byte ∷ []) literal };

    #[inline(always)]
    fn compare(&self, literal: [u8; LEN]) -> CompareResult {
        compare_front(self, &literal)
    }
}

#[tactic(auto, using(crate::proofs::lemmas::AnswerLemmas::source_answers))]
impl<'i, 'l, const LEN: usize> Compare<&'l [u8; LEN]> for &'i [u8] {
    ghost compared = { λ literal r. comparison literal.now (bytes_of r) };

    ghost literal_width = { λ literal. length literal.now };

    ghost comparisons_stay = { λ literal. ComparisonsStay-written (λ byte. byte ∷ []) literal.now };

    #[inline(always)]
    fn compare(&self, literal: &'l [u8; LEN]) -> CompareResult {
        compare_front(self, literal)
    }
}

#[tactic(auto, using(crate::proofs::lemmas::AnswerLemmas::source_answers))]
impl<'i, 'l> Compare<&'l str> for &'i [u8] {
    ghost compared = { λ literal r. comparison literal.now (bytes_of r) };

    ghost literal_width = { λ literal. length literal.now };

    ghost comparisons_stay = { λ literal. ComparisonsStay-written (λ byte. byte ∷ []) literal.now };

    #[inline(always)]
    fn compare(&self, literal: &'l str) -> CompareResult {
        compare_front(self, literal.as_bytes())
    }
}

#[tactic(auto, using(crate::proofs::lemmas::AnswerLemmas::source_answers))]
impl<'i> Compare<u8> for &'i [u8] {
    ghost compared = { λ literal r. comparison (literal ∷ []) (bytes_of r) };

    ghost literal_width = { λ _. 1 };

    ghost comparisons_stay = { λ literal.
        ComparisonsStay-written (λ byte. byte ∷ []) (literal ∷ []) };

    #[inline(always)]
    fn compare(&self, literal: u8) -> CompareResult {
        compare_front(self, &[literal])
    }
}

/// The character is compared in its UTF-8 form.
#[tactic(auto, using(crate::proofs::lemmas::AnswerLemmas::source_answers))]
impl<'i> Compare<char> for &'i [u8] {
    ghost compared = { λ literal r. comparison (encode_utf8 literal) (bytes_of r) };

    ghost literal_width = { λ literal. length (encode_utf8 literal) };

    ghost comparisons_stay = { λ literal.
        ComparisonsStay-written (λ byte. byte ∷ []) (encode_utf8 literal) };

    #[inline(always)]
    fn compare(&self, literal: char) -> CompareResult {
        let mut buffer = [0; 4];
        compare_front(self, literal.encode_utf8(&mut buffer).as_bytes())
    }
}
