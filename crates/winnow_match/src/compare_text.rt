//! `Compare` for texts.

ghost use Rattle.std.specs.Prelude.{length};
ghost use Rattle.std.specs.Char.{encode_utf8};
ghost use Rattle.winnow_match.specs.Bytes.{utf8_of};
ghost use Rattle.winnow_match.specs.Comparison.{comparison};
ghost use Rattle.winnow_match.specs.Staying.{ComparisonsStay-written};

use crate::compare_bytes::compare_front;
use crate::{Compare, CompareResult};

#[tactic(auto, using(crate::proofs::lemmas::AnswerLemmas::source_answers))]
impl<'i, 'l> Compare<&'l str> for &'i str {
    ghost compared = { λ literal r. comparison literal.now (utf8_of r) };

    ghost literal_width = { λ literal. length literal.now };

    ghost comparisons_stay = { λ literal. ComparisonsStay-written encode_utf8 literal.now };

    #[inline(always)]
    fn compare(&self, literal: &'l str) -> CompareResult {
        compare_front((*self).as_bytes(), literal.as_bytes())
    }
}

#[tactic(auto, using(crate::proofs::lemmas::AnswerLemmas::source_answers))]
impl<'i> Compare<char> for &'i str {
    ghost compared = { λ literal r. comparison (encode_utf8 literal) (utf8_of r) };

    ghost literal_width = { λ literal. length (encode_utf8 literal) };

    ghost comparisons_stay = { λ literal.
        ComparisonsStay-written encode_utf8 (encode_utf8 literal) };

    #[inline(always)]
    fn compare(&self, literal: char) -> CompareResult {
        let mut buffer = [0; 4];
        compare_front(
            (*self).as_bytes(),
            literal.encode_utf8(&mut buffer).as_bytes(),
        )
    }
}
