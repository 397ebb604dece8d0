//! `FindSlice` for texts, one `impl` for each kind of needle.

ghost use Rattle.std.specs.Prelude.{[], ◌∷◌};
ghost use Rattle.std.specs.Char.{encode_utf8};
ghost use Rattle.winnow_match.specs.Bytes.{utf8_of};
ghost use Rattle.winnow_match.specs.Search.{hit, bytes_of_needles};

use crate::finding::find_needles;
use crate::{FindSlice, Needles};
use std::ops::Range;

#[tactic(auto, using(crate::proofs::lemmas::AnswerLemmas::source_answers))]
impl<'i, 'n> FindSlice<&'n str> for &'i str {
    ghost found = { λ needle r. hit (needle.now ∷ []) (utf8_of r) };

    fn find_slice(&self, substr: &'n str) -> Option<Range<usize>> {
        find_needles((*self).as_bytes(), &Needles::One(substr.as_bytes()))
    }
}

#[tactic(auto, using(crate::proofs::lemmas::AnswerLemmas::source_answers))]
impl<'i, 'n> FindSlice<(&'n str,)> for &'i str {
    ghost found = { λ needles r. hit (needles.0.now ∷ []) (utf8_of r) };

    fn find_slice(&self, substr: (&'n str,)) -> Option<Range<usize>> {
        find_needles((*self).as_bytes(), &Needles::One(substr.0.as_bytes()))
    }
}

#[tactic(auto, using(crate::proofs::lemmas::AnswerLemmas::source_answers))]
impl<'i, 'n> FindSlice<(&'n str, &'n str)> for &'i str {
    ghost found = { λ needles r. hit (needles.0.now ∷ needles.1.now ∷ []) (utf8_of r) };

    fn find_slice(&self, substr: (&'n str, &'n str)) -> Option<Range<usize>> {
        find_needles(
            (*self).as_bytes(),
            &Needles::Two(substr.0.as_bytes(), substr.1.as_bytes()),
        )
    }
}

#[tactic(auto, using(crate::proofs::lemmas::AnswerLemmas::source_answers))]
impl<'i, 'n> FindSlice<(&'n str, &'n str, &'n str)> for &'i str {
    ghost found = { λ needles r.
        hit (needles.0.now ∷ needles.1.now ∷ needles.2.now ∷ []) (utf8_of r) };

    fn find_slice(&self, substr: (&'n str, &'n str, &'n str)) -> Option<Range<usize>> {
        find_needles(
            (*self).as_bytes(),
            &Needles::Three(
                substr.0.as_bytes(),
                substr.1.as_bytes(),
                substr.2.as_bytes(),
            ),
        )
    }
}

#[tactic(auto, using(crate::proofs::lemmas::AnswerLemmas::source_answers))]
impl<'i, 'n> FindSlice<Needles<&'n str>> for &'i str {
    ghost found = { λ needles r. hit (bytes_of_needles needles) (utf8_of r) };

    fn find_slice(&self, substr: Needles<&'n str>) -> Option<Range<usize>> {
        find_needles((*self).as_bytes(), &substr.as_bytes())
    }
}

#[tactic(auto, using(crate::proofs::lemmas::AnswerLemmas::source_answers))]
impl<'i> FindSlice<char> for &'i str {
    ghost found = { λ c r. hit (encode_utf8 c ∷ []) (utf8_of r) };

    fn find_slice(&self, substr: char) -> Option<Range<usize>> {
        let mut buffer = [0; 4];
        find_needles(
            (*self).as_bytes(),
            &Needles::One(substr.encode_utf8(&mut buffer).as_bytes()),
        )
    }
}

#[tactic(auto, using(crate::proofs::lemmas::AnswerLemmas::source_answers))]
impl<'i> FindSlice<(char,)> for &'i str {
    ghost found = { λ cs r. hit (encode_utf8 cs.0 ∷ []) (utf8_of r) };

    fn find_slice(&self, substr: (char,)) -> Option<Range<usize>> {
        let mut first = [0; 4];
        let first = substr.0.encode_utf8(&mut first).as_bytes();
        find_needles((*self).as_bytes(), &Needles::One(first))
    }
}

#[tactic(auto, using(crate::proofs::lemmas::AnswerLemmas::source_answers))]
impl<'i> FindSlice<(char, char)> for &'i str {
    ghost found = { λ cs r. hit (encode_utf8 cs.0 ∷ encode_utf8 cs.1 ∷ []) (utf8_of r) };

    fn find_slice(&self, substr: (char, char)) -> Option<Range<usize>> {
        let mut first = [0; 4];
        let mut second = [0; 4];
        let first = substr.0.encode_utf8(&mut first).as_bytes();
        let second = substr.1.encode_utf8(&mut second).as_bytes();
        find_needles((*self).as_bytes(), &Needles::Two(first, second))
    }
}

#[tactic(auto, using(crate::proofs::lemmas::AnswerLemmas::source_answers))]
impl<'i> FindSlice<(char, char, char)> for &'i str {
    ghost found = { λ cs r.
        hit (encode_utf8 cs.0 ∷ encode_utf8 cs.1 ∷ encode_utf8 cs.2 ∷ []) (utf8_of r) };

    fn find_slice(&self, substr: (char, char, char)) -> Option<Range<usize>> {
        let mut first = [0; 4];
        let mut second = [0; 4];
        let mut third = [0; 4];
        let first = substr.0.encode_utf8(&mut first).as_bytes();
        let second = substr.1.encode_utf8(&mut second).as_bytes();
        let third = substr.2.encode_utf8(&mut third).as_bytes();
        find_needles((*self).as_bytes(), &Needles::Three(first, second, third))
    }
}
