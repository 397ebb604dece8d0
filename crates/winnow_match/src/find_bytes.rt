//! `FindSlice` for slices of bytes, one `impl` for each kind of needle.

ghost use Rattle.std.specs.Prelude.{[], ◌∷◌};
ghost use Rattle.std.specs.Char.{encode_utf8};
ghost use Rattle.winnow_match.specs.Bytes.{bytes_of};
ghost use Rattle.winnow_match.specs.Search.{hit, bytes_of_needles};

use crate::finding::{find_byte, find_needles, find_three_bytes, find_two_bytes};
use crate::{FindSlice, Needles};
use std::ops::Range;

#[tactic(auto, using(crate::proofs::lemmas::AnswerLemmas::source_answers))]
impl<'i, 'n> FindSlice<&'n [u8]> for &'i [u8] {
    ghost found = { λ needle r. hit (needle.now ∷ []) (bytes_of r) };

    fn find_slice(&self, substr: &'n [u8]) -> Option<Range<usize>> {
        find_needles(self, &Needles::One(substr))
    }
}

#[tactic(auto, using(crate::proofs::lemmas::AnswerLemmas::source_answers))]
impl<'i, 'n> FindSlice<(&'n [u8],)> for &'i [u8] {
    ghost found = { λ needles r. hit (needles.0.now ∷ []) (bytes_of r) };

    fn find_slice(&self, substr: (&'n [u8],)) -> Option<Range<usize>> {
        find_needles(self, &Needles::One(substr.0))
    }
}

#[tactic(auto, using(crate::proofs::lemmas::AnswerLemmas::source_answers))]
impl<'i, 'n> FindSlice<(&'n [u8], &'n [u8])> for &'i [u8] {
    ghost found = { λ needles r. hit (needles.0.now ∷ needles.1.now ∷ []) (bytes_of r) };

    fn find_slice(&self, substr: (&'n [u8], &'n [u8])) -> Option<Range<usize>> {
        find_needles(self, &Needles::Two(substr.0, substr.1))
    }
}

#[tactic(auto, using(crate::proofs::lemmas::AnswerLemmas::source_answers))]
impl<'i, 'n> FindSlice<(&'n [u8], &'n [u8], &'n [u8])> for &'i [u8] {
    ghost found = { λ needles r.
        hit (needles.0.now ∷ needles.1.now ∷ needles.2.now ∷ []) (bytes_of r) };

    fn find_slice(&self, substr: (&'n [u8], &'n [u8], &'n [u8])) -> Option<Range<usize>> {
        find_needles(self, &Needles::Three(substr.0, substr.1, substr.2))
    }
}

#[tactic(auto, using(crate::proofs::lemmas::AnswerLemmas::source_answers))]
impl<'i, 'n> FindSlice<Needles<&'n [u8]>> for &'i [u8] {
    ghost found = { λ needles r. hit (bytes_of_needles needles) (bytes_of r) };

    fn find_slice(&self, substr: Needles<&'n [u8]>) -> Option<Range<usize>> {
        find_needles(self, &substr)
    }
}

#[tactic(auto, using(crate::proofs::lemmas::AnswerLemmas::source_answers))]
impl<'i, 'n> FindSlice<&'n str> for &'i [u8] {
    ghost found = { λ needle r. hit (needle.now ∷ []) (bytes_of r) };

    fn find_slice(&self, substr: &'n str) -> Option<Range<usize>> {
        find_needles(self, &Needles::One(substr.as_bytes()))
    }
}

#[tactic(auto, using(crate::proofs::lemmas::AnswerLemmas::source_answers))]
impl<'i, 'n> FindSlice<(&'n str,)> for &'i [u8] {
    ghost found = { λ needles r. hit (needles.0.now ∷ []) (bytes_of r) };

    fn find_slice(&self, substr: (&'n str,)) -> Option<Range<usize>> {
        find_needles(self, &Needles::One(substr.0.as_bytes()))
    }
}

#[tactic(auto, using(crate::proofs::lemmas::AnswerLemmas::source_answers))]
impl<'i, 'n> FindSlice<(&'n str, &'n str)> for &'i [u8] {
    ghost found = { λ needles r. hit (needles.0.now ∷ needles.1.now ∷ []) (bytes_of r) };

    fn find_slice(&self, substr: (&'n str, &'n str)) -> Option<Range<usize>> {
        find_needles(
            self,
            &Needles::Two(substr.0.as_bytes(), substr.1.as_bytes()),
        )
    }
}

#[tactic(auto, using(crate::proofs::lemmas::AnswerLemmas::source_answers))]
impl<'i, 'n> FindSlice<(&'n str, &'n str, &'n str)> for &'i [u8] {
    ghost found = { λ needles r.
        hit (needles.0.now ∷ needles.1.now ∷ needles.2.now ∷ []) (bytes_of r) };

    fn find_slice(&self, substr: (&'n str, &'n str, &'n str)) -> Option<Range<usize>> {
        find_needles(
            self,
            &Needles::Three(
                substr.0.as_bytes(),
                substr.1.as_bytes(),
                substr.2.as_bytes(),
            ),
        )
    }
}

#[tactic(auto, using(crate::proofs::lemmas::AnswerLemmas::source_answers))]
impl<'i> FindSlice<u8> for &'i [u8] {
    ghost found = { λ byte r. hit ((byte ∷ []) ∷ []) (bytes_of r) };

    fn find_slice(&self, substr: u8) -> Option<Range<usize>> {
        find_byte(self, substr)
    }
}

#[tactic(auto, using(crate::proofs::lemmas::AnswerLemmas::source_answers))]
impl<'i> FindSlice<(u8,)> for &'i [u8] {
    ghost found = { λ bytes r. hit ((bytes.0 ∷ []) ∷ []) (bytes_of r) };

    fn find_slice(&self, substr: (u8,)) -> Option<Range<usize>> {
        find_byte(self, substr.0)
    }
}

#[tactic(auto, using(crate::proofs::lemmas::AnswerLemmas::source_answers))]
impl<'i> FindSlice<(u8, u8)> for &'i [u8] {
    ghost found = { λ bytes r. hit ((bytes.0 ∷ []) ∷ (bytes.1 ∷ []) ∷ []) (bytes_of r) };

    fn find_slice(&self, substr: (u8, u8)) -> Option<Range<usize>> {
        find_two_bytes(self, substr.0, substr.1)
    }
}

#[tactic(auto, using(crate::proofs::lemmas::AnswerLemmas::source_answers))]
impl<'i> FindSlice<(u8, u8, u8)> for &'i [u8] {
    ghost found = { λ bytes r.
        hit ((bytes.0 ∷ []) ∷ (bytes.1 ∷ []) ∷ (bytes.2 ∷ []) ∷ []) (bytes_of r) };

    fn find_slice(&self, substr: (u8, u8, u8)) -> Option<Range<usize>> {
        find_three_bytes(self, substr.0, substr.1, substr.2)
    }
}

/// The character is searched for in its UTF-8 form.
#[tactic(auto, using(crate::proofs::lemmas::AnswerLemmas::source_answers))]
impl<'i> FindSlice<char> for &'i [u8] {
    ghost found = { λ c r. hit (encode_utf8 c ∷ []) (bytes_of r) };

    fn find_slice(&self, substr: char) -> Option<Range<usize>> {
        let mut buffer = [0; 4];
        find_needles(
            self,
            &Needles::One(substr.encode_utf8(&mut buffer).as_bytes()),
        )
    }
}

/// The character is searched for in its UTF-8 form.
#[tactic(auto, using(crate::proofs::lemmas::AnswerLemmas::source_answers))]
impl<'i> FindSlice<(char,)> for &'i [u8] {
    ghost found = { λ cs r. hit (encode_utf8 cs.0 ∷ []) (bytes_of r) };

    fn find_slice(&self, substr: (char,)) -> Option<Range<usize>> {
        let mut first = [0; 4];
        let first = substr.0.encode_utf8(&mut first).as_bytes();
        find_needles(self, &Needles::One(first))
    }
}

/// The characters are searched for in their UTF-8 form.
#[tactic(auto, using(crate::proofs::lemmas::AnswerLemmas::source_answers))]
impl<'i> FindSlice<(char, char)> for &'i [u8] {
    ghost found = { λ cs r. hit (encode_utf8 cs.0 ∷ encode_utf8 cs.1 ∷ []) (bytes_of r) };

    fn find_slice(&self, substr: (char, char)) -> Option<Range<usize>> {
        let mut first = [0; 4];
        let mut second = [0; 4];
        let first = substr.0.encode_utf8(&mut first).as_bytes();
        let second = substr.1.encode_utf8(&mut second).as_bytes();
        find_needles(self, &Needles::Two(first, second))
    }
}

/// The characters are searched for in their UTF-8 form.
#[tactic(auto, using(crate::proofs::lemmas::AnswerLemmas::source_answers))]
impl<'i> FindSlice<(char, char, char)> for &'i [u8] {
    ghost found = { λ cs r.
        hit (encode_utf8 cs.0 ∷ encode_utf8 cs.1 ∷ encode_utf8 cs.2 ∷ []) (bytes_of r) };

    fn find_slice(&self, substr: (char, char, char)) -> Option<Range<usize>> {
        let mut first = [0; 4];
        let mut second = [0; 4];
        let mut third = [0; 4];
        let first = substr.0.encode_utf8(&mut first).as_bytes();
        let second = substr.1.encode_utf8(&mut second).as_bytes();
        let third = substr.2.encode_utf8(&mut third).as_bytes();
        find_needles(self, &Needles::Three(first, second, third))
    }
}
