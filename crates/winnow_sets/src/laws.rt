//! Laws of unions. A law does nothing when called: its contract is the law.

ghost use Rattle.std.specs.Prelude.{◌||◌, Bool};
ghost use Rattle.winnow_sets.specs.Sets.{◌∪◌, AnswersOnly};

use crate::ContainsToken;

/// The law of unions. If each of two sets has one answer of a token, then their union has one too:
/// `true` exactly if one of the two is `true`.
pub fn union_law<T, A: ContainsToken<T>, B: ContainsToken<T>>()
    ensures { (a : A) (b : B) (token : T) (p q : Bool) → AnswersOnly (A.may_answer a token) p
        → AnswersOnly (B.may_answer b token) q
        → AnswersOnly (A.may_answer a token ∪ B.may_answer b token) (p || q) }
{}

/// The law of unions of three sets, as [`union_law`] for two.
pub fn union_of_three_law<T, A: ContainsToken<T>, B: ContainsToken<T>, C: ContainsToken<T>>()
    ensures { (a : A) (b : B) (c : C) (token : T) (p q r : Bool)
        → AnswersOnly (A.may_answer a token) p → AnswersOnly (B.may_answer b token) q
        → AnswersOnly (C.may_answer c token) r
        → AnswersOnly (A.may_answer a token ∪ B.may_answer b token ∪ C.may_answer c token)
        (p || q || r) }
{}

/// The law of unions of four sets, as [`union_law`] for two.
pub fn union_of_four_law<
    T,
    A: ContainsToken<T>,
    B: ContainsToken<T>,
    C: ContainsToken<T>,
    D: ContainsToken<T>,
>()
    ensures { (a : A) (b : B) (c : C) (d : D) (token : T) (p q r s : Bool)
        → AnswersOnly (A.may_answer a token) p → AnswersOnly (B.may_answer b token) q
        → AnswersOnly (C.may_answer c token) r → AnswersOnly (D.may_answer d token) s
        → AnswersOnly (A.may_answer a token ∪ B.may_answer b token ∪ C.may_answer c token
        ∪ D.may_answer d token)
        (p || q || r || s) }
{}
