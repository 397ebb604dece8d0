//! `Complement`, the tokens that a set does not hold.

ghost use Rattle.std.specs.Prelude.{not};
ghost use Rattle.winnow_sets.specs.SetLaws.{AnswersOnly-not};

use crate::{ContainsToken, FixedSet};
use winnow_stream::ScriptSet;

/// The complement of a set: the tokens that it does not hold.
///
/// `take_while(1.., Complement((' ', '\t')))` takes up to the next blank.
#[derive(Clone, Copy, Debug, Drop)]
pub struct Complement<S>(pub S);

impl<T, S: ContainsToken<T>> ContainsToken<T> for Complement<S> {
    ghost askable = { λ set. S.askable set.0 };

    ghost may_answer = { λ set token b. S.may_answer set.0 token (not b) };

    fn contains_token(&self, token: T) -> bool {
        !self.0.contains_token(token)
    }
}

impl<T, S: FixedSet<T>> FixedSet<T> for Complement<S> {
    ghost holds = { λ set token. not (S.holds set.0 token) };

    ghost answers_only = { λ set token. AnswersOnly-not (S.answers_only set.0 token) };
}

impl<T, S: ScriptSet<T>> ScriptSet<T> for Complement<S> {
    ghost askable = { λ set. S.askable set.0 };

    ghost may_answer = { λ set token b. S.may_answer set.0 token (not b) };

    fn holds(&self, token: T) -> bool {
        !self.0.holds(token)
    }
}
