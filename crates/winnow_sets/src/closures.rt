//! Closures as sets of tokens: `Where`.

use crate::ContainsToken;
use std::fmt;
use std::fmt::Debug;
use winnow_stream::ScriptSet;

/// A closure as a set: the tokens for which it returns `true`.
///
/// The closure must always be callable. Its own contract says what it returns.
#[derive(Clone, Copy, Drop)]
pub struct Where<F>(pub F);

impl<F> Debug for Where<F> {
    fn fmt<W: fmt::Write>(&self, f: &mut fmt::Formatter<W>) -> fmt::Result {
        f.write_str("Where(_)")
    }
}

impl<T, F: Fn(T) -> bool> ContainsToken<T> for Where<F> {
    ghost askable = { λ set. F.IsAlwaysCallable set.0 };

    ghost may_answer = { λ set. F.post set.0 };

    fn contains_token(&self, token: T) -> bool {
        (self.0)(token)
    }
}

impl<T, F: Fn(T) -> bool> ScriptSet<T> for Where<F> {
    ghost askable = { λ set. F.IsAlwaysCallable set.0 };

    ghost may_answer = { λ set. F.post set.0 };

    fn holds(&self, token: T) -> bool {
        (self.0)(token)
    }
}
