//! Parsers that are made of parsers.

pub mod laws;

pub use winnow_combinator::{
    Accumulated, Alt, BacktrackErr, Begin, Cond, CutErr, Delimited, Empty, Eof, Fail, Folded,
    Gather, Not, Opt, Peek, Preceded, Repeat, RepeatTill, Separated, SeparatedFoldl1,
    SeparatedFoldr1, SeparatedPair, Terminated, TryFold, VerifyFold, alt, backtrack_err, cond,
    cut_err, delimited, empty, eof, fail, not, opt, peek, preceded, repeat, repeat_till, separated,
    separated_foldl1, separated_foldr1, separated_pair, terminated,
};
pub use winnow_expression::{
    Expression, Infix, InfixBy, InfixOperators, Level, NoOperators, Postfix, PostfixBy, Prefix,
    PrefixBy, UnaryOperators, expression,
};
pub use winnow_iterator::{ParserIterator, iterator};
pub use winnow_permutation::{Permutation, permutation};
pub use winnow_resume::{RecoveringParser, ResumeAfter, RetryAfter, resume_after, retry_after};
