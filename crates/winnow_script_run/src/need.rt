//! The input that makes the answer of a step definite: `Need`.

ghost use Rattle.std.specs.Prelude.{◌≡◌};
ghost use Rattle.winnow_script_run.specs.Needs.{call_need, call_mark};

use crate::Step;

/// What a call needs of what remains. Once it is there, no further input changes the answer.
///
/// `C` is a set of tokens, and widths are in the stream's offsets.
#[derive(Clone, Copy, Drop)]
pub enum Need<C> {
    /// Nothing: the answer is known at once
    Nothing,
    /// The first token
    Token,
    /// A front at least as wide
    Width(usize),
    /// At least as many tokens
    Tokens(usize),
    /// A token of the set
    TokenOf(C),
    /// The end: any further input changes the answer
    End,
}

impl<C: Copy> Step<C> {
    /// Returns what the call needs of what remains.
    #[inline(always)]
    pub fn need(&self) -> Need<C>
        ensures { result ≡ call_need self.now }
    {
        match self {
            Step::Next | Step::Peek => Need::Token,
            Step::Take(n) | Step::Look(n) | Step::IsOffset(n) => Need::Width(*n),
            Step::At(n) => Need::Tokens(*n),
            Step::First(set) => Need::TokenOf(*set),
            Step::Finish | Step::PeekFinish | Step::Eof | Step::Each => Need::End,
            Step::Mark | Step::Reset(_) | Step::Since(_) => Need::Nothing,
        }
    }

    /// Returns the number of the mark that the call names, if it names one.
    pub fn mark(&self) -> Option<usize>
        ensures { result ≡ call_mark self.now }
    {
        match self {
            Step::Reset(number) | Step::Since(number) => Some(*number),
            _ => None,
        }
    }
}
