//! `TreeError`: an error that holds each alternative that was tried.

ghost use Rattle.std.specs.Prelude.{Some, None, Ok, true, string_bytes, ⊤};
ghost use Rattle.winnow_tree.specs.TreeContents.{tree_contents, kind, context, PushedAt};
ghost use Rattle.winnow_tree.specs.Entries.{TreeOr, IsBase};

use crate::joining::join;
use crate::pushing::{push_context, push_kind};
use crate::{TreeErrorBase, TreeErrorFrame};
use std::alloc::{AllocError, Global};
use winnow_error::{AddContext, FromExternalError, FromRecoverableError, ParserError};
use winnow_stream::{Needed, Stream};

/// An error that holds each alternative that was tried.
///
/// Contracts see its contents, but not the memory that its vectors take.
#[derive(Debug, Drop)]
pub enum TreeError<I, C> {
    /// One parser failed
    Base(TreeErrorBase<I>),
    /// An error passed through parsers on its way out
    Stack {
        /// The error
        base: Box<TreeError<I, C>>,
        /// The parsers, the innermost first
        stack: Vec<TreeErrorFrame<I, C>>,
    },
    /// The errors of alternatives, each of which failed
    Alt(Vec<TreeError<I, C>>),
}

impl<I: Stream + Copy, C: Drop> ParserError<I> for TreeError<I, C> {
    type Inner = Self;

    ghost from_input_gives = { λ input e. IsBase input None e };

    ghost assert_gives = { λ input e. IsBase input None e };

    ghost incomplete_gives = { λ input _ e. IsBase input None e };

    ghost append_gives = { λ e input start. PushedAt I.remaining I.location I.valid I.keeps
        input (I.remained start) (I.Checkpoint.location start) (λ at. kind at None)
        (tree_contents e) };

    ghost append_refusable = { ⊤ };

    ghost or_gives = { TreeOr };

    ghost or_refusable = { ⊤ };

    ghost backtracks = { λ _. true };

    ghost inner = { Ok };

    ghost needs = { λ _. None };

    fn from_input(_alloc: Global, input: &I) -> Self {
        TreeError::Base(TreeErrorBase {
            input: *input,
            cause: None,
        })
    }

    fn assert(_alloc: Global, input: &I, _message: &'static str) -> Self {
        TreeError::Base(TreeErrorBase {
            input: *input,
            cause: None,
        })
    }

    fn incomplete(_alloc: Global, input: &I, _needed: Needed) -> Self {
        TreeError::Base(TreeErrorBase {
            input: *input,
            cause: None,
        })
    }

    fn append(
        self,
        alloc: Global,
        input: &I,
        token_start: &I::Checkpoint,
    ) -> Result<Self, AllocError> {
        push_kind(alloc, self, input, token_start)
    }

    fn or(self, alloc: Global, other: Self) -> Result<Self, AllocError> {
        join(alloc, self, other)
    }

    fn is_backtrack(&self) -> bool {
        true
    }

    fn into_inner(self) -> Result<Self, Self> {
        Ok(self)
    }

    fn needed(&self) -> Option<Needed> {
        None
    }
}

impl<I: Stream + Copy, C: Drop> AddContext<I, C> for TreeError<I, C> {
    ghost add_context_gives = { λ e input start about. PushedAt I.remaining I.location I.valid
        I.keeps input (I.remained start) (I.Checkpoint.location start)
        (λ at. context at about) (tree_contents e) };

    ghost add_context_refusable = { ⊤ };

    fn add_context(
        self,
        alloc: Global,
        input: &I,
        token_start: &I::Checkpoint,
        context: C,
    ) -> Result<Self, AllocError> {
        push_context(alloc, self, input, token_start, context)
    }
}

impl<I: Stream + Copy, C: Drop> FromRecoverableError<I, Self> for TreeError<I, C> {
    ghost recovered = { λ _ _ _ e. e };

    fn from_recoverable_error(
        _token_start: &I::Checkpoint,
        _err_start: &I::Checkpoint,
        _input: &I,
        e: Self,
    ) -> Self {
        e
    }
}

impl<I: Copy, C: Drop> FromExternalError<I, String> for TreeError<I, C> {
    ghost from_external_gives = { λ input cause. IsBase input (Some (string_bytes cause)) };

    fn from_external_error(_alloc: Global, input: &I, cause: String) -> Self {
        TreeError::Base(TreeErrorBase {
            input: *input,
            cause: Some(cause),
        })
    }
}
