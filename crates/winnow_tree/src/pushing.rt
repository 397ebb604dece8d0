//! Frames that are pushed on an error: of a parser that failed, or of a context.

ghost use Rattle.std.specs.Prelude.{◌≡◌, IfOk, None, [], ◌∷◌};
ghost use Rattle.winnow_tree.specs.TreeContents.{tree_contents, frame_contents, with_frame, kind};
ghost use Rattle.winnow_tree.specs.TreeContents.{context, stack, PushedAt};

use crate::{TreeError, TreeErrorBase, TreeErrorContext, TreeErrorFrame};
use std::alloc::{AllocError, Global};
use winnow_stream::Stream;

/// Returns the error with one more frame, the outermost. Inlined, so that an error that is already
/// a stack is not moved more often than the push needs.
#[inline(always)]
fn push_frame<I: Drop, C: Drop>(
    alloc: Global,
    error: TreeError<I, C>,
    frame: TreeErrorFrame<I, C>,
) -> Result<TreeError<I, C>, AllocError>
    ensures { IfOk result (λ r. tree_contents r ≡ with_frame (frame_contents frame)
        (tree_contents error)) }
{
    match error {
        TreeError::Stack { base, mut stack } => {
            stack.push(frame)?;
            Ok(TreeError::Stack { base, stack })
        }
        TreeError::Base(base) => over(alloc, TreeError::Base(base), frame),
        TreeError::Alt(entries) => over(alloc, TreeError::Alt(entries), frame),
    }
}

/// Returns a stack that has one frame over the error.
fn over<I: Drop, C: Drop>(
    alloc: Global,
    error: TreeError<I, C>,
    frame: TreeErrorFrame<I, C>,
) -> Result<TreeError<I, C>, AllocError>
    ensures { IfOk result (λ r. tree_contents r ≡ stack (tree_contents error)
        (frame_contents frame ∷ [])) }
{
    let base = Box::new(alloc, error)?;
    let mut stack = Vec::new(alloc);
    stack.push(frame)?;
    Ok(TreeError::Stack { base, stack })
}

/// Returns the error and records in it that a parser which began at `token_start` failed because of
/// it.
#[inline(always)]
pub(crate) fn push_kind<I: Stream + Copy, C: Drop>(
    alloc: Global,
    error: TreeError<I, C>,
    input: &I,
    token_start: &I::Checkpoint,
) -> Result<TreeError<I, C>, AllocError>
    requires valid { I.valid input.now }
    requires valid_checkpoint { I.valid_checkpoint token_start.now }
    ensures { IfOk result (PushedAt I.remaining I.location I.valid I.keeps input.now
        (I.remained token_start.now) (I.Checkpoint.location token_start.now)
        (λ at. kind at None) (tree_contents error)) }
{
    let mut at = *input;
    at.reset(token_start);
    let frame = TreeErrorFrame::Kind(TreeErrorBase {
        input: at,
        cause: None,
    });
    push_frame(alloc, error, frame)
}

/// Returns the error and records in it what a parser which began at `token_start` was reading.
#[inline(always)]
pub(crate) fn push_context<I: Stream + Copy, C: Drop>(
    alloc: Global,
    error: TreeError<I, C>,
    input: &I,
    token_start: &I::Checkpoint,
    about: C,
) -> Result<TreeError<I, C>, AllocError>
    requires valid { I.valid input.now }
    requires valid_checkpoint { I.valid_checkpoint token_start.now }
    ensures { IfOk result (PushedAt I.remaining I.location I.valid I.keeps input.now
        (I.remained token_start.now) (I.Checkpoint.location token_start.now)
        (λ at. context at about) (tree_contents error)) }
{
    let mut at = *input;
    at.reset(token_start);
    let frame = TreeErrorFrame::Context(TreeErrorContext {
        input: at,
        context: about,
    });
    push_frame(alloc, error, frame)
}
