//! `combine` and `join_all`, which join the errors of many alternatives.

ghost use Rattle.std.specs.Prelude.{◌≡◌, Some, IfOk, OnErr};
ghost use Rattle.winnow_error.specs.Mode.{ModeOr};
ghost use Rattle.winnow_error.specs.Or.{GivesOnly, IsAssociative};
ghost use Rattle.winnow_error.specs.Pick.{Bracketed, leaves, pick, HasNonBacktrack};

use crate::{AssociativeOr, ErrMode, ParserError};
use std::alloc::{AllocError, Global};
use winnow_stream::Stream;

/// The errors of alternatives, with brackets that say which are joined first.
#[derive(Debug, Drop)]
pub enum OrTree<E> {
    /// The error of one alternative
    One(E),
    /// The errors of two groups of alternatives, in order
    Both(Box<OrTree<E>>, Box<OrTree<E>>),
}

/// Joins the errors of alternatives with `or`, in the order that the brackets say.
///
/// The brackets matter only if the inner `or` is not associative and each error is a `Backtrack`.
pub fn combine<I: Stream, E: ParserError<I>>(
    alloc: Global,
    tree: OrTree<ErrMode<E>>,
) -> Result<ErrMode<E>, AllocError>
    ensures bracketed { IfOk result (Bracketed (ModeOr E.or_gives) tree) }
    ensures non_backtrack { (join : E → E → E) → HasNonBacktrack (leaves tree)
        → IfOk result (λ r. pick join (leaves tree) ≡ Some r) }
    ensures associative { (join : E → E → E) → GivesOnly E.or_gives join → IsAssociative join
        → IfOk result (λ r. pick join (leaves tree) ≡ Some r) }
    ensures err { OnErr result E.or_refusable }
{
    join_tree::<I, E>(alloc, tree)
}

/// Joins the errors of alternatives with an inner `or` that is associative and never refused
/// memory, so that the brackets do not matter. The answer is the first `Incomplete`; without one,
/// the first `Cut`; without either, `Backtrack` of all errors joined in order.
pub fn join_all<I: Stream, E: AssociativeOr<I>>(
    alloc: Global,
    tree: OrTree<ErrMode<E>>,
) -> ErrMode<E>
    ensures { pick E.joined (leaves tree) ≡ Some result }
{
    match combine::<I, E>(alloc, tree) {
        Ok(error) => error,
        Err(_) => unreachable!(),
    }
}

fn join_tree<I: Stream, E: ParserError<I>>(
    alloc: Global,
    tree: OrTree<ErrMode<E>>,
) -> Result<ErrMode<E>, AllocError>
    ensures bracketed { IfOk result (Bracketed (ModeOr E.or_gives) tree) }
    ensures err { OnErr result E.or_refusable }
{
    match tree {
        OrTree::One(error) => Ok(error),
        OrTree::Both(left, right) => {
            let first = join_tree::<I, E>(alloc, Box::into_inner(left))?;
            let second = join_tree::<I, E>(alloc, Box::into_inner(right))?;
            <ErrMode<E> as ParserError<I>>::or(first, alloc, second)
        }
    }
}
