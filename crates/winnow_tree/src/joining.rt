//! The alternatives of two errors, joined as one `Alt`.

ghost use Rattle.std.specs.Prelude.{IfOk};
ghost use Rattle.winnow_tree.specs.Entries.{TreeOr};

use crate::TreeError;
use std::alloc::{AllocError, Global};

/// Returns the entries of both errors as alternatives. Those of the second come last, unless it
/// alone is an `Alt`. Inlined: as a call it would move both errors once more, which costs more than
/// the push.
#[inline(always)]
pub(crate) fn join<I: Drop, C: Drop>(
    alloc: Global,
    first: TreeError<I, C>,
    second: TreeError<I, C>,
) -> Result<TreeError<I, C>, AllocError>
    ensures { IfOk result (λ r. TreeOr first second r) }
{
    match first {
        TreeError::Alt(mut entries) => match second {
            TreeError::Alt(mut others) => {
                entries.append(&mut others)?;
                Ok(TreeError::Alt(entries))
            }
            other => {
                entries.push(other)?;
                Ok(TreeError::Alt(entries))
            }
        },
        first => match second {
            TreeError::Alt(mut entries) => {
                entries.push(first)?;
                Ok(TreeError::Alt(entries))
            }
            second => {
                let mut entries = Vec::new(alloc);
                entries.push(first)?;
                entries.push(second)?;
                Ok(TreeError::Alt(entries))
            }
        },
    }
}
