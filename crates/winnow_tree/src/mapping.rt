//! Trees with other inputs: `map_input`, and `into_owned` with copies of the inputs.

ghost use Rattle.std.specs.Prelude.{◌≡◌, IfOk, map, string_bytes};
ghost use Rattle.std.specs.List.{AllZip};
ghost use Rattle.winnow_tree.specs.TreeContents.{tree_contents, frame_contents};
ghost use Rattle.winnow_tree.specs.Maps.{OnOkOf, FrameMaps, TreeMaps};

use crate::{TreeError, TreeErrorBase, TreeErrorContext, TreeErrorFrame};
use std::alloc::{AllocError, Global};

fn map_base<I: Drop, J: Drop, O: Fn(I) -> Result<J, AllocError>>(
    base: TreeErrorBase<I>,
    op: &O,
) -> Result<TreeErrorBase<J>, AllocError>
    requires { O.IsAlwaysCallable op.now }
    ensures { IfOk result (λ r. O.post op.now base.input (Ok r.input) × (r.cause ≡ base.cause)) }
{
    let TreeErrorBase { input, cause } = base;
    let input = op(input)?;
    Ok(TreeErrorBase { input, cause })
}

fn map_context<I: Drop, J: Drop, C: Drop, O: Fn(I) -> Result<J, AllocError>>(
    told: TreeErrorContext<I, C>,
    op: &O,
) -> Result<TreeErrorContext<J, C>, AllocError>
    requires { O.IsAlwaysCallable op.now }
    ensures { IfOk result (λ r.
        O.post op.now told.input (Ok r.input) × (r.context ≡ told.context)) }
{
    let TreeErrorContext { input, context } = told;
    let input = op(input)?;
    Ok(TreeErrorContext { input, context })
}

fn map_frame<I: Drop, J: Drop, C: Drop, O: Fn(I) -> Result<J, AllocError>>(
    frame: TreeErrorFrame<I, C>,
    op: &O,
) -> Result<TreeErrorFrame<J, C>, AllocError>
    requires { O.IsAlwaysCallable op.now }
    ensures { IfOk result (λ r. FrameMaps (OnOkOf (O.post op.now)) (frame_contents frame)
        (frame_contents r)) }
{
    match frame {
        TreeErrorFrame::Kind(base) => {
            let base = map_base(base, op)?;
            Ok(TreeErrorFrame::Kind(base))
        }
        TreeErrorFrame::Context(told) => {
            let told = map_context(told, op)?;
            Ok(TreeErrorFrame::Context(told))
        }
    }
}

fn map_frames<I: Drop, J: Drop, C: Drop, O: Fn(I) -> Result<J, AllocError>>(
    alloc: Global,
    frames: Vec<TreeErrorFrame<I, C>>,
    op: &O,
) -> Result<Vec<TreeErrorFrame<J, C>>, AllocError>
    requires { O.IsAlwaysCallable op.now }
    ensures { IfOk result (λ v. AllZip (FrameMaps (OnOkOf (O.post op.now)))
        (map frame_contents frames.items) (map frame_contents v.items)) }
{
    let mut mapped = Vec::new(alloc);
    for frame in frames {
        let one = map_frame(frame, op)?;
        mapped.push(one)?;
    }
    Ok(mapped)
}

/// Returns the tree with the input that `op` makes of each old one, or an error if `op` or the new
/// tree is refused memory.
fn map_tree<I: Drop, J: Drop, C: Drop, O: Fn(I) -> Result<J, AllocError>>(
    alloc: Global,
    tree: TreeError<I, C>,
    op: &O,
) -> Result<TreeError<J, C>, AllocError>
    requires { O.IsAlwaysCallable op.now }
    ensures { IfOk result (λ r. TreeMaps (OnOkOf (O.post op.now)) (tree_contents tree)
        (tree_contents r)) }
{
    match tree {
        TreeError::Base(base) => {
            let base = map_base(base, op)?;
            Ok(TreeError::Base(base))
        }
        TreeError::Stack { base, stack } => {
            let inner = map_tree(alloc, Box::into_inner(base), op)?;
            let base = Box::new(alloc, inner)?;
            let stack = map_frames(alloc, stack, op)?;
            Ok(TreeError::Stack { base, stack })
        }
        TreeError::Alt(entries) => {
            let mut mapped = Vec::new(alloc);
            for entry in entries {
                let one = map_tree(alloc, entry, op)?;
                mapped.push(one)?;
            }
            Ok(TreeError::Alt(mapped))
        }
    }
}

impl<I: Drop, C: Drop> TreeError<I, C> {
    /// Returns the error with the input that `op` makes of each old one.
    pub fn map_input<J: Drop, O: Fn(I) -> J + Drop>(
        self,
        alloc: Global,
        op: O,
    ) -> Result<TreeError<J, C>, AllocError>
        requires { O.IsAlwaysCallable op }
        ensures { IfOk result (λ r. TreeMaps (O.post op) (tree_contents self) (tree_contents r)) }
    {
        map_tree(alloc, self, &|input: I| Ok(op(input)))
    }
}

impl<C: Drop> TreeError<&[u8], C> {
    /// Returns the error with a copy of the bytes of each input.
    pub fn into_owned(self, alloc: Global) -> Result<TreeError<Vec<u8>, C>, AllocError>
        ensures { IfOk result (λ r. TreeMaps (λ i j. j.items ≡ i.now) (tree_contents self.entry)
            (tree_contents r)) }
    {
        map_tree(alloc, self, &|bytes: &[u8]| bytes.to_vec(alloc))
    }
}

impl<C: Drop> TreeError<&str, C> {
    /// Returns the error with a copy of the text of each input.
    pub fn into_owned(self, alloc: Global) -> Result<TreeError<String, C>, AllocError>
        ensures { IfOk result (λ r. TreeMaps (λ i j. string_bytes j ≡ i.now)
            (tree_contents self.entry) (tree_contents r)) }
    {
        map_tree(alloc, self, &|text: &str| String::from_str(alloc, text))
    }
}
