//! The parts of a tree: `TreeErrorBase`, `TreeErrorContext` and `TreeErrorFrame`.

ghost use Rattle.std.specs.Prelude.{◌≡◌, IfOk, string_bytes};

use std::alloc::{AllocError, Global};

/// An error at an input, and which error of other code caused it, if one did.
#[derive(Debug, Drop)]
pub struct TreeErrorBase<I> {
    /// The input as it stood where the error occurred
    pub input: I,
    /// The text of the cause
    pub cause: Option<String>,
}

/// What was being read when an error occurred.
#[derive(Debug, Drop)]
pub struct TreeErrorContext<I, C> {
    /// The input as it stood where the parser began
    pub input: I,
    /// What the parser was reading
    pub context: C,
}

/// A parser through which an error passed on its way out.
#[derive(Debug, Drop)]
pub enum TreeErrorFrame<I, C> {
    /// The parser failed because of the error
    Kind(TreeErrorBase<I>),
    /// The parser was reading this
    Context(TreeErrorContext<I, C>),
}

impl<I: Drop> TreeErrorBase<I> {
    /// Returns the error with the input that `op` makes of the old one.
    pub fn map_input<J, O: Fn(I) -> J + Drop>(self, op: O) -> TreeErrorBase<J>
        requires { O.pre op self.input }
        ensures input { O.post op self.input result.input }
        ensures cause { result.cause ≡ self.cause }
    {
        let TreeErrorBase { input, cause } = self;
        TreeErrorBase {
            input: op(input),
            cause,
        }
    }
}

impl TreeErrorBase<&[u8]> {
    /// Returns the error with a copy of the bytes.
    pub fn into_owned(self, alloc: Global) -> Result<TreeErrorBase<Vec<u8>>, AllocError>
        ensures input { IfOk result (λ r. r.input.items ≡ self.entry.input.now) }
        ensures cause { IfOk result (λ r. r.cause ≡ self.entry.cause) }
    {
        let TreeErrorBase { input, cause } = self;
        let input = input.to_vec(alloc)?;
        Ok(TreeErrorBase { input, cause })
    }
}

impl TreeErrorBase<&str> {
    /// Returns the error with a copy of the text.
    pub fn into_owned(self, alloc: Global) -> Result<TreeErrorBase<String>, AllocError>
        ensures input { IfOk result (λ r. string_bytes r.input ≡ self.entry.input.now) }
        ensures cause { IfOk result (λ r. r.cause ≡ self.entry.cause) }
    {
        let TreeErrorBase { input, cause } = self;
        let input = String::from_str(alloc, input)?;
        Ok(TreeErrorBase { input, cause })
    }
}

impl<I: Drop, C: Drop> TreeErrorContext<I, C> {
    /// Returns the same context with the input that `op` makes of the old one.
    pub fn map_input<J, O: Fn(I) -> J + Drop>(self, op: O) -> TreeErrorContext<J, C>
        requires { O.pre op self.input }
        ensures input { O.post op self.input result.input }
        ensures context { result.context ≡ self.context }
    {
        let TreeErrorContext { input, context } = self;
        TreeErrorContext {
            input: op(input),
            context,
        }
    }
}

impl<C: Drop> TreeErrorContext<&[u8], C> {
    /// Returns the same context with a copy of the bytes.
    pub fn into_owned(self, alloc: Global) -> Result<TreeErrorContext<Vec<u8>, C>, AllocError>
        ensures input { IfOk result (λ r. r.input.items ≡ self.entry.input.now) }
        ensures context { IfOk result (λ r. r.context ≡ self.entry.context) }
    {
        let TreeErrorContext { input, context } = self;
        let input = input.to_vec(alloc)?;
        Ok(TreeErrorContext { input, context })
    }
}

impl<C: Drop> TreeErrorContext<&str, C> {
    /// Returns the same context with a copy of the text.
    pub fn into_owned(self, alloc: Global) -> Result<TreeErrorContext<String, C>, AllocError>
        ensures input { IfOk result (λ r. string_bytes r.input ≡ self.entry.input.now) }
        ensures context { IfOk result (λ r. r.context ≡ self.entry.context) }
    {
        let TreeErrorContext { input, context } = self;
        let input = String::from_str(alloc, input)?;
        Ok(TreeErrorContext { input, context })
    }
}
