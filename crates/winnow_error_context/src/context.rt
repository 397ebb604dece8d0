//! `ContextError`: an error with contexts, and the text of a cause if other code caused it.

ghost use Rattle.std.specs.Prelude.{◌≡◌, nat_eq, true, None, Some, Ok, refl, IfOk, OnOk, OnErr};
ghost use Rattle.std.specs.Prelude.{option_map, string_bytes, ⊤};
ghost use Rattle.std.specs.Cmp.Lexicographic.{pointwise};
ghost use Rattle.std.specs.Cmp.Rules.{comparing};
ghost use Rattle.std.specs.Iterator.{AlwaysYields, IsFinite, ExtendsWithItems};
ghost use Rattle.std.specs.Option.{option_eq};
ghost use Rattle.std.specs.Ordering.{on, eq_of_both};
ghost use Rattle.std.proofs.Common.{rules};
ghost use Rattle.winnow_error_context.specs.ContextDebug.{explanation_debug};
ghost use Rattle.winnow_error_context.specs.Explanation.{Extends, KeepsAllButOne, pushed};
ghost use Rattle.winnow_error_context.specs.Explanation.{caused_by};
ghost use Rattle.winnow_error_context.specs.Explanation.{unexplained};

use crate::ContextItems;
use std::alloc::{AllocError, Global};
use std::fmt;
use std::marker::Model;
use winnow_error::{
    AddContext, AssociativeOr, ErrorConvert, FromExternalError, FromRecoverableError, ParserError,
};
use winnow_stream::{Needed, Stream};

/// An error that says what was being read when it occurred, and which error of other code caused
/// it, if one did.
///
/// Contracts see the list of contexts and the text of the cause, but not the memory that holds
/// them.
#[derive(Drop)]
pub struct ContextError<C> {
    context: Vec<C>,
    cause: Option<String>,
}

impl<C> Model for ContextError<C> {
    ghost use Rattle.std.specs.Prelude.{option_map, string_bytes};
    ghost use Rattle.winnow_error_context.specs.Explanation.{Explanation};

    ghost Value = { Explanation C };

    ghost view = { λ e. record
        { contexts = e.context.items; cause = option_map string_bytes e.cause } };
}

impl<C: Drop> ContextError<C> {
    /// Returns the error with no context and no cause.
    pub fn new(alloc: Global) -> Self
        ensures { result ≡ unexplained }
    {
        ContextError {
            context: Vec::new(alloc),
            cause: None,
        }
    }

    /// Returns the error with a cause and no context.
    fn caused_by(alloc: Global, cause: String) -> Self
        ensures { result ≡ caused_by (string_bytes cause) }
    {
        ContextError {
            context: Vec::new(alloc),
            cause: Some(cause),
        }
    }

    /// Adds a context. If memory is refused, the context is dropped and the error stays as it was.
    pub fn push(&mut self, context: C) -> Result<(), AllocError>
        ensures ok { OnOk result (self.new ≡ pushed self.old context) }
        ensures err { OnErr result (self.new ≡ self.old) }
    {
        self.context.push(context)?;
        Ok(())
    }

    /// Adds the contexts of a finite iterator, in order. If memory for one is refused, that one is
    /// dropped, and those before it stay.
    pub fn extend<U: IntoIterator<Item = C>>(&mut self, contexts: U) -> Result<(), AllocError>
        requires { (it : U.IntoIter) → U.into_iter_gives contexts it → U.IntoIter.can_next it
            × IsFinite (U.IntoIter.remaining it) }
        ensures ran { ExtendsWithItems U.into_iter_gives U.IntoIter.next_gives Extends
            contexts self.old self.new result }
        ensures refused { OnErr result (KeepsAllButOne U.into_iter_gives U.IntoIter.next_gives
            contexts self.old self.new) }
    {
        let contexts = contexts.into_iter();
        // The hint may be too high, so a refusal here is no error: each `push` asks again.
        let _hinted = self.context.reserve(contexts.size_hint().0);
        for context in contexts {
            self.push(context)?;
        }
        Ok(())
    }

    /// Returns the contexts, in the order in which they were added.
    pub fn context<'s>(&'s self) -> ContextItems<'s, C>
        ensures left { result ≡ self.now.contexts }
        ensures ends { IsFinite (⟦<ContextItems<'s, C> as Iterator>⟧.remaining result) }
        ensures items { AlwaysYields ⟦<ContextItems<'s, C> as Iterator>⟧.next_gives (λ x. x.now)
            result self.now.contexts }
    {
        ContextItems::new(self.context.as_slice())
    }

    /// Returns the text of the error of other code that caused this one, if one did.
    pub fn cause(&self) -> Option<&str>
        ensures { option_map (λ text. text.now) result ≡ self.now.cause }
    {
        match &self.cause {
            Some(cause) => Some(cause.as_str()),
            None => None,
        }
    }

    /// Returns the same contexts and cause, if the clone of a context equals that context.
    pub fn clone(&self) -> Result<Self, AllocError>
    where
        C: Clone,
        requires { (a b : C) → C.is_clone a b → b ≡ a }
        ensures { IfOk result (λ copy. copy ≡ self.now) }
    {
        let context = self.context.clone()?;
        let cause = self.cause.clone()?;
        Ok(ContextError { context, cause })
    }
}

impl<I: Stream, C: Drop> ParserError<I> for ContextError<C> {
    type Inner = Self;

    ghost from_input_gives = { λ _ e. e ≡ unexplained };

    ghost assert_gives = { λ _ e. e ≡ unexplained };

    ghost incomplete_gives = { λ _ _ e. e ≡ unexplained };

    ghost append_gives = { λ e _ _ r. r ≡ e };

    ghost append_refusable = { ⊥ };

    ghost or_gives = { λ _ b r. r ≡ b };

    ghost or_refusable = { ⊥ };

    ghost backtracks = { λ _. true };

    ghost inner = { Ok };

    ghost needs = { λ _. None };

    fn from_input(alloc: Global, _input: &I) -> Self {
        ContextError::new(alloc)
    }

    fn assert(alloc: Global, _input: &I, _message: &'static str) -> Self {
        ContextError::new(alloc)
    }

    fn incomplete(alloc: Global, _input: &I, _needed: Needed) -> Self {
        ContextError::new(alloc)
    }

    fn append(
        self,
        _alloc: Global,
        _input: &I,
        _token_start: &I::Checkpoint,
    ) -> Result<Self, AllocError> {
        Ok(self)
    }

    fn or(self, _alloc: Global, other: Self) -> Result<Self, AllocError> {
        Ok(other)
    }

    fn is_backtrack(&self) -> bool {
        true
    }

    fn into_inner(self) -> Result<Self, Self> {
        Ok(self)
    }

    fn needed(&self) -> Option<Needed> {
        None
    }
}

impl<I: Stream, C: Drop> AssociativeOr<I> for ContextError<C> {
    ghost joined = { λ _ b. b };

    ghost or_gives_joined = { λ _ _ _ e. e };

    ghost or_never_refused = { λ never. never };

    ghost joined_associative = { λ _ _ _. refl };
}

impl<I: Stream, C: Drop> AddContext<I, C> for ContextError<C> {
    ghost add_context_gives = { λ e _ _ context r. r ≡ pushed e context };

    ghost add_context_refusable = { ⊤ };

    fn add_context(
        mut self,
        _alloc: Global,
        _input: &I,
        _token_start: &I::Checkpoint,
        context: C,
    ) -> Result<Self, AllocError> {
        self.push(context)?;
        Ok(self)
    }
}

impl<I: Stream, C: Drop> FromRecoverableError<I, Self> for ContextError<C> {
    ghost recovered = { λ _ _ _ e. e };

    fn from_recoverable_error(
        _token_start: &I::Checkpoint,
        _err_start: &I::Checkpoint,
        _input: &I,
        e: Self,
    ) -> Self {
        e
    }
}

impl<I, C: Drop> FromExternalError<I, String> for ContextError<C> {
    ghost from_external_gives = { λ _ cause e. e ≡ caused_by (string_bytes cause) };

    fn from_external_error(alloc: Global, _input: &I, cause: String) -> Self {
        ContextError::caused_by(alloc, cause)
    }
}

impl<C: Drop> ErrorConvert<Self> for ContextError<C> {
    ghost convert_gives = { λ e r. r ≡ e };

    ghost convert_refusable = { ⊥ };

    fn convert(self, _alloc: Global) -> Result<Self, AllocError> {
        Ok(self)
    }
}

impl<C: PartialEq> PartialEq for ContextError<C> {
    ghost eq = { eq_of_both (on (λ e. e.contexts) (pointwise C.eq))
        (on (λ e. e.cause) (option_eq (pointwise nat_eq))) };

    ghost laws = { Prim.search (comparing, rules) depth 9 };

    fn eq(&self, other: &Self) -> bool {
        self.context == other.context && self.cause == other.cause
    }
}

/// Prints what a derived `Debug` would print.
impl<C: fmt::Debug> fmt::Debug for ContextError<C> {
    ghost debug_output = { explanation_debug C.debug_output };

    fn fmt<W: fmt::Write>(&self, f: &mut fmt::Formatter<W>) -> fmt::Result {
        if f.alternate() {
            let mut fields = f.debug_struct("ContextError");
            return fields
                .field("context", &self.context)
                .field("cause", &self.cause)
                .finish();
        }
        f.write_str("ContextError { context: ")?;
        self.context.fmt(f)?;
        f.write_str(", cause: ")?;
        self.cause.fmt(f)?;
        f.write_str(" }")
    }
}
