//! A `Fault`: the place at which a line stops being a setting, and the part `Wanted` there.

ghost use Rattle.std.specs.Prelude.{◌≡◌, IfOk, IsTrue, IsFalse};
ghost use Rattle.winnow_stream.specs.Front.{is_offset};
ghost use Rattle.winnow_stream.specs.Text.{text_source};

use std::alloc::{AllocError, Global};
use winnow_error::FromRecoverableError;
use winnow_error_context::{ContextError, StrContext, StrContextValue};
use winnow_error_parse::ParseError;
use winnow_stream::{Location, Stream, front_law};

/// The part with which a setting would have gone on.
#[derive(Clone, Copy, Debug, PartialEq, Eq)]
pub enum Wanted {
    /// Letters
    Key,
    /// The sign between the key and the value
    Equals,
    /// Some characters before the end of the line
    Value,
}

impl Wanted {
    /// Returns the context that stands for it in the library's errors.
    pub fn as_context(self) -> StrContext {
        StrContext::Expected(match self {
            Wanted::Key => StrContextValue::Description("a key"),
            Wanted::Equals => StrContextValue::CharLiteral('='),
            Wanted::Value => StrContextValue::Description("a value"),
        })
    }
}

/// The record of a line that is no setting: where in the input it breaks off, and what was wanted
/// there.
#[derive(Debug, Drop)]
pub struct Fault {
    /// The place in the input
    pub offset: usize,
    /// The part that was wanted
    pub error: ContextError<Wanted>,
}

impl<I: Stream + Location> FromRecoverableError<I, ContextError<Wanted>> for Fault {
    ghost recovered = { λ _ _ input error. record
        { offset = I.token_start input; error = error } };

    fn from_recoverable_error(
        _token_start: &I::Checkpoint,
        _err_start: &I::Checkpoint,
        input: &I,
        error: ContextError<Wanted>,
    ) -> Self {
        Fault {
            offset: input.current_token_start(),
            error,
        }
    }
}

impl Fault {
    /// Returns the error that says the line and the column in the text, and shows that line. If the
    /// place is not an offset of the text, the error is at the start of the text.
    pub fn located<'t>(
        &self,
        alloc: Global,
        text: &'t str,
    ) -> Result<ParseError<&'t str, ContextError<StrContext>>, AllocError>
        ensures text { IfOk result (λ error. text_source error.input.now ≡ text_source text.now) }
        ensures place { IfOk result (λ error.
            IsTrue (is_offset (text_source text.now) self.now.offset)
            → error.offset ≡ self.now.offset) }
        ensures start { IfOk result (λ error.
            IsFalse (is_offset (text_source text.now) self.now.offset) → error.offset ≡ 0) }
    {
        front_law::<char>();
        let mut error = ContextError::new(alloc);
        error.push(StrContext::Label("setting"))?;
        for wanted in self.error.context() {
            error.push(wanted.as_context())?;
        }
        let mut input = text;
        let start = input.checkpoint();
        if input.is_offset(self.offset) {
            let _ = input.next_slice(self.offset);
        }
        Ok(ParseError::new(input, start, error))
    }
}
