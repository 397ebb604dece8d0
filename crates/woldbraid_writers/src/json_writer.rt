//! `JsonWriter`: a generator of a JSON text, call by call.

ghost use Rattle.std.specs.Prelude.{◌≡◌, length};
ghost use Rattle.std.specs.Fmt.{signed_decimal};
ghost use Rattle.format_json.specs.Language.{null_word, bool_word};
ghost use Rattle.woldbraid_writers.specs.Drafts.{draft_of, new_draft, after_value};
ghost use Rattle.woldbraid_writers.specs.Drafts.{deep_bar, value_bar, name_bar};
ghost use Rattle.woldbraid_writers.specs.Drafts.{Writes, AddsValue};
ghost use Rattle.woldbraid_writers.specs.Drafts.{Word, Number, Quoted, Name, Start, Finish};
ghost use Rattle.woldbraid_writers.specs.Lending.{is_whole, Forgets, Lends};

use crate::append::{write_name, write_quoted, write_text};
use crate::due::{Bracket, Due};
use crate::status::Status;
use crate::written::Written;
use format_json_scalars::is_number;
use itoa::Buffer;
use std::alloc::Global;

/// A generator of a JSON text, without blanks.
///
/// What would not be JSON is refused, and then what was written is what it was. In a string a
/// quote, a backslash and the control characters are escaped, and all other characters stand for
/// themselves.
#[derive(Drop)]
pub struct JsonWriter {
    /// What was written and not dropped
    pub text: Vec<u8>,
    /// What the brackets begin that are open, of which the last is the innermost
    pub open: Vec<Bracket>,
    /// What may come next
    pub due: Due,
    /// Within how many arrays and objects a value may stand
    pub depth: usize,
}

impl JsonWriter {
    /// Returns a writer that has written nothing, of a text whose values stand within at most
    /// `depth` arrays and objects.
    pub fn new(alloc: Global, depth: usize) -> JsonWriter
        ensures { draft_of result ≡ new_draft depth }
    {
        JsonWriter {
            text: Vec::new(alloc),
            open: Vec::new(alloc),
            due: Due::Value,
            depth,
        }
    }

    /// Writes `null`.
    pub fn write_null(&mut self) -> Status
        ensures { Writes (draft_of self.old) (Word null_word) result (draft_of self.new) }
    {
        self.add_word(b"null")
    }

    /// Writes `true` or `false`.
    pub fn write_bool(&mut self, value: bool) -> Status
        ensures { Writes (draft_of self.old) (Word (bool_word value)) result (draft_of self.new) }
    {
        if value {
            return self.add_word(b"true");
        }
        self.add_word(b"false")
    }

    /// Writes an integer.
    pub fn write_integer(&mut self, number: i64) -> Status
        ensures { Writes (draft_of self.old) (Word (signed_decimal number)) result
            (draft_of self.new) }
    {
        let mut digits = Buffer::new();
        self.add_word(digits.format(number).as_bytes())
    }

    /// Writes a number by its text, which must be one of JSON.
    pub fn write_number(&mut self, text: &[u8]) -> Status
        ensures { Writes (draft_of self.old) (Number text.now) result (draft_of self.new) }
    {
        if !is_number(text) {
            return Status::NoNumber;
        }
        self.add_word(text)
    }

    /// Writes a string of these bytes, which must be UTF-8.
    pub fn write_string(&mut self, text: &[u8]) -> Status
        ensures { Writes (draft_of self.old) (Quoted text.now) result (draft_of self.new) }
    {
        let Ok(text) = str::from_utf8(text) else {
            return Status::BadUtf8;
        };
        if let Some(status) = self.value_bar() {
            return status;
        }
        if write_quoted(self.due, text, &mut self.text).is_err() {
            return Status::Refused;
        }
        self.due = self.after_value();
        Status::Ok
    }

    /// Writes the name of a member, whose value comes next. Its bytes must be UTF-8. Names that are
    /// the same are no fault.
    pub fn write_name(&mut self, text: &[u8]) -> Status
        ensures { Writes (draft_of self.old) (Name text.now) result (draft_of self.new) }
    {
        let Ok(text) = str::from_utf8(text) else {
            return Status::BadUtf8;
        };
        if let Some(status) = self.name_bar() {
            return status;
        }
        if write_name(self.due, text, &mut self.text).is_err() {
            return Status::Refused;
        }
        self.due = Due::Value;
        Status::Ok
    }

    /// Begins an array or an object.
    pub fn start(&mut self, bracket: Bracket) -> Status
        ensures { Writes (draft_of self.old) (Start bracket) result (draft_of self.new) }
    {
        if let Some(status) = self.value_bar() {
            return status;
        }
        if self.open.reserve(1).is_err() {
            return Status::Refused;
        }
        if write_text(self.due, &[bracket.opening()], &mut self.text).is_err() {
            return Status::Refused;
        }
        let Ok(()) = self.open.push(bracket) else {
            unreachable!()
        };
        self.due = bracket.first_in();
        Status::Ok
    }

    /// Ends the innermost array or object, which must be of this kind.
    pub fn finish(&mut self, bracket: Bracket) -> Status
        ensures { Writes (draft_of self.old) (Finish bracket) result (draft_of self.new) }
    {
        if !self.due.takes_end(bracket) {
            return Status::Unexpected;
        }
        if self.text.push(bracket.closing()).is_err() {
            return Status::Refused;
        }
        let _ = self.open.pop();
        self.due = self.after_value();
        Status::Ok
    }

    /// Returns what was written and not dropped.
    pub fn written(&self) -> Written
        ensures { Lends self.now.text result }
    {
        Written {
            text: self.text.as_ptr(),
            length: self.text.len(),
        }
    }

    /// Drops what was written. The text goes on after it.
    pub fn forget(&mut self)
        ensures { Forgets (draft_of self.old) (draft_of self.new) }
    {
        self.text.clear();
    }

    /// Returns how many arrays and objects are open.
    pub fn level(&self) -> usize
        ensures { result ≡ length self.now.open.items }
    {
        self.open.len()
    }

    /// Returns whether the text is whole.
    pub fn is_whole(&self) -> bool
        ensures { result ≡ is_whole self.now.due }
    {
        match self.due {
            Due::Nothing => true,
            _ => false,
        }
    }

    // Writes a value by its text.
    fn add_word(&mut self, text: &[u8]) -> Status
        ensures { AddsValue (draft_of self.old) text.now result (draft_of self.new) }
    {
        if let Some(status) = self.value_bar() {
            return status;
        }
        if write_text(self.due, text, &mut self.text).is_err() {
            return Status::Refused;
        }
        self.due = self.after_value();
        Status::Ok
    }

    // Returns why a value may not come next, if it may not.
    fn value_bar(&self) -> Option<Status>
        ensures { result ≡ value_bar (draft_of self.now) }
    {
        if !self.due.takes_value() {
            return Some(Status::Unexpected);
        }
        self.deep_bar()
    }

    // Returns why a name may not come next, if it may not.
    fn name_bar(&self) -> Option<Status>
        ensures { result ≡ name_bar (draft_of self.now) }
    {
        if !self.due.takes_name() {
            return Some(Status::Unexpected);
        }
        self.deep_bar()
    }

    // Returns that a value would stand too deep, if it would.
    fn deep_bar(&self) -> Option<Status>
        ensures { result ≡ deep_bar (draft_of self.now) }
    {
        if self.depth < self.open.len() {
            return Some(Status::TooDeep);
        }
        None
    }

    // Returns what may come after a value.
    fn after_value(&self) -> Due
        ensures { result ≡ after_value self.now.open.items }
    {
        match self.open.last() {
            Some(Bracket::Array) => Due::NextValue,
            Some(Bracket::Object) => Due::NextName,
            None => Due::Nothing,
        }
    }
}
