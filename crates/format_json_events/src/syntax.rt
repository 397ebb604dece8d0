//! The state of a reader of events: open brackets, and the tokens allowed next.

ghost use Rattle.std.specs.Prelude.{◌≡◌, ◌+◌, ◌<◌, ◌≤◌, [], vec_len, vec_capacity, OnOk, IfErr};
ghost use Rattle.format_json_events.specs.Turns.{TextState, state_of, at_begin, after_value};
ghost use Rattle.format_json_events.specs.Turns.{inner_of};
ghost use Rattle.format_json_events.specs.Turns.{is_deep, turn_at, after_turn, answer_of, bar_from};
ghost use Rattle.format_json_events.specs.Turns.{opened, start_of, closed, finish_of};
ghost use Rattle.format_json_events.specs.declared.turns.Turn.TheVariants.{Ends, Refuses};
ghost use Rattle.format_json_events.specs.declared.turns.Expected.TheVariants as expect;
ghost use Rattle.format_json.specs.declared.tokens.Token.TheVariants as token;

use crate::Event;
use crate::turns::{Bracket, Expected, Misplaced, Turn, begins_plain, scalar_bar, turn_of};
use format_json::Token;
use std::alloc::{AllocError, Global};

/// What came of a token that may stand where it does.
#[derive(Debug, Drop)]
pub(crate) enum Taken {
    /// It has this event
    Has(Event),
    /// It has none
    Passes,
}

/// Where a text stands between two tokens.
#[derive(Drop)]
pub(crate) struct Syntax {
    /// What the brackets begin that are open, of which the last is the innermost
    pub(crate) open: Vec<Bracket>,
    /// What may come next
    pub(crate) expected: Expected,
    /// The most arrays and objects within which a value may stand
    pub(crate) depth: usize,
}

impl Syntax {
    /// Returns the start of a text.
    pub(crate) fn new(alloc: Global, depth: usize) -> Syntax
        ensures { state_of result ≡ at_begin depth }
    {
        Syntax {
            open: Vec::new(alloc),
            expected: Expected::Value,
            depth,
        }
    }

    /// Makes room for one more array or object.
    pub(crate) fn make_room(&mut self) -> Result<(), AllocError>
        ensures same { state_of self.new ≡ state_of self.old }
        ensures room { OnOk result (vec_len self.new.open < vec_capacity self.new.open) }
    {
        self.open.reserve(1)
    }

    /// Takes a token, if it may stand there. Room is made before.
    pub(crate) fn take(&mut self, token: Token) -> Result<Taken, Misplaced>
        requires room { vec_len self.old.open < vec_capacity self.old.open }
        ensures state { state_of self.new
            ≡ after_turn (state_of self.old) (turn_at (state_of self.old) token) }
        ensures answer { result ≡ answer_of (turn_at (state_of self.old) token) }
    {
        match turn_of(self.is_deep(), self.inner(), self.expected, token) {
            Turn::Opens(bracket) => Ok(Taken::Has(self.begin(bracket))),
            Turn::Closes(bracket) => Ok(Taken::Has(self.finish(bracket))),
            Turn::Gives(event) => {
                self.expected = self.after_value();
                Ok(Taken::Has(event))
            }
            Turn::Names(name) => {
                self.expected = Expected::Colon;
                Ok(Taken::Has(Event::Key(name)))
            }
            Turn::Passes(expected) => {
                self.expected = expected;
                Ok(Taken::Passes)
            }
            Turn::Ends => Ok(Taken::Passes),
            Turn::Refuses(misplaced) => Err(misplaced),
        }
    }

    /// Says whether the end of the text may stand there.
    pub(crate) fn take_end(&self) -> Result<(), Misplaced>
        ensures ok { OnOk result (turn_at (state_of self.now) token.End ≡ Ends) }
        ensures expected { OnOk result (self.now.expected ≡ expect.End) }
        ensures refused { IfErr result (λ misplaced.
            turn_at (state_of self.now) token.End ≡ Refuses misplaced) }
    {
        match self.expected {
            Expected::End => Ok(()),
            _ => Err(Misplaced::EndsEarly),
        }
    }

    /// Returns why the string, the number or the word that the byte begins may not stand there;
    /// `None` where it may, or where the byte begins none of these.
    pub(crate) fn bar_from(&self, first: u8) -> Option<Misplaced>
        ensures { result ≡ bar_from (state_of self.now) first }
    {
        if first == b'"' {
            return scalar_bar(self.is_deep(), true, self.expected);
        }
        if begins_plain(first) {
            return scalar_bar(self.is_deep(), false, self.expected);
        }
        None
    }

    // Returns whether a value would stand too deep.
    fn is_deep(&self) -> bool
        ensures { result ≡ is_deep (state_of self.now) }
    {
        self.depth < self.open.len()
    }

    // Returns what the innermost bracket begins, or an array where none is open.
    fn inner(&self) -> Bracket
        ensures { result ≡ inner_of self.now.open.items }
    {
        match self.open.last() {
            Some(bracket) => *bracket,
            None => Bracket::Array,
        }
    }

    // Returns what comes after a value.
    fn after_value(&self) -> Expected
        ensures { result ≡ after_value self.now.open.items }
    {
        if self.open.is_empty() {
            return Expected::End;
        }
        Expected::Next
    }

    // Begins an array or an object.
    fn begin(&mut self, bracket: Bracket) -> Event
        requires room { vec_len self.old.open < vec_capacity self.old.open }
        ensures state { state_of self.new ≡ opened (state_of self.old) bracket }
        ensures event { result ≡ start_of bracket }
    {
        let Ok(()) = self.open.push(bracket) else {
            unreachable!()
        };
        match bracket {
            Bracket::Array => {
                self.expected = Expected::FirstValue;
                Event::StartArray
            }
            Bracket::Object => {
                self.expected = Expected::FirstKey;
                Event::StartObject
            }
        }
    }

    // Ends the innermost array or object.
    fn finish(&mut self, bracket: Bracket) -> Event
        ensures state { state_of self.new ≡ closed (state_of self.old) }
        ensures event { result ≡ finish_of bracket }
    {
        let _ = self.open.pop();
        self.expected = self.after_value();
        match bracket {
            Bracket::Array => Event::EndArray,
            Bracket::Object => Event::EndObject,
        }
    }
}
