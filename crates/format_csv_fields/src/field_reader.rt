//! `FieldReader`: fields, one after the other, from bytes that come in pieces.

ghost use Rattle.std.specs.Prelude.{◌≡◌};

use crate::after::{Ending, is_comma};
use crate::finding::{Found, find};
use crate::lending::{Lent, lend};
use crate::looking::{Looked, Text, look, looked_at};
use format_csv::Row;
use std::alloc::{AllocError, Global};
use std::marker::Model;
use winnow_reader::{ByteReader, Next};

/// Why a reader has no field. What it has ahead is as before, so the same call may be made again:
/// an error with a place is found again, and memory may be there then.
#[derive(Debug, Drop)]
pub enum FieldError {
    /// The field is damaged, and so is its record
    Damaged {
        /// The offset in the joined input of the byte at which it breaks off, or the length of the
        /// input where a closing quote is missing
        place: usize,
    },
    /// The field is longer than the limit, as it stands: with its quotes
    TooLong {
        /// The offset in the joined input of the first byte that is too much
        place: usize,
    },
    /// Memory was refused
    Refused(AllocError),
}

/// A reader of the fields of records from bytes that come in pieces.
///
/// Contracts see where the next field begins in the joined input, the bytes ahead of it, whether
/// the input has ended, whether a comma came before in the record, and the value that is lent.
///
/// ```
/// let mut reader = FieldReader::new(alloc);
/// ..
/// reader.end();
/// ```
#[derive(Drop)]
pub struct FieldReader {
    reader: ByteReader<Row>,
    // How many of the bytes that are ahead of `reader` fields took.
    at: usize,
    // How far the next field was looked at.
    looked: Looked,
    // Whether a comma came before the next field.
    within: bool,
    lent: Lent,
    // A value in which a quote is doubled is put together here.
    value: Vec<u8>,
    limit: usize,
}

impl Model for FieldReader {
    ghost use Rattle.std.specs.Prelude.{◌≤◌, drop, length};
    ghost use Rattle.winnow_reader.specs.State.{taken_by};
    ghost use Rattle.format_csv_fields.specs.FieldState.{FieldState};
    ghost use Rattle.format_csv_fields.specs.Lending.{lent_bytes, IsLent};
    ghost use Rattle.format_csv_fields.specs.Looking.{IsLooked};

    ghost Value = { FieldState };

    ghost view = { λ r. record {
      state = taken_by r.reader r.at;
      within = r.within;
      field = lent_bytes r.lent r.reader.ahead r.value.items;
      limit = r.limit;
    } };

    ghost invariant = { λ r. (r.at ≤ length r.reader.ahead)
        × IsLooked (drop r.at r.reader.ahead) r.looked
        × IsLent r.lent r.reader.ahead };
}

impl FieldReader {
    ghost use Rattle.std.specs.Prelude.{◌≡◌, ◌≢◌, ◌+◌, ◌-◌, ◌≤◌, ◌<◌, ◌^◌, []};
    ghost use Rattle.std.specs.Prelude.{true, false, length};
    ghost use Rattle.std.specs.Prelude.{OnOk, OnErr};
    ghost use Rattle.winnow_reader.specs.State.{fed_of};
    ghost use Rattle.winnow_reader.specs.SameValues.{IsThrough};
    ghost use Rattle.format_csv_fields.specs.declared.finding.Found.TheVariants.{Field};
    ghost use Rattle.format_csv_fields.specs.Looking.{IsText};
    ghost use Rattle.format_csv_fields.specs.Finding.{Finds};
    ghost use Rattle.format_csv_fields.specs.FieldState.{lends_nothing};
    ghost use Rattle.format_csv_fields.specs.FieldState.{new_reader, fields_pushed};
    ghost use Rattle.format_csv_fields.specs.FieldState.{fields_unspent, fields_ended};
    ghost use Rattle.format_csv_fields.specs.Reading.{HasRead, ReadsAlso, ReadsThrough};
    ghost use Rattle.format_csv_fields.specs.Reading.{ReadsOn, ReadsNext, TellsDamage};
    ghost use Rattle.format_csv_fields.specs.Reading.{TakesField};

    /// Returns a reader that nothing was pushed to, of fields of any length.
    pub fn new(alloc: Global) -> FieldReader
        ensures state { result ≡ new_reader (2 ^ 64 - 1) }
        ensures read { HasRead result [] [] [] }
    {
        FieldReader::with_limit(alloc, usize::MAX)
    }

    /// Returns a reader that nothing was pushed to, of fields of at most this many bytes, as they
    /// stand: with their quotes. Whether a field is too long depends on the input alone.
    pub fn with_limit(alloc: Global, limit: usize) -> FieldReader
        ensures state { result ≡ new_reader limit }
        ensures read { HasRead result [] [] [] }
    {
        FieldReader {
            reader: ByteReader::new(alloc, Row),
            at: 0,
            looked: Looked::Plain(0),
            within: false,
            lent: Lent::Nothing,
            value: Vec::new(alloc),
            limit,
        }
    }

    /// Appends a piece to what is ahead, and drops what fields took, so nothing is lent after it.
    /// When memory is refused, nothing else has changed, and the same piece may be pushed again.
    pub fn push(&mut self, piece: &[u8]) -> Result<(), AllocError>
        requires goes_on { self.old.state.ended ≡ false }
        requires fits { fed_of self.old.state + length piece.now < 2 ^ 64 }
        ensures ok { OnOk result (self.new ≡ fields_pushed self.old piece.now) }
        ensures read { OnOk result (ReadsAlso self.old piece.now self.new) }
        ensures refused { OnErr result (self.new ≡ fields_unspent self.old) }
    {
        self.lent = Lent::Nothing;
        self.reader.skip(self.at);
        self.at = 0;
        self.reader.push(piece)?;
        Ok(())
    }

    /// Notes that nothing more follows. What is lent is lent still.
    pub fn end(&mut self)
        ensures state { self.new ≡ fields_ended self.old }
        ensures read { ReadsThrough self.old self.new }
    {
        self.reader.end();
    }

    /// Reads the next field, and returns what ended it. [`field`](Self::field) lends its value
    /// until the next call.
    ///
    /// After anything but a value nothing is lent, all that is ahead is still there, and the call
    /// may be made again. More is needed only before the end, and while no field with its ending
    /// stands ahead and more can make one; then at most one byte more is ahead than the limit.
    pub fn read_next(&mut self) -> Result<Next<Ending>, FieldError>
        ensures read { ReadsOn self.old result self.new }
        ensures next { ReadsNext self.old result self.new }
        ensures damage { TellsDamage self.old result }
    {
        self.read_field()
    }

    // Reads it, and says what that makes of the reader alone.
    fn read_field(&mut self) -> Result<Next<Ending>, FieldError>
        ensures { ReadsNext self.old result self.new }
    {
        if self.is_through() {
            self.lent = Lent::Nothing;
            return Ok(Next::Done);
        }
        let text = self.look_ahead();
        match find(self.ahead(), text, self.has_ended(), self.limit()) {
            Found::Field(ending, length) => match self.take(text, ending, length) {
                Ok(()) => Ok(Next::Value(ending)),
                Err(refused) => Err(FieldError::Refused(refused)),
            },
            Found::NeedsMore => Ok(Next::NeedsMore),
            Found::Damaged(offset) => {
                let place = self.place_of(offset);
                Err(FieldError::Damaged { place })
            }
            Found::TooLong => {
                let place = self.place_of(self.limit());
                Err(FieldError::TooLong { place })
            }
        }
    }

    // Returns whether the input has ended, nothing of it remains, and no comma came before.
    fn is_through(&self) -> bool
        ensures through { result ≡ true → IsThrough self.now.state × (self.now.within ≡ false) }
        ensures not { result ≡ false → self.now.within ≡ false → self.now.state.ended ≡ true
            → self.now.state.ahead ≢ [] }
    {
        self.has_ended() && !self.within && self.ahead().is_empty()
    }

    // Lends nothing any more, and returns the text that is ahead.
    fn look_ahead(&mut self) -> Text
        ensures same { self.new ≡ lends_nothing self.old }
        ensures text { IsText self.new.state.ahead result }
    {
        self.lent = Lent::Nothing;
        let kept = self.reader.ahead();
        let bytes = &kept[self.at..];
        let text = look(bytes, self.looked);
        self.looked = looked_at(text, bytes.len());
        text
    }

    // Moves past the field that was found, and lends it.
    fn take(&mut self, text: Text, ending: Ending, length: usize) -> Result<(), AllocError>
        requires text { IsText self.old.state.ahead text }
        requires found { Finds self.old.state.ended self.old.limit self.old.state.ahead text
            (Field ending length) }
        requires some { self.old.within ≡ false → self.old.state.ended ≡ true
            → self.old.state.ahead ≢ [] }
        ensures taken { OnOk result (TakesField self.old ending self.new) }
        ensures refused { OnErr result (self.new ≡ lends_nothing self.old) }
    {
        self.lent = Lent::Nothing;
        self.lent = lend(self.reader.ahead(), self.at, text, &mut self.value)?;
        self.at += length;
        self.looked = Looked::Plain(0);
        self.within = is_comma(ending);
        Ok(())
    }

    // Returns the place of an offset of the bytes ahead.
    fn place_of(&self, offset: usize) -> usize
        requires { offset ≤ length self.now.state.ahead }
        ensures { result ≡ self.now.state.place + offset }
    {
        self.reader.fed() - (self.reader.ahead().len() - self.at - offset)
    }
}

impl FieldReader {
    ghost use Rattle.std.specs.Prelude.{◌≡◌};
    ghost use Rattle.winnow_reader.specs.State.{bytes_kept, fed_of};

    /// Lends the value of the field that the last call has read: without the quotes around it, and
    /// with each doubled quote as one. It is empty where the last call read none.
    pub fn field(&self) -> &[u8]
        ensures { result.now ≡ self.now.field }
    {
        match self.lent {
            Lent::Nothing => &[],
            Lent::Kept(from, to) => &self.reader.ahead()[from..to],
            Lent::Value => &self.value,
        }
    }

    /// Returns whether a comma came before the next field, so that its record has begun.
    pub fn is_within(&self) -> bool
        ensures { result ≡ self.now.within }
    {
        self.within
    }

    /// Returns how many bytes a field may have.
    pub fn limit(&self) -> usize
        ensures { result ≡ self.now.limit }
    {
        self.limit
    }

    /// Returns how many bytes are kept: those ahead, and those that fields took since the last
    /// piece.
    pub fn held(&self) -> usize
        ensures { result ≡ bytes_kept self.now.state }
    {
        self.reader.held()
    }

    /// Returns where the next field begins in the joined input: how many bytes fields took.
    pub fn place(&self) -> usize
        ensures { result ≡ self.now.state.place }
    {
        self.place_of(0)
    }

    /// Returns the length of the joined input so far.
    pub fn fed(&self) -> usize
        ensures { result ≡ fed_of self.now.state }
    {
        self.reader.fed()
    }

    /// Returns the bytes that no field took yet.
    pub fn ahead(&self) -> &[u8]
        ensures { result.now ≡ self.now.state.ahead }
    {
        &self.reader.ahead()[self.at..]
    }

    /// Returns whether the input has ended.
    pub fn has_ended(&self) -> bool
        ensures { result ≡ self.now.state.ended }
    {
        self.reader.has_ended()
    }
}
