//! What is to be read and written.

ghost use Rattle.std.specs.Prelude.{◌≡◌, None, IfSome, IfOk, IsUtf8, true, false};
ghost use Rattle.csv.specs.Records.{fields_of, AllText};
ghost use Rattle.wb_csv.specs.Settings.{Refuses, Fits, Chooses};

use crate::lines::field;
use format_csv::ByteRecord;
use std::alloc::AllocError;
use std::str;

/// How a record is written.
#[derive(Clone, Copy, Debug, Drop, PartialEq, Eq)]
pub enum Layout {
    /// As comma-separated values, with quotes only where a field needs them
    Csv,
    /// As an array of JSON
    Json,
    /// Not at all
    Nothing,
}

/// Which records are read, and how they are written.
#[derive(Debug, Drop)]
pub struct Settings {
    /// How a record is written
    pub layout: Layout,
    /// The indices of the fields that are written; if there are none, all are
    pub columns: Vec<usize>,
    /// How many fields each record must have
    pub least: usize,
    /// Whether records may have other numbers of fields than the first one
    pub ragged: bool,
    /// The byte between the fields of a record. It takes the place of the comma as the input is
    /// read, and the comma its place, and so again as a field is written
    pub delimiter: u8,
    /// How many bytes a record may have, with its end
    pub limit: usize,
}

/// What a record lacks.
#[derive(Clone, Copy, Debug, Drop, PartialEq, Eq)]
pub enum Wanted {
    /// This number of fields, that of the first record
    First(usize),
    /// At least this one, since this column is chosen
    Column(usize),
    /// Only text of UTF-8, since it is written as JSON
    Text,
}

impl Settings {
    /// Chooses one more column, counted from 1, and returns whether there can be one.
    pub fn choose(&mut self, column: usize) -> Result<bool, AllocError>
        ensures { IfOk result (λ can. can ≡ true → Chooses self.old column self.new) }
    {
        if column == 0 {
            return Ok(false);
        }
        self.columns.push(column - 1)?;
        self.least = self.least.max(column);
        Ok(true)
    }

    /// Returns what a record lacks after a first one of this width, if it lacks anything.
    pub fn refusal(&self, width: Option<usize>, row: &ByteRecord) -> Option<Wanted>
        ensures refuses { IfSome result (λ wanted.
            Refuses self.now width (fields_of row.now) wanted) }
        ensures fits { result ≡ None → Fits self.now width (fields_of row.now) }
    {
        let fields = row.len();
        if let Some(first) = width {
            if !self.ragged && first != fields {
                return Some(Wanted::First(first));
            }
        }
        if fields < self.least {
            return Some(Wanted::Column(self.least));
        }
        if self.layout == Layout::Json && !is_text(row) {
            return Some(Wanted::Text);
        }
        None
    }
}

// Returns whether the bytes are no UTF-8.
fn is_broken(bytes: &[u8]) -> bool
    ensures yes { result ≡ true → ¬ (IsUtf8 bytes.now) }
    ensures no { result ≡ false → IsUtf8 bytes.now }
{
    match str::from_utf8(bytes) {
        Ok(_) => false,
        Err(_) => true,
    }
}

// Returns whether each field is UTF-8.
fn is_text(row: &ByteRecord) -> bool
    ensures yes { result ≡ true → AllText (fields_of row.now) }
    ensures no { result ≡ false → ¬ (AllText (fields_of row.now)) }
{
    for place in 0..row.len() {
        if is_broken(field(row, place)) {
            return false;
        }
    }
    true
}
