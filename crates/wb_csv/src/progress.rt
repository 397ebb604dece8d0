//! What is kept of the records so far.

ghost use Rattle.std.specs.Prelude.{◌≡◌, ◌+◌, ◌<◌, ◌^◌, length, OnOk, IfErr};
ghost use Rattle.csv.specs.Records.{fields_of};
ghost use Rattle.wb_csv.specs.Settings.{Fits};
ghost use Rattle.wb_csv.specs.Progress.{feeds_of, kept_width, IsOther};

use crate::failure::Failure;
use crate::lines::field;
use crate::settings::Settings;
use format_csv::ByteRecord;
use wb_base::line_feeds;

/// What is kept of the records that were read.
#[derive(Clone, Copy, Debug, Drop)]
pub struct Progress {
    /// How many line feeds they took
    pub feeds: usize,
    /// The number of fields of the first one
    pub width: Option<usize>,
}

impl Progress {
    /// Counts a record, if it lacks nothing.
    pub fn count(&mut self, settings: &Settings, row: &ByteRecord) -> Result<(), Failure>
        requires { self.old.feeds + feeds_of (fields_of row.now) < 2 ^ 64 }
        ensures feeds { OnOk result (self.new.feeds
            ≡ self.old.feeds + feeds_of (fields_of row.now)) }
        ensures width { OnOk result (self.new.width
            ≡ kept_width self.old.width (length (fields_of row.now))) }
        ensures fits { OnOk result
            (Fits settings.now self.old.width (fields_of row.now)) }
        ensures other { IfErr result (IsOther settings.now self.old (fields_of row.now)) }
    {
        if let Some(wanted) = settings.refusal(self.width, row) {
            return Err(Failure::Uneven {
                line: self.feeds + 1,
                fields: row.len(),
                wanted,
            });
        }
        self.feeds += line_feeds_of(row);
        self.width = Some(self.width.unwrap_or(row.len()));
        Ok(())
    }
}

// Returns how many line feeds a record takes: those in its fields, and the one at its end.
fn line_feeds_of(row: &ByteRecord) -> usize
    requires { feeds_of (fields_of row.now) < 2 ^ 64 }
    ensures { result ≡ feeds_of (fields_of row.now) }
{
    // Few records have line feeds in their fields, and their bytes are quickly gone over.
    let feeds = line_feeds(row.as_slice());
    if feeds == 0 {
        return 1;
    }
    let mut count = 1;
    for place in 0..row.len() {
        count += line_feeds(field(row, place));
    }
    count
}
