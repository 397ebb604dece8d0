//! The line feeds and the number of fields of the records so far.

ghost use Rattle.std.specs.Prelude.{◌≡◌, ◌+◌, ◌<◌, ◌^◌, length, Some, OnOk, IfErr};
ghost use Rattle.example_csv.specs.Positions.{feeds_of};
ghost use Rattle.example_csv.specs.Copying.{FitsWidth, IsOtherWidth};

use crate::failure::Failure;
use crate::positions::line_feeds_of;

/// What is kept of the records that were read.
#[derive(Clone, Copy, Debug, Drop)]
pub struct Progress {
    /// How many line feeds they took
    pub feeds: usize,
    /// The number of fields of the first one
    pub width: Option<usize>,
}

impl Progress {
    /// Counts a record, if it has as many fields as the first one.
    pub fn count(&mut self, fields: &[Vec<u8>]) -> Result<(), Failure>
        requires { self.old.feeds + feeds_of fields.now < 2 ^ 64 }
        ensures feeds { OnOk result (self.new.feeds ≡ self.old.feeds + feeds_of fields.now) }
        ensures width { OnOk result (self.new.width ≡ Some (length fields.now)) }
        ensures even { OnOk result (FitsWidth self.old.width (length fields.now)) }
        ensures uneven { IfErr result (IsOtherWidth self.old (length fields.now)) }
    {
        let feeds = line_feeds_of(fields);
        match self.width {
            Some(first) if first != fields.len() => Err(Failure::Uneven {
                line: self.feeds + 1,
                fields: fields.len(),
                first,
            }),
            _ => {
                self.feeds += feeds;
                self.width = Some(fields.len());
                Ok(())
            }
        }
    }
}
