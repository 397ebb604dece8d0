//! The scan of a record.

ghost use Rattle.std.specs.Prelude.{◌≡◌, Some};
ghost use Rattle.winnow_scan.specs.Scanning.{GoesOn};
ghost use Rattle.format_csv.specs.Reading.{RowInPieces};
ghost use Rattle.format_csv.specs.Scan.{step, run};
ghost use Rattle.format_csv.specs.declared.scan.RowState.TheVariants.{Start};

use crate::Row;
use winnow_scan::Scan;

/// Where the scan of a record is.
#[derive(Clone, Copy, Debug, Drop, PartialEq, Eq)]
pub enum RowState {
    /// At the beginning of a field
    Start,
    /// In a field without quotes
    Plain,
    /// Between quotes
    Quoted,
    /// After a quote that closes a field, or is the first of two
    Closed,
    /// After CR
    Return,
}

/// The scan stops at the byte that may end the record, or is wrong in it.
impl Scan for Row {
    type State = RowState;

    ghost scanned = { λ _ bytes state. run (Some Start) bytes ≡ Some state };

    fn start(&self) -> RowState {
        RowState::Start
    }

    fn scan(&self, state: &mut RowState, more: &[u8]) -> bool {
        match go_over(*state, more) {
            Some(next) => {
                *state = next;
                false
            }
            None => true,
        }
    }
}

// Returns where some bytes lead, if the record may go on after them.
fn go_over(state: RowState, more: &[u8]) -> Option<RowState>
    ensures { result ≡ run (Some state) more.now }
{
    let mut now = state;
    for byte in more {
        match step(now, *byte) {
            Some(next) => now = next,
            None => return None,
        }
    }
    Some(now)
}

// Returns where one byte leads, if the record may go on after it.
fn step(state: RowState, byte: u8) -> Option<RowState>
    ensures { result ≡ step state byte }
{
    match (state, byte) {
        (RowState::Return, _) => None,
        (RowState::Start, b'"') => Some(RowState::Quoted),
        (RowState::Quoted, b'"') => Some(RowState::Closed),
        (RowState::Quoted, _) => Some(RowState::Quoted),
        (RowState::Closed, b'"') => Some(RowState::Quoted),
        (_, b',') => Some(RowState::Start),
        (_, b'\r') => Some(RowState::Return),
        (RowState::Closed, _) => None,
        (_, b'"' | b'\n') => None,
        (_, _) => Some(RowState::Plain),
    }
}
