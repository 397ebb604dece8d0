//! The liveness of the records of formats: a reader that has a whole record of comma-separated
//! values ahead, a whole token of JSON or a whole reply of the Redis protocol, returns it.

ghost use Rattle.format_csv.specs.Reading.{RowInPieces};
ghost use Rattle.format_json.specs.TokenAnswers.{OneToken};
ghost use Rattle.format_resp.specs.declared.grammar.ReplyTo.{ReplyTo};
ghost use Rattle.winnow_liveness.specs.Live.{IsLive};

use format_csv::Row;
use format_json::JsonToken;
use format_resp::ReplyTo;
use winnow_liveness::live_reading_law;
use winnow_reader::Record;

/// The parser of a record of comma-separated values asks for no more than it needs. It does
/// nothing when called: its contract is the law.
pub fn row_live_law()
    ensures { IsLive RowInPieces }
{}

/// The parser of a token of JSON asks for no more than it needs. It does nothing when called: its
/// contract is the law.
pub fn token_live_law()
    ensures { IsLive OneToken }
{}

/// The parser of a reply of the Redis protocol asks for no more than it needs, at any limits. It
/// does nothing when called: its contract is the law.
pub fn reply_live_law()
    ensures { (limits : ReplyTo) → IsLive (⟦<ReplyTo as Record>⟧.means limits) }
{}

/// Calls the law of readers at each record: a caller then knows what it says.
pub fn call_live_laws() {
    row_live_law();
    token_live_law();
    reply_live_law();
    live_reading_law::<Row>();
    live_reading_law::<JsonToken>();
    live_reading_law::<ReplyTo>();
}
