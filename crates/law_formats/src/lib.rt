//! A call of each law of the formats. Nothing here is part of the library.
#![tactic(auto)]

mod liveness;

use format_csv::rows_in_pieces_law;
use format_csv_fields::field_rows_law;
use format_json::{place_law, round_trip_law};
use format_json_events::{events_law, stops_law};
use format_resp::{cause_law, spelling_law};
pub use liveness::{call_live_laws, reply_live_law, row_live_law, token_live_law};

/// Calls each law: a caller then knows what it says.
pub fn call_laws() {
    rows_in_pieces_law();
    field_rows_law();
    spelling_law();
    cause_law();
    place_law();
    round_trip_law();
    events_law();
    stops_law();
}
