//! Scripts of calls, comparisons and searches over input that arrives in pieces.
//!
//! However the input is cut, a script answers as on the joined pieces. After each piece, a feed has
//! given out the longest front of answers that are all definite, each with the number of the piece
//! that made it so. The end gives out the rest. A feed keeps no byte that no later step can reach,
//! and a waiting step resumes after what it has settled. `waits_for` names an input that would
//! change the waiting step's answer, if there is one.
//!
//! `ByteFeed` and `TextFeed` take the pieces one by one; `run_pieces` and `run_pieces_text` take a
//! list of them. They share `winnow_script_attempt`, which attempts one step on what is kept, and
//! the private modules: `progress` runs steps until one waits; `named_marks` and `reach` say what
//! may then be dropped, and `buffers` drops it; `missing` says what the waiting step is missing.
#![tactic(auto)]

mod buffers;
mod feeds;
mod finished;
mod laws;
mod missing;
mod named_marks;
mod progress;
mod reach;
mod runs;
mod spelling;
mod text_feeds;
mod waiting;

pub use feeds::ByteFeed;
pub use finished::Finished;
pub use laws::{one_search_law, pieces_law, told_law, waiting_equality_law};
pub use runs::{run_pieces, run_pieces_text};
pub use text_feeds::TextFeed;
pub use waiting::Waiting;
pub use winnow_script_attempt::{Told, told_equality_law};
