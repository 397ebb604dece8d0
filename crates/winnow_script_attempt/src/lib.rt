//! Attempts one step of a script on what is kept of an input that comes in pieces.
//!
//! An attempt answers the step, or says that the step waits and what it has settled. The next
//! attempt resumes after what is settled, and answers as one from the start would. `Kept` is the
//! stream over what is kept; its flag says whether more may follow. `calls` looks at calls, and
//! `searches` at comparisons and searches. `attempts` says whether the step waits and what it has
//! settled; `missing` says which input a waiting step lacks. The feeds are built on this crate; a
//! parser does not need it.
#![tactic(auto)]

mod attempts;
mod calls;
mod kept;
mod laws;
mod missing;
mod searches;
mod told;

pub use attempts::{Attempt, attempt_step};
pub use calls::{Seen, Settled, Standing};
pub use kept::Kept;
pub use laws::told_equality_law;
pub use missing::step_missing;
pub use told::Told;
