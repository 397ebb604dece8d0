//! Combinators: parsers that are made of parsers. The meaning of each is made of the meanings of
//! its parts alone.
#![tactic(auto, using(winnow_parser::proofs::lemmas::OnwardLemmas::onward_steps))]

mod again;
mod appended;
mod choice;
mod choice_to_seven;
mod choice_to_ten;
mod counts;
mod folding;
mod functions;
mod gather;
mod laws;
mod parsers;

pub use functions::{
    alt, backtrack_err, cond, cut_err, delimited, empty, eof, fail, not, opt, peek, preceded,
    repeat, repeat_till, separated, separated_foldl1, separated_foldr1, separated_pair, terminated,
};
pub use gather::{Accumulated, Begin, Folded, Gather};
pub use laws::{
    alternative_errors_law, alternatives_law, determined_choice_law, determined_choosing_law,
    determined_end_law, determined_foldr1_law, determined_gathered_law, determined_list_law,
    determined_repeat_law, determined_row_law, determined_sequence_law, determined_till_law,
    determined_try_fold_law, determined_value_law,
};
pub use parsers::alt::Alt;
pub use parsers::backtrack_err::BacktrackErr;
pub use parsers::cond::Cond;
pub use parsers::cut_err::CutErr;
pub use parsers::delimited::Delimited;
pub use parsers::empty::Empty;
pub use parsers::eof::Eof;
pub use parsers::fail::Fail;
pub use parsers::not::Not;
pub use parsers::opt::Opt;
pub use parsers::peek::Peek;
pub use parsers::preceded::Preceded;
pub use parsers::repeat::Repeat;
pub use parsers::repeat_till::RepeatTill;
pub use parsers::separated::Separated;
pub use parsers::separated_foldl1::SeparatedFoldl1;
pub use parsers::separated_foldr1::SeparatedFoldr1;
pub use parsers::separated_pair::SeparatedPair;
pub use parsers::terminated::Terminated;
pub use parsers::try_fold::TryFold;
pub use parsers::verify_fold::VerifyFold;
