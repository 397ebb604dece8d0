//! `Told`, an answer with the number of the piece that made it definite.

use winnow_script_run::PieceAnswer;

/// An answer with the number, counted from 1, of the piece that made it definite, or `None` if the
/// end of the input did.
#[derive(Debug, Drop, PartialEq, Eq)]
pub struct Told<T> {
    pub piece: Option<u64>,
    pub answer: PieceAnswer<T>,
}
