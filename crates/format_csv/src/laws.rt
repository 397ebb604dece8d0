//! The law of records that are read from pieces.

ghost use Rattle.std.specs.Prelude.{ℕ, List};
ghost use Rattle.winnow_reader.specs.State.{ReaderState};
ghost use Rattle.winnow_reader.specs.Reading.{HasRead};
ghost use Rattle.winnow_reader.specs.Answering.{FailsAt, IdlesAt};
ghost use Rattle.winnow_reader.specs.SameValues.{IsThrough};
ghost use Rattle.format_csv.specs.Reading.{BeginsWith, FindsDamage};
ghost use Rattle.format_csv.specs.Widths.{RowVec};

use crate::Row;
use winnow_reader::Record;

/// The law of a reader of records, in the words of the format. It does nothing when called: its
/// contract is the law.
///
/// However the input was cut and whatever follows, the values that were read are the records with
/// which it begins, one after the other. If the reader fails, the bytes ahead begin with no record,
/// and it reports the place at which they are malformed. Each value consumes some bytes.
pub fn rows_in_pieces_law()
    ensures records { (f : ReaderState Row) (input : List ℕ) (rows : List RowVec)
        → HasRead ⟦<Row as Record>⟧.means f input rows → BeginsWith f input rows }
    ensures damaged { (f : ReaderState Row) (place : ℕ) → FailsAt ⟦<Row as Record>⟧.means f place
        → ¬ (IsThrough f) → FindsDamage f place }
    ensures takes { (f : ReaderState Row) (place : ℕ)
        → ¬ (IdlesAt ⟦<Row as Record>⟧.means f place) }
{}
