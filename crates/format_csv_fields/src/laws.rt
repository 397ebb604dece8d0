//! The law of records whose fields are read one at a time.

ghost use Rattle.std.specs.Prelude.{◌≡◌, ℕ, false, [], List};
ghost use Rattle.winnow_reader.specs.SameValues.{IsThrough};
ghost use Rattle.format_csv.specs.Tables.{AreRecords};
ghost use Rattle.format_csv.specs.RowReader.{HasRead as HasReadRows};
ghost use Rattle.format_csv_fields.specs.FieldState.{FieldState};
ghost use Rattle.format_csv_fields.specs.Reading.{HasRead};

/// The law of records whose fields are read one at a time. It does nothing when called: its
/// contract is the law.
///
/// Before the first field of a record, the reader has read the records that a
/// `format_csv::RowReader` has read that stands at the same place of the same input. At the end
/// these are all records of the input.
pub fn field_rows_law()
    ensures rows { (f : FieldState) (input : List ℕ) (rows : List (List (List ℕ)))
        → HasRead f input rows [] → HasReadRows f.state input rows }
    ensures all { (f : FieldState) (input : List ℕ) (rows : List (List (List ℕ)))
        (fields : List (List ℕ)) → HasRead f input rows fields → IsThrough f.state
        → f.within ≡ false → AreRecords input rows [] }
{}
