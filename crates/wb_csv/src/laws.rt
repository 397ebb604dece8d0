//! The law of commas: what is copied where no option says otherwise.

ghost use Rattle.std.specs.Prelude.{◌≡◌, ℕ, List, Option};
ghost use Rattle.wb_csv.specs.Lines.{exchanged_by};
ghost use Rattle.wb_csv.specs.Copying.{lines_of, CopiesInput};
ghost use Rattle.wb_csv.specs.Plain.{IsPlain, plain_lines, CopiesPlain};
ghost use Rattle.wb_csv.specs.declared.settings.Settings.{Settings};

/// The law of fields with commas between them. It does nothing when called: its contract is the
/// law.
///
/// Without an option no byte of the input takes another's place, and a record is written as
/// [`write_record`](format_csv::write_record) writes it, with a line feed after it. So what is
/// copied is the records of the input, in the words of `format_csv` alone.
pub fn comma_law()
    ensures input { (s : Settings) (bytes : List ℕ) → s.delimiter ≡ 44
        → exchanged_by s bytes ≡ bytes }
    ensures lines { (s : Settings) (rows : List (List (List ℕ))) → IsPlain s
        → lines_of s rows ≡ plain_lines rows }
    ensures copied { (s : Settings) (input : List ℕ) (held now : Option (List ℕ)) → IsPlain s
        → CopiesInput s input held now → CopiesPlain input held now }
{}
