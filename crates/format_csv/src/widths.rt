//! Records with another number of fields than the first.

ghost use Rattle.format_csv.specs.Widths.{IsFirstUneven};

/// Returns the index of the first record that has another number of fields than the first record,
/// or `None` where all have the same number.
pub fn first_uneven(records: &[Vec<Vec<u8>>]) -> Option<usize>
    ensures { IsFirstUneven records.now result }
{
    if records.is_empty() {
        return None;
    }
    let width = records[0].len();
    let mut index = 0;
    for fields in records {
        if fields.len() != width {
            return Some(index);
        }
        index += 1;
    }
    None
}
