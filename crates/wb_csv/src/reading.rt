//! Reading the records that are ahead.

ghost use Rattle.std.specs.Prelude.{◌≡◌, ◌+◌, ◌-◌, ◌≤◌, ◌<◌, ◌^◌, true, [], length, take, drop};
ghost use Rattle.std.specs.Prelude.{OnOk, IfErr};
ghost use Rattle.winnow_reader.specs.State.{fed_of};
ghost use Rattle.csv.specs.Records.{fields_of};
ghost use Rattle.wb_csv.specs.Lines.{exchanged_by};
ghost use Rattle.wb_csv.specs.Copying.{IsOfInput, IsDamageAfter, IsTooLong, IsBegun, ReadsLines};
ghost use Rattle.wb_csv.specs.Copying.{StopsAfter};

use crate::failure::{Failure, Fault};
use crate::lines::append_line;
use crate::progress::Progress;
use crate::settings::Settings;
use example_base::Trouble;
use format_csv::{ByteRecord, RowError, RowReader};
use wb_base::{exchanged_excerpt, position_after};
use winnow_reader::Next;

/// Reads until there is no record, and appends the line of each to an empty text.
pub fn read_records(
    settings: &Settings,
    reader: &mut RowReader,
    row: &mut ByteRecord,
    progress: &mut Progress,
    text: &mut Vec<u8>,
) -> Result<(), Failure>
    requires begun { IsBegun settings.now reader.old progress.old }
    requires empty { text.old.items ≡ [] }
    ensures ok { OnOk result (ReadsLines settings.now reader.old progress.old
        reader.new progress.new text.new.items) }
    ensures through { OnOk result (reader.old.ended ≡ true → reader.new.ahead ≡ []) }
    ensures ended { OnOk result (reader.new.ended ≡ reader.old.ended) }
    ensures failed { IfErr result (λ failure. StopsAfter settings.now reader.old progress.old
        failure text.new.items) }
{
    loop {
        let place = reader.place();
        match reader.read_into(row) {
            Ok(Next::Value(())) => {
                let length = reader.place().saturating_sub(place);
                if let Err(failure) = within(settings, progress.feeds, length) {
                    return Err(failure);
                }
                if let Err(failure) = progress.count(settings, row) {
                    return Err(failure);
                }
                if let Err(refused) = append_line(settings, row, text) {
                    return Err(Failure::from(refused));
                }
            }
            Ok(Next::NeedsMore) => {
                // However long the record becomes, no more of it is kept than this and a piece.
                return within(settings, progress.feeds, reader.ahead().len());
            }
            Ok(Next::Done) => return Ok(()),
            Err(RowError::Damaged { place }) => {
                return Err(damage(settings, reader, progress.feeds, place, text));
            }
            Err(RowError::Refused(_)) => return Err(Failure::Stopped(Trouble::OutOfMemory)),
        }
    }
}

// Returns whether a record may have so many bytes.
fn within(settings: &Settings, feeds: usize, bytes: usize) -> Result<(), Failure>
    requires { settings.now.limit < bytes → feeds + 1 < 2 ^ 64 }
    ensures within { OnOk result (bytes ≤ settings.now.limit) }
    ensures long { IfErr result (IsTooLong settings.now feeds bytes) }
{
    if settings.limit < bytes {
        return Err(Failure::Long {
            line: feeds + 1,
            limit: settings.limit,
        });
    }
    Ok(())
}

// Says what is wrong at this place of the joined input.
fn damage(
    settings: &Settings,
    reader: &RowReader,
    feeds: usize,
    place: usize,
    text: &Vec<u8>,
) -> Failure
    requires from { reader.now.place ≤ place }
    requires to { place ≤ fed_of reader.now }
    requires counted { feeds + length reader.now.ahead + 1 < 2 ^ 64 }
    ensures { IsDamageAfter settings.now feeds (take (place - reader.now.place) reader.now.ahead)
        (drop (place - reader.now.place) reader.now.ahead) result }
{
    let (before, rest) = reader.ahead().split_at(place - reader.place());
    Failure::Damaged {
        position: position_after(feeds, before),
        fault: Fault::of(settings.delimiter, rest),
        excerpt: exchanged_excerpt(*text.allocator(), b',', settings.delimiter, before, rest).ok(),
    }
}
