//! The blanks before a token, which a reader need not keep.

ghost use Rattle.std.specs.Prelude.{◌≡◌, length};
ghost use Rattle.format_json.specs.Language.{after_blanks};
ghost use Rattle.format_json_events.specs.Blanks.{DropsBlanks};
ghost use Rattle.format_json_events.specs.Reading.{token_place};

use format_json::{JsonToken, blank_count};
use winnow_scan::ScanReader;

/// Drops the blanks ahead. Where there are none the scan of the token goes on.
pub(crate) fn drop_blanks(tokens: &mut ScanReader<JsonToken>)
    ensures { DropsBlanks tokens.old tokens.new }
{
    let blanks = blank_count(tokens.ahead());
    if 0 < blanks {
        let _ = tokens.skip(blanks);
    }
}

/// Returns how many bytes are ahead from the first on that is no blank.
pub(crate) fn ahead_count(tokens: &ScanReader<JsonToken>) -> usize
    ensures { result ≡ length (after_blanks tokens.now.ahead) }
{
    let ahead = tokens.ahead();
    ahead.len() - blank_count(ahead)
}

/// Returns where the token ahead begins in the joined input.
pub(crate) fn token_start(tokens: &ScanReader<JsonToken>) -> usize
    ensures { result ≡ token_place tokens.now }
{
    let ahead = tokens.ahead();
    tokens.fed() - (ahead.len() - blank_count(ahead))
}
