//! The laws of liveness. A law does nothing when called: its contract is the law.

ghost use Rattle.std.specs.Prelude.{ℕ, List};
ghost use Rattle.winnow_liveness.specs.Live.{IsLive, IsQuiet};
ghost use Rattle.winnow_parser.specs.Determined.{IsDetermined, Shows};
ghost use Rattle.winnow_reader.specs.Answering.{WaitsByNeed};
ghost use Rattle.winnow_reader.specs.Place.{bytes_at};
ghost use Rattle.winnow_reader.specs.Reading.{HasRead};
ghost use Rattle.winnow_reader.specs.State.{ReaderState};
ghost use Rattle.winnow_token.specs.Prompt.{IsPrompt};

use winnow_parser::Parser;
use winnow_reader::Record;
use winnow_stream::StreamIsPartial;

/// The law of parsers that have one answer: one that has no settled answer with fewer tokens than
/// it asked for is live. It does nothing when called: its contract is the law.
pub fn live_law<I: StreamIsPartial, E, P: Parser<I, E>, V>()
    ensures { (view : P.Output → V) (p : P) → IsDetermined (Shows view) (P.means p)
        → IsPrompt (P.means p) → IsLive (P.means p) }
{}

/// The law of readers of records whose parser is live: where a reader needs more, the parser has
/// neither a value nor a failure on the bytes ahead. So a record that stands whole in what was
/// pushed is returned, and a malformed one is told, unless memory is refused. It does nothing when
/// called: its contract is the law.
pub fn live_reading_law<R: Record>()
    ensures { (old new : ReaderState R) (input : List ℕ) (values : List R.Output)
        → IsLive (R.means old.parser) → HasRead R.means old input values
        → WaitsByNeed R.means old new
        → IsQuiet (R.means old.parser) (bytes_at old.place old.ahead) }
{}
