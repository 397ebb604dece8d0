//! The laws of values and tokens: the round trip, places, and tokens that come in pieces.

ghost use Rattle.std.specs.Prelude.{◌≡◌, ◌≢◌, ℕ, suc, Bool, List, true, ◌++◌};
ghost use Rattle.winnow_reader.specs.State.{ReaderState};
ghost use Rattle.winnow_reader.specs.Reading.{HasRead};
ghost use Rattle.winnow_reader.specs.Answering.{FailsAt};
ghost use Rattle.winnow_parser.specs.Determined.{IsDetermined, Shows};
ghost use Rattle.format_json.specs.Language.{ValueAhead};
ghost use Rattle.format_json.specs.Damage.{BreaksOff};
ghost use Rattle.format_json.specs.Documents.{IsDocument, IsOnlyDocument, IsDamage};
ghost use Rattle.format_json.specs.SameValues.{SameValue};
ghost use Rattle.format_json.specs.Writing.{written, IsWhy};
ghost use Rattle.format_json.specs.declared.value.Value.{Value};
ghost use Rattle.format_json.specs.declared.reading.Damage.{Damage};
ghost use Rattle.format_json.specs.declared.writing.Unwritten.{Unwritten};
ghost use Rattle.format_json.specs.declared.writing.Unwritten.TheVariants.{NoNumber, TooDeep};
ghost use Rattle.format_json.specs.Tokens.{lexeme_of};
ghost use Rattle.format_json.specs.TokenAnswers.{OneToken, IsWrongAt};
ghost use Rattle.format_json.specs.Reading.{BeginsWith, FindsDamage};
ghost use Rattle.format_json.specs.Causes.{cause_of};
ghost use Rattle.format_json.specs.declared.tokens.Token.{Token};

use crate::JsonToken;
use winnow_reader::Record;

/// The law of the round trip: what [`write_value`](crate::write_value) wrote for a value,
/// [`read_document`](crate::read_document) reads as the same value, and it finds no damage there.
/// And `write_value` refuses the value of a text, within the limit under which the text is that
/// value, only when memory is refused. A law does nothing when called: its contract is the law.
pub fn round_trip_law()
    ensures same { (depth : ℕ) (value read : Value) → IsDocument depth (written value) value
        → IsOnlyDocument depth (written value) read → SameValue (suc depth) read value }
    ensures whole { (depth : ℕ) (value : Value) (damage : Damage)
        → IsDocument depth (written value) value → ¬ (IsDamage depth (written value) damage) }
    ensures writable { (depth : ℕ) (text : List ℕ) (value : Value) (why : Unwritten)
        → IsDocument depth text value → IsWhy depth value why
        → (why ≢ NoNumber) × (why ≢ TooDeep) }
{}

/// The law of places: a value breaks off at one place at most, and at none if the bytes begin with
/// one. A law does nothing when called: its contract is the law.
pub fn place_law()
    ensures once { (partial : Bool) (depth : ℕ) (bytes rest other : List ℕ)
        → BreaksOff partial depth bytes rest → BreaksOff partial depth bytes other
        → rest ≡ other }
    ensures none { (partial : Bool) (depth : ℕ) (bytes rest : List ℕ)
        → BreaksOff partial depth bytes rest → (value : Value) (after : List ℕ)
        → ¬ (ValueAhead partial depth value bytes after) }
{}

/// The law of a reader of tokens, in the words of the format. It does nothing when called: its
/// contract is the law.
///
/// The record has one answer to each question, so `determined_reading_law` says that readers of one
/// joined input read the same tokens, however it was cut. No matter what follows, the tokens that
/// were read are those that the input begins with, one after the other. Where the reader fails, the
/// token ahead is damaged at that place. No matter what follows, the cause of the damage is the
/// same.
pub fn tokens_in_pieces_law()
    ensures once { IsDetermined (Shows lexeme_of) OneToken }
    ensures tokens { (f : ReaderState JsonToken) (input : List ℕ) (tokens : List Token)
        → HasRead ⟦<JsonToken as Record>⟧.means f input tokens → BeginsWith f input tokens }
    ensures damaged { (f : ReaderState JsonToken) (place : ℕ)
        → FailsAt ⟦<JsonToken as Record>⟧.means f place → FindsDamage f place }
    ensures cause { (here rest more : List ℕ) → IsWrongAt true here rest
        → cause_of (here ++ more) (rest ++ more) ≡ cause_of here rest }
{}
