//! The laws of events: those of the value of the text, and where a text stops.

ghost use Rattle.std.specs.Prelude.{◌≡◌, ℕ, false, List, ◌++◌, None, Ok, Err};
ghost use Rattle.winnow_reader.specs.Reading.{Lacks, MayFollow};
ghost use Rattle.format_json.specs.Documents.{IsDocument, IsDamage};
ghost use Rattle.format_json_events.specs.Reading.{EventState, HasGiven, GivesOn, KeepsLimits};
ghost use Rattle.format_json_events.specs.Reading.{IsWhole, IsNext};
ghost use Rattle.format_json_events.specs.Stops.{StopsAt, TellsStop, IsAtOffset};
ghost use Rattle.format_json.specs.TokenAnswers.{OneToken};
ghost use Rattle.format_json_events.specs.ValueEvents.{ReadsValue, AreFirstOf, AreAllOf, IsRefusal};
ghost use Rattle.format_json.specs.declared.reading.Damage.{Damage};
ghost use Rattle.format_json_events.specs.declared.event_reader.Event.{Event};
ghost use Rattle.format_json_events.specs.declared.event_reader.EventError.{EventError};
ghost use Rattle.format_json.specs.declared.value.Value.{Value};
ghost use Rattle.winnow_reader.specs.declared.next.Next.TheVariants.{NeedsMore};

/// The law of a reader of events. It does nothing when called: its contract is the law.
///
/// Let the joined input be a value, or become one with what may follow. The events that the reader
/// returned are the first ones of that value, and all of them if the text is whole. The reader
/// fails only if memory is refused. After more events all this holds again.
///
/// Where the reader has not stopped and the text is whole, the input is not damaged: the reader is
/// done with no text in which [`read_document`](format_json::read_document) finds damage.
///
/// A reader that needs more has not stopped, and its input has not ended. Called on some prefix of
/// the bytes ahead, [`JsonToken`](format_json::JsonToken) needs more bytes than follow that prefix.
pub fn events_law()
    ensures begins { (r : EventState) (input : List ℕ) (events : List Event) (value : Value)
        → ReadsValue r input events value → AreFirstOf events value }
    ensures whole { (r : EventState) (input : List ℕ) (events : List Event) (value : Value)
        → ReadsValue r input events value → IsWhole r → AreAllOf events value }
    ensures sound { (r new : EventState) (input : List ℕ) (events : List Event) (value : Value)
        (e : EventError) → ReadsValue r input events value → IsNext r (Err e) new → IsRefusal e }
    ensures only { (r : EventState) (input : List ℕ) (events : List Event) (damage : Damage)
        → HasGiven r input events → r.stopped ≡ None → IsWhole r
        → ¬ (IsDamage r.text.depth input damage) }
    ensures waits { (r new : EventState) (input : List ℕ) (events : List Event)
        → HasGiven r input events → IsNext r (Ok NeedsMore) new → (new.tokens.ended ≡ false)
        × (new.stopped ≡ None) × Lacks (λ p. OneToken) new.tokens }
    ensures goes_on { (r new : EventState) (input : List ℕ) (events given : List Event)
        (value : Value) → ReadsValue r input events value → GivesOn r given new
        → KeepsLimits r new → ReadsValue new input (events ++ given) value }
{}

/// The law of the place of an error. It does nothing when called: its contract is the law.
///
/// A text stops where tokens that may come stand one after the other, and the next does not: at the
/// place where a string is damaged, if one may come there, and else where the next token would
/// begin, after blanks. It stops in one place at most, and in none if it is a value.
///
/// Where [`read_document`](format_json::read_document) finds damage, the text stops. So it does
/// where an [`EventReader`](crate::EventReader) fails, unless memory was refused, and no matter
/// what follows the joined input: at the place of the error; or, where the input ends too early, at
/// some place, and the error has the length of the input. So both name one place, but for the last
/// case.
pub fn stops_law()
    ensures once { (depth : ℕ) (text : List ℕ) (place other : ℕ)
        → StopsAt depth text place → StopsAt depth text other → place ≡ other }
    ensures none { (depth : ℕ) (text : List ℕ) (value : Value) (place : ℕ)
        → IsDocument depth text value → ¬ (StopsAt depth text place) }
    ensures document { (depth : ℕ) (text : List ℕ) (damage : Damage)
        → IsDamage depth text damage → StopsAt depth text damage.offset }
    ensures reader { (r new : EventState) (input more : List ℕ) (events : List Event)
        (e : EventError) → HasGiven r input events → MayFollow r.tokens.ended more false
        → IsNext r (Err e) new → TellsStop r.text.depth (input ++ more) e }
    ensures same { (depth : ℕ) (text : List ℕ) (damage : Damage) (e : EventError)
        → IsDamage depth text damage → TellsStop depth text e → IsAtOffset text e damage.offset }
{}
