//! The law of events: what they stand for, and of which replies they are.

ghost use Rattle.std.specs.Prelude.{◌≡◌, ℕ, List, ◌++◌};
ghost use Rattle.std.specs.List.{flat_map};
ghost use Rattle.winnow_reader.specs.SameValues.{AreAlike, IsFrontOf};
ghost use Rattle.format_resp.specs.Language.{SpellAll, Spells};
ghost use Rattle.format_resp_events.specs.Events.{AreReplies, SameEvent, events_of};
ghost use Rattle.format_resp_events.specs.Written.{events_written};
ghost use Rattle.format_resp_events.specs.Reading.{EventState, HasGiven, IsWhole, longest_of};
ghost use Rattle.format_resp.specs.declared.reply.Reply.{Reply};
ghost use Rattle.format_resp_events.specs.declared.event.ReplyEvent.{ReplyEvent};

/// The law of a reader of events. It does nothing when called: its contract is the law.
///
/// The bytes that a reader has passed are those that its events stand for, one after the other. Let
/// the joined input be replies within the limits, one after the other, or become so with more: then
/// the events are the first ones of those replies. A reader is done only if its input is such
/// replies, and has given all their events.
///
/// So the events of the replies that some bytes spell are the events of these bytes, and the bytes
/// have no others.
pub fn events_law()
    ensures passed { (r : EventState) (input : List ℕ) (events : List ReplyEvent)
        → HasGiven r input events → input ≡ events_written events ++ r.replies.ahead }
    ensures begins { (r : EventState) (input more : List ℕ) (events all : List ReplyEvent)
        → HasGiven r input events → AreReplies (longest_of r) r.depth (input ++ more) all
        → IsFrontOf SameEvent events all }
    ensures whole { (r : EventState) (input : List ℕ) (events : List ReplyEvent)
        → HasGiven r input events → IsWhole r → AreReplies (longest_of r) r.depth input events }
    ensures spelled { (longest depth : ℕ) (replies : List Reply) (bytes : List ℕ)
        → SpellAll (Spells longest depth) replies bytes
        → AreReplies longest depth bytes (flat_map events_of replies) }
    ensures once { (longest depth : ℕ) (bytes : List ℕ) (events others : List ReplyEvent)
        → AreReplies longest depth bytes events → AreReplies longest depth bytes others
        → AreAlike SameEvent events others }
{}
