//! Liveness: a reader that has a whole record ahead returns it.
//!
//! A parser is live (`IsLive` in `specs/Live.antt`) if it asks for no more than it needs: where it
//! needs more tokens, it has neither a value nor a failure before as many have come. If the parser
//! of a record is live, a reader needs more only if no record stands in the bytes ahead, and none
//! is malformed there: that is `live_reading_law`. A lemma for each combinator leads from its parts
//! to the whole (`proofs/lemmas/`), and `live_law` from a parser of which `prompt_law` speaks.
//!
//! Some lemmas are for formats that say how much follows: for a parser that is made of a value, as
//! the second of a `flat_map` is (`IsPunctual-FlatMaps`), for as many tokens or values as a count
//! says (`IsPunctual-Takes`, `IsPunctual-Ascending`), for nothing at all and a failure
//! (`IsPunctual-Returns`, `IsPunctual-IsFail`). One is for a grammar that contains itself, to a
//! depth (`IsPunctual-IsNested`). `law_formats` uses them for replies of the Redis protocol.
#![tactic(auto)]

mod laws;

pub use laws::{live_law, live_reading_law};
