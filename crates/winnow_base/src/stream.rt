//! Streams, their wrappers, and what parsers do with them.

pub mod laws;

pub use winnow_count::{Accumulate, ParseSlice, Range, Readable, ToUsize, accumulate_all};
pub use winnow_kinds::{BStr, ByteLiteral, ByteNeedles};
pub use winnow_match::{Compare, CompareResult, FindSlice, Needles, Stretch, stretch};
pub use winnow_recover::{RecordError, Recover, Recoverable};
pub use winnow_script_feed::{
    ByteFeed, Finished, TextFeed, Told, Waiting, run_pieces, run_pieces_text,
};
pub use winnow_script_run::{
    Answer, Need, PieceAnswer, SearchAnswer, SearchStep, Step, run, run_and_reset, run_search,
};
pub use winnow_sets::{AsChar, CharSet, Complement, ContainsToken, FixedSet, Where};
pub use winnow_stream_bytes::{Bytes, LowerBytes, UpperBytes};
// `Stream`, the streams that read their input as something else, and the wrappers.
pub use winnow_stream::{
    AsBStr, AsBytes, Checkpoint, Location, Needed, NoSet, Offset, Rest, ScriptSet, SliceLen,
    SliceOffsets, Str, Stream, StreamIsPartial, UpdateSlice,
};
pub use winnow_views::{PreviousTokens, TokenOffsets, TokenSlice, TokenView};
pub use winnow_wrap::{LocatingSlice, Partial, Placed, Stateful};
