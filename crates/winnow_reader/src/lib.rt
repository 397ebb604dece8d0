//! Readers of records, each read by the same parser, from bytes that come in pieces without end.
//!
//! A [`ByteReader`] is given pieces by `push` and asked for records by `read_next`. It gives the
//! records that the parser, repeated, reads of the joined input, however that was cut, and spans
//! and failures speak of places in the joined input. It keeps the bytes that no record took yet,
//! and, until the next piece comes, those that records took since the last one: the longest record
//! and one piece bound what it keeps. Its buffer has at most twice as many bytes.
//!
//! What is read is a [`Record`]: a type of its own, whose method calls the parser.
//!
//! # Text
//!
//! A [`TextRecord`] is read from characters. [`Utf8Record`] makes a record of bytes of it, and a
//! [`TextReader`] reads it from bytes that are UTF-8, cut anywhere: a character that breaks off is
//! waited for, and bytes that are no UTF-8 are a failure at their place.
//!
//! # Damage
//!
//! After a failure all bytes are still ahead, and the record fails there again. `skip` drops some
//! of them, and `skip_to` all up to the end of a literal, as a line feed, over as many pieces as
//! there are before it: then the reader reads on, and both return how many bytes were dropped.
//!
//! # Work
//!
//! A record is asked of all that is ahead, from its beginning, and asked again only when as many
//! bytes came as it last needed. So a record is asked once for each need that it answered, and once
//! for its value; `push` copies its piece, and moves what is ahead only when records took at least
//! as many bytes before it, so all moves cost no more than the bytes that records took. Where a
//! parser's needs are exact, as those of one that reads a length and then that many bytes, each
//! byte is looked at a fixed number of times, for pieces of any sizes. A parser that needs one byte
//! more each time, as `take_until` and `take_while` do, is asked once for each piece: over pieces
//! of p bytes, a record of r bytes costs some r * r / p steps. So pieces that are not much shorter
//! than the records keep the work linear; for others a record has a scan beside its parser, and is
//! read by the `ScanReader` of `winnow_scan`. A record of text is asked of longer and longer fronts
//! of what is ahead, 256 bytes first, so the bytes whose UTF-8 is looked at are a few times those
//! that it reads. The contract of `read_next` says what a reader waits for; of the rest no contract
//! speaks.
#![tactic(auto)]

mod asking;
mod asking_text;
mod buffers;
mod byte_reader;
mod laws;
mod next;
mod record;
mod skipping;
mod text_record;
mod utf8_record;

pub use byte_reader::ByteReader;
pub use laws::{
    bytes_at_law, damage_law, determined_reading_law, determined_text_law, skip_law, skip_to_law,
    told_damage_law, waiting_law,
};
pub use next::{Next, ReadError};
pub use record::{Record, RecordInput};
pub use skipping::Skipped;
pub use text_record::{TextRecord, TextRecordInput};
pub use utf8_record::{TextError, TextReader, Utf8Record};
