//! Records as their users write them, each read through the bound of a reader, and the laws of
//! readers, each called once.

use crate::lines::{Nothing, NumberLine, number_line, word_line};
use crate::text_lines::{TextLine, text_line};
use std::alloc::Global;
use std::test::Fail;
use winnow_reader::{
    ByteReader, Next, ReadError, Record, Skipped, Utf8Record, bytes_at_law, damage_law,
    determined_reading_law, determined_text_law, skip_law, skip_to_law, told_damage_law,
    waiting_law,
};
use winnow_reader_limit::{
    Limited, LimitedError, determined_limit_law, limit_law, limited, scan_limit_law, with_limit,
};
use winnow_scan::{Line, Scan, ScanReader, scan_law, scan_skip_law};

// Returns the first record of bytes that are the whole input.
fn read_first<R: Record + Drop>(
    alloc: Global,
    parser: R,
    bytes: &[u8],
) -> Result<Next<R::Output>, ReadError<R::Error>>
    requires { R.ready parser }
{
    let mut reader = ByteReader::new(alloc, parser);
    if reader.has_ended() || bytes.len() > usize::MAX - reader.fed() {
        return Ok(Next::NeedsMore);
    }
    match reader.push(bytes) {
        Ok(()) => {}
        Err(refused) => return Err(ReadError::Refused(refused)),
    }
    reader.end();
    reader.read_next()
}

// Returns the first record of bytes that are the whole input, by a reader with a scan.
fn scan_first<R: Scan + Drop>(
    alloc: Global,
    parser: R,
    bytes: &[u8],
) -> Result<Next<R::Output>, ReadError<R::Error>>
    requires { R.ready parser }
{
    let mut reader = ScanReader::new(alloc, parser);
    if reader.has_ended() || bytes.len() > usize::MAX - reader.fed() {
        return Ok(Next::NeedsMore);
    }
    match reader.push(bytes) {
        Ok(()) => {}
        Err(refused) => return Err(ReadError::Refused(refused)),
    }
    reader.end();
    reader.read_next()
}

// Goes past the rest of a line, and returns how many bytes it had, once its end has come.
fn skip_line<R: Record>(reader: &mut ByteReader<R>) -> Option<usize> {
    match reader.skip_to(b"\n") {
        Skipped::Found(bytes) => Some(bytes),
        Skipped::NeedsMore(_) | Skipped::Done(_) => None,
    }
}

// A reader of numbers on lines of at most three bytes.
fn short_numbers(alloc: Global) -> ByteReader<Limited<NumberLine>> {
    with_limit(alloc, number_line(), 3)
}

#[test]
fn long_records_are_passed_over(rt: HostRuntime) -> Result<(), Fail> {
    let mut reader = short_numbers(rt.alloc());
    if !reader.has_ended() && 8 <= usize::MAX - reader.fed() {
        reader.push(b"123\n12\nx")?;
    }
    let long = reader.read_next();
    assert!(rt;
        matches!(
            long,
            Err(ReadError::Failed {
                error: LimitedError::TooLong,
                ..
            })
        )
    );
    assert_eq!(rt; skip_line(&mut reader), Some(4));
    assert!(rt; matches!(reader.read_next(), Ok(Next::Value(12))));
    assert_eq!(rt; reader.skip(2), 1);
    Ok(())
}

#[test]
fn records_are_read(rt: HostRuntime) {
    let number = read_first(rt.alloc(), number_line(), b"12\n7\n");
    assert!(rt; matches!(number, Ok(Next::Value(12))));
    let word = read_first(rt.alloc(), word_line(), b"ab\nc");
    assert!(rt; matches!(word, Ok(Next::Value(_))));
    let short = read_first(rt.alloc(), limited(number_line(), 3), b"12\n7\n");
    assert!(rt; matches!(short, Ok(Next::Value(12))));
    let line = scan_first(rt.alloc(), limited(Line, 3), b"12\n7\n");
    assert!(rt; matches!(line, Ok(Next::Value(_))));
    let nothing = read_first(rt.alloc(), Nothing, b"ab");
    assert!(rt; matches!(nothing, Err(ReadError::TakesNothing { place: 0 })));
    let text = read_first(rt.alloc(), Utf8Record::new(text_line()), b"a\xE2\x82\xAC\n");
    assert!(rt; matches!(text, Ok(Next::Value(_))));
}

// The laws do nothing. The calls show that they can be called.
#[test]
fn laws_of_readings_are_called(_rt: HostRuntime) {
    determined_reading_law::<NumberLine, u32>();
    waiting_law::<NumberLine>();
    bytes_at_law();
    damage_law();
    scan_law::<NumberLine>();
    determined_text_law::<TextLine, u32>();
    told_damage_law::<TextLine, u32>();
    skip_law::<NumberLine>();
    skip_to_law();
    limit_law::<NumberLine>();
    scan_skip_law::<Line>();
    scan_limit_law::<Line>();
    determined_limit_law::<NumberLine, u32>();
}
