//! A message as text: its header, and a line for each question and record.

use crate::data::append_data;
use crate::failure::Failure;
use crate::name::{append_name, width_of};
use crate::words::{
    append_class, append_flags, append_kind, append_name_or, append_number, code_name, opcode_name,
};
use example_base::Trouble;
use format_dns::{Message, Question, Record, read_message};
use std::alloc::{AllocError, Global};
use winnow_error::EmptyError;
use winnow_parser::{Failure as Fault, ModalResult};

// How many bytes a header has (section 4.1.1).
const HEADER: usize = 12;

// How many bytes of a record stand between its name and its data (section 4.1.3): its type, its
// class, its seconds and how long its data are.
const BEFORE_DATA: usize = 10;

/// Reads a message that is all of the bytes.
pub fn read_whole(alloc: Global, bytes: &[u8]) -> Result<Message, Failure> {
    let mut rest = bytes;
    let answer: ModalResult<Message, EmptyError> = read_message(alloc, &mut rest);
    match answer {
        Ok(message) if rest.is_empty() => Ok(message),
        Ok(_) => Err(Failure::Trailing(rest.len())),
        Err(Fault::Refused(_)) => Err(Failure::Stopped(Trouble::OutOfMemory)),
        Err(_) => Err(Failure::NoMessage),
    }
}

/// Appends the text of a message of these bytes.
pub fn append_message(bytes: &[u8], message: &Message, text: &mut Vec<u8>) -> Result<(), Failure> {
    append_header(message, text)?;
    text.extend_from_slice(b";QUESTION\n")?;
    let mut place = HEADER;
    for question in message.questions.iter() {
        append_question(bytes, place, question, text)?;
        place = place
            .saturating_add(width_of(&question.name))
            .saturating_add(4);
    }
    let place = append_section(b";ANSWER\n", bytes, place, &message.answers, text)?;
    let place = append_section(b";AUTHORITY\n", bytes, place, &message.authorities, text)?;
    let _ = append_section(b";ADDITIONAL\n", bytes, place, &message.additionals, text)?;
    Ok(())
}

// Appends what the header says.
fn append_header(message: &Message, text: &mut Vec<u8>) -> Result<(), AllocError> {
    text.extend_from_slice(b"id ")?;
    append_number(message.id as u64, text)?;
    text.extend_from_slice(b"\nopcode ")?;
    append_name_or(opcode_name(message.opcode()), message.opcode(), text)?;
    text.extend_from_slice(b"\nrcode ")?;
    append_name_or(
        code_name(message.response_code()),
        message.response_code(),
        text,
    )?;
    text.extend_from_slice(b"\nflags")?;
    append_flags(message, text)?;
    text.push(b'\n')?;
    Ok(())
}

// Appends a line for a question that stands at this byte.
fn append_question(
    bytes: &[u8],
    place: usize,
    question: &Question,
    text: &mut Vec<u8>,
) -> Result<(), Failure> {
    append_name(bytes, place, &question.name, text)?;
    text.push(b' ')?;
    append_class(question.class, text)?;
    text.push(b' ')?;
    append_kind(question.kind, text)?;
    text.push(b'\n')?;
    Ok(())
}

// Appends the title of a section whose records begin at this byte, and a line for each of them.
// Returns where they end.
fn append_section(
    title: &[u8],
    bytes: &[u8],
    place: usize,
    records: &[Record],
    text: &mut Vec<u8>,
) -> Result<usize, Failure> {
    text.extend_from_slice(title)?;
    let mut place = place;
    for record in records {
        let data = place
            .saturating_add(width_of(&record.name))
            .saturating_add(BEFORE_DATA);
        append_record(bytes, place, data, record, text)?;
        place = data.saturating_add(record.data.len());
    }
    Ok(place)
}

// Appends a line for a record that stands at this byte, with its data at the other.
fn append_record(
    bytes: &[u8],
    place: usize,
    data: usize,
    record: &Record,
    text: &mut Vec<u8>,
) -> Result<(), Failure> {
    append_name(bytes, place, &record.name, text)?;
    text.push(b' ')?;
    append_number(record.seconds as u64, text)?;
    text.push(b' ')?;
    append_class(record.class, text)?;
    text.push(b' ')?;
    append_kind(record.kind, text)?;
    text.push(b' ')?;
    append_data(bytes, data, record, text)?;
    text.push(b'\n')?;
    Ok(())
}
