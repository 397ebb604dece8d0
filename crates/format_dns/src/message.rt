//! The format of a message: its header says how many questions and records follow.

ghost use Rattle.std.specs.Prelude.{◌≡◌};
ghost use Rattle.format_dns.specs.Messages.{header_of, SpellsSections, AreSameMessage};
ghost use Rattle.format_dns.specs.Messages.{AreCases-Sections};

use crate::{Question, Record, questions, records};
use std::alloc::Global;
use winnow_codec::{
    Be, Cases, Count, Format, Tagged, Unwritten, be_u16, by_tag, count_of, repeated, write_four,
};
use winnow_error::ParserError;
use winnow_parser::ModalResult;
use winnow_stream::StreamIsPartial;

/// A message (section 4.1).
#[derive(Debug, Drop)]
pub struct Message {
    /// The number by which an answer is matched with its query
    pub id: u16,
    /// The bits of the header between the number and the counts (section 4.1.1)
    pub flags: u16,
    /// The questions, at most 65,535, as of each section
    pub questions: Vec<Question>,
    /// The records that answer them
    pub answers: Vec<Record>,
    /// The records that name authorities
    pub authorities: Vec<Record>,
    /// Other records
    pub additionals: Vec<Record>,
}

/// A header as its format has it: the number and the flags; how many questions and answers there
/// are; how many authorities and other records.
pub type Header = ((u16, u16), (usize, usize), (usize, usize));

/// The format of a header.
pub type HeaderFormat = (
    (Be<u16>, Be<u16>),
    (Be<Count<u16>>, Be<Count<u16>>),
    (Be<Count<u16>>, Be<Count<u16>>),
);

/// What follows a header: as many questions and records as it says.
#[derive(Clone, Copy, Drop)]
pub struct Sections;

/// Returns the format of a header.
pub fn headers() -> HeaderFormat {
    let count = count_of(be_u16());
    ((be_u16(), be_u16()), (count, count), (count, count))
}

/// Returns the format of a message.
pub fn messages() -> Tagged<HeaderFormat, Sections> {
    by_tag(headers(), Sections)
}

impl Cases<HeaderFormat> for Sections {
    type Value = Message;

    ghost spells = { λ _. SpellsSections };

    ghost same = { AreSameMessage };

    ghost tag_of = { λ _. header_of };

    ghost lawful = { λ _. AreCases-Sections };

    fn tag(&self, value: &Message) -> Header {
        (
            (value.id, value.flags),
            (value.questions.len(), value.answers.len()),
            (value.authorities.len(), value.additionals.len()),
        )
    }

    fn read_after<I: StreamIsPartial<Token = u8>, E: ParserError<I>>(
        &self,
        label: Header,
        alloc: Global,
        input: &mut I,
    ) -> ModalResult<Message, E> {
        let ((id, flags), (asked, answered), (named, added)) = label;
        let sections = (
            repeated(asked, questions()),
            repeated(answered, records()),
            repeated(named, records()),
            repeated(added, records()),
        );
        match sections.read(alloc, input) {
            Ok((questions, answers, authorities, additionals)) => Ok(Message {
                id,
                flags,
                questions,
                answers,
                authorities,
                additionals,
            }),
            Err(failure) => Err(failure),
        }
    }

    fn write_after(&self, value: &Message, bytes: &mut Vec<u8>) -> Result<(), Unwritten> {
        let sections = (
            repeated(value.questions.len(), questions()),
            repeated(value.answers.len(), records()),
            repeated(value.authorities.len(), records()),
            repeated(value.additionals.len(), records()),
        );
        write_four(
            &sections,
            &value.questions,
            &value.answers,
            &value.authorities,
            &value.additionals,
            bytes,
        )
    }
}
