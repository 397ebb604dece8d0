//! The format of scalars: `scalars`.

ghost use Rattle.std.specs.Prelude.{◌≡◌};
ghost use Rattle.winnow_parser.specs.Answer.{ahead, outcome};
ghost use Rattle.winnow_codec.specs.Formats.{Reads};
ghost use Rattle.winnow_codec.specs.Writing.{Writes};
ghost use Rattle.format_cbor.specs.Scalars.{head_of, SpellsPart, SpellsBody, AreSameScalar};
ghost use Rattle.format_cbor.specs.ScalarLaws.{AreCases-Body};
ghost use Rattle.format_cbor.specs.declared.head.Kind.TheVariants.{Bytes, Text};

use crate::scalar::{body_of, head_of, is_spelled, of_head};
use crate::{Head, HeadFormat, Kind, Scalar};
use std::alloc::Global;
use winnow_codec::{Cases, Format, Tagged, Unwritten, Whole, by_tag, rest, sized, text};
use winnow_error::ParserError;
use winnow_parser::{Failure, ModalResult};
use winnow_stream::StreamIsPartial;

/// What follows the head of a scalar: the bytes of a string.
#[derive(Clone, Copy, Drop)]
pub struct ScalarAfter {
    longest: usize,
}

/// The format of scalars; [`scalars`] makes it.
pub type ScalarFormat = Tagged<HeadFormat, ScalarAfter>;

/// Returns the format of scalars, of which strings have at most `longest` bytes. A longer one is
/// refused after its head, before any memory is asked for.
///
/// A float is read with the fewest bits that have its value, and a NaN in one form.
///
/// ```
/// assert_eq!(rt; text_of(alloc, &scalars(100), b"\x38\x63")?.as_str(), "Negative(99)");
/// ```
pub fn scalars(longest: usize) -> ScalarFormat
    ensures { result.cases.longest ≡ longest }
{
    by_tag(HeadFormat, ScalarAfter { longest })
}

// Reads a part of this number of bytes, which is at most the limit.
fn read_part<I: StreamIsPartial<Token = u8>, E: ParserError<I>, W: Whole + Drop>(
    longest: usize,
    count: u64,
    part: W,
    alloc: Global,
    input: &mut I,
) -> ModalResult<W::Value, E>
    requires { I.valid input.old }
    ensures means { Reads (SpellsPart longest count (W.spells part)) (I.expects_more input.old)
        (ahead I.location I.remaining input.old)
        (outcome result (ahead I.location I.remaining input.new)) }
    ensures valid { I.valid input.new }
    ensures kept { I.keeps input.old input.new }
{
    let size = count as usize;
    if longest < size {
        return Err(Failure::Backtrack(E::from_input(alloc, input)));
    }
    match sized(size, part).read(alloc, input) {
        Ok(value) => Ok(value),
        Err(failure) => Err(failure),
    }
}

// Reads the bytes of a byte string.
fn read_held<I: StreamIsPartial<Token = u8>, E: ParserError<I>>(
    longest: usize,
    label: Head,
    alloc: Global,
    input: &mut I,
) -> ModalResult<Scalar, E>
    requires kind { label.kind ≡ Bytes }
    requires valid { I.valid input.old }
    ensures means { Reads (SpellsBody longest label) (I.expects_more input.old)
        (ahead I.location I.remaining input.old)
        (outcome result (ahead I.location I.remaining input.new)) }
    ensures valid { I.valid input.new }
    ensures kept { I.keeps input.old input.new }
{
    match read_part(longest, label.argument, rest(), alloc, input) {
        Ok(held) => Ok(Scalar::Bytes(held)),
        Err(failure) => Err(failure),
    }
}

// Reads the bytes of a text.
fn read_text<I: StreamIsPartial<Token = u8>, E: ParserError<I>>(
    longest: usize,
    label: Head,
    alloc: Global,
    input: &mut I,
) -> ModalResult<Scalar, E>
    requires kind { label.kind ≡ Text }
    requires valid { I.valid input.old }
    ensures means { Reads (SpellsBody longest label) (I.expects_more input.old)
        (ahead I.location I.remaining input.old)
        (outcome result (ahead I.location I.remaining input.new)) }
    ensures valid { I.valid input.new }
    ensures kept { I.keeps input.old input.new }
{
    match read_part(longest, label.argument, text(), alloc, input) {
        Ok(held) => Ok(Scalar::Text(held)),
        Err(failure) => Err(failure),
    }
}

// Reads the bytes of the scalar with this head.
pub(crate) fn read_body<I: StreamIsPartial<Token = u8>, E: ParserError<I>>(
    longest: usize,
    label: Head,
    alloc: Global,
    input: &mut I,
) -> ModalResult<Scalar, E>
    requires { I.valid input.old }
    ensures means { Reads (SpellsBody longest label) (I.expects_more input.old)
        (ahead I.location I.remaining input.old)
        (outcome result (ahead I.location I.remaining input.new)) }
    ensures valid { I.valid input.new }
    ensures kept { I.keeps input.old input.new }
{
    match label.kind {
        Kind::Bytes => read_held(longest, label, alloc, input),
        Kind::Text => read_text(longest, label, alloc, input),
        _ => match of_head(label) {
            Some(scalar) => Ok(scalar),
            None => Err(Failure::Backtrack(E::from_input(alloc, input))),
        },
    }
}

// Appends the bytes after the head of the scalar.
pub(crate) fn write_body(
    longest: usize,
    scalar: &Scalar,
    bytes: &mut Vec<u8>,
) -> Result<(), Unwritten>
    ensures { Writes (SpellsBody longest (head_of scalar.now)) scalar.now bytes.old.items result
        bytes.new.items }
{
    if !is_spelled(longest, scalar) {
        return Err(Unwritten::Unspelled);
    }
    match bytes.extend_from_slice(body_of(scalar)) {
        Ok(()) => Ok(()),
        Err(refused) => Err(Unwritten::Refused(refused)),
    }
}

impl Cases<HeadFormat> for ScalarAfter {
    type Value = Scalar;

    ghost spells = { λ c. SpellsBody c.longest };

    ghost same = { AreSameScalar };

    ghost tag_of = { λ _. head_of };

    ghost lawful = { λ c. AreCases-Body c.longest };

    fn tag(&self, value: &Scalar) -> Head {
        head_of(value)
    }

    fn read_after<I: StreamIsPartial<Token = u8>, E: ParserError<I>>(
        &self,
        label: Head,
        alloc: Global,
        input: &mut I,
    ) -> ModalResult<Scalar, E> {
        read_body(self.longest, label, alloc, input)
    }

    fn write_after(&self, value: &Scalar, bytes: &mut Vec<u8>) -> Result<(), Unwritten> {
        write_body(self.longest, value, bytes)
    }
}
