//! Bytes after their number: `bytes_after`, and counts with a limit: `at_most`.

ghost use Rattle.std.specs.Prelude.{◌≡◌, ◌≤◌, length, IfOk};
ghost use Rattle.winnow_parser.specs.Answer.{ahead, outcome};
ghost use Rattle.winnow_codec.specs.Formats.{Takes};
ghost use Rattle.winnow_codec.specs.Bytes.{TakesBytes, SpellsBytesAfter, HaveSameBytes};
ghost use Rattle.winnow_codec.specs.Bytes.{IsFormat-BytesAfter, SpellsAtMost, IsFormat-AtMost};

use crate::next_tokens::one;
use crate::{Exact, Format, Unwritten};
use std::alloc::{AllocError, Global};
use winnow_error::ParserError;
use winnow_parser::{Failure, ModalResult};
use winnow_stream::{Stream, StreamIsPartial};

/// The format of bytes after their number; [`bytes_after`] makes it.
#[derive(Clone, Copy, Drop)]
pub struct BytesAfter<C> {
    count: C,
}

/// Returns the format of bytes after their number, as a text or a payload after its length. Memory
/// is asked for once, when all of them have come.
pub fn bytes_after<C>(count: C) -> BytesAfter<C>
    ensures { result ≡ record { count = count } }
{
    BytesAfter { count }
}

// Returns the next bytes, where so many remain.
fn next_bytes<I: Stream<Token = u8>>(
    count: usize,
    alloc: Global,
    input: &mut I,
) -> Result<Vec<u8>, AllocError>
    requires valid { I.valid input.old }
    requires enough { count ≤ length (I.remaining input.old) }
    ensures number { IfOk result (λ v. length v.items ≡ count) }
    ensures taken { IfOk result (λ v. Takes v.items
        (ahead I.location I.remaining input.old) (ahead I.location I.remaining input.new)) }
    ensures valid { I.valid input.new }
    ensures kept { I.keeps input.old input.new }
{
    let mut bytes = Vec::with_capacity(alloc, count)?;
    for _k in 0..count {
        let byte = one(input);
        match bytes.push(byte) {
            Ok(()) => {}
            Err(failed) => return Err(failed.into()),
        }
    }
    Ok(bytes)
}

// Reads this number of bytes.
pub(crate) fn read_bytes<I: StreamIsPartial<Token = u8>, E: ParserError<I>>(
    count: usize,
    alloc: Global,
    input: &mut I,
) -> ModalResult<Vec<u8>, E>
    requires { I.valid input.old }
    ensures means { TakesBytes count (I.expects_more input.old)
        (ahead I.location I.remaining input.old)
        (outcome result (ahead I.location I.remaining input.new)) }
    ensures valid { I.valid input.new }
    ensures kept { I.keeps input.old input.new }
{
    match input.offset_at(count) {
        Ok(_) => match next_bytes(count, alloc, input) {
            Ok(bytes) => Ok(bytes),
            Err(refused) => Err(Failure::Refused(refused)),
        },
        Err(needed) if input.is_partial() => Err(Failure::Incomplete(needed)),
        Err(_) => Err(Failure::Backtrack(E::from_input(alloc, input))),
    }
}

impl<C: Exact<Value = usize>> Format for BytesAfter<C> {
    type Value = Vec<u8>;

    ghost spells = { λ f. SpellsBytesAfter (C.spells f.count) };

    ghost same = { HaveSameBytes };

    ghost lawful = { λ f.
        IsFormat-BytesAfter C.same (C.spells f.count) C.exact (C.lawful f.count) };

    fn read<I: StreamIsPartial<Token = u8>, E: ParserError<I>>(
        &self,
        alloc: Global,
        input: &mut I,
    ) -> ModalResult<Vec<u8>, E> {
        match self.count.read(alloc, input) {
            Ok(count) => match read_bytes(count, alloc, input) {
                Ok(bytes) => Ok(bytes),
                Err(failure) => Err(failure),
            },
            Err(failure) => Err(failure),
        }
    }

    fn write(&self, value: &Vec<u8>, bytes: &mut Vec<u8>) -> Result<(), Unwritten> {
        let start = bytes.len();
        self.count.write(&value.len(), bytes)?;
        match bytes.extend_from_slice(value) {
            Ok(()) => Ok(()),
            Err(refused) => {
                bytes.truncate(start);
                Err(Unwritten::Refused(refused))
            }
        }
    }
}

/// The format of a count of at most a limit; [`at_most`] makes it.
#[derive(Clone, Copy, Drop)]
pub struct AtMost<const LIMIT: usize, C> {
    count: C,
}

/// Returns the format of a count of at most `LIMIT`. A greater one is refused after its bytes, and
/// before any memory is asked for.
pub fn at_most<const LIMIT: usize, C>(count: C) -> AtMost<LIMIT, C>
    ensures { result ≡ record { count = count } }
{
    AtMost { count }
}

impl<const LIMIT: usize, C: Exact<Value = usize>> Format for AtMost<LIMIT, C> {
    type Value = usize;

    ghost spells = { λ f. SpellsAtMost LIMIT (C.spells f.count) };

    ghost same = { C.same };

    ghost lawful = { λ f. IsFormat-AtMost LIMIT C.same (C.spells f.count) (C.lawful f.count) };

    fn read<I: StreamIsPartial<Token = u8>, E: ParserError<I>>(
        &self,
        alloc: Global,
        input: &mut I,
    ) -> ModalResult<usize, E> {
        match self.count.read(alloc, input) {
            Ok(count) => {
                if count <= LIMIT {
                    Ok(count)
                } else {
                    Err(Failure::Backtrack(E::from_input(alloc, input)))
                }
            }
            Err(failure) => Err(failure),
        }
    }

    fn write(&self, value: &usize, bytes: &mut Vec<u8>) -> Result<(), Unwritten> {
        if *value <= LIMIT {
            self.count.write(value, bytes)
        } else {
            Err(Unwritten::Unspelled)
        }
    }
}

impl<const LIMIT: usize, C: Exact<Value = usize>> Exact for AtMost<LIMIT, C> {
    ghost exact = { C.exact };

    fn equal(left: &usize, right: &usize) -> bool {
        *left == *right
    }
}
