//! A part up to its end mark: `till`.

ghost use Rattle.std.specs.Prelude.{◌≡◌, ◌≤◌, ◌-◌, ◌++◌, List, ℕ, IsTrue, MatchResult, length};
ghost use Rattle.std.specs.Prelude.{take};
ghost use Rattle.winnow_codec.specs.EndMarks.{EndsOnly, SpellsMarked, IsFormat-Marked};

use crate::{Frame, Inside, Unwritten};
use std::alloc::{AllocError, Global};
use winnow_error::ParserError;
use winnow_parser::{Failure, ModalResult};
use winnow_stream::{Needed, Stream, StreamIsPartial};

/// The frame of a part that ends at a mark; [`till`] makes it.
#[derive(Clone, Copy, Drop)]
pub struct EndMark {
    mark: &'static [u8],
}

/// Returns the format of a value that fills the bytes before an end mark, and of the mark:
/// `till(b"\0", rest())` is the bytes of a C string, `till(b"\r\n", text())` a line, and
/// `till(b"\0", list_to_end(item))` a list up to an end mark. The part ends at the first mark, so a
/// value has no spelling if the mark begins within its bytes.
///
/// ```
/// let name = till(b"\0", rest());
/// assert_eq!(rt; read_all(alloc, &name, b"etc\0")?.as_slice(), b"etc".as_slice());
/// ```
pub fn till<W>(mark: &'static [u8], part: W) -> Inside<EndMark, W>
    ensures mark { result.frame.mark.now ≡ mark.now }
    ensures part { result.part ≡ part }
{
    Inside {
        frame: EndMark { mark },
        part,
    }
}

// Returns whether the bytes end with the mark.
fn is_marked(bytes: &[u8], mark: &[u8]) -> bool
    ensures bound { IsTrue result → length mark.now ≤ length bytes.now }
    ensures ends { IsTrue result
        → bytes.now ≡ take (length bytes.now - length mark.now) bytes.now ++ mark.now }
    ensures each { (front : List ℕ) → bytes.now ≡ front ++ mark.now → IsTrue result }
{
    bytes.ends_with(mark)
}

// Returns whether no mark in the bytes is before their end.
fn ends_only(mark: &[u8], bytes: &[u8]) -> bool
    ensures only { IsTrue result → EndsOnly mark.now bytes.now }
    ensures each { EndsOnly mark.now bytes.now → IsTrue result }
{
    for end in 0..bytes.len() {
        if is_marked(&bytes[..end], mark) {
            return false;
        }
    }
    true
}

// Appends a part and its mark. If memory is refused, the bytes are what they were.
fn append_both(part: &[u8], mark: &[u8], bytes: &mut Vec<u8>) -> Result<(), AllocError>
    ensures { MatchResult result
        (λ _. bytes.new.items ≡ bytes.old.items ++ (part.now ++ mark.now))
        (λ _. bytes.new.items ≡ bytes.old.items) }
{
    let start = bytes.len();
    bytes.extend_from_slice(part)?;
    match bytes.extend_from_slice(mark) {
        Ok(()) => Ok(()),
        Err(refused) => {
            bytes.truncate(start);
            Err(refused)
        }
    }
}

impl Frame for EndMark {
    ghost frames = { λ f. SpellsMarked f.mark.now };

    ghost lawful = { λ f. IsFormat-Marked f.mark.now };

    fn read_part<I: StreamIsPartial<Token = u8>, E: ParserError<I>>(
        &self,
        alloc: Global,
        input: &mut I,
    ) -> ModalResult<Vec<u8>, E> {
        let mut part = Vec::new(alloc);
        while !is_marked(&part, self.mark) {
            match input.next_token() {
                Some(byte) => match part.push(byte) {
                    Ok(()) => {}
                    Err(failed) => return Err(Failure::Refused(failed.into())),
                },
                None if input.is_partial() => return Err(Failure::Incomplete(Needed::new(1))),
                None => return Err(Failure::Backtrack(E::from_input(alloc, input))),
            }
        }
        part.truncate(part.len() - self.mark.len());
        Ok(part)
    }

    fn write_part(&self, part: &[u8], bytes: &mut Vec<u8>) -> Result<(), Unwritten> {
        let start = bytes.len();
        match append_both(part, self.mark, bytes) {
            Ok(()) => {}
            Err(refused) => return Err(Unwritten::Refused(refused)),
        }
        if ends_only(self.mark, &bytes[start..]) {
            Ok(())
        } else {
            bytes.truncate(start);
            Err(Unwritten::Unspelled)
        }
    }
}
