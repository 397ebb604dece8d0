//! `Lines`, the remaining lines of an input, with the number of the first of them.

ghost use Rattle.std.specs.Prelude.{◌≡◌, ◌↔◌, ◌+◌, ◌^◌, ◌<◌, ◌≤◌, ◌==◌, if◌then◌else◌, length};
ghost use Rattle.std.specs.Prelude.{IsTrue, IsSome, IfSome, position};
ghost use Rattle.std.specs.Str.{IsUtf8};
ghost use Rattle.winnow_script_lines.specs.Newline.{is_newline, first_line, rest_lines};

use crate::ScriptFault;
use memchr::memchr;

/// The remaining lines of an input, and the number of the first of them.
///
/// A line ends with a newline, which the last line may lack.
#[derive(Clone, Copy)]
pub struct Lines<'i> {
    pub rest: &'i [u8],
    pub number: usize,
    ghost counted: { 1 ≤ number },
    ghost in_range: { number + length rest.now < 2 ^ 64 },
}

impl<'i> Lines<'i> {
    /// Returns all lines of an input.
    pub fn new(input: &'i [u8]) -> Self
        ensures rest { result.rest.now ≡ input.now }
        ensures number { result.number ≡ 1 }
    {
        Lines {
            rest: input,
            number: 1,
        }
    }

    /// Returns whether no line remains.
    pub fn is_empty(&self) -> bool
        ensures { IsTrue result ↔ (length self.now.rest.now ≡ 0) }
    {
        self.rest.is_empty()
    }

    /// Returns the fault that names the next line, which may be missing.
    pub fn fault(&self) -> ScriptFault
        ensures { result ≡ ScriptFault.Line self.now.number }
    {
        ScriptFault::Line(self.number)
    }

    /// Returns the next line without its newline, or `None` if there is no line or it is not UTF-8.
    pub fn next_line(&mut self) -> Option<&'i str>
        ensures found { IsSome result
            ↔ ((0 < length self.old.rest.now) × IsUtf8 (first_line self.old.rest.now)) }
        ensures line { IfSome result (λ line. line.now ≡ first_line self.old.rest.now) }
        ensures rest { self.new.rest.now ≡ rest_lines self.old.rest.now }
        ensures number { self.new.number
            ≡ self.old.number + (if length self.old.rest.now == 0 then 0 else 1) }
    {
        if self.rest.is_empty() {
            return None;
        }
        let (line, rest) = split_line(self.rest);
        *self = Lines {
            rest,
            number: self.number + 1,
        };
        std::str::from_utf8(line).ok()
    }
}

// Returns the first line without its newline, and what follows the newline.
fn split_line(text: &[u8]) -> (&[u8], &[u8])
    ensures line { result.0.now ≡ first_line text.now }
    ensures rest { result.1.now ≡ rest_lines text.now }
{
    match newline_index(text) {
        Some(end) => (&text[..end], &text[end + 1..]),
        None => (text, &[]),
    }
}

fn newline_index(text: &[u8]) -> Option<usize>
    ensures { result ≡ position is_newline text.now }
{
    memchr(b'\n', text)
}
