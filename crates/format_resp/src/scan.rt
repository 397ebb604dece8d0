//! The scan of a reply.

ghost use Rattle.std.specs.Prelude.{◌≡◌, ◌≤◌, ◌<◌, ◌∷◌, [], ◌++◌, List, ℕ, Some, true, length};
ghost use Rattle.format_resp.specs.Wanted.{with_next};
ghost use Rattle.format_resp.specs.Parts.{is_number_kind};
ghost use Rattle.format_resp.specs.Scan.{IsScanned, is_text_kind};
ghost use Rattle.format_resp.specs.declared.scan.Part.TheVariants as part;

use crate::ReplyTo;
use crate::digits::Digits;
use crate::numbers::{integer_in, length_in};
use crate::wanted::Wanted;
use winnow_scan::Scan;

/// Where the scan of a reply is: which arrays are open, and in which part of which reply it is.
#[derive(Debug, Drop)]
pub struct ReplyScan {
    wanted: Wanted,
    digits: Digits,
    part: Part,
}

// The part of a reply in which a scan is.
#[derive(Clone, Copy, Debug, Drop, PartialEq, Eq)]
enum Part {
    // Before the byte of its kind
    Begin,
    // In a text, after that many bytes of it
    Text(usize),
    // After the carriage return that follows a text
    TextEnd,
    // In the number after the byte of this kind
    Number(u8),
    // After the carriage return that follows this number
    NumberEnd(u8),
    // In a bulk string, of which that many bytes are still to come
    Held(usize),
    // After the carriage return that follows a bulk string
    HeldEnd,
}

/// The scan goes over the bytes of a bulk string without looking at them. It stops where the reply
/// may end, or is wrong, and where more than 32 arrays are open.
impl Scan for ReplyTo {
    type State = ReplyScan;

    ghost scanned = { λ r bytes state. IsScanned r.longest r.depth bytes state };

    fn start(&self) -> ReplyScan {
        ReplyScan {
            wanted: Wanted::new(),
            digits: Digits::new(),
            part: Part::Begin,
        }
    }

    fn scan(&self, state: &mut ReplyScan, more: &[u8]) -> bool {
        let mut at = 0;
        while at < more.len() {
            let skipped = state.skip(more.len() - at);
            if skipped > 0 {
                at += skipped;
            } else {
                if !state.goes_on(*self, more[at]) {
                    return true;
                }
                at += 1;
            }
        }
        false
    }
}

// Returns whether a text follows the byte.
fn begins_text(byte: u8) -> bool
    ensures { result ≡ is_text_kind byte }
{
    matches!(byte, b'+' | b'-')
}

// Returns whether a number follows the byte.
fn begins_number(byte: u8) -> bool
    ensures { result ≡ is_number_kind byte }
{
    matches!(byte, b':' | b'$' | b'*')
}

impl ReplyScan {
    // Goes over the bytes of a bulk string among that many bytes, and returns how many they are.
    fn skip(&mut self, room: usize) -> usize
        ensures within { result ≤ room }
        ensures goes { (limits : ReplyTo) → (bytes passed : List ℕ) → length passed ≡ result
            → IsScanned limits.longest limits.depth bytes self.old
            → IsScanned limits.longest limits.depth (bytes ++ passed) self.new }
    {
        let Part::Held(left) = self.part else {
            return 0;
        };
        let count = if left < room { left } else { room };
        self.part = Part::Held(left - count);
        count
    }

    // Goes over a byte, and returns whether the reply goes on.
    fn goes_on(&mut self, limits: ReplyTo, byte: u8) -> bool
        ensures { (bytes : List ℕ) → IsScanned limits.longest limits.depth bytes self.old
            → result ≡ true
            → IsScanned limits.longest limits.depth (bytes ++ byte ∷ []) self.new }
    {
        match self.part {
            Part::Begin => self.begins(limits, byte),
            Part::Text(len) => self.text_goes_on(limits, len, byte),
            Part::TextEnd => self.text_ends(limits, byte),
            Part::Number(kind) => self.number_goes_on(limits, kind, byte),
            Part::NumberEnd(kind) => self.number_ends(limits, kind, byte),
            Part::Held(left) => self.held_goes_on(limits, left, byte),
            Part::HeldEnd => self.held_ends(limits, byte),
        }
    }

    // Goes over the byte of a kind.
    fn begins(&mut self, limits: ReplyTo, byte: u8) -> bool
        requires { self.old.part ≡ part.Begin }
        ensures { (bytes : List ℕ) → IsScanned limits.longest limits.depth bytes self.old
            → result ≡ true
            → IsScanned limits.longest limits.depth (bytes ++ byte ∷ []) self.new }
    {
        if begins_text(byte) {
            self.part = Part::Text(0);
            return true;
        }
        if begins_number(byte) {
            self.digits.clear();
            self.part = Part::Number(byte);
            return true;
        }
        false
    }

    // Goes over a byte of a text, or the one after it.
    fn text_goes_on(&mut self, limits: ReplyTo, len: usize, byte: u8) -> bool
        requires { self.old.part ≡ part.Text len }
        ensures { (bytes : List ℕ) → IsScanned limits.longest limits.depth bytes self.old
            → result ≡ true
            → IsScanned limits.longest limits.depth (bytes ++ byte ∷ []) self.new }
    {
        if byte == b'\r' {
            self.part = Part::TextEnd;
            return true;
        }
        if byte == b'\n' {
            return false;
        }
        if len >= limits.longest {
            return false;
        }
        self.part = Part::Text(len + 1);
        true
    }

    // Goes over the last byte of the line of a text.
    fn text_ends(&mut self, limits: ReplyTo, byte: u8) -> bool
        requires { self.old.part ≡ part.TextEnd }
        ensures { (bytes : List ℕ) → IsScanned limits.longest limits.depth bytes self.old
            → result ≡ true
            → IsScanned limits.longest limits.depth (bytes ++ byte ∷ []) self.new }
    {
        if byte != b'\n' {
            return false;
        }
        self.begins_next()
    }

    // Goes over a byte of a number, or the one after it.
    fn number_goes_on(&mut self, limits: ReplyTo, kind: u8, byte: u8) -> bool
        requires { self.old.part ≡ part.Number kind }
        ensures { (bytes : List ℕ) → IsScanned limits.longest limits.depth bytes self.old
            → result ≡ true
            → IsScanned limits.longest limits.depth (bytes ++ byte ∷ []) self.new }
    {
        if byte == b'\r' {
            self.part = Part::NumberEnd(kind);
            return true;
        }
        if byte == b'\n' {
            return false;
        }
        self.digits.append(byte)
    }

    // Goes over the last byte of the line of a number.
    fn number_ends(&mut self, limits: ReplyTo, kind: u8, byte: u8) -> bool
        requires { self.old.part ≡ part.NumberEnd kind }
        ensures { (bytes : List ℕ) → IsScanned limits.longest limits.depth bytes self.old
            → result ≡ true
            → IsScanned limits.longest limits.depth (bytes ++ byte ∷ []) self.new }
    {
        if byte != b'\n' {
            return false;
        }
        if kind == b':' {
            return self.integer_ends(limits);
        }
        if kind == b'$' {
            return self.bulk_begins(limits);
        }
        if kind == b'*' {
            return self.array_begins(limits);
        }
        false
    }

    // Goes over the line feed after an integer.
    fn integer_ends(&mut self, limits: ReplyTo) -> bool
        requires { self.old.part ≡ part.NumberEnd 58 }
        ensures { (bytes : List ℕ) → IsScanned limits.longest limits.depth bytes self.old
            → result ≡ true → IsScanned limits.longest limits.depth (bytes ++ 10 ∷ []) self.new }
    {
        match integer_in(self.digits.text()) {
            Some(_) => self.begins_next(),
            None => false,
        }
    }

    // Goes over the line feed after the length of a bulk string.
    fn bulk_begins(&mut self, limits: ReplyTo) -> bool
        requires { self.old.part ≡ part.NumberEnd 36 }
        ensures { (bytes : List ℕ) → IsScanned limits.longest limits.depth bytes self.old
            → result ≡ true → IsScanned limits.longest limits.depth (bytes ++ 10 ∷ []) self.new }
    {
        match length_in(self.digits.text(), limits.longest) {
            Some(None) => self.begins_next(),
            Some(Some(count)) => {
                self.part = Part::Held(count);
                true
            }
            None => false,
        }
    }

    // Goes over the line feed after the length of an array.
    fn array_begins(&mut self, limits: ReplyTo) -> bool
        requires { self.old.part ≡ part.NumberEnd 42 }
        ensures { (bytes : List ℕ) → IsScanned limits.longest limits.depth bytes self.old
            → result ≡ true → IsScanned limits.longest limits.depth (bytes ++ 10 ∷ []) self.new }
    {
        match length_in(self.digits.text(), usize::MAX) {
            Some(None) => self.begins_next(),
            Some(Some(0)) => self.begins_next(),
            Some(Some(count)) => self.opens(limits, count - 1),
            None => false,
        }
    }

    // Goes over the carriage return after a bulk string.
    fn held_goes_on(&mut self, limits: ReplyTo, left: usize, byte: u8) -> bool
        requires { self.old.part ≡ part.Held left }
        ensures { (bytes : List ℕ) → IsScanned limits.longest limits.depth bytes self.old
            → result ≡ true
            → IsScanned limits.longest limits.depth (bytes ++ byte ∷ []) self.new }
    {
        if left > 0 {
            self.part = Part::Held(left - 1);
            return true;
        }
        if byte != b'\r' {
            return false;
        }
        self.part = Part::HeldEnd;
        true
    }

    // Goes over the line feed after a bulk string.
    fn held_ends(&mut self, limits: ReplyTo, byte: u8) -> bool
        requires { self.old.part ≡ part.HeldEnd }
        ensures { (bytes : List ℕ) → IsScanned limits.longest limits.depth bytes self.old
            → result ≡ true
            → IsScanned limits.longest limits.depth (bytes ++ byte ∷ []) self.new }
    {
        if byte != b'\n' {
            return false;
        }
        self.begins_next()
    }

    // Goes on with the next reply that an open array wants, if one does.
    fn begins_next(&mut self) -> bool
        ensures part { self.new.part ≡ part.Begin }
        ensures wanted { result ≡ true → with_next self.old.wanted ≡ Some self.new.wanted }
    {
        self.part = Part::Begin;
        self.wanted.begins_next()
    }

    // Opens an array with a reply, after which it wants that many, if it may stand there.
    fn opens(&mut self, limits: ReplyTo, count: usize) -> bool
        ensures deep { result ≡ true → length self.old.wanted < limits.depth }
        ensures part { result ≡ true → self.new.part ≡ part.Begin }
        ensures wanted { result ≡ true → self.new.wanted ≡ count ∷ self.old.wanted }
    {
        if self.wanted.len() >= limits.depth {
            return false;
        }
        self.part = Part::Begin;
        self.wanted.append(count)
    }
}
