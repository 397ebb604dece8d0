//! `drive`, which passes on an input piece by piece, to its end.

ghost use Rattle.std.specs.Prelude.{◌≡◌, ℕ, ◌≤◌, ◌<◌, ◌++◌, List, length, take, vec_len};
ghost use Rattle.std.specs.Prelude.{Option, IfOk, IfErr, OnOk, IfSome, Result, Err};
ghost use Rattle.std.specs.Io.KnownBytes.{Consumes, IsAtEnd};

use crate::Trouble;
use std::alloc::Global;
use std::io::{ErrorKind, Read, Write};

// A read of a pipe gives at most as much.
const PIECE: usize = 64 * 1024;

/// What is passed the pieces of an input, and writes what it makes of them.
pub trait Driven<W: Write>: Drop {
    /// Why it stops
    type Failure: Drop;

    // It may be passed more.
    ghost ready: { Self → Type 0 };

    // Since it was the first value it was passed these bytes of an input; the output had the one
    // bytes then, and has the others now; and it is the second value.
    ghost follows: { Self → List ℕ → Option (List ℕ) → Option (List ℕ) → Self → Type 0 };

    // What it returns of an input of these bytes, if it was the value at its start, the output had
    // the one bytes then, and has the others now.
    ghost tells: { Self → List ℕ → Option (List ℕ) → Option (List ℕ)
        → Result (Unit {0}) Self.Failure → Type 0 };

    /// Takes a piece of the input.
    fn piece(&mut self, alloc: Global, piece: &[u8], output: &mut W) -> Result<(), Self::Failure>
        requires { ready self.old }
        ensures ready { OnOk result (ready self.new) }
        ensures follows { (start : Self) (bytes : List ℕ) (had : Option (List ℕ))
            → follows start bytes had (W.contents output.old) self.old
            → OnOk result (follows start (bytes ++ piece.now) had (W.contents output.new)
            self.new) }
        ensures tells { (start : Self) (bytes rest : List ℕ) (had : Option (List ℕ))
            → follows start bytes had (W.contents output.old) self.old
            → IfErr result (λ failure. tells start (bytes ++ (piece.now ++ rest)) had
            (W.contents output.new) (Err failure)) };

    /// Takes the end of the input.
    fn end(&mut self, alloc: Global, output: &mut W) -> Result<(), Self::Failure>
        requires { ready self.old }
        ensures { (start : Self) (bytes : List ℕ) (had : Option (List ℕ))
            → follows start bytes had (W.contents output.old) self.old
            → tells start bytes had (W.contents output.new) result };

    /// Returns the failure of a trouble. It says nothing of the input.
    fn trouble(trouble: Trouble) -> Self::Failure
        ensures { (start : Self) (bytes : List ℕ) (had now : Option (List ℕ))
            → tells start bytes had now (Err result) };
}

/// Reads an input to its end, and passes each piece on as soon as it is read.
pub fn drive<R: Read, W: Write, D: Driven<W>>(
    alloc: Global,
    input: &mut R,
    buffer: &mut [u8],
    driven: &mut D,
    output: &mut W,
) -> Result<(), D::Failure>
    requires ready { D.ready driven.old }
    requires room { 0 < length buffer.old }
    ensures { (start : D) (bytes : List ℕ) (had : Option (List ℕ))
        → D.follows start bytes had (W.contents output.old) driven.old
        → IfSome (R.remaining input.old) (λ rest. D.tells start (bytes ++ rest) had
        (W.contents output.new) result) }
{
    // No input has so many pieces that the turns are used up.
    for _ in 0..u64::MAX {
        let count = match read_piece(input, buffer) {
            Ok(count) => count,
            Err(trouble) => return Err(D::trouble(trouble)),
        };
        if count == 0 {
            return driven.end(alloc, output);
        }
        match driven.piece(alloc, &buffer[..count], output) {
            Ok(()) => {}
            Err(failure) => return Err(failure),
        }
    }
    Err(D::trouble(Trouble::TooLong))
}

/// Returns room for a piece.
pub fn new_buffer(alloc: Global) -> Result<Vec<u8>, Trouble>
    ensures { IfOk result (λ buffer. 0 < vec_len buffer) }
{
    match vec![in alloc; 0; PIECE] {
        Ok(buffer) => Ok(buffer),
        Err(_) => Err(Trouble::OutOfMemory),
    }
}

/// Reads once, and again if the read was interrupted. At the end of the input it returns 0.
pub fn read_piece<R: Read>(input: &mut R, buffer: &mut [u8]) -> Result<usize, Trouble>
    requires { 0 < length buffer.old }
    ensures within { IfOk result (λ count. count ≤ length buffer.new) }
    ensures taken { IfOk result (λ count.
        Consumes (R.remaining input.old) (R.remaining input.new) (take count buffer.new)) }
    ensures end { IfOk result (λ count. count ≡ 0 → IsAtEnd (R.remaining input.new)) }
{
    for _ in 0..u64::MAX {
        match input.read(buffer) {
            Ok(count) => return Ok(count),
            Err(error) => {
                if error.kind() != ErrorKind::Interrupted {
                    return Err(Trouble::reading(error));
                }
            }
        }
    }
    Err(Trouble::TooLong)
}
