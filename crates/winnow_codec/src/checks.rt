//! A value with a code that is computed from its bytes: `Check`, `checked`.

ghost use Rattle.std.specs.Prelude.{◌≡◌, List, ℕ};
ghost use Rattle.winnow_parser.specs.Answer.{ahead, outcome};
ghost use Rattle.winnow_codec.specs.Checks.{SpellsChecked, IsFormat-Checked};
ghost use Rattle.winnow_codec.specs.Formats.{Reads};
ghost use Rattle.winnow_codec.specs.Known.{SpellsExactly};

use crate::{Exact, Format, Unwritten, exactly};
use std::alloc::Global;
use winnow_error::ParserError;
use winnow_parser::{Failure, ModalResult};
use winnow_stream::StreamIsPartial;

/// A function of bytes whose result stands after them, as a checksum does.
pub trait Check: Sized {
    /// The result, which a format of codes spells.
    type Code;

    // The code of bytes.
    ghost code_of: { Self → List ℕ → Self.Code };

    /// Returns the code of the bytes.
    fn compute(&self, bytes: &[u8]) -> Self::Code
        ensures { result ≡ code_of self.now bytes.now };
}

/// The format of a value with the code of its bytes; [`checked`] makes it.
#[derive(Clone, Copy, Drop)]
pub struct CheckedBy<F, C, K> {
    inner: F,
    codes: C,
    check: K,
}

/// Returns the format of a value and then of the code of its bytes, as a frame with its checksum.
/// The writer computes the code, and a value before another code is not read. The reader writes the
/// value that it has read, since the code is that of its bytes, and allocates memory for them.
///
/// ```
/// let counted = checked(till(b"\0", text()), count_of(u8()), ByteCount);
/// assert_eq!(rt; read_all(alloc, &counted, b"ab\0\x03")?.as_str(), "ab");
/// ```
pub fn checked<F, C, K>(inner: F, codes: C, check: K) -> CheckedBy<F, C, K>
    ensures { result ≡ record { inner = inner; codes = codes; check = check } }
{
    CheckedBy {
        inner,
        codes,
        check,
    }
}

// Reads this code alone.
fn read_code<I: StreamIsPartial<Token = u8>, E: ParserError<I>, C: Exact>(
    codes: &C,
    code: C::Value,
    alloc: Global,
    input: &mut I,
) -> ModalResult<(), E>
where
    C::Value: Drop,
    requires { I.valid input.old }
    ensures means { Reads (SpellsExactly (C.spells codes.now) code) (I.expects_more input.old)
        (ahead I.location I.remaining input.old)
        (outcome result (ahead I.location I.remaining input.new)) }
    ensures valid { I.valid input.new }
    ensures kept { I.keeps input.old input.new }
{
    exactly(codes, code).read(alloc, input)
}

impl<F: Format, C: Exact, K: Check<Code = C::Value>> Format for CheckedBy<F, C, K>
where
    F::Value: Drop,
    C::Value: Drop,
{
    type Value = F::Value;

    ghost spells = { λ f. SpellsChecked (F.spells f.inner) (C.spells f.codes)
        (K.code_of f.check) };

    ghost same = { F.same };

    ghost lawful = { λ f. IsFormat-Checked F.same (F.spells f.inner) (F.lawful f.inner)
        C.same (C.spells f.codes) (C.lawful f.codes) (K.code_of f.check) };

    fn read<I: StreamIsPartial<Token = u8>, E: ParserError<I>>(
        &self,
        alloc: Global,
        input: &mut I,
    ) -> ModalResult<F::Value, E> {
        let value = match self.inner.read(alloc, input) {
            Ok(value) => value,
            Err(failure) => return Err(failure),
        };
        let mut part = Vec::new(alloc);
        match self.inner.write(&value, &mut part) {
            Ok(()) => {}
            Err(Unwritten::Unspelled) => unreachable!(),
            Err(Unwritten::Refused(refused)) => return Err(Failure::Refused(refused)),
        }
        match read_code(&self.codes, self.check.compute(&part), alloc, input) {
            Ok(()) => Ok(value),
            Err(failure) => Err(failure),
        }
    }

    fn write(&self, value: &F::Value, bytes: &mut Vec<u8>) -> Result<(), Unwritten> {
        let start = bytes.len();
        self.inner.write(value, bytes)?;
        let code = self.check.compute(&bytes[start..]);
        match self.codes.write(&code, bytes) {
            Ok(()) => Ok(()),
            Err(unwritten) => {
                bytes.truncate(start);
                Err(unwritten)
            }
        }
    }
}

impl<F: Exact, C: Exact, K: Check<Code = C::Value>> Exact for CheckedBy<F, C, K>
where
    F::Value: Drop,
    C::Value: Drop,
{
    ghost exact = { F.exact };

    fn equal(left: &F::Value, right: &F::Value) -> bool {
        F::equal(left, right)
    }
}
