//! All functions that make parsers, in the order of the Rust crate's documents.

ghost use Rattle.std.specs.Prelude.{◌≡◌, codes};
ghost use Rattle.winnow_ascii.specs.Classes.{TakesAll};
ghost use Rattle.winnow_ascii.specs.declared.class.Class.TheVariants.{Alpha, Digit, Alphanumeric};
ghost use Rattle.winnow_ascii.specs.declared.class.Class.TheVariants.{HexDigit, OctDigit, Space};
ghost use Rattle.winnow_ascii.specs.declared.class.Class.TheVariants.{Multispace};
ghost use Rattle.winnow_ascii.specs.Lines.{IsTillLineEnding};

use crate::{Class, DecInt, DecUint, Escaped, HexUintOf, LineEnding, TillLineEnding};
use std::marker::PhantomData;
use winnow_combinator::{alt, not, terminated};
use winnow_error::ParserError;
use winnow_match::Compare;
use winnow_parser::{Parser, Taken, Value};
use winnow_sets::AsChar;
use winnow_stream::StreamIsPartial;
use winnow_token::{Literal, OneOf, TakeWhile, literal, one_of, take_till, take_while};

/// Returns the parser of a carriage return and a newline after it.
pub fn crlf() -> Literal<&'static str>
    ensures { result.text.now ≡ codes "\r\n" }
{
    literal("\r\n")
}

/// Returns the parser of a newline, which gives `'\n'`.
pub fn newline<I: StreamIsPartial, E: ParserError<I>>() -> Value<OneOf<char>, char, I, E>
where
    I::Token: AsChar + Copy,
    ensures set { result.inner.set ≡ 10 }
    ensures value { result.value ≡ 10 }
{
    one_of('\n').value('\n')
}

/// Returns the parser of a tab, which gives `'\t'`.
pub fn tab<I: StreamIsPartial, E: ParserError<I>>() -> Value<OneOf<char>, char, I, E>
where
    I::Token: AsChar + Copy,
    ensures set { result.inner.set ≡ 9 }
    ensures value { result.value ≡ 9 }
{
    one_of('\t').value('\t')
}

/// Returns the parser of the end of a line: a newline, or a carriage return and a newline.
pub fn line_ending<I: StreamIsPartial, E: ParserError<I>>() -> LineEnding<I, E>
where
    I::Token: AsChar + Copy,
    ensures newline { result.list.0.inner.set ≡ 10 }
    ensures crlf { result.list.1.text.now ≡ codes "\r\n" }
{
    alt((one_of('\n').take(), crlf()))
}

/// Returns the parser of the text of a line, up to the end of the line or of the input. The end
/// itself is not taken. Where the text is followed by a carriage return without a newline, the
/// parser backtracks.
pub fn till_line_ending() -> TillLineEnding
    ensures { IsTillLineEnding result }
{
    terminated(
        take_till(0.., ('\r', '\n')),
        not((one_of('\r'), not(one_of('\n')))),
    )
}

/// Returns the parser of the letters ahead, if any: `A` to `Z` and `a` to `z`.
pub fn alpha0() -> TakeWhile<Class>
    ensures { TakesAll Alpha 0 result }
{
    take_while(0.., Class::Alpha)
}

/// Returns the parser of the letters ahead, one at least: `A` to `Z` and `a` to `z`.
pub fn alpha1() -> TakeWhile<Class>
    ensures { TakesAll Alpha 1 result }
{
    take_while(1.., Class::Alpha)
}

/// Returns the parser of the digits ahead, if any: `0` to `9`.
pub fn digit0() -> TakeWhile<Class>
    ensures { TakesAll Digit 0 result }
{
    take_while(0.., Class::Digit)
}

/// Returns the parser of the digits ahead, one at least: `0` to `9`.
pub fn digit1() -> TakeWhile<Class>
    ensures { TakesAll Digit 1 result }
{
    take_while(1.., Class::Digit)
}

/// Returns the parser of the letters and digits ahead, if any.
pub fn alphanumeric0() -> TakeWhile<Class>
    ensures { TakesAll Alphanumeric 0 result }
{
    take_while(0.., Class::Alphanumeric)
}

/// Returns the parser of the letters and digits ahead, one at least.
pub fn alphanumeric1() -> TakeWhile<Class>
    ensures { TakesAll Alphanumeric 1 result }
{
    take_while(1.., Class::Alphanumeric)
}

/// Returns the parser of the hexadecimal digits ahead, if any: `0` to `9`, `A` to `F` and `a` to
/// `f`.
pub fn hex_digit0() -> TakeWhile<Class>
    ensures { TakesAll HexDigit 0 result }
{
    take_while(0.., Class::HexDigit)
}

/// Returns the parser of the hexadecimal digits ahead, one at least: `0` to `9`, `A` to `F` and `a`
/// to `f`.
pub fn hex_digit1() -> TakeWhile<Class>
    ensures { TakesAll HexDigit 1 result }
{
    take_while(1.., Class::HexDigit)
}

/// Returns the parser of the octal digits ahead, if any: `0` to `7`.
pub fn oct_digit0() -> TakeWhile<Class>
    ensures { TakesAll OctDigit 0 result }
{
    take_while(0.., Class::OctDigit)
}

/// Returns the parser of the octal digits ahead, one at least: `0` to `7`.
pub fn oct_digit1() -> TakeWhile<Class>
    ensures { TakesAll OctDigit 1 result }
{
    take_while(1.., Class::OctDigit)
}

/// Returns the parser of the spaces and tabs ahead, if any.
pub fn space0() -> TakeWhile<Class>
    ensures { TakesAll Space 0 result }
{
    take_while(0.., Class::Space)
}

/// Returns the parser of the spaces and tabs ahead, one at least.
pub fn space1() -> TakeWhile<Class>
    ensures { TakesAll Space 1 result }
{
    take_while(1.., Class::Space)
}

/// Returns the parser of the spaces, tabs, carriage returns and newlines ahead, if any.
pub fn multispace0() -> TakeWhile<Class>
    ensures { TakesAll Multispace 0 result }
{
    take_while(0.., Class::Multispace)
}

/// Returns the parser of the spaces, tabs, carriage returns and newlines ahead, one at least.
pub fn multispace1() -> TakeWhile<Class>
    ensures { TakesAll Multispace 1 result }
{
    take_while(1.., Class::Multispace)
}

/// Returns the parser of the number that decimal digits write: `0` alone, or all digits ahead if
/// the first is not 0. Where the type does not have the number, the parser backtracks.
pub fn dec_uint<R>() -> DecUint<R> {
    DecUint { value: PhantomData }
}

/// Returns the parser of the number that decimal digits write: `0` alone, or all digits ahead if
/// the first is not 0, after `+`, `-` or no sign. Where the type does not have the number, the
/// parser backtracks.
pub fn dec_int<R>() -> DecInt<R> {
    DecInt { value: PhantomData }
}

/// Returns the parser of the number that all hexadecimal digits ahead write. Where there are more
/// digits than a value of the type has, the parser backtracks, even where the first of them are 0.
pub fn hex_uint<R>() -> HexUintOf<R> {
    HexUintOf { value: PhantomData }
}

/// Returns the parser of text with escapes, which gathers what the text stands for in an `A`.
///
/// `normal` reads what stands for itself; where it backtracks and the control character stands
/// ahead, `escapable` reads the escape after it, and gives what the escape stands for. The text
/// ends where neither stands at the front, where `normal` takes nothing for a value, and at the end
/// of the input. Where more may follow that, more is needed.
///
/// After the control character, the failures of `escapable` are those of the whole.
///
/// ```
/// let escapable = alt((literal("n").value('\n'), one_of(('"', '\\'))));
/// ..
/// escaped(alpha1(), '\\', escapable)
/// ```
pub fn escaped<P, Q, A>(
    normal: P,
    control_char: char,
    escapable: Q,
) -> Escaped<P, Literal<char>, Q, A>
    ensures normal { result.normal ≡ normal }
    ensures control { result.control.text ≡ control_char }
    ensures escapable { result.escapable ≡ escapable }
{
    Escaped {
        normal,
        control: literal(control_char),
        escapable,
        gathers: PhantomData,
    }
}

/// Returns the parser of the slice of text with escapes, as [`escaped`] reads it.
pub fn take_escaped<I: StreamIsPartial, E: ParserError<I>, P: Parser<I, E>, Q: Parser<I, E>>(
    normal: P,
    control_char: char,
    escapable: Q,
) -> Taken<Escaped<P, Literal<char>, Q, ()>, I, E>
where
    P::Output: Drop,
    Q::Output: Drop,
    I: Compare<char>,
    I::Slice: Drop,
    ensures normal { result.inner.normal ≡ normal }
    ensures control { result.inner.control.text ≡ control_char }
    ensures escapable { result.inner.escapable ≡ escapable }
{
    escaped(normal, control_char, escapable).take()
}
