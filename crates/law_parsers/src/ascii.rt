//! What the contracts of text with escapes and of numbers say of their failures, put together; and
//! that text with escapes is one list of fragments.

ghost use Rattle.std.specs.Prelude.{◌≡◌, IfErr};
ghost use Rattle.winnow_parser.specs.Determined.{IsDetermined, Shows};
ghost use Rattle.winnow_parser.specs.Answer.{ahead};
ghost use Rattle.winnow_parser.specs.Meanings.{Maps, IsForgotten};
ghost use Rattle.winnow_parser.specs.Taken.{Taken};
ghost use Rattle.winnow_ascii.specs.Escaped.{IsEscaped};
ghost use Rattle.winnow_ascii.specs.Numbers.{Digits, IsDecUint};
ghost use Rattle.law_parsers.specs.AsciiFailures.{IsOfPart, IsOfNumber};

use std::alloc::Global;
use winnow_ascii::{Escaped, Fragment, alpha1, dec_uint, determined_escaped_law, escaped};
use winnow_count::{Accumulate, ParseSlice};
use winnow_error::{EmptyError, ParserError};
use winnow_parser::{Failure, ModalResult, Parser};
use winnow_sets::AsChar;
use winnow_stream::StreamIsPartial;
use winnow_token::{Any, one_of};

/// Reads text with escapes, or fails with an error of one of its parts.
pub fn text_with_escapes<
    I: StreamIsPartial,
    E: ParserError<I>,
    P: Parser<I, E>,
    C: Parser<I, E>,
    Q: Parser<I, E>,
    A: Accumulate<Fragment<P::Output, Q::Output>> + Drop,
>(alloc: Global, text: &Escaped<P, C, Q, A>, input: &mut I) -> ModalResult<A, E>
where
    C::Output: Drop,
    requires normal { P.ready text.now.normal }
    requires control { C.ready text.now.control }
    requires escapable { Q.ready text.now.escapable }
    requires valid { I.valid input.old }
    ensures { IfErr result (IsOfPart (P.means text.now.normal) (P.errors text.now.normal)
        (C.means text.now.control) (C.errors text.now.control) (Q.errors text.now.escapable)
        (I.expects_more input.old) input.new) }
{
    text.parse_next(alloc, input)
}

/// The law that text with escapes is one list of fragments, where each of its parts has one value.
pub fn one_list_of_fragments<
    I: StreamIsPartial,
    E,
    P: Parser<I, E>,
    C: Parser<I, E>,
    Q: Parser<I, E>,
    A: Accumulate<Fragment<P::Output, Q::Output>>,
    V,
>()
    ensures { (view : C.Output → V) (p : P) (c : C) (q : Q) → IsDetermined ◌≡◌ (P.means p)
        → IsDetermined (Shows view) (C.means c) → IsDetermined ◌≡◌ (Q.means q)
        → IsDetermined ◌≡◌ (IsEscaped (P.means p) (C.means c) (Q.means q)) }
{
    determined_escaped_law::<I, E, P, C, Q, A, P::Output, V, Q::Output, V>();
}

/// Reads a number in decimal digits, or fails with an error of the digits, or of what they read as.
pub fn number<I: StreamIsPartial, E: ParserError<I>, R>(
    alloc: Global,
    input: &mut I,
) -> ModalResult<R, E>
where
    I::Token: AsChar + Copy,
    I::Slice: ParseSlice<R> + Drop,
    requires { I.valid input.old }
    ensures { IfErr result (IsOfNumber I.Slice.reads
        (Taken I.is_slice (IsDecUint E.or_refusable E.append_refusable I.is_slice I.Token.code))
        (ahead I.location I.remaining) (ahead I.Checkpoint.location I.remained)
        (Maps IsForgotten (Digits I.is_slice I.Token.code)) E.from_input_gives E.assert_gives
        E.or_gives E.append_gives (I.expects_more input.old)
        (ahead I.location I.remaining input.old) input.new) }
{
    dec_uint().parse_next(alloc, input)
}

#[test]
fn what_is_no_escape_and_no_number_backtracks(rt: HostRuntime) {
    one_list_of_fragments::<&str, EmptyError, Any, Any, Any, String, char>();
    let text = escaped::<_, _, String>(alpha1(), '\\', one_of('n'));
    let mut input = "a\\x";
    let answer = text_with_escapes::<_, EmptyError, _, _, _, _>(rt.alloc(), &text, &mut input);
    assert!(rt; matches!(answer, Err(Failure::Backtrack(_))));
    assert_eq!(rt; input, "x");
    let none = number::<_, EmptyError, u8>(rt.alloc(), &mut input);
    assert!(rt; matches!(none, Err(Failure::Backtrack(_))));
}
