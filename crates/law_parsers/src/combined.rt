//! Which errors failures carry: what the contracts of the parts say of it, put together.

ghost use Rattle.std.specs.Prelude.{IfErr};
ghost use Rattle.winnow_parser.specs.Answer.{ahead};
ghost use Rattle.law_parsers.specs.Failures.{IsMade, IsNamed, IsLabelled, IsJoined, IsOwn};
ghost use Rattle.law_parsers.specs.Failures.{IsAtEnd};

use std::alloc::Global;
use winnow_combinator::{alt, backtrack_err, cut_err};
use winnow_error::{AddContext, EmptyError, ParserError};
use winnow_parser::{Failure, ModalResult, Parser};
use winnow_permutation::permutation;
use winnow_stream::StreamIsPartial;
use winnow_token::{any, one_of};
use winnow_wrap::Partial;

/// Reads a token, or fails with an error that has the label.
pub fn named_token<I: StreamIsPartial, C: Copy, E: ParserError<I> + AddContext<I, C>>(
    alloc: Global,
    input: &mut I,
    label: C,
) -> ModalResult<I::Token, E>
    requires { I.valid input.old }
    ensures { IfErr result (IsNamed E.from_input_gives E.assert_gives
        (λ e s start. E.add_context_gives e s start label) (ahead I.Checkpoint.location I.remained)
        (ahead I.location I.remaining input.old) input.new) }
{
    any().context(label).parse_next(alloc, input)
}

/// Reads a token, or cuts with an error that has the label.
pub fn labelled_token<I: StreamIsPartial, C: Copy, E: ParserError<I> + AddContext<I, C>>(
    alloc: Global,
    input: &mut I,
    label: C,
) -> ModalResult<I::Token, E>
    requires { I.valid input.old }
    ensures { IfErr result (IsLabelled (IsMade E.from_input_gives E.assert_gives)
        (λ e s start. E.add_context_gives e s start label) (ahead I.Checkpoint.location I.remained)
        (ahead I.location I.remaining input.old) input.new) }
{
    cut_err(any()).context(label).parse_next(alloc, input)
}

/// Reads a token, tries so once more where that fails, joins the errors and appends to the joined
/// one.
pub fn token_tried_twice<I: StreamIsPartial, E: ParserError<I>>(
    alloc: Global,
    input: &mut I,
) -> ModalResult<I::Token, E>
    requires { I.valid input.old }
    ensures { IfErr result (IsJoined (IsMade E.from_input_gives E.assert_gives) E.or_gives
        E.append_gives (ahead I.Checkpoint.location I.remained) (ahead I.location I.remaining)
        (ahead I.location I.remaining input.old) input.new) }
{
    alt((backtrack_err(any()), backtrack_err(any()))).parse_next(alloc, input)
}

/// Reads the first of these words that the text begins with.
pub fn one_word<'a>(
    alloc: Global,
    input: &mut &'a str,
    words: &[&'static str],
) -> ModalResult<&'a str, EmptyError> {
    alt(words).parse_next(alloc, input)
}

/// Reads a sign that begins a piece of text.
pub fn one_sign<'a>(alloc: Global, input: &mut Partial<&'a str>) -> ModalResult<char, EmptyError> {
    alt(['+', '-', '~']).parse_next(alloc, input)
}

/// Reads a sign and a digit of a text, in either order.
pub fn sign_and_digit<'a>(
    alloc: Global,
    input: &mut &'a str,
) -> ModalResult<(char, char), EmptyError> {
    permutation((one_of(('+', '-')), one_of('0'..='9'))).parse_next(alloc, input)
}

/// Reads two tokens, or fails with the error of the one that fails.
pub fn two_tokens<I: StreamIsPartial, E: ParserError<I>>(
    alloc: Global,
    input: &mut I,
) -> ModalResult<(I::Token, I::Token), E>
where
    I::Token: Drop,
    requires { I.valid input.old }
    ensures { IfErr result (IsOwn (IsMade E.from_input_gives E.assert_gives)
        input.new) }
{
    backtrack_err((any(), any())).parse_next(alloc, input)
}

/// Reads the first token of a stream that is given away.
pub fn first_token<I: StreamIsPartial + Drop, E: ParserError<I>>(
    alloc: Global,
    input: I,
) -> ModalResult<(I, I::Token), E>
    requires { I.valid input }
    ensures { IfErr result (IsAtEnd E.from_input_gives (ahead I.location I.remaining)
        (ahead I.location I.remaining input)) }
{
    any().parse_peek(alloc, input)
}

#[test]
fn failures_at_the_end(rt: HostRuntime) {
    let mut input = Partial::new("");
    let _ = input.complete();
    let named = named_token::<_, _, EmptyError>(rt.alloc(), &mut input, "letter");
    assert!(rt; matches!(named, Err(Failure::Backtrack(_))));
    let labelled = labelled_token::<_, _, EmptyError>(rt.alloc(), &mut input, "letter");
    assert!(rt; matches!(labelled, Err(Failure::Cut(_))));
    let joined = token_tried_twice::<_, EmptyError>(rt.alloc(), &mut input);
    assert!(rt; matches!(joined, Err(Failure::Backtrack(_))));
    let own = two_tokens::<_, EmptyError>(rt.alloc(), &mut input);
    assert!(rt; matches!(own, Err(Failure::Backtrack(_))));
    let none = first_token::<_, EmptyError>(rt.alloc(), input);
    assert!(rt; none.is_err());
}
