//! The lexer: `tokens` over a text, and `lex` over any stream of bytes that knows its location.

ghost use Rattle.std.specs.Prelude.{◌≡◌, IfOk, All};
ghost use Rattle.winnow_stream.specs.Source.{units, HoldsAll};
ghost use Rattle.winnow_stream.specs.Location.{IsLocation};
ghost use Rattle.winnow_combinator.specs.Words.{IsLexer};
ghost use Rattle.example_lexer.specs.Tokens.{is_blank, IsClear, IsWord, AreTokens, StandsIn};

use crate::token::{Kind, Token};
use std::alloc::{AllocError, Global};
use std::ops::Range;
use winnow_combinator::{alt, preceded, repeat, terminated};
use winnow_error::EmptyError;
use winnow_parser::Parser;
use winnow_stream::{Location, Stream, StreamIsPartial};
use winnow_token::{any, take_while};
use winnow_wrap::LocatingSlice;

/// Returns all tokens of a text, in order.
pub fn tokens(alloc: Global, text: &[u8]) -> Result<Vec<Token>, AllocError>
    ensures tokens { IfOk result (λ tokens. AreTokens (units text.now) 0 tokens.items) }
    ensures spans { IfOk result (λ tokens. All (StandsIn text.now) tokens.items) }
{
    lex(alloc, LocatingSlice::new(text))
}

/// Returns all tokens of the rest of a stream, in order.
pub fn lex<I: StreamIsPartial + Stream<Token = u8> + Location + Drop>(
    alloc: Global,
    input: I,
) -> Result<Vec<Token>, AllocError>
where
    I::Slice: Drop,
    I::PartialState: Drop,
    requires valid { I.valid input }
    requires located { IsLocation I.location I.token_end I.token_start }
    ensures { IfOk result (λ tokens.
        AreTokens (I.remaining input) (I.token_start input) tokens.items) }
{
    let blanks = take_while(0.., (b' ', b'\t', b'\n', b'\r'));
    let letters = take_while(1.., (b'A'..=b'Z', b'a'..=b'z'));
    let digits = take_while(1.., b'0'..=b'9');
    let kind = alt((
        letters.value(Kind::Name),
        digits.value(Kind::Number),
        any().value(Kind::Punctuation),
    ));
    lex_kinds(alloc, input, blanks, kind)
}

// Returns the tokens whose kinds one parser reads, with blanks between them that another takes.
fn lex_kinds<I, B, K>(alloc: Global, input: I, blanks: B, kind: K) -> Result<Vec<Token>, AllocError>
where
    I: StreamIsPartial + Stream<Token = u8> + Location + Drop,
    I::PartialState: Drop,
    B: Parser<I, EmptyError> + Copy,
    B::Output: Drop,
    K: Parser<I, EmptyError, Output = Kind> + Drop,
    requires valid { I.valid input }
    requires located { IsLocation I.location I.token_end I.token_start }
    requires ready { B.ready blanks × K.ready kind }
    requires lexer { IsLexer (B.means blanks) (K.means kind) (HoldsAll is_blank) IsClear IsWord }
    ensures { IfOk result (λ tokens.
        AreTokens (I.remaining input) (I.token_start input) tokens.items) }
{
    let token = preceded(blanks, kind.with_span()).map(
        |(kind, span): (Kind, Range<usize>)| -> Token
            ensures { record { kind = kind; span = span } ≡ result }
        { Token { kind, span } },
    );
    let lexer = terminated(repeat(0.., token), blanks);
    match Parser::<I, EmptyError>::parse(&lexer, alloc, input)? {
        Ok(tokens) => Ok(tokens),
        Err(_) => unreachable!(),
    }
}
