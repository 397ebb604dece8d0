//! Both stages: the lexer over the source, and the grammar over the tokens.

ghost use Rattle.std.specs.Prelude.{◌≤◌, length, IfOk};
ghost use Rattle.winnow_grammar.specs.AnyAnswer.{AnyAnswer};
ghost use Rattle.winnow_parser.specs.Answer.{ahead, outcome};
ghost use Rattle.winnow_grammar.specs.Spelling.{tokens_of};
ghost use Rattle.example_two_stages.specs.Formulas.{Sum, Writes, IsFormula};
ghost use Rattle.example_two_stages.specs.Grammar.{WritesPart, SlicesHaveSpans};

use crate::formula::Formula;
use crate::signs::AsToken;
use crate::tree::Tree;
use example_lexer::{Token, lex};
use std::alloc::{AllocError, Global};
use winnow_combinator::{eof, terminated};
use winnow_error::{AddContext, ParserError};
use winnow_error_context::{ContextError, StrContext, StrContextValue};
use winnow_error_parse::ParseError;
use winnow_grammar::nested_as;
use winnow_parser::{Failure, ModalResult, Parser, WholeResult};
use winnow_spans::SliceSpan;
use winnow_stream::{Location, Stream, StreamIsPartial};
use winnow_views::TokenSlice;
use winnow_wrap::LocatingSlice;

/// The greatest number of layers. A part of a formula is within at most one parenthesis fewer, and
/// operators are nested in each other at most one level fewer.
pub const LAYERS: usize = 20;

/// What is wrong with a formula.
pub type Reason = ContextError<StrContext>;

/// Reads the formula that begins at this place of a source and goes on to its end.
///
/// The error is at the first token with which a formula cannot go on, or after the last one if more
/// is wanted there. No contract says which error it is.
pub fn read_formula<'s>(
    alloc: Global,
    source: &'s str,
    start: usize,
) -> WholeResult<Tree, ParseError<&'s str, Reason>>
    requires { start ≤ length source.now }
    ensures { IfOk result (λ answer. IfOk answer (IsFormula source.now start)) }
{
    let bytes = LocatingSlice::at(&source.as_bytes()[start..], start);
    let tokens = lex(alloc, bytes)?;
    read_tokens(alloc, source, start, &tokens)
}

// Reads the formula that all tokens make. Without tokens the error is at the start.
fn read_tokens<'s>(
    alloc: Global,
    source: &'s str,
    start: usize,
    tokens: &[Token],
) -> WholeResult<Tree, ParseError<&'s str, Reason>>
    ensures { IfOk result (λ answer. IfOk answer (λ tree. Writes source.now Sum tree tokens.now)) }
{
    let mut input = TokenSlice::new(tokens);
    match read_all(alloc, &mut input, source) {
        Ok(tree) => Ok(Ok(tree)),
        Err(Failure::Refused(refused)) => Err(refused),
        Err(Failure::Backtrack(reason)) | Err(Failure::Cut(reason)) => {
            let place = match tokens {
                [] => start,
                _ => input.current_token_start(),
            };
            Ok(Err(located(source, place, reason)?))
        }
        Err(Failure::Incomplete(_)) => unreachable!(),
    }
}

// Reads a formula, and then the end of the tokens.
fn read_all<I, X, E>(alloc: Global, input: &mut I, source: &str) -> ModalResult<Tree, E>
where
    I: StreamIsPartial + Location,
    I::Token: AsToken + Copy + Drop,
    I::Slice: SliceSpan + Drop,
    E: ParserError<I, Inner = X> + AddContext<I, StrContext>,
    requires valid { I.valid input.old }
    requires spans { SlicesHaveSpans I.Token.token I.is_slice I.Slice.span }
    ensures answer { AnyAnswer (I.expects_more input.old) (ahead I.location I.remaining input.old)
        (outcome result (ahead I.location I.remaining input.new)) }
    ensures written { IfOk result (λ tree.
        WritesPart I.Token.token source.now Sum tree (tokens_of (I.remaining input.old))) }
{
    let layers = LAYERS;
    let formula = nested_as(Formula { source, layers }, layers);
    let end = eof().context(StrContext::Expected(StrContextValue::Description("an operator")));
    read_by(alloc, input, &terminated(formula, end))
}

// Reads a formula by a parser, with what each parser promises of its answer.
fn read_by<I: StreamIsPartial, E, P: Parser<I, E, Output = Tree>>(
    alloc: Global,
    input: &mut I,
    parser: &P,
) -> ModalResult<Tree, E>
    requires ready { P.ready parser.now }
    requires valid { I.valid input.old }
    ensures means { P.means parser.now (I.expects_more input.old)
        (ahead I.location I.remaining input.old)
        (outcome result (ahead I.location I.remaining input.new)) }
    ensures answer { AnyAnswer (I.expects_more input.old) (ahead I.location I.remaining input.old)
        (outcome result (ahead I.location I.remaining input.new)) }
{
    parser.parse_next(alloc, input)
}

// Returns the error at this place of the source. A reason without a context is that of a formula
// that is nested too deeply.
fn located<'s>(
    source: &'s str,
    place: usize,
    reason: Reason,
) -> Result<ParseError<&'s str, Reason>, AllocError> {
    let mut reason = reason;
    if reason.context().next().is_none() {
        reason.push(StrContext::Label("nesting"))?;
    }
    let mut input = source;
    let start = input.checkpoint();
    if input.is_offset(place) {
        let _before = input.next_slice(place);
    }
    Ok(ParseError::new(input, start, reason))
}
