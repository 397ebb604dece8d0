//! The grammar of a formula, over a stream of the lexer's tokens.

ghost use Rattle.std.specs.Prelude.{◌≡◌, pos, IfOk, Ok};
ghost use Rattle.winnow_grammar.specs.AnyAnswer.{AnyAnswer};
ghost use Rattle.winnow_parser.specs.Answer.{ahead, outcome};
ghost use Rattle.winnow_parser.specs.Outcome.{Gives, Moves};
ghost use Rattle.winnow_grammar.specs.Spelling.{IsSpelled};
ghost use Rattle.winnow_grammar.specs.Spelt.{Spelt};
ghost use Rattle.example_two_stages.specs.Formulas.{Sum, Factor};
ghost use Rattle.example_two_stages.specs.Grammar.{WritesPart, SlicesHaveSpans, leaf_of, IsPlaced};
ghost use Rattle.example_two_stages.specs.Grammar.{IsNegative, IsBinary, WritesOperand};
ghost use Rattle.example_two_stages.specs.Grammar.{WritesLeaf, WritesInParens};
ghost use Rattle.example_two_stages.specs.Grammar.{WritesMade, IsMinus, IsInfix, MissesNone};
ghost use Rattle.example_two_stages.specs.Signs.{infix_of};
ghost use Rattle.example_two_stages.specs.declared.formula.Operand.TheVariants.{Group};

use crate::signs::{AsToken, Sign, infix_of};
use crate::tree::{Operator, Tree};
use example_lexer::Kind;
use std::alloc::{AllocError, Global};
use std::ops::Range;
use winnow_combinator::{alt, cut_err, delimited};
use winnow_error::{AddContext, ParserError};
use winnow_error_context::{StrContext, StrContextValue};
use winnow_expression::{Infix, Prefix, expression};
use winnow_grammar::{LayerAs, ReadsAs, Spells, ask_as, part_as};
use winnow_parser::{Failure, ModalResult, Parser};
use winnow_spans::{SliceSpan, with_token_span};
use winnow_stream::{Location, StreamIsPartial};
use winnow_token::{any, one_of};

// A formula, or that memory for it was refused.
type Made = Result<Tree, AllocError>;

/// The grammar of a formula whose tokens stand in this source, with at most this number of layers
/// of operators.
#[derive(Clone, Copy, Drop)]
pub struct Formula<'s> {
    /// The source
    pub source: &'s str,
    /// The greatest number of layers
    pub layers: usize,
}

// What stands beside an operator.
#[derive(Drop)]
pub(crate) enum Operand {
    // A number
    Number,
    // A name
    Name,
    // A formula in parentheses
    Group(Tree),
}

// The grammar of a number or a name.
#[derive(Clone, Copy, Drop)]
struct Leaf;

// The grammar of a formula in parentheses. It holds the parser of the formula.
#[derive(Clone, Copy, Drop)]
struct InParens<'s, P> {
    source: &'s str,
    formula: P,
}

// The grammar of what stands beside an operator. It holds the parser of a formula in parentheses.
#[derive(Clone, Copy, Drop)]
struct Beside<'s, P> {
    source: &'s str,
    formula: P,
}

// Returns the operand that a token of this kind is alone.
fn operand_of(kind: Kind) -> Option<Operand>
    ensures { result ≡ leaf_of kind }
{
    match kind {
        Kind::Number => Some(Operand::Number),
        Kind::Name => Some(Operand::Name),
        Kind::Punctuation => None,
    }
}

// Returns the formula that an operand in this range is.
fn placed(alloc: Global, operand: Operand, span: Range<usize>) -> Made
    ensures { IfOk result (IsPlaced operand span) }
{
    match operand {
        Operand::Number => Ok(Tree::Number(span)),
        Operand::Name => Ok(Tree::Name(span)),
        Operand::Group(inside) => Ok(Tree::Group(span, Box::new(alloc, inside)?)),
    }
}

// Returns a minus in this range before a formula.
fn negative(alloc: Global, minus: Range<usize>, value: Made) -> Made
    ensures { IfOk result (IsNegative minus value) }
{
    let value = value?;
    let span = minus.start..value.span().end;
    Ok(Tree::Negative(span, Box::new(alloc, value)?))
}

// Returns an operator between two formulas.
fn binary(alloc: Global, left: Made, operator: Operator, right: Made) -> Made
    ensures { IfOk result (IsBinary left operator right) }
{
    let left = left?;
    let right = right?;
    let span = left.span().start..right.span().end;
    let left = Box::new(alloc, left)?;
    Ok(Tree::Binary(span, operator, left, Box::new(alloc, right)?))
}

// Reads a formula as the parser does, and hands on that memory for it was refused.
fn read_made<I: StreamIsPartial, E, P: Parser<I, E, Output = Made>>(
    alloc: Global,
    input: &mut I,
    parser: &P,
) -> ModalResult<Tree, E>
    requires ready { P.ready parser.now }
    requires valid { I.valid input.old }
    ensures made { IfOk result (λ tree. P.means parser.now (I.expects_more input.old)
        (ahead I.location I.remaining input.old)
        (Gives (Ok tree) (ahead I.location I.remaining input.new))) }
    ensures answer { AnyAnswer (I.expects_more input.old) (ahead I.location I.remaining input.old)
        (outcome result (ahead I.location I.remaining input.new)) }
    ensures onward { Moves (ahead I.location I.remaining input.old)
        (ahead I.location I.remaining input.new) }
    ensures valid { I.valid input.new }
    ensures kept { I.keeps input.old input.new }
{
    match parser.parse_next(alloc, input) {
        Ok(Ok(tree)) => Ok(tree),
        Ok(Err(refused)) => Err(Failure::Refused(refused)),
        Err(failure) => Err(failure),
    }
}

impl<I, E> ReadsAs<I, E> for Leaf
where
    I: StreamIsPartial,
    I::Token: AsToken + Copy + Drop,
    E: ParserError<I>,
{
    type Output = Operand;

    ghost spells = { λ _. WritesLeaf I.Token.token };

    fn read(&self, alloc: Global, input: &mut I) -> ModalResult<Operand, E> {
        let leaf = any().verify_map(
            |token: I::Token| -> Option<Operand>
                ensures { result ≡ leaf_of (I.Token.token token).kind }
            { operand_of(token.kind()) },
        );
        ask_as(alloc, input, &leaf)
    }
}

impl<I, E, P> ReadsAs<I, E> for InParens<'_, P>
where
    I: StreamIsPartial,
    I::Token: AsToken + Copy + Drop,
    E: ParserError<I> + AddContext<I, StrContext>,
    P: Spells<I, E, Output = Tree>,
{
    type Output = Tree;

    ghost spells = { λ b. WritesInParens I.Token.token b.source.now (P.spells b.formula) };

    ghost ready = { λ b. P.ready b.formula };

    fn read(&self, alloc: Global, input: &mut I) -> ModalResult<Tree, E> {
        let source = self.source;
        let closing = StrContext::Expected(StrContextValue::CharLiteral(')'));
        let open = one_of(Sign { source, byte: b'(' });
        let close = one_of(Sign { source, byte: b')' }).context(closing);
        ask_as(
            alloc,
            input,
            &delimited(open, cut_err(&self.formula), cut_err(close)),
        )
    }
}

impl<I, E, P> ReadsAs<I, E> for Beside<'_, P>
where
    I: StreamIsPartial,
    I::Token: AsToken + Copy + Drop,
    E: ParserError<I> + AddContext<I, StrContext>,
    P: Spells<I, E, Output = Tree> + Copy + Drop,
{
    type Output = Operand;

    ghost spells = { λ b. WritesOperand I.Token.token b.source.now (P.spells b.formula) };

    ghost ready = { λ b. P.ready b.formula };

    fn read(&self, alloc: Global, input: &mut I) -> ModalResult<Operand, E> {
        let (source, formula) = (self.source, self.formula);
        let group = part_as(InParens { source, formula }).map(
            |inside: Tree| -> Operand
                ensures { result ≡ Group inside }
            { Operand::Group(inside) },
        );
        ask_as(alloc, input, &alt((part_as(Leaf), group)))
    }
}

impl<I, X, E> LayerAs<I, E> for Formula<'_>
where
    I: StreamIsPartial + Location,
    I::Token: AsToken + Copy + Drop,
    I::Slice: SliceSpan + Drop,
    E: ParserError<I, Inner = X> + AddContext<I, StrContext>,
{
    type Output = Tree;

    ghost spells = { λ f. WritesPart I.Token.token f.source.now Sum };

    ghost ready = { λ _. SlicesHaveSpans I.Token.token I.is_slice I.Slice.span };

    fn read<P: Spells<I, E, Output = Tree> + Copy + Drop>(
        &self,
        alloc: Global,
        input: &mut I,
        formula: P,
    ) -> ModalResult<Tree, E> {
        let source = self.source;
        let wanted = StrContext::Expected(StrContextValue::Description("a value"));
        let operand = with_token_span(part_as(Beside { source, formula })).map(
            |(operand, span): (Operand, Range<usize>)| -> Made
                ensures { IfOk result (IsPlaced operand span) }
            { placed(alloc, operand, span) },
        );
        let sign = one_of(Sign { source, byte: b'-' }).context(wanted);
        let minus = with_token_span(sign).map(
            |(_, span): (I::Token, Range<usize>)| -> Prefix<Range<usize>>
                ensures { (result.0 ≡ pos 3) × (result.1 ≡ span) }
            { Prefix(3, span) },
        );
        let infix = any().verify_map(
            |token: I::Token| -> Option<Infix<Operator>>
                ensures { result ≡ infix_of source.entry.now (I.Token.token token) }
            { infix_of(source, &token) },
        );
        self.read_sum(alloc, input, operand, minus, infix)
    }
}

impl Formula<'_> {
    // Reads a sum by the parsers of operands, of minuses and of operators between two formulas.
    fn read_sum<I, X, E, O, M, N>(
        &self,
        alloc: Global,
        input: &mut I,
        operands: O,
        minuses: M,
        operators: N,
    ) -> ModalResult<Tree, E>
    where
        I: StreamIsPartial,
        I::Token: AsToken,
        E: ParserError<I, Inner = X>,
        O: Parser<I, E, Output = Made> + Drop,
        M: Parser<I, E, Output = Prefix<Range<usize>>> + Drop,
        N: Parser<I, E, Output = Infix<Operator>> + Drop,
        requires ready { O.ready operands × M.ready minuses × N.ready operators }
        requires operands { IsSpelled (WritesMade I.Token.token self.now.source.now Factor)
            (O.means operands) }
        requires minuses { IsSpelled (IsMinus I.Token.token self.now.source.now) (M.means minuses) }
        requires operators { IsSpelled (IsInfix I.Token.token self.now.source.now)
            (N.means operators) }
        requires ends { MissesNone I.Token.token self.now.source.now (N.means operators) }
        requires valid { I.valid input.old }
        ensures answer { Spelt (WritesPart I.Token.token self.now.source.now Sum)
            (I.expects_more input.old) (ahead I.location I.remaining input.old)
            (outcome result (ahead I.location I.remaining input.new)) }
        ensures onward { Moves (ahead I.location I.remaining input.old)
            (ahead I.location I.remaining input.new) }
        ensures valid { I.valid input.new }
        ensures kept { I.keeps input.old input.new }
    {
        let sum = expression(operands, self.layers)
            .prefix(
                minuses,
                |minus: Range<usize>, value: Made| -> Made
                    ensures { IfOk result (IsNegative minus value) }
                { negative(alloc, minus, value) },
            )
            .infix(
                operators,
                |left: Made, operator: Operator, right: Made| -> Made
                    ensures { IfOk result (IsBinary left operator right) }
                { binary(alloc, left, operator, right) },
            );
        read_made(alloc, input, &sum)
    }
}
