//! Functions that read by a parser inside a body: `ask`, which promises what every parser promises,
//! and `ask_as`, `ask_text` and `ask_bytes`, whose values the consumed tokens spell.

ghost use Rattle.winnow_parser.specs.Outcome.{Moves};
ghost use Rattle.winnow_parser.specs.Answer.{ahead, outcome};
ghost use Rattle.winnow_grammar.specs.AnyAnswer.{AnyAnswer};
ghost use Rattle.winnow_grammar.specs.Spelt.{Spelt};
ghost use Rattle.winnow_grammar.specs.Texts.{SpelledText, SpelledBytes};

use crate::Spells;
use std::alloc::Global;
use winnow_parser::{ModalResult, Parser};
use winnow_stream::StreamIsPartial;

/// Reads a value from the front of a stream by a parser, as `parse_next` does, and promises of the
/// answer what each parser promises. The stream stands before the parser, so that a long parser has
/// a stream when its type is checked.
pub fn ask<I: StreamIsPartial, E, P: Parser<I, E>>(
    alloc: Global,
    input: &mut I,
    parser: &P,
) -> ModalResult<P::Output, E>
    requires ready { P.ready parser.now }
    requires valid { I.valid input.old }
    ensures answer { AnyAnswer (I.expects_more input.old) (ahead I.location I.remaining input.old)
        (outcome result (ahead I.location I.remaining input.new)) }
    ensures onward { Moves (ahead I.location I.remaining input.old)
        (ahead I.location I.remaining input.new) }
    ensures valid { I.valid input.new }
    ensures kept { I.keeps input.old input.new }
{
    parser.parse_next(alloc, input)
}

/// Reads a value from the front of a stream by a parser, as `parse_next` does, and promises that
/// the tokens that are taken for it spell it.
pub fn ask_as<I: StreamIsPartial, E, P: Spells<I, E>>(
    alloc: Global,
    input: &mut I,
    parser: &P,
) -> ModalResult<P::Output, E>
    requires ready { P.ready parser.now }
    requires valid { I.valid input.old }
    ensures answer { Spelt (P.spells parser.now) (I.expects_more input.old)
        (ahead I.location I.remaining input.old)
        (outcome result (ahead I.location I.remaining input.new)) }
    ensures onward { Moves (ahead I.location I.remaining input.old)
        (ahead I.location I.remaining input.new) }
    ensures valid { I.valid input.new }
    ensures kept { I.keeps input.old input.new }
{
    parser.parse_next(alloc, input)
}

/// Reads a value from the front of a text by a parser, as `parse_next` does, and promises that the
/// characters that are taken for it spell it.
pub fn ask_text<'a, E, P: Spells<&'a str, E>>(
    alloc: Global,
    input: &mut &'a str,
    parser: &P,
) -> ModalResult<P::Output, E>
    requires { P.ready parser.now }
    ensures { SpelledText (P.spells parser.now) input.old result input.new }
{
    ask_as(alloc, input, parser)
}

/// Reads a value from the front of bytes by a parser, as `parse_next` does, and promises that the
/// bytes that are taken for it spell it.
pub fn ask_bytes<'a, E, P: Spells<&'a [u8], E>>(
    alloc: Global,
    input: &mut &'a [u8],
    parser: &P,
) -> ModalResult<P::Output, E>
    requires { P.ready parser.now }
    ensures { SpelledBytes (P.spells parser.now) input.old result input.new }
{
    ask_as(alloc, input, parser)
}
