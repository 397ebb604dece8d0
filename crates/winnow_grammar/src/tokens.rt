//! The spellings of `any`, `one_of`, `none_of`, `take_while` and `take_till`.

ghost use Rattle.std.specs.Prelude.{true, not};
ghost use Rattle.winnow_count.specs.CountRange.{least_count, greatest_count};
ghost use Rattle.winnow_grammar.specs.Spellings.{OneToken, Run};
ghost use Rattle.winnow_grammar.specs.SpelledTokens.{spelled-OneToken, spelled-Run};

use crate::Spells;
use winnow_error::ParserError;
use winnow_sets::FixedSet;
use winnow_stream::StreamIsPartial;
use winnow_token::{Any, NoneOf, OneOf, TakeTill, TakeWhile};

impl<I: StreamIsPartial, E: ParserError<I>> Spells<I, E> for Any {
    ghost spells = { λ _. OneToken (λ _. true) };

    ghost spelled = { λ _. spelled-OneToken (λ _. true) };
}

impl<I: StreamIsPartial, E: ParserError<I>, C: FixedSet<I::Token>> Spells<I, E> for OneOf<C>
where
    I::Token: Copy,
{
    ghost spells = { λ p. OneToken (C.holds p.set) };

    ghost spelled = { λ p. spelled-OneToken (C.holds p.set) };
}

impl<I: StreamIsPartial, E: ParserError<I>, C: FixedSet<I::Token>> Spells<I, E> for NoneOf<C>
where
    I::Token: Copy,
{
    ghost spells = { λ p. OneToken (λ token. not (C.holds p.set token)) };

    ghost spelled = { λ p. spelled-OneToken (λ token. not (C.holds p.set token)) };
}

impl<I: StreamIsPartial, E: ParserError<I>, C: FixedSet<I::Token>> Spells<I, E> for TakeWhile<C> {
    ghost spells = { λ p. Run I.is_slice (C.holds p.set) (least_count p.counts)
        (greatest_count p.counts) };

    ghost spelled = { λ p. spelled-Run (C.holds p.set) I.is_slice (least_count p.counts)
        (greatest_count p.counts) };
}

impl<I: StreamIsPartial, E: ParserError<I>, C: FixedSet<I::Token>> Spells<I, E> for TakeTill<C> {
    ghost spells = { λ p. Run I.is_slice (λ token. not (C.holds p.set token))
        (least_count p.counts) (greatest_count p.counts) };

    ghost spelled = { λ p. spelled-Run (λ token. not (C.holds p.set token)) I.is_slice
        (least_count p.counts) (greatest_count p.counts) };
}
