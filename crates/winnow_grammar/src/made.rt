//! The spellings of the methods that make a value of a value, as `map` and `verify`.

ghost use Rattle.std.specs.Prelude.{Some, Ok, true};
ghost use Rattle.winnow_parser.specs.Meanings.{IsAlways, IsForgotten, TriesTo};
ghost use Rattle.winnow_grammar.specs.Spellings.{MadeOf, Such};
ghost use Rattle.winnow_grammar.specs.Spelled.{spelled-MadeOf, spelled-VerifyMaps};
ghost use Rattle.winnow_grammar.specs.Spelled.{spelled-InContext};
ghost use Rattle.winnow_grammar.specs.Spelled.{spelled-Verifies};

use crate::Spells;
use winnow_error::{AddContext, FromExternalError, ParserError};
use winnow_parser::{Context, Map, Parser, TryMap, Value, ValueTest, Verify, VerifyMap, Void};
use winnow_stream::StreamIsPartial;

impl<I: StreamIsPartial, E, P: Spells<I, E>, O, F: Fn(P::Output) -> O> Spells<I, E>
    for Map<P, F, I, E> {
    ghost spells = { λ p. MadeOf (F.post p.f) (P.spells p.inner) };

    ghost spelled = { λ p. spelled-MadeOf (F.post p.f) (P.spells p.inner) (P.means p.inner)
        (P.spelled p.inner) };

    // The check states a bound on a function of a block that has a method.
    fn this(&self) -> &Self {
        self
    }
}

impl<I: StreamIsPartial, E, P: Spells<I, E>, V: Copy> Spells<I, E> for Value<P, V, I, E>
where
    P::Output: Drop,
{
    ghost spells = { λ p. MadeOf (IsAlways p.value) (P.spells p.inner) };

    ghost spelled = { λ p. spelled-MadeOf (IsAlways p.value) (P.spells p.inner) (P.means p.inner)
        (P.spelled p.inner) };
}

impl<I: StreamIsPartial, E, P: Spells<I, E>> Spells<I, E> for Void<P, I, E>
where
    P::Output: Drop,
{
    ghost spells = { λ p. MadeOf IsForgotten (P.spells p.inner) };

    ghost spelled = { λ p. spelled-MadeOf IsForgotten (P.spells p.inner) (P.means p.inner)
        (P.spelled p.inner) };
}

impl<
    I: StreamIsPartial,
    E: ParserError<I>,
    P: Spells<I, E>,
    O,
    F: Fn(P::Output) -> Option<O>,
> Spells<I, E> for VerifyMap<P, F, I, E> {
    ghost spells = { λ p. MadeOf (λ x y. F.post p.f x (Some y)) (P.spells p.inner) };

    ghost spelled = { λ p. spelled-VerifyMaps (F.post p.f) (P.spells p.inner) (P.means p.inner)
        (P.spelled p.inner) };

    // The check states a bound on a function of a block that has a method.
    fn this(&self) -> &Self {
        self
    }
}

impl<
    I: StreamIsPartial,
    X,
    E: ParserError<I> + FromExternalError<I, X>,
    P: Spells<I, E>,
    O,
    F: Fn(P::Output) -> Result<O, X>,
> Spells<I, E> for TryMap<P, F, I, E> {
    ghost spells = { λ p. MadeOf (λ x y. F.post p.f x (Ok y)) (P.spells p.inner) };

    ghost spelled = { λ p. spelled-VerifyMaps (TriesTo (F.post p.f)) (P.spells p.inner)
        (P.means p.inner)
        (P.spelled p.inner) };

    // The check states a bound on a function of a block that has a method.
    fn this(&self) -> &Self {
        self
    }
}

impl<
    I: StreamIsPartial,
    E: ParserError<I>,
    P: Spells<I, E>,
    F: ValueTest<P::Output, By>,
    By,
> Spells<I, E> for Verify<P, F, By, I, E>
where
    P::Output: Drop,
{
    ghost spells = { λ p. Such (λ x. F.says p.test x true) (P.spells p.inner) };

    ghost spelled = { λ p. spelled-Verifies (F.says p.test) (P.spells p.inner) (P.means p.inner)
        (P.spelled p.inner) };
}

impl<I: StreamIsPartial, C: Copy, E: AddContext<I, C>, P: Spells<I, E>> Spells<I, E>
    for Context<P, C, I, E> {
    ghost spells = { λ p. P.spells p.inner };

    ghost spelled = { λ p. spelled-InContext E.add_context_refusable (P.spells p.inner)
        (P.means p.inner)
        (P.spelled p.inner) };
}
