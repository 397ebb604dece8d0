//! `Mark`, the signs and letters of a float, as sets of tokens and as parsers of one of them.

ghost use Rattle.std.specs.Prelude.{◌≡◌};
ghost use Rattle.winnow_parser.specs.Errors.{OwnErrors};
ghost use Rattle.winnow_token.specs.OneOf.{IsOneOf, IsParser-IsOneOf};
ghost use Rattle.winnow_float.specs.Marks.{is_mark};

use std::alloc::Global;
use winnow_error::ParserError;
use winnow_parser::{ModalResult, Parser};
use winnow_sets::{AsChar, ContainsToken, FixedSet};
use winnow_stream::StreamIsPartial;
use winnow_token::one_of;

// A character of which a float has a set place, and the parser of it.
#[derive(Clone, Copy, Drop)]
pub(crate) enum Mark {
    // `+` or `-`
    Sign,
    // `.`
    Point,
    // The small letter, or its capital.
    Letter(u8),
}

impl<T: AsChar> ContainsToken<T> for Mark {
    ghost may_answer = { λ mark token b. b ≡ is_mark mark (T.code token) };

    fn contains_token(&self, token: T) -> bool {
        let c = token.as_char();
        match self {
            Mark::Sign => c == '+' || c == '-',
            Mark::Point => c == '.',
            Mark::Letter(small) => c.to_ascii_lowercase() == char::from(*small),
        }
    }
}

impl<T: AsChar> FixedSet<T> for Mark {
    ghost holds = { λ mark token. is_mark mark (T.code token) };

    ghost answers_only = { λ _ _ _ e. e };
}

impl<I: StreamIsPartial, E: ParserError<I>> Parser<I, E> for Mark
where
    I::Token: AsChar + Copy,
{
    type Output = I::Token;

    ghost means = { λ p. IsOneOf (λ token. is_mark p (I.Token.code token)) };

    ghost errors = { λ _. OwnErrors E.from_input_gives E.assert_gives };

    ghost ready = { λ _. Unit {0} };

    ghost lawful = { λ p. IsParser-IsOneOf (λ token. is_mark p (I.Token.code token)) };

    fn parse_next(&self, alloc: Global, input: &mut I) -> ModalResult<I::Token, E> {
        one_of(*self).parse_next(alloc, input)
    }
}
