//! What a token of the lexer is in a formula, which its kind and its first byte in the source tell.

ghost use Rattle.std.specs.Prelude.{◌≡◌};
ghost use Rattle.example_lexer.specs.declared.token.Token.{Token};
ghost use Rattle.example_two_stages.specs.Signs.{sign_of, is_sign, infix_of};

use crate::tree::Operator;
use example_lexer::{Kind, Token};
use winnow_expression::Infix;
use winnow_sets::{ContainsToken, FixedSet};

/// A token of the lexer, as a stream gives it.
pub trait AsToken: Sized {
    // The token.
    ghost token: { Self → Token };

    /// Returns the kind of the token.
    fn kind(&self) -> Kind
        ensures { result ≡ (token self.now).kind };

    /// Returns where the token starts in the source.
    fn start(&self) -> usize
        ensures { result ≡ (token self.now).span.start };
}

impl AsToken for &Token {
    ghost token = { λ t. t.now };

    fn kind(&self) -> Kind {
        self.kind
    }

    fn start(&self) -> usize {
        self.span.start
    }
}

/// The set of the tokens that are this sign.
#[derive(Clone, Copy)]
pub struct Sign<'s> {
    /// The source, in which the tokens stand
    pub source: &'s str,
    /// The byte of the sign
    pub byte: u8,
}

impl<T: AsToken + Drop> ContainsToken<T> for Sign<'_> {
    ghost may_answer = { λ set t b. b ≡ is_sign set.source.now set.byte (T.token t) };

    fn contains_token(&self, token: T) -> bool {
        match sign_of(self.source, &token) {
            Some(sign) => self.byte == sign,
            None => false,
        }
    }
}

impl<T: AsToken + Drop> FixedSet<T> for Sign<'_> {
    ghost holds = { λ set t. is_sign set.source.now set.byte (T.token t) };

    ghost answers_only = { λ _ _ _ e. e };
}

// Returns the byte of a sign: of a token that is neither a name nor a number.
fn sign_of<T: AsToken>(source: &str, token: &T) -> Option<u8>
    ensures { result ≡ sign_of source.now (T.token token.now) }
{
    match token.kind() {
        Kind::Punctuation => source.as_bytes().get(token.start()).copied(),
        _ => None,
    }
}

/// Returns the operator between two formulas that the token is, with its binding power.
pub fn infix_of<T: AsToken>(source: &str, token: &T) -> Option<Infix<Operator>>
    ensures { result ≡ infix_of source.now (T.token token.now) }
{
    match sign_of(source, token)? {
        b'+' => Some(Infix::Left(1, Operator::Plus)),
        b'-' => Some(Infix::Left(1, Operator::Minus)),
        b'*' => Some(Infix::Left(2, Operator::Times)),
        b'/' => Some(Infix::Left(2, Operator::Over)),
        _ => None,
    }
}
