//! Grammars whose values borrow from the input.

use std::alloc::Global;
use std::collections::HashMap;
use winnow_ascii::{alpha1, digit1};
use winnow_combinator::{alt, repeat, separated, separated_pair, terminated};
use winnow_error::{AddContext, EmptyError, ParserError};
use winnow_error_context::{ContextError, StrContext};
use winnow_grammar::{AsText, Reads, Text, ask, map_in, part};
use winnow_parser::{ModalResult, Parser};
use winnow_token::one_of;

/// A word or a number, as it stands in the input.
#[derive(Clone, Copy, Debug, PartialEq, Eq)]
pub enum Item<S> {
    /// Letters
    Word(S),
    /// Digits
    Digits(S),
}

// An item.
#[derive(Clone, Copy, Drop)]
struct AnItem;

impl<I: Text, E: ParserError<I>> Reads<I, E> for AnItem {
    type Output = Item<I::Piece>;

    fn read(&self, alloc: Global, input: &mut I) -> ModalResult<Item<I::Piece>, E> {
        let word = alpha1().map(|letters: I::Piece| Item::Word(letters));
        let digits = digit1().map(|digits: I::Piece| Item::Digits(digits));
        ask(alloc, input, &alt((word, digits)))
    }
}

// Items with commas between them.
#[derive(Clone, Copy, Drop)]
struct Items;

impl<I: Text, E: ParserError<I>> Reads<I, E> for Items {
    type Output = Vec<Item<I::Piece>>;

    fn read(&self, alloc: Global, input: &mut I) -> ModalResult<Self::Output, E> {
        ask(alloc, input, &separated(1.., part(AnItem), one_of(',')))
    }
}

/// Reads items with commas between them, each a slice of the input.
pub fn read_items<'a>(
    alloc: Global,
    input: &mut &'a str,
) -> ModalResult<Vec<Item<&'a str>>, EmptyError> {
    part(Items).parse_next(alloc, input)
}

// Names with spaces after them, in memory of their own.
#[derive(Clone, Copy, Drop)]
struct Names;

impl<I: Text, E: ParserError<I>> Reads<I, E> for Names {
    type Output = Vec<String>;

    fn read(&self, alloc: Global, input: &mut I) -> ModalResult<Self::Output, E> {
        let owned = |alloc: Global, letters: I::Piece| String::from_str(alloc, letters.as_text());
        let name = map_in(alpha1(), owned);
        ask(alloc, input, &repeat(0.., terminated(name, one_of(' '))))
    }
}

/// Reads names with spaces after them.
pub fn read_names(alloc: Global, input: &mut &str) -> ModalResult<Vec<String>, EmptyError> {
    part(Names).parse_next(alloc, input)
}

// Names with values, the last of each name.
#[derive(Clone, Copy, Drop)]
struct Pairs;

impl<I: Text, E: ParserError<I> + AddContext<I, StrContext>> Reads<I, E> for Pairs {
    type Output = HashMap<I::Piece, I::Piece>;

    fn read(&self, alloc: Global, input: &mut I) -> ModalResult<Self::Output, E> {
        let pair = separated_pair(alpha1(), one_of('='), digit1());
        let pair = terminated(pair, one_of(';')).context(StrContext::Label("pair"));
        ask(alloc, input, &repeat(0.., pair))
    }
}

/// Reads names with values, with the error that most programs use.
pub fn read_pairs<'a>(
    alloc: Global,
    input: &mut &'a str,
) -> ModalResult<HashMap<&'a str, &'a str>, ContextError<StrContext>> {
    part(Pairs).parse_next(alloc, input)
}

// The sum of numbers with signs of plus between them.
#[derive(Clone, Copy, Drop)]
struct Sum;

impl<I: Text, E: ParserError<I>> Reads<I, E> for Sum {
    type Output = u64;

    fn read(&self, alloc: Global, input: &mut I) -> ModalResult<u64, E> {
        let number = digit1().verify_map(|digits: I::Piece| digits.as_text().parse::<u32>().ok());
        let numbers = separated::<_, _, Vec<u32>, _>(1.., number, one_of('+'));
        let sum = numbers.verify_map(|numbers: Vec<u32>| sum_of(&numbers));
        ask(alloc, input, &sum)
    }
}

fn sum_of(numbers: &[u32]) -> Option<u64> {
    let mut sum = 0_u64;
    for number in numbers {
        sum = sum.checked_add(u64::from(*number))?;
    }
    Some(sum)
}

/// Reads a sum.
pub fn read_sum(alloc: Global, input: &mut &str) -> ModalResult<u64, EmptyError> {
    part(Sum).parse_next(alloc, input)
}
