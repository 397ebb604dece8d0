//! Parsers of one's own that promise no more than each parser does: they are safe, they return, the
//! stream only moves on, and more input is needed only where more may follow. Nothing has to be
//! written for that but the code.
//!
//! A part of a grammar is a type with an `impl` of [`Reads`], generic in the stream, and [`part`]
//! makes it a parser that others are made of. A grammar that contains itself is a [`Layer`], of
//! which [`nested`] makes a parser to a depth. [`from_fn`] makes a parser of a function or closure.
//! A body ends in [`ask`], which reads by a parser.
//!
//! ```
//! impl<I: Text, E: ParserError<I>> Reads<I, E> for AnItem {
//!     type Output = Item<I::Piece>;
//!
//!     fn read(&self, alloc: Global, input: &mut I) -> ModalResult<Item<I::Piece>, E> {
//!         let word = alpha1().map(|letters: I::Piece| Item::Word(letters));
//!         let digits = digit1().map(|digits: I::Piece| Item::Digits(digits));
//!         ask(alloc, input, &alt((word, digits)))
//!     }
//! }
//! ..
//!         ask(alloc, input, &separated(1.., part(AnItem), one_of(',')))
//! ..
//! pub fn read_items<'a>(
//!     alloc: Global,
//!     input: &mut &'a str,
//! ) -> ModalResult<Vec<Item<&'a str>>, EmptyError> {
//!     part(Items).parse_next(alloc, input)
//! }
//! ```
//!
//! The outermost function alone names `&str` or `&[u8]`: a part that is generic has no lifetime,
//! and what it gives may hold slices of the input all the same.
#![tactic(auto, using(winnow_parser::proofs::lemmas::OnwardLemmas::onward_steps))]

mod asking;
mod by_ref;
mod choices;
mod choices_to_ten;
mod functions;
mod made;
mod parsers;
mod records;
mod repeated;
mod rows;
mod rows_to_ten;
mod slices;
mod spells;
mod texts;
mod tokens;

pub use asking::{ask, ask_as, ask_bytes, ask_text};
pub use functions::{
    by_rule, from_fn, map_in, nested, nested_as, part, part_as, record, text_record, try_map_in,
};
pub use parsers::by_rule::{ByRule, Rule};
pub use parsers::from_fn::FromFn;
pub use parsers::map_in::{MapIn, TryMapIn};
pub use parsers::nested::{Layer, Nested};
pub use parsers::nested_as::{LayerAs, NestedAs};
pub use parsers::part::{Part, Reads};
pub use parsers::part_as::{PartAs, ReadsAs};
pub use records::{PlainRecord, PlainTextRecord, ReadsRecord, ReadsTextRecord};
pub use spells::Spells;
pub use texts::{AsText, Chars, Octets, Text};
pub use winnow_error::{Plain, PlainError, PlainFromExternal};
