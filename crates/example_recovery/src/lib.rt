//! A list of numbers in brackets, as `[1, 2, 3]`. What is no number is skipped, and told with its
//! places.
//!
//! `read_list` is the grammar, over each stream of characters that knows its location and may
//! record errors. `damage` has the error of its parsers and the record that is made of it.
#![tactic(auto)]

mod damage;

pub use damage::{Damage, Missing};
use std::alloc::Global;
use winnow_ascii::{dec_uint, multispace0};
use winnow_combinator::{delimited, peek, separated, terminated};
use winnow_count::ParseSlice;
use winnow_match::Compare;
use winnow_parser::{ModalResult, Parser};
use winnow_recover::{Recover, Recoverable};
use winnow_resume::resume_after;
use winnow_stream::{Location, Stream, StreamIsPartial};
use winnow_token::{one_of, take_till};
use winnow_wrap::LocatingSlice;

/// Reads a list of one or more numbers. An item that is no number is skipped up to the next comma
/// or bracket, and is `None`.
pub fn read_list<I>(alloc: Global, input: &mut I) -> ModalResult<Vec<Option<u32>>, Missing>
where
    I: StreamIsPartial + Stream<Token = char> + Location + Compare<char> + Recover<Missing>,
    I::Slice: ParseSlice<u32> + Drop,
    requires { I.valid input.old }
{
    let number = delimited(multispace0(), dec_uint(), multispace0());
    let item = terminated(number, peek(one_of((',', ']'))));
    let skipped = take_till(0.., (',', ']')).void();
    '['.parse_next(alloc, input)?;
    let items = separated(1.., resume_after(item, skipped), ',').parse_next(alloc, input)?;
    ']'.parse_next(alloc, input)?;
    Ok(items)
}

/// Reads a list from a text. Returns the list, or the failure of what is no list, and the damage in
/// the order of the text.
pub fn read_text(
    alloc: Global,
    text: &str,
) -> (ModalResult<Vec<Option<u32>>, Missing>, Vec<Damage>) {
    let text = LocatingSlice::new(text);
    let mut input: Recoverable<LocatingSlice<&str>, Damage> = Recoverable::new(alloc, text);
    let list = read_list(alloc, &mut input);
    (list, input.into_parts().1)
}
