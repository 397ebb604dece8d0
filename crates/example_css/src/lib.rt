//! The Rust crate's example `css`: the colour that `#2F14DF` stands for.
#![tactic(auto)]

use std::alloc::Global;
use winnow_ascii::Class;
use winnow_error_context::{ContextError, StrContext};
use winnow_parser::{ModalResult, Parser};
use winnow_token::{one_of, take_while};

/// A colour.
#[derive(Clone, Copy, Debug, PartialEq, Eq)]
pub struct Color {
    /// Its red, from 0 to 255
    pub red: u8,
    /// Its green
    pub green: u8,
    /// Its blue
    pub blue: u8,
}

type Error = ContextError<StrContext>;

/// Reads a colour, as `#2F14DF`.
pub fn hex_color(alloc: Global, input: &mut &str) -> ModalResult<Color, Error> {
    one_of('#').parse_next(alloc, input)?;
    let red = hex_primary(alloc, input)?;
    let green = hex_primary(alloc, input)?;
    let blue = hex_primary(alloc, input)?;
    Ok(Color { red, green, blue })
}

fn hex_primary(alloc: Global, input: &mut &str) -> ModalResult<u8, Error> {
    take_while(2, Class::HexDigit)
        .verify_map(|digits: &str| u8::from_str_radix(digits, 16).ok())
        .parse_next(alloc, input)
}
