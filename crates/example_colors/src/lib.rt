//! The Rust crate's example `css`, with what it reads: the text that is taken for a colour writes
//! that colour.
#![tactic(auto)]

ghost use Rattle.std.specs.Prelude.{◌≡◌, IfSome};
ghost use Rattle.winnow_grammar.specs.Texts.{SpelledText};
ghost use Rattle.example_colors.specs.Colors.{IsByteOf, WritesByte, WritesColor};

use std::alloc::Global;
use winnow_combinator::preceded;
use winnow_error::{EmptyError, ParserError};
use winnow_grammar::{ReadsAs, Text, ask_as, ask_text, part_as};
use winnow_parser::{ModalResult, Parser};
use winnow_token::{any, one_of};

/// A colour.
#[derive(Clone, Copy, Debug, PartialEq, Eq)]
pub struct Color {
    /// Its red, from 0 to 255
    pub red: u8,
    /// Its green
    pub green: u8,
    /// Its blue
    pub blue: u8,
}

/// A number of two hexadecimal digits.
#[derive(Drop)]
struct TwoDigits;

// Returns the number that two hexadecimal digits write.
fn byte_of(high: char, low: char) -> Option<u8>
    ensures { IfSome result (IsByteOf high low) }
{
    let high = high.to_digit(16)? as u8;
    let low = low.to_digit(16)? as u8;
    Some(16 * high + low)
}

impl<I: Text, E: ParserError<I>> ReadsAs<I, E> for TwoDigits {
    type Output = u8;

    ghost spells = { λ _. WritesByte };

    fn read(&self, alloc: Global, input: &mut I) -> ModalResult<u8, E> {
        let number = (any(), any()).verify_map(
            |digits: (char, char)| -> Option<u8>
                ensures { IfSome result (IsByteOf digits.0 digits.1) }
            { byte_of(digits.0, digits.1) },
        );
        ask_as(alloc, input, &number)
    }
}

/// A colour, as `#2F14DF`.
#[derive(Drop)]
struct HexColor;

impl<I: Text, E: ParserError<I>> ReadsAs<I, E> for HexColor {
    type Output = Color;

    ghost spells = { λ _. WritesColor };

    fn read(&self, alloc: Global, input: &mut I) -> ModalResult<Color, E> {
        let bytes = (part_as(TwoDigits), part_as(TwoDigits), part_as(TwoDigits));
        let color = bytes.map(
            |bytes: (u8, u8, u8)| -> Color
                ensures { result ≡ record { red = bytes.0; green = bytes.1; blue = bytes.2 } }
            {
                Color {
                    red: bytes.0,
                    green: bytes.1,
                    blue: bytes.2,
                }
            },
        );
        ask_as(alloc, input, &preceded(one_of('#'), color))
    }
}

/// Reads a colour, as `#2F14DF`.
pub fn hex_color(alloc: Global, input: &mut &str) -> ModalResult<Color, EmptyError>
    ensures { SpelledText WritesColor input.old result input.new }
{
    ask_text(alloc, input, &part_as(HexColor))
}
