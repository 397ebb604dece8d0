//! Parsers as a user writes them first, at the streams that a program has: values that borrow from
//! the input, in lists and maps; functions as parts and as sets; the error with contexts of text;
//! a state in a cell; a choice by a token; two grammars that contain each other; and one grammar
//! over each stream of text and of bytes.
#![tactic(auto)]

mod borrowed;
mod cells;
mod dispatch;
mod functions;
mod literals;
mod pairs;
mod sets;
mod streams;

pub use borrowed::{Item, read_items, read_names, read_pairs, read_sum};
pub use cells::read_counted;
pub use dispatch::{Marked, read_marked};
pub use functions::{color, version};
pub use literals::{
    Hexadecimal, Word, read_digit, read_hex, read_numbers, read_setting, read_version, read_word,
};
pub use pairs::count_digits;
pub use sets::{read_port, read_until_blank, read_vowel, read_vowels};
pub use streams::{
    read_letters, read_letters_of_bytes, read_letters_of_piece, read_letters_of_text, read_words,
    read_words_of_piece, read_words_with_places, read_words_with_state,
};
