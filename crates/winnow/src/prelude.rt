//! The names that most grammars need, imported together by `use winnow::prelude::*;`.

pub use winnow_base::stream::{Stream, StreamIsPartial};
pub use winnow_grammar::{Reads, Text, ask, part};
pub use winnow_parser::{ModalResult, Parser};
