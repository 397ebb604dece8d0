//! `Result` and `ModalResult`, the results of parsers whose errors have no mode, or one.

use crate::ErrMode;

/// What a parser answers whose error needs no mode.
pub type Result<O, E> = std::result::Result<O, E>;

/// What a parser answers whose error has a mode.
pub type ModalResult<O, E> = std::result::Result<O, ErrMode<E>>;
