//! A call of the law of `Chosen`.

use winnow_error::EmptyError;
use winnow_macros::determined_chosen_law;
use winnow_token::Any;
use winnow_wrap::Partial;

type Pieces = Partial<&'static [u8]>;

/// Calls the law at types that a program has.
pub fn call_law() {
    determined_chosen_law::<Pieces, EmptyError, Any, Any, u8>();
}
