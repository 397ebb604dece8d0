//! Liveness of a record as its user writes it, and the laws of liveness, each called once.

ghost use Rattle.std.specs.Prelude.{ℕ, Bool, None};
ghost use Rattle.winnow_liveness.specs.Live.{IsLive};
ghost use Rattle.winnow_parser.specs.Meanings.{IsTerminated};
ghost use Rattle.winnow_reader.specs.Place.{IsByteSlice};
ghost use Rattle.winnow_token.specs.OneOf.{IsOneOf};
ghost use Rattle.winnow_token.specs.TakeWhile.{TakesWhile};

use crate::lines::NumberLine;
use winnow_error::EmptyError;
use winnow_liveness::{live_law, live_reading_law};
use winnow_token::Any;
use winnow_wrap::Partial;

// The bytes of a set, and one byte of another after them, ask for no more than they need.
fn line_live_law()
    ensures { (holds end : ℕ → Bool) (least : ℕ)
        → IsLive (IsTerminated (TakesWhile IsByteSlice holds least None) (IsOneOf end)) }
{}

// The laws do nothing. The calls show that they can be called.
#[test]
fn laws_of_liveness_are_called(_rt: HostRuntime) {
    line_live_law();
    live_law::<Partial<&'static str>, EmptyError, Any, usize>();
    live_reading_law::<NumberLine>();
}
