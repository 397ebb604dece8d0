//! A parser of the tokens of a set, over any stream.
ghost use Rattle.std.specs.Prelude.{◌≡◌, false, not, Some, drop, length};
ghost use Rattle.winnow_stream.specs.Source.{width, first_token, first_offset, held_front};
ghost use Rattle.winnow_stream.specs.Source.{HoldsAll};

use winnow_sets::FixedSet;
use winnow_stream::{Stream, held_law};

/// Returns the tokens up to the first that the set does not hold, and moves past them.
pub fn take_while<S: Stream, C: FixedSet<S::Token>>(input: &mut S, set: &C) -> S::Slice
    requires valid { S.valid input.old }
    requires set { C.askable set.now }
    ensures slice { S.is_slice result (S.remaining input.old)
        (width (held_front (C.holds set.now) (S.remaining input.old))) }
    ensures behind { S.remaining input.new
        ≡ drop (length (held_front (C.holds set.now) (S.remaining input.old)))
        (S.remaining input.old) }
    ensures held { HoldsAll (C.holds set.now)
        (held_front (C.holds set.now) (S.remaining input.old)) }
    ensures next { (token : S.Token) → first_token (S.remaining input.new) ≡ Some token
        → C.holds set.now token ≡ false }
    ensures valid { S.valid input.new }
    ensures kept { S.keeps input.old input.new }
{
    held_law::<S::Token>();
    let end = held_offset(input, set);
    input.next_slice(end)
}

// Returns the width of the tokens up to the first that the set does not hold.
fn held_offset<S: Stream, C: FixedSet<S::Token>>(input: &S, set: &C) -> usize
    requires valid { S.valid input.now }
    requires set { C.askable set.now }
    ensures { result ≡ width (held_front (C.holds set.now) (S.remaining input.now)) }
{
    held_law::<S::Token>();
    first_other(input, set).unwrap_or(input.eof_offset())
}

// Returns the offset of the first token that the set does not hold.
fn first_other<S: Stream, C: FixedSet<S::Token>>(input: &S, set: &C) -> Option<usize>
    requires valid { S.valid input.now }
    requires set { C.askable set.now }
    ensures { result ≡ first_offset (λ token. not (C.holds set.now token)) (S.remaining input.now) }
{
    input.offset_for(|token| !set.holds_token(token))
}
