//! Places, checkpoints and widths of any stream that has them.
ghost use Rattle.std.specs.Prelude.{◌≡◌, ◌≤◌};

use crate::calls::width_from;
use winnow_stream::{Location, Offset, Stream};

/// Returns the place, through its bound.
pub fn place<S: Location>(s: &S) -> (usize, usize)
    ensures { result ≡ (S.token_end s.now, S.token_start s.now) }
{
    (s.previous_token_end(), s.current_token_start())
}

/// Returns a checkpoint, where the rest is as wide as that of the stream.
pub fn checkpoint_of<S: Stream>(s: &S) -> S::Checkpoint
    requires { S.valid s.now }
    ensures valid { S.valid_checkpoint result }
    ensures width { S.Checkpoint.rest_width result ≡ S.rest_width s.now }
{
    s.checkpoint()
}

/// Returns the width from a stream, from its checkpoint, and between checkpoints.
pub fn widths_from<S>(rest: &S, start: &S) -> [usize; 3]
where
    S: Stream + Offset<S> + Offset<S::Checkpoint>,
    S::Checkpoint: Offset<S::Checkpoint>,
    requires rest { S.valid rest.now }
    requires start { S.valid start.now }
    requires measured { S.Offset-1.can_measure rest.now start.now }
    requires marked { (at : S.Checkpoint) → S.Offset-2.can_measure rest.now at }
    requires both_marked { (at start : S.Checkpoint) → S.Checkpoint.can_measure at start }
    requires no_wider { S.rest_width rest.now ≤ S.rest_width start.now }
{
    let (here, at) = (checkpoint_of(rest), checkpoint_of(start));
    [
        width_from(rest, start),
        width_from(rest, &at),
        width_from(&here, &at),
    ]
}
