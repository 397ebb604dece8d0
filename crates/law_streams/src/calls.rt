//! Calls that are made only through their bounds, as generic code makes them.
ghost use Rattle.std.specs.Prelude.{◌≡◌, ◌-◌, ◌≤◌};

use std::alloc::{AllocError, Global};
use winnow_script_run::{Step, run};
use winnow_stream::{NoSet, Offset, Rest, Stream};

/// Returns the answers of a script, as their debug text.
pub fn tell<S: Stream>(
    alloc: Global,
    s: &mut S,
    script: &[Step<NoSet>],
) -> Result<String, AllocError>
where
    S::Token: Drop,
    S::Slice: Drop,
    requires { S.valid s.old }
    ensures valid { S.valid s.new }
    ensures kept { S.keeps s.old s.new }
{
    let answers = run(alloc, s, script)?;
    format!(in alloc; "{answers:?}")
}

/// Returns the width from a start.
pub fn width_from<T: Rest, S: Offset<T>>(s: &S, start: &T) -> usize
    requires measured { S.can_measure s.now start.now }
    requires no_wider { S.rest_width s.now ≤ T.rest_width start.now }
    ensures { result ≡ T.rest_width start.now - S.rest_width s.now }
{
    s.offset_from(start)
}
