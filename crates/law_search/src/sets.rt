//! Calls of sets through `ContainsToken` and `ScriptSet`, and a call of each law of unions.

ghost use Rattle.winnow_script_run.specs.Script.{AreReady};

use std::alloc::{AllocError, Global};
use winnow_script_run::{Step, run};
use winnow_sets::{CharSet, ContainsToken, union_law, union_of_four_law, union_of_three_law};
use winnow_stream::{ScriptSet, Stream};

/// Returns whether a set holds the token, called through its bound.
pub fn holds<T, S: ContainsToken<T> + Drop>(set: S, token: T) -> bool
    requires { S.askable set }
    ensures { S.may_answer set token result }
{
    set.contains_token(token)
}

/// Returns whether a set of a script holds the token, called through its bound.
pub fn script_holds<T, S: ScriptSet<T> + Drop>(set: S, token: T) -> bool
    requires { S.askable set }
    ensures { S.may_answer set token result }
{
    set.holds(token)
}

/// Returns the answers of a script that names sets, as their debug text: a proved `impl` does not
/// show that it can be called so.
pub fn told<S: Stream, C: ScriptSet<S::Token>>(
    alloc: Global,
    s: &mut S,
    script: &[Step<C>],
) -> Result<String, AllocError>
where
    S::Token: Drop,
    S::Slice: Drop,
    requires valid { S.valid s.old }
    requires ready { AreReady C.askable script.now }
    ensures valid { S.valid s.new }
    ensures kept { S.keeps s.old s.new }
{
    let answers = run(alloc, s, script)?;
    format!(in alloc; "{answers:?}")
}

/// Calls each law of unions.
pub fn union_laws_can_be_called() {
    union_law::<char, CharSet, (char, u8)>();
    union_of_three_law::<char, char, u8, CharSet>();
    union_of_four_law::<char, char, u8, CharSet, char>();
}
