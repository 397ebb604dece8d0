//! A flag that is cleared and set again in any stream.
ghost use Rattle.std.specs.Prelude.{◌≡◌, false};
ghost use Rattle.winnow_stream.specs.Source.{first_token};

use winnow_stream::StreamIsPartial;

/// Returns the first token with the flag cleared, and sets the flag again. Generic code may go on,
/// since the rest stays the same.
pub fn peek_complete<S: StreamIsPartial>(s: &mut S) -> (bool, Option<S::Token>)
    requires { S.valid s.old }
    ensures cleared { result.0 ≡ false }
    ensures token { result.1 ≡ first_token (S.remaining s.old) }
    ensures valid { S.valid s.new }
    ensures restored { S.expects_more s.new ≡ S.expects_more s.old }
{
    let state = s.complete();
    let is_partial = s.is_partial();
    let token = s.peek_token();
    s.restore_partial(state);
    (is_partial, token)
}
