//! A call of `to_usize` through the bound `ToUsize`.

ghost use Rattle.std.specs.Prelude.{◌≡◌, ◌≤◌};

use winnow_count::ToUsize;

/// Returns the number, called through the bound.
pub fn size<N: ToUsize>(number: &N) -> usize
    requires { N.number number.now ≤ usize.MAX }
    ensures { result ≡ N.number number.now }
{
    number.to_usize()
}
