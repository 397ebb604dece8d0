//! How many replies open arrays want.

ghost use Rattle.std.specs.Prelude.{◌≡◌, ◌≤◌, ◌<◌, ◌-◌, ◌∷◌, [], Some, true, length, get_or};
ghost use Rattle.format_resp.specs.Wanted.{last_first, with_next};

use std::marker::Model;

// How many arrays may be open that a scan keeps apart.
const DEEPEST: usize = 32;

/// How many replies are wanted in each open array, after the one that has begun.
#[derive(Debug, Drop)]
pub(crate) struct Wanted {
    counts: [usize; DEEPEST],
    len: usize,
}

impl Model for Wanted {
    ghost use Rattle.std.specs.Prelude.{ℕ, List, ◌≤◌};
    ghost use Rattle.format_resp.specs.Wanted.{last_first};

    ghost Value = { List ℕ };

    ghost view = { λ r. last_first r.len r.counts };

    ghost invariant = { λ r. r.len ≤ 32 };
}

// Returns how many of the numbers are left once the last ones are dropped that are 0.
fn len_without_zeros(counts: &[usize], len: usize) -> usize
    requires { len ≤ length counts.now }
    ensures within { result ≤ len }
    ensures same { with_next (last_first result counts.now)
        ≡ with_next (last_first len counts.now) }
    ensures some { 0 < result → 0 < get_or counts.now (result - 1) 0 }
{
    let mut now = len;
    while now > 0 {
        if counts[now - 1] > 0 {
            return now;
        }
        now -= 1;
    }
    0
}

impl Wanted {
    /// Returns the state in which no array is open.
    pub(crate) fn new() -> Wanted
        ensures { result ≡ [] }
    {
        Wanted {
            counts: [0; DEEPEST],
            len: 0,
        }
    }

    /// Returns how many arrays are open.
    pub(crate) fn len(&self) -> usize
        ensures { result ≡ length self.now }
    {
        self.len
    }

    /// Closes the arrays that want no more, and counts the next reply, if one is wanted.
    pub(crate) fn begins_next(&mut self) -> bool
        ensures { result ≡ true → with_next self.old ≡ Some self.new }
    {
        let len = len_without_zeros(&self.counts, self.len);
        if len == 0 {
            return false;
        }
        self.len = len;
        self.counts[len - 1] -= 1;
        true
    }

    /// Opens an array that wants that many replies more, if there is room.
    pub(crate) fn append(&mut self, count: usize) -> bool
        ensures { result ≡ true → self.new ≡ count ∷ self.old }
    {
        if self.len >= DEEPEST {
            return false;
        }
        self.counts[self.len] = count;
        self.len += 1;
        true
    }
}
