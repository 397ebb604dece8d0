//! `OpenArrays`: the replies that open arrays lack.

ghost use Rattle.std.specs.Prelude.{◌≡◌, ◌∷◌, ◌<◌, [], length, vec_len, vec_capacity, OnOk};
ghost use Rattle.format_resp_events.specs.OpenArrays.{lacks_of, is_due, after_reply, after_array};

use std::alloc::{AllocError, Global};

/// How many replies each open array lacks: those of it that are not whole.
#[derive(Drop)]
pub(crate) struct OpenArrays {
    /// These numbers, of which the last is that of the innermost array
    pub(crate) lacks: Vec<usize>,
}

impl OpenArrays {
    /// Returns the state in which no array is open.
    pub(crate) fn new(alloc: Global) -> OpenArrays
        ensures { lacks_of result ≡ [] }
    {
        OpenArrays {
            lacks: Vec::new(alloc),
        }
    }

    /// Returns how many arrays are open.
    pub(crate) fn len(&self) -> usize
        ensures { result ≡ length (lacks_of self.now) }
    {
        self.lacks.len()
    }

    /// Returns whether a reply is due: no array is open, or the innermost one lacks replies.
    pub(crate) fn is_due(&self) -> bool
        ensures { result ≡ is_due (lacks_of self.now) }
    {
        let count = self.lacks.len();
        if count == 0 {
            return true;
        }
        self.lacks[count - 1] > 0
    }

    /// Makes room for one more array.
    pub(crate) fn make_room(&mut self) -> Result<(), AllocError>
        ensures same { lacks_of self.new ≡ lacks_of self.old }
        ensures room { OnOk result (vec_len self.new.lacks < vec_capacity self.new.lacks) }
    {
        self.lacks.reserve(1)
    }

    /// Opens an array that lacks that many replies. Room is made before.
    pub(crate) fn begin(&mut self, count: usize)
        requires { vec_len self.old.lacks < vec_capacity self.old.lacks }
        ensures { lacks_of self.new ≡ count ∷ lacks_of self.old }
    {
        let Ok(()) = self.lacks.push(count) else {
            unreachable!()
        };
    }

    /// Counts a reply that is whole, in the innermost array, if one is open.
    pub(crate) fn end_reply(&mut self)
        ensures { lacks_of self.new ≡ after_reply (lacks_of self.old) }
    {
        let count = self.lacks.len();
        if count > 0 {
            self.lacks[count - 1] = self.lacks[count - 1].saturating_sub(1);
        }
    }

    /// Closes the innermost array, which is a whole reply then.
    pub(crate) fn end_array(&mut self)
        ensures { lacks_of self.new ≡ after_array (lacks_of self.old) }
    {
        let _ = self.lacks.pop();
        self.end_reply();
    }
}
