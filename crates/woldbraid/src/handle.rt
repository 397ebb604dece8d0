//! `Handle`: a reader as C holds it.

ghost use Rattle.std.specs.Prelude.{◌≡◌, Option, Some, None};
ghost use Rattle.woldbraid_readers.specs.declared.kept.Kept.{Kept};
ghost use Rattle.woldbraid.specs.Handles.{handle_owns, value_code, HasReader};

use crate::loose::Loose;
use std::alloc::Global;
use std::marker::Model;
use std::mem::replace;
use woldbraid_readers::Kept;

/// A reader as C holds it: a pointer.
#[repr(C)]
#[derive(Drop)]
pub struct Handle {
    at: *mut u8,
    alloc: Global,
    /// The reader, if there is one
    pub ghost value: { Option Kept } by { value_code },
}

impl Model for Handle {
    ghost also_owns = { λ h. handle_owns h.alloc h.at h.value };
}

impl Handle {
    // Returns a handle without a reader.
    fn empty(alloc: Global) -> Handle
        ensures { result.value ≡ None }
    {
        Handle {
            at: std::ptr::null_mut(),
            alloc,
        }
    }

    // Returns a handle with the reader of the box.
    fn of(loose: Loose<Kept, Global>) -> Handle
        ensures { result.value ≡ Some loose.value }
    {
        let Loose { at, alloc } = loose;
        Handle {
            at: at as *mut u8,
            alloc,
        }
    }

    // Returns the box of the reader.
    fn into_loose(self) -> Loose<Kept, Global>
        requires { HasReader self.value }
        ensures { self.value ≡ Some result.value }
    {
        let Handle { at, alloc } = self;
        Loose {
            at: at as *mut Kept,
            alloc,
        }
    }
}

impl Handle {
    // Takes the box of the reader out.
    pub(crate) fn take(&mut self, alloc: Global) -> Box<Kept, Global>
        requires { HasReader self.old.value }
        ensures reader { self.old.value ≡ Some result.value }
        ensures empty { self.new.value ≡ None }
    {
        replace(self, Handle::empty(alloc)).into_loose().into_box()
    }

    // Puts a box of a reader in.
    pub(crate) fn put(&mut self, kept: Box<Kept, Global>)
        ensures { self.new.value ≡ Some kept.value }
    {
        *self = Handle::of(Loose::of(kept));
    }
}
