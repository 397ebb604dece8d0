//! `WriterHandle`: a writer as C holds it.

ghost use Rattle.std.specs.Prelude.{◌≡◌, Option, Some, None};
ghost use Rattle.woldbraid_writers.specs.declared.writer.Writer.{Writer};
ghost use Rattle.woldbraid.specs.WriterHandles.{handle_owns, value_code, HasWriter};

use crate::loose::Loose;
use std::alloc::Global;
use std::marker::Model;
use std::mem::replace;
use woldbraid_writers::Writer;

/// A writer as C holds it: a pointer.
#[repr(C)]
#[derive(Drop)]
pub struct WriterHandle {
    at: *mut u8,
    alloc: Global,
    /// The writer, if there is one
    pub ghost value: { Option Writer } by { value_code },
}

impl Model for WriterHandle {
    ghost also_owns = { λ h. handle_owns h.alloc h.at h.value };
}

impl WriterHandle {
    // Returns a handle without a writer.
    fn empty(alloc: Global) -> WriterHandle
        ensures { result.value ≡ None }
    {
        WriterHandle {
            at: std::ptr::null_mut(),
            alloc,
        }
    }

    // Returns a handle with the writer of the box.
    fn of(loose: Loose<Writer, Global>) -> WriterHandle
        ensures { result.value ≡ Some loose.value }
    {
        let Loose { at, alloc } = loose;
        WriterHandle {
            at: at as *mut u8,
            alloc,
        }
    }

    // Returns the box of the writer.
    fn into_loose(self) -> Loose<Writer, Global>
        requires { HasWriter self.value }
        ensures { self.value ≡ Some result.value }
    {
        let WriterHandle { at, alloc } = self;
        Loose {
            at: at as *mut Writer,
            alloc,
        }
    }
}

impl WriterHandle {
    // Takes the box of the writer out.
    pub(crate) fn take(&mut self, alloc: Global) -> Box<Writer, Global>
        requires { HasWriter self.old.value }
        ensures writer { self.old.value ≡ Some result.value }
        ensures empty { self.new.value ≡ None }
    {
        replace(self, WriterHandle::empty(alloc))
            .into_loose()
            .into_box()
    }

    // Puts a box of a writer in.
    pub(crate) fn put(&mut self, writer: Box<Writer, Global>)
        ensures { self.new.value ≡ Some writer.value }
    {
        *self = WriterHandle::of(Loose::of(writer));
    }
}
