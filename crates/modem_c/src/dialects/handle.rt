//! A dialect in a box as a pointer that C keeps, or no dialect.
ghost use Rattle.std.specs.Prelude.{◌≡◌, ◌≢◌, None, Some, Option};
ghost use Rattle.at_text.specs.Rules.{Rules};
ghost use Rattle.modem_c.specs.HeldDialects.{held_coded, holds};

use at_text::Dialect;
use box_parts::Parts;
use std::alloc::Global;
use std::marker::Model;
use std::ptr::null_mut;

/// The pointer, and what it holds.
#[repr(C)]
#[derive(Drop)]
pub struct Handle {
    at: *mut u8,
    alloc: Global,
    pub(crate) ghost held: { Option Rules } by { held_coded },
}

impl Model for Handle {
    ghost also_owns = { λ h. holds h.alloc h.at h.held };
}

unsafe impl Send for Handle {}

impl Handle {
    /// No dialect.
    pub(crate) fn none(alloc: Global) -> Handle
        ensures { result.held ≡ None }
    {
        Handle {
            at: null_mut(),
            alloc,
        }
    }

    /// The dialect of these parts.
    pub(crate) fn of_parts(parts: Parts<Dialect, Global>) -> Handle
        ensures { result.held ≡ Some parts.value }
    {
        let Parts { ptr, alloc } = parts;
        Handle {
            at: ptr.cast::<u8>(),
            alloc,
        }
    }

    /// Its dialect in parts. The condition is that it holds one.
    pub(crate) fn into_parts(self) -> Parts<Dialect, Global>
        requires { self.held ≢ None }
        ensures { self.held ≡ Some result.value }
    {
        let Handle { at, alloc } = self;
        Parts {
            ptr: at.cast::<Dialect>(),
            alloc,
        }
    }
}
