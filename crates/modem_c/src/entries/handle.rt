//! An entry in a box as a pointer that C keeps, or no entry.
ghost use Rattle.std.specs.Prelude.{◌≡◌, ◌≢◌, None, Some, Option};
ghost use Rattle.modem_c.specs.Entries.{EntryState};
ghost use Rattle.modem_c.specs.HeldEntries.{held_coded, holds};

use crate::entries::entering::Entering;
use box_parts::Parts;
use std::alloc::Global;
use std::marker::Model;
use std::ptr::null_mut;

/// The pointer, and what it holds.
#[repr(C)]
#[derive(Drop)]
pub struct Handle {
    at: *mut u8,
    alloc: Global,
    pub(crate) ghost held: { Option EntryState } by { held_coded },
}

impl Model for Handle {
    ghost also_owns = { λ h. holds h.alloc h.at h.held };
}

unsafe impl Send for Handle {}

impl Handle {
    /// No entry.
    pub(crate) fn none(alloc: Global) -> Handle
        ensures { result.held ≡ None }
    {
        Handle {
            at: null_mut(),
            alloc,
        }
    }

    /// The entry of these parts.
    pub(crate) fn of_parts(parts: Parts<Entering, Global>) -> Handle
        ensures { result.held ≡ Some parts.value }
    {
        let Parts { ptr, alloc } = parts;
        Handle {
            at: ptr.cast::<u8>(),
            alloc,
        }
    }

    /// Its entry in parts. The condition is that it holds one.
    pub(crate) fn into_parts(self) -> Parts<Entering, Global>
        requires { self.held ≢ None }
        ensures { self.held ≡ Some result.value }
    {
        let Handle { at, alloc } = self;
        Parts {
            ptr: at.cast::<Entering>(),
            alloc,
        }
    }
}
