//! A relay in a box as a pointer that C keeps, or no relay.
ghost use Rattle.std.specs.Prelude.{◌≡◌, ◌≢◌, None, Some, Option};
ghost use Rattle.modem_data.specs.Hops.{Relay as Kept};
ghost use Rattle.modem_data_c.specs.Held.{held_coded, holds};

use box_parts::Parts;
use modem_data::Relay;
use std::alloc::Global;
use std::marker::Model;
use std::ptr::null_mut;

/// The pointer, and what it holds.
#[repr(C)]
#[derive(Drop)]
pub struct Handle {
    at: *mut u8,
    alloc: Global,
    pub(crate) ghost held: { Option Kept } by { held_coded },
}

impl Model for Handle {
    ghost also_owns = { λ h. holds h.alloc h.at h.held };
}

unsafe impl Send for Handle {}

impl Handle {
    /// No relay.
    pub(crate) fn none(alloc: Global) -> Handle
        ensures { result.held ≡ None }
    {
        Handle {
            at: null_mut(),
            alloc,
        }
    }

    /// The relay of these parts.
    pub(crate) fn of_parts(parts: Parts<Relay, Global>) -> Handle
        ensures { result.held ≡ Some parts.value }
    {
        let Parts { ptr, alloc } = parts;
        Handle {
            at: ptr.cast::<u8>(),
            alloc,
        }
    }

    /// Its relay in parts. The condition is that it holds one.
    pub(crate) fn into_parts(self) -> Parts<Relay, Global>
        requires { self.held ≢ None }
        ensures { self.held ≡ Some result.value }
    {
        let Handle { at, alloc } = self;
        Parts {
            ptr: at.cast::<Relay>(),
            alloc,
        }
    }
}
