//! What C keeps of a driver.
ghost use Rattle.std.specs.Prelude.{◌≡◌, ◌≢◌, ◌↔◌, true, None, Some, IfSome};

use crate::handle::Handle;
use box_parts::Parts;
use modem_driver::Endpoint;
use std::alloc::Global;
use std::mem::replace;

/// A driver, or none. C makes it all zero, and it is none then.
#[repr(C)]
#[derive(Drop)]
pub struct Cimbaloty {
    handle: Handle,
    is_open: bool,
    ghost agrees: { (is_open ≡ true) ↔ (handle.held ≢ None) },
}

impl Cimbaloty {
    /// No driver.
    pub(crate) fn none(alloc: Global) -> Cimbaloty
        ensures { result.handle.held ≡ None }
    {
        Cimbaloty {
            handle: Handle::none(alloc),
            is_open: false,
        }
    }

    /// A driver of this endpoint.
    pub(crate) fn of(endpoint: Box<Endpoint>) -> Cimbaloty
        ensures { result.handle.held ≡ Some endpoint.value }
    {
        Cimbaloty {
            handle: Handle::of_parts(Parts::of(endpoint)),
            is_open: true,
        }
    }

    /// Whether there is a driver.
    pub(crate) fn is_open(&self) -> bool
        ensures { (result ≡ true) ↔ (self.now.handle.held ≢ None) }
    {
        self.is_open
    }

    /// Takes its endpoint, if there is one; then there is none.
    pub(crate) fn take(&mut self, alloc: Global) -> Option<Box<Endpoint>>
        ensures what { IfSome result (λ b. self.old.handle.held ≡ Some b.value) }
        ensures nothing { result ≡ None → self.old.handle.held ≡ None }
        ensures gone { self.new.handle.held ≡ None }
    {
        let Cimbaloty { handle, is_open } = replace(self, Cimbaloty::none(alloc));
        if is_open {
            Some(handle.into_parts().into_box())
        } else {
            None
        }
    }
}
