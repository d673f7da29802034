//! What C keeps of a relay.
ghost use Rattle.std.specs.Prelude.{◌≡◌, ◌≢◌, ◌↔◌, true, None, Some, IfSome};

use crate::handle::Handle;
use box_parts::Parts;
use modem_data::Relay;
use std::alloc::Global;
use std::mem::replace;

/// A relay, or none. C makes it all zero, and it is none then.
#[repr(C)]
#[derive(Drop)]
pub struct CimbalotyData {
    handle: Handle,
    is_open: bool,
    ghost agrees: { (is_open ≡ true) ↔ (handle.held ≢ None) },
}

impl CimbalotyData {
    /// No relay.
    pub(crate) fn none(alloc: Global) -> CimbalotyData
        ensures { result.handle.held ≡ None }
    {
        CimbalotyData {
            handle: Handle::none(alloc),
            is_open: false,
        }
    }

    /// Of this relay.
    pub(crate) fn of(relay: Box<Relay>) -> CimbalotyData
        ensures { result.handle.held ≡ Some relay.value }
    {
        CimbalotyData {
            handle: Handle::of_parts(Parts::of(relay)),
            is_open: true,
        }
    }

    /// Whether there is a relay.
    pub(crate) fn is_open(&self) -> bool
        ensures { (result ≡ true) ↔ (self.now.handle.held ≢ None) }
    {
        self.is_open
    }

    /// Takes its relay, if there is one; then there is none.
    pub(crate) fn take(&mut self, alloc: Global) -> Option<Box<Relay>>
        ensures what { IfSome result (λ b. self.old.handle.held ≡ Some b.value) }
        ensures nothing { result ≡ None → self.old.handle.held ≡ None }
        ensures gone { self.new.handle.held ≡ None }
    {
        let CimbalotyData { handle, is_open } = replace(self, CimbalotyData::none(alloc));
        if is_open {
            Some(handle.into_parts().into_box())
        } else {
            None
        }
    }
}
