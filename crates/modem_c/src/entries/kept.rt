//! What C keeps of an entry.
ghost use Rattle.std.specs.Prelude.{◌≡◌, ◌≢◌, ◌↔◌, true, None, Some, IfSome};

use crate::entries::entering::Entering;
use crate::entries::handle::Handle;
use box_parts::Parts;
use std::alloc::Global;
use std::mem::replace;

/// An entry, or none. C makes it all zero, and it is none then.
#[repr(C)]
#[derive(Drop)]
pub struct CimbalotyEntry {
    handle: Handle,
    is_there: bool,
    ghost agrees: { (is_there ≡ true) ↔ (handle.held ≢ None) },
}

impl CimbalotyEntry {
    /// No entry.
    pub(crate) fn none(alloc: Global) -> CimbalotyEntry
        ensures { result.handle.held ≡ None }
    {
        CimbalotyEntry {
            handle: Handle::none(alloc),
            is_there: false,
        }
    }

    /// This entry.
    pub(crate) fn of(entry: Box<Entering>) -> CimbalotyEntry
        ensures { result.handle.held ≡ Some entry.value }
    {
        CimbalotyEntry {
            handle: Handle::of_parts(Parts::of(entry)),
            is_there: true,
        }
    }

    /// Whether there is an entry.
    pub(crate) fn is_there(&self) -> bool
        ensures { (result ≡ true) ↔ (self.now.handle.held ≢ None) }
    {
        self.is_there
    }

    /// Takes the entry, if there is one; then there is none.
    pub(crate) fn take(&mut self, alloc: Global) -> Option<Box<Entering>>
        ensures what { IfSome result (λ b. self.old.handle.held ≡ Some b.value) }
        ensures nothing { result ≡ None → self.old.handle.held ≡ None }
        ensures gone { self.new.handle.held ≡ None }
    {
        let CimbalotyEntry { handle, is_there } = replace(self, CimbalotyEntry::none(alloc));
        if is_there {
            Some(handle.into_parts().into_box())
        } else {
            None
        }
    }
}
