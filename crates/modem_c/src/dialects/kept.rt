//! What C keeps of a dialect.
ghost use Rattle.std.specs.Prelude.{◌≡◌, ◌≢◌, ◌↔◌, true, None, Some, IfSome};

use crate::dialects::handle::Handle;
use at_text::Dialect;
use box_parts::Parts;
use std::alloc::Global;
use std::mem::replace;

/// A dialect, or none. C makes it all zero, and it is none then.
#[repr(C)]
#[derive(Drop)]
pub struct CimbalotyDialect {
    handle: Handle,
    is_there: bool,
    ghost agrees: { (is_there ≡ true) ↔ (handle.held ≢ None) },
}

impl CimbalotyDialect {
    /// No dialect.
    pub(crate) fn none(alloc: Global) -> CimbalotyDialect
        ensures { result.handle.held ≡ None }
    {
        CimbalotyDialect {
            handle: Handle::none(alloc),
            is_there: false,
        }
    }

    /// This dialect.
    pub(crate) fn of(dialect: Box<Dialect>) -> CimbalotyDialect
        ensures { result.handle.held ≡ Some dialect.value }
    {
        CimbalotyDialect {
            handle: Handle::of_parts(Parts::of(dialect)),
            is_there: true,
        }
    }

    /// Whether there is a dialect.
    pub(crate) fn is_there(&self) -> bool
        ensures { (result ≡ true) ↔ (self.now.handle.held ≢ None) }
    {
        self.is_there
    }

    /// Takes the dialect, if there is one; then there is none.
    pub(crate) fn take(&mut self, alloc: Global) -> Option<Box<Dialect>>
        ensures what { IfSome result (λ b. self.old.handle.held ≡ Some b.value) }
        ensures nothing { result ≡ None → self.old.handle.held ≡ None }
        ensures gone { self.new.handle.held ≡ None }
    {
        let CimbalotyDialect { handle, is_there } = replace(self, CimbalotyDialect::none(alloc));
        if is_there {
            Some(handle.into_parts().into_box())
        } else {
            None
        }
    }
}
