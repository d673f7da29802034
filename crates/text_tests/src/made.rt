//! What tests are begun with, where there is memory.
use at_text::{CommandLine, Window};
use std::alloc::Global;
use std::process::Abort;

/// What there is memory for.
pub fn made<A: Drop, E: Drop>(rt: &impl Abort, made: Result<A, E>) -> A {
    match made {
        Ok(value) => value,
        Err(_) => panic!(rt; "no memory"),
    }
}

/// A window in which this command was sent.
pub fn window_of(rt: &impl Abort, alloc: Global, command: &[u8]) -> Window {
    let line = made(rt, CommandLine::new(alloc, command));
    let mut window = Window::new(alloc);
    window.begin(&line);
    window
}
