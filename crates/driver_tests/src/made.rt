//! What tests are begun with, where there is memory.
use at_text::CommandLine;
use modem_driver::Ask;
use mux_frame::Dlci;
use std::alloc::Global;
use std::process::Abort;

/// What there is memory for.
pub fn made<A: Drop, E: Drop>(rt: &impl Abort, made: Result<A, E>) -> A {
    match made {
        Ok(value) => value,
        Err(_) => panic!(rt; "no memory"),
    }
}

/// Connection 1.
pub fn one() -> Dlci {
    Dlci::new(1).unwrap()
}

/// A command on it.
pub fn command(rt: &impl Abort, alloc: Global, text: &[u8]) -> Ask {
    Ask::Command(one(), made(rt, CommandLine::new(alloc, text)))
}
