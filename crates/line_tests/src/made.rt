//! What there is memory for.
use std::process::Abort;

pub fn made<A: Drop, E: Drop>(rt: &impl Abort, made: Result<A, E>) -> A {
    match made {
        Ok(value) => value,
        Err(_) => panic!(rt; "no memory"),
    }
}
