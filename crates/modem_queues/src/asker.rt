//! Whose a request is.

/// The asker of a request: its caller, and its number there.
#[derive(Clone, Copy)]
pub struct Asker {
    pub caller: u8,
    pub number: u64,
}
