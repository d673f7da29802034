//! What is wrong with a frame.

/// What is wrong with a frame, behind those that passed before it.
#[derive(Clone, Copy)]
pub struct Faults {
    /// An answer that nothing waits for: it came twice, or unasked.
    pub unasked: bool,
    /// Data on a connection that isn't open for the end that sends it (27.010, 5.4.1).
    pub unopened: bool,
    /// Data of an end that has answered the message which stops it (27.010, 5.4.6.3).
    pub unstopped: bool,
    /// More information than N1 allows (27.010, 5.7.2).
    pub too_long: bool,
    /// A control message on a connection of data (27.010, 5.4.6.1): it belongs to 0.
    pub astray: bool,
}
