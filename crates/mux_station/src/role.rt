//! The two ends, and the states of a connection.

/// Which end of the line this is (27.010, 5.2.1.2). The initiator set the multiplexer up; the
/// responder is the other end.
#[derive(Clone, Copy)]
pub enum Role {
    Initiator,
    Responder,
}

/// The state of a connection (27.010, 5.4.1, 5.4.2 and 5.4.6.3.3).
#[derive(Clone, Copy, PartialEq, Eq, Debug)]
pub enum ChannelState {
    Shut,
    /// A SABM was sent, and its answer hasn't come.
    Opening,
    Opened,
    /// A DISC was sent, and its answer hasn't come.
    Closing,
    /// Of connection 0: a CLD command was sent, and its answer hasn't come.
    Stopping,
}
