//! What a received frame did.

/// What a received frame did (27.010, 5.4).
#[derive(Clone, Copy, PartialEq, Eq)]
pub enum Noted {
    /// Its connection is open now.
    Opened,
    /// Its connection was being opened, and is Shut now.
    Refused,
    /// Its connection is Shut now.
    Closed,
    /// Of a responder: its connection was open, and was opened afresh.
    Reset,
    /// Its information belongs to the user of its connection.
    Info,
    /// The probe that waited came back.
    ProbeBack,
    /// The other end doesn't know probes.
    ProbeRefused,
    /// Connection 0 was closed, and all others with it.
    AllClosed,
    /// None of these.
    Nothing,
}
