//! What happens at the driver: the steps of a history.
use modem_desk::{Outcome, Request, Urc};
use mux_frame::{Dlci, FrameBuf};

/// One step of a history.
#[derive(Drop)]
pub enum Act {
    /// A request was taken.
    Took(Request),
    /// A frame came.
    Got(FrameBuf),
    /// A frame was sent: data as it goes on the line, a control frame as it is queued.
    Sent(FrameBuf),
    /// A request was told its outcome.
    Told(Outcome),
    /// An unsolicited line that somebody listens to ended.
    Heard(Urc),
    /// One T1 has passed (27.010, 5.7.1).
    Tick,
    /// The line was lost.
    Lost,
    /// The other end was asked to stop sending on this connection, by an MSC (27.010, 5.4.6.3.7).
    Held(Dlci),
    /// The other end was asked to go on sending on it.
    Freed(Dlci),
}
