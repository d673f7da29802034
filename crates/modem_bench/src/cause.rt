//! Why a bench is given up.
use mux_frame::Dlci;

/// Why a bench was given up before it came to its end.
#[derive(Clone, Copy, Debug)]
pub enum Cause {
    /// Nothing moved in as many polls in a row as may move nothing: no octet on the line, no request, no outcome and no line at the
    /// desk.
    Quiet,
    /// All polls that its session may make were made.
    UsedUp,
    /// This connection wasn't opened: what was asked to open it was told something else.
    NotOpened(Dlci),
    /// The multiplexer wasn't ended: what was asked to end it was told something else.
    NotStopped,
    /// A caller was told outcomes that aren't those of its requests, in their order.
    OtherOutcomes,
    /// The simulated modem ended in no known way.
    NoEnd,
}
