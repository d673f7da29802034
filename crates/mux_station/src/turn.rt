//! What goes out next.
use mux_frame::Dlci;

/// What goes out next: the first frame of the control queue, or data of a connection.
#[derive(Clone, Copy)]
pub enum Turn {
    Control,
    Data(Dlci),
}
