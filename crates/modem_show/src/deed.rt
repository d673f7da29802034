//! What an end does with a frame.

/// An end got a frame, or sent it.
#[derive(Clone, Copy)]
pub(crate) enum Deed {
    Got,
    Sent,
}
