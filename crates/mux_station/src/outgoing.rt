//! Frames on their way to the line.
use mux_frame::FrameView;

/// A frame for the line. `fresh` is set on data, which counts as sent now; a control frame counted as sent when it was
/// queued.
#[derive(Clone, Copy)]
pub struct Outgoing<'a> {
    pub frame: FrameView<'a>,
    pub fresh: bool,
}
