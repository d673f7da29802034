//! The end that a session comes to.

/// How a session ends.
#[derive(Clone, Copy, Debug)]
pub enum Ended {
    /// A Stop was answered by Stopped or NoAnswer, and then all output was written and no outcome waited.
    Stopped,
}
