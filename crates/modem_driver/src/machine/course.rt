//! How far a machine has come on the way to its end: a Stop is answered, and then all is written and placed.
ghost use Rattle.std.specs.Prelude.{◌≡◌};
ghost use Rattle.modem_driver.specs.Endings.{course_after};
ghost use Rattle.modem_driver.specs.Polls.{has_ended, is_stopped};

use crate::machine::Machine;
use crate::session::{Ended, SessionFault};

/// How far a session has come on the way to its end.
#[derive(Clone, Copy)]
pub(crate) enum Course {
    /// No Stop was answered by Stopped or NoAnswer.
    GoesOn,
    /// One was.
    Stopped,
    /// And this is the end that a poll gave.
    Ended(Result<Ended, SessionFault>),
}

impl Course {
    /// Notes whether a call has answered the Stop that was in hand.
    pub(crate) fn go_on(&mut self, answered: bool)
        ensures { self.new ≡ course_after self.old answered }
    {
        match self {
            Course::GoesOn if answered => *self = Course::Stopped,
            _ => {}
        }
    }

    /// Whether a Stop was answered by Stopped or NoAnswer, and no poll gave an end yet.
    pub(crate) fn is_stopped(self) -> bool
        ensures { result ≡ is_stopped self }
    {
        matches!(self, Course::Stopped)
    }
}

impl Machine {
    /// Whether a Stop was answered by Stopped or NoAnswer, all is written, and no outcome waits.
    pub(crate) fn has_ended(&self) -> bool
        ensures { result ≡ has_ended self.now }
    {
        self.course.is_stopped()
            && !self.core.is_lost()
            && self.line_end.is_written()
            && self.core.queue_len() == 0
            && self.waiting.count() == 0
    }
}
