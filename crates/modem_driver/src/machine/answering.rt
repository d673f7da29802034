//! What a turn answers.
ghost use Rattle.modem_driver.specs.SessionTurns.{turn_answer, Answers};

use crate::machine::Machine;
use crate::session::Turn;

impl Machine {
    /// What a turn answers by what still waits.
    pub(crate) fn answer(&self, moved: bool) -> Turn
        ensures { Answers self.now moved (turn_answer result) }
    {
        if moved {
            return Turn::Moved;
        }
        if !self.line_end.is_written() {
            return Turn::WriterFull;
        }
        if let Some(caller) = self.waiting.least_caller() {
            return Turn::Waiting(caller);
        }
        match self.waiting.first_kind() {
            Some(kind) => Turn::Blocked(kind),
            None => Turn::Idle,
        }
    }
}
