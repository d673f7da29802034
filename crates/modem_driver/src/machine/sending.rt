//! Frames that go into the output.
ghost use Rattle.std.specs.Prelude.{◌≡◌, [], Some};
ghost use Rattle.mux_station.specs.GivenFrames.{as_turn};
ghost use Rattle.modem_core.specs.CoreGoing.{turn_in};
ghost use Rattle.modem_driver.specs.SendingSteps.{MachineSends};

use crate::machine::Machine;
use mux_station::Turn;

impl Machine {
    /// Puts the next frame's octets into the output: the first of the control queue, else data. Where octets wait, it
    /// does nothing. It says whether data was sent: a control frame counts as sent when it was queued. It takes no
    /// memory.
    #[inline(always)]
    pub(crate) fn send_on(&mut self) -> bool
        ensures sends { MachineSends self.old self.new result }
        ensures unfed { self.new.unfed ≡ self.old.unfed }
        ensures next { self.new.deframer ≡ self.old.deframer }
    {
        if !self.line_end.is_written() {
            return false;
        }
        let Some(turn) = self.core.next_turn() else {
            return false;
        };
        self.send_next(turn)
    }

    /// Puts the octets of the frame whose turn it is into the output. The condition is that no octets wait there, and
    /// that it is the turn that the core names. It says whether data was sent.
    #[inline(never)]
    fn send_next(&mut self, turn: Turn) -> bool
        requires none { self.old.unwritten ≡ [] }
        requires turn { turn_in self.old.core ≡ Some (as_turn turn) }
        ensures sends { MachineSends self.old self.new result }
        ensures unfed { self.new.unfed ≡ self.old.unfed }
        ensures next { self.new.deframer ≡ self.old.deframer }
    {
        let outgoing = self.core.give(turn);
        self.line_end.put(outgoing.frame);
        outgoing.fresh
    }
}
