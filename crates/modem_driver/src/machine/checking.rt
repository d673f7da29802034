//! Backlogs are looked at.
ghost use Rattle.std.specs.Prelude.{◌≡◌, true, false, None};
ghost use Rattle.modem_history.specs.Sessions.{LineView};
ghost use Rattle.modem_desk.specs.Ends.{DriverView};
ghost use Rattle.modem_driver.specs.BacklogChecks.{ChecksOne};
ghost use Rattle.modem_driver.specs.TurnSteps.{turn_state, Checks};

use crate::machine::Machine;
use mux_frame::Dlci;

impl Machine {
    /// Looks at how many lines of a connection wait: from 256 on it is held, and freed below 128. Where
    /// the MSC has no place in the control queue nothing is done. Whether it was held or freed.
    fn check_backlog(&mut self, dlci: Dlci) -> bool
        ensures { ChecksOne dlci.number self.old self.new result }
    {
        if !self.core.checks(dlci) {
            return false;
        }
        let lines = self.waiting.backlog(dlci);
        match self.core.do_backlog(dlci, lines) {
            Some(moved) => moved,
            None => false,
        }
    }

    /// Whether no frame is at hand, and no backlog calls for anything.
    pub(crate) fn is_quiet(&self) -> bool
        ensures none { result ≡ true → self.now.deframer.next ≡ None }
        ensures checks { result ≡ true → (l : LineView) (d : DriverView)
            → Checks (turn_state l d self.now) (turn_state l d self.now) false }
    {
        if self.line_end.has_frame() {
            return false;
        }
        self.core.holds_none() && self.waiting.is_few()
    }

    /// Looks at the backlogs of the connections 1 to 61, in rising order, and says whether any was held
    /// or freed. None is where nothing is held and fewer than 256 lines of each wait.
    #[inline(always)]
    pub(crate) fn check_backlogs(&mut self) -> bool
        ensures checks { (l : LineView) (d : DriverView)
            → Checks (turn_state l d self.old) (turn_state l d self.new) result }
        ensures stays { self.new ≡ record self.old { core = self.new.core } }
    {
        if self.core.holds_none() && self.waiting.is_few() {
            return false;
        }
        self.check_each_backlog()
    }

    /// The same, also where none is.
    #[inline(never)]
    fn check_each_backlog(&mut self) -> bool
        ensures checks { (l : LineView) (d : DriverView)
            → Checks (turn_state l d self.old) (turn_state l d self.new) result }
        ensures stays { self.new ≡ record self.old { core = self.new.core } }
    {
        let mut moved = false;
        for number in 1..Dlci::COUNT as u8 {
            moved |= self.check_backlog(Dlci::new(number).unwrap());
        }
        moved
    }
}
