//! Time that passes, and the end of the line.
ghost use Rattle.std.specs.Prelude.{◌≡◌, ◌≢◌, ◌↔◌, List, true, OnOk, OnErr};
ghost use Rattle.std.specs.List.{list_any};
ghost use Rattle.modem_desk.specs.Ends.{DriverView};
ghost use Rattle.modem_history.specs.Acts.{Act};
ghost use Rattle.modem_history.specs.Sessions.{Beginning, LineView};
ghost use Rattle.modem_driver.specs.GettingSteps.{HasData};
ghost use Rattle.modem_driver.specs.Endpoints.{EndpointFits, Loses, Refuses, Ticks, wants_time};
ghost use Rattle.modem_driver.specs.WaitingTicks.{waiting_ticks};
ghost use Rattle.modem_driver.specs.declared.session.error.SessionFault.TheVariants as fault;

use crate::endpoint::Endpoint;
use crate::session::SessionFault;
use mux_frame::Dlci;

impl Endpoint {
    /// One T1 has passed (27.010, 5.7.1): SABM and DISC that weren't answered are sent again, and at the fourth tick what waits
    /// is given up (5.7.3). It handles the frames at hand first. A refusal changes nothing else. Refusals: 3 Failed where the
    /// line was lost; 1 NoMemory, where memory for data of an open connection is refused; that data stays at hand.
    #[tactic(auto, using(crate::proofs::endpoints::Time::ticks, crate::proofs::endpoints::Requests::refuses))]
    pub fn tick(&mut self) -> Result<(), SessionFault>
        ensures ticks { OnOk result ((l : LineView) (d : DriverView) → Ticks l d self.old self.new) }
        ensures refused { OnErr result (Refuses self.old self.new) }
        ensures failed { (result ≡ Err fault.Failed) ↔ (self.old.machine.core.lost ≡ true) }
        ensures lost { result ≡ Err fault.Failed → self.new.machine.core.lost ≡ true }
        ensures not_line { result ≢ Err fault.Line }
        ensures memory { result ≡ Err fault.NoMemory → HasData self.new.machine }
    {
        let handled = self.machine.handle_frames();
        if self.machine.core.is_lost() {
            return Err(SessionFault::Failed);
        }
        handled?;
        self.machine.tick()
    }

    /// Whether a tick may send something again or give something up: a request other than a command waits for its outcome. Where
    /// none does, the caller needn't count time, unless it goes by `waiting_ticks`.
    pub fn wants_tick(&self) -> bool
        ensures { result ≡ list_any wants_time self.now.machine.core.hand }
    {
        self.machine.wants_tick()
    }

    /// The caller's line has failed or ended: every request in hand is told LineLost, and nothing is sent any more. It handles
    /// the frames at hand first. A refusal changes nothing else. Refusals: 3 Failed where the line was lost before; 1 NoMemory,
    /// where memory for data of an open connection is refused; that data stays at hand.
    #[tactic(auto, using(crate::proofs::endpoints::Time::loses_after_frames, crate::proofs::endpoints::Time::fed_lost, crate::proofs::endpoints::Requests::refuses))]
    pub fn line_lost(&mut self) -> Result<(), SessionFault>
        ensures loses { OnOk result ((l : LineView) (d : DriverView) → Loses l d self.old self.new) }
        ensures gone { OnOk result (self.new.machine.core.lost ≡ true) }
        ensures refused { OnErr result (Refuses self.old self.new) }
        ensures failed { (result ≡ Err fault.Failed) ↔ (self.old.machine.core.lost ≡ true) }
        ensures lost { result ≡ Err fault.Failed → self.new.machine.core.lost ≡ true }
        ensures not_line { result ≢ Err fault.Line }
        ensures memory { result ≡ Err fault.NoMemory → HasData self.new.machine }
    {
        let frames = self.machine.handle_frames();
        if self.machine.core.is_lost() {
            return Err(SessionFault::Failed);
        }
        frames?;
        self.machine.lose_line();
        Ok(())
    }

    /// How many ticks have come since this connection's oldest unanswered command became the oldest, by every history that the
    /// endpoint fits. `None` where no command of the connection is in hand. The count stops at `u64::MAX`. No command is given
    /// up by itself: a caller that finds the count too high can close the connection. `wants_tick` says nothing of commands:
    /// to go by this count, tick in each T1.
    #[tactic(auto, using(crate::proofs::sessions::steps::WaitedTicks::endpoint_shows))]
    pub fn waiting_ticks(&self, dlci: Dlci) -> Option<u64>
        ensures { (b : Beginning) (l : LineView) (d : DriverView) (past : List Act)
            → EndpointFits b l d self.now past → result ≡ waiting_ticks dlci.number past }
    {
        self.machine.waiting_ticks(dlci)
    }
}
