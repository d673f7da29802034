//! Whether a session wants ticks, and how long its commands have waited.
ghost use Rattle.std.specs.Prelude.{◌≡◌, List};
ghost use Rattle.std.specs.List.{list_any};
ghost use Rattle.modem_history.specs.Acts.{Act, in_hand};
ghost use Rattle.modem_history.specs.Sessions.{Beginning};
ghost use Rattle.modem_driver.specs.Endpoints.{wants_time};
ghost use Rattle.modem_driver.specs.SessionStates.{FitsAll};
ghost use Rattle.modem_driver.specs.WaitingTicks.{waiting_ticks};

use crate::session::Session;
use mux_frame::Dlci;
use serial_line::SerialLine;
use std::sync::Wait;

impl<L: SerialLine, R: Wait + Drop> Session<L, R> {
    /// Whether a tick may send something again or give something up: a request other than a command waits for its outcome, by
    /// every history that the session fits. Where none does, the caller needn't count time, unless it goes by `waiting_ticks`.
    #[tactic(auto, using(crate::proofs::EntryTries::hand_wants))]
    pub fn wants_tick(&self) -> bool
        ensures { (b : Beginning) (past : List Act) → FitsAll b L.seen self.now past
            → result ≡ list_any wants_time (in_hand past) }
    {
        self.machine.wants_tick()
    }
    /// How many ticks have come since this connection's oldest unanswered command became the oldest, by every history that the
    /// session fits. `None` where no command of the connection is in hand. The count stops at `u64::MAX`. No command is given up
    /// by itself: a caller that finds the count too high can close the connection. `wants_tick` says nothing of commands: to go
    /// by this count, tick in each T1.
    #[tactic(auto, using(crate::proofs::sessions::steps::WaitedTicks::session_shows))]
    pub fn waiting_ticks(&self, dlci: Dlci) -> Option<u64>
        ensures { (b : Beginning) (past : List Act) → FitsAll b L.seen self.now past
            → result ≡ waiting_ticks dlci.number past }
    {
        self.machine.waiting_ticks(dlci)
    }
}
