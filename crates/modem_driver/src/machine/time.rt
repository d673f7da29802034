//! Time that passes, and a line that its caller loses.
ghost use Rattle.std.specs.Prelude.{◌≡◌, true, false};
ghost use Rattle.std.specs.List.{list_any};
ghost use Rattle.modem_driver.specs.Endpoints.{wants_time};
ghost use Rattle.modem_driver.specs.SessionStates.{MachineLoses};

use crate::machine::Machine;
use modem_desk::{Ask, Request};

/// Whether it is given up after some ticks: it is no command.
fn wants_time(request: &Request) -> bool
    ensures { result ≡ wants_time request.now }
{
    !matches!(request.ask, Ask::Command(_, _))
}

impl Machine {
    /// Whether a tick may give something up.
    pub(crate) fn wants_tick(&self) -> bool
        ensures { result ≡ list_any wants_time self.now.core.hand }
    {
        self.core.hand().as_slice().iter().any(wants_time)
    }

    /// A call on the line has failed, and so it is lost: everyone in hand is told so. The condition is that it wasn't lost
    /// before.
    pub(crate) fn lose_line(&mut self)
        requires { self.old.core.lost ≡ false }
        ensures loses { MachineLoses (record self.old { faulty = true }) self.new }
        ensures gone { self.new.core.lost ≡ true }
    {
        self.waiting.lose(&mut self.core);
        self.line_end.fail();
    }
}
