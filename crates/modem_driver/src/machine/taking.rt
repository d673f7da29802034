//! The desk's next request is taken.
ghost use Rattle.std.specs.Prelude.{◌≡◌, ◌+◌, ◌<◌, length};
ghost use Rattle.modem_history.specs.Sessions.{LineView};
ghost use Rattle.modem_driver.specs.SessionStates.{IsFormedAsk};
ghost use Rattle.modem_driver.specs.TurnSteps.{turn_state, TakesOne};

use crate::machine::Machine;
use modem_desk::{Ask, DriverEnd};
use std::sync::Wait;

/// Shows the prover that a command line and a probe keep their limits.
fn know_form(ask: &Ask)
    ensures { IsFormedAsk ask.now }
{
    match ask {
        Ask::Command(_, line) => {
            let _text = line.text();
        }
        Ask::Probe(data) => {
            let _octets = data.octets();
        }
        _ => {}
    }
}

impl Machine {
    /// Takes the next request of the desk, where those in hand and the outcomes that wait are fewer than
    /// 128; and says whether it took one.
    #[inline(always)]
    pub(crate) fn take_one<R: Wait>(&mut self, driver: &mut DriverEnd, rt: &R) -> bool
        ensures { (l : LineView)
            → TakesOne (turn_state l driver.old self.old) (turn_state l driver.new self.new) result }
    {
        if self.is_full() {
            return false;
        }
        if driver.finds_none() {
            driver.numbers();
            return false;
        }
        self.take_next(driver, rt)
    }

    /// The same. The condition is that those in hand and the outcomes that wait are fewer than 128.
    #[inline(never)]
    fn take_next<R: Wait>(&mut self, driver: &mut DriverEnd, rt: &R) -> bool
        requires { length self.old.core.hand + length self.old.unplaced < 128 }
        ensures { (l : LineView)
            → TakesOne (turn_state l driver.old self.old) (turn_state l driver.new self.new) result }
    {
        let Some(request) = driver.next(rt) else {
            return false;
        };
        know_form(&request.ask);
        self.take_request(request);
        true
    }
}
