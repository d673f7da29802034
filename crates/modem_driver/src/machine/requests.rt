//! Requests that a call makes.
ghost use Rattle.std.specs.Prelude.{◌≡◌, ◌+◌, nat_le, length};
ghost use Rattle.modem_driver.specs.TurnTakes.{MachineTakes};

use crate::machine::Machine;
use modem_desk::Request;

impl Machine {
    /// Whether the requests in hand and the outcomes that wait are 128.
    pub(crate) fn is_full(&self) -> bool
        ensures { result ≡ nat_le 128 (length self.now.core.hand + length self.now.unplaced) }
    {
        self.waiting.count() >= self.core.hand().left()
    }

    /// Takes a request.
    pub(crate) fn take_request(&mut self, request: Request)
        ensures takes { MachineTakes self.old self.new request }
    {
        self.waiting.take(&mut self.core, request);
    }
}
