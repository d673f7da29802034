//! Octets that the caller read from its line.
ghost use Rattle.std.specs.Prelude.{◌≡◌, ◌≤◌, [], true, None, length, take};
ghost use Rattle.modem_desk.specs.Ends.{DriverView};
ghost use Rattle.modem_history.specs.Sessions.{LineView};
ghost use Rattle.modem_driver.specs.Endpoints.{MachineSays, TakesOctets};

use crate::endpoint::{Endpoint, Input};

impl Endpoint {
    /// Takes octets from the front of `octets`, handles the frames that they make, and says how many octets it took. It
    /// tries the frame at hand first. Where it isn't blocked, it took all octets, handled every frame, and held or
    /// freed each connection by how many of its lines wait. Blocked, it keeps what it took. Write by `poll_output`
    /// (OutputFirst) or free memory (NoMemory), then call it with the octets not taken, or with none. After
    /// `poll_unsolicited`, a call with no octets frees the connections that were held for the lines taken.
    #[tactic(auto, using(crate::proofs::endpoints::WholeCalls::takes_octets, crate::proofs::endpoints::WholeCalls::takes_blocked))]
    pub fn handle_input(&mut self, octets: &[u8]) -> Input
        ensures takes { (l : LineView) (d : DriverView)
            → TakesOctets l d self.old self.new (take result.taken octets.now) result.blocked }
        ensures few { result.taken ≤ length octets.now }
        ensures says { MachineSays self.new.machine (result.taken ≡ length octets.now) result.blocked }
    {
        let input = self.machine.take_in(octets);
        if input.blocked.is_some() {
            return input;
        }
        let _moved = self.machine.check_backlogs();
        input
    }

    /// Whether a call of `handle_input` with no octets does nothing: no frame is at hand, and no backlog calls for anything.
    pub fn is_quiet(&self) -> bool
        ensures takes { result ≡ true → (l : LineView) (d : DriverView) → TakesOctets l d self.now self.now [] None }
        ensures none { result ≡ true → self.now.machine.deframer.next ≡ None }
    {
        self.machine.is_quiet()
    }
}
