//! Octets that the caller takes to its line.
ghost use Rattle.std.specs.Prelude.{◌≡◌, ◌<◌, ◌≤◌, length, take, drop};
ghost use Rattle.modem_desk.specs.Ends.{DriverView};
ghost use Rattle.modem_history.specs.Sessions.{LineView};
ghost use Rattle.modem_driver.specs.Endpoints.{GivesOctets, HoldsNothingBack};

use crate::endpoint::Endpoint;

impl Endpoint {
    /// Writes the next octets for the line to the front of `room`, as many as wait and fit, and says how many. The rest of
    /// `room` stays as it was. The octets count as sent from then on: a caller that can't write them calls `line_lost`. If it
    /// writes fewer than fit, nothing more waits. It takes no memory.
    #[tactic(auto, using(crate::proofs::endpoints::WholeCalls::gives_octets, crate::proofs::endpoints::WholeCalls::holds_nothing))]
    pub fn poll_output(&mut self, room: &mut [u8]) -> usize
        ensures out { (l : LineView) (d : DriverView)
            → GivesOctets l d self.old self.new (take result room.new) }
        ensures behind { drop result room.new ≡ drop result room.old }
        ensures few { result ≤ length room.old }
        ensures all { result < length room.old → HoldsNothingBack self.new }
        ensures same { length room.new ≡ length room.old }
    {
        self.machine.give_out(room)
    }
}
