//! Octets that go out by a call.
ghost use Rattle.std.specs.Prelude.{◌≡◌, ◌≢◌, ◌<◌, ◌≤◌, ◌+◌, ◌++◌, [], length, take, drop};
ghost use Rattle.modem_driver.specs.EndpointSteps.{CopiesOut, GivesOut, MachineIsDrained};

use crate::machine::Machine;

/// Copies octets to a place of the room, as many as there is room for behind it, and says how many.
fn copy_to(octets: &[u8], room: &mut [u8], place: usize) -> usize
    requires { place ≤ length room.old }
    ensures few { result ≤ length octets.now }
    ensures fits { place + result ≤ length room.old }
    ensures some { 0 < length octets.now → place < length room.old → 0 < result }
    ensures copied { take (place + result) room.new ≡ take place room.old ++ take result octets.now }
    ensures behind { drop (place + result) room.new ≡ drop (place + result) room.old }
    ensures same { length room.new ≡ length room.old }
{
    let count = octets.len().min(room.len() - place);
    let (_, back) = room.split_at_mut(place);
    let (front, _) = back.split_at_mut(count);
    front.copy_from_slice(&octets[..count]);
    count
}

impl Machine {
    /// Copies the octets that wait to a place of the room, as many as there is room for; they wait no
    /// more. Says how many.
    pub(crate) fn copy_out(&mut self, room: &mut [u8], place: usize) -> usize
        requires { place ≤ length room.old }
        ensures fits { place + result ≤ length room.old }
        ensures some { self.old.unwritten ≢ [] → place < length room.old → 0 < result }
        ensures copied { take (place + result) room.new
            ≡ take place room.old ++ take result self.old.unwritten }
        ensures behind { drop (place + result) room.new ≡ drop (place + result) room.old }
        ensures out { CopiesOut self.old self.new (take result self.old.unwritten) }
        ensures unfed { self.new.unfed ≡ self.old.unfed }
        ensures same { length room.new ≡ length room.old }
    {
        let count = copy_to(self.line_end.unwritten(), room, place);
        self.line_end.pass(count);
        count
    }

    /// The next octets for the line, as many as there is room for, which are then no longer kept. Says
    /// how many.
    #[tactic(auto, using(crate::proofs::endpoints::GivenOctets::gives_none, crate::proofs::endpoints::GivenOctets::gives_sent, crate::proofs::endpoints::GivenOctets::gives_more, crate::proofs::endpoints::GivenOctets::is_drained, crate::proofs::endpoints::GivenOctets::stays_behind))]
    pub(crate) fn give_out(&mut self, room: &mut [u8]) -> usize
        ensures out { GivesOut self.old self.new (take result room.new) }
        ensures behind { drop result room.new ≡ drop result room.old }
        ensures drained { result < length room.old → MachineIsDrained self.new }
        ensures unfed { self.new.unfed ≡ self.old.unfed }
        ensures few { result ≤ length room.old }
        ensures same { length room.new ≡ length room.old }
    {
        let mut count = 0;
        while count < room.len() {
            self.send_on();
            if self.line_end.is_written() {
                return count;
            }
            count += self.copy_out(room, count);
        }
        count
    }
}
