//! What goes to the line, written to a caller's room.
ghost use Rattle.std.specs.Prelude.{◌≡◌, ◌==◌, ◌≤◌, ◌<◌, ◌+◌, ℕ, length, take, drop, min, None, true};
ghost use Rattle.modem_data.specs.PipeSets.{NoneLeaves, OfEachPast};
ghost use Rattle.modem_data.specs.Hops.{GoesOut, HoldsNothing, Hops, Wrote};

use crate::relay::Relay;
use crate::writing::write_data;
use mux_frame::laws::deframed;

impl Relay {
    /// Writes the next frame of data to the front of the room, where one may leave, and says how many octets it has, which count as
    /// written. Requires that every frame of the driver's has gone, that no octets wait for the line, and that there is room.
    #[tactic(auto, using(crate::proofs::PipeSetCalls::none_leaves))]
    fn leave(&mut self, room: &mut [u8]) -> usize
        requires first { self.old.inner.next ≡ None }
        requires none_wait { (length self.old.to_line == 0) ≡ true }
        requires room { self.old.outer.n1 + 7 ≤ length room.old }
        ensures left { 0 < result → GoesOut self.old self.new (take result room.new) }
        ensures none { result ≡ 0 → OfEachPast self.old.pipes (λ role past. (d : ℕ) → NoneLeaves role past d) }
        ensures still { result ≡ 0 → self.new ≡ self.old }
        ensures same { self.new ≡ record self.old { pipes = self.new.pipes } }
        ensures few { result ≤ length room.old }
        ensures behind { drop result room.new ≡ drop result room.old }
    {
        deframed();
        let Some(place) = self.pipes.next() else {
            return 0;
        };
        let frame = self.pipes.next_frame(place, self.n1);
        let count = write_data(frame, room);
        self.pipes.leave(place, self.n1);
        count
    }

    /// Writes frames of data one behind the other, while one may leave and the room has place for the longest, and says how many
    /// octets they have, which count as written. Requires that every frame of the driver's has gone, that no octets wait for the line,
    /// and that there is room for one.
    #[tactic(auto, using(crate::proofs::GoingOut::none_goes))]
    fn leave_all(&mut self, room: &mut [u8]) -> usize
        requires first { self.old.inner.next ≡ None }
        requires none_wait { (length self.old.to_line == 0) ≡ true }
        requires room { self.old.outer.n1 + 7 ≤ length room.old }
        ensures left { GoesOut self.old self.new (take result room.new) }
        ensures none { result ≡ 0 → OfEachPast self.old.pipes (λ role past. (d : ℕ) → NoneLeaves role past d) }
        ensures still { result ≡ 0 → self.new ≡ self.old }
        ensures few { result ≤ length room.old }
        ensures behind { drop result room.new ≡ drop result room.old }
    {
        let longest = usize::from(self.n1) + 7;
        let mut count = 0;
        while room.len() - count >= longest {
            let (_, free) = room.split_at_mut(count);
            let more = self.leave(free);
            if more == 0 {
                return count;
            }
            count += more;
        }
        count
    }

    /// Writes the first octets that wait for the line to the front of the room, and says how many. They count as written.
    fn write(&mut self, room: &mut [u8]) -> usize
        ensures count { result ≡ min (length self.old.to_line) (length room.old) }
        ensures writes { Hops self.old self.new (Wrote (take result room.new)) }
        ensures rest { self.new ≡ record self.old { to_line = drop result self.old.to_line } }
        ensures behind { drop result room.new ≡ drop result room.old }
    {
        self.to_line.take(room)
    }

    /// Writes the next octets for the line to the front of the room, and says how many, which count as written: those that wait, or
    /// else those of the driver's next frame or of one of flow control, or else frames of data, while the room has place for the
    /// longest. In a room that has place for none, a frame waits and goes in parts.
    #[tactic(auto, using(crate::proofs::GoingOut::goes_out))]
    pub fn put_out(&mut self, room: &mut [u8]) -> usize
        ensures goes { GoesOut self.old self.new (take result room.new) }
        ensures all { result ≡ 0 → 0 < length room.old → HoldsNothing self.new }
        ensures few { result ≤ length room.old }
        ensures behind { drop result room.new ≡ drop result room.old }
    {
        deframed();
        if room.len() < usize::from(self.n1) + 7 {
            let _ = self.ready();
            return self.write(room);
        }
        if self.ready_first() {
            return self.write(room);
        }
        self.leave_all(room)
    }
}
