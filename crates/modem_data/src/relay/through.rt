//! Data that goes to the line without a wait, copied once.
ghost use Rattle.std.specs.Prelude.{◌≡◌, ◌⊎◌, ◌≤◌, ◌<◌, ◌+◌, ◌==◌, ℕ, Bool, [], length, take, drop, Err, IfOk, IfSome, OnErr, OnOk, false, true};
ghost use Rattle.mux_station.specs.Opening.{is_open};
ghost use Rattle.modem_data.specs.declared.error.DataError.TheVariants as error;
ghost use Rattle.modem_data.specs.DataLanes.{most_to_go};
ghost use Rattle.modem_data.specs.Switching.{takes_given};
ghost use Rattle.modem_data.specs.Passing.{carries, to_go, wire};
ghost use Rattle.modem_data.specs.PipeSets.{HasPipe, IsFreeAt, IsNotData, OfEachPast};
ghost use Rattle.modem_data.specs.Hops.{HoldsNothing, IsClear, IsWayThrough, SendsOut};

use crate::error::DataError;
use crate::lane::MOST_TO_GO;
use crate::relay::{Relay, Sent};
use crate::writing::write_data;
use mux_frame::Dlci;
use mux_frame::laws::deframed;

impl Relay {
    /// The place of a connection's pipe, where octets given to it may go to a room of this size at once.
    fn way_through(&mut self, dlci: Dlci, size: usize) -> Option<usize>
        ensures way { IfSome result (λ i. IsWayThrough self.old i dlci.number) }
        ensures room { IfSome result (λ i. self.old.outer.n1 + 7 ≤ size) }
        ensures same { self.new ≡ self.old }
    {
        if size < usize::from(self.n1) + 7 {
            return None;
        }
        if !self.wants_driver() {
            return None;
        }
        if self.pipes.due().is_some() {
            return None;
        }
        if self.pipes.next().is_some() {
            return None;
        }
        self.pipes.free_place(dlci)
    }

    /// Writes a frame of these octets to the front of the room, and says how many it has. They count as given, and the frame as
    /// written. Requires that nothing is before data, and some octets, as many as may wait and as a frame may have, and room.
    fn pass_through(&mut self, place: usize, info: &[u8], room: &mut [u8]) -> usize
        requires clear { IsClear self.old }
        requires there { place < length self.old.pipes.each }
        requires some { 1 ≤ length info.now }
        requires few { length info.now ≤ most_to_go }
        requires short { length info.now ≤ self.old.outer.n1 }
        requires room { self.old.outer.n1 + 7 ≤ length room.old }
        ensures sends { (d : ℕ) → IsFreeAt self.old.pipes place d → SendsOut self.old self.new d info.now (take result room.new) }
        ensures same { self.new ≡ record self.old { pipes = record self.old.pipes { turn = place + 1 } } }
        ensures some { 0 < result }
        ensures few { result ≤ length room.old }
        ensures behind { drop result room.new ≡ drop result room.old }
    {
        deframed();
        let frame = self.pipes.data_frame(place, info);
        let count = write_data(frame, room);
        self.pipes.went_through(place);
        count
    }

    /// Writes frames of these octets one behind the other, while there are some and the room has place for the longest, and says
    /// how many octets were taken, and how many the frames have. Requires that nothing is before data.
    fn pass_all_through(&mut self, place: usize, octets: &[u8], room: &mut [u8]) -> Sent
        requires clear { IsClear self.old }
        requires there { place < length self.old.pipes.each }
        ensures sends { (d : ℕ) → IsFreeAt self.old.pipes place d
            → SendsOut self.old self.new d (take result.taken octets.now) (take result.count room.new) }
        ensures taken { result.taken ≤ length octets.now }
        ensures some { 0 < length octets.now → self.old.outer.n1 + 7 ≤ length room.old → 0 < result.taken }
        ensures rest { result.taken < length octets.now → length room.old < result.count + (self.old.outer.n1 + 7) }
        ensures none { result.count ≡ 0 → self.new ≡ self.old }
        ensures few { result.count ≤ length room.old }
        ensures behind { drop result.count room.new ≡ drop result.count room.old }
    {
        let most = usize::from(self.n1).min(MOST_TO_GO);
        let longest = usize::from(self.n1) + 7;
        let mut taken = 0;
        let mut count = 0;
        while room.len() - count >= longest {
            if taken == octets.len() {
                return Sent { taken, count };
            }
            let more = (octets.len() - taken).min(most);
            let (_, free) = room.split_at_mut(count);
            count += self.pass_through(place, &octets[taken..taken + more], free);
            taken += more;
        }
        Sent { taken, count }
    }

    /// Takes octets to be sent as data from the front of these, and writes octets for the line to the front of the room, those that wait
    /// first. Says how many it took, and how many the room has, which count as written. Where it takes fewer than there are, the room
    /// has no place for a longest frame more, or as many wait as may. Where nothing is to go before them, the connection may send and
    /// the room has place for the longest frame, frames of these octets go to the room, copied once, and none of them waits. Else it
    /// does as `give` and then `put_out` do. Refused as `give`.
    #[tactic(auto, using(crate::proofs::Through::each_past))]
    pub fn send(&mut self, dlci: Dlci, octets: &[u8], room: &mut [u8]) -> Result<Sent, DataError>
        ensures sends { IfOk result (λ s. SendsOut self.old self.new dlci.number (take s.taken octets.now) (take s.count room.new)) }
        ensures taken { IfOk result (λ s. OfEachPast self.old.pipes (λ role past. s.taken ≤ length octets.now)) }
        ensures rest { IfOk result (λ s. s.taken < length octets.now → (length room.old < s.count + (self.old.outer.n1 + 7))
            ⊎ OfEachPast self.old.pipes (λ role past. most_to_go ≤ to_go dlci.number past + s.taken)) }
        ensures some { IfOk result (λ s. s.taken ≡ 0 → 0 < length octets.now → OfEachPast self.old.pipes (λ role past. most_to_go ≤ to_go dlci.number past)) }
        ensures all { IfOk result (λ s. s.count ≡ 0 → 0 < length room.old → HoldsNothing self.new) }
        ensures few { IfOk result (λ s. s.count ≤ length room.old) }
        ensures behind { IfOk result (λ s. drop s.count room.new ≡ drop s.count room.old) }
        ensures not_data { result ≡ Err error.NotData → IsNotData self.old.pipes dlci.number }
        ensures not_open { result ≡ Err error.NotOpen → OfEachPast self.old.pipes (λ role past. is_open role dlci.number (wire past) ≡ false) }
        ensures takes_none { result ≡ Err error.Lines → OfEachPast self.old.pipes (λ role past. takes_given (carries role dlci.number past) ≡ false) }
        ensures lets { OnOk result (OfEachPast self.old.pipes (λ role past. (is_open role dlci.number (wire past) ≡ true)
            × (takes_given (carries role dlci.number past) ≡ true))) }
        ensures named { (result ≡ Err error.NotOpen) ⊎ (result ≡ Err error.Lines) → HasPipe self.old.pipes dlci.number }
        ensures open_there { result ≡ Err error.Lines → OfEachPast self.old.pipes (λ role past. is_open role dlci.number (wire past) ≡ true) }
        ensures others { OnErr result ((result ≡ Err error.NotData) ⊎ ((result ≡ Err error.NotOpen) ⊎ (result ≡ Err error.Lines))) }
        ensures err { OnErr result ((self.new ≡ self.old) × (room.new ≡ room.old)) }
    {
        deframed();
        if let Some(place) = self.way_through(dlci, room.len()) {
            return Ok(self.pass_all_through(place, octets, room));
        }
        let taken = self.give(dlci, octets)?;
        let count = self.put_out(room);
        Ok(Sent { taken, count })
    }
}
