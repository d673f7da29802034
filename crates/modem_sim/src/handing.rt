//! What an end hands to its station, and what goes out.
ghost use Rattle.std.specs.Prelude.{◌≡◌, ◌<◌, ◌≤◌, ◌==◌, ℕ, [], length, option_map, true, false, IfOk, IfSome, OnOk, OnErr};
ghost use Rattle.std.specs.Borrow.{sem};
ghost use Rattle.std.specs.Io.BufRead.{Rests};
ghost use Rattle.mux_station.specs.GivenFrames.{outgoing_of, with_freshness};
ghost use Rattle.mux_station.specs.Giving.{next_given};
ghost use Rattle.mux_station.specs.States.{is_opened};
ghost use Rattle.mux_station.specs.Stations.{channel_at};
ghost use Rattle.modem_sim.specs.Boxes.{is_released, released};
ghost use Rattle.modem_sim.specs.Cores.{GivesOut, Goes, HasReleased, IsHandedOn, boxed, box_at, gone_on, holds_over};
ghost use Rattle.modem_sim.specs.Acts.{is_handing};
ghost use Rattle.modem_sim.specs.Stills.{OffersAll, OffersOn, Offering, OthersStay};

use crate::sim_core::SimCore;
use mux_frame::Dlci;
use mux_station::Outgoing;
use mux_station::laws::givings;
use std::alloc::AllocError;

/// How many octets a send ring has room for.
const RING: usize = 1024;

impl SimCore {
    ghost use Rattle.modem_sim.specs.contracts.sim_core.SimCore.{the_row};

    /// Moves what a hold held back behind the rest, where the hold is over, and says whether it was.
    fn release(&mut self, dlci: Dlci) -> Result<bool, AllocError>
        ensures ok { OnOk result
            (self.new ≡ boxed self.old dlci.number (released (box_at self.old dlci.number))) }
        ensures moved { IfOk result (λ moved. moved ≡ is_released (box_at self.old dlci.number).hold) }
        ensures same { IfOk result (λ moved. moved ≡ false → self.new ≡ self.old) }
        ensures err { OnErr result (self.new ≡ self.old) }
        ensures all { length self.old.boxes ≡ 62 }
        ensures fewer { IfOk result
            (λ moved. moved ≡ true → holds_over self.new.boxes < holds_over self.old.boxes) }
        ensures others { OthersStay self.old self.new dlci.number }
        ensures steps { self.new.steps ≡ self.old.steps }
        ensures over { OnErr result (is_released (box_at self.old dlci.number).hold ≡ true) }
        ensures n1 { self.new.station.n1 ≡ self.old.station.n1 }
    {
        let channel = &mut self.channels[usize::from(dlci.number())];
        channel.release()
    }

    /// Hands an open connection's octets to the station, as many as there is room for; says whether any were.
    fn hand_on(&mut self, dlci: Dlci) -> bool
        requires { is_opened (channel_at self.old.station dlci.number).state ≡ true }
        ensures offers { result ≡ true → Offering self.old self.new dlci.number }
        ensures same { result ≡ false → self.new ≡ self.old }
        ensures others { OthersStay self.old self.new dlci.number }
        ensures hold { (box_at self.new dlci.number).hold ≡ (box_at self.old dlci.number).hold }
        ensures none { result ≡ false → (dlci.number == 0) ≡ false
            → (channel_at self.old.station dlci.number).waiting ≡ []
            → (box_at self.old dlci.number).unsent ≡ [] }
        ensures count { holds_over self.new.boxes ≡ holds_over self.old.boxes }
        ensures steps { self.new.steps ≡ self.old.steps }
        ensures n1 { self.new.station.n1 ≡ self.old.station.n1 }
    {
        let room = RING.saturating_sub(self.station.waiting(dlci));
        let channel = &mut self.channels[usize::from(dlci.number())];
        let octets = channel.next_octets(room);
        let count = octets.len();
        if count == 0 || self.station.offer(dlci, octets).is_err() {
            return false;
        }
        channel.handed(count);
        true
    }

    #[tactic(auto, using(crate::proofs::ends::OfferedPieces::goes_none, crate::proofs::ends::HandedOctets::handed_on))]
    fn offer_on(&mut self, dlci: Dlci) -> Result<bool, AllocError>
        ensures goes { Goes is_handing self.old self.new }
        ensures hands { IfOk result (λ moved. OffersOn self.old self.new dlci.number moved) }
        ensures others { OthersStay self.old self.new dlci.number }
        ensures same { IfOk result (λ moved. moved ≡ false → self.new ≡ self.old) }
        ensures none { IfOk result (λ moved. moved ≡ false → IsHandedOn self.old dlci.number) }
        ensures steps { self.new.steps ≡ self.old.steps }
        ensures released { OnErr result (HasReleased self.new) }
        ensures n1 { self.new.station.n1 ≡ self.old.station.n1 }
    {
        if !self.is_open(dlci) {
            return Ok(false);
        }
        let released = self.release(dlci)?;
        let handed = self.hand_on(dlci);
        Ok(released | handed)
    }

    /// Hands all connections' octets to the station, as many as there is room for; says whether any were. What a want of
    /// memory leaves is handed later.
    #[tactic(auto, using(crate::proofs::ends::HandedOctets::hands_none, crate::proofs::ends::HandedOctets::hands_more, crate::proofs::ends::HandedOctets::hands_all, crate::proofs::ends::OfferedPieces::goes_then))]
    pub(crate) fn offer_all(&mut self) -> Result<bool, AllocError>
        ensures goes { Goes is_handing self.old self.new }
        ensures hands { IfOk result (λ moved. OffersAll self.old self.new moved) }
        ensures same { IfOk result (λ moved. moved ≡ false → self.new ≡ self.old) }
        ensures none { IfOk result (λ moved. moved ≡ false → (d : ℕ) → d < 62 → IsHandedOn self.old d) }
        ensures steps { OnOk result (self.new.steps ≡ self.old.steps) }
        ensures released { OnErr result (HasReleased self.new) }
        ensures n1 { self.new.station.n1 ≡ self.old.station.n1 }
    {
        let mut moved = false;
        for number in 0..Dlci::COUNT as u8 {
            let offered = self.offer_on(Dlci { number })?;
            moved |= offered;
        }
        Ok(moved)
    }

    /// Takes out the next frame for the line and lends it. It takes no memory.
    pub(crate) fn outgoing(&mut self) -> Option<Outgoing<'_>>
        ensures frame { option_map outgoing_of result
            ≡ option_map (with_freshness (length self.old.station.queue == 0))
            (next_given self.old.station self.old.station.queue) }
        ensures short { IfSome result (λ o. length o.frame.info.now ≤ 1024) }
        ensures past { GivesOut self.old }
        ensures* after { sem 𝓛 (Rests the_row self.entry (λ new. new ≡ gone_on self.old)) }
    {
        givings(&self.station);
        self.station.next_frame()
    }
}
