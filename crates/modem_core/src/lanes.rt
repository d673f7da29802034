//! What is kept of all connections.
ghost use Rattle.std.specs.Prelude.{◌≡◌, ◌≤◌, ◌&&◌, ℕ, Option, false, true, is_none, is_some, length, replicate, slice_set, IfOk, IfSome, OnErr};
ghost use Rattle.std.specs.List.{list_any};
ghost use Rattle.at_text.specs.UnderWay.{window_of};
ghost use Rattle.modem_core.specs.Reports.{reading_of, ReadsAll};
ghost use Rattle.modem_core.specs.Settling.{with_whole};
ghost use Rattle.modem_queues.specs.declared.asker.Asker.{Asker};
ghost use Rattle.modem_core.specs.Lanes.{awaits_echo, begun, lane_in, new_lane, turned};

use crate::lane::Lane;
use crate::reports::Reading;
use crate::settling::Whole;
use modem_queues::LineRoom;
use mux_frame::Dlci;
use std::alloc::{AllocError, Global};
use std::marker::Model;

/// The lanes of the connections 0 to 61, and whether the other end of one may be held from sending.
#[derive(Drop)]
pub(crate) struct Lanes {
    each: Vec<Lane>,
    may_hold: bool,
}

impl Model for Lanes {
    ghost use Rattle.std.specs.Prelude.{List};
    ghost use Rattle.modem_core.specs.Lanes.{Lane, AreLanes};

    ghost Value = { List Lane };

    ghost view = { λ l. l.each.items };

    ghost invariant = { λ l. AreLanes l.each.items l.may_hold };
}

/// The lanes of all connections.
fn new_lanes(alloc: Global) -> Result<Vec<Lane>, AllocError>
    ensures { IfOk result (λ ls. ls.items ≡ replicate 62 new_lane) }
{
    let mut lanes = Vec::with_capacity(alloc, Dlci::COUNT)?;
    for _ in 0..Dlci::COUNT {
        lanes.push(Lane::new(alloc))?;
    }
    Ok(lanes)
}

/// Whether the other end of one of them is held.
fn any_held(lanes: &[Lane]) -> bool
    ensures { result ≡ list_any (λ l. l.held) lanes.now }
{
    lanes.iter().any(|lane| lane.held)
}

impl Lanes {
    /// Nothing has come on any, and none is held.
    pub(crate) fn new(alloc: Global) -> Result<Lanes, AllocError>
        ensures { IfOk result (λ ls. ls ≡ replicate 62 new_lane) }
    {
        let each = new_lanes(alloc)?;
        Ok(Lanes {
            each,
            may_hold: false,
        })
    }

    /// Whether it is known that none is held.
    pub(crate) fn holds_none(&self) -> bool
        ensures { result ≡ true → (d : ℕ) → (lane_in self.now d).held ≡ false }
    {
        !self.may_hold
    }

    /// Whether one is held.
    pub(crate) fn is_held(&self, dlci: Dlci) -> bool
        ensures { result ≡ (lane_in self.now dlci.number).held }
    {
        self.each[usize::from(dlci.number())].held
    }

    /// One is held from now on, or no longer.
    pub(crate) fn turn(&mut self, dlci: Dlci, held: bool)
        ensures { self.new ≡ turned self.old dlci.number held }
    {
        let lane = &mut self.each[usize::from(dlci.number())];
        lane.held = held;
        self.may_hold = held || any_held(self.each.as_slice());
    }

    /// Everything of one starts afresh.
    pub(crate) fn start(&mut self, dlci: Dlci)
        ensures { self.new ≡ slice_set self.old dlci.number new_lane }
    {
        let lane = &mut self.each[usize::from(dlci.number())];
        lane.start();
    }

    /// The first command in hand on one is under way, where none was.
    pub(crate) fn begin(&mut self, dlci: Dlci)
        ensures { self.new ≡ begun self.old dlci.number }
    {
        let lane = &mut self.each[usize::from(dlci.number())];
        if lane.under_way.idle() {
            lane.under_way.begin();
        }
    }

    /// Whether the next line on one may be the echo of the command under way.
    pub(crate) fn awaits_echo(&self, dlci: Dlci) -> bool
        ensures { result ≡ awaits_echo (lane_in self.now dlci.number).under_way }
    {
        self.each[usize::from(dlci.number())].awaits_echo()
    }

    /// Reads octets of one, as `Lane::read`. Want of memory changes nothing.
    #[tactic(auto, using(crate::proofs::cores::HeldLanes::held_as_before))]
    pub(crate) fn read<P: LineRoom>(
        &mut self,
        reading: &Reading<'_>,
        octets: &[u8],
        lines: &mut P,
    ) -> Result<Option<Whole>, AllocError>
        ensures lanes { self.new ≡ slice_set self.old reading.now.dlci.number (lane_in self.new reading.now.dlci.number) }
        ensures read { IfOk result (λ whole. (owner : Option Asker) → ReadsAll (reading_of owner reading.now) octets.now (record {
          kept = (lane_in self.old reading.now.dlci.number).kept;
          window = window_of reading.now.command.now (lane_in self.old reading.now.dlci.number).under_way;
          acts = P.heard lines.old;
        }) (record {
          kept = (lane_in self.new reading.now.dlci.number).kept;
          window = window_of reading.now.command.now (lane_in self.new reading.now.dlci.number).under_way;
          acts = with_whole owner whole (P.heard lines.new);
        })) }
        ensures held { (lane_in self.new reading.now.dlci.number).held ≡ (lane_in self.old reading.now.dlci.number).held }
        ensures done { IfOk result (λ whole. is_some whole
            ≡ (is_some (lane_in self.old reading.now.dlci.number).under_way && is_none (lane_in self.new reading.now.dlci.number).under_way)) }
        ensures within { IfOk result (λ whole. IfSome whole (λ w. w.place ≤ length (P.heard lines.new))) }
        ensures err { OnErr result (self.new ≡ self.old) }
        ensures unheard { OnErr result (P.heard lines.new ≡ P.heard lines.old) }
    {
        let lane = &mut self.each[usize::from(reading.dlci.number())];
        lane.read(reading, octets, lines)
    }
}
