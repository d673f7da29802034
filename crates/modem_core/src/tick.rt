//! What a core does at a tick. The frames that it calls for are read from the end of the control queue, since only the
//! station knows which of them fitted.
ghost use Rattle.std.specs.VecDeque.{deque_capacity};
ghost use Rattle.std.specs.Prelude.{false, ◌≡◌, ◌+◌, ◌≤◌, ◌&&◌, ◌++◌, map, option_map, slice_get, IfOk, OnErr};
ghost use Rattle.std.specs.List.{list_any};
ghost use Rattle.mux_frame.specs.Frames.{kept_frame};
ghost use Rattle.mux_station.specs.States.{is_opened};
ghost use Rattle.mux_station.specs.Stations.{channel_at};
ghost use Rattle.modem_history.specs.Acts.{Sent, Tick, act_of};
ghost use Rattle.modem_core.specs.Ticked.{bared, queued_from, shown_asking, asking_from, is_probe_given};
ghost use Rattle.modem_core.specs.Cores.{Handles};
ghost use Rattle.modem_core.specs.Doing.{Does, QueuesAtMost};
ghost use Rattle.modem_core.specs.Holding.{KeepsHeld};
ghost use Rattle.modem_core.specs.declared.error.CoreError.TheVariants as CoreError;

use crate::act_list::{ActList, none_told, push_told};
use crate::driver::Core;
use crate::error::CoreError;
use crate::telling::{Happened, tell_on};
use modem_desk::Outcome;
use modem_history::Act;
use mux_frame::{Dlci, FrameBuf, Info};
use mux_station::{ChannelState, GivenUp, Station};
use std::alloc::Global;
use std::collections::VecDeque;

impl Core {
    /// One T1 has passed: SABM and DISC that weren't answered are sent again, and at the fourth tick what waits is
    /// given up (27.010, 5.4.1, 5.4.2 and 5.7.3). Refusal: 1 NoMemory, which changes nothing.
    pub fn tick(&mut self) -> Result<Vec<Act>, CoreError>
        ensures past { IfOk result (λ acts. Handles self.old self.new Tick (map act_of acts.items)) }
        ensures holds { IfOk result (λ acts. KeepsHeld self.old self.new Tick (map act_of acts.items)) }
        ensures err { OnErr result (self.new ≡ self.old) }
        ensures no_memory { OnErr result (result ≡ Err CoreError.NoMemory) }
        ensures n1 { self.new.station.n1 ≡ self.old.station.n1 }
    {
        let most = count_asking(&self.station);
        let mut acts = ActList::with_room(self.alloc, 1 + most + self.hand.len())?;
        let mut told = none_told(self.alloc)?;
        acts.push(Act::Tick);
        if self.lost {
            return Ok(acts.into_vec());
        }
        let place = self.station.queue_len();
        self.do_tick(&mut told);
        push_queued(self.alloc, &mut self.station, place, most, &mut acts);
        push_told(&mut acts, &mut told);
        Ok(acts.into_vec())
    }

    /// The same, while the line isn't lost. Its frames wait in the control queue, and its outcomes behind those that
    /// wait, so it takes no memory. Says whether the Stop that was in hand has ended by it.
    pub(crate) fn do_tick(&mut self, told: &mut VecDeque<Outcome>) -> bool
        requires live { self.old.lost ≡ false }
        requires room { 128 ≤ deque_capacity told.old }
        ensures does { Does self.old self.new told.old.items told.new.items Tick result }
        ensures queues { QueuesAtMost (asking_from self.old.station 0 62) 0 self.old self.new Tick }
        ensures n1 { self.new.station.n1 ≡ self.old.station.n1 }
        ensures room { 128 ≤ deque_capacity told.new }
    {
        let ran = is_running(&self.station);
        let noticed = self.station.tick();
        let ended = ran && !is_running(&self.station);
        let happened = Happened::Tick(has_probe(noticed.as_slice()));
        tell_on(&mut self.hand, &self.station, false, happened, ended, told)
    }
}

/// Whether connection 0 is Opened.
fn is_running(station: &Station) -> bool
    ensures { result ≡ is_opened (channel_at station.now 0).state }
{
    station.state(Dlci::CONTROL) == ChannelState::Opened
}

/// Whether a connection that stands so waits for an answer to its SABM or DISC.
fn is_asking(state: ChannelState) -> bool
    ensures { result ≡ shown_asking state }
{
    matches!(state, ChannelState::Opening | ChannelState::Closing)
}

/// How many connections wait for an answer to their SABM or DISC.
fn count_asking(station: &Station) -> usize
    ensures value { result ≡ asking_from station.now 0 62 }
    ensures few { result ≤ 62 }
{
    let mut count = 0;
    for number in 0..Dlci::COUNT as u8 {
        if is_asking(station.state(Dlci { number })) {
            count += 1;
        }
    }
    count
}

/// Whether the probe was given up.
fn has_probe(noticed: &[GivenUp]) -> bool
    ensures { result ≡ list_any is_probe_given noticed.now }
{
    noticed.iter().any(|up| matches!(up, GivenUp::Probe))
}

/// The frame at a place of the control queue, without its information.
fn bare_at(alloc: Global, station: &mut Station, place: usize) -> Option<FrameBuf>
    ensures frame { option_map kept_frame result ≡ option_map bared (slice_get station.old.queue place) }
    ensures same { station.new ≡ station.old }
{
    let frame = station.queued(place)?;
    Some(FrameBuf {
        dlci: frame.dlci,
        kind: frame.kind,
        cr: frame.cr,
        pf: frame.pf,
        info: Info::from_vec(Vec::new(alloc)),
    })
}

/// Puts the frames of the control queue from a place on behind the acts, at most so many. They have no
/// information.
fn push_queued(alloc: Global, station: &mut Station, place: usize, most: usize, acts: &mut ActList)
    requires { most ≤ acts.old.left }
    ensures same { station.new ≡ station.old }
    ensures acts { map act_of acts.new.acts
        ≡ map act_of acts.old.acts ++ map Sent (queued_from station.old.queue place most) }
    ensures left { acts.old.left ≤ acts.new.left + most }
{
    let count = most.min(station.queue_len().saturating_sub(place));
    for i in 0..count {
        if let Some(frame) = bare_at(alloc, station, place + i) {
            acts.push(Act::Sent(frame));
        }
    }
}
