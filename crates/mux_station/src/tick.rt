//! What a station does at a tick (27.010, 5.4.1, 5.4.2 and 5.7.3).
ghost use Rattle.std.specs.Prelude.{◌≡◌, ◌≤◌, ◌==◌, [], ◌∷◌, length, map, if◌then◌else◌};
ghost use Rattle.mux_station.specs.Acts.{Tick};
ghost use Rattle.mux_station.specs.States.{IsOpening, IsClosing, IsStopping};
ghost use Rattle.mux_station.specs.Written.{written};
ghost use Rattle.mux_station.specs.Tables.{octets_of, has_room, if_room, again};
ghost use Rattle.mux_station.specs.Stages.{stage_state};
ghost use Rattle.mux_station.specs.Stations.{channel_at};
ghost use Rattle.mux_station.specs.Ticking.{UpProbe, gives_up, given_up_in, probe_up, noticed, turned_in, asked_if, ticked_by, ticked_one, ticked_all, ticked_probe};
ghost use Rattle.mux_station.specs.Noticing.{up_of};
ghost use Rattle.mux_station.specs.Fitting.{StationHandles};

use crate::channel::Stage;
use crate::control_frame::ControlFrame;
use crate::repeats::Repeats;
use crate::station::{Station, WaitingProbe};
use arrayvec::ArrayVec;
use mux_frame::{Dlci, Kind};

/// What was given up at a tick. The default value only fills empty places of a list.
#[derive(Clone, Copy, Default)]
pub enum GivenUp {
    Channel(Dlci),
    #[default]
    Probe,
}

/// What a tick gave up: connections in rising order, then the probe.
pub type Noticed = ArrayVec<GivenUp, 63>;

impl Station {
    fn turn(&mut self, dlci: Dlci, stage: Stage)
        ensures { self.new ≡ turned_in self.old dlci.number (stage_state stage) }
    {
        self.channels.turn(dlci, stage);
    }

    /// Queues a frame again, and goes to its connection's next state, where the frame fits.
    fn ask_again(&mut self, dlci: Dlci, kind: Kind, stage: Stage) -> bool
        ensures after { self.new
            ≡ asked_if self.old dlci.number (stage_state stage) (written self.old.role kind dlci.number []) }
        ensures fits { result
            ≡ has_room self.old.n1 (octets_of self.old.queue) (written self.old.role kind dlci.number []) }
    {
        let frame = ControlFrame::bare(self.role, kind, dlci);
        if !self.control.has_room(frame.written_len()) {
            return false;
        }
        self.channels.turn(dlci, stage);
        self.control.push(frame);
        true
    }

    /// A tick of one connection. Says whether the connection is given up.
    fn tick_channel(&mut self, dlci: Dlci) -> bool
        ensures after { self.new ≡ ticked_one self.old dlci.number }
        ensures up { result
            ≡ gives_up (channel_at self.old dlci.number).state
            (if_room self.old.n1 (octets_of self.old.queue)
            (again self.old.role dlci.number (channel_at self.old dlci.number).state)) }
    {
        match self.stage(dlci) {
            Stage::Shut | Stage::Opened => false,
            Stage::Opening(repeats) => self.tick_opening(dlci, repeats),
            Stage::Closing(repeats) => self.tick_closing(dlci, repeats),
            Stage::Stopping(repeats) => self.tick_stopping(dlci, repeats),
        }
    }

    fn tick_opening(&mut self, dlci: Dlci, repeats: Repeats) -> bool
        ensures after { self.new ≡ ticked_by self.old dlci.number (IsOpening repeats.count) }
        ensures up { result
            ≡ gives_up (IsOpening repeats.count)
            (if_room self.old.n1 (octets_of self.old.queue)
            (again self.old.role dlci.number (IsOpening repeats.count))) }
    {
        match repeats.next() {
            Some(more) => {
                self.ask_again(dlci, Kind::Sabm, Stage::Opening(more));
                false
            }
            None => self.ask_again(dlci, Kind::Disc, Stage::Shut),
        }
    }

    fn tick_closing(&mut self, dlci: Dlci, repeats: Repeats) -> bool
        ensures after { self.new ≡ ticked_by self.old dlci.number (IsClosing repeats.count) }
        ensures up { result ≡ (repeats.count == 3) }
    {
        match repeats.next() {
            Some(more) => {
                self.ask_again(dlci, Kind::Disc, Stage::Closing(more));
                false
            }
            None => {
                self.turn(dlci, Stage::Shut);
                true
            }
        }
    }

    fn tick_stopping(&mut self, dlci: Dlci, repeats: Repeats) -> bool
        ensures after { self.new ≡ ticked_by self.old dlci.number (IsStopping repeats.count) }
        ensures up { result ≡ (repeats.count == 3) }
    {
        match repeats.next() {
            Some(more) => {
                self.turn(dlci, Stage::Stopping(more));
                false
            }
            None => {
                self.turn(dlci, Stage::Shut);
                true
            }
        }
    }

    /// A tick of the probe that waits. Says whether the probe is given up.
    fn tick_probe(&mut self) -> bool
        ensures after { self.new ≡ record self.old { probe = ticked_probe self.old.probe } }
        ensures up { probe_up self.old.probe ≡ (if result then UpProbe ∷ [] else []) }
    {
        match self.probe.take() {
            None => false,
            Some(probe) => match probe.ticks.next() {
                None => true,
                Some(ticks) => {
                    self.probe = Some(WaitingProbe {
                        octets: probe.octets,
                        ticks,
                    });
                    false
                }
            },
        }
    }

    /// A tick of all connections, in rising order.
    fn tick_channels(&mut self) -> Noticed
        ensures after { self.new ≡ ticked_all self.old 0 62 }
        ensures up { map up_of result.items ≡ given_up_in self.old 0 62 }
        ensures few { length result.items ≤ 62 }
        ensures all { length self.old.channels ≡ 62 }
    {
        // Looked at so that the proof knows how many there are.
        let _ = &self.channels;
        let mut noticed = ArrayVec::new();
        for number in 0..Dlci::COUNT as u8 {
            let dlci = Dlci { number };
            if self.tick_channel(dlci) {
                noticed.push(GivenUp::Channel(dlci));
            }
        }
        noticed
    }

    /// One T1 has passed. An unanswered SABM or DISC is queued again at the first three ticks. At the
    /// fourth what waits is given up, and the answer lists it. A connection whose frame has no room
    /// stays as it is.
    pub fn tick(&mut self) -> Noticed
        ensures past { StationHandles self.old self.new Tick }
        ensures noticed { map up_of result.items ≡ noticed self.old }
    {
        let mut noticed = self.tick_channels();
        if self.tick_probe() {
            noticed.push(GivenUp::Probe);
        }
        noticed
    }
}
