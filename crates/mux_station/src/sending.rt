//! What a station gives to the line.
ghost use Rattle.std.specs.Prelude.{◌≡◌, ◌≢◌, ◌-◌, ◌≤◌, ◌==◌, List, [], true, false, drop, length, option_map, slice_get, Some, IfSome};
ghost use Rattle.std.specs.Borrow.{sem};
ghost use Rattle.std.specs.Io.BufRead.{Rests};
ghost use Rattle.mux_frame.specs.Frames.{frame_of};
ghost use Rattle.mux_station.specs.Acts.{Act as Happened};
ghost use Rattle.mux_station.specs.Fitting.{StationFits};
ghost use Rattle.mux_station.specs.Giving.{first_ready, next_turn, turn_at, data_frame, data_given, next_given, station_after, GoesNext, Waits};
ghost use Rattle.mux_station.specs.Sending.{queue};
ghost use Rattle.mux_station.specs.Stations.{channel_at};
ghost use Rattle.mux_station.specs.GivenFrames.{outgoing_of, with_freshness, dlci_of, as_turn};

use crate::outgoing::Outgoing;
use crate::role::Role;
use crate::station::Station;
use crate::turn::Turn;
use mux_frame::{Dlci, FrameView, Kind};

impl Station {
    ghost use Rattle.mux_station.specs.contracts.station.Station.{the_row};

    /// The least connection from this one on that has data to send now. The control channel never has.
    fn first_ready(&self, from: u8) -> Option<Dlci>
        requires not_zero { 1 ≤ from }
        requires in_range { from ≤ 62 }
        ensures { option_map dlci_of result ≡ first_ready self.now from (62 - from) }
    {
        if self.is_all_held_up() {
            return None;
        }
        self.channels.first_sender(from)
    }

    /// The connection whose turn it is to send data. Mostly none has data: so all are looked at first, and then those
    /// above the last that sent some.
    fn next_data(&self) -> Option<Dlci>
        ensures { option_map dlci_of result ≡ next_turn self.now }
    {
        let least = self.first_ready(1)?;
        match self.first_ready(self.last + 1) {
            Some(dlci) => Some(dlci),
            None => Some(least),
        }
    }

    /// What goes out next: the first frame of the control queue, or, where that is empty, data of the connection whose
    /// turn it is. `None` where nothing goes out.
    pub fn next_turn(&self) -> Option<Turn>
        ensures turn { option_map as_turn result ≡ turn_at self.now self.now.queue }
        ensures past { (past : List Happened) → StationFits self.now past
            → IfSome result (λ t. GoesNext self.now.role past (as_turn t)) }
    {
        if !self.control.is_empty() {
            return Some(Turn::Control);
        }
        let dlci = self.next_data()?;
        Some(Turn::Data(dlci))
    }

    /// Data of a connection, lent.
    fn give_data(&mut self, dlci: Dlci) -> Outgoing<'_>
        ensures frame { outgoing_of result ≡ with_freshness true (data_frame self.old dlci.number) }
        ensures short { length result.frame.info.now ≤ 1024 }
        ensures* after { sem 𝓛
            (Rests the_row self.entry (λ new. new ≡ data_given self.old (Some dlci.number))) }
    {
        let cr = matches!(self.role, Role::Initiator);
        let most = usize::from(self.n1.octets);
        self.last = dlci.number();
        let info = self.channels.take_front(dlci, most);
        Outgoing {
            frame: FrameView {
                dlci,
                kind: Kind::Uih,
                cr,
                pf: false,
                info,
            },
            fresh: true,
        }
    }

    /// The first frame of the control queue, lent. The condition is that there is one.
    fn give_control(&mut self) -> Outgoing<'_>
        requires { self.old.queue ≢ [] }
        ensures frame { Some (outgoing_of result)
            ≡ option_map (with_freshness false) (slice_get self.old.queue 0) }
        ensures short { length result.frame.info.now ≤ 1024 }
        ensures* after { sem 𝓛
            (Rests the_row self.entry
            (λ new. new ≡ record self.old { queue = drop 1 self.old.queue })) }
    {
        Outgoing {
            frame: self.control.take(),
            fresh: false,
        }
    }

    /// Takes out the frame whose turn it is, and lends it. The condition is that it is the turn that `next_turn` names.
    /// The frame's information is at most 1024 octets. `laws::givings` says what this does to each past that the station
    /// fits.
    pub fn give(&mut self, turn: Turn) -> Outgoing<'_>
        requires { turn_at self.old self.old.queue ≡ Some (as_turn turn) }
        ensures frame { Some (outgoing_of result)
            ≡ option_map (with_freshness (length self.old.queue == 0)) (next_given self.old self.old.queue) }
        ensures short { length result.frame.info.now ≤ 1024 }
        ensures* after { sem 𝓛
            (Rests the_row self.entry (λ new. new ≡ station_after self.old self.old.queue)) }
    {
        match turn {
            Turn::Control => self.give_control(),
            Turn::Data(dlci) => self.give_data(dlci),
        }
    }

    /// Takes out the next frame for the line and lends it: the first of the control queue, or, where that is empty,
    /// data of the connection whose turn it is. Its information is at most 1024 octets. `laws::givings` says what this
    /// does to each past that the station fits.
    pub fn next_frame(&mut self) -> Option<Outgoing<'_>>
        ensures frame { option_map outgoing_of result
            ≡ option_map (with_freshness (length self.old.queue == 0)) (next_given self.old self.old.queue) }
        ensures short { IfSome result (λ o. length o.frame.info.now ≤ 1024) }
        ensures* after { sem 𝓛
            (Rests the_row self.entry (λ new. new ≡ station_after self.old self.old.queue)) }
    {
        let turn = self.next_turn()?;
        Some(self.give(turn))
    }

    /// How many octets wait in a connection's send ring.
    #[tactic(auto, using(crate::proofs::turns::NextData::waits_in))]
    pub fn waiting(&self, dlci: Dlci) -> usize
        ensures value { result ≡ length (channel_at self.now dlci.number).waiting }
        ensures past { (past : List Happened) → StationFits self.now past
            → Waits self.now.role dlci.number past result }
    {
        self.channels.at(dlci).waiting()
    }

    /// How many frames wait in the control queue.
    pub fn queue_len(&self) -> usize
        ensures value { result ≡ length self.now.queue }
        ensures past { (past : List Happened) → StationFits self.now past → result ≡ length (queue past) }
    {
        self.control.len()
    }

    /// The frame at place `i` of the control queue, from 0 at its front; `None` behind its end. The queue stays as it is.
    pub fn queued(&mut self, i: usize) -> Option<FrameView<'_>>
        ensures frame { option_map frame_of result ≡ slice_get self.old.queue i }
        ensures* after { sem 𝓛 (Rests the_row self.entry (λ new. new ≡ self.old)) }
    {
        self.control.get(i)
    }
}
