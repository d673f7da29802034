//! What the user of a station asks of it.
ghost use Rattle.std.specs.Prelude.{◌≡◌, ◌++◌, ◌∷◌, [], Some, None, is_some, if◌then◌else◌, length, ◌&&◌, OnOk, OnErr};
ghost use Rattle.std.specs.Result.{result_err};
ghost use Rattle.mux_station.specs.Acts.{Open, Close, Probe, Stop, Flow, Offer, Called};
ghost use Rattle.mux_station.specs.States.{IsOpening, IsClosing, is_opened};
ghost use Rattle.mux_station.specs.Tables.{octets_of, have_room};
ghost use Rattle.mux_station.specs.Written.{written};
ghost use Rattle.mux_station.specs.Sending.{refused_by_state, frames_asked};
ghost use Rattle.mux_station.specs.ControlFrames.{control_frame};
ghost use Rattle.mux_station.specs.Stages.{stage_state};
ghost use Rattle.mux_station.specs.Stations.{seen_in, refused_in, channel_at, asked_in, probed_in, stopping_in, offer_refused, offered_in};
ghost use Rattle.mux_station.specs.Fitting.{StationHandles};

use crate::channel::Stage;
use crate::control_frame::ControlFrame;
use crate::error::StationError;
use crate::repeats::Repeats;
use crate::role::Role;
use crate::station::{Station, WaitingProbe};
use crate::written::{CLD, FCOFF, FCON, HELD_UP, READY, TEST};
use mux_frame::{Dlci, Kind, ProbeData};

impl Station {
    /// The state of a connection, with its count.
    pub(crate) fn stage(&self, dlci: Dlci) -> Stage
        ensures { stage_state result ≡ (channel_at self.now dlci.number).state }
    {
        self.channels.at(dlci).stage()
    }

    /// Whether the control channel is Opened.
    pub(crate) fn is_running(&self) -> bool
        ensures { result ≡ is_opened (channel_at self.now 0).state }
    {
        self.channels.at(Dlci::CONTROL).stage().is_opened()
    }

    /// NoRoom where the frame doesn't fit into the control queue.
    pub(crate) fn check_room(&self, frame: &ControlFrame) -> Result<(), StationError>
        ensures { result_err result
            ≡ (if have_room self.now.n1 (octets_of self.now.queue) (control_frame frame.now ∷ []) then None
            else Some StationError.NoRoom) }
    {
        if self.control.has_room(frame.written_len()) {
            Ok(())
        } else {
            Err(StationError::NoRoom)
        }
    }

    fn refuses_open(&self, dlci: Dlci) -> Option<StationError>
        ensures { result ≡ refused_by_state (seen_in self.now) (Open dlci.number) }
    {
        let stage = self.stage(dlci);
        if dlci.number() != 0 && !self.is_running() {
            Some(StationError::NotOpen)
        } else if stage.is_opened() {
            Some(StationError::AlreadyOpen)
        } else if !stage.is_shut() {
            Some(StationError::Busy)
        } else {
            None
        }
    }

    fn refuses_close(&self, dlci: Dlci) -> Option<StationError>
        ensures { result ≡ refused_by_state (seen_in self.now) (Close dlci.number) }
    {
        let stage = self.stage(dlci);
        if dlci.number() == 0 {
            Some(StationError::ControlChannel)
        } else if stage.is_shut() {
            Some(StationError::NotOpen)
        } else if !stage.is_opened() {
            Some(StationError::Busy)
        } else {
            None
        }
    }

    fn ask_open(&mut self, dlci: Dlci) -> Result<(), StationError>
        ensures refusal { result_err result ≡ refused_in self.old (Open dlci.number) }
        ensures ok { OnOk result (self.new
            ≡ asked_in self.old dlci.number (IsOpening 0) (written self.old.role Kind.Sabm dlci.number [])) }
        ensures err { OnErr result (self.new ≡ self.old) }
        ensures all { length self.old.channels ≡ 62 }
    {
        if let Some(why) = self.refuses_open(dlci) {
            return Err(why);
        }
        let sabm = ControlFrame::bare(self.role, Kind::Sabm, dlci);
        self.check_room(&sabm)?;
        self.channels.turn(dlci, Stage::Opening(Repeats::none()));
        self.control.push(sabm);
        Ok(())
    }

    fn ask_close(&mut self, dlci: Dlci) -> Result<(), StationError>
        ensures refusal { result_err result ≡ refused_in self.old (Close dlci.number) }
        ensures ok { OnOk result (self.new
            ≡ asked_in self.old dlci.number (IsClosing 0) (written self.old.role Kind.Disc dlci.number [])) }
        ensures err { OnErr result (self.new ≡ self.old) }
        ensures all { length self.old.channels ≡ 62 }
    {
        if let Some(why) = self.refuses_close(dlci) {
            return Err(why);
        }
        let disc = ControlFrame::bare(self.role, Kind::Disc, dlci);
        self.check_room(&disc)?;
        self.channels.turn(dlci, Stage::Closing(Repeats::none()));
        self.control.push(disc);
        Ok(())
    }

    fn ask_probe(&mut self, octets: &[u8]) -> Result<(), StationError>
        ensures refusal { result_err result ≡ refused_in self.old (Probe octets.now) }
        ensures ok { OnOk result (self.new ≡ probed_in self.old octets.now) }
        ensures err { OnErr result (self.new ≡ self.old) }
    {
        let Some(data_octets) = ProbeData::new(octets) else {
            return Err(StationError::TooLong);
        };
        if !self.is_running() {
            return Err(StationError::NotOpen);
        }
        if self.probe.is_some() {
            return Err(StationError::Busy);
        }
        let test = ControlFrame::message(self.role, TEST, octets);
        self.check_room(&test)?;
        self.probe = Some(WaitingProbe {
            octets: data_octets,
            ticks: Repeats::none(),
        });
        self.control.push(test);
        Ok(())
    }

    fn ask_stop(&mut self) -> Result<(), StationError>
        ensures refusal { result_err result ≡ refused_in self.old Stop }
        ensures ok { OnOk result (self.new ≡ stopping_in self.old) }
        ensures err { OnErr result (self.new ≡ self.old) }
    {
        if !self.is_running() {
            return Err(StationError::NotOpen);
        }
        let cld = ControlFrame::message(self.role, CLD, &[]);
        self.check_room(&cld)?;
        self.channels.shut_all();
        self.channels
            .turn(Dlci::CONTROL, Stage::Stopping(Repeats::none()));
        self.probe = None;
        self.control.push(cld);
        Ok(())
    }

    /// The message that tells the other end whether it may send on a connection, or for 0 on all of them.
    pub(crate) fn flow_message(&self, dlci: Dlci, go: bool) -> ControlFrame
        ensures { control_frame result ∷ [] ≡ frames_asked self.now.role (Flow dlci.number go) }
    {
        if dlci.number() == 0 {
            ControlFrame::message(self.role, if go { FCON } else { FCOFF }, &[])
        } else {
            ControlFrame::msc(self.role, dlci, if go { READY } else { HELD_UP })
        }
    }

    fn ask_flow(&mut self, dlci: Dlci, go: bool) -> Result<(), StationError>
        ensures refusal { result_err result ≡ refused_in self.old (Flow dlci.number go) }
        ensures ok { OnOk result (self.new
            ≡ record self.old
            { queue = self.old.queue ++ frames_asked self.old.role (Flow dlci.number go) }) }
        ensures err { OnErr result (self.new ≡ self.old) }
    {
        if !(self.stage(dlci).is_opened() && self.is_running()) {
            return Err(StationError::NotOpen);
        }
        let message = self.flow_message(dlci, go);
        self.check_room(&message)?;
        self.control.push(message);
        Ok(())
    }

    fn take_offer(&mut self, dlci: Dlci, octets: &[u8]) -> Result<(), StationError>
        ensures refusal { result_err result ≡ offer_refused self.old dlci.number octets.now }
        ensures ok { OnOk result (self.new ≡ offered_in self.old dlci.number octets.now) }
        ensures err { OnErr result (self.new ≡ self.old) }
        ensures all { length self.old.channels ≡ 62 }
    {
        let channel = self.channels.at(dlci);
        if dlci.number() == 0 {
            return Err(StationError::ControlChannel);
        }
        if !channel.stage().is_opened() {
            return Err(StationError::NotOpen);
        }
        if !channel.has_room(octets.len()) {
            return Err(StationError::NoRoom);
        }
        self.channels.append(dlci, octets);
        Ok(())
    }

    /// Opens a connection: queues a SABM. Requires that this is the initiator. Refusals, in this order: 1 NotOpen where 0 isn't
    /// Opened (and `dlci` isn't 0); 2 AlreadyOpen; 3 Busy where it is being opened, closed or stopped; 7 NoRoom.
    pub fn open(&mut self, dlci: Dlci) -> Result<(), StationError>
        requires { self.old.role ≡ Role.Initiator }
        ensures refusal { result_err result ≡ refused_in self.old (Open dlci.number) }
        ensures past { OnOk result (StationHandles self.old self.new (Called (Open dlci.number))) }
        ensures err { OnErr result (self.new ≡ self.old) }
    {
        self.ask_open(dlci)
    }

    /// Closes a connection: queues a DISC and empties the send ring. Refusals, in this order: 4 ControlChannel for 0; 1 NotOpen
    /// where it is Shut; 3 Busy where it is being opened or closed; 7 NoRoom.
    pub fn close(&mut self, dlci: Dlci) -> Result<(), StationError>
        ensures refusal { result_err result ≡ refused_in self.old (Close dlci.number) }
        ensures past { OnOk result (StationHandles self.old self.new (Called (Close dlci.number))) }
        ensures err { OnErr result (self.new ≡ self.old) }
    {
        self.ask_close(dlci)
    }

    /// Sends a probe: queues a Test command with these octets. Refusals, in this order: 6 TooLong where they are more than 16; 1
    /// NotOpen where 0 isn't Opened; 3 Busy where a probe waits; 7 NoRoom.
    pub fn probe(&mut self, octets: &[u8]) -> Result<(), StationError>
        ensures refusal { result_err result ≡ refused_in self.old (Probe octets.now) }
        ensures past { OnOk result (StationHandles self.old self.new (Called (Probe octets.now))) }
        ensures err { OnErr result (self.new ≡ self.old) }
    {
        self.ask_probe(octets)
    }

    /// Ends the multiplexer: queues a CLD command. Every other connection is Shut then, and 0 is Stopping. Refusals, in this order:
    /// 1 NotOpen where 0 isn't Opened; 7 NoRoom.
    pub fn stop(&mut self) -> Result<(), StationError>
        ensures refusal { result_err result ≡ refused_in self.old Stop }
        ensures past { OnOk result (StationHandles self.old self.new (Called Stop)) }
        ensures err { OnErr result (self.new ≡ self.old) }
    {
        self.ask_stop()
    }

    /// Tells the other end whether it may send: queues an MSC for a connection, and FCon or FCoff for 0, which stands for all. Refusals,
    /// in this order: 1 NotOpen where the connection or 0 isn't Opened; 7 NoRoom.
    pub fn flow(&mut self, dlci: Dlci, go: bool) -> Result<(), StationError>
        ensures refusal { result_err result ≡ refused_in self.old (Flow dlci.number go) }
        ensures past { OnOk result (StationHandles self.old self.new (Called (Flow dlci.number go))) }
        ensures err { OnErr result (self.new ≡ self.old) }
    {
        self.ask_flow(dlci, go)
    }

    /// Puts octets into a connection's send ring. Refusals, in this order: 4 ControlChannel for 0; 1 NotOpen where it isn't Opened;
    /// 7 NoRoom where the octets don't all fit.
    pub fn offer(&mut self, dlci: Dlci, octets: &[u8]) -> Result<(), StationError>
        ensures refusal { result_err result ≡ offer_refused self.old dlci.number octets.now }
        ensures past { OnOk result
            (StationHandles self.old self.new (Called (Offer dlci.number octets.now))) }
        ensures err { OnErr result (self.new ≡ self.old) }
    {
        self.take_offer(dlci, octets)
    }
}
