//! Handles received frames (27.010, 5.4).
ghost use Rattle.std.specs.Prelude.{◌≡◌, ◌==◌, ◌||◌, ◌≤◌, length, true, if◌then◌else◌, Some, None, IfOk, OnOk, OnErr, List};
ghost use Rattle.std.specs.Result.{result_err};
ghost use Rattle.mux_frame.specs.Frames.{frame_of};
ghost use Rattle.mux_frame.specs.Spelling.{most_info};
ghost use Rattle.mux_station.specs.Acts.{Act as Happened, Got};
ghost use Rattle.mux_station.specs.States.{IsStopping, is_opened};
ghost use Rattle.mux_station.specs.Stages.{stage_state};
ghost use Rattle.mux_station.specs.Tables.{octets_of, have_room, by_table, by_message, response};
ghost use Rattle.mux_station.specs.Messages.{message_of, msc_dlci, msc_stops};
ghost use Rattle.mux_station.specs.Sending.{names_test, station_view};
ghost use Rattle.mux_station.specs.Stations.{setting_of, seen_in, channel_at, frame_refused_in, without_room_in};
ghost use Rattle.mux_station.specs.Fitting.{StationFits, StationHandles};
ghost use Rattle.mux_station.specs.Noting.{noted_by_table, noted_by_message, noted_of_message, noted_of_probe, noted_of};
ghost use Rattle.mux_station.specs.MessagesRead.{message_read};
ghost use Rattle.mux_station.specs.AnswersSent.{frames_in, answers_sent};
ghost use Rattle.mux_station.specs.Getting.{FrameTaken, message_calls, message_taken, FollowsTable, TurnsBy, row_frames, all_turned_in, turned_on, turned_by, stops_set, probe_answered, told_in, ended_in, queued_in};

use crate::answers::Answers;
use crate::channel::Stage;
use crate::control_frame::ControlFrame;
use crate::error::StationError;
use crate::message::Message;
use crate::noted::Noted;
use crate::reading::{msc_dlci, msc_stops};
use crate::role::Role;
use crate::row::{Row, Turn, initiator_row, responder_row};
use crate::station::Station;
use crate::written::{CLD, CLD_RESPONSE, FCOFF, FCON, MSC, NSC_RESPONSE, TEST, TEST_RESPONSE};
use mux_frame::{Dlci, FrameView, Kind};

impl Station {
    /// What the table of this end says of a frame.
    pub(crate) fn row(&self, dlci: Dlci, kind: Kind) -> Row
        ensures turns { TurnsBy self.now.role ((dlci.number == 0) || is_opened (channel_at self.now 0).state)
            (channel_at self.now dlci.number).state kind result.turn }
        ensures frames { by_table self.now.role dlci.number (channel_at self.now 0).state
            (channel_at self.now dlci.number).state kind
            ≡ row_frames self.now.role dlci.number result.answer result.turn }
        ensures noted { result.noted
            ≡ noted_by_table self.now.role dlci.number (channel_at self.now 0).state
            (channel_at self.now dlci.number).state kind }
    {
        let stage = self.stage(dlci);
        match self.role {
            Role::Initiator => initiator_row(dlci, stage, kind),
            Role::Responder => {
                let at_zero = dlci.number() == 0 || self.is_running();
                responder_row(dlci, at_zero, stage, kind)
            }
        }
    }

    fn push(&mut self, frame: Option<ControlFrame>)
        requires { have_room self.old.n1 (octets_of self.old.queue) (frames_in frame) ≡ true }
        ensures { self.new ≡ queued_in self.old (frames_in frame) }
    {
        if let Some(frame) = frame {
            self.control.push(frame);
        }
    }

    /// Whether the frames all fit into the control queue.
    #[tactic(auto, using(crate::proofs::queues::QueueRoom::room_test))]
    pub(crate) fn fits(&self, answers: &Answers) -> bool
        ensures { result ≡ have_room self.now.n1 (octets_of self.now.queue) (answers_sent answers.now) }
    {
        self.control.has_room(answers.written_len())
    }

    /// Puts the frames into the control queue: NoRoom where they don't all fit.
    #[tactic(auto, using(crate::proofs::queues::QueueRoom::room_before, crate::proofs::queues::QueueRoom::room_behind))]
    fn answer(&mut self, answers: Answers) -> Result<(), StationError>
        ensures refusal { result_err result ≡ without_room_in self.old (answers_sent answers) }
        ensures ok { OnOk result (self.new ≡ queued_in self.old (answers_sent answers)) }
        ensures err { OnErr result (self.new ≡ self.old) }
    {
        if !self.fits(&answers) {
            return Err(StationError::NoRoom);
        }
        let Answers { first, second } = answers;
        self.push(first);
        self.push(second);
        Ok(())
    }

    /// Goes to another state of the control channel, and shuts all other connections.
    fn turn_all(&mut self, stage: Stage)
        ensures { self.new ≡ all_turned_in self.old (stage_state stage) }
    {
        self.channels.shut_all();
        self.channels.turn(Dlci::CONTROL, stage);
        self.all_stopped = false;
        self.probe = None;
    }

    fn turn_on(&mut self, dlci: Dlci, stage: Stage)
        ensures { self.new ≡ turned_on self.old dlci.number (stage_state stage) }
    {
        if dlci.number() == 0 {
            self.turn_all(stage);
        } else {
            self.channels.turn(dlci, stage);
        }
    }

    fn turn_by(&mut self, dlci: Dlci, turn: Turn)
        ensures { self.new ≡ turned_by self.old dlci.number turn }
    {
        match turn {
            Turn::Stays => {}
            Turn::Opens => self.turn_on(dlci, Stage::Opened),
            Turn::Shuts => self.turn_on(dlci, Stage::Shut),
        }
    }

    /// Does what an MSC says of its connection, if that is Opened.
    fn set_stop(&mut self, value: &[u8])
        requires { msc_dlci value.now ≤ 61 }
        ensures { self.new
            ≡ record self.old { channels = stops_set self.old (record { octet = 0xe3; value = value.now }) } }
    {
        let dlci = Dlci {
            number: msc_dlci(value),
        };
        if self.stage(dlci).is_opened() {
            self.channels.set_stopped(dlci, msc_stops(value));
        }
    }

    /// Forgets the probe that waits, where this message answers it.
    fn answer_probe(&mut self, message: Message<'_>) -> Noted
        ensures after { self.new
            ≡ record self.old { probe = probe_answered self.old.probe (message_read message.entry) } }
        ensures noted { result ≡ noted_of_probe self.old.probe (Some (message_read message.entry)) }
    {
        let Some(probe) = &self.probe else {
            return Noted::Nothing;
        };
        let noted = match message.octet {
            TEST_RESPONSE if message.value == probe.octets.octets() => Noted::ProbeBack,
            NSC_RESPONSE if names_test(message.value) => Noted::ProbeRefused,
            _ => return Noted::Nothing,
        };
        self.probe = None;
        noted
    }

    /// A frame that is no message.
    fn take_by_table(&mut self, dlci: Dlci, kind: Kind) -> Result<Noted, StationError>
        ensures refusal { result_err result ≡ without_room_in self.old
            (by_table self.old.role dlci.number (channel_at self.old 0).state
            (channel_at self.old dlci.number).state kind) }
        ensures ok { OnOk result (FollowsTable self.old self.new dlci.number kind) }
        ensures noted { IfOk result
            (λ n. n ≡ noted_by_table self.old.role dlci.number (channel_at self.old 0).state
            (channel_at self.old dlci.number).state kind) }
        ensures err { OnErr result (self.new ≡ self.old) }
    {
        let row = self.row(dlci, kind);
        let answers = Answers::by_row(self.role, dlci, row);
        self.answer(answers)?;
        self.turn_by(dlci, row.turn);
        Ok(row.noted)
    }

    /// Does what a message says while 0 is Opened.
    fn follow(&mut self, message: Message<'_>) -> Noted
        requires { message.octet ≡ 0xe3 → msc_dlci message.value.now ≤ 61 }
        ensures after { self.new ≡ told_in self.old (message_read message.entry) }
        ensures noted { result ≡ noted_of_message self.old.probe (message_read message.entry) }
    {
        match message.octet {
            CLD => {
                self.turn_all(Stage::Shut);
                return Noted::AllClosed;
            }
            FCOFF => self.all_stopped = true,
            FCON => self.all_stopped = false,
            MSC => self.set_stop(message.value),
            _ => return self.answer_probe(message),
        }
        Noted::Nothing
    }

    /// A message while 0 is Opened.
    fn take_running(&mut self, message: Message<'_>) -> Result<Noted, StationError>
        requires { message.octet ≡ 0xe3 → msc_dlci message.value.now ≤ 61 }
        ensures refusal { result_err result
            ≡ without_room_in self.old (response self.old.role (message_read message.entry)) }
        ensures ok { OnOk result (self.new
            ≡ told_in (queued_in self.old (response self.old.role (message_read message.entry)))
            (message_read message.entry)) }
        ensures noted { IfOk result (λ n. n ≡ noted_of_message self.old.probe (message_read message.entry)) }
        ensures err { OnErr result (self.new ≡ self.old) }
    {
        let answers = Answers::to_message(self.role, message);
        self.answer(answers)?;
        Ok(self.follow(message))
    }

    /// A message in Stopping, which ends at a CLD command or at the response to ours.
    fn take_stopping(&mut self, message: Message<'_>) -> Result<Noted, StationError>
        ensures refusal { result_err result ≡ without_room_in self.old
            (message_calls self.old.role (IsStopping 0) (Some (message_read message.entry))) }
        ensures ok { OnOk result (self.new ≡ ended_in
            (queued_in self.old
            (message_calls self.old.role (IsStopping 0) (Some (message_read message.entry))))
            (message_read message.entry)) }
        ensures noted { IfOk result
            (λ n. n ≡ noted_by_message (IsStopping 0) self.old.probe (Some (message_read message.entry))) }
        ensures err { OnErr result (self.new ≡ self.old) }
    {
        match message.octet {
            CLD => {
                let answers = Answers::to_message(self.role, message);
                self.answer(answers)?;
            }
            CLD_RESPONSE => {}
            _ => return Ok(Noted::Nothing),
        }
        self.turn_all(Stage::Shut);
        Ok(Noted::AllClosed)
    }

    /// The information of a UIH frame on 0.
    fn take_message(&mut self, info: &[u8]) -> Result<Noted, StationError>
        ensures refusal { result_err result ≡ without_room_in self.old
            (message_calls self.old.role (channel_at self.old 0).state (message_of info.now)) }
        ensures ok { OnOk result (self.new ≡ message_taken
            (queued_in self.old
            (message_calls self.old.role (channel_at self.old 0).state (message_of info.now)))
            (channel_at self.old 0).state (message_of info.now)) }
        ensures noted { IfOk result
            (λ n. n ≡ noted_by_message (channel_at self.old 0).state self.old.probe (message_of info.now)) }
        ensures err { OnErr result (self.new ≡ self.old) }
    {
        let Some(message) = Message::read(info) else {
            return Ok(Noted::Nothing);
        };
        match self.stage(Dlci::CONTROL) {
            Stage::Opened => self.take_running(message),
            Stage::Stopping(_) => self.take_stopping(message),
            _ => Ok(Noted::Nothing),
        }
    }

    fn take_frame(&mut self, frame: FrameView<'_>) -> Result<Noted, StationError>
        ensures all { length self.old.channels ≡ 62 }
        ensures refusal { result_err result ≡ frame_refused_in self.old (frame_of frame.entry) }
        ensures ok { OnOk result (FrameTaken self.old self.new (frame_of frame.entry)) }
        ensures noted { IfOk result
            (λ n. n ≡ noted_of self.old.role (seen_in self.old) (frame_of frame.entry)) }
        ensures err { OnErr result (self.new ≡ self.old) }
    {
        // Looked at so that the proof knows how many connections there are.
        let _ = &self.channels;
        match frame.kind {
            Kind::Uih if frame.dlci.number() == 0 => self.take_message(frame.info),
            kind => self.take_by_table(frame.dlci, kind),
        }
    }

    /// Handles a received frame: queues the frames that it calls for, and says what it did. Requires that its
    /// information is at most N1 octets, and empty in a kind other than UIH. Refused with 7 NoRoom where the frames
    /// that it calls for don't all fit into the control queue.
    pub fn got(&mut self, frame: FrameView<'_>) -> Result<Noted, StationError>
        requires { length frame.info.now ≤ most_info self.old.n1 frame.kind }
        ensures refusal { result_err result ≡ frame_refused_in self.old (frame_of frame.entry) }
        ensures past { OnOk result (StationHandles self.old self.new (Got (frame_of frame.entry))) }
        ensures noted { IfOk result
            (λ n. n ≡ noted_of self.old.role (seen_in self.old) (frame_of frame.entry)) }
        ensures noted_past { (past : List Happened) → StationFits self.old past
            → IfOk result
            (λ n. n ≡ noted_of self.old.role (station_view (setting_of self.old) past)
            (frame_of frame.entry)) }
        ensures err { OnErr result (self.new ≡ self.old) }
    {
        self.take_frame(frame)
    }
}

/// Whether an NSC names a Test: the one octet of its value is the type of a Test command or response.
fn names_test(value: &[u8]) -> bool
    ensures { result ≡ names_test value.now }
{
    value.len() == 1 && matches!(value[0], TEST | TEST_RESPONSE)
}
