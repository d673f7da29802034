//! Whether the control queue has room for what a call asks for.
ghost use Rattle.std.specs.Prelude.{◌≡◌, []};
ghost use Rattle.mux_frame.specs.Frames.{frame_of};
ghost use Rattle.mux_station.specs.Acts.{Flow};
ghost use Rattle.mux_station.specs.Tables.{octets_of, have_room, by_frame};
ghost use Rattle.mux_station.specs.Messages.{message_of};
ghost use Rattle.mux_station.specs.Sending.{frames_asked};
ghost use Rattle.mux_station.specs.Stations.{channel_at, seen_in};
ghost use Rattle.mux_station.specs.AnswersSent.{answers_sent};
ghost use Rattle.mux_station.specs.Getting.{message_calls};

use crate::answers::Answers;
use crate::channel::Stage;
use crate::message::Message;
use crate::station::Station;
use crate::written::CLD;
use mux_frame::{Dlci, FrameView, Kind};

impl Station {
    /// What the information of a UIH frame on 0 calls for.
    fn answers_to_message(&self, info: &[u8]) -> Answers
        ensures { answers_sent result
            ≡ message_calls self.now.role (channel_at self.now 0).state (message_of info.now) }
    {
        let Some(message) = Message::read(info) else {
            return Answers::none();
        };
        match self.stage(Dlci::CONTROL) {
            Stage::Opened => Answers::to_message(self.role(), message),
            Stage::Stopping(_) if message.octet == CLD => {
                Answers::to_message(self.role(), message)
            }
            _ => Answers::none(),
        }
    }

    /// What a frame calls for.
    fn answers_to(&self, frame: FrameView<'_>) -> Answers
        ensures { answers_sent result
            ≡ by_frame self.now.role (seen_in self.now).state (frame_of frame.entry) }
    {
        match frame.kind {
            Kind::Uih if frame.dlci.number() == 0 => self.answers_to_message(frame.info),
            kind => Answers::by_row(self.role(), frame.dlci, self.row(frame.dlci, kind)),
        }
    }

    /// Whether all frames that this one calls for fit into the control queue. If they do, `got` takes the frame.
    pub fn has_room_for(&self, frame: FrameView<'_>) -> bool
        ensures { result ≡ have_room self.now.n1 (octets_of self.now.queue)
            (by_frame self.now.role (seen_in self.now).state (frame_of frame.entry)) }
    {
        self.fits(&self.answers_to(frame))
    }

    /// Whether the message of a `flow` fits into the control queue.
    pub fn has_room_to_flow(&self, dlci: Dlci, go: bool) -> bool
        ensures { result ≡ have_room self.now.n1 (octets_of self.now.queue)
            (frames_asked self.now.role (Flow dlci.number go)) }
    {
        self.check_room(&self.flow_message(dlci, go)).is_ok()
    }
}
