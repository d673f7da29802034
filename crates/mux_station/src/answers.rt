//! The frames that a received frame calls for.
ghost use Rattle.std.specs.Prelude.{◌≡◌, ◌≤◌, []};
ghost use Rattle.mux_station.specs.Tables.{octets_of, response};
ghost use Rattle.mux_station.specs.MessagesRead.{message_read};
ghost use Rattle.mux_station.specs.Getting.{row_frames};
ghost use Rattle.mux_station.specs.AnswersSent.{frames_in, answers_sent};

use crate::control_frame::ControlFrame;
use crate::message::Message;
use crate::role::Role;
use crate::row::Row;
use crate::written::{CLD, FCOFF, FCON, MSC, NSC, NSC_RESPONSE, READY, TEST};
use mux_frame::Dlci;

/// At most two frames, the second after the first.
#[derive(Drop)]
pub(crate) struct Answers {
    pub first: Option<ControlFrame>,
    pub second: Option<ControlFrame>,
}

fn written_len(frame: &Option<ControlFrame>) -> usize
    ensures octets { result ≡ octets_of (frames_in frame.now) }
    ensures few { result ≤ 136 }
{
    match frame {
        Some(frame) => frame.written_len(),
        None => 0,
    }
}

impl Answers {
    /// No frame.
    pub fn none() -> Answers
        ensures { answers_sent result ≡ [] }
    {
        Answers {
            first: None,
            second: None,
        }
    }

    /// What a row of a table calls for.
    pub fn by_row(role: Role, dlci: Dlci, row: Row) -> Answers
        ensures { answers_sent result ≡ row_frames role dlci.number row.answer row.turn }
    {
        let first = match row.answer {
            Some(kind) => Some(ControlFrame::bare(role, kind, dlci)),
            None => None,
        };
        let second = if row.turn.opens() && dlci.number() != 0 {
            Some(ControlFrame::msc(role, dlci, READY))
        } else {
            None
        };
        Answers { first, second }
    }

    /// What a message calls for while 0 is Opened: the response to a command, or NSC where its type isn't supported.
    pub fn to_message(role: Role, message: Message<'_>) -> Answers
        ensures { answers_sent result ≡ response role (message_read message.entry) }
    {
        let first = match message.octet {
            TEST | FCOFF | FCON | CLD | MSC => Some(ControlFrame::message(
                role,
                message.octet - 2,
                message.value,
            )),
            octet if octet / 2 % 2 == 1 && octet != NSC => {
                Some(ControlFrame::message(role, NSC_RESPONSE, &[octet]))
            }
            _ => None,
        };
        Answers {
            first,
            second: None,
        }
    }

    /// How many octets they are as written, flags counted.
    pub fn written_len(&self) -> usize
        ensures { result ≡ octets_of (answers_sent self.now) }
    {
        written_len(&self.first) + written_len(&self.second)
    }
}
