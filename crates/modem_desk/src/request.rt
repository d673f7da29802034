//! What callers ask for, and what they are told.
ghost use Rattle.std.specs.Prelude.{◌≡◌, IfOk};
ghost use Rattle.modem_desk.specs.Numbers.{answer_number};

use at_text::{AnswerLines, CommandLine, Text, UrcKind};
use mux_frame::{Dlci, ProbeData};
use std::alloc::AllocError;

/// What a caller asks for.
#[derive(Drop)]
pub enum Ask {
    /// Open the connection, by a SABM (27.010, 5.4.1).
    OpenChannel(Dlci),
    /// Close it, by a DISC (27.010, 5.4.2).
    CloseChannel(Dlci),
    /// Send a command line over the connection and read its answer (V.250, 5).
    Command(Dlci, CommandLine),
    /// Send these octets to the other end and have them back, by a Test command (27.010,
    /// 5.4.6.3.4).
    Probe(ProbeData),
    /// End the multiplexer, by a CLD command (27.010, 5.4.6.3.3).
    Stop,
}

impl Ask {
    /// A copy of the ask.
    pub fn copy(&self) -> Result<Ask, AllocError>
        ensures { IfOk result (λ copy. copy ≡ self.now) }
    {
        match self {
            Ask::OpenChannel(dlci) => Ok(Ask::OpenChannel(*dlci)),
            Ask::CloseChannel(dlci) => Ok(Ask::CloseChannel(*dlci)),
            Ask::Command(dlci, line) => {
                let line = line.copy()?;
                Ok(Ask::Command(*dlci, line))
            }
            Ask::Probe(data) => {
                let data = ProbeData::new(data.octets()).unwrap();
                Ok(Ask::Probe(data))
            }
            Ask::Stop => Ok(Ask::Stop),
        }
    }
}

/// One request of one caller. A caller uses no number twice.
#[derive(Drop)]
pub struct Request {
    /// The caller's number at its desk, from 0.
    pub caller: u8,
    /// The number that its caller gave it.
    pub number: u64,
    /// What is asked for.
    pub ask: Ask,
}

impl Request {
    /// A copy of the request.
    pub fn copy(&self) -> Result<Request, AllocError>
        ensures { IfOk result (λ copy. copy ≡ self.now) }
    {
        let ask = self.ask.copy()?;
        Ok(Request {
            caller: self.caller,
            number: self.number,
            ask,
        })
    }
}

/// How a request ended.
#[derive(Drop, Debug)]
pub enum Answer {
    /// The command was answered: its lines, the final code last.
    Done(AnswerLines),
    /// The connection is open now.
    Opened,
    /// The connection is shut now.
    Shut,
    /// The probe came back.
    ProbeBack,
    /// The multiplexer has ended.
    Stopped,
    /// The connection, or connection 0, isn't open.
    NotOpen,
    /// The connection is open already.
    AlreadyOpen,
    /// The other end refused.
    Refused,
    /// The other end didn't answer.
    NoAnswer,
    /// The connection was closed before the request was answered.
    Closed,
    /// Connection 0 is the control channel, and carries no commands.
    ControlChannel,
    /// The line was lost.
    LineLost,
    /// 128 requests are in hand, the control queue lacks room, a probe waits, or the connection is
    /// being opened or closed.
    Busy,
}

impl Answer {
    /// The number of this answer.
    pub fn number(&self) -> u8
        ensures { result ≡ answer_number self.now }
    {
        match self {
            Answer::Done(_) => 1,
            Answer::Opened => 2,
            Answer::Shut => 3,
            Answer::ProbeBack => 4,
            Answer::Stopped => 5,
            Answer::NotOpen => 6,
            Answer::AlreadyOpen => 7,
            Answer::Refused => 8,
            Answer::NoAnswer => 9,
            Answer::Closed => 10,
            Answer::ControlChannel => 11,
            Answer::LineLost => 12,
            Answer::Busy => 13,
        }
    }

    /// A copy of the answer.
    pub fn copy(&self) -> Result<Answer, AllocError>
        ensures { IfOk result (λ copy. copy ≡ self.now) }
    {
        match self {
            Answer::Done(lines) => {
                let lines = lines.copy()?;
                Ok(Answer::Done(lines))
            }
            Answer::Opened => Ok(Answer::Opened),
            Answer::Shut => Ok(Answer::Shut),
            Answer::ProbeBack => Ok(Answer::ProbeBack),
            Answer::Stopped => Ok(Answer::Stopped),
            Answer::NotOpen => Ok(Answer::NotOpen),
            Answer::AlreadyOpen => Ok(Answer::AlreadyOpen),
            Answer::Refused => Ok(Answer::Refused),
            Answer::NoAnswer => Ok(Answer::NoAnswer),
            Answer::Closed => Ok(Answer::Closed),
            Answer::ControlChannel => Ok(Answer::ControlChannel),
            Answer::LineLost => Ok(Answer::LineLost),
            Answer::Busy => Ok(Answer::Busy),
        }
    }
}

/// What a caller is told of one request.
#[derive(Drop)]
pub struct Outcome {
    /// The caller whose request it answers.
    pub caller: u8,
    /// The number of that request.
    pub number: u64,
    /// How it ended.
    pub answer: Answer,
}

impl Outcome {
    /// A copy of the outcome.
    pub fn copy(&self) -> Result<Outcome, AllocError>
        ensures { IfOk result (λ copy. copy ≡ self.now) }
    {
        let answer = self.answer.copy()?;
        Ok(Outcome {
            caller: self.caller,
            number: self.number,
            answer,
        })
    }
}

/// An unsolicited line.
#[derive(Drop)]
pub struct Urc {
    /// Its kind, `Other` for a line of no kind.
    pub kind: UrcKind,
    /// The connection on which it came.
    pub dlci: Dlci,
    /// Its octets without the line end; the driver keeps at most 512 (V.250, 5.7).
    pub line: Text,
}

impl Urc {
    /// A copy of the line.
    pub fn copy(&self) -> Result<Urc, AllocError>
        ensures { IfOk result (λ copy. copy ≡ self.now) }
    {
        let line = self.line.copy()?;
        Ok(Urc {
            kind: self.kind,
            dlci: self.dlci,
            line,
        })
    }
}
