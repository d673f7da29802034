//! The initiator's and the responder's table (27.010, 5.4.1 and 5.4.2).
ghost use Rattle.std.specs.Prelude.{◌≡◌, ◌==◌, ◌||◌, Bool};
ghost use Rattle.mux_station.specs.declared.role.Role.TheVariants.{Initiator, Responder};
ghost use Rattle.mux_station.specs.States.{State, is_opened};
ghost use Rattle.mux_station.specs.Stages.{stage_state};
ghost use Rattle.mux_station.specs.Tables.{by_table};
ghost use Rattle.mux_station.specs.Noting.{closed_on, by_initiator, by_responder};
ghost use Rattle.mux_station.specs.Getting.{TurnsBy, row_frames, is_opens};

use crate::channel::Stage;
use crate::noted::Noted;
use mux_frame::{Dlci, Kind};

/// What becomes of a connection.
#[derive(Clone, Copy)]
pub(crate) enum Turn {
    Stays,
    Opens,
    Shuts,
}

impl Turn {
    pub fn opens(self) -> bool
        ensures { result ≡ is_opens self }
    {
        matches!(self, Turn::Opens)
    }
}

/// A row of a table: the UA or DM that answers a frame, what becomes of its connection, and what is
/// noted.
#[derive(Clone, Copy)]
pub(crate) struct Row {
    pub answer: Option<Kind>,
    pub turn: Turn,
    pub noted: Noted,
}

impl Row {
    fn new(answer: Option<Kind>, turn: Turn, noted: Noted) -> Row
        ensures { result ≡ record { answer = answer; turn = turn; noted = noted } }
    {
        Row {
            answer,
            turn,
            noted,
        }
    }
}

/// Closing 0 closes all connections.
fn closed_on(dlci: Dlci) -> Noted
    ensures { result ≡ closed_on dlci.number }
{
    if dlci.number() == 0 {
        Noted::AllClosed
    } else {
        Noted::Closed
    }
}

pub(crate) fn initiator_row(dlci: Dlci, stage: Stage, kind: Kind) -> Row
    ensures turns { (at_zero : Bool) → TurnsBy Initiator at_zero (stage_state stage) kind result.turn }
    ensures frames { (control : State)
        → by_table Initiator dlci.number control (stage_state stage) kind
        ≡ row_frames Initiator dlci.number result.answer result.turn }
    ensures noted { result.noted ≡ by_initiator dlci.number (stage_state stage) kind }
{
    match (stage, kind) {
        (Stage::Opening(_), Kind::Ua) => Row::new(None, Turn::Opens, Noted::Opened),
        (Stage::Opening(_), Kind::Dm) => Row::new(None, Turn::Shuts, Noted::Refused),
        (Stage::Opening(_), Kind::Disc | Kind::Sabm) => {
            Row::new(Some(Kind::Dm), Turn::Shuts, Noted::Refused)
        }
        (Stage::Opened | Stage::Stopping(_), Kind::Dm) => {
            Row::new(None, Turn::Shuts, closed_on(dlci))
        }
        (Stage::Opened, Kind::Disc) => Row::new(Some(Kind::Ua), Turn::Shuts, closed_on(dlci)),
        (Stage::Opened, Kind::Sabm) => Row::new(Some(Kind::Dm), Turn::Shuts, closed_on(dlci)),
        (Stage::Opened, Kind::Uih) => Row::new(None, Turn::Stays, Noted::Info),
        (Stage::Closing(_), Kind::Ua | Kind::Dm) => Row::new(None, Turn::Shuts, Noted::Closed),
        (_, Kind::Disc | Kind::Sabm) => Row::new(Some(Kind::Dm), Turn::Stays, Noted::Nothing),
        _ => Row::new(None, Turn::Stays, Noted::Nothing),
    }
}

/// The responder's table. `at_zero` says whether the connection is 0, or 0 is Opened.
pub(crate) fn responder_row(dlci: Dlci, at_zero: bool, stage: Stage, kind: Kind) -> Row
    ensures turns { TurnsBy Responder at_zero (stage_state stage) kind result.turn }
    ensures frames { (control : State) → ((dlci.number == 0) || is_opened control) ≡ at_zero
        → by_table Responder dlci.number control (stage_state stage) kind
        ≡ row_frames Responder dlci.number result.answer result.turn }
    ensures noted { result.noted ≡ by_responder dlci.number at_zero (stage_state stage) kind }
{
    match (stage, kind) {
        (_, Kind::Sabm) if !at_zero => Row::new(Some(Kind::Dm), Turn::Shuts, Noted::Nothing),
        (Stage::Opened, Kind::Sabm) => Row::new(Some(Kind::Ua), Turn::Opens, Noted::Reset),
        (_, Kind::Sabm) => Row::new(Some(Kind::Ua), Turn::Opens, Noted::Opened),
        (Stage::Opened, Kind::Disc) => Row::new(Some(Kind::Ua), Turn::Shuts, closed_on(dlci)),
        (Stage::Opening(_), Kind::Disc) => Row::new(Some(Kind::Dm), Turn::Shuts, Noted::Nothing),
        (_, Kind::Disc) => Row::new(Some(Kind::Dm), Turn::Stays, Noted::Nothing),
        (Stage::Closing(_), Kind::Ua) => Row::new(None, Turn::Shuts, closed_on(dlci)),
        (Stage::Shut, Kind::Dm) => Row::new(None, Turn::Stays, Noted::Nothing),
        (_, Kind::Dm) => Row::new(None, Turn::Shuts, closed_on(dlci)),
        (Stage::Opened, Kind::Uih) => Row::new(None, Turn::Stays, Noted::Info),
        _ => Row::new(None, Turn::Stays, Noted::Nothing),
    }
}
