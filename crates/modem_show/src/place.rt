//! What is kept of a connection at one end.
ghost use Rattle.std.specs.Prelude.{◌≡◌, ◌==◌, ◌&&◌, ◌||◌, not, Bool};
ghost use Rattle.mux_frame.specs.Frames.{frame_of};
ghost use Rattle.mux_station.specs.Opening.{is_mode_frame, asks, ends, opens};
ghost use Rattle.mux_station.specs.OpeningRule.{standing_after};
ghost use Rattle.mux_station.specs.States.{ends_itself};
ghost use Rattle.mux_station.specs.Stopping.{got_says};
ghost use Rattle.modem_show.specs.Ways.{act_of};
ghost use Rattle.modem_show.specs.Ends.{says_at, stop_after, place_after, stop_in};

use crate::deed::Deed;
use crate::message::{closes_down, is_mode_frame_on, is_on, message_in, told_at};
use mux_frame::{FrameView, Kind};
use mux_station::Role;

/// Whether a connection is open, whether its last SABM, UA, DM or DISC is a SABM that was sent, and what the last message about it said.
#[derive(Clone, Copy)]
pub(crate) struct Place {
    pub is_open: bool,
    pub is_asked: bool,
    pub is_stopped: bool,
}

impl Place {
    /// A connection of which nothing came.
    pub const SHUT: Place = Place {
        is_open: false,
        is_asked: false,
        is_stopped: false,
    };
}

fn is_mode_frame(dlci: u8, frame: FrameView<'_>, deed: Deed) -> bool
    ensures { result ≡ is_mode_frame dlci (act_of deed (frame_of frame.entry)) }
{
    match deed {
        Deed::Got => is_mode_frame_on(dlci, frame),
        Deed::Sent => is_mode_frame_on(dlci, frame),
    }
}

/// Whether an act asks the other end to open a connection.
fn asks(dlci: u8, frame: FrameView<'_>, deed: Deed) -> bool
    ensures { result ≡ asks dlci (act_of deed (frame_of frame.entry)) }
{
    match deed {
        Deed::Got => false,
        Deed::Sent => is_on(Kind::Sabm, dlci, frame),
    }
}

/// Whether an act ends a connection by itself, where `zero` says whether 0 is open before it.
fn ends_itself(zero: bool, dlci: u8, frame: FrameView<'_>, deed: Deed) -> bool
    ensures { result ≡ ends_itself zero dlci (act_of deed (frame_of frame.entry)) }
{
    match deed {
        Deed::Got => {
            is_on(Kind::Disc, dlci, frame)
                || is_on(Kind::Dm, dlci, frame)
                || is_on(Kind::Sabm, dlci, frame)
                || (zero && closes_down(frame))
        }
        Deed::Sent => is_on(Kind::Disc, dlci, frame) || closes_down(frame),
    }
}

fn ends(zero: bool, dlci: u8, frame: FrameView<'_>, deed: Deed) -> bool
    ensures { result ≡ ends zero dlci (act_of deed (frame_of frame.entry)) }
{
    ends_itself(zero, dlci, frame, deed) || (dlci != 0 && ends_itself(zero, 0, frame, deed))
}

/// Whether an act opens a connection.
fn opens(role: Role, zero: bool, asked: bool, dlci: u8, frame: FrameView<'_>, deed: Deed) -> bool
    ensures { result ≡ opens role zero asked dlci (act_of deed (frame_of frame.entry)) }
{
    match (role, deed) {
        (Role::Initiator, Deed::Got) => is_on(Kind::Ua, dlci, frame) && asked,
        (Role::Responder, Deed::Got) => is_on(Kind::Sabm, dlci, frame) && (dlci == 0 || zero),
        (_, Deed::Sent) => false,
    }
}

/// What an act says of the stop that is kept at a connection.
fn says_at(dlci: u8, frame: FrameView<'_>, deed: Deed) -> Option<bool>
    ensures { result ≡ got_says (says_at dlci) (act_of deed (frame_of frame.entry)) }
{
    match deed {
        Deed::Got => told_at(&message_in(frame)?, dlci),
        Deed::Sent => None,
    }
}

fn stop_after(opens: bool, belongs: bool, said: Option<bool>, before: bool) -> bool
    ensures { result ≡ stop_after opens belongs said before }
{
    if opens {
        false
    } else if belongs {
        said.unwrap_or(before)
    } else {
        before
    }
}

impl Place {
    /// What is kept after an act, where `zero` says whether 0 is open before it.
    pub fn after(self, role: Role, zero: bool, dlci: u8, frame: FrameView<'_>, deed: Deed) -> Place
        ensures { result ≡ place_after role zero dlci self (act_of deed (frame_of frame.entry)) }
    {
        let opens = opens(role, zero, self.is_asked, dlci, frame, deed);
        let belongs = self.is_open && !ends(zero, dlci, frame, deed);
        let asks = asks(dlci, frame, deed);
        let stays_asked = self.is_asked
            && !(is_mode_frame(dlci, frame, deed) || ends(zero, dlci, frame, deed));
        Place {
            is_open: opens || belongs,
            is_asked: asks || stays_asked,
            is_stopped: stop_after(opens, belongs, says_at(dlci, frame, deed), self.is_stopped),
        }
    }
}

/// Whether a connection is stopped, by what is kept of it and of 0.
pub(crate) fn stop_in(dlci: u8, own: Place, all: Place) -> bool
    ensures { result ≡ stop_in dlci own all }
{
    dlci != 0 && ((own.is_open && own.is_stopped) || (all.is_open && all.is_stopped))
}
