//! Watches the frames that pass an end of the line, and knows from them whether a connection may send, and has a carrier.
ghost use Rattle.std.specs.Prelude.{◌≡◌, ◌==◌, ◌&&◌, ◌||◌, not, option_map, unwrap_or, None, Some, false, Bool, []};
ghost use Rattle.mux_frame.specs.Frames.{frame_of};
ghost use Rattle.mux_station.specs.Acts.{Got, Sent, Lost};
ghost use Rattle.mux_station.specs.Messages.{message_of, message_in, brings_command, msc_dlci, msc_stops};
ghost use Rattle.mux_station.specs.MessagesRead.{message_read};
ghost use Rattle.mux_station.specs.Opening.{ends, is_mode_frame_on, opens};
ghost use Rattle.mux_station.specs.OpeningRule.{standing_after};
ghost use Rattle.mux_station.specs.States.{ends_itself};
ghost use Rattle.mux_station.specs.Stopping.{got_says, msc_says, flow_says};
ghost use Rattle.mux_station.specs.Written.{is_on, written_cr};
ghost use Rattle.mux_frame.specs.declared.frame.Kind.TheVariants.{Sabm, Uih};
ghost use Rattle.modem_data.specs.Watching.{dv_says, msc_dv, new_watch, watched, watch_opens, watch_ends, watch_loses, said_last, Watches, SaysMayLeave, HasWatched};
ghost use Rattle.modem_data.specs.Standings.{standing_of};

use mux_frame::{Dlci, FrameView, Kind};
use mux_station::{Message, Role, msc_dlci, msc_stops};
use std::marker::Model;

/// Whether a connection is open, and whether this end has asked for it.
#[derive(Clone, Copy)]
pub struct Standing {
    pub is_open: bool,
    pub is_asked: bool,
}

/// What the frames that passed an end of the line say of one connection.
#[derive(Drop)]
pub struct Watch {
    role: Role,
    dlci: Dlci,
    zero: Standing,
    own: Standing,
    own_stop: bool,
    all_stop: bool,
    carrier: bool,
}

impl Model for Watch {
    ghost use Rattle.modem_data.specs.Watching.{Watch};
    ghost use Rattle.modem_data.specs.Standings.{standing_of};

    ghost Value = { Watch };

    ghost view = { λ w. record {
      role = w.role;
      dlci = w.dlci.number;
      zero = standing_of w.zero;
      own = standing_of w.own;
      own_stop = w.own_stop;
      all_stop = w.all_stop;
      carrier = w.carrier;
    } };
}

/// The C/R bit of information that this end writes (27.010, 5.2.1.2).
pub(crate) fn info_cr(role: Role) -> bool
    ensures { result ≡ written_cr role Uih }
{
    matches!(role, Role::Initiator)
}

fn is_on(kind: Kind, dlci: u8, frame: FrameView<'_>) -> bool
    ensures { result ≡ is_on kind dlci (frame_of frame.entry) }
{
    frame.kind == kind && frame.dlci.number() == dlci
}

fn message_in(frame: FrameView<'_>) -> Option<Message<'_>>
    ensures { option_map message_read result ≡ message_in (frame_of frame.entry) }
{
    if frame.kind == Kind::Uih && frame.dlci.number() == 0 {
        return Message::read(frame.info);
    }
    None
}

/// Whether the frame brings a CLD command.
fn closes_down(frame: FrameView<'_>) -> bool
    ensures { result ≡ brings_command 0xc3 (frame_of frame.entry) }
{
    match message_in(frame) {
        Some(message) => message.octet == 0xC3,
        None => false,
    }
}

/// A SABM, UA, DM or DISC on a connection.
fn is_mode_frame(dlci: u8, frame: FrameView<'_>) -> bool
    ensures { result ≡ is_mode_frame_on dlci (frame_of frame.entry) }
{
    is_on(Kind::Sabm, dlci, frame)
        | (is_on(Kind::Ua, dlci, frame)
            | (is_on(Kind::Dm, dlci, frame) | is_on(Kind::Disc, dlci, frame)))
}

/// Whether a frame that comes ends a connection by itself.
fn got_ends_itself(zero: bool, dlci: u8, frame: FrameView<'_>) -> bool
    ensures { result ≡ ends_itself zero dlci (Got (frame_of frame.entry)) }
{
    is_on(Kind::Disc, dlci, frame)
        | (is_on(Kind::Dm, dlci, frame)
            | (is_on(Kind::Sabm, dlci, frame) | (zero & closes_down(frame))))
}

fn got_ends(zero: bool, dlci: u8, frame: FrameView<'_>) -> bool
    ensures { result ≡ ends zero dlci (Got (frame_of frame.entry)) }
{
    got_ends_itself(zero, dlci, frame) | ((dlci != 0) & got_ends_itself(zero, 0, frame))
}

/// Whether a frame that comes opens a connection: the UA to an initiator's SABM, or the SABM to a responder.
fn got_opens(role: Role, zero: bool, asked: bool, dlci: u8, frame: FrameView<'_>) -> bool
    ensures { result ≡ opens role zero asked dlci (Got (frame_of frame.entry)) }
{
    match role {
        Role::Initiator => is_on(Kind::Ua, dlci, frame) & asked,
        Role::Responder => is_on(Kind::Sabm, dlci, frame) & ((dlci == 0) | zero),
    }
}

/// How a connection stands after a frame that came.
fn stands_got(
    role: Role,
    zero: bool,
    dlci: u8,
    standing: Standing,
    frame: FrameView<'_>,
) -> Standing
    ensures { standing_of result
        ≡ standing_after role zero dlci (standing_of standing) (Got (frame_of frame.entry)) }
{
    let opens = got_opens(role, zero, standing.is_asked, dlci, frame);
    let ends = got_ends(zero, dlci, frame);
    let mode = is_mode_frame(dlci, frame);
    Standing {
        is_open: opens | (standing.is_open & !ends),
        is_asked: standing.is_asked & !(mode | ends),
    }
}

/// Whether a frame that goes ends a connection by itself.
fn sent_ends_itself(zero: bool, dlci: u8, frame: FrameView<'_>) -> bool
    ensures { result ≡ ends_itself zero dlci (Sent (frame_of frame.entry)) }
{
    let _ = zero;
    is_on(Kind::Disc, dlci, frame) | closes_down(frame)
}

fn sent_ends(zero: bool, dlci: u8, frame: FrameView<'_>) -> bool
    ensures { result ≡ ends zero dlci (Sent (frame_of frame.entry)) }
{
    sent_ends_itself(zero, dlci, frame) | ((dlci != 0) & sent_ends_itself(zero, 0, frame))
}

/// How a connection stands after a frame that went.
#[tactic(auto, using(crate::proofs::Watching::stands_as_sent))]
fn stands_sent(
    role: Role,
    zero: bool,
    dlci: u8,
    standing: Standing,
    frame: FrameView<'_>,
) -> Standing
    ensures { standing_of result
        ≡ standing_after role zero dlci (standing_of standing) (Sent (frame_of frame.entry)) }
{
    let _ = role;
    let ends = sent_ends(zero, dlci, frame);
    let mode = is_mode_frame(dlci, frame);
    let asks = is_on(Kind::Sabm, dlci, frame);
    Standing {
        is_open: standing.is_open & !ends,
        is_asked: asks | (standing.is_asked & !(mode | ends)),
    }
}

/// What was said last, then.
fn said_last(opens: bool, belongs: bool, said: Option<bool>, was: bool) -> bool
    ensures { result ≡ said_last opens belongs said was }
{
    if opens {
        return false;
    }
    match said {
        Some(says) if belongs => says,
        _ => was,
    }
}

/// What a frame says of the flow on a connection, and of that on all.
fn own_said(dlci: u8, frame: FrameView<'_>) -> Option<bool>
    ensures { result ≡ got_says (msc_says dlci) (Got (frame_of frame.entry)) }
{
    let message = message_in(frame)?;
    if message.octet == 0xE3 && msc_dlci(message.value) == dlci {
        return Some(msc_stops(message.value));
    }
    None
}

/// Whether the DV bit of an MSC says that there is a carrier (27.010, 5.4.6.3.7).
fn msc_dv(value: &[u8]) -> bool
    ensures { result ≡ msc_dv value.now }
{
    match value.get(1) {
        Some(signals) => signals / 128 % 2 == 1,
        None => false,
    }
}

/// What a frame says of the carrier of a connection.
fn dv_said(dlci: u8, frame: FrameView<'_>) -> Option<bool>
    ensures { result ≡ got_says (dv_says dlci) (Got (frame_of frame.entry)) }
{
    let message = message_in(frame)?;
    if message.octet == 0xE3 && msc_dlci(message.value) == dlci {
        return Some(msc_dv(message.value));
    }
    None
}

fn all_said(frame: FrameView<'_>) -> Option<bool>
    ensures { result ≡ got_says flow_says (Got (frame_of frame.entry)) }
{
    let message = message_in(frame)?;
    match message.octet {
        0x63 => Some(true),
        0xA3 => Some(false),
        _ => None,
    }
}

impl Watch {
    /// Nothing has passed this end of the line yet.
    pub fn new(role: Role, dlci: Dlci) -> Watch
        ensures value { result ≡ new_watch role dlci.number }
        ensures past { HasWatched result [] }
    {
        let shut = Standing {
            is_open: false,
            is_asked: false,
        };
        Watch {
            role,
            dlci,
            zero: shut,
            own: shut,
            own_stop: false,
            all_stop: false,
            carrier: false,
        }
    }

    /// Which end of the line it watches.
    pub fn role(&self) -> Role
        ensures { result ≡ self.now.role }
    {
        self.role
    }

    /// Its connection.
    pub fn dlci(&self) -> Dlci
        ensures { result.number ≡ self.now.dlci }
    {
        self.dlci
    }

    /// Whether a frame is information on the connection.
    pub fn is_own_info(&self, frame: FrameView<'_>) -> bool
        ensures { result ≡ is_on Uih self.now.dlci (frame_of frame.entry) }
    {
        is_on(Kind::Uih, self.dlci.number(), frame)
    }

    /// Whether a frame is information on the connection, which is open.
    pub fn is_info(&self, frame: FrameView<'_>) -> bool
        ensures { result ≡ (is_on Uih self.now.dlci (frame_of frame.entry) && self.now.own.is_open) }
    {
        is_on(Kind::Uih, self.dlci.number(), frame) & self.own.is_open
    }

    /// Whether a frame that comes opens the connection.
    pub fn opens(&self, frame: FrameView<'_>) -> bool
        ensures { result ≡ watch_opens self.now (Got (frame_of frame.entry)) }
    {
        got_opens(
            self.role,
            self.zero.is_open,
            self.own.is_asked,
            self.dlci.number(),
            frame,
        )
    }

    /// Whether a frame that comes ends an opening of the connection.
    pub fn ends_by_got(&self, frame: FrameView<'_>) -> bool
        ensures { result ≡ watch_ends self.now (Got (frame_of frame.entry)) }
    {
        let ends = got_ends(self.zero.is_open, self.dlci.number(), frame);
        self.own.is_open & (self.opens(frame) | !(self.own.is_open & !ends))
    }

    /// Whether a frame that goes ends an opening of the connection.
    pub fn ends_by_sent(&self, frame: FrameView<'_>) -> bool
        ensures { result ≡ watch_ends self.now (Sent (frame_of frame.entry)) }
    {
        let ends = sent_ends(self.zero.is_open, self.dlci.number(), frame);
        self.own.is_open & !(self.own.is_open & !ends)
    }

    /// Whether a frame that comes takes the connection's carrier: it has one, and the frame says that it has none.
    pub fn loses_carrier(&self, frame: FrameView<'_>) -> bool
        ensures { result ≡ watch_loses self.now (Got (frame_of frame.entry)) }
    {
        let stays = dv_said(self.dlci.number(), frame).unwrap_or(true);
        (self.own.is_open & self.carrier) & !stays
    }

    /// What a frame says of the flow on the connection.
    pub fn said(&self, frame: FrameView<'_>) -> Option<bool>
        ensures { result ≡ got_says (msc_says self.now.dlci) (Got (frame_of frame.entry)) }
    {
        own_said(self.dlci.number(), frame)
    }

    /// Whether the connection is open.
    pub fn is_open(&self) -> bool
        ensures { result ≡ self.now.own.is_open }
    {
        self.own.is_open
    }

    /// A frame came.
    #[tactic(auto, using(crate::proofs::Watching::watches))]
    pub fn came(&mut self, frame: FrameView<'_>)
        ensures after { self.new ≡ watched self.old (Got (frame_of frame.entry)) }
        ensures past { Watches self.old self.new (Got (frame_of frame.entry)) }
    {
        let dlci = self.dlci.number();
        let zero = self.zero.is_open;
        let role = self.role;
        let own_opens = got_opens(role, zero, self.own.is_asked, dlci, frame);
        let own_stays = self.own.is_open & !got_ends(zero, dlci, frame);
        let all_open = got_opens(role, zero, self.zero.is_asked, 0, frame);
        let all_stay = zero & !got_ends(zero, 0, frame);
        self.own_stop = said_last(own_opens, own_stays, own_said(dlci, frame), self.own_stop);
        self.all_stop = said_last(all_open, all_stay, all_said(frame), self.all_stop);
        self.carrier = said_last(own_opens, own_stays, dv_said(dlci, frame), self.carrier);
        self.own = stands_got(role, zero, dlci, self.own, frame);
        self.zero = stands_got(role, zero, 0, self.zero, frame);
    }

    /// A frame went.
    #[tactic(auto, using(crate::proofs::Watching::after_sent, crate::proofs::Watching::watches_sent))]
    pub fn went(&mut self, frame: FrameView<'_>)
        ensures after { self.new ≡ watched self.old (Sent (frame_of frame.entry)) }
        ensures past { Watches self.old self.new (Sent (frame_of frame.entry)) }
    {
        let dlci = self.dlci.number();
        let zero = self.zero.is_open;
        let own_stays = self.own.is_open & !sent_ends(zero, dlci, frame);
        let all_stay = zero & !sent_ends(zero, 0, frame);
        self.own_stop = said_last(false, own_stays, None, self.own_stop);
        self.all_stop = said_last(false, all_stay, None, self.all_stop);
        self.carrier = said_last(false, own_stays, None, self.carrier);
        self.own = stands_sent(self.role, zero, dlci, self.own, frame);
        self.zero = stands_sent(self.role, zero, 0, self.zero, frame);
    }

    /// The line was lost.
    #[tactic(auto, using(crate::proofs::Watching::after_lost, crate::proofs::Watching::watches_lost))]
    pub fn lost(&mut self)
        ensures after { self.new ≡ watched self.old Lost }
        ensures past { Watches self.old self.new Lost }
    {
        let shut = Standing {
            is_open: false,
            is_asked: false,
        };
        self.own = shut;
        self.zero = shut;
    }

    /// Whether data may leave the connection now.
    #[tactic(auto, using(crate::proofs::Watching::says_may_leave))]
    pub fn may_leave(&self) -> bool
        ensures past { SaysMayLeave self.now result }
    {
        (self.dlci.number() != 0)
            & (self.own.is_open & (!self.own_stop & !(self.zero.is_open & self.all_stop)))
    }
}
