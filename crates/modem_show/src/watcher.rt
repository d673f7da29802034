//! Judges the frames of a line as they passed.
ghost use Rattle.std.specs.Prelude.{◌≡◌, ◌∷◌, ◌++◌, [], ◌&&◌, List, map, is_none, Some, IfOk, OnOk, OnErr};
ghost use Rattle.std.specs.Option.{option_copied};
ghost use Rattle.mux_frame.specs.Frames.{frame_of};
ghost use Rattle.mux_capture.specs.declared.packet.Direction.{Direction};
ghost use Rattle.mux_capture.specs.Passing.{Caught};
ghost use Rattle.mux_station.specs.Acts.{Act};
ghost use Rattle.modem_show.specs.declared.deed.Deed.TheVariants.{Got, Sent};
ghost use Rattle.mux_station.specs.Opening.{is_open};
ghost use Rattle.mux_station.specs.Stopping.{is_stopped};
ghost use Rattle.modem_show.specs.Ways.{caught, act_of, other, sender};
ghost use Rattle.modem_show.specs.Asking.{answered_by, is_in_doubt, unanswered_by, excused_by, asked_with, is_answer, waiting};
ghost use Rattle.modem_show.specs.Ends.{EndFits, handled, come, own};
ghost use Rattle.modem_show.specs.Judging.{SideFits, WatchFits, Passes, JudgedBy, faults_at, faults_of};

use crate::ask::{Ask, is_answer, is_ask};
use crate::asks::{answered, is_in_doubt, pass_all, take_answered};
use crate::deed::Deed;
use crate::end::End;
use crate::faults::Faults;
use crate::message::{is_data_frame, is_kind, is_message, is_text};
use mux_capture::{Direction, Stamp};
use mux_frame::{Dlci, FrameView, Kind};
use mux_station::Role;
use std::alloc::{AllocError, Global};
use std::marker::Model;

/// One end, and the frames with which it asked and which wait for an answer, the newest first.
#[derive(Drop)]
struct Side {
    end: End,
    asks: Vec<Ask>,
}

impl Model for Side {
    ghost use Rattle.modem_show.specs.Judging.{Side};

    ghost Value = { Side };

    ghost view = { λ s. record { end = s.end; asks = s.asks.items } };
}

impl Side {
    fn new(alloc: Global, role: Role) -> Result<Side, AllocError>
        ensures { IfOk result (λ s. SideFits role s []) }
    {
        let end = End::new(alloc, role)?;
        Ok(Side {
            end,
            asks: Vec::new(alloc),
        })
    }

    /// What is wrong with a frame of this end.
    fn judge(&self, n1: u16, frame: FrameView<'_>, unasked: bool, in_doubt: bool) -> Faults
        ensures { result ≡ faults_at n1 self.now (frame_of frame.entry) unasked in_doubt }
    {
        let is_data = is_data_frame(frame);
        Faults {
            unasked,
            unopened: is_data && !(self.end.is_open(frame.dlci) || in_doubt),
            unstopped: is_data && self.end.is_stopped(frame.dlci),
            too_long: frame.info.len() > usize::from(n1),
            astray: is_data && is_message(frame.info) && !is_text(frame.info),
        }
    }

    /// This end asks with a frame, if the frame asks. Want of memory leaves all as it was.
    fn ask(&mut self, alloc: Global, stamp: Stamp, frame: FrameView<'_>) -> Result<(), AllocError>
        ensures end { self.new.end ≡ self.old.end }
        ensures ok { OnOk result (
            self.new.asks ≡ asked_with stamp (frame_of frame.entry) ++ self.old.asks) }
        ensures err { OnErr result (self.new.asks ≡ self.old.asks) }
    {
        if is_ask(frame) {
            let ask = Ask::new(alloc, stamp, frame)?;
            self.asks.insert(0, ask)?;
        }
        Ok(())
    }

    /// The other end answers with a frame, if it is an answer.
    fn take_answer(&mut self, frame: FrameView<'_>) -> Option<Ask>
        ensures end { self.new.end ≡ self.old.end }
        ensures taken { result ≡ answered_by (frame_of frame.entry) self.old.asks }
        ensures rest { self.new.asks
            ≡ map (excused_by (act_of Got (frame_of frame.entry))) (unanswered_by (frame_of frame.entry) self.old.asks) }
    {
        let taken = take_answered(&mut self.asks, frame);
        pass_all(&mut self.asks, Deed::Got, frame);
        taken
    }

    /// This end has read a frame that asks, as its answer shows.
    fn read(&mut self, ask: &Ask)
        ensures role { self.new.end.role ≡ self.old.end.role }
        ensures asks { self.new.asks ≡ self.old.asks }
        ensures past { (past : List Act) → EndFits self.old.end past → EndFits self.new.end (handled (Some ask.now) ++ past) }
    {
        if !ask.is_again() {
            self.end.act(ask.frame(), Deed::Got);
        }
    }

    /// This end sends a frame, with which it answers what it was asked.
    fn send(&mut self, frame: FrameView<'_>, answered: Option<Ask>)
        ensures role { self.new.end.role ≡ self.old.end.role }
        ensures asks { self.new.asks ≡ map (excused_by (act_of Sent (frame_of frame.entry))) self.old.asks }
        ensures past { (past : List Act) → EndFits self.old.end past
            → EndFits self.new.end (act_of Sent (frame_of frame.entry) ∷ (handled answered ++ past)) }
    {
        if let Some(ask) = answered {
            self.read(&ask);
        }
        self.end.act(frame, Deed::Sent);
        pass_all(&mut self.asks, Deed::Sent, frame);
    }

    /// A frame comes to this end.
    fn get(&mut self, frame: FrameView<'_>)
        ensures role { self.new.end.role ≡ self.old.end.role }
        ensures asks { self.new.asks ≡ self.old.asks }
        ensures past { (past : List Act) → EndFits self.old.end past
            → EndFits self.new.end (come (frame_of frame.entry) past) }
    {
        if !is_ask(frame) && !is_kind(frame.kind, Kind::Dm) {
            self.end.act(frame, Deed::Got);
        }
    }
}

/// Whether a frame is an answer to nothing.
fn is_unasked(frame: FrameView<'_>, answered: &Option<Ask>) -> bool
    ensures { result ≡ (is_answer (frame_of frame.entry) && is_none answered.now) }
{
    is_answer(frame) && answered.is_none()
}

/// A frame passes from an end to the other. Want of memory leaves both as they were.
fn pass(
    alloc: Global,
    n1: u16,
    stamp: Stamp,
    frame: FrameView<'_>,
    from: &mut Side,
    to: &mut Side,
) -> Result<Faults, AllocError>
    ensures fits { OnOk result ((direction : Direction)
        → Passes (caught stamp direction (frame_of frame.entry)) from.old to.old from.new to.new) }
    ensures faults { IfOk result (λ faults. (direction : Direction)
        → JudgedBy n1 (caught stamp direction (frame_of frame.entry)) from.old to.old faults) }
    ensures from { OnErr result (from.new ≡ from.old) }
    ensures to { OnErr result (to.new ≡ to.old) }
{
    from.ask(alloc, stamp, frame)?;
    let in_doubt = is_in_doubt(frame.dlci, to.asks.as_slice());
    let answered = to.take_answer(frame);
    let faults = from.judge(n1, frame, is_unasked(frame, &answered), in_doubt);
    from.send(frame, answered);
    to.get(frame);
    Ok(faults)
}

/// Watches a line: takes each frame that passed, and says what is wrong with it. What it keeps grows with the frames that ask and
/// wait for an answer, and not with those that passed.
#[derive(Drop)]
pub struct Watcher {
    alloc: Global,
    n1: u16,
    initiator: Side,
    responder: Side,
}

impl Model for Watcher {
    ghost use Rattle.modem_show.specs.Judging.{Watch};

    ghost Value = { Watch };

    ghost view = { λ w. record { n1 = w.n1; initiator = w.initiator; responder = w.responder } };
}

impl Watcher {
    /// Begins to watch a line on which frames have at most so many octets of information.
    pub fn new(alloc: Global, n1: u16) -> Result<Watcher, AllocError>
        ensures n1 { IfOk result (λ w. w.n1 ≡ n1) }
        ensures past { IfOk result (λ w. WatchFits w []) }
    {
        let initiator = Side::new(alloc, Role::Initiator)?;
        let responder = Side::new(alloc, Role::Responder)?;
        Ok(Watcher {
            alloc,
            n1,
            initiator,
            responder,
        })
    }

    /// Takes a frame that passed at this time, and says what is wrong with it. Want of memory leaves all as it was.
    pub fn see(
        &mut self,
        stamp: Stamp,
        direction: Direction,
        frame: FrameView<'_>,
    ) -> Result<Faults, AllocError>
        ensures n1 { self.new.n1 ≡ self.old.n1 }
        ensures past { OnOk result ((line : List Caught) → WatchFits self.old line
            → WatchFits self.new (caught stamp direction (frame_of frame.entry) ∷ line)) }
        ensures faults { IfOk result (λ faults. (line : List Caught) → WatchFits self.old line
            → faults ≡ faults_of self.old.n1 line (caught stamp direction (frame_of frame.entry))) }
        ensures err { OnErr result (self.new ≡ self.old) }
    {
        match direction {
            Direction::ToModem => pass(
                self.alloc,
                self.n1,
                stamp,
                frame,
                &mut self.initiator,
                &mut self.responder,
            ),
            Direction::FromModem => pass(
                self.alloc,
                self.n1,
                stamp,
                frame,
                &mut self.responder,
                &mut self.initiator,
            ),
        }
    }

    /// The frames of this way that ask and wait for their answer, the newest first. At the end, those that aren't excused were never
    /// answered.
    pub fn asks(&self, direction: Direction) -> &[Ask]
        ensures { (line : List Caught) → WatchFits self.now line → result.now ≡ waiting (sender direction) line }
    {
        match direction {
            Direction::ToModem => self.initiator.asks.as_slice(),
            Direction::FromModem => self.responder.asks.as_slice(),
        }
    }

    /// The waiting frame that a frame of this way answers: the newest that it can answer.
    pub fn answered(&self, direction: Direction, frame: FrameView<'_>) -> Option<&Ask>
        ensures { (line : List Caught) → WatchFits self.now line → option_copied result
            ≡ answered_by (frame_of frame.entry) (waiting (other (sender direction)) line) }
    {
        match direction {
            Direction::ToModem => answered(self.responder.asks.as_slice(), frame),
            Direction::FromModem => answered(self.initiator.asks.as_slice(), frame),
        }
    }

    /// Whether a connection is open at an end, as far as the line shows what that end has read.
    pub fn is_open(&self, end: Role, dlci: Dlci) -> bool
        ensures { (line : List Caught) → WatchFits self.now line → result ≡ is_open end dlci.number (own end line) }
    {
        self.side(end).is_open(dlci)
    }

    /// Whether an end may not send data on a connection.
    pub fn is_stopped(&self, end: Role, dlci: Dlci) -> bool
        ensures { (line : List Caught) → WatchFits self.now line → result ≡ is_stopped end dlci.number (own end line) }
    {
        self.side(end).is_stopped(dlci)
    }

    /// What is kept of an end.
    fn side(&self, end: Role) -> &End
        ensures { (line : List Caught) → WatchFits self.now line → EndFits result.now (own end line) × (result.now.role ≡ end) }
    {
        match end {
            Role::Initiator => &self.initiator.end,
            Role::Responder => &self.responder.end,
        }
    }
}
