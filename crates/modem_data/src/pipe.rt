//! A connection that carries data between the line and a caller, beside a driver.
ghost use Rattle.std.specs.Prelude.{◌≡◌, ◌≢◌, ◌⊎◌, IsTrue, nat_le, ◌==◌, ◌&&◌, ◌≤◌, ◌<◌, ◌+◌, ◌-◌, ◌++◌, [], length, take, drop, min, Some, None, true, false, Ok, Err, IfOk, OnOk, OnErr};
ghost use Rattle.mux_frame.specs.Frames.{frame_of};
ghost use Rattle.mux_frame.specs.declared.frame.Kind.TheVariants.{Uih};
ghost use Rattle.mux_station.specs.Written.{is_on};
ghost use Rattle.modem_data.specs.declared.error.DataError.{DataError};
ghost use Rattle.modem_data.specs.declared.error.DataError.TheVariants as error;
ghost use Rattle.modem_data.specs.DataLanes.{most_to_go};
ghost use Rattle.modem_data.specs.Switching.{IsWithin, takes_given};
ghost use Rattle.modem_data.specs.Passing.{Came, Went, Flowed, Left, Lost, Began, EndedLane, Gave, Read, flow_by};
ghost use Rattle.modem_data.specs.Pipes.{BeginsPipe, HandsOn, HasNoneToSend, TakesNone, IsShut, Leads, LeadsLeft, SaysBehind, SaysFlow, SaysLane, SaysOver, HasUnread, IsFree, MayLeave, data_of, next_data, pipe_drops, saw_pipe, sent_pipe, flowed_pipe, lost_pipe};

use crate::begin::{Begin, Until, is_by_carrier};
use crate::error::DataError;
use crate::lane::DataLane;
use crate::switch::LineCut;
use crate::watch::{Watch, info_cr};
use mux_frame::{Dlci, FrameView, Kind};
use mux_station::Role;
use std::alloc::{AllocError, Global};
use std::marker::Model;

/// A connection that carries data, one lane after the other.
#[derive(Drop)]
pub struct Pipe {
    watch: Watch,
    lane: DataLane,
    until: Until,
    held: bool,
    by_driver: bool,
}

impl Model for Pipe {
    ghost use Rattle.modem_data.specs.Pipes.{Pipe};

    ghost Value = { Pipe };

    ghost view = { λ p. record { watch = p.watch; lane = p.lane; until = p.until; held = p.held; by_driver = p.by_driver } };
}

/// What came of reading.
#[derive(Clone, Copy)]
pub struct Reading {
    /// So many octets were read.
    pub count: usize,
    /// The lane is over, and all of its data was read. So it is before the first lane begins.
    pub is_over: bool,
}

impl Pipe {
    /// Nothing has passed this end of the line, and no lane is under way. Requires another connection than 0. Refusal: no memory.
    #[tactic(auto, using(crate::proofs::Pipes::new_fits))]
    pub fn new(alloc: Global, role: Role, dlci: Dlci) -> Result<Pipe, AllocError>
        requires { (dlci.number == 0) ≡ false }
        ensures past { IfOk result (λ v. BeginsPipe role dlci.number v) }
        ensures dlci { IfOk result (λ v. v.watch.dlci ≡ dlci.number) }
    {
        Ok(Pipe {
            watch: Watch::new(role, dlci),
            lane: DataLane::new(alloc)?,
            until: Until::Close,
            held: false,
            by_driver: false,
        })
    }

    /// Its connection.
    pub fn dlci(&self) -> Dlci
        ensures { result.number ≡ self.now.watch.dlci }
    {
        self.watch.dlci()
    }

    /// Begins a lane, in the present opening or, while the connection is shut, in the next: at once, by its next CONNECT line, by its
    /// next prompt or by the driver's next CONNECT line. Refused with 7 UnderWay where a lane is under way, and else with 8 Unread where data of the last one
    /// wasn't read.
    #[tactic(auto, using(crate::proofs::PipeCalls::leads_began, crate::proofs::PipeCalls::a_lane_is, crate::proofs::PipeCalls::has_unread))]
    pub fn begin(&mut self, how: Begin, until: Until) -> Result<(), DataError>
        ensures leads { OnOk result (Leads self.old self.new (Began self.old.watch.dlci how until)) }
        ensures under_way { result ≡ Err error.UnderWay → SaysLane self.old true }
        ensures unread { result ≡ Err error.Unread → HasUnread self.old }
        ensures others { OnErr result ((result ≡ Err error.UnderWay) ⊎ (result ≡ Err error.Unread)) }
        ensures err { OnErr result (self.new ≡ self.old) }
        ensures same { self.new.watch ≡ self.old.watch }
    {
        if !self.lane.is_idle() {
            return Err(DataError::UnderWay);
        }
        if self.lane.waiting() != 0 {
            return Err(DataError::Unread);
        }
        self.lane.begin(how);
        self.until = until;
        Ok(())
    }

    /// Ends the lane, from the next frame on: lines come and go again. What was given and hasn't left isn't sent. Where a `>` is held
    /// back, it goes before the next octets, and the lane is over with these.
    #[tactic(auto, using(crate::proofs::PipeCalls::leads_ended))]
    pub fn lines(&mut self)
        ensures leads { Leads self.old self.new (EndedLane self.old.watch.dlci) }
        ensures same { self.new.watch ≡ self.old.watch }
    {
        self.lane.leave();
    }

    /// Whether data is under way: the lane's CONNECT line, the other end's or the driver's own, has ended, its data came at once, or its prompt has come.
    #[tactic(auto, using(crate::proofs::PipeCalls::says_behind))]
    pub fn is_behind_lines(&self) -> bool
        ensures { SaysBehind self.now result }
    {
        self.lane.is_behind_lines()
    }

    /// A frame came from the line. Of information on a lane, says which octets are lines, for the driver, and keeps the data. `None`:
    /// all of the frame is the driver's. Refusal: no memory, which changes nothing. Memory is asked for only where the kept data has
    /// no room.
    pub fn came(&mut self, frame: FrameView<'_>) -> Result<Option<LineCut>, AllocError>
        ensures leads { OnOk result (Leads self.old self.new (Came (frame_of frame.entry))) }
        ensures hands { IfOk result (λ cut. HandsOn self.old (frame_of frame.entry) cut) }
        ensures within { IfOk result (λ cut. IsWithin cut (length frame.entry.info.now)) }
        ensures err { OnErr result (self.new ≡ self.old) }
    {
        if self.watch.is_own_info(frame) {
            return self.info(frame);
        }
        self.saw(frame);
        Ok(None)
    }

    /// Information on the connection came. Of a lane says which octets are lines, for the driver; any other is the driver's. Refusal:
    /// no memory, which changes nothing. Memory is asked for only where the kept data has no room.
    #[tactic(auto, using(crate::proofs::Pipes::leads_info, crate::proofs::Pipes::leads_shut, crate::proofs::Pipes::leads_idle, crate::proofs::Pipes::hands_lines, crate::proofs::Pipes::hands_shut, crate::proofs::Pipes::hands_idle))]
    pub(crate) fn info(&mut self, frame: FrameView<'_>) -> Result<Option<LineCut>, AllocError>
        requires { is_on Uih self.old.watch.dlci (frame_of frame) ≡ true }
        ensures leads { OnOk result (Leads self.old self.new (Came (frame_of frame.entry))) }
        ensures hands { IfOk result (λ cut. HandsOn self.old (frame_of frame.entry) cut) }
        ensures within { IfOk result (λ cut. IsWithin cut (length frame.entry.info.now)) }
        ensures err { OnErr result (self.new ≡ self.old) }
        ensures same { self.new.watch ≡ self.old.watch }
    {
        if !self.watch.is_info(frame) {
            return Ok(None);
        }
        if self.lane.is_idle() {
            return Ok(None);
        }
        let cut = self.lane.take(frame.info)?;
        Ok(Some(cut))
    }

    /// Whether a frame that came takes the carrier that the lane lasts until.
    fn drops(&self, frame: FrameView<'_>) -> bool
        ensures { result ≡ pipe_drops self.now (frame_of frame.entry) }
    {
        is_by_carrier(self.until) & self.watch.loses_carrier(frame)
    }

    /// Another frame came.
    #[tactic(auto, using(crate::proofs::Pipes::leads_saw, crate::proofs::Pipes::hands_other))]
    pub(crate) fn saw(&mut self, frame: FrameView<'_>)
        ensures after { self.new ≡ saw_pipe (frame_of frame.entry) self.old }
        ensures leads { is_on Uih self.old.watch.dlci (frame_of frame.entry) ≡ false
            → Leads self.old self.new (Came (frame_of frame.entry)) }
        ensures hands { is_on Uih self.old.watch.dlci (frame_of frame.entry) ≡ false
            → HandsOn self.old (frame_of frame.entry) None }
    {
        if self.watch.ends_by_got(frame) {
            self.lane.end();
        } else if self.drops(frame) {
            self.lane.lose_carrier();
        }
        if self.watch.opens(frame) {
            self.held = false;
            self.by_driver = false;
        }
        self.watch.came(frame);
    }

    /// A frame of the driver goes to the line.
    #[tactic(auto, using(crate::proofs::Pipes::leads_went))]
    pub fn went(&mut self, frame: FrameView<'_>)
        ensures after { self.new ≡ sent_pipe (frame_of frame.entry) self.old }
        ensures leads { Leads self.old self.new (Went (frame_of frame.entry)) }
    {
        if self.watch.ends_by_sent(frame) {
            self.lane.end();
        } else if self.watch.is_info(frame) {
            self.lane.wrote(frame.info);
        }
        self.by_driver = self.watch.said(frame).unwrap_or(self.by_driver);
        self.held = self.watch.said(frame).unwrap_or(self.held);
        self.watch.went(frame);
    }

    /// A frame of flow control goes to the line.
    pub fn flowed(&mut self, frame: FrameView<'_>)
        ensures { self.new ≡ flowed_pipe (frame_of frame.entry) self.old }
    {
        if self.watch.ends_by_sent(frame) {
            self.lane.end();
        }
        self.held = self.watch.said(frame).unwrap_or(self.held);
        self.watch.went(frame);
    }

    /// The line was lost: a lane is over.
    #[tactic(auto, using(crate::proofs::Pipes::leads_lost))]
    pub fn lost(&mut self)
        ensures after { self.new ≡ lost_pipe self.old }
        ensures leads { Leads self.old self.new Lost }
    {
        self.lane.end();
        self.watch.lost();
    }

    /// Gives the first octets of data that wait, as many as there is room for. Says how many, and whether a lane is over and read to its
    /// end.
    #[tactic(auto, using(crate::proofs::PipeCalls::leads_read, crate::proofs::PipeCalls::says_over))]
    pub fn read(&mut self, room: &mut [u8]) -> Reading
        ensures count { result.count ≡ min (length self.old.lane.came) (length room.old) }
        ensures leads { Leads self.old self.new (Read self.old.watch.dlci (take result.count room.new)) }
        ensures over { SaysOver self.new result.is_over }
        ensures behind { drop result.count room.new ≡ drop result.count room.old }
        ensures same { self.new.watch ≡ self.old.watch }
    {
        let count = self.lane.read(room);
        let is_over = self.lane.is_idle() & (self.lane.waiting() == 0);
        Reading { count, is_over }
    }

    /// Takes octets to be sent from the front of these, until 4096 wait, and says how many. Refused with 9 NotOpen where the connection
    /// isn't open, and else with 10 Lines where it takes none: no lane is under way, or no octet came behind its CONNECT line.
    #[tactic(auto, using(crate::proofs::PipeCalls::leads_gave, crate::proofs::PipeCalls::is_shut, crate::proofs::PipeCalls::takes_none))]
    pub fn give(&mut self, octets: &[u8]) -> Result<usize, DataError>
        ensures count { IfOk result (λ count. count ≡ min (length octets.now) (most_to_go - length self.old.lane.to_go)) }
        ensures leads { IfOk result (λ count. Leads self.old self.new (Gave self.old.watch.dlci (take count octets.now))) }
        ensures not_open { result ≡ Err error.NotOpen → IsShut self.old }
        ensures takes_none { result ≡ Err error.Lines → TakesNone self.old }
        ensures lets { OnOk result ((self.old.watch.own.is_open ≡ true) × (takes_given self.old.lane.carries ≡ true)) }
        ensures open_there { result ≡ Err error.Lines → self.old.watch.own.is_open ≡ true }
        ensures others { OnErr result ((result ≡ Err error.NotOpen) ⊎ (result ≡ Err error.Lines)) }
        ensures err { OnErr result (self.new ≡ self.old) }
        ensures same { self.new.watch ≡ self.old.watch }
    {
        if !self.watch.is_open() {
            return Err(DataError::NotOpen);
        }
        if !self.lane.takes_given() {
            return Err(DataError::Lines);
        }
        Ok(self.lane.give(octets))
    }

    /// How many octets were given and haven't left.
    pub fn to_go(&self) -> usize
        ensures { result ≡ length self.now.lane.to_go }
    {
        self.lane.to_go().len()
    }

    /// What the other end is due to be told: to stop (`false`) where 8192 octets of a lane wait to be read, then to go on (`true`) where
    /// fewer than 4096 do or the lane is over, and the driver doesn't hold the connection.
    #[tactic(auto, using(crate::proofs::PipeCalls::says_flow, crate::proofs::PipeCalls::shut_flow))]
    pub fn flow(&self) -> Option<bool>
        ensures { SaysFlow self.now result }
    {
        if !self.watch.is_open() {
            return None;
        }
        flow_by(self.held, self.by_driver, self.lane.holding())
    }

    /// Whether a frame of data may leave.
    #[tactic(auto, using(crate::proofs::PipeCalls::none_by_lines, crate::proofs::PipeCalls::none_by_watch, crate::proofs::PipeCalls::none_wait, crate::proofs::PipeCalls::may_go))]
    pub(crate) fn is_ready(&self) -> bool
        ensures none { result ≡ false → HasNoneToSend self.now }
        ensures some { result ≡ true → MayLeave self.now }
    {
        let lets_leave = self.lane.lets_leave();
        if !lets_leave {
            return false;
        }
        if !self.watch.may_leave() {
            return false;
        }
        !self.lane.to_go().is_empty()
    }

    /// Whether octets that are given may leave at once: none waits before them.
    #[tactic(auto, using(crate::proofs::Through::is_free))]
    pub(crate) fn is_free(&self) -> bool
        ensures { result ≡ true → IsFree self.now }
    {
        if !self.watch.is_open() {
            return false;
        }
        if !self.lane.lets_leave() {
            return false;
        }
        let may_leave = self.watch.may_leave();
        if !may_leave {
            return false;
        }
        self.to_go() == 0
    }

    /// A frame of data with these octets.
    pub(crate) fn data_frame<'a>(&self, info: &'a [u8]) -> FrameView<'a>
        ensures frame { frame_of result ≡ data_of self.now info.now }
        ensures kind { result.kind ≡ Uih }
        ensures pf { result.pf ≡ false }
        ensures info { result.info.now ≡ info.now }
    {
        FrameView {
            dlci: self.watch.dlci(),
            kind: Kind::Uih,
            cr: info_cr(self.watch.role()),
            pf: false,
            info,
        }
    }

    /// The next frame of data, lent. Requires that one may leave.
    pub(crate) fn next_frame(&self, n1: u16) -> FrameView<'_>
        requires ready { MayLeave self.now }
        requires some { 1 ≤ n1 }
        ensures frame { frame_of result ≡ next_data n1 self.now }
        ensures kind { result.kind ≡ Uih }
        ensures pf { result.pf ≡ false }
        ensures short { length result.info.now ≤ n1 }
    {
        let octets = self.lane.to_go();
        self.data_frame(&octets[..front(octets, n1)])
    }

    /// It leaves. Requires that it may.
    #[tactic(auto, using(crate::proofs::PipeCalls::leads_left))]
    pub(crate) fn leave(&mut self, n1: u16)
        requires ready { MayLeave self.old }
        requires some { 1 ≤ n1 }
        ensures left { LeadsLeft n1 self.old self.new (next_data n1 self.old) }
        ensures same { self.new.watch ≡ self.old.watch }
    {
        let count = front(self.lane.to_go(), n1);
        self.lane.pass(count);
    }
}

/// How many of some octets go into a frame. Requires that there are some.
fn front(octets: &[u8], n1: u16) -> usize
    requires some { length octets.now ≢ 0 }
    requires n1 { 1 ≤ n1 }
    ensures few { result ≤ length octets.now }
    ensures short { result ≤ n1 }
    ensures taken { take result octets.now ≡ take n1 octets.now }
    ensures dropped { drop result octets.now ≡ drop n1 octets.now }
    ensures fits { IsTrue (nat_le (length (take n1 octets.now)) n1) }
    ensures goes { IsTrue (nat_le 1 (length (take n1 octets.now))) }
{
    let most = usize::from(n1);
    if octets.len() < most {
        octets.len()
    } else {
        most
    }
}

/// What is to be said of the flow where so many octets wait.
fn flow_by(held: bool, by_driver: bool, waiting: usize) -> Option<bool>
    ensures { result ≡ flow_by held by_driver waiting }
{
    if !held {
        return if waiting >= 8192 { Some(false) } else { None };
    }
    if !by_driver && waiting < 4096 {
        Some(true)
    } else {
        None
    }
}
