//! The connections that carry data.
ghost use Rattle.std.specs.Prelude.{◌≡◌, ◌≢◌, ◌⊎◌, ◌↔◌, ◌<◌, ◌≤◌, ◌+◌, ◌-◌, ◌==◌, ℕ, Bool, [], All, length, map, min, take, drop, true, false, None, Some, Err, IfOk, IfSome, OnOk, OnErr, slice_index_or};
ghost use Rattle.mux_frame.specs.Frames.{Frame, frame_of};
ghost use Rattle.mux_frame.specs.declared.frame.Kind.TheVariants.{Uih};
ghost use Rattle.mux_station.specs.Opening.{is_open};
ghost use Rattle.mux_station.specs.Written.{is_data_frame};
ghost use Rattle.modem_data.specs.declared.error.DataError.TheVariants as error;
ghost use Rattle.modem_data.specs.DataLanes.{most_to_go};
ghost use Rattle.modem_data.specs.Switching.{Idle as idle, IsWithin, is_behind_lines, is_idle, takes_given};
ghost use Rattle.modem_data.specs.Passing.{Came, Went, Flowed, Lost, Began, EndedLane, Gave, Read, IsDue, IsOver, carries, data_came, data_read, given, left, to_go, unread, wire, flow_frame};
ghost use Rattle.modem_data.specs.Pipes.{Pipe as Kept, PipeFits, HasNoneToSend, MayLeave, SaysFlow, data_of, saw_pipe, sent_pipe, flowed_pipe, lost_pipe};
ghost use Rattle.modem_data.specs.PipeSets.{AllHand, AllLead, AreApart, BeginsAll, IsAmong, IsTwice, HasPipe, IsFlowOf, IsFreeAt, IsNext, IsNextFrame, IsNotData, NoneLeaves, NoneOf, NonesIn, OfEachPast, LeavesInTurn, connections, numbers};

use crate::begin::{Begin, Until};
use crate::error::DataError;
use crate::pipe::{Pipe, Reading};
use crate::switch::LineCut;
use mux_frame::{Dlci, FrameView, Kind};
use mux_station::Role;
use std::alloc::{AllocError, Global};
use std::marker::Model;

/// Which end of the line it is, the connections that carry data, each once, and the place from which on the next is looked for that may send.
#[derive(Drop)]
pub(crate) struct Pipes {
    role: Role,
    each: Vec<Pipe>,
    turn: usize,
}

impl Model for Pipes {
    ghost use Rattle.std.specs.Prelude.{◌≤◌, length};
    ghost use Rattle.modem_data.specs.PipeSets.{PipeSet};

    ghost Value = { PipeSet };

    ghost view = { λ p. record { role = p.role; each = p.each.items; turn = p.turn } };

    ghost invariant = { λ p. p.turn ≤ length p.each.items };
}

/// What is to be said of the flow of a connection: that the other end may go on, or that it may not.
#[derive(Clone, Copy)]
pub(crate) struct Flow {
    pub dlci: Dlci,
    pub go: bool,
}

/// So many connections may carry data.
const MOST_DATA: usize = 8;

impl Pipes {
    /// Nothing has passed this end of the line, and no lane is under way. These connections may carry data. Refused with 5 TooMany where they are more
    /// than 8, else with 3 ControlChannel where 0 is among them, else with 4 Twice, and with 1 NoMemory.
    #[tactic(auto, using(crate::proofs::PipeSets::all_begin))]
    pub fn new(alloc: Global, role: Role, named: &[Dlci]) -> Result<Pipes, DataError>
        ensures past { IfOk result (λ v. BeginsAll role (numbers named.now) v) }
        ensures many { result ≡ Err error.TooMany → 8 < length named.now }
        ensures control { result ≡ Err error.ControlChannel → IsAmong (numbers named.now) (length named.now) 0 }
        ensures twice { result ≡ Err error.Twice → IsTwice (numbers named.now) }
        ensures others { OnErr result ((result ≡ Err error.TooMany) ⊎ ((result ≡ Err error.ControlChannel)
            ⊎ ((result ≡ Err error.Twice) ⊎ (result ≡ Err error.NoMemory)))) }
    {
        if named.len() > MOST_DATA {
            return Err(DataError::TooMany);
        }
        if is_among(named, named.len(), 0) {
            return Err(DataError::ControlChannel);
        }
        if !are_apart(named) {
            return Err(DataError::Twice);
        }
        Ok(Pipes {
            role,
            each: new_pipes(alloc, role, named)?,
            turn: 0,
        })
    }

    /// Which end of the line it is.
    pub fn role(&self) -> Role
        ensures { result ≡ self.now.role }
    {
        self.role
    }

    /// A frame came from the line. Of information on a lane, says which octets are lines, for the driver, and keeps the data. `None`:
    /// all of the frame is the driver's. Refusal: no memory, which changes nothing.
    #[tactic(auto, using(crate::proofs::PipeSets::all_saw, crate::proofs::PipeSets::control_hands, crate::proofs::PipeSets::none_came, crate::proofs::PipeSets::none_hands, crate::proofs::PipeSets::one_info, crate::proofs::PipeSets::one_hand, crate::proofs::PipeSets::own_info))]
    pub fn came(&mut self, frame: FrameView<'_>) -> Result<Option<LineCut>, AllocError>
        ensures leads { OnOk result (AllLead self.old self.new (Came (frame_of frame.entry))) }
        ensures hands { IfOk result (λ cut. AllHand self.old (frame_of frame.entry) cut) }
        ensures within { IfOk result (λ cut. IsWithin cut (length frame.entry.info.now)) }
        ensures err { OnErr result (self.new ≡ self.old) }
    {
        if !is_data_frame(frame) {
            see_all(&mut self.each, frame);
            return Ok(None);
        }
        let Some(place) = place_of(&self.each, frame.dlci) else {
            return Ok(None);
        };
        self.each[place].info(frame)
    }

    /// A frame of the driver goes to the line.
    #[tactic(auto, using(crate::proofs::PipeSets::all_went))]
    pub fn went(&mut self, frame: FrameView<'_>)
        ensures { AllLead self.old self.new (Went (frame_of frame.entry)) }
    {
        send_all(&mut self.each, frame);
    }

    /// The line was lost: each lane is over.
    #[tactic(auto, using(crate::proofs::PipeSets::all_lost))]
    pub fn lost(&mut self)
        ensures { AllLead self.old self.new Lost }
    {
        lose_all(&mut self.each);
    }

    /// Begins a lane of a connection, as `Pipe::begin` does. Refused with 6 NotData where there is no pipe of it.
    #[tactic(auto, using(crate::proofs::PipeSetCalls::one_began, crate::proofs::PipeSetCalls::not_data, crate::proofs::PipeSetCalls::under_way_at, crate::proofs::PipeSetCalls::unread_at))]
    pub fn begin(&mut self, dlci: Dlci, how: Begin, until: Until) -> Result<(), DataError>
        ensures began { OnOk result (AllLead self.old self.new (Began dlci.number how until)) }
        ensures has { OnOk result (HasPipe self.old dlci.number) }
        ensures not_data { result ≡ Err error.NotData → IsNotData self.old dlci.number }
        ensures under_way { result ≡ Err error.UnderWay → OfEachPast self.old (λ role past. is_idle (carries role dlci.number past) ≡ false) }
        ensures unread { result ≡ Err error.Unread → OfEachPast self.old (λ role past.
            (carries role dlci.number past ≡ idle) × (data_read dlci.number past ≢ data_came role dlci.number past)) }
        ensures others { OnErr result ((result ≡ Err error.NotData) ⊎ ((result ≡ Err error.UnderWay) ⊎ (result ≡ Err error.Unread))) }
        ensures err { OnErr result (self.new ≡ self.old) }
    {
        let Some(place) = place_of(&self.each, dlci) else {
            return Err(DataError::NotData);
        };
        self.each[place].begin(how, until)
    }

    /// Ends the lane of a connection, as `Pipe::lines` does. Refused with 6 NotData where there is no pipe of it.
    #[tactic(auto, using(crate::proofs::PipeSetCalls::one_ended, crate::proofs::PipeSetCalls::not_data))]
    pub fn lines(&mut self, dlci: Dlci) -> Result<(), DataError>
        ensures ended { OnOk result (AllLead self.old self.new (EndedLane dlci.number)) }
        ensures not_data { OnErr result ((result ≡ Err error.NotData) × IsNotData self.old dlci.number) }
        ensures err { OnErr result (self.new ≡ self.old) }
    {
        let Some(place) = place_of(&self.each, dlci) else {
            return Err(DataError::NotData);
        };
        self.each[place].lines();
        Ok(())
    }

    /// Whether a connection is one of these, and data is under way on it.
    #[tactic(auto, using(crate::proofs::PipeSetCalls::behind_at, crate::proofs::PipeSetCalls::not_behind))]
    pub fn is_behind_lines(&self, dlci: Dlci) -> bool
        ensures { OfEachPast self.now (λ role past. result ≡ is_behind_lines (carries role dlci.number past)) }
    {
        let Some(place) = place_of(&self.each, dlci) else {
            return false;
        };
        self.each[place].is_behind_lines()
    }

    /// Gives the first octets of data that wait, as `Pipe::read` does. Refused with 6 NotData where there is no pipe of it.
    #[tactic(auto, using(crate::proofs::PipeSetCalls::one_read, crate::proofs::PipeSetCalls::not_data, crate::proofs::PipeSetCalls::reads_at, crate::proofs::PipeSetCalls::over_at))]
    pub fn read(&mut self, dlci: Dlci, room: &mut [u8]) -> Result<Reading, DataError>
        ensures count { IfOk result (λ r. OfEachPast self.old (λ role past. r.count ≡ min (unread role dlci.number past) (length room.old))) }
        ensures leads { IfOk result (λ r. AllLead self.old self.new (Read dlci.number (take r.count room.new))) }
        ensures over { IfOk result (λ r. OfEachPast self.new (λ role past. r.is_over ≡ true ↔ IsOver role dlci.number past)) }
        ensures behind { IfOk result (λ r. drop r.count room.new ≡ drop r.count room.old) }
        ensures not_data { OnErr result ((result ≡ Err error.NotData) × IsNotData self.old dlci.number) }
        ensures err { OnErr result ((self.new ≡ self.old) × (room.new ≡ room.old)) }
    {
        let Some(place) = place_of(&self.each, dlci) else {
            return Err(DataError::NotData);
        };
        Ok(self.each[place].read(room))
    }

    /// Takes the first octets to be sent, as `Pipe::give` does. Refused with 6 NotData where there is no pipe of it.
    #[tactic(auto, using(crate::proofs::PipeSetCalls::one_gave, crate::proofs::PipeSetCalls::not_data, crate::proofs::PipeSetCalls::gives_at, crate::proofs::PipeSetCalls::shut_at, crate::proofs::PipeSetCalls::takes_none_at))]
    pub fn give(&mut self, dlci: Dlci, octets: &[u8]) -> Result<usize, DataError>
        ensures count { IfOk result (λ count. OfEachPast self.old (λ role past.
            count ≡ min (length octets.now) (most_to_go - (length (given dlci.number past) - length (left dlci.number past))))) }
        ensures leads { IfOk result (λ count. AllLead self.old self.new (Gave dlci.number (take count octets.now))) }
        ensures not_data { result ≡ Err error.NotData → IsNotData self.old dlci.number }
        ensures not_open { result ≡ Err error.NotOpen → OfEachPast self.old (λ role past. is_open role dlci.number (wire past) ≡ false) }
        ensures takes_none { result ≡ Err error.Lines → OfEachPast self.old (λ role past. takes_given (carries role dlci.number past) ≡ false) }
        ensures lets { OnOk result (OfEachPast self.old (λ role past. (is_open role dlci.number (wire past) ≡ true)
            × (takes_given (carries role dlci.number past) ≡ true))) }
        ensures named { (result ≡ Err error.NotOpen) ⊎ (result ≡ Err error.Lines) → HasPipe self.old dlci.number }
        ensures open_there { result ≡ Err error.Lines → OfEachPast self.old (λ role past. is_open role dlci.number (wire past) ≡ true) }
        ensures others { OnErr result ((result ≡ Err error.NotData) ⊎ ((result ≡ Err error.NotOpen) ⊎ (result ≡ Err error.Lines))) }
        ensures err { OnErr result (self.new ≡ self.old) }
    {
        let Some(place) = place_of(&self.each, dlci) else {
            return Err(DataError::NotData);
        };
        self.each[place].give(octets)
    }

    /// How many octets were given on a connection and haven't left. Refused with 6 NotData where there is no pipe of it.
    #[tactic(auto, using(crate::proofs::PipeSetCalls::to_go_at, crate::proofs::PipeSetCalls::not_data))]
    pub fn to_go(&self, dlci: Dlci) -> Result<usize, DataError>
        ensures count { IfOk result (λ count. OfEachPast self.now (λ role past. count ≡ to_go dlci.number past)) }
        ensures not_data { OnErr result ((result ≡ Err error.NotData) × IsNotData self.now dlci.number) }
    {
        let Some(place) = place_of(&self.each, dlci) else {
            return Err(DataError::NotData);
        };
        Ok(self.each[place].to_go())
    }

    /// The first connection of which the other end is due to be told something, and what.
    #[tactic(auto, using(crate::proofs::PipeSetCalls::due_of, crate::proofs::PipeSetCalls::none_due))]
    pub fn due(&self) -> Option<Flow>
        ensures some { IfSome result (λ f. OfEachPast self.now (λ role past. IsDue role f.dlci.number past f.go)) }
        ensures none { result ≡ None → OfEachPast self.now (λ role past. (d : ℕ) (go : Bool) → ¬ IsDue role d past go) }
    {
        due_of(&self.each)
    }

    /// The frame that tells it goes to the line. Requires that it is due.
    #[tactic(auto, using(crate::proofs::PipeSetCalls::all_flowed))]
    pub fn flowed(&mut self, flow: Flow, frame: FrameView<'_>)
        requires due { OfEachPast self.old (λ role past. IsDue role flow.dlci.number past flow.go) }
        requires written { frame_of frame ≡ flow_frame self.old.role flow.dlci.number flow.go }
        ensures { AllLead self.old self.new (Flowed (frame_of frame.entry)) }
    {
        flow_all(&mut self.each, frame);
    }

    /// The place of the pipe whose turn it is.
    #[tactic(auto, using(crate::proofs::PipeSetCalls::next_later, crate::proofs::PipeSetCalls::next_round, crate::proofs::PipeSetCalls::none_at_all))]
    pub fn next(&self) -> Option<usize>
        ensures some { IfSome result (λ i. IsNext self.now i) }
        ensures none { result ≡ None → (j : ℕ) (p : Kept) → j < length self.now.each → HasNoneToSend (slice_index_or self.now.each j p) }
    {
        let later = first_ready(&self.each, self.turn, self.each.len());
        if later.is_some() {
            return later;
        }
        first_ready(&self.each, 0, self.turn)
    }

    /// The place of a connection's pipe, where octets given to it may leave at once.
    pub fn free_place(&self, dlci: Dlci) -> Option<usize>
        ensures { IfSome result (λ i. IsFreeAt self.now i dlci.number) }
    {
        let place = place_of(&self.each, dlci)?;
        if self.each[place].is_free() {
            Some(place)
        } else {
            None
        }
    }

    /// A frame of data with these octets, of the pipe at a place. Requires that there is one.
    pub fn data_frame<'a>(&self, place: usize, info: &'a [u8]) -> FrameView<'a>
        requires there { place < length self.now.each }
        ensures frame { (p : Kept) → frame_of result ≡ data_of (slice_index_or self.now.each place p) info.now }
        ensures kind { result.kind ≡ Uih }
        ensures pf { result.pf ≡ false }
        ensures info { result.info.now ≡ info.now }
    {
        self.each[place].data_frame(info)
    }

    /// A frame of data of the pipe at a place went: the next turn is that of the place behind. Requires that there is one.
    pub fn went_through(&mut self, place: usize)
        requires there { place < length self.old.each }
        ensures { self.new ≡ record self.old { turn = place + 1 } }
    {
        if place < self.each.len() {
            self.turn = place + 1;
        }
    }

    /// The next frame of data of the pipe at a place, lent. Requires that it is its turn.
    #[tactic(auto, unfolding(crate::specs::PipeSets::IsNextFrame))]
    pub fn next_frame(&self, place: usize, n1: u16) -> FrameView<'_>
        requires next { IsNext self.now place }
        requires some { 1 ≤ n1 }
        ensures frame { IsNextFrame n1 self.now place (frame_of result) }
        ensures kind { result.kind ≡ Uih }
        ensures pf { result.pf ≡ false }
        ensures short { length result.info.now ≤ n1 }
    {
        self.each[place].next_frame(n1)
    }

    /// It leaves. Requires that it is its turn.
    pub fn leave(&mut self, place: usize, n1: u16)
        requires next { IsNext self.old place }
        requires some { 1 ≤ n1 }
        ensures { (f : Frame) → IsNextFrame n1 self.old place f → LeavesInTurn n1 self.old self.new f }
    {
        self.each[place].leave(n1);
        self.turn = place + 1;
    }
}

/// Whether one of the first so many connections is this. Requires that there are as many.
#[tactic(auto, using(crate::proofs::Named::among, crate::proofs::Named::not_so_far))]
fn is_among(named: &[Dlci], count: usize, number: u8) -> bool
    requires { count ≤ length named.now }
    ensures one { result ≡ true → IsAmong (numbers named.now) count number }
    ensures none { result ≡ false → (j x : ℕ) → j < count → (slice_index_or (numbers named.now) j x == number) ≡ false }
{
    let mut place = 0;
    while place < count {
        if named[place].number() == number {
            return true;
        }
        place += 1;
    }
    false
}

/// Whether no connection is named twice.
#[tactic(auto, using(crate::proofs::Named::twice, crate::proofs::Named::apart_so_far, crate::proofs::Named::apart))]
fn are_apart(named: &[Dlci]) -> bool
    ensures apart { result ≡ true → AreApart (numbers named.now) }
    ensures twice { result ≡ false → IsTwice (numbers named.now) }
{
    let mut place = 0;
    while place < named.len() {
        if is_among(named, place, named[place].number()) {
            return false;
        }
        place += 1;
    }
    true
}

/// A pipe for each connection. Requires that none is 0. Refusal: no memory.
#[tactic(auto, using(crate::proofs::Named::one_more, crate::proofs::Named::each_more, crate::proofs::Named::those_all, crate::proofs::Named::no_control))]
fn new_pipes(alloc: Global, role: Role, named: &[Dlci]) -> Result<Vec<Pipe>, AllocError>
    requires { (j x : ℕ) → j < length named.now → (slice_index_or (numbers named.now) j x == 0) ≡ false }
    ensures connections { IfOk result (λ ps. connections ps.items ≡ numbers named.now) }
    ensures each { IfOk result (λ ps. All (λ (p : Kept). (n1 : ℕ) → PipeFits role n1 p.watch.dlci p []) ps.items) }
{
    let mut each = Vec::with_capacity(alloc, named.len())?;
    let mut place = 0;
    while place < named.len() {
        each.push(Pipe::new(alloc, role, named[place])?)?;
        place += 1;
    }
    Ok(each)
}

/// Whether a frame is information on another connection than 0.
fn is_data_frame(frame: FrameView<'_>) -> bool
    ensures { result ≡ is_data_frame (frame_of frame.entry) }
{
    (frame.kind == Kind::Uih) & (frame.dlci.number() != 0)
}

/// Each sees a frame that is no information of a lane.
fn see_all(pipes: &mut Vec<Pipe>, frame: FrameView<'_>)
    ensures { pipes.new.items ≡ map (saw_pipe (frame_of frame.entry)) pipes.old.items }
{
    for pipe in pipes.iter_mut() {
        pipe.saw(frame);
    }
}

/// Each sees a frame of the driver that goes.
fn send_all(pipes: &mut Vec<Pipe>, frame: FrameView<'_>)
    ensures { pipes.new.items ≡ map (sent_pipe (frame_of frame.entry)) pipes.old.items }
{
    for pipe in pipes.iter_mut() {
        pipe.went(frame);
    }
}

/// Each sees a frame that says something of the flow.
fn flow_all(pipes: &mut Vec<Pipe>, frame: FrameView<'_>)
    ensures { pipes.new.items ≡ map (flowed_pipe (frame_of frame.entry)) pipes.old.items }
{
    for pipe in pipes.iter_mut() {
        pipe.flowed(frame);
    }
}

/// Each sees the loss of the line.
fn lose_all(pipes: &mut Vec<Pipe>)
    ensures { pipes.new.items ≡ map lost_pipe pipes.old.items }
{
    for pipe in pipes.iter_mut() {
        pipe.lost();
    }
}

/// The place of a connection's pipe.
fn place_of(pipes: &[Pipe], dlci: Dlci) -> Option<usize>
    ensures there { IfSome result (λ i. i < length pipes.now) }
    ensures here { IfSome result (λ i. (p : Kept) → (slice_index_or pipes.now i p).watch.dlci ≡ dlci.number) }
    ensures none { result ≡ None → NoneOf (connections pipes.now) dlci.number }
{
    let mut place = 0;
    while place < pipes.len() {
        if pipes[place].dlci().number() == dlci.number() {
            return Some(place);
        }
        place += 1;
    }
    None
}

/// The first pipe from one place on, and before another, that may send. Requires that these are in order, and not past the end.
fn first_ready(pipes: &[Pipe], from: usize, to: usize) -> Option<usize>
    requires few { to ≤ length pipes.now }
    requires order { from ≤ to }
    ensures there { IfSome result (λ i. (from ≤ i) × (i < to)) }
    ensures may { IfSome result (λ i. (p : Kept) → MayLeave (slice_index_or pipes.now i p)) }
    ensures before { IfSome result (λ i. NonesIn pipes.now from i) }
    ensures none { result ≡ None → NonesIn pipes.now from to }
{
    let mut place = from;
    while place < to {
        if pipes[place].is_ready() {
            return Some(place);
        }
        place += 1;
    }
    None
}

/// What is to be said of the flow of the first pipe of which there is something to say.
#[tactic(auto, using(crate::proofs::PipeSetCalls::flow_of))]
fn due_of(pipes: &[Pipe]) -> Option<Flow>
    ensures some { IfSome result (λ f. IsFlowOf pipes.now f.dlci.number f.go) }
    ensures none { result ≡ None → (j : ℕ) (p : Kept) → j < length pipes.now → SaysFlow (slice_index_or pipes.now j p) None }
{
    let mut place = 0;
    while place < pipes.len() {
        if let Some(go) = pipes[place].flow() {
            let dlci = pipes[place].dlci();
            return Some(Flow { dlci, go });
        }
        place += 1;
    }
    None
}
