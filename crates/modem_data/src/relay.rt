//! A relay between the line and a driver, with connections that carry data.
ghost use Rattle.std.specs.Prelude.{◌≡◌, ◌≢◌, ◌⊎◌, ◌↔◌, ◌==◌, ◌≤◌, ◌<◌, ◌-◌, ◌++◌, [], ℕ, Bool, List, length, take, drop, min, None, true, false, Err, IfOk, OnOk, OnErr};
ghost use Rattle.mux_frame.specs.Spelling.{IsBadN1};
ghost use Rattle.mux_station.specs.Opening.{is_open};
ghost use Rattle.modem_data.specs.declared.error.DataError.TheVariants as error;
ghost use Rattle.modem_data.specs.DataLanes.{most_to_go};
ghost use Rattle.modem_data.specs.Switching.{Idle as idle, is_behind_lines, is_idle, takes_given};
ghost use Rattle.modem_data.specs.Passing.{Came, Went, Flowed, Left, Lost, Began, EndedLane, Gave, Read, IsDue, IsOver, carries, data_came, data_read, given, left, to_go, unread, wire, flow_frame};
ghost use Rattle.modem_data.specs.PipeSets.{HasPipe, IsAmong, IsNotData, IsTwice, NoneLeaves, OfEachPast, numbers};
ghost use Rattle.modem_data.specs.Hops.{Fed, Handed, Took, Wrote, Passed, Hops, HopsBy, BeginsAs, BeginsRelay, AllCame, HoldsNothing, LineIn, PassesOn, DriverOut, OneOut};

use crate::begin::{Begin, Until};
use crate::error::DataError;
use crate::octets::Octets;
use crate::passing::{pass_in, pass_out};
use crate::pipe::Reading;
use crate::pipe_set::Pipes;
use crate::watch::info_cr;
use mux_frame::laws::deframed;
use mux_frame::{Deframer, Dlci, FrameView, Kind, N1};
use mux_station::Role;
use std::alloc::{AllocError, Global};
use std::marker::Model;

mod out;
mod through;

/// A relay between a line and a driver: it passes the frames of each on to the other, but for data.
///
/// - `new` and `with_role` name the connections that may carry data. `begin` begins a lane on one, at once, behind the next CONNECT, behind
///   the next prompt or behind the driver's next CONNECT, and says whether the loss of the carrier ends it; `lines` ends it.
/// - Hand what the line gave to `from_line`. Give the driver what `for_driver` lends, and say by `handed` how much.
/// - Where `wants_driver` says so, hand the driver's octets to `feed_driver`. While `ready` says so, write what `for_line` lends,
///   and say by `wrote` how much; or have `put_out` write it to a room.
/// - `give` takes data to be sent, `send` takes it and writes to a room, `read` gives what came, and says where the lane is over.
/// - `lost` says that the line failed: each lane is over, and what came stays readable.
#[derive(Drop)]
pub struct Relay {
    outer: Deframer,
    inner: Deframer,
    pipes: Pipes,
    to_driver: Octets,
    to_line: Octets,
    n1: u16,
}

impl Model for Relay {
    ghost use Rattle.modem_data.specs.Hops.{Relay};
    ghost use Rattle.modem_data.specs.Relays.{KeepsN1};

    ghost Value = { Relay };

    ghost view = { λ r. record {
      outer = r.outer;
      inner = r.inner;
      pipes = r.pipes;
      to_driver = r.to_driver.items;
      to_line = r.to_line.items;
    } };

    ghost invariant = { λ r. KeepsN1 r.n1 r.to_line.capacity r.outer r.inner };
}

/// What came of octets that were given.
#[derive(Clone, Copy)]
pub struct Input {
    /// So many were taken.
    pub taken: usize,
    /// Memory was refused: a frame is at hand that hasn't passed.
    pub is_blocked: bool,
}

/// What came of sending.
#[derive(Clone, Copy)]
pub struct Sent {
    /// So many octets of data were taken.
    pub taken: usize,
    /// The room has so many octets for the line.
    pub count: usize,
}

impl Relay {
    /// Nothing has passed the client's end of the line, the initiator's (27.010, 5.2.1.2). As `with_role` has it, and refused so.
    pub fn new(alloc: Global, n1: u16, named: &[Dlci]) -> Result<Relay, DataError>
        ensures past { IfOk result (λ v. BeginsRelay n1 (numbers named.now) v) }
        ensures bad_n1 { result ≡ Err error.BadN1 → IsBadN1 n1 }
        ensures many { result ≡ Err error.TooMany → 8 < length named.now }
        ensures control { result ≡ Err error.ControlChannel → IsAmong (numbers named.now) (length named.now) 0 }
        ensures twice { result ≡ Err error.Twice → IsTwice (numbers named.now) }
        ensures others { OnErr result ((result ≡ Err error.BadN1) ⊎ ((result ≡ Err error.TooMany) ⊎ ((result ≡ Err error.ControlChannel)
            ⊎ ((result ≡ Err error.Twice) ⊎ (result ≡ Err error.NoMemory))))) }
    {
        Relay::with_role(alloc, Role::Initiator, n1, named)
    }

    /// Nothing has passed this end of the line: the client's is `Initiator`, the modem's `Responder`. These connections may carry data; no
    /// lane is under way. N1 is the most octets of information that a frame may have. Refused, in this order: 2 BadN1 where N1 isn't 31
    /// to 32767; 5 TooMany where there are more than 8 connections; 3 ControlChannel where 0 is among them; 4 Twice where one is named
    /// twice; 1 NoMemory.
    #[tactic(auto, using(crate::proofs::Relays::begins))]
    pub fn with_role(alloc: Global, role: Role, n1: u16, named: &[Dlci]) -> Result<Relay, DataError>
        ensures past { IfOk result (λ v. BeginsAs role n1 (numbers named.now) v) }
        ensures bad_n1 { result ≡ Err error.BadN1 → IsBadN1 n1 }
        ensures many { result ≡ Err error.TooMany → 8 < length named.now }
        ensures control { result ≡ Err error.ControlChannel → IsAmong (numbers named.now) (length named.now) 0 }
        ensures twice { result ≡ Err error.Twice → IsTwice (numbers named.now) }
        ensures others { OnErr result ((result ≡ Err error.BadN1) ⊎ ((result ≡ Err error.TooMany) ⊎ ((result ≡ Err error.ControlChannel)
            ⊎ ((result ≡ Err error.Twice) ⊎ (result ≡ Err error.NoMemory))))) }
    {
        if N1::new(n1).is_none() {
            return Err(DataError::BadN1);
        }
        let pipes = Pipes::new(alloc, role, named)?;
        let Ok(outer) = Deframer::new(alloc, n1) else {
            return Err(DataError::NoMemory);
        };
        let Ok(inner) = Deframer::new(alloc, n1) else {
            return Err(DataError::NoMemory);
        };
        let to_line = Octets::with_capacity(alloc, usize::from(n1) + 7)?;
        Ok(Relay {
            outer,
            inner,
            pipes,
            to_driver: Octets::new(alloc),
            to_line,
            n1,
        })
    }

    /// Begins a lane of a connection, in the present opening or, while the connection is shut, in the next: at once, by its next
    /// CONNECT line, by its next prompt or by the driver's next CONNECT line. `until` says whether the loss of the carrier ends it, as
    /// `lines` does. Refused, in this order: 6 NotData where the connection wasn't named; 7 UnderWay where a lane is under way; 8
    /// Unread where data of the last one wasn't read.
    pub fn begin(&mut self, dlci: Dlci, how: Begin, until: Until) -> Result<(), DataError>
        ensures began { OnOk result (Hops self.old self.new (Passed (Began dlci.number how until))) }
        ensures not_data { result ≡ Err error.NotData → IsNotData self.old.pipes dlci.number }
        ensures under_way { result ≡ Err error.UnderWay → OfEachPast self.old.pipes (λ role past. is_idle (carries role dlci.number past) ≡ false) }
        ensures unread { result ≡ Err error.Unread → OfEachPast self.old.pipes (λ role past.
            (carries role dlci.number past ≡ idle) × (data_read dlci.number past ≢ data_came role dlci.number past)) }
        ensures others { OnErr result ((result ≡ Err error.NotData) ⊎ ((result ≡ Err error.UnderWay) ⊎ (result ≡ Err error.Unread))) }
        ensures err { OnErr result (self.new ≡ self.old) }
    {
        self.pipes.begin(dlci, how, until)
    }

    /// Ends the lane of a connection, if there is one. From the next frame on lines come and go again. What was given and hasn't left
    /// isn't sent; what came stays readable. Of a lane by prompt a `>` may be held back, which may have been the prompt's: it goes to
    /// the driver before the next octets, and the lane is over with these. Refused with 6 NotData where the connection wasn't
    /// named.
    pub fn lines(&mut self, dlci: Dlci) -> Result<(), DataError>
        ensures ended { OnOk result (Hops self.old self.new (Passed (EndedLane dlci.number))) }
        ensures not_data { OnErr result ((result ≡ Err error.NotData) × IsNotData self.old.pipes dlci.number) }
        ensures err { OnErr result (self.new ≡ self.old) }
    {
        self.pipes.lines(dlci)
    }

    /// Whether data is under way on a connection: the lane's CONNECT line, the other end's or the driver's own, has ended, its data came at
    /// once, or its prompt has come.
    pub fn is_behind_lines(&self, dlci: Dlci) -> bool
        ensures { OfEachPast self.now.pipes (λ role past. result ≡ is_behind_lines (carries role dlci.number past)) }
    {
        self.pipes.is_behind_lines(dlci)
    }

    /// Whether the relay can take octets of the driver: no octets wait for the line, and no frame of the driver's is at hand.
    pub fn wants_driver(&mut self) -> bool
        ensures wants { result ≡ true → (self.old.to_line ≡ []) × (self.old.inner.next ≡ None) }
        ensures first { result ≡ false → (0 < length self.old.to_line) ⊎ (self.old.inner.next ≢ None) }
        ensures same { self.new ≡ self.old }
    {
        self.to_line.is_empty() && self.inner.peek().is_none()
    }

    /// Gives the first octets of data that wait, as many as there is room for. Says how many, and whether the lane is over and read to
    /// its end. Refused with 6 NotData where the connection wasn't named.
    pub fn read(&mut self, dlci: Dlci, room: &mut [u8]) -> Result<Reading, DataError>
        ensures count { IfOk result (λ r. OfEachPast self.old.pipes (λ role past. r.count ≡ min (unread role dlci.number past) (length room.old))) }
        ensures read { IfOk result (λ r. Hops self.old self.new (Passed (Read dlci.number (take r.count room.new)))) }
        ensures over { IfOk result (λ r. OfEachPast self.new.pipes (λ role past. r.is_over ≡ true ↔ IsOver role dlci.number past)) }
        ensures behind { IfOk result (λ r. drop r.count room.new ≡ drop r.count room.old) }
        ensures not_data { OnErr result ((result ≡ Err error.NotData) × IsNotData self.old.pipes dlci.number) }
        ensures err { OnErr result ((self.new ≡ self.old) × (room.new ≡ room.old)) }
    {
        self.pipes.read(dlci, room)
    }

    /// Takes octets to be sent as data from the front of these, until 4096 wait, and says how many. Of a lane by prompt they are the
    /// text, with the octet that ends it (1A, or 1B to give up): they leave behind the prompt. Refused, in this order: 6 NotData where
    /// the connection wasn't named; 9 NotOpen where it isn't open; 10 Lines where no lane is under way, or no octet came behind its CONNECT
    /// line, or the driver's own CONNECT line hasn't ended.
    pub fn give(&mut self, dlci: Dlci, octets: &[u8]) -> Result<usize, DataError>
        ensures count { IfOk result (λ count. OfEachPast self.old.pipes (λ role past.
            count ≡ min (length octets.now) (most_to_go - (length (given dlci.number past) - length (left dlci.number past))))) }
        ensures gave { IfOk result (λ count. Hops self.old self.new (Passed (Gave dlci.number (take count octets.now)))) }
        ensures not_data { result ≡ Err error.NotData → IsNotData self.old.pipes dlci.number }
        ensures not_open { result ≡ Err error.NotOpen → OfEachPast self.old.pipes (λ role past. is_open role dlci.number (wire past) ≡ false) }
        ensures takes_none { result ≡ Err error.Lines → OfEachPast self.old.pipes (λ role past. takes_given (carries role dlci.number past) ≡ false) }
        ensures lets { OnOk result (OfEachPast self.old.pipes (λ role past. (is_open role dlci.number (wire past) ≡ true)
            × (takes_given (carries role dlci.number past) ≡ true))) }
        ensures named { (result ≡ Err error.NotOpen) ⊎ (result ≡ Err error.Lines) → HasPipe self.old.pipes dlci.number }
        ensures open_there { result ≡ Err error.Lines → OfEachPast self.old.pipes (λ role past. is_open role dlci.number (wire past) ≡ true) }
        ensures others { OnErr result ((result ≡ Err error.NotData) ⊎ ((result ≡ Err error.NotOpen) ⊎ (result ≡ Err error.Lines))) }
        ensures err { OnErr result (self.new ≡ self.old) }
    {
        self.pipes.give(dlci, octets)
    }

    /// How many octets given on a connection haven't left. Once its lane is over they are never sent. Refused with 6 NotData
    /// where the connection wasn't named.
    pub fn to_go(&self, dlci: Dlci) -> Result<usize, DataError>
        ensures count { IfOk result (λ count. OfEachPast self.now.pipes (λ role past. count ≡ to_go dlci.number past)) }
        ensures not_data { OnErr result ((result ≡ Err error.NotData) × IsNotData self.now.pipes dlci.number) }
    {
        self.pipes.to_go(dlci)
    }

    /// The line was lost: each lane is over, and no data leaves.
    pub fn lost(&mut self)
        ensures { Hops self.old self.new (Passed Lost) }
    {
        self.pipes.lost();
    }

    /// Takes octets of the line, as many as there is room for, and says how many.
    fn feed_line(&mut self, octets: &[u8]) -> usize
        ensures fed { Hops self.old self.new (Fed (take result octets.now)) }
        ensures few { result ≤ length octets.now }
        ensures some { self.old.outer.next ≡ None → 0 < length octets.now → 0 < result }
    {
        self.outer.feed(octets)
    }

    /// Takes octets of the driver, as many as there is room for, and says how many. There is room while no frame of the driver's
    /// is at hand, so also once `ready` says no.
    pub fn feed_driver(&mut self, octets: &[u8]) -> usize
        ensures took { Hops self.old self.new (Took (take result octets.now)) }
        ensures few { result ≤ length octets.now }
        ensures some { self.old.inner.next ≡ None → 0 < length octets.now → 0 < result }
    {
        self.inner.feed(octets)
    }

    /// The octets that wait for the driver, lent.
    pub fn for_driver(&self) -> &[u8]
        ensures { result.now ≡ self.now.to_driver }
    {
        self.to_driver.as_slice()
    }

    /// Drops the first `count` octets for the driver, which took them. Requires that there are as many.
    pub fn handed(&mut self, count: usize)
        requires { count ≤ length self.old.to_driver }
        ensures hands { Hops self.old self.new (Handed (take count self.old.to_driver)) }
        ensures rest { self.new ≡ record self.old { to_driver = drop count self.old.to_driver } }
    {
        self.to_driver.pass(count);
    }

    /// The octets that wait for the line, lent.
    pub fn for_line(&self) -> &[u8]
        ensures { result.now ≡ self.now.to_line }
    {
        self.to_line.as_slice()
    }

    /// Drops the first `count` octets for the line, which took them. Requires that there are as many.
    pub fn wrote(&mut self, count: usize)
        requires { count ≤ length self.old.to_line }
        ensures writes { Hops self.old self.new (Wrote (take count self.old.to_line)) }
        ensures rest { self.new ≡ record self.old { to_line = drop count self.old.to_line } }
    {
        self.to_line.pass(count);
    }

    /// Passes the line's frame at hand, if there is one, and says whether there was one. Refusal: no memory, which changes nothing.
    fn pass_line(&mut self) -> Result<bool, AllocError>
        ensures came { IfOk result (λ one. one ≡ true → HopsBy self.old self.new (λ f. Passed (Came f))) }
        ensures none { IfOk result (λ one. one ≡ false → AllCame self.old) }
        ensures at_hand { IfOk result (λ one. one ≡ false → self.old.outer.next ≡ None) }
        ensures shorter { IfOk result (λ one. one ≡ true
            → length self.new.outer.undecided < length self.old.outer.undecided) }
        ensures still { IfOk result (λ one. one ≡ false → self.new ≡ self.old) }
        ensures blocks { OnErr result (self.old.outer.next ≢ None) }
        ensures err { OnErr result (self.new ≡ self.old) }
    {
        deframed();
        pass_in(
            &mut self.outer,
            &mut self.pipes,
            self.n1,
            &mut self.to_driver,
        )
    }

    /// Passes all frames of the line that are at hand. Refusal: no memory, where the frame that needed it stays at hand.
    #[tactic(auto, using(crate::proofs::Relays::passes_none, crate::proofs::Relays::passes_one))]
    fn pass_all(&mut self) -> Result<(), AllocError>
        ensures passes { PassesOn self.old self.new }
        ensures all { OnOk result (AllCame self.new) }
        ensures blocks { OnErr result (self.new.outer.next ≢ None) }
        ensures none { OnOk result (self.new.outer.next ≡ None) }
    {
        while self.pass_line()? {}
        Ok(())
    }

    /// Takes octets of the line and passes the frames that they make. Where it isn't blocked, it took all, and every frame passed.
    /// Where it is, for want of memory, it keeps what it took: call it again with the octets behind those, or with none.
    #[tactic(auto, using(crate::proofs::Relays::line_none, crate::proofs::Relays::line_on))]
    pub fn from_line(&mut self, octets: &[u8]) -> Input
        ensures takes { LineIn self.old self.new (take result.taken octets.now) }
        ensures few { result.taken ≤ length octets.now }
        ensures taken { result.is_blocked ≡ false → result.taken ≡ length octets.now }
        ensures blocks { result.is_blocked ≡ true → self.new.outer.next ≢ None }
        ensures all { result.is_blocked ≡ false → AllCame self.new }
        ensures none { result.is_blocked ≡ false → self.new.outer.next ≡ None }
    {
        let mut taken = 0;
        loop {
            if self.pass_all().is_err() {
                return Input {
                    taken,
                    is_blocked: true,
                };
            }
            if taken == octets.len() {
                return Input {
                    taken,
                    is_blocked: false,
                };
            }
            taken += self.feed_line(&octets[taken..]);
        }
    }

    /// Passes the driver's frame at hand, if there is one, and says whether there was one. Requires that no octets wait for the line.
    fn pass_driver(&mut self) -> bool
        requires { (length self.old.to_line == 0) ≡ true }
        ensures went { result ≡ true → HopsBy self.old self.new (λ f. Passed (Went f)) }
        ensures none { result ≡ false → self.old.inner.next ≡ None }
        ensures some { result ≡ true → 0 < length self.new.to_line }
        ensures still { result ≡ false → self.new ≡ self.old }
    {
        pass_out(&mut self.inner, &mut self.pipes, self.n1, &mut self.to_line)
    }

    /// Puts the next frame of data for the line, where one may leave, and says whether there was one. Requires that every frame of
    /// the driver's has gone, and that no octets wait for the line.
    #[tactic(auto, using(crate::proofs::FrameRoom::room_for, crate::proofs::PipeSetCalls::none_leaves))]
    fn put_data(&mut self) -> bool
        requires first { self.old.inner.next ≡ None }
        requires none_wait { (length self.old.to_line == 0) ≡ true }
        ensures left { result ≡ true → HopsBy self.old self.new (λ f. Passed (Left f)) }
        ensures none { result ≡ false → OfEachPast self.old.pipes (λ role past. (d : ℕ) → NoneLeaves role past d) }
        ensures some { result ≡ true → 0 < length self.new.to_line }
        ensures still { result ≡ false → self.new ≡ self.old }
    {
        deframed();
        let Some(place) = self.pipes.next() else {
            return false;
        };
        self.to_line.fit(usize::from(self.n1) + 7);
        let frame = self.pipes.next_frame(place, self.n1);
        self.to_line.put_frame(frame, self.n1);
        self.pipes.leave(place, self.n1);
        true
    }

    /// Says to the other end that it may not go on with data of a connection, where 8192 octets wait, or that it may, where fewer than
    /// 4096 do or the lane is over, by an MSC, and answers whether it said anything. Requires that every frame of the driver's has gone, and that no octets
    /// wait.
    #[tactic(auto, using(crate::proofs::FrameRoom::room_for))]
    fn put_flow(&mut self) -> bool
        requires first { self.old.inner.next ≡ None }
        requires none_wait { (length self.old.to_line == 0) ≡ true }
        ensures flowed { result ≡ true → HopsBy self.old self.new (λ f. Passed (Flowed f)) }
        ensures none { result ≡ false → OfEachPast self.old.pipes (λ role past. (d : ℕ) (go : Bool) → ¬ IsDue role d past go) }
        ensures some { result ≡ true → 0 < length self.new.to_line }
        ensures still { result ≡ false → self.new ≡ self.old }
    {
        deframed();
        let Some(flow) = self.pipes.due() else {
            return false;
        };
        self.to_line.fit(11);
        let role = self.pipes.role();
        let info = flow_info(role, flow.dlci, flow.go);
        let frame = FrameView {
            dlci: Dlci::CONTROL,
            kind: Kind::Uih,
            cr: info_cr(role),
            pf: false,
            info: &info,
        };
        self.to_line.put_frame(frame, self.n1);
        self.pipes.flowed(flow, frame);
        true
    }

    /// Readies the driver's next frame for the line, if one is at hand and no octets wait for the line. Says whether octets wait.
    #[tactic(auto, using(crate::proofs::Relays::driver_waits, crate::proofs::Relays::driver_goes, crate::proofs::Relays::driver_none))]
    pub fn ready_driver(&mut self) -> bool
        ensures one { DriverOut self.old self.new }
        ensures some { result ≡ true → 0 < length self.new.to_line }
        ensures none { result ≡ false → (length self.old.to_line ≡ 0) × (self.old.inner.next ≡ None) }
        ensures still { result ≡ false → self.new ≡ self.old }
    {
        deframed();
        if !self.to_line.is_empty() {
            return true;
        }
        self.pass_driver()
    }

    /// Readies the next frame for the line that isn't of data, where no octets wait for it: the driver's, or else one of flow control.
    /// Says whether octets wait.
    #[tactic(auto, using(crate::proofs::Relays::out_waits, crate::proofs::Relays::out_goes, crate::proofs::Relays::out_flows))]
    fn ready_first(&mut self) -> bool
        ensures one { OneOut self.old self.new }
        ensures some { result ≡ true → 0 < length self.new.to_line }
        ensures none_wait { result ≡ false → (length self.old.to_line == 0) ≡ true }
        ensures no_frame { result ≡ false → self.old.inner.next ≡ None }
        ensures none_due { result ≡ false → OfEachPast self.old.pipes (λ role past. (d : ℕ) (go : Bool) → ¬ IsDue role d past go) }
        ensures none_passed { result ≡ false → self.new ≡ self.old }
        ensures still { 0 < length self.old.to_line → self.new ≡ self.old }
    {
        if !self.to_line.is_empty() {
            return true;
        }
        if self.pass_driver() {
            return true;
        }
        self.put_flow()
    }

    /// Readies the next frame for the line where no octets wait for it: the driver's, or else one of flow control, or else one of data,
    /// of the connection whose turn it is. Says whether octets wait. Where none do, nothing may go to the line.
    #[tactic(auto, using(crate::proofs::Relays::out_leaves))]
    pub fn ready(&mut self) -> bool
        ensures one { OneOut self.old self.new }
        ensures some { result ≡ true → 0 < length self.new.to_line }
        ensures none { result ≡ false → HoldsNothing self.new }
        ensures still { 0 < length self.old.to_line → self.new ≡ self.old }
    {
        deframed();
        if self.ready_first() {
            return true;
        }
        self.put_data()
    }
}

/// The information of an MSC that says whether the other end may go on (27.010, 5.4.6.3.7).
fn flow_info(role: Role, dlci: Dlci, go: bool) -> [u8; 4]
    ensures { result ≡ (flow_frame role dlci.number go).info }
{
    let _ = role;
    let signals = if go { 0x8D } else { 0x8F };
    [0xE3, 5, 4 * dlci.number() + 3, signals]
}
