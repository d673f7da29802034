//! What a connection carries, and its data on both ways.
ghost use Rattle.std.specs.Prelude.{◌≡◌, ◌≤◌, ◌<◌, ◌+◌, ◌-◌, ◌++◌, [], length, take, drop, min, true, IfOk, OnErr};
ghost use Rattle.modem_data.specs.Switching.{is_behind_lines, lets_leave, takes_given, is_idle};
ghost use Rattle.modem_data.specs.DataLanes.{begun_lane, dropped_lane, ended_lane, lane_waiting, left_lane, new_lane, most_to_go, sent_lane, TakesInfo};
ghost use Rattle.modem_data.specs.Passing.{begin_of};

use crate::begin::Begin;
use crate::octets::Octets;
use crate::switch::{LineCut, Switch};
use std::alloc::{AllocError, Global};
use std::marker::Model;

/// How many octets may wait to leave a connection.
pub const MOST_TO_GO: usize = 4096;

/// The room for octets of one way: as many as may wait to leave or as are read from the line at once, and a frame of N1 1500 more, so
/// that they seldom have to be moved and memory seldom has to grow.
const ROOM: usize = MOST_TO_GO + 1536;

/// What a connection carries by now, the data that came and was not read yet, and the octets that were given and have not
/// left yet.
#[derive(Drop)]
pub struct DataLane {
    switch: Switch,
    came: Octets,
    to_go: Octets,
}

impl Model for DataLane {
    ghost use Rattle.std.specs.Prelude.{length};
    ghost use Rattle.modem_data.specs.DataLanes.{DataLane, HasRoom};

    ghost Value = { DataLane };

    ghost view = { λ l. record { carries = l.switch; came = l.came.items; to_go = l.to_go.items } };

    ghost invariant = { λ l. HasRoom (length l.to_go.items) l.to_go.capacity };
}

impl DataLane {
    /// Nothing is data. Refusal: no memory.
    pub fn new(alloc: Global) -> Result<DataLane, AllocError>
        ensures { IfOk result (λ l. l ≡ new_lane) }
    {
        Ok(DataLane {
            switch: Switch::idle(),
            came: Octets::new(alloc),
            to_go: Octets::with_capacity(alloc, ROOM)?,
        })
    }

    /// A lane begins: by a CONNECT line, by a prompt, by a CONNECT line of the driver's own, or at once. What was given before isn't sent.
    pub fn begin(&mut self, how: Begin)
        ensures { self.new ≡ begun_lane self.old (begin_of how) }
    {
        match how {
            Begin::AtOnce => self.switch.to_data(),
            Begin::ByConnect => self.switch.to_lines(),
            Begin::ByPrompt => self.switch.to_prompt(),
            Begin::ByOwnConnect => self.switch.to_own(),
        }
        self.to_go.clear();
    }

    /// The driver writes octets on the connection: its CONNECT line begins the data of a lane that waits for one.
    pub fn wrote(&mut self, info: &[u8])
        ensures { self.new ≡ sent_lane self.old info.now }
    {
        self.switch.wrote(info);
    }

    /// The lane is over. What came and wasn't read stays.
    pub fn end(&mut self)
        ensures { self.new ≡ ended_lane self.old }
    {
        self.switch.to_idle();
    }

    /// The carrier is lost that the lane lasts until: it is over where data is under way.
    pub fn lose_carrier(&mut self)
        ensures { self.new ≡ dropped_lane self.old }
    {
        if self.switch.is_behind_lines() {
            self.switch.to_idle();
        }
    }

    /// The lane is ended by a call. A `>` that is held back goes before what comes next.
    pub fn leave(&mut self)
        ensures { self.new ≡ left_lane self.old }
    {
        self.switch.end();
    }

    /// Whether what was given may leave.
    pub fn lets_leave(&self) -> bool
        ensures { result ≡ lets_leave self.now.carries }
    {
        self.switch.lets_leave()
    }

    /// Whether octets may be given.
    pub fn takes_given(&self) -> bool
        ensures { result ≡ takes_given self.now.carries }
    {
        self.switch.takes_given()
    }

    /// Whether no lane is under way.
    pub fn is_idle(&self) -> bool
        ensures { result ≡ is_idle self.now.carries }
    {
        self.switch.is_idle()
    }

    /// Whether the CONNECT line has ended, data came from the beginning on, or the prompt has come.
    pub fn is_behind_lines(&self) -> bool
        ensures { result ≡ is_behind_lines self.now.carries }
    {
        self.switch.is_behind_lines()
    }

    /// Takes a frame's information: says which octets are lines, and keeps the data behind them. Refusal: no memory, which
    /// changes nothing. Memory is asked for only where the kept data has no room.
    pub fn take(&mut self, info: &[u8]) -> Result<LineCut, AllocError>
        ensures takes { IfOk result (λ cut. TakesInfo self.old self.new info.now cut) }
        ensures few { IfOk result (λ cut. cut.before ≤ cut.behind) }
        ensures behind { IfOk result (λ cut. cut.behind ≤ length info.now) }
        ensures some { IfOk result (λ cut. cut.is_marked ≡ true → 0 < length info.now) }
        ensures err { OnErr result (self.new ≡ self.old) }
    {
        self.came.reserve(info.len(), ROOM)?;
        let cut = self.switch.cut(info);
        self.came.put(&info[cut.from..]);
        Ok(cut.lines)
    }

    /// Gives the first octets of data that wait, as many as there is room for, and says how many.
    pub fn read(&mut self, room: &mut [u8]) -> usize
        ensures count { result ≡ min (length self.old.came) (length room.old) }
        ensures given { take result room.new ≡ take result self.old.came }
        ensures behind { drop result room.new ≡ drop result room.old }
        ensures rest { self.new ≡ record self.old { came = drop result self.old.came } }
    {
        self.came.take(room)
    }

    /// Takes the first octets to be sent, behind those that were given before, as far as 4096 wait then, and says how many.
    pub fn give(&mut self, octets: &[u8]) -> usize
        ensures count { result ≡ min (length octets.now) (most_to_go - length self.old.to_go) }
        ensures few { length self.old.to_go + result ≤ most_to_go }
        ensures gave { self.new ≡ record self.old { to_go = self.old.to_go ++ take result octets.now } }
    {
        let count = octets.len().min(MOST_TO_GO - self.to_go.len());
        self.to_go.fit(count);
        self.to_go.put(&octets[..count]);
        count
    }

    /// How many octets hold the other end back: those that wait to be read, and none once the lane is over.
    pub fn holding(&self) -> usize
        ensures { result ≡ lane_waiting self.now }
    {
        if self.switch.is_idle() {
            0
        } else {
            self.came.len()
        }
    }

    /// How many octets of data wait to be read.
    pub fn waiting(&self) -> usize
        ensures { result ≡ length self.now.came }
    {
        self.came.len()
    }

    /// The octets that wait to leave, lent.
    pub fn to_go(&self) -> &[u8]
        ensures { result.now ≡ self.now.to_go }
    {
        self.to_go.as_slice()
    }

    /// The first octets have left. Requires that there are as many.
    pub fn pass(&mut self, count: usize)
        requires { count ≤ length self.old.to_go }
        ensures { self.new ≡ record self.old { to_go = drop count self.old.to_go } }
    {
        self.to_go.pass(count);
    }
}
