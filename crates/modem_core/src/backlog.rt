//! Holds a connection while too many of its lines wait for their listener, and then frees it (27.010, 5.4.6.3.7).
ghost use Rattle.std.specs.Prelude.{◌≡◌, ◌≢◌, ◌==◌, ◌||◌, [], ◌∷◌, false, true, length, map, Some, None, if◌then◌else◌, is_some, IfOk, IfSome, IfNone, OnErr, OnOk};
ghost use Rattle.std.specs.Result.{result_err};
ghost use Rattle.mux_station.specs.States.{is_opened};
ghost use Rattle.mux_station.specs.Stations.{channel_at};
ghost use Rattle.modem_history.specs.Acts.{act_of};
ghost use Rattle.mux_station.specs.Tables.{ready, held_up};
ghost use Rattle.modem_core.specs.Cores.{lane_at};
ghost use Rattle.modem_history.specs.declared.act.Act.TheVariants as act;
ghost use Rattle.modem_core.specs.Holding.{acts_due, due_in, CallsForNothing, Flows, HasNoRoom, NeverDue, TurnsFlow, CannotTurn, CanTurn, FindsRoom};
ghost use Rattle.modem_core.specs.declared.error.CoreError.TheVariants as CoreError;

use crate::act_list::ActList;
use crate::driver::Core;
use crate::error::CoreError;
use crate::written::message;
use modem_history::Act;
use mux_frame::Dlci;
use mux_station::ChannelState;
use mux_station::written::{HELD_UP, MSC, READY};

/// So many lines of a connection that wait for their listener hold it.
const HOLDING_LINES: usize = 256;

/// Below so many a connection that is held is freed.
const FREEING_LINES: usize = 128;

impl Core {
    /// Tells the core how many lines of a connection wait for a place at their listener. From 256 on it asks the other
    /// end to stop sending, and below 128 to go on, by an MSC (27.010, 5.4.6.3.7). Refusals, which change nothing: 3
    /// NoRoom in the control queue, checked first; 1 NoMemory.
    pub fn backlog(&mut self, dlci: Dlci, lines: usize) -> Result<Vec<Act>, CoreError>
        ensures past { IfOk result (λ acts.
            Flows self.old self.new dlci.number lines (map act_of acts.items)) }
        ensures acts { IfOk result (λ acts. map act_of acts.items
            ≡ acts_due dlci.number (due_in self.old dlci.number lines)) }
        ensures err { OnErr result (self.new ≡ self.old) }
        ensures no_room { result ≡ Err CoreError.NoRoom → HasNoRoom self.old dlci.number lines }
        ensures no_memory { result ≡ Err CoreError.NoMemory → FindsRoom self.old dlci.number lines }
        ensures others { result ≢ Err CoreError.BadN1 }
        ensures n1 { self.new.station.n1 ≡ self.old.station.n1 }
    {
        match self.due(dlci, lines) {
            None => Ok(Vec::new(self.alloc)),
            Some(go) => self.turn_flow(dlci, go),
        }
    }

    /// What `backlog` does, without its acts: an MSC waits in the control queue. It takes no memory. Says whether the
    /// connection was held or freed; gives nothing where the MSC has no place, and then nothing changes.
    pub fn do_backlog(&mut self, dlci: Dlci, lines: usize) -> Option<bool>
        ensures past { IfSome result (λ _. Flows self.old self.new dlci.number lines
            (acts_due dlci.number (due_in self.old dlci.number lines))) }
        ensures moved { IfSome result (λ moved. moved ≡ is_some (due_in self.old dlci.number lines)) }
        ensures stays { IfNone result (self.new ≡ self.old) }
        ensures no_room { IfNone result (HasNoRoom self.old dlci.number lines) }
        ensures n1 { self.new.station.n1 ≡ self.old.station.n1 }
    {
        let _ = &self.lanes;
        let Some(go) = self.due(dlci, lines) else {
            return Some(false);
        };
        if !self.do_flow(dlci, go) {
            return None;
        }
        Some(true)
    }

    /// Whether a backlog of the connection may call for anything: it is open, and the line isn't lost.
    pub fn checks(&self, dlci: Dlci) -> bool
        ensures { result ≡ false → NeverDue self.now dlci.number }
    {
        !self.lost && self.is_open(dlci)
    }

    /// Whether no connection is held. Fewer than 256 waiting lines then call for nothing.
    #[tactic(auto, using(crate::proofs::holds::HoldsDue::free_flows))]
    pub fn holds_none(&self) -> bool
        ensures { result ≡ true → CallsForNothing self.now }
    {
        self.lanes.holds_none()
    }

    pub(crate) fn is_open(&self, dlci: Dlci) -> bool
        ensures { result ≡ is_opened (channel_at self.now.station dlci.number).state }
    {
        self.station.state(dlci) == ChannelState::Opened
    }

    /// Whether the connection is to go on or to stop, if either.
    fn due(&self, dlci: Dlci, lines: usize) -> Option<bool>
        ensures { result ≡ due_in self.now dlci.number lines }
    {
        if self.lost || dlci.number() == 0 {
            return None;
        }
        if !self.is_open(dlci) {
            return None;
        }
        let held = self.lanes.is_held(dlci);
        if !held && lines >= HOLDING_LINES {
            Some(false)
        } else if held && lines < FREEING_LINES {
            Some(true)
        } else {
            None
        }
    }

    /// Asks the other end to go on, or to stop, where the MSC has a place in the control queue, and says whether it has.
    fn do_flow(&mut self, dlci: Dlci, go: bool) -> bool
        requires live { self.old.lost ≡ false }
        requires not_zero { (dlci.number == 0) ≡ false }
        requires opened { is_opened (channel_at self.old.station dlci.number).state ≡ true }
        requires held { (lane_at self.old dlci.number).held ≡ go }
        ensures past { result ≡ true → TurnsFlow self.old self.new dlci.number go (acts_due dlci.number (Some go)) }
        ensures stays { result ≡ false → self.new ≡ self.old }
        ensures no_room { result ≡ false → CannotTurn self.old dlci.number go }
        ensures n1 { self.new.station.n1 ≡ self.old.station.n1 }
    {
        if let Err(_why) = self.station.flow(dlci, go) {
            return false;
        }
        self.lanes.turn(dlci, !go);
        true
    }

    /// Asks the other end to go on, or to stop.
    fn turn_flow(&mut self, dlci: Dlci, go: bool) -> Result<Vec<Act>, CoreError>
        requires live { self.old.lost ≡ false }
        requires not_zero { (dlci.number == 0) ≡ false }
        requires opened { is_opened (channel_at self.old.station dlci.number).state ≡ true }
        requires held { (lane_at self.old dlci.number).held ≡ go }
        ensures past { IfOk result (λ acts.
            TurnsFlow self.old self.new dlci.number go (map act_of acts.items)) }
        ensures acts { IfOk result (λ acts. map act_of acts.items ≡ acts_due dlci.number (Some go)) }
        ensures err { OnErr result (self.new ≡ self.old) }
        ensures no_room { result ≡ Err CoreError.NoRoom → CannotTurn self.old dlci.number go }
        ensures no_memory { result ≡ Err CoreError.NoMemory → CanTurn self.old dlci.number go }
        ensures others { result ≢ Err CoreError.BadN1 }
        ensures n1 { self.new.station.n1 ≡ self.old.station.n1 }
    {
        if !self.station.has_room_to_flow(dlci, go) {
            return Err(CoreError::NoRoom);
        }
        let msc = message(self.alloc, MSC, &[4 * dlci.number() + 3, signals_of(go)])?;
        let mut acts = ActList::with_room(self.alloc, 2)?;
        acts.push(flow_act(dlci, go));
        acts.push(Act::Sent(msc));
        if !self.do_flow(dlci, go) {
            return Err(CoreError::NoRoom);
        }
        Ok(acts.into_vec())
    }
}

fn signals_of(go: bool) -> u8
    ensures { result ≡ (if go then ready else held_up) }
{
    if go { READY } else { HELD_UP }
}

fn flow_act(dlci: Dlci, go: bool) -> Act
    ensures { result ≡ (if go then act.Freed dlci else act.Held dlci) }
{
    if go {
        Act::Freed(dlci)
    } else {
        Act::Held(dlci)
    }
}
