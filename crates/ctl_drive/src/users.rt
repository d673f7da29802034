//! Those who use the desk of a drive: a caller, whose requests are the lines of the input and what they need, and a listener for each
//! kind of line.
ghost use Rattle.std.specs.Prelude.{◌≡◌, ◌+◌, ◌<◌, ◌++◌, [], ℕ, List, Option, Some, true, false, get_or, is_some, length, nat_le, IfOk, IfSome, OnOk};
ghost use Rattle.modem_desk.specs.declared.request.Ask.TheVariants as ask;
ghost use Rattle.ctl_drive.specs.Asking.{submitted_on, text_on};
ghost use Rattle.ctl_drive.specs.Channels.{told_at};
ghost use Rattle.ctl_drive.specs.Showing.{GoOn, TakesLine, control_ask, is_busy, shut_for};
ghost use Rattle.ctl_drive.specs.Turns.{one_if};
ghost use Rattle.ctl_drive.specs.declared.users.Control.TheVariants.{Stop};
ghost use Rattle.ctl_drive.specs.declared.users.UnderWay.{UnderWay};

use crate::channels::Channels;
use crate::fault::{DriveFault, GiveUp};
use at_text::{CommandLine, Dialect};
use modem_desk::{Ask, Caller, Listener};
use mux_frame::Dlci;
use std::rt::Clock;
use std::sync::Wait;
use std::time::Duration;

/// How many lines are under way at most, one of each connection. A caller may leave 16 outcomes untaken, so that one request beside them
/// has a place.
const LINES: usize = 15;

/// A line that waits for its outcome: its request's number, its connection, and its place among that connection's lines, from 1.
#[derive(Clone, Copy)]
pub struct UnderWay {
    pub number: u64,
    pub dlci: Dlci,
    pub place: u64,
}

/// What is asked beside commands, one at a time.
#[derive(Clone, Copy)]
pub enum Control {
    Open(Dlci),
    Close(Dlci),
    Stop,
}

/// What was asked beside commands and waits for its outcome, with its request's number.
#[derive(Clone, Copy)]
pub struct Asked {
    pub number: u64,
    pub control: Control,
}

/// Those who use the desk, what of theirs waits for an outcome, what is known of the connections, how many lines of each connection
/// were submitted, and the dialect by which a line that is heard is named.
#[derive(Drop)]
pub struct Users {
    pub caller: Caller,
    pub listeners: Vec<Listener>,
    pub under_way: Vec<UnderWay>,
    pub asked: Option<Asked>,
    pub channels: Channels,
    pub counts: [u64; Dlci::COUNT],
    pub dialect: Dialect,
}

impl Control {
    /// The request that it is.
    fn ask(self) -> Ask
        ensures { result ≡ control_ask self }
    {
        match self {
            Control::Open(dlci) => Ask::OpenChannel(dlci),
            Control::Close(dlci) => Ask::CloseChannel(dlci),
            Control::Stop => Ask::Stop,
        }
    }
}

impl Users {
    /// Whether so many lines are under way that no other may be.
    pub fn is_full(&self) -> bool
        ensures { result ≡ nat_le 15 (length self.now.under_way.items) }
    {
        self.under_way.len() >= LINES
    }

    /// Whether a line of this connection is under way.
    pub fn is_busy(&self, dlci: Dlci) -> bool
        ensures { result ≡ is_busy dlci.number self.now.under_way.items }
    {
        let number = dlci.number();
        self.under_way
            .iter()
            .any(|line| line.dlci.number() == number)
    }

    /// Submits a line on a connection. Requires that an opening of the connection was told something, and that no line of it
    /// is under way. Refused with NoMemory and GaveUp.
    #[tactic(auto, using(crate::proofs::Lines::stays))]
    pub fn submit<R: Wait + Clock>(
        &mut self,
        rt: &R,
        dlci: Dlci,
        line: CommandLine,
    ) -> Result<(), DriveFault>
        requires told { told_at self.old.channels dlci.number ≡ true }
        requires free { is_busy dlci.number self.old.under_way.items ≡ false }
        ensures goes { OnOk result ((out : Option (List ℕ)) → GoOn out out self.old self.new) }
        ensures asks { OnOk result ((d : ℕ) → submitted_on d self.new.caller.submitted
            ≡ submitted_on d self.old.caller.submitted ++ text_on d (ask.Command dlci line)) }
        ensures count { OnOk result (length self.new.caller.submitted ≡ length self.old.caller.submitted + 1) }
    {
        let d = usize::from(dlci.number());
        let Some(place) = self.counts[d].checked_add(1) else {
            return Err(DriveFault::GaveUp(GiveUp::Lines));
        };
        self.under_way.try_reserve(1)?;
        let Ok(number) = self.caller.submit(rt, Ask::Command(dlci, line)) else {
            return Err(DriveFault::GaveUp(GiveUp::Full));
        };
        self.counts[d] = place;
        self.under_way.push_reserved(UnderWay {
            number,
            dlci,
            place,
        });
        self.channels.note_submitted(rt, dlci);
        Ok(())
    }

    /// Asks for an opening, a close or a Stop, and says whether it asked. It asks nothing while an earlier one of these waits
    /// for its outcome. Requires for a Stop that no line is under way. Refused with GaveUp.
    #[tactic(auto, using(crate::proofs::Lines::stays))]
    pub fn ask<R: Wait>(&mut self, rt: &R, control: Control) -> Result<bool, DriveFault>
        requires { control ≡ Stop → self.old.under_way.items ≡ [] }
        ensures goes { OnOk result ((out : Option (List ℕ)) → GoOn out out self.old self.new) }
        ensures asks { OnOk result ((d : ℕ) → submitted_on d self.new.caller.submitted ≡ submitted_on d self.old.caller.submitted) }
        ensures waits { OnOk result (is_some self.new.asked ≡ true) }
        ensures count { IfOk result (λ asked. length self.new.caller.submitted ≡ length self.old.caller.submitted + one_if asked) }
    {
        if self.asked.is_some() {
            return Ok(false);
        }
        let Ok(number) = self.caller.submit(rt, control.ask()) else {
            return Err(DriveFault::GaveUp(GiveUp::Full));
        };
        self.note_asked(Asked { number, control });
        Ok(true)
    }

    /// Notes that this waits for its outcome.
    fn note_asked(&mut self, asked: Asked)
        ensures { self.new ≡ record self.old { asked = Some asked; channels = shut_for asked.control self.old.channels } }
    {
        self.asked = Some(asked);
        if let Control::Close(dlci) = asked.control {
            self.channels.shut(dlci);
        }
    }

    /// The least time until a connection has to be closed, where a close can be asked.
    pub fn time_left<K: Clock>(&self, clock: &K, most: Duration) -> Duration {
        if self.asked.is_some() {
            return most;
        }
        self.channels.time_left(clock, most)
    }

    /// Where the line of this number stands among those under way.
    fn find_line(&self, number: u64) -> Option<usize>
        ensures { IfSome result (λ i. (i < length self.now.under_way.items)
            × ((u : UnderWay) → (get_or self.now.under_way.items i u).number ≡ number)) }
    {
        for at in 0..self.under_way.len() {
            if self.under_way[at].number == number {
                return Some(at);
            }
        }
        None
    }

    /// Takes the line that an outcome of this number is for from those under way. Refused with GaveUp where there is
    /// none.
    pub fn settle_line(&mut self, number: u64) -> Result<UnderWay, DriveFault>
        ensures { IfOk result (λ line. TakesLine self.old self.new number line) }
    {
        match self.find_line(number) {
            Some(at) => Ok(self.under_way.remove(at)),
            None => Err(DriveFault::GaveUp(GiveUp::Outcome)),
        }
    }
}
