//! What a simulated modem keeps beside its line.
ghost use Rattle.std.specs.Prelude.{◌≡◌, ◌≢◌, ◌↔◌, ◌⊎◌, ◌+◌, ◌<◌, ◌≤◌, [], length, true, false, None, IfOk, OnOk, OnErr, IsErrOf};
ghost use Rattle.mux_frame.specs.Spelling.{IsBadN1};
ghost use Rattle.serial_line.specs.LineViews.{after_fault};
ghost use Rattle.modem_sim.specs.Cores.{HasNoneToDo, HasPassed, HasReleased, SaysNext};
ghost use Rattle.modem_sim.specs.Sims.{BeginsAt, SimMachineFits, SimMachineGoes, is_ended};
ghost use Rattle.modem_sim.specs.Stills.{Feeds, FeedsNone, LoadsBy, LoadsNone, ReadsOnce, TakesFrame, TakesNone, Writes};
ghost use Rattle.modem_sim.specs.Acts.{any_act, end_of, is_step_act};

use crate::error::SimError;
use crate::modem::Modem;
use crate::script::Script;
use crate::sim::SimTurn;
use crate::sim_core::{Parts, SimCore};
use line_end::LineEnd;
use serial_line::{LineFault, SerialLine};
use std::alloc::{AllocError, Global};
use std::marker::Model;

/// A station with its modem, its end of the line, and the end that a poll gave.
#[derive(Drop)]
pub(crate) struct SimMachine {
    pub(crate) core: SimCore,
    pub(crate) line_end: LineEnd,
    pub(crate) end: Option<Result<SimTurn, SimError>>,
}

impl Model for SimMachine {
    ghost use Rattle.std.specs.Prelude.{◌≡◌};
    ghost use Rattle.modem_sim.specs.Sims.{SimMachine};

    ghost Value = { SimMachine };

    ghost view = { λ k. record {
      core = k.core;
      unfed = k.line_end.unfed;
      deframer = k.line_end.deframer;
      out = k.line_end.unwritten;
      failed = k.line_end.failed;
      end = k.end;
    } };

    ghost invariant = { λ k. k.core.station.n1 ≡ k.line_end.deframer.n1 };
}

/// What a simulated modem takes memory for as it is made.
#[derive(Drop)]
pub(crate) struct Room {
    parts: Parts,
    n1: u16,
    line_end: LineEnd,
}

impl Room {
    /// Refusals: 2 BadN1 where N1 isn't 31 to 32767, checked first; 1 NoMemory.
    pub(crate) fn new(alloc: Global, n1: u16) -> Result<Room, SimError>
        ensures begins { IfOk result
            (λ r. BeginsAt n1 r.parts.station r.parts.channels.items r.n1 r.line_end.unfed
            r.line_end.deframer r.line_end.unwritten) }
        ensures sound { IfOk result (λ r. r.line_end.failed ≡ false) }
        ensures bad_n1 { IsErrOf result SimError.BadN1 ↔ IsBadN1 n1 }
        ensures others { OnErr result (IsErrOf result SimError.BadN1 ⊎ IsErrOf result SimError.NoMemory) }
    {
        let parts = Parts::new(alloc, n1)?;
        let Ok(line_end) = LineEnd::new(alloc, n1) else {
            return Err(SimError::NoMemory);
        };
        Ok(Room {
            parts,
            n1,
            line_end,
        })
    }
}

impl SimMachine {
    /// Nothing has happened yet.
    pub(crate) fn start(room: Room, modem: Modem, script: Script) -> SimMachine
        requires begins { BeginsAt room.n1 room.parts.station room.parts.channels.items room.n1
            room.line_end.unfed room.line_end.deframer room.line_end.unwritten }
        requires sound { room.line_end.failed ≡ false }
        ensures begins { SimMachineFits (end_of room.n1 modem script) [] [] result [] }
        ensures sound { result.failed ≡ false }
        ensures goes_on { result.end ≡ None }
    {
        let Room {
            parts,
            line_end,
            ..
        } = room;
        SimMachine {
            core: SimCore::start(parts, modem, script),
            line_end,
            end: None,
        }
    }

    /// Whether a CLD was asked for or came, and all is written.
    pub(crate) fn is_ended(&self) -> bool
        ensures { result ≡ is_ended self.now }
    {
        self.core.closed() && self.line_end.is_written() && self.core.queue_len() == 0
    }

    /// The modem.
    pub(crate) fn into_modem(self) -> Modem
        ensures { result ≡ self.core.modem }
    {
        let SimMachine { core, .. } = self;
        core.into_modem()
    }

    /// Whether the line failed.
    pub(crate) fn is_failed(&self) -> bool
        ensures { result ≡ self.now.failed }
    {
        self.line_end.has_failed()
    }

    /// Does the steps that are due; says whether there were any.
    pub(crate) fn do_steps(&mut self) -> Result<bool, AllocError>
        ensures goes { SimMachineGoes is_step_act self.old self.new }
        ensures rest { self.new ≡ record self.old { core = self.new.core } }
        ensures same { IfOk result (λ done. done ≡ false → self.new ≡ self.old) }
        ensures fewer { IfOk result
            (λ done. done ≡ true → length self.new.core.steps < length self.old.core.steps) }
        ensures passed { HasPassed self.old.core self.new.core }
        ensures none { OnOk result (HasNoneToDo self.new.core) }
        ensures says { OnErr result (SaysNext self.new.core) }
    {
        self.core.do_steps()
    }

    /// Takes the frame at hand, if there is one and the station has room for what it calls for; says whether it did.
    #[tactic(auto, using(crate::proofs::sims::SimPasts::machine_none))]
    pub(crate) fn take_frame(&mut self) -> Result<bool, SimError>
        ensures goes { SimMachineGoes any_act self.old self.new }
        ensures rest { self.new ≡ record self.old { core = self.new.core; deframer = self.new.deframer } }
        ensures takes { IfOk result (λ took. took ≡ true → TakesFrame self.old self.new) }
        ensures none { IfOk result (λ took. took ≡ false → TakesNone self.old self.new) }
        ensures steps { OnOk result (self.new.core.steps ≡ self.old.core.steps) }
        ensures no_memory { OnErr result (IsErrOf result SimError.NoMemory) }
        ensures hand { OnErr result (self.new.deframer.next ≢ None) }
    {
        let Some(frame) = self.line_end.peek() else {
            return Ok(false);
        };
        if !self.core.got(frame)? {
            return Ok(false);
        }
        self.line_end.advance();
        Ok(true)
    }

    /// Takes the next frame into the output, where all is written; says whether it did, or handed octets to the station. What a
    /// want of memory leaves is handed later.
    #[tactic(auto, using(crate::proofs::sims::SimPasts::machine_none))]
    pub(crate) fn load(&mut self) -> Result<bool, AllocError>
        ensures goes { SimMachineGoes any_act self.old self.new }
        ensures rest { self.new ≡ record self.old { core = self.new.core; out = self.new.out } }
        ensures loads { IfOk result (λ moved. LoadsBy self.old self.new moved) }
        ensures none { IfOk result (λ moved. moved ≡ false → LoadsNone self.old self.new) }
        ensures steps { OnOk result (self.new.core.steps ≡ self.old.core.steps) }
        ensures released { OnErr result (HasReleased self.new.core) }
    {
        if !self.line_end.is_written() {
            return Ok(false);
        }
        let offered = self.core.offer_all()?;
        let Some(outgoing) = self.core.outgoing() else {
            return Ok(offered);
        };
        self.line_end.put(outgoing.frame);
        Ok(true)
    }

    /// Gives octets that were read to the deframer, as many as it has room for; says whether there were any.
    #[tactic(auto, using(crate::proofs::sims::SimPasts::machine_none))]
    pub(crate) fn feed(&mut self) -> bool
        ensures goes { SimMachineGoes any_act self.old self.new }
        ensures feeds { Feeds self.old self.new }
        ensures rest { self.new ≡ record self.old { unfed = self.new.unfed; deframer = self.new.deframer } }
        ensures fewer { result ≡ true → length self.new.unfed < length self.old.unfed }
        ensures none { result ≡ false → FeedsNone self.old self.new }
    {
        if self.line_end.is_fed() {
            return false;
        }
        self.line_end.feed() > 0
    }

    /// Offers the line what is to be written; says how many octets it took.
    pub(crate) fn write<L: SerialLine>(&mut self, line: &mut L) -> Result<usize, LineFault>
        ensures writes { IfOk result (λ n. Writes (L.seen line.old) (L.seen line.new) self.old self.new n) }
        ensures err { OnErr result (self.new ≡ record self.old { failed = true }) }
        ensures bounded { (L.seen line.new).calls ≤ (L.seen line.old).calls + 1 }
        ensures sound { OnOk result ((L.seen line.new).failures ≡ (L.seen line.old).failures) }
        ensures fault { OnErr result (L.seen line.new ≡ after_fault (L.seen line.old)) }
        ensures beyond { L.other_side line.new ≡ L.other_side line.old }
    {
        if self.line_end.is_written() {
            return Ok(0);
        }
        self.line_end.write(line)
    }

    /// Reads from the line, where nothing read waits; says whether any octets came.
    pub(crate) fn receive<L: SerialLine>(&mut self, line: &mut L) -> Result<bool, LineFault>
        ensures reads { IfOk result (λ came. ReadsOnce (L.seen line.old) (L.seen line.new) self.old self.new came) }
        ensures err { OnErr result (self.new ≡ record self.old { failed = true }) }
        ensures bounded { (L.seen line.new).calls ≤ (L.seen line.old).calls + 1 }
        ensures sound { OnOk result ((L.seen line.new).failures ≡ (L.seen line.old).failures) }
        ensures fault { OnErr result (L.seen line.new ≡ after_fault (L.seen line.old)) }
        ensures beyond { L.other_side line.new ≡ L.other_side line.old }
    {
        if !self.line_end.is_fed() {
            return Ok(false);
        }
        Ok(self.line_end.read(line)? > 0)
    }
}
