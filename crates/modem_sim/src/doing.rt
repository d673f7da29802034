//! The steps of a script are done.
ghost use Rattle.std.specs.Prelude.{◌≡◌, ◌<◌, true, false, length, None, IfOk, OnOk, OnErr};
ghost use Rattle.std.specs.List.{list_any};
ghost use Rattle.at_text.specs.Lines.{is_line_end};
ghost use Rattle.modem_sim.specs.Acts.{is_step_act};
ghost use Rattle.modem_sim.specs.Doing.{acts, call_of, is_line};
ghost use Rattle.modem_sim.specs.Cores.{AtStation, Goes, HasNoneToDo, HasPassed, Refuses, SaysNext, are_free_in, are_open_in, boxes_done, closes_by};

use crate::channel::Channel;
use crate::script::StepAct;
use crate::sim_core::{SimCore, is_open};
use mux_frame::Dlci;
use mux_station::Station;
use std::alloc::AllocError;

/// The longest line that a modem tells.
const LONGEST: usize = 512;

/// Whether there is a CR or LF.
fn has_line_end(text: &[u8]) -> bool
    ensures { result ≡ list_any is_line_end text.now }
{
    for octet in text {
        if matches!(*octet, b'\r' | b'\n') {
            return true;
        }
    }
    false
}

/// Whether this can be a line: it has 1 to 512 octets, and no CR or LF.
pub fn is_line(text: &[u8]) -> bool
    ensures { result ≡ is_line text.now }
{
    !text.is_empty() && text.len() <= LONGEST && !has_line_end(text)
}

impl StepAct {
    /// Whether it isn't passed over.
    fn acts(&self) -> bool
        ensures { result ≡ acts self.now }
    {
        match self {
            StepAct::Announce(dlci, line) => dlci.number() != 0 && is_line(line.as_slice()),
            StepAct::Hold(held, awaited) => held.number() != 0 && awaited.number() != 0,
            StepAct::Disconnect(dlci) => dlci.number() != 0,
            StepAct::Flow(_, _) | StepAct::CloseDown => true,
        }
    }
}

impl SimCore {
    /// Does the next step if it is due, or passes it over; says whether it did. It isn't done yet where the station has no
    /// room for what it asks, or memory is refused: that changes nothing.
    #[tactic(auto, using(crate::proofs::ends::OfferedPieces::goes_none, crate::proofs::ends::ScriptSteps::passes_goes, crate::proofs::ends::ScriptSteps::passed_none))]
    fn do_next(&mut self) -> Result<bool, AllocError>
        ensures goes { Goes is_step_act self.old self.new }
        ensures same { IfOk result (λ done. done ≡ false → self.new ≡ self.old) }
        ensures fewer { IfOk result (λ done. done ≡ true → length self.new.steps < length self.old.steps) }
        ensures passed { HasPassed self.old self.new }
        ensures none { IfOk result (λ done. done ≡ false → HasNoneToDo self.old) }
        ensures err { OnErr result (self.new ≡ self.old) }
        ensures says { OnErr result (SaysNext self.old) }
        ensures n1 { self.new.station.n1 ≡ self.old.station.n1 }
    {
        let Some(step) = self.steps.get(self.next) else {
            return Ok(false);
        };
        if !step.act.acts() {
            self.next += 1;
            return Ok(true);
        }
        if step.after > self.come || !are_open(&self.station, &step.act) {
            return Ok(false);
        }
        if !are_free(&self.channels, &step.act) {
            return Ok(false);
        }
        let closes = closes_by(&step.act);
        if !carry_out(&step.act, &mut self.station, &mut self.channels)? {
            return Ok(false);
        }
        self.closed |= closes;
        self.next += 1;
        Ok(true)
    }

    /// Does the steps that are due, in their order; says whether there were any. What a want of memory leaves is done later.
    #[tactic(auto, using(crate::proofs::ends::OfferedPieces::goes_none, crate::proofs::ends::OfferedPieces::goes_then, crate::proofs::ends::ScriptSteps::passed_none))]
    pub(crate) fn do_steps(&mut self) -> Result<bool, AllocError>
        ensures goes { Goes is_step_act self.old self.new }
        ensures same { IfOk result (λ done. done ≡ false → self.new ≡ self.old) }
        ensures fewer { IfOk result (λ done. done ≡ true → length self.new.steps < length self.old.steps) }
        ensures passed { HasPassed self.old self.new }
        ensures none { OnOk result (HasNoneToDo self.new) }
        ensures says { OnErr result (SaysNext self.new) }
        ensures n1 { self.new.station.n1 ≡ self.old.station.n1 }
    {
        let mut done = false;
        while self.do_next()? {
            done = true;
        }
        Ok(done)
    }
}

/// Whether a step announces nothing in a call.
fn are_free(channels: &Vec<Channel>, act: &StepAct) -> bool
    ensures { result ≡ are_free_in channels.now.items act.now }
{
    match act {
        StepAct::Announce(dlci, _) => match channels.get(usize::from(dlci.number())) {
            Some(channel) => !channel.is_in_call(),
            None => true,
        },
        StepAct::Flow(_, _) | StepAct::Hold(_, _) | StepAct::Disconnect(_) | StepAct::CloseDown =>
            true,
    }
}

/// Whether the connections that a step names are open.
fn are_open(station: &Station, act: &StepAct) -> bool
    ensures { result ≡ are_open_in station.now act.now }
{
    match act {
        StepAct::Announce(dlci, _) | StepAct::Flow(dlci, _) | StepAct::Disconnect(dlci) => {
            is_open(station, *dlci)
        }
        StepAct::Hold(held, awaited) => is_open(station, *held) && is_open(station, *awaited),
        StepAct::CloseDown => is_open(station, Dlci::CONTROL),
    }
}

fn closes_by(act: &StepAct) -> bool
    ensures { result ≡ closes_by act.now }
{
    matches!(act, StepAct::CloseDown)
}

/// Carries a step out; false where the station takes no such call.
fn carry_out(
    act: &StepAct,
    station: &mut Station,
    channels: &mut Vec<Channel>,
) -> Result<bool, AllocError>
    requires { length channels.old.items ≡ 62 }
    ensures station { IfOk result (λ done. done ≡ true → AtStation station.old station.new act.now) }
    ensures boxes { IfOk result
        (λ done. done ≡ true → channels.new.items ≡ boxes_done act.now channels.old.items) }
    ensures refused { IfOk result (λ done. done ≡ false → Refuses station.old act.now) }
    ensures same { IfOk result (λ done. done ≡ false → station.new ≡ station.old) }
    ensures same_boxes { IfOk result (λ done. done ≡ false → channels.new.items ≡ channels.old.items) }
    ensures err { OnErr result (station.new ≡ station.old) }
    ensures err_boxes { OnErr result (channels.new.items ≡ channels.old.items) }
    ensures says { OnErr result (call_of act.now ≡ None) }
    ensures n1 { station.new.n1 ≡ station.old.n1 }
{
    match act {
        StepAct::Announce(dlci, line) => {
            let channel = &mut channels[usize::from(dlci.number())];
            channel.announce(line.as_slice())?;
            Ok(true)
        }
        StepAct::Hold(held, awaited) => {
            let channel = &mut channels[usize::from(held.number())];
            channel.hold_for(*awaited)?;
            Ok(true)
        }
        StepAct::Flow(dlci, go) => Ok(station.flow(*dlci, *go).is_ok()),
        StepAct::Disconnect(dlci) => Ok(station.close(*dlci).is_ok()),
        StepAct::CloseDown => Ok(station.stop().is_ok()),
    }
}
