//! Prints what came for the callers and listeners of the desk.
ghost use Rattle.std.specs.Prelude.{◌≡◌, ◌<◌, None, is_some, length, IfOk, OnOk};
ghost use Rattle.ctl_drive.specs.Showing.{GoOn, LooksAt, LooksForOutcome, LooksThrough, TellsLine, after_control};

use crate::fault::DriveFault;
use crate::pieces::{write_line, write_outcome};
use crate::users::{Control, Users};
use modem_desk::{Answer, Outcome};
use std::alloc::Global;
use std::io::Write;
use std::rt::Clock;

/// What an outcome was of.
#[derive(Drop)]
pub enum Told {
    /// A line, as which it was printed.
    Line,
    /// Something that was asked beside the lines, which was told this.
    Asked(Control, Answer),
}

impl Users {
    /// Prints what a line was told. Refused with GaveUp where no line of its number is under way.
    fn show_told<W: Write, K: Clock>(
        &mut self,
        clock: &K,
        alloc: Global,
        output: &mut W,
        outcome: &Outcome,
    ) -> Result<(), DriveFault>
        ensures { OnOk result (TellsLine (W.contents output.old) (W.contents output.new) self.old self.new outcome.now) }
    {
        let line = self.settle_line(outcome.number)?;
        write_outcome(alloc, output, line, outcome)?;
        self.channels.note_told(clock, line.dlci, &outcome.answer);
        Ok(())
    }

    /// Takes what was asked beside the lines from what waits for an outcome: it was told this.
    fn take_told(&mut self, control: Control, answer: &Answer)
        ensures { self.new ≡ record self.old { asked = None; channels = after_control control answer.now self.old.channels } }
    {
        self.asked = None;
        if let Control::Open(dlci) = control {
            self.channels.note_opening(dlci, answer);
        }
    }

    /// Takes an outcome, if one came, and prints it where it is a line's.
    pub fn show_outcome<W: Write, K: Clock>(
        &mut self,
        clock: &K,
        alloc: Global,
        output: &mut W,
    ) -> Result<Option<Told>, DriveFault>
        ensures goes { OnOk result (GoOn (W.contents output.old) (W.contents output.new) self.old self.new) }
        ensures submits_none { OnOk result (self.new.caller.submitted ≡ self.old.caller.submitted) }
        ensures looks { IfOk result (λ told. LooksForOutcome self.old self.new (is_some told)) }
    {
        let Some(outcome) = self.caller.take() else {
            return Ok(None);
        };
        match self.asked {
            Some(asked) if asked.number == outcome.number => {
                let Outcome { answer, .. } = outcome;
                self.take_told(asked.control, &answer);
                Ok(Some(Told::Asked(asked.control, answer)))
            }
            _ => {
                self.show_told(clock, alloc, output, &outcome)?;
                Ok(Some(Told::Line))
            }
        }
    }

    /// Prints the line that the listener at this place heard, if it heard one, and says whether it did.
    fn show_line<W: Write>(
        &mut self,
        alloc: Global,
        output: &mut W,
        place: usize,
    ) -> Result<bool, DriveFault>
        requires { place < length self.old.listeners.items }
        ensures goes { OnOk result (GoOn (W.contents output.old) (W.contents output.new) self.old self.new) }
        ensures submits_none { OnOk result (self.new.caller.submitted ≡ self.old.caller.submitted) }
        ensures as_many { OnOk result (length self.new.listeners.items ≡ length self.old.listeners.items) }
        ensures looks { IfOk result (LooksAt self.old self.new place) }
    {
        match self.listeners[place].take() {
            Some(line) => {
                write_line(alloc, output, &self.dialect, &line)?;
                Ok(true)
            }
            None => Ok(false),
        }
    }

    /// Prints a line of each listener that heard one, and says whether one did.
    #[tactic(auto, using(crate::proofs::Lines::stays, crate::proofs::Lines::goes_then))]
    pub fn show_lines<W: Write>(
        &mut self,
        alloc: Global,
        output: &mut W,
    ) -> Result<bool, DriveFault>
        ensures goes { OnOk result (GoOn (W.contents output.old) (W.contents output.new) self.old self.new) }
        ensures submits_none { OnOk result (self.new.caller.submitted ≡ self.old.caller.submitted) }
        ensures looks { IfOk result (LooksThrough self.old self.new (length self.old.listeners.items)) }
    {
        let mut any = false;
        for place in 0..self.listeners.len() {
            any |= self.show_line(alloc, output, place)?;
        }
        Ok(any)
    }
}
