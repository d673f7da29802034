//! A line in memory, whose owner hands in what it gives and takes out what it took.
ghost use Rattle.std.specs.Prelude.{◌≡◌, ◌≤◌, ◌++◌, length, true, IfOk, OnErr, OnOk};
ghost use Rattle.data_files.specs.Handed.{HandsOut};

use crate::filed_line::FiledLine;
use serial_line::{LineFault, SerialLine};
use std::alloc::AllocError;

/// A line in memory, whose owner hands in what it gives and takes out what it took.
pub trait HandedLine: SerialLine {
    /// Hands octets in, behind those that wait. Refused for memory: then none is.
    fn put(&mut self, octets: &[u8]) -> Result<(), AllocError>
        ensures given { OnOk result
            ((Self.other_side self.new).given ≡ (Self.other_side self.old).given ++ octets.now) }
        ensures err { OnErr result (self.new ≡ self.old) }
        ensures received { (Self.seen self.new).received ≡ (Self.seen self.old).received }
        ensures sent { (Self.seen self.new).sent ≡ (Self.seen self.old).sent };

    /// Whether all that was handed in is read.
    fn is_read(&self) -> bool
        ensures { result ≡ true → (Self.other_side self.now).given ≡ (Self.seen self.now).received };

    /// Hands out what it took, behind other octets. Refused for memory: then nothing is handed out.
    fn take(&mut self, out: &mut Vec<u8>) -> Result<(), AllocError>
        ensures out { OnOk result (HandsOut (Self.other_side self.old).passed_on (Self.seen self.old).sent out.old.items out.new.items) }
        ensures passed { OnOk result ((Self.other_side self.new).passed_on ≡ (Self.seen self.old).sent) }
        ensures err { OnErr result ((self.new ≡ self.old) × (out.new.items ≡ out.old.items)) }
        ensures received { (Self.seen self.new).received ≡ (Self.seen self.old).received }
        ensures sent { (Self.seen self.new).sent ≡ (Self.seen self.old).sent };
}

impl<L: HandedLine, P: SerialLine> FiledLine<L, P> {
    /// Hands octets in to the line itself, as `HandedLine::put` does.
    #[tactic(auto, using(crate::proofs::Lifts::line_same))]
    pub fn put(&mut self, octets: &[u8]) -> Result<(), AllocError>
        ensures given { OnOk result
            ((L.other_side self.new.line.line).given ≡ (L.other_side self.old.line.line).given ++ octets.now) }
        ensures err { OnErr result (self.new ≡ self.old) }
        ensures same { self.new ≡ record self.old { line = record self.old.line { line = self.new.line.line } } }
    {
        self.line.line_mut().put(octets)
    }

    /// Whether the line itself has read all that was handed in.
    pub fn is_read(&self) -> bool
        ensures { result ≡ true → (L.other_side self.now.line.line).given ≡ (L.seen self.now.line.line).received }
    {
        self.line.line().is_read()
    }

    /// Hands out what the line itself took, as `HandedLine::take` does.
    #[tactic(auto, using(crate::proofs::Lifts::line_same, crate::proofs::Lifts::all_passed))]
    pub fn take(&mut self, out: &mut Vec<u8>) -> Result<(), AllocError>
        ensures out { OnOk result (HandsOut (L.other_side self.old.line.line).passed_on (L.seen self.old.line.line).sent out.old.items out.new.items) }
        ensures passed { OnOk result ((L.other_side self.new.line.line).passed_on ≡ (L.seen self.new.line.line).sent) }
        ensures err { OnErr result ((self.new ≡ self.old) × (out.new.items ≡ out.old.items)) }
        ensures same { self.new ≡ record self.old { line = record self.old.line { line = self.new.line.line } } }
    {
        self.line.line_mut().take(out)
    }

    /// Writes as `SerialLine` has it. No file moves.
    pub fn write_line(&mut self, octets: &[u8]) -> Result<usize, LineFault>
        ensures bound { IfOk result (λ count. count ≤ length octets.now) }
        ensures beside { self.new ≡ record self.old { line = self.new.line } }
    {
        self.line.try_write(octets)
    }
}
