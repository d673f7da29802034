//! Laws of the definitions, as contracts of functions that do nothing.
ghost use Rattle.std.specs.Prelude.{◌≡◌, ℕ, List};
ghost use Rattle.ctl_run.specs.LineFaultRows.{AreDumpFaults, AreEventFaults, AreStepFaults, AreSubmissionFaults};
ghost use Rattle.ctl_run.specs.LineFaults.{DumpFault, EventFault, StepFault, SubmissionFault};
ghost use Rattle.ctl_text.specs.declared.expected.Expected.{Expected};

/// Only one part of a line is the first that isn't as it must be.
#[tactic(auto, using(crate::proofs::inputs::OneFault::one_event, crate::proofs::inputs::OneFault::one_step, crate::proofs::inputs::OneFault::one_submission, crate::proofs::inputs::OneFault::one_dump))]
pub fn one_fault()
    ensures events { (line : List ℕ) (a b : Expected) → EventFault line a → EventFault line b → a ≡ b }
    ensures steps { (line : List ℕ) (a b : Expected) → StepFault line a → StepFault line b → a ≡ b }
    ensures submissions { (callers : ℕ) (line : List ℕ) (a b : Expected)
        → SubmissionFault callers line a → SubmissionFault callers line b → a ≡ b }
    ensures dumps { (line : List ℕ) (a b : Expected) → DumpFault line a → DumpFault line b → a ≡ b }
{}

/// Worked lines, each with the first part that isn't as it must be.
#[tactic(auto, using(crate::proofs::inputs::FaultRows::event_faults, crate::proofs::inputs::FaultRows::step_faults, crate::proofs::inputs::FaultRows::submission_faults, crate::proofs::inputs::FaultRows::dump_faults))]
pub fn worked_faults()
    ensures events { AreEventFaults }
    ensures steps { AreStepFaults }
    ensures submissions { AreSubmissionFaults }
    ensures dumps { AreDumpFaults }
{}
