//! Laws of the definitions, as contracts of functions that do nothing.
ghost use Rattle.std.specs.Prelude.{◌≡◌, ℕ, List};
ghost use Rattle.modem_desk.specs.Ends.{Place, Subscription};
ghost use Rattle.modem_history.specs.Sessions.{LineView};
ghost use Rattle.ctl_drive.specs.DeskRun.{DrivesSettle};
ghost use Rattle.ctl_drive.specs.OrderRows.{WereNot, WereTold};
ghost use Rattle.ctl_drive.specs.Saying.{AreBad, BadLine};
ghost use Rattle.ctl_drive.specs.SayingRows.{AreNotTaken, AreRefused, AreTaken, AreWorked};

/// Only one list of bad lines is that of an input.
#[tactic(auto, using(crate::proofs::OneNaming::one_naming))]
pub fn one_naming()
    ensures { (lines : List (List ℕ)) (a b : List BadLine) → AreBad lines a → AreBad lines b → a ≡ b }
{}

/// Worked inputs, each with its bad lines, and what stands on a writer.
#[tactic(auto, using(crate::proofs::SayingRowFacts::worked, crate::proofs::SayingRowFacts::refusals_said, crate::proofs::SayingRowFacts::taken, crate::proofs::SayingRowFacts::not_taken))]
pub fn worked_inputs()
    ensures bad { AreWorked }
    ensures refused { AreRefused }
    ensures taken { AreTaken }
    ensures not_taken { AreNotTaken }
{}

/// Worked callers: which were told enough before they submitted. And a line that was heard and that no listener took.
#[tactic(auto, using(crate::proofs::OrderRowFacts::not_told))]
pub fn worked_orders()
    ensures told { (p : Place) → WereTold p }
    ensures not_told { (p : Place) (e : Subscription) → WereNot p e }
{}

/// Each drive is a settled run of its desk, over one history that grew with its polls and ticks, and so has the headline.
#[tactic(auto, using(crate::proofs::DeskRuns::drives_settle))]
pub fn desk_runs()
    ensures { DrivesSettle (λ (l : LineView). l) }
{}
