//! Worked examples.
ghost use Rattle.show_texts.specs.Progress.{AreTold};
ghost use Rattle.show_texts.specs.Rows.{ArePrinted};

/// Frames and what is printed of them.
#[tactic(auto, using(crate::proofs::RowFacts::are_printed))]
pub fn example_lines()
    ensures { ArePrinted }
{}

/// Numbers of octets and what is told of them on a terminal.
#[tactic(auto, using(crate::proofs::RowFacts::are_told))]
pub fn example_progress()
    ensures { AreTold }
{}
