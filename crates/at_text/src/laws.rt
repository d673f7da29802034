//! Laws of the definitions, as contracts of functions that do nothing.
ghost use Rattle.std.specs.Prelude.{ℕ, List, Option};
ghost use Rattle.at_text.specs.declared.answer.AnswerLine.{AnswerLine};
ghost use Rattle.at_text.specs.Lines.{ReadsOn};
ghost use Rattle.at_text.specs.Dialects.{Dialect};
ghost use Rattle.at_text.specs.Windows.{Mark, IsInTurn};
ghost use Rattle.at_text.specs.OpenWindow.{OpenWindow};
ghost use Rattle.at_text.specs.Placing.{Part, PlacesLines};
ghost use Rattle.at_text.specs.Whole.{NoneLost};
ghost use Rattle.at_text.specs.Rows.{AreLines, AreFinals, AreReports, RingInside, CregBoth, CgregBoth, EarlyOk, EchoOnce, TwoCommands};

/// Worked examples of lines, final codes, unsolicited kinds and windows, computed by the definitions.
#[tactic(auto, using(crate::proofs::RowFacts::are_lines, crate::proofs::RowFacts::are_finals, crate::proofs::RowFacts::are_reports, crate::proofs::RowFacts::ring_inside, crate::proofs::RowFacts::creg_both, crate::proofs::RowFacts::cgreg_both, crate::proofs::RowFacts::early_ok, crate::proofs::RowFacts::echo_once, crate::proofs::RowFacts::two_commands))]
pub fn worked_examples()
    ensures lines { AreLines }
    ensures finals { AreFinals }
    ensures reports { AreReports }
    ensures ring_inside { RingInside }
    ensures creg_both { CregBoth }
    ensures cgreg_both { CgregBoth }
    ensures early_ok { EarlyOk }
    ensures echo_once { EchoOnce }
    ensures two_commands { TwoCommands }
{}

/// However a text is cut, its lines can be read on from what is kept of the unfinished line.
pub fn reading_on()
    ensures { (x y : List ℕ) → ReadsOn x y }
{}

/// Where each command begins with no window open, no line is lost or counted twice.
pub fn windows()
    ensures { (dialect : Dialect) (marks : List Mark) → IsInTurn dialect marks → NoneLost dialect marks }
{}

/// The lines that are placed are those of all octets. Each has the same place, wherever the octets are cut.
pub fn placing()
    ensures { (parts : List Part) → PlacesLines parts }
{}
