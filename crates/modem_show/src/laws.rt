//! Worked examples, and laws.
ghost use Rattle.std.specs.Prelude.{ℕ, List};
ghost use Rattle.mux_capture.specs.declared.packet.Direction.{Direction};
ghost use Rattle.at_text.specs.Dialects.{Dialect};
ghost use Rattle.modem_show.specs.Rows.{AreJudged, AreAnswered};
ghost use Rattle.modem_show.specs.TalkRows.{AreTold};
ghost use Rattle.modem_show.specs.Talking.{Talk, TellsLines};

use at_text::laws::reading_on;

/// The smallest captures with each fault, and captures nearly like them without.
#[tactic(auto, using(crate::proofs::RowFacts::are_judged, crate::proofs::RowFacts::are_answered))]
pub fn example_captures()
    ensures faults { AreJudged }
    ensures answers { AreAnswered }
{}

/// The smallest talks in which a command overlaps another one, an answer has no command or a command no answer, and talks nearly like
/// them.
#[tactic(auto, using(crate::proofs::RowFacts::are_told))]
pub fn example_talks()
    ensures { AreTold }
{}

/// Each line of a connection is told once and in order, and the same is told wherever octets are cut into frames.
pub fn lines_told()
    ensures { (dialect : Dialect) (d : Direction) (t : Talk) (octet : ℕ) (octets : List ℕ) → TellsLines dialect d t octet octets }
{
    reading_on();
}
