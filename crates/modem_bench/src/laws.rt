//! Laws of a session and a simulated modem at two lines in memory, as contracts of functions that do nothing.
ghost use Rattle.modem_bench.specs.Driving.{GoesByStandard};
ghost use Rattle.modem_bench.specs.Lines.{RightConnections, WrongConnections};
ghost use Rattle.modem_bench.specs.OneLine.{BeginsOnOneLine, RightCrossings, WrongCrossings};

/// A session and a simulated modem that were just made with one N1, each at a new line without input, whatever its cuts and its
/// room, have the empty joint list, which is one line's. So what `run_in_rounds` promises of such lists holds of theirs.
pub fn new_lines()
    ensures { BeginsOnOneLine }
{}

/// Two lines are crossed where each was given what the other gave on. Carrying leaves them crossed; an octet more at one of them,
/// one fewer, or octets given a second time don't.
#[tactic(auto, using(crate::proofs::Crossings::right_crossings, crate::proofs::Crossings::wrong_crossings))]
pub fn worked_crossings()
    ensures right { RightCrossings }
    ensures wrong { WrongCrossings }
{}

/// Two ends of a line are connected where each received the first of what the other sent, though more may be under way. They aren't
/// where an octet came that wasn't sent, or that others should have come before.
#[tactic(auto, using(crate::proofs::Lines::right_connections, crate::proofs::Lines::wrong_connections))]
pub fn worked_connections()
    ensures right { RightConnections }
    ensures wrong { WrongConnections }
{}

/// The session of a bench goes by the standard's codes alone, with N1 31.
#[tactic(auto, using(crate::proofs::Settlements::goes_by_standard))]
pub fn benches()
    ensures { GoesByStandard }
{}
