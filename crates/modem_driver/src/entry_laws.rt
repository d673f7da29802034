//! Worked rows of an entry.
ghost use Rattle.modem_driver.specs.EntryTryRows.{AsksRight, AsksWrong, ClosesRight, ClosesWrong};

/// Patience is asked after each step, and told whether it moved anything: an octet counts, an empty read doesn't. An entry that
/// doesn't ask, or says otherwise, is refused. At N1 31 a multiplexer is closed down by 34 flags and a CLD frame, and not by the
/// frame alone.
#[tactic(auto, using(crate::proofs::rows::EntryTryRowFacts::asks_right, crate::proofs::rows::EntryTryRowFacts::asks_wrong, crate::proofs::rows::EntryTryRowFacts::closes_right, crate::proofs::rows::EntryTryRowFacts::closes_wrong))]
pub fn entry_rows()
    ensures asks { AsksRight }
    ensures others { AsksWrong }
    ensures closes { ClosesRight }
    ensures bare { ClosesWrong }
{}
