//! Laws of dialects, as contracts of functions that do nothing.
ghost use Rattle.at_text.specs.StandardRules.{AreStandard};
ghost use Rattle.at_text.specs.DialectRows.{AreKnownFinals, AreKnownKinds, IsVendor, AreRefused, AreTaken};

/// The standard's final codes and unsolicited lines are those of its rules, and a dialect with no rules of its own is
/// the standard.
#[tactic(auto, using(crate::proofs::dialects::Standard::are_standard))]
pub fn standard_rules()
    ensures { AreStandard }
{}

/// Worked examples of dialects, computed by the definitions: what lines are by the dialects that come ready and by a
/// vendor's, and which rules are refused.
#[tactic(auto, using(crate::proofs::dialects::DialectRowFacts::are_known_finals, crate::proofs::dialects::DialectRowFacts::are_known_kinds, crate::proofs::dialects::DialectRowFacts::is_vendor, crate::proofs::dialects::DialectRowFacts::are_refused, crate::proofs::dialects::DialectRowFacts::are_taken))]
pub fn worked_dialects()
    ensures finals { AreKnownFinals }
    ensures kinds { AreKnownKinds }
    ensures vendor { IsVendor }
    ensures refused { AreRefused }
    ensures taken { AreTaken }
{}
