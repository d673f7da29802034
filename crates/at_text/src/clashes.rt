//! Lines that two rules have in common.
ghost use Rattle.std.specs.Prelude.{◌≡◌, ◌≤◌, true, false, length};
ghost use Rattle.at_text.specs.Deciding.{can_meet};
ghost use Rattle.at_text.specs.Refusals.{HaveLineInCommon};
ghost use Rattle.at_text.specs.Rules.{pattern};
ghost use Rattle.at_text.specs.StandardRules.{standard_form, standard_text};

use crate::rules::{Form, PatternRef};

/// A final code or an unsolicited line of the standards.
#[derive(Clone, Copy, Debug)]
pub enum StandardLine {
    /// `OK`.
    Ok,
    /// `ERROR`.
    Error,
    /// `+CME ERROR:` and a number or a text.
    CmeError,
    /// `RING`.
    Ring,
    /// `+CRING:` and a kind of call.
    Cring,
    /// `+CREG:` and a registration.
    Creg,
    /// `+CGREG:` and a registration.
    Cgreg,
    /// `+CGEV:` and an event.
    Cgev,
    /// `+CIEV:` and an indicator.
    Ciev,
}

impl StandardLine {
    /// The form of the rule that takes it.
    pub fn form(self) -> Form
        ensures { result ≡ standard_form self }
    {
        match self {
            StandardLine::Ok | StandardLine::Error | StandardLine::Ring => Form::Line,
            StandardLine::CmeError
            | StandardLine::Cring
            | StandardLine::Cgev
            | StandardLine::Ciev => Form::Prefix,
            StandardLine::Creg | StandardLine::Cgreg => Form::Report,
        }
    }

    /// The text of the rule that takes it.
    pub fn text(self) -> &'static str
        ensures { result.now ≡ standard_text self }
    {
        match self {
            StandardLine::Ok => "OK",
            StandardLine::Error => "ERROR",
            StandardLine::CmeError => "+CME ERROR:",
            StandardLine::Ring => "RING",
            StandardLine::Cring => "+CRING:",
            StandardLine::Creg => "+CREG:",
            StandardLine::Cgreg => "+CGREG:",
            StandardLine::Cgev => "+CGEV:",
            StandardLine::Ciev => "+CIEV:",
        }
    }
}

/// Whether some line is of both rules. The answer is no where a text has more than 64 octets, which a dialect refuses.
#[tactic(auto, using(crate::proofs::dialects::Meeting::meet_met, crate::proofs::dialects::Meeting::none_in_common))]
pub fn have_line_in_common(form: Form, text: &[u8], other_form: Form, other_text: &[u8]) -> bool
    ensures value { result ≡ can_meet (pattern form text.now) (pattern other_form other_text.now) }
    ensures yes { result ≡ true → HaveLineInCommon (pattern form text.now) (pattern other_form other_text.now) }
    ensures no { length text.now ≤ 64 → length other_text.now ≤ 64 → result ≡ false
        → ¬ HaveLineInCommon (pattern form text.now) (pattern other_form other_text.now) }
{
    let rule = PatternRef { form, text };
    rule.meets(PatternRef {
        form: other_form,
        text: other_text,
    })
}
