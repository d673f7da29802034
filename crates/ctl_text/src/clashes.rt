//! What a refused rule of a dialect has a line in common with.
ghost use Rattle.std.specs.Prelude.{◌≡◌, ◌≤◌, true, false, length, take, find, option_copied, MatchOption};
ghost use Rattle.at_text.specs.Deciding.{can_meet};
ghost use Rattle.at_text.specs.Refusals.{text_of};
ghost use Rattle.at_text.specs.Rules.{pattern};
ghost use Rattle.at_text.specs.StandardRules.{standard_pattern};
ghost use Rattle.ctl_text.specs.DialectTexts.{AreApart, AreApartFrom, ClashesFirst, ClashesWith, FindsClash, IsApart, IsOfStandard, other_lines, rule_in};
ghost use Rattle.ctl_text.specs.Input.{input_lines};

use crate::dialects::{RuleText, rule_of};
use crate::lines::next_line;
use at_text::{Form, StandardLine, have_line_in_common};

const FINALS: [StandardLine; 3] = [
    StandardLine::Ok,
    StandardLine::Error,
    StandardLine::CmeError,
];

const UNSOLICITED: [StandardLine; 6] = [
    StandardLine::Ring,
    StandardLine::Cring,
    StandardLine::Creg,
    StandardLine::Cgreg,
    StandardLine::Cgev,
    StandardLine::Ciev,
];

/// What has a line in common with a rule, though it is of the other sort.
#[derive(Clone, Copy, Debug)]
pub enum Clash {
    /// The rule of this line of the text, counted from 1.
    Line(u64),
    /// This line of the standards.
    Standard(StandardLine),
}

/// The first of these lines of the standards that is of the rule too.
fn first_in<'a>(form: Form, text: &[u8], lines: &'a [StandardLine]) -> Option<&'a StandardLine>
    ensures { option_copied result ≡ find (λ s. can_meet (pattern form text.now) (standard_pattern s)) lines.now }
{
    lines.iter().find(|line| have_line_in_common(form, text, line.form(), line.text().as_bytes()))
}

fn first_of(form: Form, text: &[u8], lines: &[StandardLine]) -> Option<StandardLine>
    ensures { result ≡ find (λ s. can_meet (pattern form text.now) (standard_pattern s)) lines.now }
{
    first_in(form, text, lines).copied()
}

/// The first line of the standards that is of the rule, though it is of the other sort.
fn standard_of(rule: RuleText<'_>) -> Option<StandardLine>
    ensures { MatchOption result
        (length (text_of (rule_in rule.entry)) ≤ 64 → AreApartFrom (rule_in rule.entry) (other_lines (rule_in rule.entry)))
        (λ s. IsOfStandard (rule_in rule.entry) (other_lines (rule_in rule.entry)) s) }
{
    match rule {
        RuleText::Final { form, text } => first_of(form, text, &UNSOLICITED),
        RuleText::Unsolicited { form, text, .. } => first_of(form, text, &FINALS),
    }
}

/// Whether a line says a rule of the other sort, and some line is of both.
fn clashes_with(rule: RuleText<'_>, line: &[u8]) -> bool
    ensures yes { result ≡ true → ClashesWith (rule_in rule.entry) line.now }
    ensures no { length (text_of (rule_in rule.entry)) ≤ 64 → result ≡ false → IsApart (rule_in rule.entry) line.now }
{
    let Ok(other) = rule_of(line) else {
        return false;
    };
    match rule {
        RuleText::Final { form, text } => match other {
            RuleText::Unsolicited {
                form: other_form,
                text: other_text,
                ..
            } => have_line_in_common(form, text, other_form, other_text),
            RuleText::Final { .. } => false,
        },
        RuleText::Unsolicited { form, text, .. } => match other {
            RuleText::Final {
                form: other_form,
                text: other_text,
            } => have_line_in_common(form, text, other_form, other_text),
            RuleText::Unsolicited { .. } => false,
        },
    }
}

/// The number, counted from 1, of the first of so many lines of a text whose rule has a line in common with this one.
fn line_of(text: &[u8], count: u64, rule: RuleText<'_>) -> Option<u64>
    ensures { MatchOption result
        (length (text_of (rule_in rule.entry)) ≤ 64 → AreApart (rule_in rule.entry) (take count (input_lines text.now)))
        (λ n. ClashesFirst (rule_in rule.entry) (take count (input_lines text.now)) n) }
{
    let mut place = 0;
    let mut left = text;
    while place < count {
        let (line, rest) = next_line(left)?;
        left = rest;
        place += 1;
        if clashes_with(rule, line) {
            return Some(place);
        }
    }
    None
}

/// What a rule behind so many lines of a text has a line in common with: the rule of the first such line, else a line of the standards.
pub(crate) fn clash_of(text: &[u8], count: u64, rule: RuleText<'_>) -> Option<Clash>
    ensures { FindsClash (rule_in rule.entry) (take count (input_lines text.now)) result }
{
    match line_of(text, count, rule) {
        Some(number) => Some(Clash::Line(number)),
        None => match standard_of(rule) {
            Some(line) => Some(Clash::Standard(line)),
            None => None,
        },
    }
}
