//! The text of a dialect: a rule a line.
ghost use Rattle.std.specs.Prelude.{◌≡◌, ◌≢◌, ◌++◌, ◌∷◌, ◌<◌, ◌-◌, ◌^◌, ℕ, List, IfErr, IfOk, MatchOption, MatchResult, OnErr, OnOk, codes, take};
ghost use Rattle.at_text.specs.Refusals.{HasNoReasonBelow, IsRefused};
ghost use Rattle.at_text.specs.Rules.{with_rule};
ghost use Rattle.ctl_text.specs.DialectNames.{dialect_with_name};
ghost use Rattle.ctl_text.specs.DialectTexts.{AreLinesOf, IsDialectRefusal, RefusesAt, SaysNone, SaysRule, form_text, is_passed_over, rule_in};
ghost use Rattle.ctl_text.specs.Input.{input_lines};

use crate::clashes::{Clash, clash_of};
use crate::lines::{next_line, split_last, split_once};
use at_text::octets::skip_blanks;
use at_text::{Dialect, DialectError, Form};
use std::alloc::Global;

/// The first part of a line that isn't as a rule has it.
#[derive(Clone, Copy, Debug)]
pub enum RulePart {
    /// The word that it begins with.
    Word,
    /// FORM.
    Form,
    /// NAME.
    Name,
}

/// Why a text isn't that of a dialect.
#[derive(Clone, Copy, Debug)]
pub enum DialectRefusal {
    /// This line, counted from 1, says no rule. This part is the first that is wrong.
    NoRule(u64, RulePart),
    /// The rule of this line, counted from 1, is refused for this reason, which is neither Ambiguous nor NoMemory.
    Refused(u64, DialectError),
    /// The rule of this line, counted from 1, is refused as Ambiguous. It has a line in common with this.
    Clashes(u64, Option<Clash>),
    /// Memory was refused.
    NoMemory,
}

/// The parts of a line that says a rule.
#[derive(Clone, Copy)]
pub(crate) enum RuleText<'a> {
    Final {
        form: Form,
        text: &'a [u8],
    },
    Unsolicited {
        form: Form,
        text: &'a [u8],
        name: &'a [u8],
    },
}

/// The form of this word.
fn form_of(word: &[u8]) -> Option<Form>
    ensures { MatchOption result ((form : Form) → word.now ≢ form_text form) (λ form. word.now ≡ form_text form) }
{
    match word {
        b"line" => Some(Form::Line),
        b"prefix" => Some(Form::Prefix),
        b"quoted" => Some(Form::Quoted),
        b"report" => Some(Form::Report),
        _ if word == b"open-report".as_slice() => Some(Form::OpenReport),
        _ => None,
    }
}

/// A form, and what stands behind the blank after it.
#[tactic(auto, using(crate::proofs::RuleLines::no_form_alone, crate::proofs::RuleLines::no_form_first))]
fn formed(words: &[u8]) -> Option<(Form, &[u8])>
    ensures { MatchOption result ((form : Form) (rest : List ℕ) → words.now ≢ form_text form ++ 32 ∷ rest)
        (λ parts. words.now ≡ form_text parts.0 ++ 32 ∷ parts.1.now) }
{
    let (word, rest) = split_once(words, b' ')?;
    let form = form_of(word)?;
    Some((form, rest))
}

/// The rule of the words behind `final`.
#[tactic(auto, using(crate::proofs::RuleLines::no_final, crate::proofs::RuleLines::is_final))]
fn final_text(words: &[u8]) -> Result<RuleText<'_>, RulePart>
    ensures { MatchResult result (λ rule. SaysRule (codes "final " ++ words.now) (rule_in rule))
        (λ part. SaysNone part (codes "final " ++ words.now)) }
{
    match formed(words) {
        Some((form, text)) => Ok(RuleText::Final { form, text }),
        None => Err(RulePart::Form),
    }
}

/// The rule of the words behind `unsolicited`.
#[tactic(auto, using(crate::proofs::RuleLines::no_unsolicited, crate::proofs::RuleLines::no_name, crate::proofs::RuleLines::is_unsolicited))]
fn unsolicited_text(words: &[u8]) -> Result<RuleText<'_>, RulePart>
    ensures { MatchResult result (λ rule. SaysRule (codes "unsolicited " ++ words.now) (rule_in rule))
        (λ part. SaysNone part (codes "unsolicited " ++ words.now)) }
{
    let Some((form, rest)) = formed(words) else {
        return Err(RulePart::Form);
    };
    match split_last(rest, b' ') {
        Some((text, name)) => Ok(RuleText::Unsolicited { form, text, name }),
        None => Err(RulePart::Name),
    }
}

/// The rule of a line, or its first part that is wrong.
#[tactic(auto, using(crate::proofs::RuleLines::no_rule))]
pub(crate) fn rule_of(line: &[u8]) -> Result<RuleText<'_>, RulePart>
    ensures { MatchResult result (λ rule. SaysRule line.now (rule_in rule)) (λ part. SaysNone part line.now) }
{
    if let Some(words) = line.strip_prefix(b"final ") {
        return final_text(words);
    }
    if let Some(words) = line.strip_prefix(b"unsolicited ") {
        return unsolicited_text(words);
    }
    Err(RulePart::Word)
}

/// Whether a line is a comment, or has nothing but blanks.
fn is_passed_over(line: &[u8]) -> bool
    ensures { result ≡ is_passed_over line.now }
{
    matches!(line, [b'#', ..]) || skip_blanks(line).is_empty()
}

/// One more rule, behind those that there are. It is refused as the dialect's own calls refuse it.
fn add_rule(dialect: &mut Dialect, rule: RuleText<'_>) -> Result<(), DialectError>
    ensures added { OnOk result (dialect.new ≡ with_rule dialect.old (rule_in rule.entry)) }
    ensures taken { OnOk result (HasNoReasonBelow 8 dialect.old (rule_in rule.entry)) }
    ensures refused { IfErr result (IsRefused dialect.old (rule_in rule.entry)) }
    ensures same { OnErr result (dialect.new ≡ dialect.old) }
{
    match rule {
        RuleText::Final { form, text } => dialect.add_final(form, text),
        RuleText::Unsolicited { form, text, name } => dialect.add_unsolicited(form, text, name),
    }
}

/// The refusal of this rule, at the line behind so many of a text's.
fn refusal_behind(text: &[u8], count: u64, rule: RuleText<'_>, why: DialectError) -> DialectRefusal
    requires { count < 2 ^ 64 - 1 }
    ensures { RefusesAt (rule_in rule.entry) (take count (input_lines text.now)) count why result }
{
    match why {
        DialectError::NoMemory => DialectRefusal::NoMemory,
        DialectError::Ambiguous => DialectRefusal::Clashes(count + 1, clash_of(text, count, rule)),
        _ => DialectRefusal::Refused(count + 1, why),
    }
}

/// The dialect of a text: the standard, and the rule of each line, in order. A line is `final FORM TEXT` or `unsolicited FORM
/// TEXT NAME`, where FORM is `line`, `prefix`, `quoted`, `report` or `open-report` and NAME the name of the lines' kind, without
/// blanks. Lines that begin with `#` and those of nothing but blanks are passed over. Refused at the first line that says no rule
/// or whose rule is refused, and with NoMemory.
pub fn read_dialect(alloc: Global, text: &[u8]) -> Result<Dialect, DialectRefusal>
    ensures { MatchResult result (AreLinesOf (input_lines text.now)) (IsDialectRefusal (input_lines text.now)) }
{
    let mut dialect = Dialect::standard(alloc);
    let mut place = 0;
    let mut left = text;
    while let Some((line, rest)) = next_line(left) {
        left = rest;
        place += 1;
        if is_passed_over(line) {
            continue;
        }
        let rule = match rule_of(line) {
            Ok(rule) => rule,
            Err(part) => return Err(DialectRefusal::NoRule(place, part)),
        };
        if let Err(why) = add_rule(&mut dialect, rule) {
            return Err(refusal_behind(text, place - 1, rule, why));
        }
    }
    Ok(dialect)
}

/// The dialect that comes ready under this name: `common` or `dialling`. Refused only with 8 NoMemory.
pub fn dialect_named(alloc: Global, name: &[u8]) -> Result<Option<Dialect>, DialectError>
    ensures known { IfOk result (λ dialect. dialect ≡ dialect_with_name name.now) }
    ensures refused { IfErr result (λ why. why ≡ DialectError.NoMemory) }
{
    if name == b"common".as_slice() {
        return Ok(Some(Dialect::common(alloc)?));
    }
    if name == b"dialling".as_slice() {
        return Ok(Some(Dialect::dialling(alloc)?));
    }
    Ok(None)
}
