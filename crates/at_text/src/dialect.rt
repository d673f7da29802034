//! Dialects: which lines end an answer, and which are unsolicited.
ghost use Rattle.std.specs.Prelude.{◌≡◌, ◌≤◌, IfOk, IfErr, OnOk, OnErr, option_map, option_copied, Some, ℕ};
ghost use Rattle.std.specs.List.{list_any, list_all, position, find};
ghost use Rattle.at_text.specs.Lines.{is_line_end};
ghost use Rattle.at_text.specs.Rules.{FinalRule, UrcRule, pattern, takes, no_rules, with_rule, final_by, kind_by, kind_named, dialect_of, name_at, name_of, name_by, kind_with_name};
ghost use Rattle.at_text.specs.Refusals.{IsRefused, HasNoReasonBelow, IsSound, count, is_name, is_visible};
ghost use Rattle.at_text.specs.Deciding.{lent, can_meet, can_take_command, can_be_ambiguous, text_refusal, room_refusal, rule_refusal, refusal_of};
ghost use Rattle.at_text.specs.KnownRules.{common, dialling};
ghost use Rattle.at_text.specs.StandardRules.{standard_finals, standard_pattern, standard_urcs};

use crate::clashes::StandardLine;
use crate::dialect_error::DialectError;
use crate::finals::{Final, final_of};
use crate::heads::{HEADS, Span, head, mark, spans_of_finals, spans_of_urcs};
use crate::known_rules::{common_finals, common_urcs, dialling_finals};
use crate::rules::{
    Form, Pattern, PatternRef, TEXT_LEN, Urc, copy_patterns, copy_urcs, first_kind, first_place,
    meets_pattern, meets_urc, place_named, push_pattern, push_urc,
};
use crate::unsolicited::{UrcKind, unsolicited_of};
use std::alloc::Global;
use std::marker::Model;

/// How many rules of its own a dialect has at most.
const RULES: usize = 64;

/// How many octets a name has at most.
const NAME_LEN: usize = 64;

/// Which lines end an answer and which are unsolicited: those of the standard, and those of rules of its own.
/// Contracts see its own rules, in the order in which they were added.
#[derive(Drop)]
pub struct Dialect {
    finals: Vec<Pattern>,
    urcs: Vec<Urc>,
    // for each head of a line, where the rules stand that may take it
    final_spans: [Span; HEADS],
    urc_spans: [Span; HEADS],
}

impl Model for Dialect {
    ghost use Rattle.at_text.specs.Rules.{Rules};
    ghost use Rattle.at_text.specs.Heads.{IsKept};

    ghost Value = { Rules };

    ghost view = { λ d. record { finals = d.finals.items; urcs = d.urcs.items } };

    ghost invariant = { λ d. IsKept (record { finals = d.finals.items; urcs = d.urcs.items }) d.final_spans d.urc_spans };
}

#[tactic(auto, using(crate::proofs::dialects::Heading::kept_standard))]
impl Dialect {
    /// The standard's final codes and unsolicited lines, and no rules of its own.
    pub fn standard(alloc: Global) -> Dialect
        ensures { result ≡ no_rules }
    {
        Dialect {
            finals: Vec::new(alloc),
            urcs: Vec::new(alloc),
            final_spans: [Span::none(); HEADS],
            urc_spans: [Span::none(); HEADS],
        }
    }

    /// A copy of the rules. Refused with 8 NoMemory.
    pub fn copy(&self) -> Result<Dialect, DialectError>
        ensures copy { IfOk result (λ copy. copy ≡ self.now) }
        ensures refused { IfErr result (λ why. why ≡ DialectError.NoMemory) }
    {
        let finals = copy_patterns(&self.finals)?;
        let urcs = copy_urcs(&self.urcs)?;
        Ok(Dialect {
            finals,
            urcs,
            final_spans: self.final_spans,
            urc_spans: self.urc_spans,
        })
    }

    /// The standard, and what modems commonly send beside it: as a final code `+CMS ERROR:` (27.005, 3.2.5), and as
    /// unsolicited lines `+CEREG:` (27.007, 10.1.22), `+C5GREG:` (27.007, 10.1.47), `+CMTI:`, `+CDSI:` (27.005,
    /// 3.4.1), `+CLIP:` (27.007, 7.6), `+CCWA:` (27.007, 7.12), `+CTZV:` and `+CTZE:` (27.007, 8.41), each of the kind
    /// of its name, without `+` and colon. Refused only with 8 NoMemory.
    ///
    /// It has neither `+CMT:` nor `+CDS:`, whose message comes on a second line, nor `CONNECT`, behind which octets
    /// of data follow.
    pub fn common(alloc: Global) -> Result<Dialect, DialectError>
        ensures rules { IfOk result (λ dialect. dialect ≡ common) }
        ensures refused { IfErr result (λ why. why ≡ DialectError.NoMemory) }
    {
        let finals = common_finals(alloc)?;
        let urcs = common_urcs(alloc)?;
        let final_spans = spans_of_finals(&finals);
        let urc_spans = spans_of_urcs(&urcs);
        Ok(Dialect {
            finals,
            urcs,
            final_spans,
            urc_spans,
        })
    }

    /// What `common` has, and the final codes of dialling, `NO CARRIER`, `BUSY`, `NO ANSWER` and `NO DIALTONE` (V.250,
    /// 5.7.1). A modem can send these unasked as well: then they end whatever command is under way. Refused only with 8
    /// NoMemory.
    pub fn dialling(alloc: Global) -> Result<Dialect, DialectError>
        ensures rules { IfOk result (λ dialect. dialect ≡ dialling) }
        ensures refused { IfErr result (λ why. why ≡ DialectError.NoMemory) }
    {
        let finals = dialling_finals(alloc)?;
        let urcs = common_urcs(alloc)?;
        let final_spans = spans_of_finals(&finals);
        let urc_spans = spans_of_urcs(&urcs);
        Ok(Dialect {
            finals,
            urcs,
            final_spans,
            urc_spans,
        })
    }

    /// How many rules of its own the dialect has: at most 64. No line is both a final code and unsolicited by it. A line that
    /// begins with `AT` or `at` is neither.
    pub fn count(&self) -> usize
        ensures count { result ≡ count self.now }
        ensures sound { IsSound self.now }
    {
        self.finals.len() + self.urcs.len()
    }

    /// What a line says as a final code: what it says by the standard, else Named, with the place of the dialect's first final
    /// rule that takes it. `None` where the line is no final code.
    pub fn final_of(&self, line: &[u8]) -> Option<Final>
        ensures { result ≡ final_by self.now line.now }
    {
        match final_of(line) {
            Some(code) => Some(code),
            None => self.own_final_of(line),
        }
    }

    /// What a line says by the dialect's own final rules.
    fn own_final_of(&self, line: &[u8]) -> Option<Final>
        ensures { result ≡ option_map Final.Named (position (λ p. takes p line.now) self.now.finals) }
    {
        if self.finals.is_empty() {
            return None;
        }
        let span = self.final_spans[head(line)];
        let place = first_place(span.part(&self.finals), line)?;
        Some(Final::Named(span.start + place as u8))
    }

    /// Whether a line is a final code, the last of an answer.
    #[tactic(auto, using(crate::proofs::dialects::Choosing::some_final))]
    pub fn is_final(&self, line: &[u8]) -> bool
        ensures { result ≡ (dialect_of self.now).is_final line.now }
    {
        self.final_of(line).is_some()
    }

    #[inline(always)]
    /// The kind of a line that no command asked for: its kind by the standard, else that of the dialect's first unsolicited
    /// rule that takes it. `None` where no rule takes the line; never Other. A kind of the dialect's own has the name of the
    /// rule that takes the line.
    pub fn unsolicited_of(&self, line: &[u8]) -> Option<UrcKind>
        ensures kind { result ≡ (dialect_of self.now).kind_of line.now }
        ensures name { (place : ℕ) → result ≡ Some (UrcKind.Own place) → name_at self.now place ≡ name_by self.now line.now }
    {
        match unsolicited_of(line) {
            Some(kind) => Some(kind),
            None => self.own_kind_of(line),
        }
    }

    #[inline(always)]
    /// The kind of a line by the dialect's own rules of unsolicited lines. That there are none is seen at once.
    fn own_kind_of(&self, line: &[u8]) -> Option<UrcKind>
        ensures kind { result ≡ option_map (λ u. UrcKind.Own u.kind) (find (λ u. takes u.pattern line.now) self.now.urcs) }
        ensures sound { IsSound self.now }
    {
        if self.urcs.is_empty() {
            return None;
        }
        self.ruled_kind_of(line)
    }

    /// The same, by a look at the rules.
    fn ruled_kind_of(&self, line: &[u8]) -> Option<UrcKind>
        ensures kind { result ≡ option_map (λ u. UrcKind.Own u.kind) (find (λ u. takes u.pattern line.now) self.now.urcs) }
        ensures sound { IsSound self.now }
    {
        let span = self.urc_spans[head(line)];
        first_kind(span.part(&self.urcs), line)
    }

    /// The name of a kind of the dialect's own, and None of any other.
    pub fn name_of(&self, kind: UrcKind) -> Option<&[u8]>
        ensures { option_copied result ≡ name_of self.now kind }
    {
        match kind {
            UrcKind::Own(place) => self.name_at(usize::from(place)),
            _ => None,
        }
    }

    fn name_at(&self, place: usize) -> Option<&[u8]>
        ensures { option_copied result ≡ name_at self.now place }
    {
        let rule = self.urcs.get(place)?;
        Some(rule.name.as_slice())
    }

    /// The kind of this name, if a rule of the dialect's own has it.
    pub fn kind_named(&self, name: &[u8]) -> Option<UrcKind>
        ensures { result ≡ kind_with_name self.now name.now }
    {
        let place = place_named(&self.urcs, name);
        if place < self.urcs.len() {
            Some(UrcKind::Own(place as u8))
        } else {
            None
        }
    }

    /// Adds a final rule behind the others. A refusal leaves the dialect as it was, and is the first that applies: 1
    /// TooManyRules, 2 NoText, 3 TextTooLong, 4 LineEnd, 6 Command, 7 Ambiguous, 8 NoMemory.
    pub fn add_final(&mut self, form: Form, text: &[u8]) -> Result<(), DialectError>
        ensures added { OnOk result (self.new ≡ with_rule self.old (FinalRule form text.now)) }
        ensures taken { OnOk result (HasNoReasonBelow 8 self.old (FinalRule form text.now)) }
        ensures refused { IfErr result (IsRefused self.old (FinalRule form text.now)) }
        ensures same { OnErr result (self.new ≡ self.old) }
    {
        match self.final_refusal(form, text) {
            Some(why) => Err(why),
            None => {
                let place = self.finals.len() as u8;
                push_pattern(&mut self.finals, form, text)?;
                mark(&mut self.final_spans, place, form, text);
                Ok(())
            }
        }
    }

    /// Adds a rule of unsolicited lines behind the others. Its kind is that of the first rule of the same name, else a
    /// new one. A refusal leaves the dialect as it was, and is the first that applies: 1 TooManyRules, 2 NoText, 3
    /// TextTooLong, 4 LineEnd, 5 BadName, 6 Command, 7 Ambiguous, 8 NoMemory.
    pub fn add_unsolicited(
        &mut self,
        form: Form,
        text: &[u8],
        name: &[u8],
    ) -> Result<(), DialectError>
        ensures added { OnOk result (self.new ≡ with_rule self.old (UrcRule form text.now name.now)) }
        ensures taken { OnOk result (HasNoReasonBelow 8 self.old (UrcRule form text.now name.now)) }
        ensures refused { IfErr result (IsRefused self.old (UrcRule form text.now name.now)) }
        ensures same { OnErr result (self.new ≡ self.old) }
    {
        match self.urc_refusal(form, text, name) {
            Some(why) => Err(why),
            None => {
                let kind = self.kind_number(name);
                let place = self.urcs.len() as u8;
                push_urc(&mut self.urcs, kind, name, form, text)?;
                mark(&mut self.urc_spans, place, form, text);
                Ok(())
            }
        }
    }

    /// Why a final rule is refused.
    fn final_refusal(&self, form: Form, text: &[u8]) -> Option<DialectError>
        ensures { result ≡ refusal_of self.now (FinalRule form text.now) }
    {
        match self.room_refusal(text) {
            Some(why) => Some(why),
            None => self.final_rule_refusal(PatternRef { form, text }),
        }
    }

    /// Why a final rule of a good text is refused.
    fn final_rule_refusal(&self, rule: PatternRef<'_>) -> Option<DialectError>
        ensures { result ≡ rule_refusal self.now (FinalRule rule.entry.form rule.entry.text.now) }
    {
        if takes_command(rule) {
            return Some(DialectError::Command);
        }
        if meets_standard_urc(rule) {
            return Some(DialectError::Ambiguous);
        }
        if meets_urc(rule, &self.urcs) {
            return Some(DialectError::Ambiguous);
        }
        None
    }

    /// Why a rule of unsolicited lines is refused.
    fn urc_refusal(&self, form: Form, text: &[u8], name: &[u8]) -> Option<DialectError>
        ensures { result ≡ refusal_of self.now (UrcRule form text.now name.now) }
    {
        match self.room_refusal(text) {
            Some(why) => Some(why),
            None => self.urc_rule_refusal(PatternRef { form, text }, name),
        }
    }

    /// Why a rule of unsolicited lines and a good text is refused.
    fn urc_rule_refusal(&self, rule: PatternRef<'_>, name: &[u8]) -> Option<DialectError>
        ensures { result ≡ rule_refusal self.now (UrcRule rule.entry.form rule.entry.text.now name.now) }
    {
        if !is_name(name) {
            return Some(DialectError::BadName);
        }
        if takes_command(rule) {
            return Some(DialectError::Command);
        }
        if meets_standard_final(rule) {
            return Some(DialectError::Ambiguous);
        }
        if meets_pattern(rule, &self.finals) {
            return Some(DialectError::Ambiguous);
        }
        None
    }

    /// Why any rule of this text is refused.
    fn room_refusal(&self, text: &[u8]) -> Option<DialectError>
        ensures { result ≡ room_refusal self.now text.now }
    {
        if self.count() >= RULES {
            return Some(DialectError::TooManyRules);
        }
        text_refusal(text)
    }

    /// The number of the kind of this name, once a rule has it.
    fn kind_number(&self, name: &[u8]) -> u8
        ensures { result ≡ kind_named self.now name.now }
    {
        place_named(&self.urcs, name) as u8
    }
}

/// Why a text is none of a rule.
fn text_refusal(text: &[u8]) -> Option<DialectError>
    ensures { result ≡ text_refusal text.now }
{
    if text.is_empty() {
        return Some(DialectError::NoText);
    }
    if text.len() > TEXT_LEN {
        return Some(DialectError::TextTooLong);
    }
    if has_line_end(text) {
        return Some(DialectError::LineEnd);
    }
    None
}

fn has_line_end(text: &[u8]) -> bool
    ensures { result ≡ list_any is_line_end text.now }
{
    text.iter().any(|octet| *octet == b'\r' || *octet == b'\n')
}

fn is_name(name: &[u8]) -> bool
    ensures { result ≡ is_name name.now }
{
    !name.is_empty() && name.len() <= NAME_LEN && is_all_visible(name)
}

fn is_all_visible(name: &[u8]) -> bool
    ensures { result ≡ list_all is_visible name.now }
{
    name.iter().all(|octet| octet.is_ascii_graphic())
}

/// Whether a line of the rule begins as a command line does.
fn takes_command(rule: PatternRef<'_>) -> bool
    ensures { result ≡ can_take_command (lent rule.entry) }
{
    meets_text(rule, Form::Prefix, b"AT") || meets_text(rule, Form::Prefix, b"at")
}

/// Whether a line of the rule is one of the standard's final codes.
fn meets_standard_final(rule: PatternRef<'_>) -> bool
    ensures { result ≡ list_any (λ r. can_meet (lent rule.entry) r.0) standard_finals }
{
    meets_line(rule, StandardLine::Ok)
        || meets_line(rule, StandardLine::Error)
        || meets_line(rule, StandardLine::CmeError)
}

/// Whether a line of the rule is one of the standard's unsolicited lines.
fn meets_standard_urc(rule: PatternRef<'_>) -> bool
    ensures { result ≡ list_any (λ r. can_meet (lent rule.entry) r.0) standard_urcs }
{
    meets_line(rule, StandardLine::Ring)
        || meets_line(rule, StandardLine::Cring)
        || meets_line(rule, StandardLine::Creg)
        || meets_line(rule, StandardLine::Cgreg)
        || meets_line(rule, StandardLine::Cgev)
        || meets_line(rule, StandardLine::Ciev)
}

fn meets_line(rule: PatternRef<'_>, line: StandardLine) -> bool
    ensures { result ≡ can_meet (lent rule.entry) (standard_pattern line) }
{
    meets_text(rule, line.form(), line.text().as_bytes())
}

fn meets_text(rule: PatternRef<'_>, form: Form, text: &[u8]) -> bool
    ensures { result ≡ can_meet (lent rule.entry) (pattern form text.now) }
{
    rule.meets(PatternRef { form, text })
}
