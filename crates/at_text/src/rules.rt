//! Rules of lines: a form and a text.
ghost use Rattle.std.specs.Prelude.{IfOk, ◌≡◌, ◌≤◌, ◌+◌, [], ◌∷◌, ◌++◌, true, length, OnOk, OnErr, option_map, option_copied};
ghost use Rattle.std.specs.List.{list_any, find, position, position_or_len};
ghost use Rattle.std.specs.Str.{bytes_eq};
ghost use Rattle.at_text.specs.Octets.{is_digit, skip_blanks, begins};
ghost use Rattle.at_text.specs.Rules.{goes_on, takes, pattern, urc, is_without_number};
ghost use Rattle.at_text.specs.Deciding.{lent, both_take, can_meet};

use crate::octets::skip_blanks;
use crate::text::Text;
use crate::unsolicited::{UrcKind, behind_comma, is_without_second};
use arrayvec::ArrayVec;
use std::alloc::AllocError;

/// How many octets the text of a rule has at most.
pub(crate) const TEXT_LEN: usize = 64;

/// How many octets a text and an ending have at most.
const LINE_LEN: usize = TEXT_LEN + 1;

/// How a line goes on behind the text of its rule. A line of a rule begins with the rule's text.
#[derive(Clone, Copy)]
pub enum Form {
    /// Not at all: the line is the text alone.
    Line,
    /// In any way.
    Prefix,
    /// With any blanks and then a quote.
    Quoted,
    /// With any blanks and then a digit. Behind the text there is no comma, or the first is followed by any blanks and
    /// a quote: `+CREG: 1`, `+CREG: 1,"00A1"`, and not `+CREG: 0,1`.
    Report,
    /// With any blanks and then a digit. Behind the text there is no comma, or the first is followed by anything but
    /// any blanks and a digit: `+CEREG: 3,,,,0,11`, and not `+CEREG: 0,1`.
    OpenReport,
}

impl Form {
    /// Whether a line goes on so behind the text of its rule.
    fn goes_on(self, rest: &[u8]) -> bool
        ensures { result ≡ goes_on self rest.now }
    {
        match self {
            Form::Line => rest.is_empty(),
            Form::Prefix => true,
            Form::Quoted => matches!(skip_blanks(rest), [b'"', ..]),
            Form::Report => begins_with_digit(rest) && is_without_second(rest),
            Form::OpenReport => begins_with_digit(rest) && is_without_number(rest),
        }
    }
}

/// The lines of a rule: those with this text at their front that go on as the form says.
#[derive(Clone, Copy)]
pub(crate) struct PatternRef<'a> {
    pub form: Form,
    pub text: &'a [u8],
}

impl PatternRef<'_> {
    /// Whether it is a line of the rule.
    pub(crate) fn takes(self, line: &[u8]) -> bool
        ensures { result ≡ takes (lent self.entry) line.now }
    {
        match line.strip_prefix(self.text) {
            Some(rest) => self.form.goes_on(rest),
            None => false,
        }
    }

    /// Whether some line is of both rules, where their texts are short: the longer text, or the longer text with a
    /// quote or a digit behind it.
    #[tactic(auto, unfolding(crate::specs::Deciding::can_meet))]
    pub(crate) fn meets(self, other: PatternRef<'_>) -> bool
        ensures { result ≡ can_meet (lent self.entry) (lent other.entry) }
    {
        if self.text.len() > TEXT_LEN || other.text.len() > TEXT_LEN {
            return false;
        }
        let longer = if self.text.len() < other.text.len() {
            other.text
        } else {
            self.text
        };
        self.shares(other, longer, b"")
            || self.shares(other, longer, b"\"")
            || self.shares(other, longer, b"0")
    }

    /// Whether this text with this ending is a line of both rules.
    fn shares(self, other: PatternRef<'_>, text: &[u8], ending: &[u8]) -> bool
        requires { length text.now + length ending.now ≤ 65 }
        ensures { result ≡ both_take (lent self.entry) (lent other.entry) (text.now ++ ending.now) }
    {
        let mut line = ArrayVec::<u8, LINE_LEN>::new();
        let _ = line.try_extend_from_slice(text);
        let _ = line.try_extend_from_slice(ending);
        self.takes(line.as_slice()) && other.takes(line.as_slice())
    }
}

/// The lines of a rule, in memory of its own.
#[derive(Drop)]
pub(crate) struct Pattern {
    pub form: Form,
    pub text: Text,
}

/// A rule of unsolicited lines, with the name and the number of their kind.
#[derive(Drop)]
pub(crate) struct Urc {
    pub kind: u8,
    pub name: Text,
    pub pattern: Pattern,
}

impl Pattern {
    pub(crate) fn lend(&self) -> PatternRef<'_>
        ensures { lent result ≡ self.now }
    {
        PatternRef {
            form: self.form,
            text: self.text.as_slice(),
        }
    }

    /// Whether it is a line of the rule.
    pub(crate) fn takes(&self, line: &[u8]) -> bool
        ensures { result ≡ takes self.now line.now }
    {
        self.ends_alike(line) && self.lend().takes(line)
    }

    /// Whether the line has the text's last octet in its place: most lines of other rules haven't.
    fn ends_alike(&self, line: &[u8]) -> bool
        ensures { takes self.now line.now ≡ true → result ≡ true }
    {
        let text = self.text.as_slice();
        if text.is_empty() {
            return true;
        }
        let last = text.len() - 1;
        last < line.len() && line[last] == text[last]
    }

    /// Whether some line is of both rules, where their texts are short.
    pub(crate) fn meets(&self, other: PatternRef<'_>) -> bool
        ensures { result ≡ can_meet (lent other.entry) self.now }
    {
        other.meets(self.lend())
    }

    fn copy(&self) -> Result<Pattern, AllocError>
        ensures { IfOk result (λ copy. copy ≡ self.now) }
    {
        let text = self.text.copy()?;
        Ok(Pattern {
            form: self.form,
            text,
        })
    }
}

impl Urc {
    fn copy(&self) -> Result<Urc, AllocError>
        ensures { IfOk result (λ copy. copy ≡ self.now) }
    {
        let name = self.name.copy()?;
        let pattern = self.pattern.copy()?;
        Ok(Urc {
            kind: self.kind,
            name,
            pattern,
        })
    }
}

/// A copy of the rules.
pub(crate) fn copy_patterns(patterns: &Vec<Pattern>) -> Result<Vec<Pattern>, AllocError>
    ensures { IfOk result (λ copies. copies.items ≡ patterns.now.items) }
{
    let mut copies = Vec::with_capacity(*patterns.allocator(), patterns.len())?;
    for pattern in patterns {
        copies.push(pattern.copy()?)?;
    }
    Ok(copies)
}

/// A copy of the rules.
pub(crate) fn copy_urcs(urcs: &Vec<Urc>) -> Result<Vec<Urc>, AllocError>
    ensures { IfOk result (λ copies. copies.items ≡ urcs.now.items) }
{
    let mut copies = Vec::with_capacity(*urcs.allocator(), urcs.len())?;
    for urc in urcs {
        copies.push(urc.copy()?)?;
    }
    Ok(copies)
}

/// One more rule behind these. Want of memory leaves them as they were.
pub(crate) fn push_pattern(
    patterns: &mut Vec<Pattern>,
    form: Form,
    text: &[u8],
) -> Result<(), AllocError>
    ensures ok { OnOk result (patterns.new.items ≡ patterns.old.items ++ pattern form text.now ∷ []) }
    ensures err { OnErr result (patterns.new.items ≡ patterns.old.items) }
{
    let text = Text::from(Vec::from_slice(*patterns.allocator(), text)?);
    patterns.push(Pattern { form, text })?;
    Ok(())
}

/// One more rule behind these, of the kind of this number and name. Want of memory leaves them as they were.
pub(crate) fn push_urc(
    urcs: &mut Vec<Urc>,
    kind: u8,
    name: &[u8],
    form: Form,
    text: &[u8],
) -> Result<(), AllocError>
    ensures ok { OnOk result (urcs.new.items ≡ urcs.old.items ++ urc kind name.now (pattern form text.now) ∷ []) }
    ensures err { OnErr result (urcs.new.items ≡ urcs.old.items) }
{
    let alloc = *urcs.allocator();
    let name = Text::from(Vec::from_slice(alloc, name)?);
    let text = Text::from(Vec::from_slice(alloc, text)?);
    let pattern = Pattern { form, text };
    urcs.push(Urc {
        kind,
        name,
        pattern,
    })?;
    Ok(())
}

/// The place of the first rule that takes the line.
pub(crate) fn first_place(patterns: &[Pattern], line: &[u8]) -> Option<usize>
    ensures { result ≡ position (λ p. takes p line.now) patterns.now }
{
    patterns.iter().position(|pattern| pattern.takes(line))
}

/// The first rule that takes the line.
fn first_urc<'a>(urcs: &'a [Urc], line: &[u8]) -> Option<&'a Urc>
    ensures { option_copied result ≡ find (λ u. takes u.pattern line.now) urcs.now }
{
    urcs.iter().find(|urc| urc.pattern.takes(line))
}

/// The kind of a line by the first rule that takes it.
pub(crate) fn first_kind(urcs: &[Urc], line: &[u8]) -> Option<UrcKind>
    ensures { result ≡ option_map (λ u. UrcKind.Own u.kind) (find (λ u. takes u.pattern line.now) urcs.now) }
{
    let urc = first_urc(urcs, line)?;
    Some(UrcKind::Own(urc.kind))
}

/// The place of the first rule of this name, or how many there are.
pub(crate) fn place_named(urcs: &[Urc], name: &[u8]) -> usize
    ensures place { result ≡ position_or_len (λ u. bytes_eq u.name name.now) urcs.now }
    ensures within { result ≤ length urcs.now }
{
    let place = urcs.iter().position(|urc| urc.name.as_slice() == name);
    place.unwrap_or(urcs.len())
}

/// Whether some line is of this rule and one of those.
pub(crate) fn meets_pattern(rule: PatternRef<'_>, patterns: &[Pattern]) -> bool
    ensures { result ≡ list_any (λ p. can_meet (lent rule.entry) p) patterns.now }
{
    patterns.iter().any(|pattern| pattern.meets(rule))
}

/// Whether some line is of this rule and one of those.
pub(crate) fn meets_urc(rule: PatternRef<'_>, urcs: &[Urc]) -> bool
    ensures { result ≡ list_any (λ u. can_meet (lent rule.entry) u.pattern) urcs.now }
{
    urcs.iter().any(|urc| urc.pattern.meets(rule))
}

fn begins_with_digit(rest: &[u8]) -> bool
    ensures { result ≡ begins is_digit (skip_blanks rest.now) }
{
    matches!(skip_blanks(rest), [b'0'..=b'9', ..])
}

fn is_without_number(rest: &[u8]) -> bool
    ensures { result ≡ is_without_number rest.now }
{
    match behind_comma(rest) {
        Some(more) => !begins_with_digit(more),
        None => true,
    }
}
