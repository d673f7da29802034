//! The places of the rules of a dialect that may take a line, by the line's third and fourth octet.
ghost use Rattle.std.specs.Prelude.{◌≡◌, ◌<◌, ◌≤◌, ℕ, List, true, length, map, drop, take};
ghost use Rattle.at_text.specs.Rules.{pattern, takes};
ghost use Rattle.at_text.specs.Heads.{head, is_headed, no_places, span_at, IsIn, AreSpanned};

use crate::rules::{Form, Pattern, Urc};

/// How many heads there are.
pub(crate) const HEADS: usize = 64;

/// The places from `start` to below `end`.
#[derive(Clone, Copy)]
pub(crate) struct Span {
    pub start: u8,
    pub end: u8,
}

impl Span {
    /// The span of no places.
    pub(crate) fn none() -> Span
        ensures { result ≡ no_places }
    {
        Span { start: 0, end: 0 }
    }

    /// One that has this place too.
    fn with(self, place: u8) -> Span
        requires { place < 255 }
        ensures kept { (i : ℕ) → IsIn i self → IsIn i result }
        ensures more { IsIn place result }
    {
        if self.start >= self.end {
            return Span {
                start: place,
                end: place + 1,
            };
        }
        Span {
            start: self.start.min(place),
            end: self.end.max(place + 1),
        }
    }

    /// The items at its places.
    pub(crate) fn part<T>(self, items: &[T]) -> &[T]
        ensures { result.now ≡ drop self.start (take self.end items.now) }
    {
        let end = usize::from(self.end).min(items.len());
        let start = usize::from(self.start).min(end);
        &items[start..end]
    }
}

/// A number of a line, which its third and fourth octet give.
pub(crate) fn head(line: &[u8]) -> usize
    ensures value { result ≡ head line.now }
    ensures below { result < 64 }
{
    match line {
        [_, _, third, fourth, ..] => (usize::from(*third) * 31 + usize::from(*fourth)) % HEADS,
        [_, _, third] => usize::from(*third) * 31 % HEADS,
        _ => 0,
    }
}

/// Whether all lines of a rule have the head of its text.
fn is_headed(form: Form, text: &[u8]) -> bool
    ensures { result ≡ is_headed form text.now }
{
    match form {
        Form::Line => true,
        _ => text.len() >= 4,
    }
}

/// Puts the place of a rule into the spans of all its lines.
pub(crate) fn mark(spans: &mut [Span; HEADS], place: u8, form: Form, text: &[u8])
    requires { place < 255 }
    ensures kept { (k i : ℕ) → IsIn i (span_at spans.old k) → IsIn i (span_at spans.new k) }
    ensures more { (line : List ℕ) → takes (pattern form text.now) line ≡ true → IsIn place (span_at spans.new (head line)) }
{
    if is_headed(form, text) {
        let head = head(text);
        spans[head] = spans[head].with(place);
    } else {
        mark_all(spans, place);
    }
}

/// Puts a place into each span.
fn mark_all(spans: &mut [Span; HEADS], place: u8)
    requires { place < 255 }
    ensures kept { (k i : ℕ) → IsIn i (span_at spans.old k) → IsIn i (span_at spans.new k) }
    ensures more { (k : ℕ) → k < 64 → IsIn place (span_at spans.new k) }
{
    for span in spans.iter_mut() {
        *span = span.with(place);
    }
}

/// The spans of final rules.
pub(crate) fn spans_of_finals(finals: &[Pattern]) -> [Span; HEADS]
    requires { length finals.now ≤ 64 }
    ensures { AreSpanned finals.now result }
{
    let mut spans = [Span::none(); HEADS];
    for (place, pattern) in finals.iter().enumerate() {
        mark(
            &mut spans,
            place as u8,
            pattern.form,
            pattern.text.as_slice(),
        );
    }
    spans
}

/// The spans of rules of unsolicited lines.
pub(crate) fn spans_of_urcs(urcs: &[Urc]) -> [Span; HEADS]
    requires { length urcs.now ≤ 64 }
    ensures { AreSpanned (map (λ u. u.pattern) urcs.now) result }
{
    let mut spans = [Span::none(); HEADS];
    for (place, urc) in urcs.iter().enumerate() {
        mark(
            &mut spans,
            place as u8,
            urc.pattern.form,
            urc.pattern.text.as_slice(),
        );
    }
    spans
}
