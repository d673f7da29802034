//! Unsolicited lines.
ghost use Rattle.std.specs.Prelude.{◌≡◌, ◌<◌, ◌||◌, drop, option_map};
ghost use Rattle.at_text.specs.Octets.{after_comma, begins};
ghost use Rattle.at_text.specs.Unsolicited.{unsolicited_of, is_report, is_without_second, is_first, is_third};

use crate::octets::skip_blanks;
use memchr::memchr;

/// The kinds of line that no command asked for. Other is for a line that is of no kind and belongs to no answer.
#[derive(Clone, Copy, Debug)]
pub enum UrcKind {
    /// `RING` (V.250, 6.3).
    Ring,
    /// `+CRING:` (27.007, 6.11).
    Cring,
    /// `+CREG:` (27.007, 7.2).
    Creg,
    /// `+CGREG:` (27.007, 10.1.20).
    Cgreg,
    /// `+CGEV:` (27.007, 10.1.19).
    Cgev,
    /// `+CIEV:` (27.007, 8.10).
    Ciev,
    /// A kind of a dialect's own: the place of the first of its rules among the dialect's unsolicited rules, from 0.
    Own(u8),
    /// A line of none of these kinds, outside of every window.
    Other,
}

impl UrcKind {
    ghost use Rattle.at_text.specs.Kinds.{kind_place};

    /// The kinds of the standards, and Other, each at its place.
    pub const STANDARD: [UrcKind; 7] = [
        UrcKind::Ring,
        UrcKind::Cring,
        UrcKind::Creg,
        UrcKind::Cgreg,
        UrcKind::Cgev,
        UrcKind::Ciev,
        UrcKind::Other,
    ];

    /// The place of a kind: 0 to 6, those of the standards and Other, then from 7 on those of a dialect's own.
    pub fn place(self) -> usize
        ensures place { result ≡ kind_place self }
        ensures few { result < 263 }
    {
        match self {
            UrcKind::Ring => 0,
            UrcKind::Cring => 1,
            UrcKind::Creg => 2,
            UrcKind::Cgreg => 3,
            UrcKind::Cgev => 4,
            UrcKind::Ciev => 5,
            UrcKind::Other => 6,
            UrcKind::Own(number) => 7 + usize::from(number),
        }
    }
}

impl PartialEq for UrcKind {
    ghost use Rattle.std.proofs.Common.{rules};
    ghost use Rattle.std.specs.Cmp.Rules.{comparing};
    ghost use Rattle.at_text.specs.Kinds.{is_same_kind};

    ghost eq = { is_same_kind };

    ghost laws = { Prim.search (comparing, rules) };

    fn eq(&self, other: &UrcKind) -> bool {
        self.place() == other.place()
    }
}

impl Eq for UrcKind {
    ghost use Rattle.std.proofs.Common.{rules};
    ghost use Rattle.std.specs.Cmp.Rules.{comparing};

    ghost laws = { Prim.search (comparing, rules) };
}

/// The kind of a line that no command asked for, by the standards; `None` for any other line. The kind is the same inside a
/// window. It is never Other.
pub fn unsolicited_of(line: &[u8]) -> Option<UrcKind>
    ensures { result ≡ unsolicited_of line.now }
{
    if may_report(line) {
        reported(line)
    } else {
        None
    }
}

/// Whether the line begins as `RING` does, or its third octet is one of those that an unsolicited line has there. No other line
/// is unsolicited.
fn may_report(line: &[u8]) -> bool
    ensures { result ≡ (begins is_first line.now || begins is_third (drop 2 line.now)) }
{
    matches!(line, [b'R', ..] | [_, _, b'R' | b'G' | b'I', ..])
}

#[inline(never)]
/// The same as `unsolicited_of`, by each form.
fn reported(line: &[u8]) -> Option<UrcKind>
    ensures { result ≡ unsolicited_of line.now }
{
    match line {
        b"RING" => Some(UrcKind::Ring),
        _ if line.starts_with(b"+CRING:") => Some(UrcKind::Cring),
        _ if is_report(b"+CREG:", line) => Some(UrcKind::Creg),
        _ if is_report(b"+CGREG:", line) => Some(UrcKind::Cgreg),
        _ if line.starts_with(b"+CGEV:") => Some(UrcKind::Cgev),
        _ if line.starts_with(b"+CIEV:") => Some(UrcKind::Ciev),
        _ => None,
    }
}

/// The line has this name, any blanks and a digit, and no second number, with which it would answer a query.
fn is_report(name: &[u8], line: &[u8]) -> bool
    ensures { result ≡ is_report name.now line.now }
{
    if !line.starts_with(name) {
        return false;
    }
    match skip_blanks(&line[name.len()..]) {
        [b'0'..=b'9', ..] => is_without_second(line),
        _ => false,
    }
}

pub(crate) fn is_without_second(line: &[u8]) -> bool
    ensures { result ≡ is_without_second line.now }
{
    match behind_comma(line) {
        Some(rest) => matches!(skip_blanks(rest), [b'"', ..]),
        None => true,
    }
}

/// What follows the first comma.
#[tactic(auto, using(crate::proofs::Commas::behind_none, crate::proofs::Commas::behind_some))]
pub(crate) fn behind_comma(line: &[u8]) -> Option<&[u8]>
    ensures { option_map (λ rest. rest.now) result ≡ after_comma line.now }
{
    let comma = memchr(b',', line)?;
    Some(&line[comma + 1..])
}
