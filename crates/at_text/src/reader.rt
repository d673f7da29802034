//! Lines of a connection, as their octets come.
ghost use Rattle.std.specs.Prelude.{◌≡◌, ◌≤◌, ◌<◌, ℕ, true, false, List, [], ◌∷◌, ◌++◌, length, take, slice_index};
ghost use Rattle.std.specs.Borrow.{sem};
ghost use Rattle.std.specs.List.{list_any};
ghost use Rattle.std.specs.Io.BufRead.{Rests};
ghost use Rattle.at_text.specs.Lines.{is_line_end, kept_run, lines};
ghost use Rattle.at_text.specs.Reading.{HasRead, lines_in};

use crate::line_run::{LineRun, ends_line};
use memchr::memchr2;
use std::marker::Model;

/// From so many octets on, they are searched many at a time.
const FAR: usize = 32;

/// A line without its line end, cut to its first 512 octets (V.250, 5.7).
#[derive(Clone, Copy)]
pub struct Line<'a> {
    /// Its octets. A reader keeps at most 512.
    pub text: &'a [u8],
}

/// How many octets stand before the first line end; all of them, where there is none. A line end at the front is seen at once.
pub fn run_len(octets: &[u8]) -> usize
    ensures within { result ≤ length octets.now }
    ensures before { list_any is_line_end (take result octets.now) ≡ false }
    ensures end { result < length octets.now → is_line_end (slice_index octets.now result) ≡ true }
{
    if starts_with_end(octets) {
        return 0;
    }
    if octets.len() >= FAR {
        return searched_len(octets);
    }
    let low = text_len(octets);
    low + end_in(&octets[low..])
}

/// The same. A line end at the front, or no octet, is seen at once.
fn end_in(octets: &[u8]) -> usize
    ensures within { result ≤ length octets.now }
    ensures before { list_any is_line_end (take result octets.now) ≡ false }
    ensures end { result < length octets.now → is_line_end (slice_index octets.now result) ≡ true }
{
    if octets.is_empty() || starts_with_end(octets) {
        return 0;
    }
    searched_len(octets)
}

#[inline(never)]
/// The same, by a search of all octets.
fn searched_len(octets: &[u8]) -> usize
    ensures within { result ≤ length octets.now }
    ensures before { list_any is_line_end (take result octets.now) ≡ false }
    ensures end { result < length octets.now → is_line_end (slice_index octets.now result) ≡ true }
{
    memchr2(b'\r', b'\n', octets).unwrap_or(octets.len())
}

/// Whether the first octet is a line end.
pub(crate) fn starts_with_end(octets: &[u8]) -> bool
    ensures { result ≡ true → (0 < length octets.now) × (is_line_end (slice_index octets.now 0) ≡ true) }
{
    matches!(octets.first(), Some(b'\r' | b'\n'))
}

/// How many octets stand before the first that isn't above CR. No line end is above it.
fn text_len(octets: &[u8]) -> usize
    ensures within { result ≤ length octets.now }
    ensures before { list_any is_line_end (take result octets.now) ≡ false }
{
    let low = fours_len(octets);
    low + ones_len(&octets[low..])
}

/// The same for what can be looked at four octets at a time.
fn fours_len(octets: &[u8]) -> usize
    ensures within { result ≤ length octets.now }
    ensures before { list_any is_line_end (take result octets.now) ≡ false }
{
    let mut len = 0;
    while starts_with_four(&octets[len..]) {
        len += 4;
    }
    len
}

/// Whether the first four octets are above CR.
fn starts_with_four(octets: &[u8]) -> bool
    ensures many { result ≡ true → 4 ≤ length octets.now }
    ensures none { result ≡ true → list_any is_line_end (take 4 octets.now) ≡ false }
{
    match octets {
        [first, second, third, fourth, ..] => {
            *first > b'\r' && *second > b'\r' && *third > b'\r' && *fourth > b'\r'
        }
        _ => false,
    }
}

/// The same, octet by octet.
fn ones_len(octets: &[u8]) -> usize
    ensures within { result ≤ length octets.now }
    ensures before { list_any is_line_end (take result octets.now) ≡ false }
{
    octets
        .iter()
        .position(|octet| *octet <= b'\r')
        .unwrap_or(octets.len())
}

/// Reads lines. Contracts see what it keeps of the line that hasn't ended yet.
#[derive(Drop)]
pub struct LineReader {
    line: LineRun,
}

impl Model for LineReader {
    ghost use Rattle.std.specs.Prelude.{ℕ, List};
    ghost use Rattle.at_text.specs.Runs.{kept_in};

    ghost Value = { List ℕ };

    ghost view = { λ r. kept_in r.line };
}

impl LineReader {
    ghost use Rattle.at_text.specs.contracts.reader.LineReader.{the_row};

    /// A reader that has read nothing.
    pub fn new() -> LineReader
        ensures { HasRead result [] }
    {
        LineReader {
            line: LineRun::new(),
        }
    }

    /// Reads an octet. If it ends a line, lends that line until the next call.
    pub fn push(&mut self, octet: u8) -> Option<Line<'_>>
        ensures line { lines_in result ≡ lines (self.old ++ octet ∷ []) }
        ensures past { (octets : List ℕ) → HasRead self.old octets
            → lines (octets ++ octet ∷ []) ≡ lines octets ++ lines_in result }
        ensures* after { sem 𝓛 (Rests the_row self.entry (λ new. HasRead new (self.old ++ octet ∷ []))) }
    {
        if !ends_line(octet) {
            self.line.keep_one(octet);
            return None;
        }
        self.line.end(&[])
    }

    /// Keeps octets that end no line, such as those that `run_len` counts. Requires that none of them is a line end.
    pub fn keep(&mut self, octets: &[u8])
        requires { list_any is_line_end octets.now ≡ false }
        ensures kept { HasRead self.new (self.old ++ octets.now) }
        ensures none { lines (self.old ++ octets.now) ≡ [] }
        ensures before { HasRead self.old self.old }
    {
        self.line.keep(octets);
    }

    /// Forgets the line that hasn't ended yet.
    pub fn reset(&mut self)
        ensures { HasRead self.new [] }
    {
        self.line.reset();
    }

    /// A copy of the reader.
    pub fn copy(&self) -> LineReader
        ensures { result ≡ self.now }
    {
        let mut line = LineRun::new();
        line.keep(self.line.kept());
        LineReader { line }
    }
}
