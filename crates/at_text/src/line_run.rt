//! What is kept of a line that hasn't ended yet, read by runs of octets.
ghost use Rattle.std.specs.Prelude.{◌≡◌, ◌≤◌, ◌<◌, ℕ, true, false, [], ◌∷◌, ◌++◌, length, take, if◌then◌else◌};
ghost use Rattle.std.specs.Borrow.{sem};
ghost use Rattle.std.specs.List.{list_any};
ghost use Rattle.std.specs.Io.BufRead.{Rests};
ghost use Rattle.at_text.specs.Lines.{is_line_end, kept_run, lines, cut};
ghost use Rattle.at_text.specs.Reading.{HasRead, line_in, lines_in};
ghost use Rattle.at_text.specs.Runs.{LineRun, kept_in, mark_in, back_to, LeadsBack};

use crate::reader::{Line, starts_with_end};
use arrayvec::ArrayVec;
use std::marker::Model;

/// How many octets of a line are kept.
const LINE_LEN: usize = 512;

/// How far a line had come when it was marked.
#[derive(Clone, Copy)]
pub struct RunMark {
    /// How many of its octets were kept.
    pub len: usize,
    /// Whether it had ended.
    pub has_ended: bool,
}

/// The octets of a line that hasn't ended yet, the first 512 of them.
#[derive(Drop)]
pub struct LineRun {
    octets: ArrayVec<u8, LINE_LEN>,
    // they are a line that ended, and go with the next octet that is kept
    has_ended: bool,
}

impl Model for LineRun {
    ghost use Rattle.std.specs.Prelude.{◌≡◌, false};
    ghost use Rattle.std.specs.List.{list_any};
    ghost use Rattle.at_text.specs.Lines.{is_line_end};
    ghost use Rattle.at_text.specs.Runs.{LineRun};

    ghost Value = { LineRun };

    ghost view = { λ r. record { octets = r.octets.items; has_ended = r.has_ended } };

    ghost invariant = { λ r. list_any is_line_end r.octets.items ≡ false };
}

impl LineRun {
    ghost use Rattle.at_text.specs.contracts.line_run.LineRun.{the_row};

    /// No octets.
    pub fn new() -> LineRun
        ensures { kept_in result ≡ [] }
    {
        LineRun {
            octets: ArrayVec::new(),
            has_ended: false,
        }
    }

    /// Whether nothing is kept.
    fn is_empty(&self) -> bool
        ensures empty { result ≡ true → kept_in self.now ≡ [] }
        ensures some { result ≡ false → (self.now.has_ended ≡ false) × (0 < length self.now.octets) }
    {
        self.has_ended || self.octets.is_empty()
    }

    /// Forgets what is kept.
    pub fn reset(&mut self)
        ensures { kept_in self.new ≡ [] }
    {
        self.octets.clear();
        self.has_ended = false;
    }

    /// What is kept, lent.
    pub(crate) fn kept(&self) -> &[u8]
        ensures kept { result.now ≡ kept_in self.now }
        ensures none { list_any is_line_end result.now ≡ false }
        ensures itself { HasRead (kept_in self.now) (kept_in self.now) }
    {
        if self.has_ended {
            return &[];
        }
        self.octets.as_slice()
    }

    /// Whether the first of these octets is a line end that ends no line, since nothing is kept. It needs no call then: what is
    /// kept stays as it is.
    #[tactic(auto, using(crate::proofs::lines::KeptOctets::ends_none, crate::proofs::lines::KeptOctets::keeps_none, crate::proofs::lines::KeptOctets::none_read))]
    pub fn skips(&self, octets: &[u8]) -> bool
        ensures some { result ≡ true → 0 < length octets.now }
        ensures none { result ≡ true → lines (kept_in self.now ++ take 1 octets.now) ≡ [] }
        ensures kept { result ≡ true → kept_in self.now ≡ kept_run (kept_in self.now ++ take 1 octets.now) }
        ensures before { result ≡ true → HasRead (kept_in self.now) (kept_in self.now) }
    {
        self.is_empty() && starts_with_end(octets)
    }

    /// Keeps an octet that ends no line.
    pub(crate) fn keep_one(&mut self, octet: u8)
        requires { is_line_end octet ≡ false }
        ensures kept { HasRead (kept_in self.new) (kept_in self.old ++ octet ∷ []) }
        ensures none { lines (kept_in self.old ++ octet ∷ []) ≡ [] }
    {
        drop_ended(&mut self.octets, self.has_ended);
        self.has_ended = false;
        push_cut(&mut self.octets, octet);
    }

    /// Keeps octets that end no line, such as those that `run_len` counts. Requires that none of them is a line end.
    pub fn keep(&mut self, octets: &[u8])
        requires { list_any is_line_end octets.now ≡ false }
        ensures kept { HasRead (kept_in self.new) (kept_in self.old ++ octets.now) }
        ensures none { lines (kept_in self.old ++ octets.now) ≡ [] }
        ensures before { HasRead (kept_in self.old) (kept_in self.old) }
    {
        drop_ended(&mut self.octets, self.has_ended);
        self.has_ended = false;
        append_cut(&mut self.octets, octets);
    }

    /// Reads octets that end no line, and then a line end. Lends the line that ends, if it has octets, until the next call. Where
    /// nothing is kept the line stands in these octets. Requires that none of them is a line end.
    pub fn end<'a>(&'a mut self, octets: &'a [u8]) -> Option<Line<'a>>
        requires { list_any is_line_end octets.now ≡ false }
        ensures line { (c : ℕ) → is_line_end c ≡ true → lines_in result ≡ lines (kept_in self.old ++ (octets.now ++ c ∷ [])) }
        ensures before { HasRead (kept_in self.old) (kept_in self.old) }
        ensures* after { sem 𝓛 (Rests the_row self.entry (λ new.
            ((c : ℕ) → is_line_end c ≡ true → HasRead (kept_in new) (kept_in self.old ++ (octets.now ++ c ∷ [])))
            × ((was : LineRun) → LeadsBack was self.old → LeadsBack was new))) }
    {
        if self.is_empty() {
            return whole_line(octets);
        }
        append_cut(&mut self.octets, octets);
        self.has_ended = true;
        Some(Line {
            text: self.octets.as_slice(),
        })
    }

    /// How far the line has come.
    pub fn mark(&self) -> RunMark
        ensures { result ≡ mark_in self.now }
    {
        RunMark {
            len: self.octets.len(),
            has_ended: self.has_ended,
        }
    }

    /// Becomes as it was at the mark, where only `end` was called since.
    pub fn go_back(&mut self, mark: RunMark)
        ensures back { self.new ≡ back_to mark self.old }
        ensures was { (was : LineRun) → LeadsBack was self.old → mark ≡ mark_in was → self.new ≡ was }
    {
        self.octets.truncate(mark.len);
        self.has_ended = mark.has_ended;
    }
}

/// Whether the octet ends a line.
pub(crate) fn ends_line(octet: u8) -> bool
    ensures { result ≡ is_line_end octet }
{
    octet == b'\r' || octet == b'\n'
}

/// A line that ended makes room for the next one.
fn drop_ended(octets: &mut ArrayVec<u8, LINE_LEN>, has_ended: bool)
    ensures { octets.new.items ≡ (if has_ended then [] else octets.old.items) }
{
    if has_ended {
        octets.clear();
    }
}

/// Adds an octet to a line. What doesn't fit is cut off.
#[tactic(auto, using(crate::proofs::lines::KeptOctets::cut_room, crate::proofs::lines::KeptOctets::cut_full))]
fn push_cut(octets: &mut ArrayVec<u8, LINE_LEN>, octet: u8)
    ensures { octets.new.items ≡ cut (octets.old.items ++ octet ∷ []) }
{
    if !octets.is_full() {
        octets.push(octet);
    }
}

/// Adds octets to a line. What doesn't fit is cut off.
#[tactic(auto, using(crate::proofs::lines::KeptOctets::cut_more))]
fn append_cut(octets: &mut ArrayVec<u8, LINE_LEN>, more: &[u8])
    ensures all { octets.new.items ≡ cut (octets.old.items ++ more.now) }
    ensures fits { length octets.old.items ≤ 512 }
{
    let count = octets.remaining_capacity().min(more.len());
    let _ = octets.try_extend_from_slice(&more[..count]);
}

/// A line that stands in these octets, if there are any.
fn whole_line(octets: &[u8]) -> Option<Line<'_>>
    ensures { lines_in result ≡ line_in octets.now true }
{
    if octets.is_empty() {
        return None;
    }
    Some(Line {
        text: &octets[..LINE_LEN.min(octets.len())],
    })
}
