//! The lines that a command was answered with, as one text.
ghost use Rattle.std.specs.Prelude.{◌≡◌, ℕ, ◌+◌, ◌-◌, ◌^◌, ◌<◌, ◌≤◌, [], ◌∷◌, ◌++◌, length, map, take, slice_index, slice_index_or, slice_get, option_map, vec_len, vec_capacity, IfOk, OnOk, OnErr};
ghost use Rattle.smallvec.specs.SmallVec.{HasRoomFor};
ghost use Rattle.at_text.specs.AnswerParts.{line_of};

use smallvec::SmallVec;
use std::alloc::{AllocError, Global};
use std::marker::Model;

/// How many octets a first line makes room for: those of a short answer.
const FIRST_OCTETS: usize = 64;

/// So many lines, those of a short answer, take no memory for their ends.
const SHORT: usize = 4;

/// What has too little room grows to so many times its room at least, so that blocks are few.
const GROWTH: usize = 16;

/// The lines of an answer in order, which contracts see as a list. They are one text: however many there are, they stand in
/// two blocks of memory, and those of a short answer in one.
#[derive(Drop, Debug)]
pub struct AnswerLines {
    /// The octets of each line, one line behind the other.
    octets: Vec<u8>,
    /// Where each line ends among them.
    ends: SmallVec<usize, SHORT>,
}

impl Model for AnswerLines {
    ghost use Rattle.std.specs.Prelude.{List, length};
    ghost use Rattle.at_text.specs.declared.answer.AnswerLine.{AnswerLine};
    ghost use Rattle.at_text.specs.AnswerParts.{lines_ended, Fill};

    ghost Value = { List AnswerLine };

    ghost view = { λ a. lines_ended 0 a.ends.items a.octets.items };

    ghost invariant = { λ a. Fill 0 a.ends.items (length a.octets.items) };
}

impl AnswerLines {
    /// No lines, and no memory taken.
    pub fn new(alloc: Global) -> AnswerLines
        ensures { result ≡ [] }
    {
        AnswerLines {
            octets: Vec::new(alloc),
            ends: SmallVec::new(alloc),
        }
    }

    /// How many lines there are.
    pub fn len(&self) -> usize
        ensures { result ≡ length self.now }
    {
        self.ends.len()
    }

    /// The octets of the line at this place, the first at 0. Requires a place below `len()`.
    pub fn line(&self, place: usize) -> &[u8]
        requires { place < length self.now }
        ensures { line_of result.now ≡ slice_index_or self.now place (line_of result.now) }
    {
        let ends = self.ends.as_slice();
        let start = start_of(ends, place);
        let end = end_of(ends, place);
        &self.octets.as_slice()[start..end]
    }

    /// The octets of the last line; `None` where there are no lines. In a whole answer that is the final code.
    pub fn last(&self) -> Option<&[u8]>
        ensures { option_map (λ line. line_of line.now) result ≡ slice_get self.now (length self.now - 1) }
    {
        let count = self.len();
        if count == 0 {
            return None;
        }
        Some(self.line(count - 1))
    }

    /// The octets of each line in order.
    pub fn iter(&self) -> AnswerIter<'_>
        ensures { result ≡ self.now }
    {
        AnswerIter {
            octets: self.octets.as_slice(),
            start: 0,
            ends: self.ends.as_slice(),
        }
    }

    /// Adds a line of these octets. Want of memory leaves the lines as they were.
    pub fn push(&mut self, line: &[u8]) -> Result<(), AllocError>
        ensures ok { OnOk result (self.new ≡ self.old ++ line_of line.now ∷ []) }
        ensures err { OnErr result (self.new ≡ self.old) }
    {
        make_room_for_end(&mut self.ends)?;
        make_room(&mut self.octets, line.len())?;
        let _ = self.octets.extend_from_slice(line);
        self.ends.push_reserved(self.octets.len());
        Ok(())
    }

    /// Lets go of the lines from this place on, and keeps their memory.
    pub(crate) fn truncate(&mut self, count: usize)
        ensures { self.new ≡ take count self.old }
    {
        if count < self.len() {
            let end = start_of(self.ends.as_slice(), count);
            self.octets.truncate(end);
            self.ends.truncate(count);
        }
    }

    /// Lets go of its lines, and keeps their memory.
    pub(crate) fn clear(&mut self)
        ensures { self.new ≡ [] }
    {
        self.octets.clear();
        self.ends.clear();
    }

    /// A copy of the lines.
    pub fn copy(&self) -> Result<AnswerLines, AllocError>
        ensures { IfOk result (λ copy. copy ≡ self.now) }
    {
        let octets = self.octets.clone()?;
        let ends = SmallVec::from_slice(*self.octets.allocator(), self.ends.as_slice())?;
        Ok(AnswerLines { octets, ends })
    }
}

/// Makes room for so many more octets. Want of memory leaves the room as it was.
fn make_room(octets: &mut Vec<u8>, more: usize) -> Result<(), AllocError>
    ensures items { octets.new.items ≡ octets.old.items }
    ensures len { vec_len octets.new ≡ vec_len octets.old }
    ensures room { OnOk result (vec_len octets.new + more ≤ vec_capacity octets.new) }
{
    if more <= octets.capacity() - octets.len() {
        return Ok(());
    }
    grow(octets, more)
}

#[inline(never)]
/// The same, by a larger block.
fn grow(octets: &mut Vec<u8>, more: usize) -> Result<(), AllocError>
    ensures items { octets.new.items ≡ octets.old.items }
    ensures len { vec_len octets.new ≡ vec_len octets.old }
    ensures room { OnOk result (vec_len octets.new + more ≤ vec_capacity octets.new) }
{
    let growth = octets.capacity().saturating_mul(GROWTH - 1);
    octets.try_reserve(more.max(growth).max(FIRST_OCTETS))
}

/// Makes room for the end of one more line. Want of memory changes nothing.
fn make_room_for_end(ends: &mut SmallVec<usize, SHORT>) -> Result<(), AllocError>
    ensures items { ends.new.items ≡ ends.old.items }
    ensures room { OnOk result (HasRoomFor ends.new 1) }
{
    if ends.len() < ends.capacity() {
        return Ok(());
    }
    grow_ends(ends)
}

#[inline(never)]
/// The same, by a larger block.
fn grow_ends(ends: &mut SmallVec<usize, SHORT>) -> Result<(), AllocError>
    ensures items { ends.new.items ≡ ends.old.items }
    ensures room { OnOk result (HasRoomFor ends.new 1) }
{
    ends.reserve(ends.capacity().saturating_mul(GROWTH - 1).max(1))
}

/// Where the line at this place begins, by where each line ends.
fn start_of(ends: &[usize], place: usize) -> usize
    requires { place < length ends.now }
    ensures { result ≡ slice_index (0 ∷ ends.now) place }
{
    if place == 0 { 0 } else { ends[place - 1] }
}

/// Where the line at this place ends.
fn end_of(ends: &[usize], place: usize) -> usize
    requires { place < length ends.now }
    ensures { result ≡ slice_index ends.now place }
{
    ends[place]
}

impl PartialEq for AnswerLines {
    ghost use Rattle.std.specs.Str.{bytes_eq};
    ghost use Rattle.std.specs.Cmp.Lexicographic.{pointwise};
    ghost use Rattle.std.proofs.Common.{rules};
    ghost use Rattle.std.specs.Cmp.Rules.{comparing};

    ghost eq = { pointwise (λ x y. bytes_eq x.text y.text) };

    ghost laws = { Prim.search (comparing, rules) };

    fn eq(&self, other: &AnswerLines) -> bool {
        self.ends == other.ends && self.octets == other.octets
    }
}

impl Eq for AnswerLines {
    ghost use Rattle.std.proofs.Common.{rules};
    ghost use Rattle.std.specs.Cmp.Rules.{comparing};

    ghost laws = { Prim.search (comparing, rules) };
}

/// Gives the lines of an answer in order, each as its octets. Contracts see the list of the lines not given yet.
#[derive(Drop)]
pub struct AnswerIter<'a> {
    octets: &'a [u8],
    /// Where the first line that is left begins.
    start: usize,
    /// Where each line that is left ends.
    ends: &'a [usize],
}

impl<'a> Model for AnswerIter<'a> {
    ghost use Rattle.std.specs.Prelude.{List, length};
    ghost use Rattle.at_text.specs.declared.answer.AnswerLine.{AnswerLine};
    ghost use Rattle.at_text.specs.AnswerParts.{lines_ended, Fill};

    ghost Value = { List AnswerLine };

    ghost view = { λ it. lines_ended it.start it.ends.now it.octets.now };

    ghost invariant = { λ it. Fill it.start it.ends.now (length it.octets.now) };
}

impl<'a> Iterator for AnswerIter<'a> {
    ghost use Rattle.std.specs.Iterator.{YieldsFirstBy, item_count};
    ghost use Rattle.at_text.specs.AnswerParts.{line_of};

    type Item = &'a [u8];

    ghost next_gives = { YieldsFirstBy (λ line. line_of line.now) (λ left. left) };

    ghost remaining = { item_count (λ left. left) };

    #[tactic(auto, using(crate::proofs::AnswerTexts::fill_within))]
    fn next(&mut self) -> Option<&'a [u8]> {
        let (end, ends) = self.ends.split_first()?;
        let line = &self.octets[self.start..*end];
        self.start = *end;
        self.ends = ends;
        Some(line)
    }
}

impl<'a> IntoIterator for &'a AnswerLines {
    ghost use Rattle.std.specs.Prelude.{◌≡◌};

    type Item = &'a [u8];

    type IntoIter = AnswerIter<'a>;

    ghost into_iter_gives = { λ lines it. it ≡ lines.now };

    fn into_iter(self) -> AnswerIter<'a> {
        self.iter()
    }
}
