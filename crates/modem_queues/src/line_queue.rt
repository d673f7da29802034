//! Lines that wait for their listeners, with counts of them.
ghost use Rattle.std.specs.Prelude.{List, ◌≡◌, ◌+◌, ◌-◌, ◌<◌, ◌≤◌, ◌++◌, ◌∷◌, [], true, nat_lt, length, drop, map, take, slice_index_or, slice_set, MatchOption, OnErr, OnOk};
ghost use Rattle.std.specs.List.{list_all};
ghost use Rattle.at_text.specs.Kinds.{kind_place};
ghost use Rattle.modem_history.specs.Acts.{Act};
ghost use Rattle.modem_history.specs.Sessions.{backlog_in, heard_as};
ghost use Rattle.modem_queues.specs.LineQueues.{AreFewOnEach};
ghost use Rattle.modem_queues.specs.LineQueues.{of_key, place_of};

use at_text::UrcKind;
use modem_desk::Urc;
use mux_frame::Dlci;
use std::alloc::{AllocError, Global};
use std::collections::VecDeque;
use std::marker::Model;

/// How many places of kinds there are.
pub const KIND_PLACES: usize = 263;

/// So many lines of one connection hold it.
const MANY: usize = 256;

/// Lines in the order in which they were heard, and how many of them are of each connection and of each kind.
#[derive(Drop)]
pub struct LineQueue {
    lines: VecDeque<Urc>,
    channels: [usize; Dlci::COUNT],
    kinds: [usize; KIND_PLACES],
}

impl Model for LineQueue {
    ghost use Rattle.std.specs.Prelude.{◌-◌};
    ghost use Rattle.std.specs.VecDeque.{deque_capacity, deque_len};
    ghost use Rattle.modem_queues.specs.LineQueues.{LineQueue, AreCounted};

    ghost Value = { LineQueue };

    ghost view = { λ q. record { items = q.lines.items; room = deque_capacity q.lines - deque_len q.lines } };

    ghost invariant = { λ q. AreCounted q.channels q.kinds q.lines.items };
}

/// Where lines go that are heard. Contracts see how they are announced.
pub trait LineRoom {
    /// What is announced, in its order.
    ghost heard: { Self → List Act };

    /// One line more, behind the others. Refusal: no memory, and then no line changes.
    fn hear(&mut self, line: Urc) -> Result<(), AllocError>
        ensures ok { OnOk result (heard self.new ≡ heard self.old ++ heard_as line ∷ []) }
        ensures err { OnErr result (heard self.new ≡ heard self.old) };

    /// How many there are.
    fn len(&self) -> usize
        ensures { result ≡ length (heard self.now) };

    /// Only so many first ones stay.
    fn truncate(&mut self, count: usize)
        ensures { heard self.new ≡ take count (heard self.old) };
}

impl LineRoom for LineQueue {
    ghost heard = { λ q. map heard_as q.items };

    fn hear(&mut self, line: Urc) -> Result<(), AllocError> {
        self.push_back(line)
    }

    fn len(&self) -> usize {
        self.lines.len()
    }

    fn truncate(&mut self, count: usize) {
        self.keep_first(count);
    }
}

/// One more is counted at a place. The condition is that there are fewer than so many.
fn raise(counts: &mut [usize], place: usize, most: usize)
    requires place { place < length counts.old }
    requires few { slice_index_or counts.old place 0 < most }
    ensures { counts.new ≡ slice_set counts.old place (slice_index_or counts.old place 0 + 1) }
{
    counts[place] += 1;
}

/// One fewer is counted at a place.
fn lower(counts: &mut [usize], place: usize)
    requires { place < length counts.old }
    ensures { counts.new ≡ slice_set counts.old place (slice_index_or counts.old place 0 - 1) }
{
    counts[place] = counts[place].saturating_sub(1);
}

/// Whether each of these is below 256: then so are all of their bits together.
#[inline(never)]
fn are_few(counts: &[usize]) -> bool
    ensures { result ≡ list_all (λ c. nat_lt c 256) counts.now }
{
    let mut bits = 0;
    for count in counts {
        bits |= *count;
    }
    bits < MANY
}

impl LineQueue {
    /// No lines.
    #[tactic(auto, using(crate::proofs::lists::LineCounts::counted_at_first))]
    pub fn new(alloc: Global) -> LineQueue
        ensures { result.items ≡ [] }
    {
        LineQueue {
            lines: VecDeque::new(alloc),
            channels: [0; Dlci::COUNT],
            kinds: [0; KIND_PLACES],
        }
    }

    /// These lines, in their order.
    #[tactic(auto, using(crate::proofs::lists::LineCounts::counted_none, crate::proofs::lists::LineCounts::counted_further, crate::proofs::lists::LineCounts::counted_all))]
    pub fn of(lines: VecDeque<Urc>) -> LineQueue
        ensures { result.items ≡ lines.items }
    {
        let mut channels = [0; Dlci::COUNT];
        let mut kinds = [0; KIND_PLACES];
        let many = lines.len();
        for place in 0..many {
            let line = &lines[place];
            raise(&mut channels, usize::from(line.dlci.number()), many);
            raise(&mut kinds, line.kind.place(), many);
        }
        LineQueue {
            lines,
            channels,
            kinds,
        }
    }

    /// Puts a line at the end. Refusal: no memory, and then no line changes.
    #[tactic(auto, using(crate::proofs::lists::LineCounts::counted_last))]
    fn push_back(&mut self, line: Urc) -> Result<(), AllocError>
        ensures ok { OnOk result (self.new.items ≡ self.old.items ++ line ∷ []) }
        ensures err { OnErr result (self.new.items ≡ self.old.items) }
    {
        let channel = usize::from(line.dlci.number());
        let kind = line.kind.place();
        self.lines.push_back(line)?;
        let many = self.lines.len();
        raise(&mut self.channels, channel, many);
        raise(&mut self.kinds, kind, many);
        Ok(())
    }

    /// Puts a line at the end. The condition is that there is room.
    #[tactic(auto, using(crate::proofs::lists::LineCounts::counted_last))]
    pub fn push_back_reserved(&mut self, line: Urc)
        requires { 1 ≤ self.old.room }
        ensures items { self.new.items ≡ self.old.items ++ line ∷ [] }
        ensures room { self.new.room + 1 ≡ self.old.room }
    {
        let channel = usize::from(line.dlci.number());
        let kind = line.kind.place();
        self.lines.push_back_reserved(line);
        let many = self.lines.len();
        raise(&mut self.channels, channel, many);
        raise(&mut self.kinds, kind, many);
    }

    /// Takes the first line, if there is one.
    #[tactic(auto, using(crate::proofs::lists::LineCounts::counted_rest))]
    pub fn pop_front(&mut self) -> Option<Urc>
        ensures items { MatchOption result ((self.old.items ≡ []) × (self.new.items ≡ []))
            (λ line. self.old.items ≡ line ∷ self.new.items) }
        ensures room { MatchOption result (self.new.room ≡ self.old.room) (λ _. self.new.room ≡ self.old.room + 1) }
    {
        let line = self.lines.pop_front()?;
        lower(&mut self.channels, usize::from(line.dlci.number()));
        lower(&mut self.kinds, line.kind.place());
        Some(line)
    }

    /// The last line goes, if there is one.
    #[tactic(auto, using(crate::proofs::lists::LineCounts::counted_before))]
    fn drop_last(&mut self)
        ensures { self.new.items ≡ take (length self.old.items - 1) self.old.items }
    {
        let Some(line) = self.lines.pop_back() else {
            return;
        };
        lower(&mut self.channels, usize::from(line.dlci.number()));
        lower(&mut self.kinds, line.kind.place());
    }

    /// Only so many first lines stay.
    fn keep_first(&mut self, count: usize)
        ensures { self.new.items ≡ take count self.old.items }
    {
        while count < self.len() {
            self.drop_last();
        }
    }

    /// The first line, if there is one. It stays.
    pub fn front(&self) -> Option<&Urc>
        ensures { MatchOption result (self.now.items ≡ []) (λ line. take 1 self.now.items ≡ line.now ∷ []) }
    {
        self.lines.front()
    }

    /// How many there are.
    pub fn len(&self) -> usize
        ensures { result ≡ length self.now.items }
    {
        self.lines.len()
    }

    /// How many are of a connection.
    pub fn backlog(&self, dlci: Dlci) -> usize
        ensures { result ≡ backlog_in dlci.number self.now.items }
    {
        self.channels[usize::from(dlci.number())]
    }

    /// Whether fewer than 256 are of each connection.
    #[tactic(auto, using(crate::proofs::lists::LineCounts::few_of_few, crate::proofs::lists::LineCounts::few_by_counts))]
    pub fn is_few(&self) -> bool
        ensures { result ≡ true → AreFewOnEach self.now.items }
    {
        self.lines.len() < MANY || are_few(&self.channels)
    }

    /// How many are of a kind.
    pub fn of_kind(&self, kind: UrcKind) -> usize
        ensures { result ≡ length (of_key place_of (kind_place kind) self.now.items) }
    {
        self.kinds[kind.place()]
    }

    /// The first ones go behind the others. The condition is that there are so many.
    #[tactic(auto, using(crate::proofs::lists::LineCounts::counted_round))]
    pub fn rotate_left(&mut self, count: usize)
        requires { count ≤ length self.old.items }
        ensures items { self.new.items ≡ drop count self.old.items ++ take count self.old.items }
        ensures room { self.new.room ≡ self.old.room }
    {
        self.lines.rotate_left(count);
    }

    /// All of them, without taking memory.
    pub fn into_vec(self) -> Vec<Urc>
        ensures { result.items ≡ self.items }
    {
        let LineQueue { lines, .. } = self;
        lines.into_vec()
    }
}
