//! The driver's end of the desk.
ghost use Rattle.std.specs.Prelude.{◌≡◌, ◌↔◌, ℕ, ◌∷◌, [], ◌++◌, ◌<◌, ◌≤◌, map, IsOk, IfOk, IfErr, IsTrue, Contains, length, min, ◌+◌, ◌-◌, ◌^◌, MatchOption, MatchResult, true, false, slice_set, slice_index_or};
ghost use mathlib.Core.Option.{some};
ghost use lib.ListN.{get_elem?};
ghost use Rattle.modem_desk.specs.Ends.{Changes, RisesByOne};

use crate::caller::{Caller, Queue, WAITING, ring, share_of};
use crate::desk::CALLERS;
use crate::listener::{LINES, Listener};
use crate::request::{Outcome, Request, Urc};
use crate::rule::{AddsCaller, Takes, View};
use at_text::UrcKind;
use bell::Bell;
use crossbeam_queue::Pass;
use results::beside;
use rtrb::{Producer, PushError, RingBuffer};
use std::alloc::{AllocError, Global};
use std::marker::Model;
use std::sync::{Arc, Wait};

/// The driver's end: it takes requests, and gives outcomes and lines.
///
/// Contracts see which desk it is of; the requests that it took; the outcomes that it told each caller, by the caller's number; the
/// lines that it announced to each listener, in the order of the desk's kinds; and how many places of each ring it knows to be
/// free. They also see how often `next` found nothing, and how often something was handed back because a ring was full. These
/// counts stop at `u64::MAX`.
#[derive(Drop)]
pub struct DriverEnd {
    queue: Arc<Queue, Global>,
    pass: Pass<Request, View>,
    rings: Vec<Producer<Outcome>>,
    kinds: Vec<UrcKind>,
    lines: Vec<Producer<Urc>>,
    found_none: u64,
    told_back: Vec<u64>,
    lines_back: Vec<u64>,
    bells: [Option<Bell>; CALLERS as usize],
}

impl Model for DriverEnd {
    ghost use Rattle.std.specs.Prelude.{◌≡◌, ◌≤◌, map, length, []};
    ghost use Rattle.std.specs.Arc.{arc_value};
    ghost use Rattle.crossbeam_queue.specs.Passes.{view as knows, IsPassOf, ruled_capacity};
    ghost use Rattle.rtrb.specs.Ring.{sent, known_free};
    ghost use Rattle.modem_desk.specs.Rule.{driver, AreNumbered};
    ghost use Rattle.modem_desk.specs.Ends.{DriverView, EachOnce};
    ghost use Rattle.ring_id.specs.Rings.{ring_of_producer};

    ghost Value = { DriverView };

    ghost view = { λ d. record {
      desk = record {
        queue = d.pass.table_id;
        rings = map ring_of_producer d.rings.items;
        kinds = d.kinds.items;
        line_rings = map ring_of_producer d.lines.items;
      };
      taken = (knows d.pass).taken;
      told = map sent d.rings.items;
      announced = map sent d.lines.items;
      free = map known_free d.rings.items;
      free_lines = map known_free d.lines.items;
      found_none = d.found_none;
      told_back = d.told_back.items;
      announced_back = d.lines_back.items;
    } };

    ghost invariant = { λ d. IsPassOf (arc_value d.queue) d.pass × (ruled_capacity (arc_value d.queue) ≡ 64)
        × (knows d.pass ≡ driver (length d.rings.items) (knows d.pass).taken [])
        × (length d.rings.items ≤ 8) × (length d.lines.items ≡ length d.kinds.items)
        × EachOnce d.kinds.items × AreNumbered (knows d.pass).taken
        × (length d.told_back.items ≡ length d.rings.items)
        × (length d.lines_back.items ≡ length d.kinds.items) };
}

impl DriverEnd {
    ghost use Rattle.std.specs.Arc.{arc_value};
    ghost use Rattle.crossbeam_queue.specs.Passes.{view, IsPassOf, ruled_capacity};
    ghost use Rattle.rtrb.specs.Ring.{sent};
    ghost use Rattle.modem_desk.specs.Rule.{driver, AreNumbered};
    ghost use Rattle.modem_desk.specs.Ends.{IsFresh, Appends, Announces, Changes, FallsByOne, RisesByOne, RunsOut, Hears};
    ghost use Rattle.ring_id.specs.Rings.{ring_of_producer};

    pub(crate) fn new(
        queue: Arc<Queue, Global>,
        pass: Pass<Request, View>,
        rings: Vec<Producer<Outcome>>,
        kinds: Vec<UrcKind>,
        lines: Vec<Producer<Urc>>,
        counts: (Vec<u64>, Vec<u64>),
    ) -> DriverEnd
        requires pass { IsPassOf (arc_value queue) pass × (ruled_capacity (arc_value queue) ≡ 64)
            × (view pass ≡ driver 0 [] []) }
        requires none { (rings.items ≡ []) × (kinds.items ≡ []) × (lines.items ≡ []) }
        requires none_back { (counts.0.items ≡ []) × (counts.1.items ≡ []) }
        ensures { result ≡ record {
          desk = record {
            queue = pass.table_id;
            rings = [];
            kinds = [];
            line_rings = [];
          };
          taken = [];
          told = [];
          announced = [];
          free = [];
          free_lines = [];
          found_none = 0;
          told_back = [];
          announced_back = [];
        } }
    {
        let (told_back, lines_back) = counts;
        DriverEnd {
            queue,
            pass,
            rings,
            kinds,
            lines,
            found_none: 0,
            told_back,
            lines_back,
            bells: [None, None, None, None, None, None, None, None],
        }
    }

    pub(crate) fn into_parts(
        self,
    ) -> (
        Arc<Queue, Global>,
        Pass<Request, View>,
        Vec<Producer<Outcome>>,
        Vec<Producer<Urc>>,
    )
        ensures pass { IsPassOf (arc_value result.0) result.1 × (result.1.table_id ≡ self.desk.queue)
            × (view result.1 ≡ driver (length self.desk.rings) self.taken []) }
        ensures rings { (map ring_of_producer result.2.items ≡ self.desk.rings)
            × (map sent result.2.items ≡ self.told) }
        ensures lines { (map ring_of_producer result.3.items ≡ self.desk.line_rings)
            × (map sent result.3.items ≡ self.announced) }
    {
        let DriverEnd {
            queue,
            pass,
            rings,
            lines,
            ..
        } = self;
        (queue, pass, rings, lines)
    }

    // One more caller, which rings this bell.
    pub(crate) fn add_caller(
        &mut self,
        alloc: Global,
        first: u64,
        bell: Option<&Bell>,
    ) -> Result<Caller, AllocError>
        requires { (length self.old.desk.rings < 8) × (1 ≤ first) }
        ensures same { IfOk result (λ c. self.new ≡ record self.old {
          desk = record self.old.desk { rings = self.old.desk.rings ++ c.place.ring ∷ [] };
          told = self.old.told ++ [] ∷ [];
          free = self.old.free ++ 8 ∷ [];
          told_back = self.old.told_back ++ 0 ∷ [];
        }) }
        ensures caller { IfOk result (λ c. (c.place.queue ≡ self.old.desk.queue)
            × (c.place.number ≡ length self.old.desk.rings) × (c.place.first ≡ first)
            × IsFresh c) }
    {
        self.rings.try_reserve(1)?;
        self.told_back.try_reserve(1)?;
        let bell = share_of(bell)?;
        let (queue, bell) = beside(Arc::try_clone(&self.queue), bell)?;
        let ((producer, consumer), (queue, bell)) = beside(
            RingBuffer::new(alloc, WAITING),
            (queue, bell),
        )?;
        let number = self.rings.len() as u8;
        self.rings.push(producer).unwrap();
        self.told_back.push(0).unwrap();
        let pass = queue.another::<AddsCaller>(&mut self.pass);
        Ok(Caller::new(queue, pass, consumer, number, first, bell))
    }

    // One more listener, of a kind that no other has, which rings this bell.
    pub(crate) fn add_listener(
        &mut self,
        alloc: Global,
        kind: UrcKind,
        bell: Option<&Bell>,
    ) -> Result<Listener, AllocError>
        requires { ¬ Contains self.old.desk.kinds kind }
        ensures same { IfOk result (λ l. self.new ≡ record self.old {
          desk = record self.old.desk {
            kinds = self.old.desk.kinds ++ kind ∷ [];
            line_rings = self.old.desk.line_rings ++ l.subscription.ring ∷ [];
          };
          announced = self.old.announced ++ [] ∷ [];
          free_lines = self.old.free_lines ++ 256 ∷ [];
          announced_back = self.old.announced_back ++ 0 ∷ [];
        }) }
        ensures listener { IfOk result (λ l. (l.subscription.place ≡ length self.old.desk.kinds)
            × (l.subscription.place ≡ length self.old.desk.line_rings) × (l.subscription.kind ≡ kind)
            × (l.heard ≡ []) × (l.seen ≡ [])) }
    {
        self.lines.try_reserve(1)?;
        self.kinds.try_reserve(1)?;
        self.lines_back.try_reserve(1)?;
        let bell = share_of(bell)?;
        let ((producer, consumer), bell) = beside(RingBuffer::new(alloc, LINES), bell)?;
        let place = self.kinds.len();
        self.lines.push(producer).unwrap();
        self.kinds.push(kind).unwrap();
        self.lines_back.push(0).unwrap();
        Ok(Listener::new(consumer, kind, place, bell))
    }

    /// Has each outcome that is given to the caller of this number ring this bell, in the place of an earlier one, so that
    /// the caller's thread may wait on it. Where the desk has no such caller nothing rings it. No clause speaks of the bell.
    pub fn wake(&mut self, caller: u8, bell: Bell)
        ensures same { self.new ≡ self.old }
    {
        if let Some(place) = self.bells.get_mut(usize::from(caller)) {
            *place = Some(bell);
        }
    }

    // Rings the bell of the caller at this place, if it has one.
    fn ring_caller(&self, place: usize) {
        if let Some(bell) = self.bells.get(place) {
            ring(bell);
        }
    }

    /// Does nothing, and shows that the requests taken of each caller are numbered one after the other. So no caller used a number twice.
    pub fn numbers(&self)
        ensures { AreNumbered self.now.taken }
    {
        let _ = self.rings.len();
    }

    /// How many callers the desk has.
    pub fn callers(&self) -> u8
        ensures { result ≡ length self.now.desk.rings }
    {
        self.rings.len() as u8
    }

    /// The kinds of line that the desk has a listener for, in the desk's order.
    pub fn kinds(&self) -> &[UrcKind]
        ensures { result.now ≡ self.now.desk.kinds }
    {
        self.kinds.as_slice()
    }

    /// Whether the desk has a listener for lines of this kind.
    pub fn listens(&self, kind: UrcKind) -> bool
        ensures { IsTrue result ↔ Contains self.now.desk.kinds kind }
    {
        self.kinds.contains(&kind)
    }

    /// Takes the next request that waits, of any caller. Requests of one caller come in the order in which it submitted
    /// them.
    pub fn next<R: Wait>(&mut self, rt: &R) -> Option<Request>
        ensures desk { (self.new.desk ≡ self.old.desk) × (self.new.told ≡ self.old.told)
            × (self.new.announced ≡ self.old.announced) × (self.new.free ≡ self.old.free)
            × (self.new.free_lines ≡ self.old.free_lines) × (self.new.told_back ≡ self.old.told_back)
            × (self.new.announced_back ≡ self.old.announced_back) }
        ensures found { MatchOption result (RisesByOne self.old.found_none self.new.found_none)
            (λ _. self.new.found_none ≡ self.old.found_none) }
        ensures numbered { AreNumbered self.new.taken }
        ensures taken { MatchOption result (self.new.taken ≡ self.old.taken) (λ request.
            (self.new.taken ≡ self.old.taken ++ request ∷ [])
            × (request.caller < length self.old.desk.rings)) }
    {
        let request = self.next_queued(rt);
        if request.is_none() {
            self.found_none = self.found_none.saturating_add(1);
        }
        request
    }

    /// The same, but what finds nothing isn't counted. An empty queue is seen sooner than a pop sees it.
    fn next_queued<R: Wait>(&mut self, rt: &R) -> Option<Request>
        ensures same { self.new ≡ record self.old { taken = self.new.taken } }
        ensures numbered { AreNumbered self.new.taken }
        ensures taken { MatchOption result (self.new.taken ≡ self.old.taken) (λ request.
            (self.new.taken ≡ self.old.taken ++ request ∷ [])
            × (request.caller < length self.old.desk.rings)) }
    {
        if self.queue.is_empty_as::<Takes>(&mut self.pass) {
            return None;
        }
        self.queue.pop_as::<Takes, R>(rt, &mut self.pass)
    }

    /// Whether `next` would find nothing just now. Then that is counted, as `next` counts it.
    pub fn finds_none(&mut self) -> bool
        ensures same { self.new ≡ record self.old { found_none = self.new.found_none } }
        ensures counted { result ≡ true → RisesByOne self.old.found_none self.new.found_none }
        ensures not_counted { result ≡ false → self.new ≡ self.old }
    {
        if !self.queue.is_empty_as::<Takes>(&mut self.pass) {
            return false;
        }
        self.found_none = self.found_none.saturating_add(1);
        true
    }

    /// Gives an outcome to its caller, and rings the bell by which that is woken (`wake`), if there is one. Requires a caller of this
    /// desk. Hands it back if 8 wait for that caller. It never does while it knows of a free place.
    pub fn tell(&mut self, outcome: Outcome) -> Result<(), Outcome>
        requires { outcome.caller < length self.old.desk.rings }
        ensures same { self.new ≡ record self.old {
          told = self.new.told;
          free = self.new.free;
          told_back = self.new.told_back;
        } }
        ensures counted { IfOk result (λ _. self.new.told_back ≡ self.old.told_back) }
        ensures back_counted { IfErr result
            (λ _. Changes (λ k. k ≡ outcome.caller) RisesByOne self.old.told_back self.new.told_back) }
        ensures told { IfOk result (λ _. Appends outcome.caller outcome self.old.told self.new.told) }
        ensures back { IfErr result (λ back. (back ≡ outcome) × (self.new.told ≡ self.old.told)) }
        ensures free { IfOk result
            (λ _. Changes (λ k. k ≡ outcome.caller) FallsByOne self.old.free self.new.free) }
        ensures full { IfErr result
            (λ _. Changes (λ k. k ≡ outcome.caller) RunsOut self.old.free self.new.free) }
        ensures fits { 0 < slice_index_or self.old.free outcome.caller 0 → IsOk result }
    {
        let place = outcome.caller as usize;
        let ring = &mut self.rings[outcome.caller as usize];
        let Err(refused) = ring.push(outcome) else {
            self.ring_caller(place);
            return Ok(());
        };
        let PushError::Full(back) = refused;
        count_one(&mut self.told_back, place);
        Err(back)
    }

    /// Whether `announce` would hand a line of this kind back, since 256 wait for its listener. Then that is counted, as `announce`
    /// counts it. It says no where the desk has no listener for the kind.
    pub fn hands_back(&mut self, kind: UrcKind) -> bool
        ensures same { self.new ≡ record self.old {
          free_lines = self.new.free_lines;
          announced_back = self.new.announced_back;
        } }
        ensures listened { result ≡ true → Contains self.old.desk.kinds kind }
        ensures full { result ≡ true
            → Changes (Hears self.old.desk.kinds kind) RunsOut self.old.free_lines self.new.free_lines }
        ensures back_counted { result ≡ true → Changes (Hears self.old.desk.kinds kind) RisesByOne
            self.old.announced_back self.new.announced_back }
        ensures not_counted { result ≡ false → self.new.announced_back ≡ self.old.announced_back }
    {
        let Some(place) = find_place(&self.kinds, kind) else {
            return false;
        };
        if !self.lines[place].is_full() {
            return false;
        }
        count_one(&mut self.lines_back, place);
        true
    }

    /// Gives a line to the listener of its kind. Hands it back if the desk has none (`listens`), or if 256 wait for that
    /// listener. It never does while there is one and it knows of a free place.
    pub fn announce(&mut self, line: Urc) -> Result<(), Urc>
        ensures same { self.new ≡ record self.old {
          announced = self.new.announced;
          free_lines = self.new.free_lines;
          announced_back = self.new.announced_back;
        } }
        ensures heard { IfOk result (λ _. Contains self.old.desk.kinds line.kind) }
        ensures counted { IfOk result (λ _. self.new.announced_back ≡ self.old.announced_back) }
        ensures back_counted { IfErr result (λ _. Changes (Hears self.old.desk.kinds line.kind) RisesByOne
            self.old.announced_back self.new.announced_back) }
        ensures announced { IfOk result
            (λ _. Announces self.old.desk.kinds line self.old.announced self.new.announced) }
        ensures back { IfErr result (λ back. (back ≡ line) × (self.new.announced ≡ self.old.announced)) }
        ensures free { IfOk result (λ _. Changes (Hears self.old.desk.kinds line.kind) FallsByOne
            self.old.free_lines self.new.free_lines) }
        ensures full { IfErr result (λ _. Changes (Hears self.old.desk.kinds line.kind) RunsOut
            self.old.free_lines self.new.free_lines) }
        ensures fits { (k : ℕ) → Hears self.old.desk.kinds line.kind k
            → 0 < slice_index_or self.old.free_lines k 0 → IsOk result }
    {
        let Some(place) = find_place(&self.kinds, line.kind) else {
            return Err(line);
        };
        let ring = &mut self.lines[place];
        let Err(refused) = ring.push(line) else {
            return Ok(());
        };
        let PushError::Full(back) = refused;
        count_one(&mut self.lines_back, place);
        Err(back)
    }
}

// Where the kind stands in the list, if it does.
fn find_place(kinds: &[UrcKind], kind: UrcKind) -> Option<usize>
    ensures { MatchOption result (¬ Contains kinds.now kind) (λ place. get_elem? kinds.now place ≡ some kind) }
{
    for (place, known) in kinds.iter().enumerate() {
        if *known == kind {
            return Some(place);
        }
    }
    None
}

// One more is counted at this place.
fn count_one(counts: &mut Vec<u64>, place: usize)
    requires { place < length counts.old.items }
    ensures changes { Changes (λ k. k ≡ place) RisesByOne counts.old.items counts.new.items }
    ensures long { length counts.new.items ≡ length counts.old.items }
{
    counts[place] = counts[place].saturating_add(1);
}
