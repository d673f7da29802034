//! A caller's end of the desk.
ghost use Rattle.std.specs.Prelude.{◌≡◌, ◌+◌, ◌<◌, ◌≤◌, ◌^◌, ◌-◌, ◌++◌, ◌∷◌, [], length, IfOk, IfErr, ◌↔◌, IsSome, MatchOption};
ghost use mathlib.Core.List.{IsPrefix};

use crate::error::SubmitError;
use crate::request::{Ask, Outcome, Request};
use crate::rule::{Gets, InOrder, Submits, View};
use bell::Bell;
use crossbeam_queue::{Pass, RuledArrayQueue};
use rtrb::Consumer;
use std::alloc::{AllocError, Global};
use std::marker::Model;
use std::sync::{Arc, Wait};

/// The queue that the callers of a desk share.
pub type Queue = RuledArrayQueue<Request, View, InOrder>;

// How many requests may be queued.
pub(crate) const QUEUED: usize = 64;

// How many outcomes may wait in a caller's ring.
pub(crate) const WAITING: usize = 8;

// How many outcomes a caller may leave untaken, in its ring and to come.
const UNTAKEN: u8 = 16;

/// A user of the modem: it submits requests, and takes an outcome for each.
///
/// Contracts see its place at the desk, the requests that it submitted, how many outcomes it had taken before each, the outcomes that
/// it took, those that it has seen waiting, and the count of requests whose outcome it hasn't taken.
#[derive(Drop)]
pub struct Caller {
    queue: Arc<Queue, Global>,
    pass: Pass<Request, View>,
    outcomes: Consumer<Outcome>,
    number: u8,
    first: u64,
    issued: u64,
    untaken: u8,
    bell: Option<Bell>,
}

impl Model for Caller {
    ghost use Rattle.std.specs.Prelude.{◌≡◌, ◌+◌, ◌≤◌, ◌^◌, true, length};
    ghost use Rattle.std.specs.Arc.{arc_value};
    ghost use Rattle.crossbeam_queue.specs.Passes.{view as knows, IsPassOf, ruled_capacity};
    ghost use Rattle.rtrb.specs.Ring.{received, known_items, consumer_capacity};
    ghost use Rattle.modem_desk.specs.Ends.{CallerView, IsNumbered};
    ghost use Rattle.ring_id.specs.Rings.{ring_of_consumer};

    ghost Value = { CallerView };

    ghost view = { λ c. record {
      place = record {
        queue = c.pass.table_id;
        number = c.number;
        ring = ring_of_consumer c.outcomes;
        first = c.first;
      };
      submitted = (knows c.pass).submitted;
      got_before = (knows c.pass).got_before;
      got = received c.outcomes;
      seen = known_items c.outcomes;
      untaken = c.untaken;
    } };

    ghost invariant = { λ c. IsPassOf (arc_value c.queue) c.pass × (ruled_capacity (arc_value c.queue) ≡ 64)
        × ((knows c.pass).submits ≡ true) × ((knows c.pass).number ≡ c.number)
        × (consumer_capacity c.outcomes ≡ 8) × (length (knows c.pass).submitted ≡ c.issued)
        × ((knows c.pass).got ≡ length (received c.outcomes))
        × (1 ≤ c.first) × (c.first + c.issued ≤ 2 ^ 64)
        × IsNumbered c.first (knows c.pass).submitted };
}

impl Caller {
    ghost use Rattle.std.specs.Arc.{arc_value};
    ghost use Rattle.std.specs.Prelude.{true};
    ghost use Rattle.crossbeam_queue.specs.Passes.{view, IsPassOf, ruled_capacity};
    ghost use Rattle.rtrb.specs.Ring.{received, known_items, consumer_capacity};
    ghost use Rattle.modem_desk.specs.Rule.{caller};
    ghost use Rattle.modem_desk.specs.Ends.{IsNumbered};
    ghost use Rattle.ring_id.specs.Rings.{ring_of_consumer};
    ghost use Rattle.modem_desk.specs.declared.error.SubmitError.TheVariants.{TooMany, Exhausted};

    pub(crate) fn new(
        queue: Arc<Queue, Global>,
        pass: Pass<Request, View>,
        outcomes: Consumer<Outcome>,
        number: u8,
        first: u64,
        bell: Option<Bell>,
    ) -> Caller
        requires pass { IsPassOf (arc_value queue) pass × (ruled_capacity (arc_value queue) ≡ 64)
            × (view pass ≡ caller number [] 0 []) }
        requires fresh { (received outcomes ≡ []) × (known_items outcomes ≡ [])
            × (consumer_capacity outcomes ≡ 8) × (1 ≤ first) }
        ensures { result ≡ record {
          place = record {
            queue = pass.table_id;
            number = number;
            ring = ring_of_consumer outcomes;
            first = first;
          };
          submitted = [];
          got_before = [];
          got = [];
          seen = [];
          untaken = 0;
        } }
    {
        Caller {
            queue,
            pass,
            outcomes,
            number,
            first,
            issued: 0,
            untaken: 0,
            bell,
        }
    }

    pub(crate) fn into_parts(self) -> (Pass<Request, View>, Consumer<Outcome>, u8)
        ensures numbered { IsNumbered self.place.first self.submitted }
        ensures pass { (result.0.table_id ≡ self.place.queue) × (result.0.me.1 ≡ [])
            × ((view result.0).submits ≡ true) × ((view result.0).number ≡ self.place.number)
            × ((view result.0).submitted ≡ self.submitted) }
        ensures ring { (ring_of_consumer result.1 ≡ self.place.ring) × (received result.1 ≡ self.got)
            × (consumer_capacity result.1 ≡ 8) }
        ensures number { result.2 ≡ self.place.number }
    {
        let Caller {
            queue: _,
            pass,
            outcomes,
            number,
            first: _,
            issued: _,
            untaken: _,
            bell: _,
        } = self;
        (pass, outcomes, number)
    }

    /// Submits a request, and gives its number. Numbers rise by one from the caller's first. Rings the caller's bell, if it has one.
    ///
    /// Refused, in this order: 2 TooMany with 16 outcomes yet to take, 3 Exhausted once the last number is used up, 1 Full with 64
    /// requests queued. A refusal hands the ask back and uses up no number.
    pub fn submit<R: Wait>(&mut self, rt: &R, ask: Ask) -> Result<u64, (SubmitError, Ask)>
        ensures place { (self.new.place ≡ self.old.place) × (self.new.got ≡ self.old.got)
            × (self.new.seen ≡ self.old.seen) }
        ensures next { IfOk result (λ n. n ≡ self.old.place.first + length self.old.submitted) }
        ensures submitted { IfOk result (λ n. self.new.submitted ≡ self.old.submitted
            ++ record { caller = self.old.place.number; number = n; ask = ask } ∷ []) }
        ensures got_before { IfOk result (λ n. self.new.got_before ≡ self.old.got_before ++ length self.old.got ∷ []) }
        ensures untaken { IfOk result
            (λ n. (self.old.untaken < 16) × (self.new.untaken ≡ self.old.untaken + 1)) }

        // A full queue is the only other refusal.
        ensures refused { IfErr result (λ e. (e.1 ≡ ask) × (self.new ≡ self.old)) }
        ensures too_many { IfErr result (λ e. (e.0 ≡ TooMany) ↔ (16 ≤ self.old.untaken)) }
        ensures exhausted { IfErr result (λ e. (e.0 ≡ Exhausted) ↔ ((self.old.untaken < 16)
            × (self.old.place.first + length self.old.submitted ≡ 2 ^ 64))) }
    {
        if self.untaken >= UNTAKEN {
            return Err((SubmitError::TooMany, ask));
        }
        let Some(number) = self.first.checked_add(self.issued) else {
            return Err((SubmitError::Exhausted, ask));
        };
        let request = Request {
            caller: self.number,
            number,
            ask,
        };
        match self
            .queue
            .push_as::<Submits, R>(rt, &mut self.pass, request)
        {
            Ok(()) => {
                self.issued += 1;
                self.untaken += 1;
                ring(&self.bell);
                Ok(number)
            }
            Err(back) => Err((SubmitError::Full, back.ask)),
        }
    }

    /// Takes the oldest outcome that waits for this caller. `None` means that it has seen none waiting. Rings the caller's bell,
    /// if it has one, since there is room for one more outcome.
    pub fn take(&mut self) -> Option<Outcome>
        ensures place { (self.new.place ≡ self.old.place) × (self.new.submitted ≡ self.old.submitted)
            × (self.new.got_before ≡ self.old.got_before) }
        ensures got { MatchOption result (self.new.got ≡ self.old.got) (λ outcome. self.new.got ≡ self.old.got
            ++ outcome ∷ []) }
        ensures untaken { MatchOption result (self.new.untaken ≡ self.old.untaken) (λ _.
            self.new.untaken ≡ self.old.untaken - 1) }
        ensures seen { MatchOption result (self.new.seen ≡ []) (λ outcome. IsPrefix self.old.seen (outcome
            ∷ self.new.seen)) }
        ensures finds { 0 < length self.old.seen → IsSome result }
    {
        let outcome = self.outcomes.pop().ok()?;
        let _ = self.queue.another::<Gets>(&mut self.pass);
        self.untaken = self.untaken.saturating_sub(1);
        ring(&self.bell);
        Some(outcome)
    }

    /// Whether the driver's end is gone. If it is, the outcomes that wait are the last: `take` still gives them, but nobody
    /// answers what is submitted later.
    ///
    /// No contract speaks of the answer, since no contract of `rtrb` does. Tests show it.
    pub fn is_alone(&mut self) -> bool
        ensures place { (self.new.place ≡ self.old.place) × (self.new.submitted ≡ self.old.submitted)
            × (self.new.got_before ≡ self.old.got_before) }
        ensures got { (self.new.got ≡ self.old.got) × (self.new.untaken ≡ self.old.untaken) }
        ensures seen { IsPrefix self.old.seen self.new.seen }
    {
        self.outcomes.is_abandoned()
    }
}

// Rings the bell, if there is one.
pub(crate) fn ring(bell: &Option<Bell>) {
    if let Some(bell) = bell {
        bell.ring();
    }
}

// Another share of the bell, if there is one.
pub(crate) fn share_of(bell: Option<&Bell>) -> Result<Option<Bell>, AllocError> {
    match bell {
        Some(bell) => Ok(Some(bell.share()?)),
        None => Ok(None),
    }
}
