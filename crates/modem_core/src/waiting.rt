//! Outcomes and lines that wait for a place.
ghost use Rattle.std.specs.Prelude.{◌≡◌, ◌<◌, ◌≤◌, ◌∷◌, ◌++◌, [], length, take, map, IfOk, OnOk, OnErr, IfSome, IfNone, MatchOption, false, true, All, Contains};
ghost use Rattle.mux_frame.specs.Frames.{frame_of};
ghost use Rattle.mux_station.specs.declared.role.Role.TheVariants.{Initiator};
ghost use Rattle.mux_frame.specs.Spelling.{most_info};
ghost use Rattle.std.specs.VecDeque.{deque_capacity};
ghost use Rattle.modem_core.specs.Receiving.{HasRoom, brings_data};
ghost use Rattle.modem_core.specs.Running.{CoreIsIdle};
ghost use Rattle.modem_history.specs.Acts.{Got, Lost, Tick};
ghost use Rattle.modem_core.specs.Doing.{Does, Takes};
ghost use Rattle.modem_history.specs.Sessions.{backlog_in};
ghost use Rattle.modem_queues.specs.LineQueues.{AreFewOnEach};
ghost use Rattle.modem_core.specs.WaitingLists.{IsFirstOf, IsLeast};
ghost use Rattle.modem_core.specs.Doing.{GetsData};
ghost use Rattle.modem_core.specs.declared.error.CoreError.TheVariants as CoreError;

use crate::driver::Core;
use crate::error::CoreError;
use crate::telling::put_told;
use at_text::UrcKind;
use modem_desk::{Outcome, Request, Urc};
use modem_queues::{IN_HAND, LineQueue};
use mux_frame::{Dlci, FrameView};
use std::alloc::{AllocError, Global};
use std::collections::VecDeque;
use std::marker::Model;

/// The outcomes that wait for a place at their callers, and the lines that wait for one at their
/// listeners, each in their order. Requests in hand and outcomes that wait are together 128 at most, and
/// for so many outcomes there is room.
#[derive(Drop)]
pub struct Waiting {
    pub(crate) outcomes: VecDeque<Outcome>,
    pub(crate) lines: LineQueue,
}

impl Model for Waiting {
    ghost use Rattle.std.specs.Prelude.{◌≤◌};
    ghost use Rattle.std.specs.VecDeque.{deque_capacity};
    ghost use Rattle.modem_core.specs.WaitingLists.{WaitingLists};

    ghost Value = { WaitingLists };

    ghost view = { λ w. record {
      outcomes = w.outcomes.items;
      lines = w.lines.items;
    } };

    ghost invariant = { λ w. 128 ≤ deque_capacity w.outcomes };
}

/// The least of the callers.
fn least_of(outcomes: &[Outcome]) -> Option<u8>
    ensures none { IfNone result (outcomes.now ≡ []) }
    ensures least { IfSome result (λ c. All (λ o. c ≤ o.caller) outcomes.now
        × Contains (map (λ o. o.caller) outcomes.now) c) }
{
    outcomes.iter().map(|outcome| outcome.caller).min()
}

impl Waiting {
    /// None so far.
    pub fn new(alloc: Global) -> Result<Waiting, AllocError>
        ensures { IfOk result (λ w. (w.outcomes ≡ []) × (w.lines ≡ [])) }
    {
        let outcomes = VecDeque::with_capacity(alloc, IN_HAND)?;
        Ok(Waiting {
            outcomes,
            lines: LineQueue::new(alloc),
        })
    }

    /// These outcomes and these lines.
    pub fn of(outcomes: VecDeque<Outcome>, lines: VecDeque<Urc>) -> Waiting
        requires { 128 ≤ deque_capacity outcomes }
        ensures outcomes { result.outcomes ≡ outcomes.items }
        ensures lines { result.lines ≡ lines.items }
    {
        Waiting {
            outcomes,
            lines: LineQueue::of(lines),
        }
    }

    /// A tick of the core: what it tells waits behind the others. Says whether the Stop that was in hand has ended by it.
    pub fn tick(&mut self, core: &mut Core) -> bool
        requires { core.old.lost ≡ false }
        ensures does { Does core.old core.new self.old.outcomes self.new.outcomes Tick result }
        ensures lines { self.new.lines ≡ self.old.lines }
        ensures n1 { core.new.station.n1 ≡ core.old.station.n1 }
    {
        core.do_tick(&mut self.outcomes)
    }

    /// The core takes a request: what it tells waits behind the others.
    pub fn take(&mut self, core: &mut Core, request: Request)
        ensures takes { Takes core.old core.new self.old.outcomes self.new.outcomes request }
        ensures lines { self.new.lines ≡ self.old.lines }
        ensures n1 { core.new.station.n1 ≡ core.old.station.n1 }
        ensures role { core.old.station.role ≡ Initiator }
    {
        core.ask(request, &mut self.outcomes)
    }

    /// A frame that isn't data of an open connection, or that came after a loss of the line: what the core tells for it waits behind the others. Says whether the
    /// Stop that was in hand has ended by it; nothing where the control queue has no room for what it calls for.
    pub fn get(&mut self, core: &mut Core, frame: FrameView<'_>) -> Option<bool>
        requires short { length frame.info.now ≤ most_info core.old.station.n1 frame.kind }
        requires other { brings_data core.old (frame_of frame) ≡ false }
        ensures does { IfSome result (λ answered.
            Does core.old core.new self.old.outcomes self.new.outcomes (Got (frame_of frame.entry)) answered) }
        ensures no_room { IfNone result (HasRoom core.old (Got (frame_of frame.entry)) false) }
        ensures stays { IfNone result (core.new ≡ core.old) }
        ensures untold { IfNone result (self.new.outcomes ≡ self.old.outcomes) }
        ensures lines { self.new.lines ≡ self.old.lines }
        ensures n1 { core.new.station.n1 ≡ core.old.station.n1 }
        ensures never_full { IfNone result (¬ CoreIsIdle core.old) }
        ensures lost { core.new.lost ≡ core.old.lost }
    {
        core.do_other(frame, &mut self.outcomes)
    }

    /// Data of an open connection: the lines that are heard by it wait behind the others, and so does the outcome of a command whose
    /// answer is whole by it. Refusal: 1 NoMemory, which changes nothing.
    pub fn get_data(&mut self, core: &mut Core, frame: FrameView<'_>) -> Result<(), CoreError>
        requires short { length frame.info.now ≤ most_info core.old.station.n1 frame.kind }
        requires is_data { brings_data core.old (frame_of frame) ≡ true }
        ensures gets { OnOk result (GetsData core.old core.new self.old self.new (Got (frame_of frame.entry))) }
        ensures no_memory { OnErr result (result ≡ Err CoreError.NoMemory) }
        ensures err { OnErr result (core.new ≡ core.old) }
        ensures stays { OnErr result (self.new ≡ self.old) }
        ensures n1 { core.new.station.n1 ≡ core.old.station.n1 }
        ensures lost { core.new.lost ≡ core.old.lost }
    {
        if let Some(answered) = core.read(frame, &mut self.lines)? {
            put_told(&mut self.outcomes, answered.outcome);
        }
        Ok(())
    }

    /// The core's line is lost: what it tells waits behind the others.
    pub fn lose(&mut self, core: &mut Core) -> bool
        ensures does { Does core.old core.new self.old.outcomes self.new.outcomes Lost result }
        ensures gone { core.new.lost ≡ true }
        ensures lines { self.new.lines ≡ self.old.lines }
        ensures n1 { core.new.station.n1 ≡ core.old.station.n1 }
    {
        core.do_loss(&mut self.outcomes)
    }

    /// How many outcomes wait.
    pub fn count(&self) -> usize
        ensures { result ≡ length self.now.outcomes }
    {
        self.outcomes.len()
    }

    /// How many lines wait.
    pub(crate) fn many(&self) -> usize
        ensures { result ≡ length self.now.lines }
    {
        self.lines.len()
    }

    /// Whether fewer than 256 lines of each connection wait.
    pub fn is_few(&self) -> bool
        ensures { result ≡ true → AreFewOnEach self.now.lines }
    {
        self.lines.is_few()
    }

    /// How many lines of a connection wait.
    pub fn backlog(&self, dlci: Dlci) -> usize
        ensures { result ≡ backlog_in dlci.number self.now.lines }
    {
        self.lines.backlog(dlci)
    }

    /// The least caller for whom an outcome waits.
    pub fn least_caller(&self) -> Option<u8>
        ensures { MatchOption result (self.now.outcomes ≡ []) (λ c. IsLeast c self.now.outcomes) }
    {
        if self.outcomes.is_empty() {
            return None;
        }
        let (front, back) = self.outcomes.as_slices();
        let Some(first) = least_of(front) else {
            return None;
        };
        match least_of(back) {
            Some(second) => Some(first.min(second)),
            None => Some(first),
        }
    }

    /// The kind of the line that was heard first of those that wait.
    #[tactic(auto, using(crate::proofs::sessions::steps::FirstWaiting::none_of))]
    pub fn first_kind(&self) -> Option<UrcKind>
        ensures { MatchOption result (self.now.lines ≡ []) (λ k. IsFirstOf k self.now.lines) }
    {
        match self.lines.front() {
            Some(line) => Some(line.kind),
            None => None,
        }
    }

    /// One outcome more waits, behind the others.
    pub fn put_outcome(&mut self, outcome: Outcome)
        requires { length self.old.outcomes < 128 }
        ensures outcomes { self.new.outcomes ≡ self.old.outcomes ++ outcome ∷ [] }
        ensures lines { self.new.lines ≡ self.old.lines }
    {
        self.outcomes.push_back_reserved(outcome);
    }

    /// The first outcome that waits, if any. It stays.
    pub fn first_outcome(&self) -> Option<&Outcome>
        ensures none { IfNone result (self.now.outcomes ≡ []) }
        ensures some { IfSome result (λ o. take 1 self.now.outcomes ≡ o.now ∷ []) }
    {
        self.outcomes.front()
    }

    /// The first line that waits, if any. It stays.
    pub fn first_line(&self) -> Option<&Urc>
        ensures none { IfNone result (self.now.lines ≡ []) }
        ensures some { IfSome result (λ u. take 1 self.now.lines ≡ u.now ∷ []) }
    {
        self.lines.front()
    }

    /// Removes and gives the first outcome that waits, if any.
    pub fn next_outcome(&mut self) -> Option<Outcome>
        ensures outcome { MatchOption result ((self.old.outcomes ≡ []) × (self.new.outcomes ≡ []))
            (λ o. self.old.outcomes ≡ o ∷ self.new.outcomes) }
        ensures lines { self.new.lines ≡ self.old.lines }
    {
        self.outcomes.pop_front()
    }

    /// Removes and gives the first line that waits, if any.
    pub fn next_line(&mut self) -> Option<Urc>
        ensures line { MatchOption result ((self.old.lines ≡ []) × (self.new.lines ≡ []))
            (λ u. self.old.lines ≡ u ∷ self.new.lines) }
        ensures outcomes { self.new.outcomes ≡ self.old.outcomes }
    {
        self.lines.pop_front()
    }

    /// The outcomes and the lines, without taking memory.
    pub fn into_lists(self) -> (Vec<Outcome>, Vec<Urc>)
        ensures outcomes { result.0.items ≡ self.outcomes }
        ensures lines { result.1.items ≡ self.lines }
    {
        let Waiting { outcomes, lines } = self;
        (outcomes.into_vec(), lines.into_vec())
    }
}
