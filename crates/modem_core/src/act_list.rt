//! Acts with room for more.
ghost use Rattle.std.specs.Prelude.{◌≡◌, ◌-◌, ◌<◌, ◌≤◌, ◌++◌, ◌∷◌, [], length, map, IfOk};
ghost use Rattle.std.specs.VecDeque.{deque_capacity};
ghost use Rattle.modem_history.specs.Acts.{Told, act_of};

use modem_desk::Outcome;
use modem_history::Act;
use modem_queues::IN_HAND;
use std::alloc::{AllocError, Global};
use std::collections::VecDeque;
use std::marker::Model;

/// Acts with room for so many more: to put one there takes no memory.
#[derive(Drop)]
pub(crate) struct ActList {
    acts: Vec<Act>,
    left: usize,
}

impl Model for ActList {
    ghost use Rattle.std.specs.Prelude.{◌+◌, ◌≤◌};
    ghost use Rattle.std.specs.Vec.{vec_capacity, vec_len};
    ghost use Rattle.modem_core.specs.ActLists.{ActList};

    ghost Value = { ActList };

    ghost view = { λ a. record { acts = a.acts.items; left = a.left } };

    ghost invariant = { λ a. vec_len a.acts + a.left ≤ vec_capacity a.acts };
}

impl ActList {
    /// No acts, with room for so many.
    pub(crate) fn with_room(alloc: Global, left: usize) -> Result<ActList, AllocError>
        ensures { IfOk result (λ a. a ≡ record { acts = []; left = left }) }
    {
        let acts = Vec::with_capacity(alloc, left)?;
        Ok(ActList { acts, left })
    }

    /// Puts an act at the end.
    pub(crate) fn push(&mut self, act: Act)
        requires { 0 < self.old.left }
        ensures { self.new ≡ record { acts = self.old.acts ++ act ∷ []; left = self.old.left - 1 } }
    {
        self.acts.push(act).unwrap();
        self.left -= 1;
    }

    /// The acts, without taking memory.
    pub(crate) fn into_vec(self) -> Vec<Act>
        ensures { result.items ≡ self.acts }
    {
        let ActList { acts, .. } = self;
        acts
    }
}

/// No outcomes, with room for as many as may be told by one call.
pub(crate) fn none_told(alloc: Global) -> Result<VecDeque<Outcome>, AllocError>
    ensures none { IfOk result (λ told. told.items ≡ []) }
    ensures room { IfOk result (λ told. 128 ≤ deque_capacity told) }
{
    VecDeque::with_capacity(alloc, IN_HAND)
}

/// Puts the outcomes that were told behind the acts.
pub(crate) fn push_told(acts: &mut ActList, told: &mut VecDeque<Outcome>)
    requires { length told.old.items ≤ acts.old.left }
    ensures { map act_of acts.new.acts ≡ map act_of acts.old.acts ++ map Told told.old.items }
{
    while let Some(outcome) = told.pop_front() {
        acts.push(Act::Told(outcome));
    }
}
