//! The core: the driver without line, desk, threads and clock.
ghost use Rattle.std.specs.Prelude.{◌≡◌, ◌≢◌, ◌↔◌, ◌+◌, ◌<◌, ◌≤◌, List, [], length, replicate, map, find, option_map, vec_capacity, true, IfOk, IsErrOf, OnOk, OnErr};
ghost use Rattle.modem_history.specs.Acts.{Act as Happening, act_of, Lost};
ghost use Rattle.modem_queues.specs.Stops.{asker_of, is_stop};
ghost use Rattle.modem_core.specs.Cores.{core_by, new_core, state_shown, Fits, Handles};
ghost use Rattle.modem_core.specs.Holding.{HoldsFit, KeepsHeld};
ghost use Rattle.modem_core.specs.Doing.{Does, QueuesAtMost};
ghost use Rattle.std.specs.VecDeque.{deque_capacity};
ghost use Rattle.mux_frame.specs.Spelling.{IsBadN1};
ghost use Rattle.modem_core.specs.declared.error.CoreError.TheVariants as CoreError;

use crate::act_list::{ActList, none_told, push_told};
use crate::error::CoreError;
use crate::lanes::Lanes;
use crate::telling::{Happened, state_of, tell_on};
use at_text::{Dialect, UrcKind};
use modem_desk::{Outcome, Request};
use modem_history::Act;
use modem_queues::{Asker, Hand};
use mux_frame::Dlci;
use mux_station::{ChannelState, Role, Station, StationError};
use std::alloc::Global;
use std::collections::VecDeque;
use std::marker::Model;

/// The core of the driver. It takes requests, frames and ticks, and answers with the acts that follow.
#[derive(Drop)]
pub struct Core {
    pub(crate) alloc: Global,
    pub(crate) station: Station,
    pub(crate) n1: u16,
    pub(crate) lanes: Lanes,
    /// The requests that wait for their outcome, in the order taken.
    pub(crate) hand: Hand,
    /// The dialect by which lines are seen.
    pub(crate) dialect: Dialect,
    /// The kinds that are listened to.
    pub(crate) kinds: Vec<UrcKind>,
    pub(crate) lost: bool,
}

impl Model for Core {
    ghost use Rattle.modem_core.specs.Cores.{Core};
    ghost use Rattle.modem_core.specs.CoreKeeping.{IsKept};

    ghost Value = { Core };

    ghost view = { λ c. record {
      station = c.station;
      lanes = c.lanes;
      hand = c.hand;
      rules = c.dialect;
      kinds = c.kinds.items;
      lost = c.lost;
    } };

    ghost invariant = { λ c. IsKept c.station c.n1 c.lanes };
}

impl Core {
    /// A core with nothing open, for a modem of the standard's codes, that listens to these kinds. N1 is the most
    /// octets of information that a frame may have. Refusals: 2 BadN1 where it isn't 31 to 32767, checked first; 1
    /// NoMemory.
    #[tactic(auto, using(crate::proofs::cores::NewCore::new_fits, crate::proofs::holds::OtherCalls::nothing_held))]
    pub fn new(alloc: Global, n1: u16, kinds: &[UrcKind]) -> Result<Core, CoreError>
        ensures ok { IfOk result (λ c. c ≡ new_core n1 kinds.now) }
        ensures past { IfOk result (λ c. Fits c []) }
        ensures held { IfOk result (λ c. HoldsFit c []) }
        ensures bad_n1 { IsErrOf result CoreError.BadN1 ↔ IsBadN1 n1 }
        ensures others { result ≢ Err CoreError.NoRoom }
    {
        let standard = Dialect::standard(alloc);
        Core::with_dialect(alloc, n1, &standard, kinds)
    }

    /// As `new`, for a modem whose codes are those of this dialect. It takes a copy of the dialect.
    #[tactic(auto, using(crate::proofs::cores::NewCore::new_fits, crate::proofs::holds::OtherCalls::nothing_held))]
    pub fn with_dialect(
        alloc: Global,
        n1: u16,
        dialect: &Dialect,
        kinds: &[UrcKind],
    ) -> Result<Core, CoreError>
        ensures ok { IfOk result (λ c. c ≡ core_by dialect.now n1 kinds.now) }
        ensures past { IfOk result (λ c. Fits c []) }
        ensures held { IfOk result (λ c. HoldsFit c []) }
        ensures bad_n1 { IsErrOf result CoreError.BadN1 ↔ IsBadN1 n1 }
        ensures others { result ≢ Err CoreError.NoRoom }
    {
        let station = match Station::new(alloc, Role::Initiator, n1) {
            Ok(station) => station,
            Err(StationError::BadN1) => return Err(CoreError::BadN1),
            Err(_) => return Err(CoreError::NoMemory),
        };
        let lanes = Lanes::new(alloc)?;
        let hand = Hand::new(alloc)?;
        let Ok(dialect) = dialect.copy() else {
            return Err(CoreError::NoMemory);
        };
        let kinds = kinds.to_vec(alloc)?;
        Ok(Core {
            alloc,
            station,
            n1,
            lanes,
            hand,
            dialect,
            kinds,
            lost: false,
        })
    }

    /// N1: the most octets of information that a frame may have.
    pub fn n1(&self) -> u16
        ensures { result ≡ self.now.station.n1 }
    {
        self.n1
    }

    /// How a connection stands. After a loss all are Shut.
    pub fn state(&self, dlci: Dlci) -> ChannelState
        ensures { result ≡ state_shown self.now.station self.now.lost dlci.number }
    {
        state_of(&self.station, self.lost, dlci)
    }

    /// The line is lost: every request in hand is told so, and nothing is sent any more. Refusal: 1
    /// NoMemory, which changes nothing.
    pub fn lost(&mut self) -> Result<Vec<Act>, CoreError>
        ensures past { IfOk result (λ acts. Handles self.old self.new Lost (map act_of acts.items)) }
        ensures holds { IfOk result (λ acts. KeepsHeld self.old self.new Lost (map act_of acts.items)) }
        ensures gone { OnOk result (self.new.lost ≡ true) }
        ensures err { OnErr result (self.new ≡ self.old) }
        ensures no_memory { OnErr result (result ≡ Err CoreError.NoMemory) }
        ensures n1 { self.new.station.n1 ≡ self.old.station.n1 }
    {
        let mut acts = ActList::with_room(self.alloc, 1 + self.hand.len())?;
        let mut told = none_told(self.alloc)?;
        self.do_loss(&mut told);
        acts.push(Act::Lost);
        push_told(&mut acts, &mut told);
        Ok(acts.into_vec())
    }

    /// The line is lost: every request in hand is told so, behind the outcomes that wait, and nothing is sent any more.
    /// It takes no memory. Says whether the Stop that was in hand has ended by it.
    pub(crate) fn do_loss(&mut self, told: &mut VecDeque<Outcome>) -> bool
        requires { 128 ≤ deque_capacity told.old }
        ensures does { Does self.old self.new told.old.items told.new.items Lost result }
        ensures queues { QueuesAtMost 0 0 self.old self.new Lost }
        ensures gone { self.new.lost ≡ true }
        ensures n1 { self.new.station.n1 ≡ self.old.station.n1 }
        ensures room { 128 ≤ deque_capacity told.new }
    {
        self.lost = true;
        tell_on(
            &mut self.hand,
            &self.station,
            self.lost,
            Happened::Lost,
            false,
            told,
        )
    }

    /// Whether the line is lost.
    pub fn is_lost(&self) -> bool
        ensures { result ≡ self.now.lost }
    {
        self.lost
    }

    /// How many frames wait in the control queue.
    pub fn queue_len(&self) -> usize
        ensures { result ≡ length self.now.station.queue }
    {
        self.station.queue_len()
    }

    /// The requests in hand.
    pub fn hand(&self) -> &Hand
        ensures { result.now ≡ self.now.hand }
    {
        &self.hand
    }

    /// The asker of the Stop in hand, if there is one.
    pub fn stop(&self) -> Option<Asker>
        ensures { result ≡ option_map asker_of (find is_stop self.now.hand) }
    {
        self.hand.stop()
    }

    /// The requests in hand, without taking memory, with room for 128.
    pub fn into_hand(self) -> Vec<Request>
        ensures items { result.items ≡ self.hand }
        ensures room { 128 ≤ vec_capacity result }
    {
        let Core { hand, .. } = self;
        hand.into_vec()
    }
}
