//! Hands out outcomes and unsolicited lines, and at the end what is left.
ghost use Rattle.std.specs.Prelude.{◌≡◌, ◌∷◌, [], take, IfSome, IfNone, MatchOption};
ghost use Rattle.modem_core.specs.Cores.{state_shown};
ghost use Rattle.modem_driver.specs.Endpoints.{GivesLine, GivesOutcome, Leaves};

use crate::endpoint::Endpoint;
use modem_desk::{Outcome, Request, Urc};
use mux_frame::Dlci;
use mux_station::ChannelState;

/// What an ended endpoint leaves: the requests that weren't told, in the order taken, and the outcomes and unsolicited
/// lines that weren't polled, in their orders.
#[derive(Drop)]
pub struct Left {
    pub in_hand: Vec<Request>,
    pub outcomes: Vec<Outcome>,
    pub unsolicited: Vec<Urc>,
}

impl Endpoint {
    /// The first outcome that waits, if any. It stays.
    pub fn peek_outcome(&self) -> Option<&Outcome>
        ensures none { IfNone result (self.now.machine.unplaced ≡ []) }
        ensures some { IfSome result (λ o. take 1 self.now.machine.unplaced ≡ o.now ∷ []) }
    {
        self.machine.waiting.first_outcome()
    }

    /// Removes and gives the first outcome that waits, if any. It takes no memory.
    pub fn poll_outcome(&mut self) -> Option<Outcome>
        ensures { MatchOption result ((self.old.machine.unplaced ≡ []) × (self.new ≡ self.old))
            (λ o. GivesOutcome self.old self.new o) }
    {
        self.machine.next_outcome()
    }

    /// The first unsolicited line that waits, if any. It stays.
    pub fn peek_unsolicited(&self) -> Option<&Urc>
        ensures none { IfNone result (self.now.machine.unannounced ≡ []) }
        ensures some { IfSome result (λ u. take 1 self.now.machine.unannounced ≡ u.now ∷ []) }
    {
        self.machine.waiting.first_line()
    }

    /// Removes and gives the first unsolicited line that waits, if any. It takes no memory. The next `handle_input`
    /// frees a connection that was held for its lines.
    pub fn poll_unsolicited(&mut self) -> Option<Urc>
        ensures { MatchOption result ((self.old.machine.unannounced ≡ []) × (self.new ≡ self.old))
            (λ u. GivesLine self.old self.new u) }
    {
        self.machine.next_line()
    }

    /// How a connection stands. After a loss of the line all are Shut.
    pub fn state(&self, dlci: Dlci) -> ChannelState
        ensures { result ≡ state_shown self.now.machine.core.station self.now.machine.core.lost dlci.number }
    {
        self.machine.core.state(dlci)
    }

    /// What is left, without taking memory.
    #[tactic(auto, using(crate::proofs::endpoints::Handing::leaves))]
    pub fn finish(self) -> Left
        ensures { Leaves self result.in_hand.items result.outcomes.items result.unsolicited.items }
    {
        let (in_hand, outcomes, unsolicited) = self.machine.into_lists();
        Left {
            in_hand,
            outcomes,
            unsolicited,
        }
    }
}
