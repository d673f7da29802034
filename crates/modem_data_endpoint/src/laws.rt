//! The law of a relay and an endpoint behind it.
ghost use Rattle.modem_data_endpoint.specs.Beside.{DataLaw};
ghost use Rattle.modem_data_endpoint.specs.Joined.{HandsAreSteps, TakesAreSteps};
ghost use Rattle.modem_data_endpoint.specs.Pairs.{PairLaw};

use modem_driver::laws::endpoints;
use mux_frame::laws::deframed;

/// Any sequence of calls of a relay and an endpoint behind it has one history of the endpoint, as the endpoint's own law says. The frames
/// that it got are the first of the line's frames but data, and all of them where none waits on the way. The driver's frames that went to
/// the line are the first of those that the history gave on.
pub fn beside()
    ensures { DataLaw }
{
    deframed();
    endpoints();
}

/// The same of any sequence of calls of a `DataEndpoint`.
#[tactic(auto, using(crate::proofs::Pairing::pair_law))]
pub fn one_sequence()
    ensures { PairLaw }
{
    beside();
}

/// `hand_over` and `take_over` are steps of the two, which the law speaks of.
#[tactic(auto, using(crate::proofs::Joins::hands_are_steps, crate::proofs::Joins::takes_are_steps))]
pub fn joined()
    ensures hands { HandsAreSteps }
    ensures takes { TakesAreSteps }
{}
