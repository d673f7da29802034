//! A relay and an endpoint as one value.
ghost use Rattle.std.specs.Prelude.{◌≡◌, ◌<◌, ◌≤◌, None, length, take, drop, false};
ghost use Rattle.modem_driver.specs.Endpoints.{HoldsNothingBack};
ghost use Rattle.modem_data.specs.Hops.{HoldsNothing};
ghost use Rattle.modem_data_endpoint.specs.Pairs.{CarriesOut, TakesAll, CarriesIn};

use crate::both_ways::{DataInput, Output, give_out, take_in};
use modem_data::Relay;
use modem_driver::Endpoint;
use std::marker::Model;

/// A driver of a multiplexer whose caller reads and writes the line, with connections that carry data. It does no I/O and keeps no
/// time.
#[derive(Drop)]
pub struct DataEndpoint {
    pub(crate) endpoint: Endpoint,
    pub(crate) relay: Relay,
}

impl Model for DataEndpoint {
    ghost use Rattle.modem_data_endpoint.specs.Pairs.{Pair};

    ghost Value = { Pair };

    ghost view = { λ p. record { endpoint = p.endpoint; relay = p.relay } };
}

impl DataEndpoint {
    /// An endpoint behind a relay. The law (`laws::one_sequence`) speaks of two made with one N1.
    pub fn new(endpoint: Endpoint, relay: Relay) -> DataEndpoint
        ensures { result ≡ record { endpoint = endpoint; relay = relay } }
    {
        DataEndpoint { endpoint, relay }
    }

    /// Takes octets of the line from the front of `octets`, and says how many. Where it isn't blocked, it took all, every
    /// frame passed, and nothing waits for the endpoint. Blocked, it keeps what it took. Write by `poll_output` (OutputFirst)
    /// or free memory (NoMemory), then call it with the octets not taken, or with none.
    pub fn handle_input(&mut self, octets: &[u8]) -> DataInput
        ensures takes { CarriesIn self.old self.new (take result.taken octets.now) }
        ensures few { result.taken ≤ length octets.now }
        ensures all { result.blocked ≡ None → (result.taken ≡ length octets.now) × TakesAll self.new }
    {
        take_in(&mut self.relay, &mut self.endpoint, octets)
    }

    /// Writes the next octets for the line to the front of `room`, those of one frame at most. Says how many, and whether it
    /// goes on: then call it again. If it had room, wrote none and doesn't go on, nothing waits that may go. The endpoint's
    /// octets go first. Data goes only where nothing of the endpoint's waits. What is written counts as sent: a caller that
    /// can't write it to its line calls `line_lost`.
    pub fn poll_output(&mut self, room: &mut [u8]) -> Output
        ensures gives { CarriesOut self.old self.new (take result.count room.new) result.goes_on }
        ensures few { result.count ≤ length room.old }
        ensures behind { drop result.count room.new ≡ drop result.count room.old }
        ensures all { result.count ≡ 0 → result.goes_on ≡ false → 0 < length room.old
            → HoldsNothingBack self.new.endpoint × HoldsNothing self.new.relay }
    {
        give_out(&mut self.relay, &mut self.endpoint, room)
    }
}
