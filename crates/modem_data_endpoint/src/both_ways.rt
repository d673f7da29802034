//! Octets between a line and an endpoint with a relay before it.
ghost use Rattle.std.specs.Prelude.{◌≡◌, ◌<◌, ◌≤◌, None, length, take, drop, true, false};
ghost use Rattle.modem_driver.specs.Endpoints.{HoldsNothingBack};
ghost use Rattle.modem_data.specs.Hops.{HoldsNothing, Hops, Wrote};
ghost use Rattle.modem_data_endpoint.specs.Pairs.{CarriesOut, NextOut, TakesAll, CarriesIn, joined};

use crate::between::{Taken, hand_over, take_over};
use modem_data::Relay;
use modem_driver::{Blocked, Endpoint};

/// What came of octets of the line.
#[derive(Clone, Copy)]
pub struct DataInput {
    /// So many were taken.
    pub taken: usize,
    /// What keeps it from going on, if anything does.
    pub blocked: Option<Blocked>,
}

/// What came of asking for octets for the line.
#[derive(Clone, Copy)]
pub struct Output {
    /// So many were written.
    pub count: usize,
    /// The endpoint gave the relay some: there may be more.
    pub goes_on: bool,
}

/// Takes octets of the line from the front of these.
#[tactic(auto, using(crate::proofs::Pairing::takes_blocked, crate::proofs::Pairing::takes_on, crate::proofs::Pairing::takes_all))]
pub(crate) fn take_in(relay: &mut Relay, endpoint: &mut Endpoint, octets: &[u8]) -> DataInput
    ensures takes { CarriesIn (joined endpoint.old relay.old) (joined endpoint.new relay.new) (take result.taken octets.now) }
    ensures few { result.taken ≤ length octets.now }
    ensures all { result.blocked ≡ None → (result.taken ≡ length octets.now) × TakesAll (joined endpoint.new relay.new) }
{
    let first = hand_over(relay, endpoint);
    if first.is_some() {
        return DataInput {
            taken: 0,
            blocked: first,
        };
    }
    let input = relay.from_line(octets);
    let last = hand_over(relay, endpoint);
    let blocked = if input.is_blocked {
        Some(Blocked::NoMemory)
    } else {
        last
    };
    DataInput {
        taken: input.taken,
        blocked,
    }
}

/// Makes the next octets for the line wait at the relay: moves an octet of the endpoint's there, or, where it has none, makes a frame
/// of the relay's own. Says whether it moved one.
#[tactic(auto, using(crate::proofs::Pairing::next_took, crate::proofs::Pairing::next_first, crate::proofs::Pairing::next_behind, crate::proofs::Pairing::never_first, crate::proofs::Pairing::idle_behind))]
fn next_out(relay: &mut Relay, endpoint: &mut Endpoint) -> bool
    ensures next { NextOut (joined endpoint.old relay.old) (joined endpoint.new relay.new) result }
    ensures idle { result ≡ false → length relay.new.to_line ≡ 0 → HoldsNothingBack endpoint.new × HoldsNothing relay.new }
{
    match take_over(relay, endpoint) {
        Taken::One => {
            relay.ready_driver();
            true
        }
        Taken::RelayFirst => {
            relay.ready_driver();
            false
        }
        Taken::Nothing => {
            relay.ready();
            false
        }
    }
}

/// Writes the first octets that wait for the line to the front of the room, as many as fit, and says how many.
fn write_out(relay: &mut Relay, room: &mut [u8]) -> usize
    ensures wrote { Hops relay.old relay.new (Wrote (take result room.new)) }
    ensures few { result ≤ length room.old }
    ensures behind { drop result room.new ≡ drop result room.old }
    ensures none { result ≡ 0 → relay.new ≡ relay.old }
    ensures all { result ≡ 0 → 0 < length room.old → length relay.old.to_line ≡ 0 }
{
    let octets = relay.for_line();
    let count = octets.len().min(room.len());
    let (front, _) = room.split_at_mut(count);
    front.copy_from_slice(&octets[..count]);
    relay.wrote(count);
    count
}

/// Writes the next octets for the line to the front of the room.
#[tactic(auto, using(crate::proofs::Pairing::gives, crate::proofs::Pairing::idles))]
pub(crate) fn give_out(relay: &mut Relay, endpoint: &mut Endpoint, room: &mut [u8]) -> Output
    ensures gives { CarriesOut (joined endpoint.old relay.old) (joined endpoint.new relay.new) (take result.count room.new) result.goes_on }
    ensures few { result.count ≤ length room.old }
    ensures behind { drop result.count room.new ≡ drop result.count room.old }
    ensures all { result.count ≡ 0 → result.goes_on ≡ false → 0 < length room.old
        → HoldsNothingBack endpoint.new × HoldsNothing relay.new }
{
    let goes_on = next_out(relay, endpoint);
    let count = write_out(relay, room);
    Output { count, goes_on }
}
