//! States of connections that have changed.
ghost use Rattle.std.specs.Prelude.{◌≡◌, ◌≢◌, ◌↔◌, length, None, IfSome};
ghost use Rattle.modem_c.specs.Calls.{Holds, endpoint_of};
ghost use Rattle.modem_c.specs.States.{AreTold, ChangesAt, state_of};

use crate::driver::Cimbaloty;
use crate::numbers::{NO_DRIVER, NOTHING, OK};
use crate::time::state_number;
use modem_driver::Endpoint;
use mux_frame::Dlci;
use std::alloc::Global;

/// The number of a connection's state.
fn state(endpoint: &Endpoint, dlci: Dlci) -> u8
    ensures { result ≡ state_of endpoint.now dlci.number }
{
    state_number(endpoint.state(dlci))
}

/// The first connection whose state isn't as it was told; its state then counts as told.
#[tactic(auto, using(crate::proofs::ToldStates::none_told, crate::proofs::ToldStates::no_places, crate::proofs::ToldStates::all_told, crate::proofs::ToldStates::one_told))]
fn first_change(endpoint: &Endpoint, told: &mut [u8]) -> Option<Dlci>
    ensures changes { IfSome result (λ d. ChangesAt endpoint.now told.old told.new d.number) }
    ensures none { result ≡ None → AreTold endpoint.now told.old 62 }
    ensures same { result ≡ None → told.new ≡ told.old }
    ensures length { length told.new ≡ length told.old }
{
    for number in 0..62_u8 {
        let Some(dlci) = Dlci::new(number) else {
            return None;
        };
        let place = usize::from(number);
        if place >= told.len() {
            return None;
        }
        let state = state(endpoint, dlci);
        if state != told[place].max(1) {
            told[place] = state;
            return Some(dlci);
        }
    }
    None
}

/// `told` has the state last told of each connection, at the connection's number; 0 stands for shut. Hands out the first
/// connection that has another state now, and puts that state into `told`.
#[unsafe(no_mangle)]
pub extern "C" fn cimbaloty_poll_state_at(
    alloc: Global,
    c: &mut Cimbaloty,
    told: &mut [u8],
    dlci: &mut u8,
) -> u8
    ensures changes { result ≡ OK → Holds c.old (λ e. ChangesAt e told.old told.new dlci.new) }
    ensures nothing { result ≡ NOTHING → Holds c.old (λ e. AreTold e told.old 62) }
    ensures no_driver { (result ≡ NO_DRIVER) ↔ (endpoint_of c.old ≡ None) }
    ensures stays { endpoint_of c.new ≡ endpoint_of c.old }
    ensures same { result ≢ OK → told.new ≡ told.old }
    ensures dlci { result ≢ OK → dlci.new ≡ dlci.old }
    ensures length { length told.new ≡ length told.old }
    ensures others { result ≢ OK → result ≢ NOTHING → result ≡ NO_DRIVER }
{
    let Some(endpoint) = c.take(alloc) else {
        return NO_DRIVER;
    };
    let change = first_change(&endpoint, told);
    *c = Cimbaloty::of(endpoint);
    match change {
        Some(changed) => {
            *dlci = changed.number();
            OK
        }
        None => NOTHING,
    }
}
