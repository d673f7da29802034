//! Makes and frees relays.
ghost use Rattle.std.specs.Prelude.{◌≡◌, ◌≢◌, ◌⊎◌, ◌↔◌, None, IfOk, IfErr};
ghost use Rattle.modem_data.specs.Hops.{BeginsRelay};
ghost use Rattle.modem_data.specs.PipeSets.{numbers};
ghost use Rattle.modem_data_c.specs.DataCalls.{HasHigh, IsRefused, Keeps, relay_of};

use crate::held_data::CimbalotyData;
use crate::numbers::{BAD_DLCI, HAS_RELAY, NO_MEMORY, OK};
use modem_data::Relay;
use mux_frame::Dlci;
use std::alloc::Global;

/// The connections of these numbers. Requires that each is 0 to 61. Refusal: no memory.
fn connections(alloc: Global, octets: &[u8]) -> Result<Vec<Dlci>, u8>
    ensures named { IfOk result (λ named. numbers named.items ≡ octets.now) }
    ensures err { IfErr result (λ e. (e ≡ NO_MEMORY) ⊎ ((e ≡ BAD_DLCI) × HasHigh octets.now)) }
{
    let mut named = Vec::new(alloc);
    let mut place = 0;
    while place < octets.len() {
        let Some(dlci) = Dlci::new(octets[place]) else {
            return Err(BAD_DLCI);
        };
        if named.push(dlci).is_err() {
            return Err(NO_MEMORY);
        }
        place += 1;
    }
    Ok(named)
}

/// A relay of these connections in a box, or the number of its refusal.
fn make(alloc: Global, n1: u16, octets: &[u8]) -> Result<Box<Relay>, u8>
    ensures begins { IfOk result (λ b. BeginsRelay n1 octets.now b.value) }
    ensures refused { IfErr result (λ e. IsRefused n1 octets.now e) }
{
    let named = connections(alloc, octets)?;
    let relay = match Relay::new(alloc, n1, named.as_slice()) {
        Ok(relay) => relay,
        Err(why) => return Err(why.number()),
    };
    match Box::new(alloc, relay) {
        Ok(relay) => Ok(relay),
        Err(_) => Err(NO_MEMORY),
    }
}

/// Makes a relay where there is none. These connections may carry data.
#[unsafe(no_mangle)]
pub extern "C" fn cimbaloty_data_new_at(
    alloc: Global,
    d: &mut CimbalotyData,
    n1: u16,
    octets: &[u8],
) -> u8
    ensures begins { result ≡ OK → Keeps d.new (λ r. BeginsRelay n1 octets.now r) }
    ensures has_relay { (result ≡ HAS_RELAY) ↔ (relay_of d.old ≢ None) }
    ensures why { relay_of d.old ≡ None → result ≢ OK → IsRefused n1 octets.now result }
    ensures refused { result ≢ OK → relay_of d.new ≡ relay_of d.old }
{
    if d.is_open() {
        return HAS_RELAY;
    }
    match make(alloc, n1, octets) {
        Ok(relay) => {
            *d = CimbalotyData::of(relay);
            OK
        }
        Err(number) => number,
    }
}

/// Ends the relay, if there is one.
#[unsafe(no_mangle)]
pub extern "C" fn cimbaloty_data_free(alloc: Global, d: &mut CimbalotyData)
    ensures { relay_of d.new ≡ None }
{
    drop(d.take(alloc));
}
