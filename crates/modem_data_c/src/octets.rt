//! Octets of the line and of the driver.
ghost use Rattle.std.specs.Prelude.{◌≡◌, ◌≢◌, ◌↔◌, ◌<◌, ◌≤◌, length, take, drop, min, None, true, false};
ghost use Rattle.modem_data.specs.Hops.{GoesOut, Hops, Took, Handed, LineIn, AllCame, HoldsNothing};
ghost use Rattle.modem_data_c.specs.DataCalls.{Becomes, Keeps, relay_of};

use crate::held_data::CimbalotyData;
use crate::numbers::{NO_MEMORY, NO_RELAY, OK};
use crate::places::put_first;
use modem_data::Relay;
use std::alloc::Global;

/// Takes octets that came from the line, from the front of these, and says how many. Where it is done, all were taken, and every
/// frame that they make passed.
#[unsafe(no_mangle)]
pub extern "C" fn cimbaloty_data_from_line_at(
    alloc: Global,
    d: &mut CimbalotyData,
    octets: &[u8],
    taken: &mut usize,
) -> u8
    ensures takes { relay_of d.old ≢ None → Becomes d.old d.new (λ r s. LineIn r s (take taken.new octets.now)) }
    ensures few { taken.new ≤ length octets.now }
    ensures done { result ≡ OK → taken.new ≡ length octets.now }
    ensures all { result ≡ OK → Keeps d.new AllCame }
    ensures no_memory { result ≡ NO_MEMORY → Keeps d.new (λ s. s.outer.next ≢ None) }
    ensures no_relay { (result ≡ NO_RELAY) ↔ (relay_of d.old ≡ None) }
    ensures none { relay_of d.old ≡ None → relay_of d.new ≡ None }
    ensures none_taken { relay_of d.old ≡ None → taken.new ≡ 0 }
    ensures others { result ≢ OK → result ≢ NO_MEMORY → result ≡ NO_RELAY }
{
    let Some(mut relay) = d.take(alloc) else {
        *taken = 0;
        return NO_RELAY;
    };
    let input = relay.from_line(octets);
    *d = CimbalotyData::of(relay);
    *taken = input.taken;
    if input.is_blocked { NO_MEMORY } else { OK }
}

/// Takes octets that the driver gave for the line, from the front of these, and says how many. It takes some where no frame of the
/// driver's is at hand.
#[unsafe(no_mangle)]
pub extern "C" fn cimbaloty_data_from_driver_at(
    alloc: Global,
    d: &mut CimbalotyData,
    octets: &[u8],
) -> usize
    ensures took { relay_of d.old ≢ None → Becomes d.old d.new (λ r s. Hops r s (Took (take result octets.now))) }
    ensures few { result ≤ length octets.now }
    ensures some { 0 < length octets.now → result ≡ 0 → relay_of d.old ≢ None → Keeps d.old (λ r. r.inner.next ≢ None) }
    ensures none { relay_of d.old ≡ None → relay_of d.new ≡ None }
    ensures none_taken { relay_of d.old ≡ None → result ≡ 0 }
{
    let Some(mut relay) = d.take(alloc) else {
        return 0;
    };
    let taken = relay.feed_driver(octets);
    *d = CimbalotyData::of(relay);
    taken
}

/// Writes the first octets that wait for the driver to the front of the room, and says how many. They wait on.
#[unsafe(no_mangle)]
pub extern "C" fn cimbaloty_data_for_driver_at(
    alloc: Global,
    d: &mut CimbalotyData,
    room: &mut [u8],
) -> usize
    ensures shows { relay_of d.old ≢ None → Keeps d.old (λ r. take result room.new ≡ take result r.to_driver) }
    ensures count { relay_of d.old ≢ None → Keeps d.old (λ r. result ≡ min (length r.to_driver) (length room.old)) }
    ensures behind { drop result room.new ≡ drop result room.old }
    ensures stays { relay_of d.new ≡ relay_of d.old }
    ensures none_given { relay_of d.old ≡ None → result ≡ 0 }
{
    let Some(relay) = d.take(alloc) else {
        return 0;
    };
    let count = put_first(relay.for_driver(), room);
    *d = CimbalotyData::of(relay);
    count
}

/// So many of the octets that wait for the driver went to it, or all, where there are fewer.
fn hand(relay: &mut Relay, count: usize)
    ensures { Hops relay.old relay.new (Handed (take (min count (length relay.old.to_driver)) relay.old.to_driver)) }
{
    let some = count.min(relay.for_driver().len());
    relay.handed(some);
}

/// Drops the first `count` octets that wait for the driver, which took them, or all where fewer wait.
#[unsafe(no_mangle)]
pub extern "C" fn cimbaloty_data_handed(alloc: Global, d: &mut CimbalotyData, count: usize)
    ensures handed { relay_of d.old ≢ None → Becomes d.old d.new (λ r s.
        Hops r s (Handed (take (min count (length r.to_driver)) r.to_driver))) }
    ensures none { relay_of d.old ≡ None → relay_of d.new ≡ None }
{
    let Some(mut relay) = d.take(alloc) else {
        return;
    };
    hand(&mut relay, count);
    *d = CimbalotyData::of(relay);
}

/// Writes the next octets for the line to the front of the room, and says how many. They count as written.
#[unsafe(no_mangle)]
pub extern "C" fn cimbaloty_data_to_line_at(
    alloc: Global,
    d: &mut CimbalotyData,
    room: &mut [u8],
) -> usize
    ensures goes { relay_of d.old ≢ None → Becomes d.old d.new (λ r s. GoesOut r s (take result room.new)) }
    ensures all { relay_of d.old ≢ None → result ≡ 0 → 0 < length room.old → Keeps d.new HoldsNothing }
    ensures few { result ≤ length room.old }
    ensures behind { drop result room.new ≡ drop result room.old }
    ensures none { relay_of d.old ≡ None → relay_of d.new ≡ None }
    ensures none_given { relay_of d.old ≡ None → result ≡ 0 }
{
    let Some(mut relay) = d.take(alloc) else {
        return 0;
    };
    let count = relay.put_out(room);
    *d = CimbalotyData::of(relay);
    count
}
