//! Octets of the line.
ghost use Rattle.std.specs.Prelude.{◌≡◌, ◌≢◌, ◌<◌, ◌≤◌, ◌↔◌, ◌+◌, [], length, take, drop, None, Some};
ghost use Rattle.modem_desk.specs.Ends.{DriverView};
ghost use Rattle.modem_history.specs.Sessions.{LineView};
ghost use Rattle.modem_driver.specs.Endpoints.{GivesOctets, HoldsNothingBack, MachineSays, TakesOctets};
ghost use Rattle.modem_driver.specs.declared.endpoint.Blocked.TheVariants as cause;
ghost use Rattle.modem_c.specs.Calls.{GivesAll, Goes, Holds, SaysOfFrames, endpoint_of};

use crate::driver::Cimbaloty;
use crate::numbers::{NO_DRIVER, NO_MEMORY, OK, OUTPUT_FIRST};
use modem_driver::{Blocked, Endpoint};
use std::alloc::Global;

/// What is answered where an endpoint is blocked so.
fn blocked_number(blocked: Option<Blocked>) -> u8
    ensures none { (result ≡ OK) ↔ (blocked ≡ None) }
    ensures memory { (result ≡ NO_MEMORY) ↔ (blocked ≡ Some cause.NoMemory) }
    ensures output { (result ≡ OUTPUT_FIRST) ↔ (blocked ≡ Some cause.OutputFirst) }
{
    match blocked {
        None => OK,
        Some(Blocked::OutputFirst) => OUTPUT_FIRST,
        Some(Blocked::NoMemory) => NO_MEMORY,
    }
}

/// Takes octets that came from the line, from the front of these, and says how many it took.
#[unsafe(no_mangle)]
pub extern "C" fn cimbaloty_input_at(
    alloc: Global,
    c: &mut Cimbaloty,
    octets: &[u8],
    taken: &mut usize,
) -> u8
    ensures ok { result ≡ OK → Goes c.old c.new (λ e f. (l : LineView) (d : DriverView)
        → TakesOctets l d e f (take taken.new octets.now) None) }
    ensures blocked { result ≡ OUTPUT_FIRST → Goes c.old c.new (λ e f. (l : LineView) (d : DriverView)
        → TakesOctets l d e f (take taken.new octets.now) (Some cause.OutputFirst)) }
    ensures no_memory { result ≡ NO_MEMORY → Goes c.old c.new (λ e f. (l : LineView) (d : DriverView)
        → TakesOctets l d e f (take taken.new octets.now) (Some cause.NoMemory)) }
    ensures done { result ≡ OK → Holds c.new (λ f. MachineSays f.machine (taken.new ≡ length octets.now) None) }
    ensures wants { result ≡ OUTPUT_FIRST
        → Holds c.new (λ f. MachineSays f.machine (taken.new ≡ length octets.now) (Some cause.OutputFirst)) }
    ensures waits { result ≡ NO_MEMORY
        → Holds c.new (λ f. MachineSays f.machine (taken.new ≡ length octets.now) (Some cause.NoMemory)) }
    ensures few { taken.new ≤ length octets.now }
    ensures no_driver { (result ≡ NO_DRIVER) ↔ (endpoint_of c.old ≡ None) }
    ensures none { endpoint_of c.old ≡ None → endpoint_of c.new ≡ None }
    ensures none_taken { endpoint_of c.old ≡ None → taken.new ≡ 0 }
    ensures others { result ≢ OK → result ≢ NO_MEMORY → result ≢ OUTPUT_FIRST → result ≡ NO_DRIVER }
{
    let Some(mut endpoint) = c.take(alloc) else {
        *taken = 0;
        return NO_DRIVER;
    };
    let input = endpoint.handle_input(octets);
    *c = Cimbaloty::of(endpoint);
    *taken = input.taken;
    blocked_number(input.blocked)
}

/// Handles the frames at hand, and looks at the backlogs.
fn handle_waiting(endpoint: &mut Endpoint) -> Option<Blocked>
    ensures takes { (l : LineView) (d : DriverView) → TakesOctets l d endpoint.old endpoint.new [] result }
    ensures says { SaysOfFrames endpoint.new result }
{
    if endpoint.is_quiet() {
        return None;
    }
    endpoint.handle_input(&[]).blocked
}

/// Writes the next octets for the line to a place of the room, and says how many.
fn give_part(endpoint: &mut Endpoint, room: &mut [u8], place: usize) -> usize
    requires { place ≤ length room.old }
    ensures out { (l : LineView) (d : DriverView)
        → GivesOctets l d endpoint.old endpoint.new (take result (drop place room.new)) }
    ensures before { take place room.new ≡ take place room.old }
    ensures behind { drop (place + result) room.new ≡ drop (place + result) room.old }
    ensures few { place + result ≤ length room.old }
    ensures all { place + result < length room.old → HoldsNothingBack endpoint.new }
    ensures same { length room.new ≡ length room.old }
{
    let (_, back) = room.split_at_mut(place);
    endpoint.poll_output(back)
}

/// Writes the next octets for the line to the front of the room, and says how many.
fn give_on(endpoint: &mut Endpoint, room: &mut [u8]) -> usize
    ensures out { (l : LineView) (d : DriverView)
        → GivesAll l d endpoint.old endpoint.new (take result room.new) }
    ensures behind { drop result room.new ≡ drop result room.old }
    ensures few { result ≤ length room.old }
    ensures all { result < length room.old → HoldsNothingBack endpoint.new }
    ensures same { length room.new ≡ length room.old }
{
    let mut count = 0;
    loop {
        let _blocked = handle_waiting(endpoint);
        let given = give_part(endpoint, room, count);
        if given == 0 {
            return count;
        }
        count += given;
        if count < room.len() && endpoint.is_quiet() {
            return count;
        }
    }
}

/// Writes the next octets for the line to the front of the room, and says how many. Meanwhile it handles the frames at hand, and holds
/// and frees connections, as far as there is room and memory.
#[unsafe(no_mangle)]
pub extern "C" fn cimbaloty_output_at(alloc: Global, c: &mut Cimbaloty, room: &mut [u8]) -> usize
    ensures out { endpoint_of c.old ≢ None → Goes c.old c.new (λ e f. (l : LineView) (d : DriverView)
        → GivesAll l d e f (take result room.new)) }
    ensures all { endpoint_of c.old ≢ None → result < length room.old → Holds c.new HoldsNothingBack }
    ensures behind { drop result room.new ≡ drop result room.old }
    ensures few { result ≤ length room.old }
    ensures same { length room.new ≡ length room.old }
    ensures none { endpoint_of c.old ≡ None → endpoint_of c.new ≡ None }
    ensures none_given { endpoint_of c.old ≡ None → result ≡ 0 }
{
    let Some(mut endpoint) = c.take(alloc) else {
        return 0;
    };
    let count = give_on(&mut endpoint, room);
    *c = Cimbaloty::of(endpoint);
    count
}
