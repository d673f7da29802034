//! Time that passes, the end of the line, and the states of connections.
ghost use Rattle.std.specs.Prelude.{◌≡◌, ◌≢◌, ◌<◌, ◌≤◌, ◌↔◌, ◌⊎◌, true, false, None, Some, OnOk, OnErr, IfErr};
ghost use Rattle.std.specs.List.{list_any};
ghost use Rattle.modem_desk.specs.Ends.{DriverView};
ghost use Rattle.modem_history.specs.Sessions.{LineView};
ghost use Rattle.modem_core.specs.Cores.{state_shown};
ghost use Rattle.modem_driver.specs.Endpoints.{EndpointState, Loses, Refuses, Ticks, wants_time};
ghost use Rattle.modem_driver.specs.Numbers.{session_fault_number};
ghost use Rattle.modem_c.specs.Calls.{Goes, HasWaited, Holds, endpoint_of};
ghost use Rattle.modem_c.specs.Numbers.{state_number};

use crate::driver::Cimbaloty;
use crate::numbers::{BAD_DLCI, LINE_LOST, NO_DRIVER, NO_MEMORY, NOTHING, OK};
use modem_driver::{Endpoint, SessionFault};
use mux_frame::Dlci;
use mux_station::ChannelState;
use std::alloc::Global;

/// What is answered to a tick, or to a loss of the line.
fn answer(done: Result<(), SessionFault>) -> u8
    ensures ok { OnOk done (result ≡ OK) }
    ensures refused { IfErr done (λ why. result ≡ session_fault_number why) }
{
    match done {
        Ok(()) => OK,
        Err(why) => why.number(),
    }
}

/// One T1 has passed.
#[unsafe(no_mangle)]
pub extern "C" fn cimbaloty_tick(alloc: Global, c: &mut Cimbaloty) -> u8
    ensures ticks { result ≡ OK → Goes c.old c.new (λ e f. (l : LineView) (d : DriverView) → Ticks l d e f) }
    ensures refused { (result ≡ NO_MEMORY) ⊎ (result ≡ LINE_LOST) → Goes c.old c.new Refuses }
    ensures failed { (result ≡ LINE_LOST) ↔ Holds c.old (λ e. e.machine.core.lost ≡ true) }
    ensures lost { result ≡ LINE_LOST → Holds c.new (λ f. f.machine.core.lost ≡ true) }
    ensures no_driver { (result ≡ NO_DRIVER) ↔ (endpoint_of c.old ≡ None) }
    ensures none { endpoint_of c.old ≡ None → endpoint_of c.new ≡ None }
    ensures others { result ≢ OK → result ≢ NO_MEMORY → result ≢ LINE_LOST → result ≡ NO_DRIVER }
{
    let Some(mut endpoint) = c.take(alloc) else {
        return NO_DRIVER;
    };
    let ticked = endpoint.tick();
    *c = Cimbaloty::of(endpoint);
    answer(ticked)
}

/// The line has failed or ended.
#[unsafe(no_mangle)]
pub extern "C" fn cimbaloty_line_lost(alloc: Global, c: &mut Cimbaloty) -> u8
    ensures loses { result ≡ OK → Goes c.old c.new (λ e f. (l : LineView) (d : DriverView) → Loses l d e f) }
    ensures gone { result ≡ OK → Holds c.new (λ f. f.machine.core.lost ≡ true) }
    ensures refused { (result ≡ NO_MEMORY) ⊎ (result ≡ LINE_LOST) → Goes c.old c.new Refuses }
    ensures failed { (result ≡ LINE_LOST) ↔ Holds c.old (λ e. e.machine.core.lost ≡ true) }
    ensures lost { result ≡ LINE_LOST → Holds c.new (λ f. f.machine.core.lost ≡ true) }
    ensures no_driver { (result ≡ NO_DRIVER) ↔ (endpoint_of c.old ≡ None) }
    ensures none { endpoint_of c.old ≡ None → endpoint_of c.new ≡ None }
    ensures others { result ≢ OK → result ≢ NO_MEMORY → result ≢ LINE_LOST → result ≡ NO_DRIVER }
{
    let Some(mut endpoint) = c.take(alloc) else {
        return NO_DRIVER;
    };
    let lost = endpoint.line_lost();
    *c = Cimbaloty::of(endpoint);
    answer(lost)
}

/// Whether a tick may send something again or give something up.
#[unsafe(no_mangle)]
pub extern "C" fn cimbaloty_wants_tick(alloc: Global, c: &mut Cimbaloty) -> bool
    ensures value { (e : EndpointState) → endpoint_of c.old ≡ Some e → result ≡ list_any wants_time e.machine.core.hand }
    ensures none { endpoint_of c.old ≡ None → result ≡ false }
    ensures stays { endpoint_of c.new ≡ endpoint_of c.old }
{
    let Some(endpoint) = c.take(alloc) else {
        return false;
    };
    let wanted = endpoint.wants_tick();
    *c = Cimbaloty::of(endpoint);
    wanted
}

/// How many ticks in a row have found the command that is the first in hand on a connection there, or None where no command
/// of the connection is in hand.
fn waiting_ticks(endpoint: &Endpoint, dlci: Dlci) -> Option<u64>
    ensures { HasWaited endpoint.now dlci.number result }
{
    endpoint.waiting_ticks(dlci)
}

/// Hands out how many ticks have come since a connection's oldest unanswered command became the
/// oldest.
#[unsafe(no_mangle)]
pub extern "C" fn cimbaloty_waiting_ticks(
    alloc: Global,
    c: &mut Cimbaloty,
    dlci: u8,
    ticks: &mut u64,
) -> u8
    ensures value { result ≡ OK → Holds c.old (λ e. HasWaited e dlci (Some ticks.new)) }
    ensures nothing { result ≡ NOTHING → Holds c.old (λ e. HasWaited e dlci None) }
    ensures no_driver { (result ≡ NO_DRIVER) ↔ (endpoint_of c.old ≡ None) }
    ensures bad_dlci { endpoint_of c.old ≢ None → ((result ≡ BAD_DLCI) ↔ (61 < dlci)) }
    ensures stays { endpoint_of c.new ≡ endpoint_of c.old }
    ensures same { result ≢ OK → ticks.new ≡ ticks.old }
    ensures others { result ≢ OK → result ≢ NOTHING → result ≢ NO_DRIVER → result ≡ BAD_DLCI }
{
    if !c.is_open() {
        return NO_DRIVER;
    }
    let Some(dlci) = Dlci::new(dlci) else {
        return BAD_DLCI;
    };
    let Some(endpoint) = c.take(alloc) else {
        return NO_DRIVER;
    };
    let waited = waiting_ticks(&endpoint, dlci);
    *c = Cimbaloty::of(endpoint);
    match waited {
        Some(waited) => {
            *ticks = waited;
            OK
        }
        None => NOTHING,
    }
}

/// The number of a state.
pub(crate) fn state_number(state: ChannelState) -> u8
    ensures { result ≡ state_number state }
{
    match state {
        ChannelState::Shut => 1,
        ChannelState::Opening => 2,
        ChannelState::Opened => 3,
        ChannelState::Closing => 4,
        ChannelState::Stopping => 5,
    }
}

/// The state of a connection; 0 where there is no driver or no such connection.
#[unsafe(no_mangle)]
pub extern "C" fn cimbaloty_state(alloc: Global, c: &mut Cimbaloty, dlci: u8) -> u8
    ensures value { (e : EndpointState) → endpoint_of c.old ≡ Some e → dlci ≤ 61
        → result ≡ state_number (state_shown e.machine.core.station e.machine.core.lost dlci) }
    ensures none { (endpoint_of c.old ≡ None) ⊎ (61 < dlci) → result ≡ 0 }
    ensures stays { endpoint_of c.new ≡ endpoint_of c.old }
{
    let Some(dlci) = Dlci::new(dlci) else {
        return 0;
    };
    let Some(endpoint) = c.take(alloc) else {
        return 0;
    };
    let state = endpoint.state(dlci);
    *c = Cimbaloty::of(endpoint);
    state_number(state)
}
