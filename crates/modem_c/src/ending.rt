//! What is left at the end.
ghost use Rattle.std.specs.Prelude.{◌≡◌, ◌≢◌, ◌↔◌, None};
ghost use Rattle.modem_c.specs.Calls.{Holds, endpoint_of};
ghost use Rattle.modem_c.specs.Texts.{HandsLeft, numbers_in};

use crate::driver::Cimbaloty;
use crate::numbers::{NO_DRIVER, OK};
use modem_driver::{Endpoint, Request};
use std::alloc::Global;

/// How many requests weren't told, and how many outcomes and unsolicited lines weren't polled.
#[repr(C)]
#[derive(Clone, Copy)]
pub struct LeftCounts {
    pub requests: usize,
    pub outcomes: usize,
    pub lines: usize,
}

/// Writes the numbers of the requests to the front of the room, as many as it has room for.
fn put_numbers(requests: &[Request], numbers: &mut [u64])
    ensures { numbers.new ≡ numbers_in requests.now numbers.old }
{
    let count = requests.len().min(numbers.len());
    for place in 0..count {
        numbers[place] = requests[place].number;
    }
}

/// Ends an endpoint, and counts what is left.
fn end(endpoint: Endpoint, left: &mut LeftCounts, numbers: &mut [u64])
    ensures { HandsLeft endpoint left.new numbers.old numbers.new }
{
    let rest = endpoint.finish();
    put_numbers(rest.in_hand.as_slice(), numbers);
    *left = LeftCounts {
        requests: rest.in_hand.len(),
        outcomes: rest.outcomes.len(),
        lines: rest.unsolicited.len(),
    };
}

/// Ends the driver, counts what is left of it, and writes the numbers of the requests that weren't
/// told, as many as fit.
#[unsafe(no_mangle)]
pub extern "C" fn cimbaloty_finish_at(
    alloc: Global,
    c: &mut Cimbaloty,
    left: &mut LeftCounts,
    numbers: &mut [u64],
) -> u8
    ensures ok { result ≡ OK → Holds c.old (λ e. HandsLeft e left.new numbers.old numbers.new) }
    ensures no_driver { (result ≡ NO_DRIVER) ↔ (endpoint_of c.old ≡ None) }
    ensures gone { endpoint_of c.new ≡ None }
    ensures same { result ≢ OK → numbers.new ≡ numbers.old }
    ensures left { result ≢ OK → left.new ≡ left.old }
    ensures others { result ≢ OK → result ≡ NO_DRIVER }
{
    let Some(endpoint) = c.take(alloc) else {
        return NO_DRIVER;
    };
    end(Box::into_inner(endpoint), left, numbers);
    OK
}
