//! Reads a device into its ring.
ghost use Rattle.std.specs.Prelude.{◌≡◌, ◌≢◌, ◌≤◌, ◌<◌, ◌+◌, ◌⊎◌, [], None, Some, length, IsTrue, MatchOption};
ghost use Rattle.std.specs.Io.KnownBytes.{IsAtEnd};
ghost use Rattle.rtrb.specs.Ring.{sent, SameProducer};
ghost use Rattle.device_line.specs.Flows.{FlowsIn};
ghost use Rattle.device_line.specs.declared.FlowEnd.TheVariants.{Stopped, Ended};
ghost use Rattle.serial_line.specs.declared.stream_line.ZeroRead.TheVariants.{Ended as EndOfInput, Quiet};

use crate::{FlowEnd, is_passing};
use bell::Bell;
use rtrb::Producer;
use serial_line::ZeroRead;
use std::io::Read;
use std::rt::Clock;
use std::thread;
use std::time::{Duration, Instant};

// So many empty reads in a row that came back at once are a hang-up.
const HANG_UP: u32 = 8;

// A read that came back after fewer milliseconds didn't wait.
const AT_ONCE: u64 = 20;

// How many octets are read at once.
const ROOM: usize = 512;

// Who is told of what is read, and who says when to stop.
#[derive(Clone, Copy)]
struct Bells<'a> {
    bell: &'a Bell,
    own: &'a Bell,
}

// Puts all these octets into the ring, waiting for room. Where nobody reads the ring, or where it is to stop, it puts only the first
// of them.
#[tactic(auto, using(crate::proofs::Written::begins_in, crate::proofs::Written::goes_in, crate::proofs::Written::some_in, crate::proofs::Written::all_in))]
fn put<K: Clock>(clock: &K, octets: &[u8], ring: &mut Producer<u8>, bells: Bells) -> bool
    ensures ring { SameProducer ring.old ring.new }
    ensures put { IsTrue result → FlowsIn 0 (sent ring.old) (sent ring.new) (Some octets.now) (Some []) }
    ensures first { FlowsIn (length octets.now) (sent ring.old) (sent ring.new) (Some octets.now) (Some []) }
{
    let mut rest = octets;
    for _ in 0..u64::MAX {
        let (_, left) = ring.push_partial_slice(rest);
        rest = left;
        bells.bell.ring();
        if rest.is_empty() {
            return true;
        }
        if ring.is_abandoned() || bells.own.is_over() {
            return false;
        }
        thread::sleep(clock, Duration::from_millis(1));
    }
    false
}

// Whether a read that began then came back at once.
fn came_at_once<K: Clock>(clock: &K, start: Option<Instant>) -> bool {
    let elapsed = start.and_then(|start| start.elapsed(clock).ok());
    elapsed.is_some_and(|time| time < Duration::from_millis(AT_ONCE))
}

// What an empty read that began then says. It counts those in a row that came back at once.
fn empty_read<K: Clock>(
    clock: &K,
    start: Option<Instant>,
    zero: ZeroRead,
    empty: &mut u32,
) -> Option<FlowEnd>
    ensures ended { (result ≡ None) ⊎ (result ≡ Some Ended) }
    ensures end { zero ≡ EndOfInput → result ≡ Some Ended }
    ensures quiet { result ≡ Some Ended → (zero ≡ EndOfInput) ⊎ ((7 ≤ empty.old) × (8 ≤ empty.new)) }
    ensures counted { zero ≡ Quiet → empty.new ≤ empty.old + 1 }
    ensures few { result ≡ None → empty.new < 8 }
{
    *empty = match zero {
        ZeroRead::Ended => HANG_UP,
        ZeroRead::Quiet if came_at_once(clock, start) => empty.saturating_add(1),
        ZeroRead::Quiet => 0,
    };
    (*empty >= HANG_UP).then_some(FlowEnd::Ended)
}

// One read, and what it gave into the ring. `None` where it goes on.
#[tactic(auto, using(crate::proofs::Written::empty_in, crate::proofs::Written::piece_in))]
fn turn<R: Read, K: Clock>(
    clock: &K,
    reader: &mut R,
    ring: &mut Producer<u8>,
    bells: Bells,
    zero: ZeroRead,
    empty: &mut u32,
) -> Option<FlowEnd>
    ensures ring { SameProducer ring.old ring.new }
    ensures flows { result ≢ Some Stopped
        → FlowsIn 0 (sent ring.old) (sent ring.new) (R.remaining reader.old) (R.remaining reader.new) }
    ensures stopped { result ≡ Some Stopped
        → FlowsIn 512 (sent ring.old) (sent ring.new) (R.remaining reader.old) (R.remaining reader.new) }
    ensures ended { result ≡ Some Ended → IsAtEnd (R.remaining reader.new) }
{
    let mut buffer = [0; ROOM];
    let start = Instant::now(clock).ok();
    match reader.read(&mut buffer) {
        Ok(0) => empty_read(clock, start, zero, empty),
        Ok(count) => {
            *empty = 0;
            if put(clock, &buffer[..count], ring, bells) {
                None
            } else {
                Some(FlowEnd::Stopped)
            }
        }
        Err(error) if is_passing(&error) => None,
        Err(_) => Some(FlowEnd::Failed),
    }
}

/// Reads a device into a ring until the device ends, and rings `bell` whenever octets came. It stops once `own` is over or nobody
/// is left to read the ring. Then the end of the last read may be lost, at most 512 octets; all that came before it is in the ring.
/// `zero` says what an empty read means: the end, or nothing yet. Eight empty reads in a row that come back at once are the end in
/// any case.
#[tactic(auto, using(crate::proofs::Written::none_in, crate::proofs::Written::both_in))]
pub fn pump<R: Read, K: Clock>(
    clock: &K,
    reader: &mut R,
    ring: &mut Producer<u8>,
    bell: &Bell,
    own: &Bell,
    zero: ZeroRead,
) -> FlowEnd
    ensures ring { SameProducer ring.old ring.new }
    ensures flows { result ≢ Stopped
        → FlowsIn 0 (sent ring.old) (sent ring.new) (R.remaining reader.old) (R.remaining reader.new) }
    ensures stopped { result ≡ Stopped
        → FlowsIn 512 (sent ring.old) (sent ring.new) (R.remaining reader.old) (R.remaining reader.new) }
    ensures ended { result ≡ Ended → IsAtEnd (R.remaining reader.new) }
{
    let bells = Bells { bell, own };
    let mut empty = 0;
    for _ in 0..u64::MAX {
        if own.is_over() || ring.is_abandoned() {
            return FlowEnd::Stopped;
        }
        if let Some(end) = turn(clock, reader, ring, bells, zero, &mut empty) {
            return end;
        }
    }
    FlowEnd::Stopped
}
