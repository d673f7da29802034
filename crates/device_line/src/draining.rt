//! Writes a ring out to its device.
ghost use Rattle.std.specs.Prelude.{◌≡◌, ◌≢◌, ◌⊎◌, [], None, Some, length, MatchOption};
ghost use Rattle.rtrb.specs.Ring.{received, known_items, SameConsumer};
ghost use Rattle.device_line.specs.Flows.{FlowsOut};
ghost use Rattle.device_line.specs.declared.FlowEnd.TheVariants.{Ended};

use crate::{FlowEnd, is_passing};
use bell::Bell;
use rtrb::Consumer;
use std::io::Write;
use std::sync::Wait;
use std::time::Duration;

// How many octets are written at once.
const ROOM: usize = 512;

// Milliseconds until a write that was refused for now is tried again.
const AGAIN: u64 = 1;

// Seconds after which the ring is looked at without any ring of the bell.
const LOOK: u64 = 1;

// Writes all of it, by as many calls as it takes. `None` if it did; else it wrote only the first of it.
#[tactic(auto, using(crate::proofs::Written::some_out, crate::proofs::Written::all_out))]
fn write_on<W: Write, R: Wait>(rt: &R, writer: &mut W, octets: &[u8], own: &Bell) -> Option<FlowEnd>
    ensures written { result ≡ None
        → FlowsOut 0 [] octets.now (W.contents writer.old) (W.contents writer.new) }
    ensures first { FlowsOut (length octets.now) [] octets.now (W.contents writer.old) (W.contents writer.new) }
    ensures ended { result ≢ Some Ended }
{
    let mut rest = octets;
    for _ in rt.forever() {
        if rest.is_empty() {
            return None;
        }
        if own.is_over() {
            return Some(FlowEnd::Stopped);
        }
        match writer.write(rest) {
            Ok(0) => return Some(FlowEnd::Failed),
            Ok(count) => rest = &rest[count..],
            Err(error) if is_passing(&error) => own.wait(rt, Duration::from_millis(AGAIN)),
            Err(_) => return Some(FlowEnd::Failed),
        }
    }
    unreachable!()
}

// What is in the ring, at most 512 octets of it. With none there it waits, unless the ring's writer is gone: that is the end.
// `None` where it goes on.
#[tactic(auto, using(crate::proofs::Written::none_out, crate::proofs::Written::piece_out))]
fn turn<W: Write, R: Wait>(
    rt: &R,
    writer: &mut W,
    ring: &mut Consumer<u8>,
    bell: &Bell,
    own: &Bell,
) -> Option<FlowEnd>
    ensures ring { SameConsumer ring.old ring.new }
    ensures flows { (result ≡ None) ⊎ (result ≡ Some Ended)
        → FlowsOut 0 (received ring.old) (received ring.new) (W.contents writer.old) (W.contents writer.new) }
    ensures first { FlowsOut 512 (received ring.old) (received ring.new) (W.contents writer.old) (W.contents writer.new) }
    ensures ended { result ≡ Some Ended → known_items ring.new ≡ [] }
{
    let mut buffer = [0; ROOM];
    // It is looked at first: what was put in before the other end left is still written.
    let last = ring.is_abandoned();
    let count = ring.pop_partial_slice(&mut buffer);
    if count > 0 {
        bell.ring();
        return write_on(rt, writer, &buffer[..count], own);
    }
    if last {
        return Some(FlowEnd::Ended);
    }
    own.wait(rt, Duration::from_secs(LOOK));
    None
}

/// Writes what comes out of a ring to a device, until the ring's writer is gone and all is written. It rings `bell` whenever there is
/// room again. It waits on `own`, which a `RingWriter` rings, and stops once `own` is over. A write that takes nothing is a failure.
/// Where it stops or the device fails, at most the last 512 octets that it took out of the ring aren't written.
#[tactic(auto, using(crate::proofs::Written::none_out, crate::proofs::Written::both_out))]
pub fn drain<W: Write, R: Wait>(
    rt: &R,
    writer: &mut W,
    ring: &mut Consumer<u8>,
    bell: &Bell,
    own: &Bell,
) -> FlowEnd
    ensures ring { SameConsumer ring.old ring.new }
    ensures flows { result ≡ Ended
        → FlowsOut 0 (received ring.old) (received ring.new) (W.contents writer.old) (W.contents writer.new) }
    ensures first { FlowsOut 512 (received ring.old) (received ring.new) (W.contents writer.old) (W.contents writer.new) }
    ensures ended { result ≡ Ended → known_items ring.new ≡ [] }
{
    for _ in rt.forever() {
        if own.is_over() {
            return FlowEnd::Stopped;
        }
        if let Some(end) = turn(rt, writer, ring, bell, own) {
            return end;
        }
    }
    unreachable!()
}
