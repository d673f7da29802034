//! A line between two threads.
ghost use Rattle.std.specs.Prelude.{◌≡◌, ◌+◌, ◌<◌, ◌≤◌, ◌++◌, ◌↔◌, ◌⊎◌, [], take, drop, length, IsOk, IfOk, IsErrOf};
ghost use mathlib.Core.List.{IsPrefix};
ghost use Rattle.serial_line.specs.Counts.{one_more, counted_if_none};
ghost use Rattle.serial_line.specs.ThreadLine.{AreEnds, IsNew, thread_side, thread_view};

use crate::counting::count_if_none;
use crate::errors::LineError;
use crate::line::{LineFault, SerialLine};
use rtrb::{Consumer, Producer, RingBuffer};
use std::alloc::Global;
use std::marker::Model;

// The most octets that can be under way each way.
const MOST_ROOM: usize = 65536;

/// One end of a line between two threads. The other end receives what this end sent, in order. No call fails.
#[derive(Drop)]
pub struct ThreadLine {
    incoming: Consumer<u8>,
    outgoing: Producer<u8>,
    calls: u64,
    empty_reads: u64,
    stalled_writes: u64,
}

impl Model for ThreadLine {
    ghost use Rattle.rtrb.specs.Ring.{sent, received, known_free, known_items};
    ghost use Rattle.serial_line.specs.ThreadLine.{EndState};
    ghost use Rattle.ring_id.specs.Rings.{ring_of_producer, ring_of_consumer};

    ghost Value = { EndState };

    ghost view = { λ l. record {
      received = received l.incoming;
      seen = known_items l.incoming;
      sent = sent l.outgoing;
      free = known_free l.outgoing;
      calls = l.calls;
      empty_reads = l.empty_reads;
      stalled_writes = l.stalled_writes;
      incoming = ring_of_consumer l.incoming;
      outgoing = ring_of_producer l.outgoing;
    } };
}

impl ThreadLine {
    /// The two ends of a new line, with room for `room` octets under way each way. Refused with `BadRoom` unless that is 1 to
    /// 65536, and then with `NoMemory` where memory is refused.
    pub fn pair(alloc: Global, room: usize) -> Result<(ThreadLine, ThreadLine), LineError>
        ensures bad_room { IsErrOf result LineError.BadRoom ↔ ((room ≡ 0) ⊎ (65536 < room)) }
        ensures ends { IfOk result (λ r. AreEnds r.0 r.1) }
        ensures fresh { IfOk result (λ r. IsNew room r.0 × IsNew room r.1) }
    {
        if !(1..=MOST_ROOM).contains(&room) {
            return Err(LineError::BadRoom);
        }
        let (there, there_out) = RingBuffer::new(alloc, room)?;
        let (back, back_out) = RingBuffer::new(alloc, room)?;
        let near = ThreadLine {
            incoming: back_out,
            outgoing: there,
            calls: 0,
            empty_reads: 0,
            stalled_writes: 0,
        };
        let far = ThreadLine {
            incoming: there_out,
            outgoing: back,
            calls: 0,
            empty_reads: 0,
            stalled_writes: 0,
        };
        Ok((near, far))
    }

    /// For a thread that holds both ends: how many octets this end has sent that the other end hasn't received. What the other end
    /// received is a prefix of what this end sent. Requires the two ends of one line.
    pub fn under_way(&mut self, other: &mut ThreadLine) -> usize
        requires { AreEnds self.old other.old }
        ensures value { result ≡ length other.new.seen }
        ensures fifo { self.new.sent ≡ other.new.received ++ other.new.seen }
        ensures here { self.new ≡ record self.old { free = self.new.free } }
        ensures free { self.old.free ≤ self.new.free }
        ensures there { other.new ≡ record other.old { seen = other.new.seen } }
    {
        other.incoming.slots_beside(&mut self.outgoing)
    }
}

impl SerialLine for ThreadLine {
    ghost seen = { thread_view };

    ghost other_side = { thread_side };

    /// Gives the octets that are there, as many as the buffer holds. Behind them it leaves the buffer as it was.
    fn try_read(&mut self, buffer: &mut [u8]) -> Result<usize, LineFault>
        ensures sound { IsOk result }
        ensures bound { IfOk result (λ n. n ≤ length buffer.old) }
        ensures line { IfOk result (λ n. self.new ≡ record self.old {
          received = self.old.received ++ take n buffer.new;
          seen = self.new.seen;
          calls = one_more self.old.calls;
          empty_reads = counted_if_none (length buffer.old) n self.old.empty_reads;
        }) }
        ensures rest { IfOk result (λ n. drop n buffer.new ≡ drop n buffer.old) }
        ensures seen { IfOk result (λ n. IsPrefix self.old.seen (take n buffer.new ++ self.new.seen)) }
        ensures most { IfOk result (λ n. n < length buffer.old → self.new.seen ≡ []) }
    {
        self.calls = self.calls.saturating_add(1);
        let count = self.incoming.pop_partial_slice(buffer);
        count_if_none(&mut self.empty_reads, buffer.len(), count);
        Ok(count)
    }

    /// Takes as many octets as there is room for.
    fn try_write(&mut self, octets: &[u8]) -> Result<usize, LineFault>
        ensures sound { IsOk result }
        ensures bound { IfOk result (λ n. n ≤ length octets.now) }
        ensures line { IfOk result (λ n. self.new ≡ record self.old {
          sent = self.old.sent ++ take n octets.now;
          free = self.new.free;
          calls = one_more self.old.calls;
          stalled_writes = counted_if_none (length octets.now) n self.old.stalled_writes;
        }) }
        ensures free { IfOk result (λ n. self.old.free ≤ self.new.free + n) }
        ensures most { IfOk result (λ n. n < length octets.now → self.new.free ≡ 0) }
    {
        self.calls = self.calls.saturating_add(1);
        let (taken, _) = self.outgoing.push_partial_slice(octets);
        let count = taken.len();
        count_if_none(&mut self.stalled_writes, octets.len(), count);
        Ok(count)
    }
}
