//! A ring's end, as a reader that never waits.
ghost use Rattle.std.specs.Prelude.{◌≡◌, ◌≤◌, ◌<◌, ◌++◌, [], take, drop, length, IfOk, IfErr, OnErr};
ghost use Rattle.std.specs.IoError.{error_kind};
ghost use mathlib.Core.List.{IsPrefix};

use rtrb::Consumer;
use std::io;
use std::io::{ErrorKind, Read};
use std::marker::Model;

/// Reads what a thread put into a ring. Where nothing is there it answers `WouldBlock`, and 0 once that thread has left.
///
/// Contracts see which ring it is, the octets that it gave, and those that it has seen waiting for later reads.
#[derive(Drop)]
pub struct RingReader {
    octets: Consumer<u8>,
}

impl Model for RingReader {
    ghost use Rattle.rtrb.specs.Ring.{received, known_items};
    ghost use Rattle.ring_id.specs.Rings.{ring_of_consumer};
    ghost use Rattle.device_line.specs.Rings.{ReaderState};

    ghost Value = { ReaderState };

    ghost view = { λ r. record {
      ring = ring_of_consumer r.octets;
      received = received r.octets;
      seen = known_items r.octets;
    } };
}

impl RingReader {
    ghost use Rattle.rtrb.specs.Ring.{received, known_items};
    ghost use Rattle.ring_id.specs.Rings.{ring_of_consumer};

    /// Reads from this ring.
    pub fn new(octets: Consumer<u8>) -> RingReader
        ensures { result ≡ record {
          ring = ring_of_consumer octets;
          received = received octets;
          seen = known_items octets;
        } }
    {
        RingReader { octets }
    }
}

impl Read for RingReader {
    /// Gives the octets that are there, as many as the buffer holds.
    fn read(&mut self, buf: &mut [u8]) -> io::Result<usize>
        ensures bound { IfOk result (λ n. n ≤ length buf.new) }
        ensures ring { self.new.ring ≡ self.old.ring }
        ensures came { IfOk result (λ n. self.new.received ≡ self.old.received ++ take n buf.new) }
        ensures rest { IfOk result (λ n. drop n buf.new ≡ drop n buf.old) }
        ensures seen { IfOk result (λ n. IsPrefix self.old.seen (take n buf.new ++ self.new.seen)) }
        ensures most { IfOk result (λ n. n < length buf.old → self.new.seen ≡ []) }
        ensures nothing { OnErr result ((self.old.seen ≡ []) × (self.new ≡ self.old) × (buf.new ≡ buf.old)) }
        ensures refused { IfErr result (λ e. error_kind e ≡ ErrorKind.WouldBlock) }
    {
        // It is looked at first: what was put in before the other end left is still read.
        let over = self.octets.is_abandoned();
        let count = self.octets.pop_partial_slice(buf);
        if count == 0 && !over && !buf.is_empty() {
            return Err(io::Error::from(ErrorKind::WouldBlock));
        }
        Ok(count)
    }
}
