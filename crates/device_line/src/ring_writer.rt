//! A ring's end, as a writer that never waits.
ghost use Rattle.std.specs.Prelude.{◌≡◌, ◌+◌, ◌≤◌, ◌<◌, ◌++◌, ◌⊎◌, take, length, IfOk, IfErr, OnErr};
ghost use Rattle.std.specs.IoError.{error_kind};

use bell::Bell;
use rtrb::Producer;
use std::io;
use std::io::{ErrorKind, Write};
use std::marker::Model;

/// Puts octets into a ring, and rings the bell of the thread that writes them out. Without room it answers `WouldBlock`, and
/// `BrokenPipe` once that thread has left.
///
/// Contracts see which ring it is, the octets that it took, and for how many more it knows that there is room.
#[derive(Drop)]
pub struct RingWriter {
    octets: Producer<u8>,
    bell: Bell,
}

impl Model for RingWriter {
    ghost use Rattle.rtrb.specs.Ring.{sent, known_free};
    ghost use Rattle.ring_id.specs.Rings.{ring_of_producer};
    ghost use Rattle.device_line.specs.Rings.{WriterState};

    ghost Value = { WriterState };

    ghost view = { λ w. record {
      ring = ring_of_producer w.octets;
      sent = sent w.octets;
      free = known_free w.octets;
    } };
}

impl RingWriter {
    ghost use Rattle.rtrb.specs.Ring.{sent, known_free};
    ghost use Rattle.ring_id.specs.Rings.{ring_of_producer};

    /// A writer to this ring, which rings this bell.
    pub fn new(octets: Producer<u8>, bell: Bell) -> RingWriter
        ensures { result ≡ record {
          ring = ring_of_producer octets;
          sent = sent octets;
          free = known_free octets;
        } }
    {
        RingWriter { octets, bell }
    }
}

impl Write for RingWriter {
    /// Takes as many octets as there is room for.
    fn write(&mut self, buf: &[u8]) -> io::Result<usize>
        ensures bound { IfOk result (λ n. n ≤ length buf.now) }
        ensures ring { self.new.ring ≡ self.old.ring }
        ensures went { IfOk result (λ n. self.new.sent ≡ self.old.sent ++ take n buf.now) }
        ensures free { IfOk result (λ n. self.old.free ≤ self.new.free + n) }
        ensures most { IfOk result (λ n. n < length buf.now → self.new.free ≡ 0) }
        ensures none { IfOk result (λ n. n ≡ 0 → length buf.now ≡ 0) }
        ensures nothing { OnErr result (self.new.sent ≡ self.old.sent) }
        ensures refused { IfErr result (λ e. (error_kind e ≡ ErrorKind.BrokenPipe)
            ⊎ ((error_kind e ≡ ErrorKind.WouldBlock) × (self.new.free ≡ 0) × (0 < length buf.now))) }
    {
        if self.octets.is_abandoned() {
            return Err(io::Error::from(ErrorKind::BrokenPipe));
        }
        let (taken, _) = self.octets.push_partial_slice(buf);
        let count = taken.len();
        self.bell.ring();
        if count == 0 && !buf.is_empty() {
            return Err(io::Error::from(ErrorKind::WouldBlock));
        }
        Ok(count)
    }

    fn flush(&mut self) -> io::Result<()>
        ensures { self.new ≡ self.old }
    {
        Ok(())
    }
}
