//! A line whose frames go into a capture.
ghost use Rattle.std.specs.Prelude.{◌≡◌, []};
ghost use Rattle.ctl_drive.specs.CapturedLine.{CapturesUnlessFailed, HasBegun, captured_line};

use mux_capture::{Capture, Direction, Stamp};
use serial_line::{LineFault, SerialLine};
use std::io::Write;
use std::marker::Model;
use std::rt::Clock;

/// A line, and a capture of the frames that it gives and takes. Until the capture fails, it has a packet for each frame that
/// all octets received are read as, and for each that all octets sent are read as. Where the capture fails, the line goes on.
#[derive(Drop)]
pub struct CapturedLine<L: SerialLine, K: Clock, C: Write> {
    line: L,
    clock: K,
    capture: Capture<C>,
}

impl<L: SerialLine, K: Clock, C: Write> Model for CapturedLine<L, K, C> {
    ghost use Rattle.ctl_drive.specs.CapturedLine.{CapturedState, CapturesUnlessFailed};

    ghost Value = { CapturedState L };

    ghost view = { λ l. record { line = l.line; capture = l.capture } };

    ghost invariant = { λ l. CapturesUnlessFailed (L.seen l.line).received (L.seen l.line).sent l.capture };
}

impl<L: SerialLine, K: Clock, C: Write> CapturedLine<L, K, C> {
    /// This line, on which nothing has passed, with this capture, which has begun.
    pub fn new(line: L, clock: K, capture: Capture<C>) -> CapturedLine<L, K, C>
        requires fresh { ((L.seen line).received ≡ []) × ((L.seen line).sent ≡ []) }
        requires begun { HasBegun capture }
        ensures { result ≡ captured_line line capture }
    {
        CapturedLine {
            line,
            clock,
            capture,
        }
    }

    /// Whether the capture has failed.
    pub fn has_failed(&self) -> bool
        ensures failed { result ≡ self.now.capture.failed }
        ensures captures { CapturesUnlessFailed (L.seen self.now.line).received (L.seen self.now.line).sent self.now.capture }
    {
        self.capture.has_failed()
    }
}

impl<L: SerialLine, K: Clock, C: Write> SerialLine for CapturedLine<L, K, C> {
    ghost seen = { λ l. L.seen l.line };

    ghost other_side = { λ l. L.other_side l.line };

    /// Reads; the frames that end in what it reads are captured.
    fn try_read(&mut self, buffer: &mut [u8]) -> Result<usize, LineFault> {
        let count = self.line.try_read(buffer)?;
        let stamp = Stamp::now(&self.clock);
        self.capture
            .take(stamp, Direction::FromModem, &buffer[..count]);
        Ok(count)
    }

    /// Writes; the frames that end in what it takes are captured.
    fn try_write(&mut self, octets: &[u8]) -> Result<usize, LineFault> {
        let count = self.line.try_write(octets)?;
        let stamp = Stamp::now(&self.clock);
        self.capture
            .take(stamp, Direction::ToModem, &octets[..count]);
        Ok(count)
    }
}
