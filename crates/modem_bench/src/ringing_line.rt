//! A line between two threads, of which each wakes the other.
ghost use Rattle.std.specs.Prelude.{◌≡◌};
ghost use Rattle.serial_line.specs.OtherSide.{AreOpposite};
ghost use Rattle.modem_bench.specs.Lines.{AreConnected};

use bell::Bell;
use serial_line::{LineFault, SerialLine, ThreadLine};
use std::marker::Model;

/// A line that says how much it moved.
pub trait CountedLine {
    /// How many octets it gave and took so far. The count ends at `u64::MAX`.
    fn moved(&self) -> u64;
}

/// An end of a line between two threads.
pub trait PairedLine: SerialLine {
    /// Ends a line, once one thread holds both its ends: of the octets that each of them sent the other received the first.
    /// Requires the two ends of one line.
    fn part(self, other: Self)
        requires { AreOpposite (Self.other_side self) (Self.other_side other) }
        ensures { AreConnected (Self.seen self) (Self.seen other) };
}

/// An end of a line between two threads. Each call that moves octets rings the bell of the thread at the other end, which has
/// octets or room then. Contracts see the line alone.
#[derive(Drop)]
pub struct RingingLine {
    line: ThreadLine,
    other: Bell,
    moved: u64,
}

impl Model for RingingLine {
    ghost use Rattle.serial_line.specs.ThreadLine.{EndState};

    ghost Value = { EndState };

    ghost view = { λ l. l.line };
}

impl RingingLine {
    /// This end, which rings that bell.
    pub fn new(line: ThreadLine, other: Bell) -> RingingLine
        ensures { result ≡ line }
    {
        RingingLine {
            line,
            other,
            moved: 0,
        }
    }

    /// So many octets were moved.
    fn note(&mut self, count: usize)
        ensures { self.new ≡ self.old }
    {
        if count > 0 {
            self.moved = self.moved.saturating_add(count as u64);
            self.other.ring();
        }
    }
}

impl CountedLine for RingingLine {
    fn moved(&self) -> u64 {
        self.moved
    }
}

impl PairedLine for RingingLine {
    #[tactic(auto, using(crate::proofs::Lines::ends_of, crate::proofs::Lines::ends_back, crate::proofs::Lines::connected))]
    fn part(self, other: RingingLine) {
        let mut near = self.line;
        let mut far = other.line;
        let _to_far = near.under_way(&mut far);
        let _to_near = far.under_way(&mut near);
    }
}

impl SerialLine for RingingLine {
    ghost use Rattle.serial_line.specs.ThreadLine.{thread_side, thread_view};

    ghost seen = { thread_view };

    ghost other_side = { thread_side };

    /// Reads. Where octets came, the other end has room.
    fn try_read(&mut self, buffer: &mut [u8]) -> Result<usize, LineFault> {
        let count = self.line.try_read(buffer)?;
        self.note(count);
        Ok(count)
    }

    /// Writes. Where octets went, the other end has them to read.
    fn try_write(&mut self, octets: &[u8]) -> Result<usize, LineFault> {
        let count = self.line.try_write(octets)?;
        self.note(count);
        Ok(count)
    }
}
