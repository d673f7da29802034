//! What a line of octets is.
ghost use Rattle.std.specs.Prelude.{◌≡◌, ◌<◌, ◌≤◌, length, IfOk, OnErr};
ghost use Rattle.serial_line.specs.LineViews.{LineView, after_read, after_write, after_fault};
ghost use Rattle.serial_line.specs.OtherSide.{OtherSide};

use thiserror::Error;

/// The line failed in this call.
#[derive(Clone, Copy, Debug, PartialEq, Eq, Error)]
#[error("the line failed")]
pub struct LineFault;

/// A line of octets, such as a serial device. No call on it waits: 0 octets mean that nothing can be moved now.
///
/// Contracts see all octets that the line gave and took, and four counts: calls; calls that failed; reads with room for an
/// octet that gave none; writes that were offered an octet and took none. Counts stop at `u64::MAX`. A line that has failed
/// `u64::MAX` times gives no more faults.
pub trait SerialLine {
    /// The octets that it gave and took so far, and its counts.
    ghost seen: { Self → LineView };

    /// What happened on the line's other side, as two lists: all octets that were put in there to be read here, read or not;
    /// and the octets taken here that were given on there. A line that doesn't know this shows two empty lists. A line between
    /// threads shows the rings that lead there. No call of the line's user changes any of these.
    ghost other_side: { Self → OtherSide };

    /// Reads: puts the next octets at the front of the buffer, and says how many. Nothing is said of the buffer behind them.
    /// Fails with `LineFault` where the line fails: then it gave nothing.
    fn try_read(&mut self, buffer: &mut [u8]) -> Result<usize, LineFault>
        ensures bound { IfOk result (λ n. n ≤ length buffer.old) }
        ensures ok { IfOk result (λ n. seen self.new ≡ after_read (length buffer.old) n buffer.new (seen self.old)) }
        ensures err { OnErr result (seen self.new ≡ after_fault (seen self.old)) }
        ensures last { OnErr result ((seen self.old).failures < u64.MAX) }
        ensures beyond { other_side self.new ≡ other_side self.old };

    /// Writes: takes octets from the front of `octets`, and says how many. Fails with `LineFault` where the line fails: then
    /// it took none.
    fn try_write(&mut self, octets: &[u8]) -> Result<usize, LineFault>
        ensures bound { IfOk result (λ n. n ≤ length octets.now) }
        ensures ok { IfOk result (λ n. seen self.new ≡ after_write n octets.now (seen self.old)) }
        ensures err { OnErr result (seen self.new ≡ after_fault (seen self.old)) }
        ensures last { OnErr result ((seen self.old).failures < u64.MAX) }
        ensures beyond { other_side self.new ≡ other_side self.old };
}
