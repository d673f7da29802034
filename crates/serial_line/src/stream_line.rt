//! A line over a reader and a writer.
//!
//! `SerialLine` asks that no call waits. A call on this line waits where its reader or writer waits. Files and slices never
//! wait. A reader and a writer that answer `WouldBlock` instead, such as those of `device_line`, don't wait either. A terminal
//! set to `min 0 time 1` does wait: each read that finds nothing takes a tenth of a second, and a command was measured to take
//! 400 ms. For a terminal use the line of `device_line`.
ghost use Rattle.std.specs.Prelude.{◌≡◌, ◌+◌, ◌<◌, ◌≤◌, ◌++◌, ◌⊎◌, [], true, false, take, length, IfOk, Ok, OnErr, MatchResult, IfErr};
ghost use Rattle.std.specs.IoError.{error_kind};
ghost use Rattle.std.specs.Io.KnownBytes.{Keeps, Consumes, Appends, IsAtEnd};
ghost use Rattle.serial_line.specs.Counts.{one_more, counted_if_none};
ghost use Rattle.serial_line.specs.OtherSide.{unknown_side};
ghost use Rattle.serial_line.specs.StreamLine.{new_stream, stream_view, is_passing, ComesOfError, CountsRefusal, IsRefused};
ghost use Rattle.serial_line.specs.declared.stream_line.ZeroRead.TheVariants.{Ended, Quiet};

use crate::counting::count_if_none;
use crate::history::History;
use crate::line::{LineFault, SerialLine};
use std::io::{Error, ErrorKind, Read, Write};
use std::marker::Model;

/// What an empty read means, where there was room for octets.
#[derive(Clone, Copy)]
pub enum ZeroRead {
    /// Nothing is there now, as on a terminal that is set to `min 0 time 1`.
    Quiet,
    /// The line has ended, as on a pipe, a socket or a file: the read fails.
    Ended,
}

/// A line over a reader and a writer. Where one of these answers `Interrupted`, `WouldBlock` or `TimedOut`, the call moves 0 octets; any
/// other error is a fault. How often a call asks them no clause says. The writer is never flushed: one that keeps octets back isn't for a
/// line.
///
/// Contracts see the octets and counts of a line; what the reader is still to give and what the writer holds, where those are
/// known; what an empty read means; and how many calls the reader or the writer refused for now. That count stops at
/// `u64::MAX`.
#[derive(Drop)]
pub struct StreamLine<R: Read, W: Write> {
    reader: R,
    writer: W,
    zero: ZeroRead,
    received: History,
    sent: History,
    calls: u64,
    failures: u64,
    empty_reads: u64,
    stalled_writes: u64,
    refusals: u64,
}

impl<R: Read, W: Write> Model for StreamLine<R, W> {
    ghost use Rattle.serial_line.specs.StreamLine.{StreamState};

    ghost Value = { StreamState };

    ghost view = { λ l. record {
      received = l.received;
      sent = l.sent;
      left = R.remaining l.reader;
      held = W.contents l.writer;
      zero = l.zero;
      calls = l.calls;
      failures = l.failures;
      empty_reads = l.empty_reads;
      stalled_writes = l.stalled_writes;
      refusals = l.refusals;
    } };
}

impl<R: Read, W: Write> StreamLine<R, W> {
    /// A line on which nothing has happened yet.
    pub fn new(reader: R, writer: W, zero: ZeroRead) -> StreamLine<R, W>
        ensures { result ≡ new_stream (R.remaining reader) (W.contents writer) zero }
    {
        StreamLine {
            reader,
            writer,
            zero,
            received: History::new(),
            sent: History::new(),
            calls: 0,
            failures: 0,
            empty_reads: 0,
            stalled_writes: 0,
            refusals: 0,
        }
    }

    /// The reader and the writer, for what comes after the line.
    pub fn into_parts(self) -> (R, W)
        ensures reader { R.remaining result.0 ≡ self.left }
        ensures writer { W.contents result.1 ≡ self.held }
    {
        (self.reader, self.writer)
    }
}

// Whether a call was refused for now alone.
fn is_passing(error: &Error) -> bool
    ensures { result ≡ is_passing (error_kind error.now) }
{
    matches!(
        error.kind(),
        ErrorKind::Interrupted | ErrorKind::WouldBlock | ErrorKind::TimedOut
    )
}

// What becomes of a call that was refused: where it may be made again, nothing went; else it failed.
fn refused(error: &Error, failures: &mut u64, refusals: &mut u64) -> Result<usize, LineFault>
    ensures nothing { IfOk result (λ n. n ≡ 0) }
    ensures sound { IfOk result (λ _. failures.new ≡ failures.old) }
    ensures passing { IfOk result (λ _. (is_passing (error_kind error.now) ≡ true) ⊎ (failures.old ≡ u64.MAX)) }
    ensures counted { IfOk result (λ _. refusals.new ≡ one_more refusals.old) }
    ensures lasting { OnErr result (is_passing (error_kind error.now) ≡ false) }
    ensures last { OnErr result (failures.old < u64.MAX) }
    ensures failure { OnErr result (failures.new ≡ failures.old + 1) }
    ensures not_counted { OnErr result (refusals.new ≡ refusals.old) }
{
    if !is_passing(error) {
        failed(failures)?;
    }
    *refusals = refusals.saturating_add(1);
    Ok(0)
}

// What a call comes to by what its reader or writer answered.
fn outcome(
    answer: Result<usize, Error>,
    failures: &mut u64,
    refusals: &mut u64,
) -> Result<usize, LineFault>
    ensures moved { IfOk answer (λ n. (result ≡ Ok n) × (failures.new ≡ failures.old) × (refusals.new ≡ refusals.old)) }
    ensures missed { IfErr answer (λ e. ComesOfError (is_passing (error_kind e)) failures.old refusals.old failures.new refusals.new result) }
{
    match answer {
        Ok(count) => Ok(count),
        Err(error) => refused(&error, failures, refusals),
    }
}

// A call that failed, as long as the count of failures goes on.
fn failed(failures: &mut u64) -> Result<usize, LineFault>
    ensures nothing { IfOk result (λ n. n ≡ 0) }
    ensures sound { IfOk result (λ _. (failures.old ≡ u64.MAX) × (failures.new ≡ failures.old)) }
    ensures last { OnErr result (failures.old < u64.MAX) }
    ensures failure { OnErr result (failures.new ≡ failures.old + 1) }
{
    if *failures == u64::MAX {
        return Ok(0);
    }
    *failures += 1;
    Err(LineFault)
}

// A read of nothing, where there was room: it fails where it says that the line has ended.
fn empty(zero: ZeroRead, failures: &mut u64) -> Result<usize, LineFault>
    ensures nothing { IfOk result (λ n. n ≡ 0) }
    ensures sound { IfOk result (λ _. failures.new ≡ failures.old) }
    ensures quiet { IfOk result (λ _. (zero ≡ Quiet) ⊎ (failures.old ≡ u64.MAX)) }
    ensures ended { OnErr result (zero ≡ Ended) }
    ensures last { OnErr result (failures.old < u64.MAX) }
    ensures failure { OnErr result (failures.new ≡ failures.old + 1) }
{
    match zero {
        ZeroRead::Quiet => Ok(0),
        ZeroRead::Ended => failed(failures),
    }
}

// Reads. A read of nothing, where there was room, fails if it says that the line has ended.
fn read_once<R: Read>(
    reader: &mut R,
    zero: ZeroRead,
    buffer: &mut [u8],
    failures: &mut u64,
    refusals: &mut u64,
) -> Result<usize, LineFault>
    ensures bound { IfOk result (λ n. n ≤ length buffer.old) }
    ensures left { MatchResult result
        (λ n. Consumes (R.remaining reader.old) (R.remaining reader.new) (take n buffer.new))
        (λ _. Keeps (R.remaining reader.old) (R.remaining reader.new)) }
    ensures sound { IfOk result (λ _. failures.new ≡ failures.old) }
    ensures last { OnErr result (failures.old < u64.MAX) }
    ensures failure { OnErr result ((failures.new ≡ failures.old + 1) × (refusals.new ≡ refusals.old)) }
    ensures none { IfOk result (λ n. n ≡ 0 → 0 < length buffer.old
        → (refusals.new ≡ one_more refusals.old) ⊎ IsAtEnd (R.remaining reader.new)) }
    ensures ended { IfOk result (λ n. n ≡ 0 → 0 < length buffer.old → zero ≡ Ended
        → (refusals.new ≡ one_more refusals.old) ⊎ (failures.old ≡ u64.MAX)) }
    ensures some { IfOk result (λ n. 0 < n → refusals.new ≡ refusals.old) }
    ensures counted { IfOk result (λ n. ((n ≡ 0) × (refusals.new ≡ one_more refusals.old)) ⊎ (refusals.new ≡ refusals.old)) }
{
    match reader.read(buffer) {
        Ok(0) if !buffer.is_empty() => empty(zero, failures),
        answer => outcome(answer, failures, refusals),
    }
}

impl<R: Read, W: Write> SerialLine for StreamLine<R, W> {
    ghost seen = { stream_view };

    ghost other_side = { λ _. unknown_side };

    /// Reads from the reader.
    fn try_read(&mut self, buffer: &mut [u8]) -> Result<usize, LineFault>
        ensures bound { IfOk result (λ n. n ≤ length buffer.old) }
        ensures line { MatchResult result
            (λ n. self.new ≡ record self.old {
              received = self.old.received ++ take n buffer.new;
              left = self.new.left;
              calls = one_more self.old.calls;
              empty_reads = counted_if_none (length buffer.old) n self.old.empty_reads;
              refusals = self.new.refusals;
            })
            (λ _. self.new ≡ record self.old {
              left = self.new.left;
              calls = one_more self.old.calls;
              failures = self.old.failures + 1;
            }) }
        ensures last { OnErr result (self.old.failures < u64.MAX) }
        ensures left { MatchResult result (λ n. Consumes self.old.left self.new.left (take n buffer.new))
            (λ _. Keeps self.old.left self.new.left) }
        ensures none { IfOk result (λ n. n ≡ 0 → 0 < length buffer.old
            → IsRefused self.old self.new ⊎ IsAtEnd self.new.left) }
        ensures ended { IfOk result (λ n. n ≡ 0 → 0 < length buffer.old → self.old.zero ≡ Ended
            → IsRefused self.old self.new ⊎ (self.old.failures ≡ u64.MAX)) }
        ensures some { IfOk result (λ n. 0 < n → self.new.refusals ≡ self.old.refusals) }
        ensures counted { IfOk result (λ n. CountsRefusal n self.old self.new) }
    {
        self.calls = self.calls.saturating_add(1);
        let count = read_once(
            &mut self.reader,
            self.zero,
            buffer,
            &mut self.failures,
            &mut self.refusals,
        )?;
        count_if_none(&mut self.empty_reads, buffer.len(), count);
        self.received.push(&buffer[..count]);
        Ok(count)
    }

    /// Writes to the writer.
    fn try_write(&mut self, octets: &[u8]) -> Result<usize, LineFault>
        ensures bound { IfOk result (λ n. n ≤ length octets.now) }
        ensures line { MatchResult result
            (λ n. self.new ≡ record self.old {
              sent = self.old.sent ++ take n octets.now;
              held = self.new.held;
              calls = one_more self.old.calls;
              stalled_writes = counted_if_none (length octets.now) n self.old.stalled_writes;
              refusals = self.new.refusals;
            })
            (λ _. self.new ≡ record self.old {
              held = self.new.held;
              calls = one_more self.old.calls;
              failures = self.old.failures + 1;
            }) }
        ensures last { OnErr result (self.old.failures < u64.MAX) }
        ensures held { MatchResult result (λ n. Appends self.old.held self.new.held (take n octets.now))
            (λ _. Keeps self.old.held self.new.held) }
        ensures some { IfOk result (λ n. 0 < n → self.new.refusals ≡ self.old.refusals) }
        ensures counted { IfOk result (λ n. CountsRefusal n self.old self.new) }
    {
        self.calls = self.calls.saturating_add(1);
        let answer = self.writer.write(octets);
        let count = outcome(answer, &mut self.failures, &mut self.refusals)?;
        count_if_none(&mut self.stalled_writes, octets.len(), count);
        self.sent.push(&octets[..count]);
        Ok(count)
    }
}
