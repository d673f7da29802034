//! The line of a modem whose client hands octets in and takes octets out.
ghost use Rattle.std.specs.Prelude.{IfOk, IsOk, OnErr, OnOk, [], ◌++◌, ◌+◌, ◌<◌, ◌↔◌, ◌≡◌, ◌≢◌, ◌≤◌, drop, false, length, min, take, true};
ghost use Rattle.serial_line.specs.Counts.{one_more, counted_if_none};
ghost use Rattle.ctl_sim.specs.HeldLine.{held_side, held_view, new_held};

use data_files::HandedLine;
use serial_line::{History, LineFault, SerialLine, count_if_none};
use std::alloc::{AllocError, Global};
use std::marker::Model;

/// A line in memory that keeps only the octets that wait: those handed in that weren't read, and those taken that weren't handed
/// out. No call fails; a write for which there is no memory takes nothing.
#[derive(Drop)]
pub(crate) struct HeldLine {
    coming: Vec<u8>,
    /// So many of them were read.
    read: usize,
    going: Vec<u8>,
    received: History,
    taken: History,
    calls: u64,
    empty_reads: u64,
    stalled_writes: u64,
}

impl Model for HeldLine {
    ghost use Rattle.std.specs.Prelude.{◌≤◌, drop, vec_len};
    ghost use Rattle.ctl_sim.specs.HeldLine.{HeldState};

    ghost Value = { HeldState };

    ghost view = { λ l. record {
      received = l.received;
      waiting = drop l.read l.coming.items;
      taken = l.taken;
      going = l.going.items;
      calls = l.calls;
      empty_reads = l.empty_reads;
      stalled_writes = l.stalled_writes;
    } };

    ghost invariant = { λ l. l.read ≤ vec_len l.coming };
}

impl HeldLine {
    /// A line on which nothing has happened yet.
    pub(crate) fn new(alloc: Global) -> HeldLine
        ensures { result ≡ new_held }
    {
        HeldLine {
            coming: Vec::new(alloc),
            read: 0,
            going: Vec::new(alloc),
            received: History::new(),
            taken: History::new(),
            calls: 0,
            empty_reads: 0,
            stalled_writes: 0,
        }
    }

    /// Hands octets in, behind those that wait.
    pub(crate) fn put(&mut self, octets: &[u8]) -> Result<(), AllocError>
        ensures ok { OnOk result (self.new ≡ record self.old { waiting = self.old.waiting ++ octets.now }) }
        ensures err { OnErr result (self.new ≡ self.old) }
    {
        if self.read == self.coming.len() {
            self.coming.clear();
            self.read = 0;
        }
        self.coming.extend_from_slice(octets)?;
        Ok(())
    }

    /// Whether all that was handed in is read.
    #[tactic(auto, using(crate::proofs::Endless::some_left))]
    pub(crate) fn is_read(&self) -> bool
        ensures read { result ≡ true → self.now.waiting ≡ [] }
        ensures unread { result ≡ false → self.now.waiting ≢ [] }
    {
        self.read == self.coming.len()
    }

    /// Hands out what was taken, behind other octets.
    pub(crate) fn take(&mut self, out: &mut Vec<u8>) -> Result<(), AllocError>
        ensures out { OnOk result (out.new.items ≡ out.old.items ++ self.old.going) }
        ensures line { OnOk result
            (self.new ≡ record self.old { taken = self.old.taken ++ self.old.going; going = [] }) }
        ensures err { OnErr result ((self.new ≡ self.old) × (out.new.items ≡ out.old.items)) }
    {
        out.extend_from_slice(&self.going)?;
        self.taken.push(&self.going);
        self.going.clear();
        Ok(())
    }
}

impl SerialLine for HeldLine {
    ghost seen = { held_view };

    ghost other_side = { held_side };

    /// Gives what waits, as far as the buffer goes.
    fn try_read(&mut self, buffer: &mut [u8]) -> Result<usize, LineFault>
        ensures sound { IsOk result }
        ensures bound { IfOk result (λ n. n ≤ length buffer.old) }
        ensures count { IfOk result (λ n. n ≡ min (length buffer.old) (length self.old.waiting)) }
        ensures octets { IfOk result (λ n. buffer.new ≡ take n self.old.waiting ++ drop n buffer.old) }
        ensures line { IfOk result (λ n. self.new ≡ record self.old {
          received = self.old.received ++ take n self.old.waiting;
          waiting = drop n self.old.waiting;
          calls = one_more self.old.calls;
          empty_reads = counted_if_none (length buffer.old) n self.old.empty_reads;
        }) }
    {
        self.calls = self.calls.saturating_add(1);
        let next = &self.coming[self.read..];
        let count = buffer.len().min(next.len());
        count_if_none(&mut self.empty_reads, buffer.len(), count);
        buffer[..count].copy_from_slice(&next[..count]);
        self.received.push(&next[..count]);
        self.read += count;
        Ok(count)
    }

    /// Takes all, or none where there is no memory.
    fn try_write(&mut self, octets: &[u8]) -> Result<usize, LineFault>
        ensures sound { IsOk result }
        ensures bound { IfOk result (λ n. n ≤ length octets.now) }
        ensures line { IfOk result (λ n. self.new ≡ record self.old {
          going = self.old.going ++ take n octets.now;
          calls = one_more self.old.calls;
          stalled_writes = counted_if_none (length octets.now) n self.old.stalled_writes;
        }) }
    {
        self.calls = self.calls.saturating_add(1);
        let count = match self.going.extend_from_slice(octets) {
            Ok(()) => octets.len(),
            Err(_) => 0,
        };
        count_if_none(&mut self.stalled_writes, octets.len(), count);
        Ok(count)
    }
}

impl HandedLine for HeldLine {
    fn put(&mut self, octets: &[u8]) -> Result<(), AllocError> {
        HeldLine::put(self, octets)
    }

    fn is_read(&self) -> bool {
        HeldLine::is_read(self)
    }

    #[tactic(auto, using(crate::proofs::DataLines::held_received, crate::proofs::DataLines::held_sent))]
    fn take(&mut self, out: &mut Vec<u8>) -> Result<(), AllocError> {
        HeldLine::take(self, out)
    }
}
