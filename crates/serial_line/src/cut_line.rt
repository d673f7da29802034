//! A line in memory.
ghost use Rattle.std.specs.Prelude.{◌≡◌, ◌+◌, ◌^◌, ◌<◌, ◌≤◌, ◌++◌, take, drop, length, min, IfOk, OnErr, IsOkUnless};
ghost use Rattle.serial_line.specs.Counts.{one_more};
ghost use Rattle.serial_line.specs.Cuts.{outcome_of};
ghost use Rattle.serial_line.specs.CutLine.{cut_view, new_line, room_to_receive, room_to_send, unmoved, after_cut_read, after_cut_write, carried, after_carry, other_side_of};

use crate::counting::count_if_none;
use crate::cuts::{Cut, Cuts};
use crate::errors::LineError;
use crate::line::{LineFault, SerialLine};
use crate::tape::Tape;
use std::alloc::Global;
use std::marker::Model;

/// A line in memory, for tests. You put in what its reads give, and look at what its writes took. A list for reads and one for writes
/// say, call by call, how many octets go through, or that the call fails. The line keeps all octets, at most `room` each way.
#[derive(Drop)]
pub struct CutLine {
    input: Tape,
    output: Tape,
    reads: Cuts,
    writes: Cuts,
    calls: u64,
    failures: u64,
    empty_reads: u64,
    stalled_writes: u64,
}

impl Model for CutLine {
    ghost use Rattle.std.specs.Prelude.{◌≡◌, ◌++◌, length};
    ghost use Rattle.serial_line.specs.CutLine.{CutState};

    ghost Value = { CutState };

    ghost view = { λ l. record {
      received = l.input.gone;
      waiting = l.input.ahead;
      sent = l.output.gone ++ l.output.ahead;
      moved = length l.output.gone;
      reads = l.reads;
      writes = l.writes;
      room = l.input.room;
      calls = l.calls;
      failures = l.failures;
      empty_reads = l.empty_reads;
      stalled_writes = l.stalled_writes;
    } };

    ghost invariant = { λ l. l.output.room ≡ l.input.room };
}

impl CutLine {
    /// A line on which nothing has happened yet. Each read or write uses up one entry of its list, even with an empty slice.
    /// Once its list is used up, no entry limits a call. Neither reading nor `take` frees room, and input beyond `room` octets
    /// isn't kept. Refused with `NoMemory` where memory is refused.
    pub fn new(
        alloc: Global,
        input: &[u8],
        reads: &[Cut],
        writes: &[Cut],
        room: usize,
    ) -> Result<CutLine, LineError>
        ensures memory { IsOkUnless result LineError.NoMemory }
        ensures line { IfOk result (λ l. l ≡ new_line input.now reads.now writes.now room) }
    {
        let mut line = CutLine {
            input: Tape::new(alloc, room)?,
            output: Tape::new(alloc, room)?,
            reads: Cuts::new(reads.to_vec(alloc)?),
            writes: Cuts::new(writes.to_vec(alloc)?),
            calls: 0,
            failures: 0,
            empty_reads: 0,
            stalled_writes: 0,
        };
        line.put(input);
        Ok(line)
    }

    /// Adds octets to be received, as many as there is room for, and says how many.
    pub fn put(&mut self, octets: &[u8]) -> usize
        ensures value { result ≡ min (length octets.now) (room_to_receive self.old) }
        ensures line { let more = take result octets.now
            in self.new ≡ record self.old { waiting = self.old.waiting ++ more } }
    {
        let count = octets.len().min(self.input.free());
        self.input.append(&octets[..count]);
        count
    }

    /// Puts the next octets that were sent at the front of the buffer, and says how many.
    pub fn take(&mut self, buffer: &mut [u8]) -> usize
        ensures value { result ≡ min (length buffer.old) (length (unmoved self.old)) }
        ensures octets { buffer.new ≡ take result (unmoved self.old) ++ drop result buffer.old }
        ensures line { self.new ≡ record self.old { moved = self.old.moved + result } }
    {
        let next = self.output.ahead();
        let count = next.len().min(buffer.len());
        buffer[..count].copy_from_slice(&next[..count]);
        self.output.pass(count);
        count
    }

    /// All octets that were sent.
    pub fn sent(&self) -> &[u8]
        ensures { result.now ≡ self.now.sent }
    {
        self.output.all()
    }

    /// Carries octets sent on each line to the other, to be received there, at most `k` each way, and says how many it carried in
    /// all. What `take` gave isn't carried again.
    pub fn carry(&mut self, other: &mut CutLine, k: usize) -> usize
        ensures value { result ≡ carried k self.old other.old + carried k other.old self.old }
        ensures here { self.new ≡ after_carry k self.old other.old }
        ensures there { other.new ≡ after_carry k other.old self.old }
    {
        let there = self.give(other, k);
        let here = other.give(self, k);
        there + here
    }

    // One way of `carry`.
    fn give(&mut self, other: &mut CutLine, k: usize) -> usize
        ensures value { result ≡ carried k self.old other.old }
        // The numbers of both ways can be added.
        ensures small { result < 2 ^ 63 }
        ensures from { self.new ≡ record self.old { moved = self.old.moved + result } }
        ensures to { let more = take result (unmoved self.old)
            in other.new ≡ record other.old { waiting = other.old.waiting ++ more } }
    {
        let unmoved = self.output.ahead();
        let most = unmoved.len().min(k);
        let moved = other.put(&unmoved[..most]);
        self.output.pass(moved);
        moved
    }
}

impl SerialLine for CutLine {
    ghost seen = { cut_view };

    ghost other_side = { other_side_of };

    /// Gives as many octets as its entry, the buffer and the octets there allow. Behind them it leaves the buffer as it
    /// was.
    fn try_read(&mut self, buffer: &mut [u8]) -> Result<usize, LineFault>
        ensures value { let most = min (length buffer.old) (length self.old.waiting)
            in result ≡ outcome_of self.old.reads self.old.failures most }
        ensures bound { IfOk result (λ n. n ≤ length buffer.old) }
        ensures octets { IfOk result (λ n. buffer.new ≡ take n self.old.waiting ++ drop n buffer.old) }
        ensures untouched { OnErr result (buffer.new ≡ buffer.old) }
        ensures line { self.new ≡ after_cut_read self.old (length buffer.old) result }
    {
        self.calls = self.calls.saturating_add(1);
        let next = self.input.ahead();
        let most = buffer.len().min(next.len());
        let count = self.reads.pass(most, &mut self.failures)?;
        count_if_none(&mut self.empty_reads, buffer.len(), count);
        buffer[..count].copy_from_slice(&next[..count]);
        self.input.pass(count);
        Ok(count)
    }

    /// Takes as many octets as its entry, the slice and the room allow.
    #[tactic(auto, using(crate::proofs::PassedOctets::passed_stay))]
    fn try_write(&mut self, octets: &[u8]) -> Result<usize, LineFault>
        ensures value { let most = min (length octets.now) (room_to_send self.old)
            in result ≡ outcome_of self.old.writes self.old.failures most }
        ensures bound { IfOk result (λ n. n ≤ length octets.now) }
        ensures line { self.new ≡ after_cut_write self.old octets.now result }
        ensures beyond { other_side_of self.new ≡ other_side_of self.old }
    {
        self.calls = self.calls.saturating_add(1);
        let most = octets.len().min(self.output.free());
        let count = self.writes.pass(most, &mut self.failures)?;
        count_if_none(&mut self.stalled_writes, octets.len(), count);
        self.output.append(&octets[..count]);
        Ok(count)
    }
}
