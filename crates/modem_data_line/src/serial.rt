//! What a driver reads and writes.
ghost use Rattle.std.specs.Prelude.{◌≡◌, ◌≢◌, ◌⊎◌, ◌≤◌, ◌<◌, ◌+◌, ◌++◌, [], length, take, true, false, None, IfOk, OnErr, MatchResult, nat_lt};
ghost use Rattle.serial_line.specs.Counts.{one_more, counted_if_none};
ghost use Rattle.serial_line.specs.OtherSide.{unknown_side};
ghost use Rattle.modem_data_line.specs.DataLines.{LeadsBy, TakesBy, data_view, may_pass};
ghost use Rattle.modem_data_line.specs.Moving.{IsAsked, IsLostBy, IsOffered};

use crate::data_line::DataLine;
use serial_line::{LineFault, SerialLine, count_if_none};

impl<L: SerialLine> DataLine<L> {
    /// A call of the driver's. Where the line is lost and nothing waits for the driver that it could give, it fails, as long as the
    /// count of failures goes on.
    fn begin_call(&mut self, has_some: bool) -> Result<(), LineFault>
        ensures goes_on { IfOk result (λ _. self.new ≡ record self.old { calls = one_more self.old.calls }) }
        ensures fails { OnErr result (self.new ≡ record self.old { calls = one_more self.old.calls; failures = self.old.failures + 1 }) }
        ensures last { OnErr result (self.old.failures < u64.MAX) }
        ensures lost { OnErr result ((self.old.is_lost ≡ true) × (has_some ≡ false)) }
        ensures sound { IfOk result (λ _. (self.old.is_lost ≡ false) ⊎ ((has_some ≡ true) ⊎ (self.old.failures ≡ u64.MAX))) }
    {
        self.calls = self.calls.saturating_add(1);
        if !self.is_lost || has_some || self.failures == u64::MAX {
            return Ok(());
        }
        self.failures += 1;
        Err(LineFault)
    }
}

impl<L: SerialLine> SerialLine for DataLine<L> {
    ghost seen = { data_view };

    ghost other_side = { λ _. unknown_side };

    /// Writes once what may go to the line. Where nothing waits for the driver, it takes octets of the line: those that wait, or else
    /// those of one read. Gives octets that wait for the driver, as many as fit.
    #[tactic(auto, using(crate::proofs::Leads::counted_leads, crate::proofs::Lost::lost_sound, crate::proofs::Lost::lost_then))]
    fn try_read(&mut self, buffer: &mut [u8]) -> Result<usize, LineFault>
        ensures bound { IfOk result (λ n. n ≤ length buffer.old) }
        ensures goes { LeadsBy L.seen (may_pass self.old.is_behind) self.old self.new }
        ensures call { MatchResult result
            (λ n. self.new ≡ record self.old {
              line = self.new.line;
              relay = self.new.relay;
              unfed = self.new.unfed;
              is_lost = self.new.is_lost;
              received = self.old.received ++ take n buffer.new;
              calls = one_more self.old.calls;
              empty_reads = counted_if_none (length buffer.old) n self.old.empty_reads;
            })
            (λ _. self.new ≡ record self.old { calls = one_more self.old.calls; failures = self.old.failures + 1 }) }
        ensures last { OnErr result (self.old.failures < u64.MAX) }
        ensures fails { OnErr result ((self.old.is_lost ≡ true) × (self.old.relay.to_driver ≡ [])) }
        ensures all { IfOk result (λ n. n < length buffer.old → self.new.relay.to_driver ≡ []) }
        ensures asked { IfOk result (λ n. n ≡ 0 → 0 < length buffer.old → self.old.unfed ≡ []
            → (self.new.is_lost ≡ true) ⊎ IsAsked L.seen self.old.line self.new.line) }
        ensures blocks { IfOk result (λ n. n ≡ 0 → 0 < length buffer.old → self.new.unfed ≢ [] → self.new.relay.outer.next ≢ None) }
        ensures lost { IsLostBy L.seen self.old self.new }
    {
        let has_some = !self.relay.for_driver().is_empty();
        self.begin_call(has_some)?;
        let count = self.pass_in(buffer);
        count_if_none(&mut self.empty_reads, buffer.len(), count);
        Ok(count)
    }

    /// Writes once what may go to the line of what the driver gave before. Takes octets where none of those wait. Where it took all, it
    /// writes once more, and data may go.
    #[tactic(auto, using(crate::proofs::Leads::counted_takes, crate::proofs::Lost::lost_sound, crate::proofs::Lost::lost_then))]
    fn try_write(&mut self, octets: &[u8]) -> Result<usize, LineFault>
        ensures bound { IfOk result (λ n. n ≤ length octets.now) }
        ensures takes { IfOk result (λ n. TakesBy L.seen (take n octets.now) self.old self.new) }
        ensures call { MatchResult result
            (λ n. self.new ≡ record self.old {
              line = self.new.line;
              relay = self.new.relay;
              is_lost = self.new.is_lost;
              is_behind = nat_lt n (length octets.now);
              sent = self.old.sent ++ take n octets.now;
              calls = one_more self.old.calls;
              stalled_writes = counted_if_none (length octets.now) n self.old.stalled_writes;
            })
            (λ _. self.new ≡ record self.old { calls = one_more self.old.calls; failures = self.old.failures + 1 }) }
        ensures last { OnErr result (self.old.failures < u64.MAX) }
        ensures fails { OnErr result (self.old.is_lost ≡ true) }
        ensures stuck { IfOk result (λ n. n ≡ 0 → 0 < length octets.now
            → (self.new.is_lost ≡ true) ⊎ IsOffered L.seen self.old.line self.new.line) }
        ensures lost { IsLostBy L.seen self.old self.new }
    {
        self.begin_call(false)?;
        let count = self.pass_out(octets);
        count_if_none(&mut self.stalled_writes, octets.len(), count);
        Ok(count)
    }
}
