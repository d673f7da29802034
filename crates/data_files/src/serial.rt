//! What a driver reads and writes.
ghost use Rattle.std.specs.Prelude.{◌≡◌, ◌+◌, ◌<◌, ◌≤◌, ◌++◌, length, take, IfOk, MatchResult, OnErr};
ghost use Rattle.serial_line.specs.Counts.{one_more, counted_if_none};
ghost use Rattle.serial_line.specs.OtherSide.{unknown_side};
ghost use Rattle.data_files.specs.Files.{filed_view};
ghost use Rattle.data_files.specs.Moves.{HadTurns};

use crate::filed_line::FiledLine;
use serial_line::{LineFault, SerialLine};

impl<L: SerialLine, P: SerialLine> SerialLine for FiledLine<L, P> {
    ghost seen = { filed_view };

    ghost other_side = { λ _. unknown_side };

    /// Moves octets between connections and files, until none move, and then reads as `DataLine` does.
    fn try_read(&mut self, buffer: &mut [u8]) -> Result<usize, LineFault>
        ensures bound { IfOk result (λ n. n ≤ length buffer.old) }
        ensures turns { HadTurns L.seen P.seen self.old self.new.files }
        ensures call { MatchResult result
            (λ n. self.new ≡ record self.old {
              files = self.new.files;
              line = record self.old.line {
                line = self.new.line.line;
                relay = self.new.line.relay;
                unfed = self.new.line.unfed;
                is_lost = self.new.line.is_lost;
                received = self.old.line.received ++ take n buffer.new;
                calls = one_more self.old.line.calls;
                empty_reads = counted_if_none (length buffer.old) n self.old.line.empty_reads;
              };
            })
            (λ _. self.new ≡ record self.old {
              files = self.new.files;
              line = record self.old.line {
                line = self.new.line.line;
                relay = self.new.line.relay;
                unfed = self.new.line.unfed;
                is_lost = self.new.line.is_lost;
                calls = one_more self.old.line.calls;
                failures = self.old.line.failures + 1;
              };
            }) }
        ensures last { OnErr result (self.old.line.failures < u64.MAX) }
    {
        self.move_all();
        self.read_line(buffer)
    }

    /// Writes as `DataLine` does.
    #[tactic(auto, using(crate::proofs::Lifts::line_takes))]
    fn try_write(&mut self, octets: &[u8]) -> Result<usize, LineFault> {
        self.line.try_write(octets)
    }
}
