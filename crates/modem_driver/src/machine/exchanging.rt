//! A session's calls on its line.
ghost use Rattle.std.specs.Prelude.{◌≡◌, ◌≢◌, [], OnErr, IfOk};
ghost use Rattle.modem_driver.specs.SessionTurns.{Feeds, MachineReads, MachineWrites};

use crate::machine::Machine;
use serial_line::SerialLine;

impl Machine {
    /// Offers the octets that wait to the line, once, and says whether it took any. Where none wait
    /// there is no call. A fault is kept in mind.
    #[tactic(auto, using(crate::proofs::sessions::steps::LineCalls::writes_none))]
    pub(crate) fn write_on<L: SerialLine>(&mut self, line: &mut L) -> bool
        ensures writes { MachineWrites (L.seen line.old) (L.seen line.new) self.old self.new result }
        ensures beyond { L.other_side line.new ≡ L.other_side line.old }
    {
        if self.line_end.is_written() {
            return false;
        }
        match self.line_end.write(line) {
            Ok(count) => count > 0,
            Err(_fault) => false,
        }
    }

    /// Gives the octets that were read to the deframer, as many of the first as it takes: at least one
    /// where no frame is at hand. Says how many.
    pub(crate) fn feed(&mut self) -> usize
        ensures { Feeds self.old self.new result }
    {
        self.line_end.feed()
    }

    /// Reads from the line, once, where all octets were given to the deframer; and gives it those that
    /// wait. Says whether octets came, or were given to it. A fault is kept in mind.
    pub(crate) fn read_on<L: SerialLine>(&mut self, line: &mut L) -> bool
        ensures reads { MachineReads (L.seen line.old) (L.seen line.new) self.old self.new result }
        ensures beyond { L.other_side line.new ≡ L.other_side line.old }
    {
        if !self.line_end.is_fed() {
            return self.feed() > 0;
        }
        match self.line_end.read(line) {
            Ok(0) => false,
            Ok(_count) => {
                self.feed();
                true
            }
            Err(_fault) => false,
        }
    }
}
