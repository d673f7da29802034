//! A turn of a simulated modem's machine, at its line.
ghost use Rattle.std.specs.Prelude.{◌≡◌, ◌≢◌, ◌⊎◌, ◌+◌, ◌≤◌, Err, IfOk, OnErr, IsErrOf};
ghost use Rattle.modem_sim.specs.Sims.{SimGoes, failed_by};
ghost use Rattle.modem_sim.specs.Stills.{GoesOnce, LeavesUndone, at_line};

use crate::error::SimError;
use crate::sim_machine::SimMachine;
use serial_line::SerialLine;

impl SimMachine {
    /// Steps, write, next frame, frame at hand, read; says whether anything moved.
    pub(crate) fn go_on<L: SerialLine>(&mut self, line: &mut L) -> Result<bool, SimError>
        ensures goes { SimGoes L.seen (at_line line.old self.old) (at_line line.new self.new) }
        ensures turn { IfOk result (λ moved. GoesOnce L.seen (at_line line.old self.old) (at_line line.new self.new) moved) }
        ensures fails { self.new.failed ≡ failed_by self.old.failed result }
        ensures end { self.new.end ≡ self.old.end }
        ensures others { OnErr result (IsErrOf result SimError.Line ⊎ IsErrOf result SimError.NoMemory) }
        ensures memory { IsErrOf result SimError.NoMemory → LeavesUndone self.new }
        ensures bounded { (L.seen line.new).calls ≤ (L.seen line.old).calls + 2 }
        ensures sound { result ≢ Err SimError.Line → (L.seen line.new).failures ≡ (L.seen line.old).failures }
        ensures failure { result ≡ Err SimError.Line → (L.seen line.new).failures ≡ (L.seen line.old).failures + 1 }
        ensures beyond { L.other_side line.new ≡ L.other_side line.old }
    {
        let done = self.do_steps()?;
        let wrote = self.write(line)? > 0;
        let loaded = self.load()?;
        let took = self.take_frame()?;
        let came = self.receive(line)?;
        let fed = self.feed();
        Ok(done | wrote | loaded | took | came | fed)
    }
}
