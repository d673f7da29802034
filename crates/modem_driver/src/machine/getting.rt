//! Frames that are handled.
ghost use Rattle.std.specs.Prelude.{◌≡◌, ◌≢◌, ◌<◌, length, true, false, None, is_some, unwrap_or, IfOk, OnErr};
ghost use Rattle.modem_driver.specs.GettingSteps.{HasData, MachineGets};
ghost use Rattle.modem_driver.specs.declared.session.error.SessionFault.TheVariants as fault;

use crate::machine::Machine;
use crate::session::SessionFault;

impl Machine {
    /// Handles the frame at hand, if there is one, and says whether it could be handled. Where there is no room in the
    /// control queue for what it calls for, it stays at hand and nothing is done.
    /// Refusal: 1 NoMemory, which comes only at data of an open connection and changes nothing: the frame stays at hand
    /// too.
    pub(crate) fn get_one(&mut self) -> Result<Option<bool>, SessionFault>
        ensures gets { IfOk result (λ got. MachineGets self.old self.new (unwrap_or got false)) }
        ensures shorter { IfOk result (λ got. unwrap_or got false ≡ true
            → length self.new.deframer.undecided < length self.old.deframer.undecided) }
        ensures left { IfOk result (λ got. unwrap_or got false ≡ false
            → is_some got ≡ is_some self.new.deframer.next) }
        ensures unfed { self.new.unfed ≡ self.old.unfed }
        ensures unwritten { self.new.unwritten ≡ self.old.unwritten }
        ensures lost { self.new.core.lost ≡ self.old.core.lost }
        ensures err { OnErr result (self.new ≡ self.old) }
        ensures at_hand { OnErr result (HasData self.old) }
        ensures no_memory { OnErr result (result ≡ Err fault.NoMemory) }
    {
        let Some(frame) = self.line_end.peek() else {
            return Ok(None);
        };
        if !self.core.is_data(frame) {
            let Some(answered) = self.waiting.get(&mut self.core, frame) else {
                return Ok(Some(false));
            };
            self.course.go_on(answered);
            self.line_end.advance();
            return Ok(Some(true));
        }
        let Ok(()) = self.waiting.get_data(&mut self.core, frame) else {
            return Err(SessionFault::NoMemory);
        };
        self.line_end.advance();
        Ok(Some(true))
    }

    /// Handles the frame at hand, and says whether there was one that could be handled. Otherwise as `get_one`.
    #[inline(always)]
    pub(crate) fn handle_one(&mut self) -> Result<bool, SessionFault>
        ensures gets { IfOk result (λ moved. MachineGets self.old self.new moved) }
        ensures unfed { self.new.unfed ≡ self.old.unfed }
        ensures unwritten { self.new.unwritten ≡ self.old.unwritten }
        ensures lost { self.new.core.lost ≡ self.old.core.lost }
        ensures err { OnErr result (self.new ≡ self.old) }
        ensures at_hand { OnErr result (HasData self.old) }
        ensures no_memory { OnErr result (result ≡ Err fault.NoMemory) }
    {
        if !self.line_end.has_frame() {
            return Ok(false);
        }
        let got = self.get_one()?;
        Ok(got.unwrap_or(false))
    }
}
