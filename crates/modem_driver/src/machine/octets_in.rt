//! Octets that come in by a call.
ghost use Rattle.std.specs.Prelude.{◌≡◌, ◌≢◌, ◌<◌, ◌≤◌, [], length, take, None, is_some, IfOk, OnOk, OnErr};
ghost use Rattle.modem_driver.specs.EndpointSteps.{FeedsFrom, HandLacksRoom, HandlesFrames, TakesFrom};
ghost use Rattle.modem_driver.specs.Endpoints.{MachineSays};
ghost use Rattle.modem_driver.specs.GettingSteps.{HasData};
ghost use Rattle.modem_driver.specs.declared.session.error.SessionFault.TheVariants as fault;

use crate::endpoint::{Blocked, Input};
use crate::machine::Machine;
use crate::session::SessionFault;

impl Machine {
    #[inline(never)]
    /// Handles the frames at hand, one after the other, until none is, or one lacks room for what it
    /// calls for, and says whether one is left at hand. Refusal: 1 NoMemory, for data of an open connection; that frame
    /// stays at hand.
    #[tactic(auto, using(crate::proofs::endpoints::TakenOctets::handles_none, crate::proofs::endpoints::TakenOctets::handles_one, crate::proofs::endpoints::TakenOctets::hand_lacks))]
    fn handle_all(&mut self) -> Result<bool, SessionFault>
        ensures handles { HandlesFrames self.old self.new }
        ensures lacks { OnOk result (HandLacksRoom self.new) }
        ensures left { IfOk result (λ left. left ≡ is_some self.new.deframer.next) }
        ensures at_hand { OnErr result (HasData self.new) }
        ensures unfed { self.new.unfed ≡ self.old.unfed }
        ensures lost { self.new.core.lost ≡ self.old.core.lost }
        ensures no_memory { OnErr result (result ≡ Err fault.NoMemory) }
    {
        loop {
            match self.get_one()? {
                Some(true) => {}
                Some(false) => return Ok(true),
                None => return Ok(false),
            }
        }
    }

    #[inline(always)]
    /// The same. Where no frame is at hand it asks no more.
    #[tactic(auto, using(crate::proofs::endpoints::TakenOctets::handles_none, crate::proofs::endpoints::TakenOctets::none_lacks))]
    fn handle_any(&mut self) -> Result<bool, SessionFault>
        ensures handles { HandlesFrames self.old self.new }
        ensures lacks { OnOk result (HandLacksRoom self.new) }
        ensures left { IfOk result (λ left. left ≡ is_some self.new.deframer.next) }
        ensures at_hand { OnErr result (HasData self.new) }
        ensures unfed { self.new.unfed ≡ self.old.unfed }
        ensures lost { self.new.core.lost ≡ self.old.core.lost }
        ensures no_memory { OnErr result (result ≡ Err fault.NoMemory) }
    {
        if !self.line_end.has_frame() {
            return Ok(false);
        }
        self.handle_all()
    }

    /// The same, without a word on what is left.
    pub(crate) fn handle_frames(&mut self) -> Result<(), SessionFault>
        ensures handles { HandlesFrames self.old self.new }
        ensures lacks { OnOk result (HandLacksRoom self.new) }
        ensures at_hand { OnErr result (HasData self.new) }
        ensures unfed { self.new.unfed ≡ self.old.unfed }
        ensures lost { self.new.core.lost ≡ self.old.core.lost }
        ensures no_memory { OnErr result (result ≡ Err fault.NoMemory) }
    {
        let _left = self.handle_any()?;
        Ok(())
    }

    /// Gives the deframer as many of the first of these octets as it takes, and says how many. The
    /// condition is that none that were read before wait.
    pub(crate) fn feed_from(&mut self, octets: &[u8]) -> usize
        requires { self.old.unfed ≡ [] }
        ensures feeds { FeedsFrom self.old self.new (take result octets.now) }
        ensures some { self.old.deframer.next ≡ None → 0 < length octets.now → 0 < result }
        ensures unfed { self.new.unfed ≡ [] }
        ensures few { result ≤ length octets.now }
    {
        self.line_end.feed_from(octets)
    }

    /// Handles the frames at hand, takes octets in, as many of the first as there is room for, and goes
    /// on so until all are taken and no frame is at hand, or one can't be handled. The condition is
    /// that none that were read before wait.
    #[tactic(auto, using(crate::proofs::endpoints::TakenOctets::no_octets_taken, crate::proofs::endpoints::TakenOctets::takes_handled))]
    pub(crate) fn take_in(&mut self, octets: &[u8]) -> Input
        requires { self.old.unfed ≡ [] }
        ensures takes { TakesFrom self.old self.new (take result.taken octets.now) }
        ensures few { result.taken ≤ length octets.now }
        ensures says { MachineSays self.new (result.taken ≡ length octets.now) result.blocked }
        ensures unfed { self.new.unfed ≡ [] }
    {
        let mut taken = 0;
        loop {
            let Ok(is_left) = self.handle_any() else {
                return Input::blocked(taken, Blocked::NoMemory);
            };
            if is_left {
                return Input::blocked(taken, Blocked::OutputFirst);
            }
            if taken == octets.len() {
                return Input::done(taken);
            }
            taken += self.feed_from(&octets[taken..]);
        }
    }
}
