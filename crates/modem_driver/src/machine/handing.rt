//! What waits is handed out by a call.
ghost use Rattle.std.specs.Prelude.{◌≡◌, ◌∷◌, [], MatchOption};

use crate::machine::Machine;
use modem_desk::{Outcome, Urc};

impl Machine {
    /// Removes and gives the first outcome that waits, if any.
    pub(crate) fn next_outcome(&mut self) -> Option<Outcome>
        ensures { MatchOption result ((self.old.unplaced ≡ []) × (self.new ≡ self.old))
            (λ o. (self.old.unplaced ≡ o ∷ self.new.unplaced)
            × (self.new ≡ record self.old { unplaced = self.new.unplaced })) }
    {
        self.waiting.next_outcome()
    }

    /// Removes and gives the first line that waits, if any.
    pub(crate) fn next_line(&mut self) -> Option<Urc>
        ensures { MatchOption result ((self.old.unannounced ≡ []) × (self.new ≡ self.old))
            (λ u. (self.old.unannounced ≡ u ∷ self.new.unannounced)
            × (self.new ≡ record self.old { unannounced = self.new.unannounced })) }
    {
        self.waiting.next_line()
    }
}
