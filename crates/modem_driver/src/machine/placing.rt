//! What waits is offered to the desk.
ghost use Rattle.modem_history.specs.Sessions.{LineView};
ghost use Rattle.modem_driver.specs.TurnSteps.{turn_state, Places};

use crate::machine::Machine;
use modem_desk::DriverEnd;

impl Machine {
    /// Offers each outcome that waits to its caller, and each line to its listener, in order. What is handed back
    /// stays, in its order. Once one of a caller or a kind was handed back, no other of it is offered. Says whether
    /// anything was placed.
    pub(crate) fn place(&mut self, driver: &mut DriverEnd) -> bool
        ensures { (l : LineView)
            → Places (turn_state l driver.old self.old) (turn_state l driver.new self.new) result }
    {
        let told = self.waiting.place_outcomes(driver);
        let announced = self.waiting.place_lines(driver);
        told | announced
    }
}
