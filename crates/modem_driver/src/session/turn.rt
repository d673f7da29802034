//! Turns of a session.
ghost use Rattle.std.specs.Prelude.{◌≡◌, ◌≢◌, true, false, None, Err, IfOk, IfErr, OnErr};
ghost use Rattle.modem_driver.specs.GettingSteps.{HasData};
ghost use Rattle.modem_driver.specs.SessionStates.{has_lost_line, TakesMore};
ghost use Rattle.modem_driver.specs.TurnSteps.{Places, Checks, SendsOn, Writes, Gets, ReadsOn, TakesOne};
ghost use Rattle.modem_driver.specs.SessionTurns.{standing_of, turn_answer, fault_of, Answers, HasNoPlace, HasTurned, LeavesLost, LosesOr, TakesTurn, Faults};
ghost use Rattle.modem_driver.specs.declared.session.error.SessionFault.TheVariants as fault;

use crate::session::Session;
use crate::session::error::SessionFault;
use at_text::UrcKind;
use serial_line::SerialLine;
use std::sync::Wait;

/// What a turn came to.
#[derive(Clone, Copy, PartialEq, Eq, Debug)]
pub enum Turn {
    /// Something was done, other than putting a control frame into the output.
    Moved,
    /// Nothing was done: octets wait for the line, which took none.
    WriterFull,
    /// Nothing was done: outcomes wait for a place, and of their callers this one has the lowest number.
    Waiting(u8),
    /// Nothing was done: a line waits for a place with the listener of this kind. It was heard before
    /// all others that wait.
    Blocked(UrcKind),
    /// There is nothing to do.
    Idle,
}

impl<L: SerialLine, R: Wait + Drop> Session<L, R> {
    /// Whether the line is lost.
    fn is_lost(&self) -> bool
        ensures { result ≡ has_lost_line self.now }
    {
        self.machine.core.is_lost()
    }

    /// Whether a call on the line has failed.
    fn is_faulty(&self) -> bool
        ensures { result ≡ self.now.machine.faulty }
    {
        self.machine.line_end.has_failed()
    }

    /// What a turn answers.
    fn answer(&self, moved: bool) -> Turn
        ensures { Answers self.now.machine moved (turn_answer result) }
    {
        self.machine.answer(moved)
    }

    /// Offers what waits to the desk.
    fn place(&mut self) -> bool
        ensures places { Places (standing_of L.seen self.old) (standing_of L.seen self.new) result }
        ensures line { self.new.line ≡ self.old.line }
    {
        self.machine.place(&mut self.driver)
    }

    /// Looks at the backlogs.
    fn check_backlogs(&mut self) -> bool
        ensures checks { Checks (standing_of L.seen self.old) (standing_of L.seen self.new) result }
        ensures line { self.new.line ≡ self.old.line }
    {
        self.machine.check_backlogs()
    }

    /// Takes the next frame into the output.
    #[tactic(auto, unfolding(crate::specs::SendingSteps::MachineSends))]
    fn send_on(&mut self) -> bool
        ensures sends { SendsOn (standing_of L.seen self.old) (standing_of L.seen self.new) result }
        ensures line { self.new.line ≡ self.old.line }
    {
        self.machine.send_on()
    }

    /// Writes to the line.
    #[tactic(auto, unfolding(crate::specs::SessionTurns::MachineWrites))]
    fn write_on(&mut self) -> bool
        ensures writes { Writes (standing_of L.seen self.old) (standing_of L.seen self.new) result }
        ensures beyond { L.other_side self.new.line ≡ L.other_side self.old.line }
    {
        self.machine.write_on(&mut self.line)
    }

    /// Handles the frame at hand.
    #[tactic(auto, unfolding(crate::specs::GettingSteps::MachineGets))]
    fn get_one(&mut self) -> Result<bool, SessionFault>
        ensures gets { IfOk result (λ moved. Gets (standing_of L.seen self.old) (standing_of L.seen self.new) moved) }
        ensures err { OnErr result (self.new ≡ self.old) }
        ensures at_hand { OnErr result (HasData self.new.machine) }
        ensures no_memory { OnErr result (result ≡ Err fault.NoMemory) }
        ensures line { self.new.line ≡ self.old.line }
    {
        self.machine.handle_one()
    }

    /// Reads from the line, and feeds.
    #[tactic(auto, unfolding(crate::specs::SessionTurns::MachineReads))]
    fn read_on(&mut self) -> bool
        ensures reads { ReadsOn (standing_of L.seen self.old) (standing_of L.seen self.new) result }
        ensures beyond { L.other_side self.new.line ≡ L.other_side self.old.line }
    {
        self.machine.read_on(&mut self.line)
    }

    /// Takes a request.
    fn take_one(&mut self) -> bool
        ensures takes { TakesOne (standing_of L.seen self.old) (standing_of L.seen self.new) result }
        ensures line { self.new.line ≡ self.old.line }
    {
        self.machine.take_one(&mut self.driver, &self.rt)
    }

    /// A call on the line has failed: the line is lost, and everyone in hand is told so. Answers with
    /// the fault by which the turn ends.
    fn lose_line(&mut self) -> SessionFault
        requires { self.old.machine.faulty ≡ true }
        ensures lost { LeavesLost result self.new }
        ensures never { result ≢ fault.NoMemory }
        ensures line { self.new.line ≡ self.old.line }
        ensures loses { LosesOr result (standing_of L.seen self.old) (standing_of L.seen self.new) }
    {
        if self.machine.core.is_lost() {
            return SessionFault::Failed;
        }
        self.machine.lose();
        SessionFault::Line
    }

    /// Does each of these once, in this order: offers the outcomes and lines that wait to the desk;
    /// looks at the backlog of each connection; where all octets are written, takes the next frame
    /// into the output; writes; handles the frame at hand; where no octets wait to be fed, reads, and
    /// feeds the deframer; takes a request, where those in hand and the outcomes that wait are fewer
    /// than 128. Faults, which end the turn: 1 NoMemory for data of an open connection, which stays at
    /// hand, while what was done before stands; 2 Line, where a call on the line failed in this turn; 3 Failed in
    /// every turn after that, which still offers to the desk what waits.
    pub fn turn(&mut self) -> Result<Turn, SessionFault>
        ensures turns { IfOk result (λ says. TakesTurn L.seen self.old self.new (turn_answer says)) }
        ensures faults { IfErr result (λ why. Faults L.seen self.old self.new (fault_of why)) }
        ensures turned { HasTurned (standing_of L.seen self.old) (standing_of L.seen self.new) }
        ensures lost { IfErr result (λ why. LeavesLost why self.new) }
        ensures failed { has_lost_line self.old ≡ true → result ≡ Err fault.Failed }
        ensures memory { result ≡ Err fault.NoMemory → HasData self.new.machine }
        ensures takes { TakesMore self.old.driver self.new.driver }
        ensures full { IfOk result (λ says. HasNoPlace self.new.driver (turn_answer says)) }
        ensures beyond { L.other_side self.new.line ≡ L.other_side self.old.line }
    {
        let placed = self.place();
        if self.is_lost() {
            return Err(SessionFault::Failed);
        }
        if self.is_faulty() {
            return Err(self.lose_line());
        }
        let checked = self.check_backlogs();
        let sent = self.send_on();
        let wrote = self.write_on();
        if self.is_faulty() {
            return Err(self.lose_line());
        }
        let Ok(got) = self.get_one() else {
            return Err(SessionFault::NoMemory);
        };
        let read = self.read_on();
        if self.is_faulty() {
            return Err(self.lose_line());
        }
        let took = self.take_one();
        let moved = placed | checked | sent | wrote | got | read | took;
        Ok(self.answer(moved))
    }
}
