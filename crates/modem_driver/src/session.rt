//! A driver at its line and its desk.
ghost use Rattle.std.specs.Prelude.{◌≡◌, ◌≢◌, ◌↔◌, ◌<◌, [], true, IfOk, IfErr, IsErr, IsErrOf, OnOk, OnErr};
ghost use Rattle.std.specs.Borrow.{Lends, sem};
ghost use Rattle.mux_frame.specs.Spelling.{IsBadN1};
ghost use Rattle.modem_history.specs.Sessions.{LineView};
ghost use Rattle.modem_driver.specs.SessionStates.{beginning_by, beginning_of, has_lost_line, machine_by, end_of, FitsAll, MachineFits, SessionEnds, KeepsItsEnd, Ticks};
ghost use Rattle.at_text.specs.Rules.{dialect_of};
ghost use Rattle.modem_driver.specs.declared.session.error.SessionError.TheVariants as why;
ghost use Rattle.modem_driver.specs.declared.session.error.SessionFault.TheVariants as fault;

mod ending;
mod error;
mod offline;
mod polling;
mod time;
mod turn;

use crate::machine::Machine;
use at_text::Dialect;
pub use ending::Ended;
pub use error::{SessionError, SessionFault, SessionRefused};
use modem_desk::{DriverEnd, Outcome, Request, Urc};
pub use offline::{Offline, OfflineRefused};
pub use polling::Progress;
use serial_line::SerialLine;
use std::alloc::Global;
use std::marker::Model;
use std::sync::Wait;
pub use turn::Turn;

/// A driver between its line and the driver's end of its desk. It keeps the right to wait, and the
/// allocator.
///
/// - Begin with `new` or `with_dialect`, at a line whose modem is in the multiplexer (`enter`, `enter_by`).
/// - Callers ask at the desk, not here; outcomes and lines go to the desk's callers and listeners.
/// - Poll it: as a future, or by `advance` in a loop of your own, which says whether there may be more to do at once. It waits for
///   nothing, so wake the loop by the line, the desk's bell or a clock. `turn` is one step of a poll.
/// - `tick` once in each T1 while `wants_tick` says so.
/// - It ends with Stopped, once a Stop is told and all is placed, or with a fault; NoMemory is no end. Then `finish` gives line,
///   desk's end and what is left, and `modem_desk::settle` ends the desk. `Offline` takes its place at the desk where the line failed.
#[derive(Drop)]
pub struct Session<L: SerialLine, R: Wait + Drop> {
    rt: R,
    line: L,
    driver: DriverEnd,
    machine: Machine,
}

impl<L: SerialLine, R: Wait + Drop> Model for Session<L, R> {
    ghost use Rattle.modem_driver.specs.SessionStates.{SessionState};

    ghost Value = { SessionState L };

    ghost view = { λ s. record { line = s.line; driver = s.driver; machine = s.machine } };
}

/// What an ended session leaves: its line, its desk's end, the requests taken and not told, in order, and the outcomes and
/// lines that still waited for a place.
#[derive(Drop)]
pub struct Finished<L: SerialLine> {
    pub line: L,
    pub driver: DriverEnd,
    pub in_hand: Vec<Request>,
    pub unplaced: Vec<Outcome>,
    pub unannounced: Vec<Urc>,
}

/// What a session over this desk's end keeps at first, at a modem with the codes of this dialect.
fn begin(
    alloc: Global,
    driver: &DriverEnd,
    n1: u16,
    dialect: &Dialect,
) -> Result<Machine, SessionError>
    ensures fresh { IfOk result (λ k. k ≡ machine_by dialect.now n1 driver.now.desk.kinds) }
    ensures begins { IfOk result (λ k. (l : LineView)
        → MachineFits (beginning_by (dialect_of dialect.now) n1 l driver.now) l driver.now k []) }
    ensures bad_n1 { IsErrOf result why.BadN1 ↔ IsBadN1 n1 }
{
    Machine::with_dialect(alloc, n1, dialect, driver.kinds())
}

impl<L: SerialLine, R: Wait + Drop> Session<L, R> {
    ghost use Rattle.modem_driver.specs.contracts.session.Session.{the_row};

    /// A new session over this line and driver's end, which may have been used before, for a modem of the standard's
    /// codes. N1 is the most octets of information that a frame may have. It keeps the right to wait and the allocator,
    /// and takes room for 128 requests and 128 outcomes. Refusals, which hand the line and the desk's end back: 2 BadN1
    /// where N1 isn't 31 to 32767, checked first; 1 NoMemory.
    pub fn new(
        rt: R,
        alloc: Global,
        line: L,
        driver: DriverEnd,
        n1: u16,
    ) -> Result<Session<L, R>, SessionRefused<L>>
        ensures begins { IfOk result (λ s. FitsAll (beginning_of n1 (L.seen line) driver) L.seen s []) }
        ensures same { IfOk result (λ s. (s.line ≡ line) × (s.driver ≡ driver)) }
        ensures bad_n1 { (IfErr result (λ e. e.why ≡ why.BadN1 → IsBadN1 n1))
            × (IsBadN1 n1 → IsErr result × IfErr result (λ e. e.why ≡ why.BadN1)) }
        ensures back { IfErr result (λ e. (e.line ≡ line) × (e.driver ≡ driver)) }
    {
        let standard = Dialect::standard(alloc);
        Session::with_dialect(rt, alloc, line, driver, n1, &standard)
    }

    /// As `new`, with a modem whose codes are those of this dialect. It takes a copy of the dialect.
    pub fn with_dialect(
        rt: R,
        alloc: Global,
        line: L,
        driver: DriverEnd,
        n1: u16,
        dialect: &Dialect,
    ) -> Result<Session<L, R>, SessionRefused<L>>
        ensures begins { IfOk result (λ s. FitsAll (beginning_by (dialect_of dialect.now) n1 (L.seen line) driver) L.seen s []) }
        ensures same { IfOk result (λ s. (s.line ≡ line) × (s.driver ≡ driver)) }
        ensures bad_n1 { (IfErr result (λ e. e.why ≡ why.BadN1 → IsBadN1 n1))
            × (IsBadN1 n1 → IsErr result × IfErr result (λ e. e.why ≡ why.BadN1)) }
        ensures back { IfErr result (λ e. (e.line ≡ line) × (e.driver ≡ driver)) }
    {
        match begin(alloc, &driver, n1, dialect) {
            Ok(machine) => Ok(Session {
                rt,
                line,
                driver,
                machine,
            }),
            Err(why) => Err(SessionRefused { why, line, driver }),
        }
    }

    /// The line.
    pub fn line(&self) -> &L
        ensures { result.now ≡ self.now.line }
    {
        &self.line
    }

    /// The octets that are to be written and that the line hasn't taken yet.
    pub fn unwritten(&self) -> &[u8]
        ensures { result.now ≡ self.now.machine.unwritten }
    {
        self.machine.line_end.unwritten()
    }

    /// Lends the line. If the borrower changes neither the octets read and written nor the counts, the session fits
    /// the same histories as before.
    pub fn line_mut(&mut self) -> &mut L
        ensures value { result.now ≡ self.old.line }
        ensures* lent { sem 𝓛 (Lends (the_row L.row R.row L.SerialLine) L.row self.entry result
            (λ l. record self.old { line = l })) }
    {
        &mut self.line
    }

    /// A tick: SABM and DISC that weren't answered are sent again, and at the fourth tick what waits is given up. Line and desk's end stay
    /// as they are. Refusal, which changes nothing: 3 Failed where a turn has answered Line.
    pub fn tick(&mut self) -> Result<(), SessionFault>
        ensures ticks { OnOk result (Ticks L.seen self.old self.new) }
        ensures same { (self.new.line ≡ self.old.line) × (self.new.driver ≡ self.old.driver) }
        ensures ended { KeepsItsEnd self.old self.new }
        ensures err { OnErr result (self.new ≡ self.old) }
        ensures failed { (result ≡ Err fault.Failed) ↔ (has_lost_line self.old ≡ true) }
        ensures only { OnErr result (result ≡ Err fault.Failed) }
    {
        self.machine.tick()?;
        Ok(())
    }

    /// The line, the desk's end and what is left, without taking memory: the requests that were taken
    /// and not told, in order, and all outcomes and lines that wait.
    pub fn finish(self) -> Finished<L>
        ensures left { SessionEnds L.seen self (record {
          line = L.seen result.line;
          desk = end_of result.driver;
          in_hand = result.in_hand.items;
          unplaced = result.unplaced.items;
          unannounced = result.unannounced.items;
        }) }
        ensures same { (result.line ≡ self.line) × (result.driver ≡ self.driver) }
    {
        let Session {
            rt: _,
            line,
            driver,
            machine,
        } = self;
        let (in_hand, unplaced, unannounced) = machine.into_lists();
        Finished {
            line,
            driver,
            in_hand,
            unplaced,
            unannounced,
        }
    }
}
