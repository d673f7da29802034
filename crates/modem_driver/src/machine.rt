//! What a session keeps beside its line and its desk's end.
ghost use Rattle.std.specs.Prelude.{◌≡◌, ◌≢◌, ◌↔◌, ◌+◌, ◌<◌, ◌≤◌, ◌++◌, [], true, false, length, option_to_list, None, IfOk, IsErrOf, OnOk, OnErr};
ghost use Rattle.mux_frame.specs.Spelling.{IsBadN1};
ghost use Rattle.line_end.specs.LineEnds.{new_end};
ghost use Rattle.modem_core.specs.Cores.{Fits};
ghost use Rattle.modem_driver.specs.Endings.{KeepsEnd};
ghost use Rattle.modem_core.specs.Holding.{HoldsFit};
ghost use Rattle.modem_driver.specs.SessionStates.{machine_by, new_machine, MachineLoses, MachineTicks};
ghost use Rattle.modem_driver.specs.declared.session.error.SessionError.TheVariants as why;
ghost use Rattle.modem_driver.specs.declared.session.error.SessionFault.TheVariants as fault;

mod answering;
mod checking;
pub(crate) mod course;
pub(crate) mod delays;
mod exchanging;
mod getting;
mod handing;
mod octets_in;
mod octets_out;
mod placing;
mod requests;
mod sending;
mod taking;
mod time;

use crate::machine::course::Course;
use crate::machine::delays::Delays;
use crate::session::{SessionError, SessionFault};
use at_text::{Dialect, UrcKind};
use line_end::LineEnd;
use modem_core::{Core, Waiting};
use modem_desk::{Outcome, Request, Urc};
use mux_frame::{Dlci, FrameError};
use std::alloc::Global;
use std::marker::Model;

/// The core, the end of the line, what waits for a place at the desk, how far it has come on the way to its end, and how
/// long commands have waited.
#[derive(Drop)]
pub(crate) struct Machine {
    pub(crate) core: Core,
    pub(crate) line_end: LineEnd,
    pub(crate) waiting: Waiting,
    pub(crate) course: Course,
    pub(crate) delays: Delays,
}

impl Model for Machine {
    ghost use Rattle.std.specs.Prelude.{◌≡◌};
    ghost use Rattle.modem_driver.specs.SessionStates.{Machine};

    ghost Value = { Machine };

    ghost view = { λ k. record {
      core = k.core;
      unfed = k.line_end.unfed;
      deframer = k.line_end.deframer;
      unwritten = k.line_end.unwritten;
      unplaced = k.waiting.outcomes;
      unannounced = k.waiting.lines;
      faulty = k.line_end.failed;
      course = k.course;
      delays = k.delays;
    } };

    ghost invariant = { λ k. k.core.station.n1 ≡ k.line_end.deframer.n1 };
}

/// An end of a line, and room for outcomes that wait. Refusals: 2 BadN1, checked first; 1 NoMemory.
fn ends(alloc: Global, n1: u16) -> Result<(LineEnd, Waiting), SessionError>
    ensures ok { IfOk result (λ e. e.0 ≡ new_end n1) }
    ensures none { IfOk result (λ e. (e.1.outcomes ≡ []) × (e.1.lines ≡ [])) }
    ensures bad_n1 { IsErrOf result why.BadN1 ↔ IsBadN1 n1 }
{
    let line_end = match LineEnd::new(alloc, n1) {
        Ok(line_end) => line_end,
        Err(FrameError::BadN1) => return Err(SessionError::BadN1),
        Err(_) => return Err(SessionError::NoMemory),
    };
    Ok((line_end, Waiting::new(alloc)?))
}

impl Machine {
    /// A new machine at a standard modem, which listens to these kinds. It takes all the room that it needs but for
    /// lines that wait. Refusals: 2 BadN1, checked first; 1 NoMemory.
    pub(crate) fn new(alloc: Global, n1: u16, kinds: &[UrcKind]) -> Result<Machine, SessionError>
        ensures ok { IfOk result (λ k. k ≡ new_machine n1 kinds.now) }
        ensures past { IfOk result (λ k. Fits k.core []) }
        ensures held { IfOk result (λ k. HoldsFit k.core []) }
        ensures bad_n1 { IsErrOf result why.BadN1 ↔ IsBadN1 n1 }
    {
        let standard = Dialect::standard(alloc);
        Machine::with_dialect(alloc, n1, &standard, kinds)
    }

    /// As `new`, at a modem whose codes are those of this dialect.
    pub(crate) fn with_dialect(
        alloc: Global,
        n1: u16,
        dialect: &Dialect,
        kinds: &[UrcKind],
    ) -> Result<Machine, SessionError>
        ensures ok { IfOk result (λ k. k ≡ machine_by dialect.now n1 kinds.now) }
        ensures past { IfOk result (λ k. Fits k.core []) }
        ensures held { IfOk result (λ k. HoldsFit k.core []) }
        ensures bad_n1 { IsErrOf result why.BadN1 ↔ IsBadN1 n1 }
    {
        let (line_end, waiting) = ends(alloc, n1)?;
        let Ok(core) = Core::with_dialect(alloc, n1, dialect, kinds) else {
            return Err(SessionError::NoMemory);
        };
        Ok(Machine {
            core,
            line_end,
            waiting,
            course: Course::GoesOn,
            delays: [None; Dlci::COUNT],
        })
    }

    /// A tick of the core. Refusal, which changes nothing: 3 Failed where the line was lost.
    pub(crate) fn tick(&mut self) -> Result<(), SessionFault>
        ensures ticks { OnOk result (MachineTicks self.old self.new) }
        ensures unfed { self.new.unfed ≡ self.old.unfed }
        ensures ended { KeepsEnd self.old.course self.new.course }
        ensures err { OnErr result (self.new ≡ self.old) }
        ensures failed { (result ≡ Err fault.Failed) ↔ (self.old.core.lost ≡ true) }
        ensures only { OnErr result (result ≡ Err fault.Failed) }
    {
        if self.core.is_lost() {
            return Err(SessionFault::Failed);
        }
        let delays = self.delays_after_tick();
        let answered = self.waiting.tick(&mut self.core);
        self.delays = delays;
        self.course.go_on(answered);
        Ok(())
    }

    /// The line is lost: everyone in hand is told so. The condition is that a call on the line has failed, and that it
    /// wasn't lost before.
    pub(crate) fn lose(&mut self)
        requires faulty { self.old.faulty ≡ true }
        requires live { self.old.core.lost ≡ false }
        ensures loses { MachineLoses self.old self.new }
        ensures gone { self.new.core.lost ≡ true }
    {
        self.lose_line();
    }

    /// The requests in hand; the outcomes and the lines that wait.
    pub(crate) fn into_lists(self) -> (Vec<Request>, Vec<Outcome>, Vec<Urc>)
        ensures hand { result.0.items ≡ self.core.hand }
        ensures outcomes { result.1.items ≡ self.unplaced }
        ensures lines { result.2.items ≡ self.unannounced }
    {
        let Machine { core, waiting, .. } = self;
        let in_hand = core.into_hand();
        let (unplaced, unannounced) = waiting.into_lists();
        (in_hand, unplaced, unannounced)
    }
}
