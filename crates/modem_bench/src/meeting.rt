//! What rounds begin with: a session and a simulated modem, each at a new line in memory.
ghost use Rattle.std.specs.Prelude.{◌≡◌, [], IfOk, IsOkUnless};
ghost use Rattle.serial_line.specs.CutLine.{cut_view, new_line};
ghost use Rattle.serial_line.specs.LineViews.{unused_line};
ghost use Rattle.modem_driver.specs.SessionStates.{FitsAll, beginning_of};
ghost use Rattle.modem_sim.specs.Acts.{end_of};
ghost use Rattle.modem_sim.specs.Laws.{IsStart};
ghost use Rattle.modem_sim.specs.Sims.{FitsSim};
ghost use Rattle.modem_sim.specs.Steps.{started};
ghost use Rattle.modem_bench.specs.OneLine.{AreOnOneLine};
ghost use Rattle.modem_bench.specs.Rounds.{pair};

use crate::signals::Fault;
use modem_desk::DriverEnd;
use modem_driver::Session;
use modem_sim::{Modem, ModemStart, Script, Sim};
use mux_frame::N1;
use results::beside;
use serial_line::CutLine;
use std::alloc::Global;
use std::sync::Wait;

/// A session and a simulated modem, each at its line in memory.
#[derive(Drop)]
pub struct Meeting<R: Wait + Drop> {
    pub session: Session<CutLine, R>,
    pub sim: Sim<CutLine>,
}

/// A line without input, on which nothing has happened yet and each call lets through all that it can.
fn make_line(alloc: Global, room: usize) -> Result<CutLine, Fault>
    ensures memory { IsOkUnless result Fault.NoMemory }
    ensures line { IfOk result (λ l. l ≡ new_line [] [] [] room) }
{
    match CutLine::new(alloc, &[], &[], &[], room) {
        Ok(line) => Ok(line),
        Err(_) => Err(Fault::NoMemory),
    }
}

/// A session at such a line.
fn near_end<R: Wait + Drop>(
    rt: R,
    alloc: Global,
    driver: DriverEnd,
    n1: N1,
    room: usize,
) -> Result<Session<CutLine, R>, Fault>
    ensures memory { IsOkUnless result Fault.NoMemory }
    ensures begins { IfOk result (λ s.
        FitsAll (beginning_of n1.octets (cut_view (new_line [] [] [] room)) driver) cut_view s []) }
    ensures line { IfOk result (λ s. s.line ≡ new_line [] [] [] room) }
    ensures driver { IfOk result (λ s. s.driver ≡ driver) }
{
    let line = make_line(alloc, room)?;
    match Session::new(rt, alloc, line, driver, n1.octets) {
        Ok(session) => Ok(session),
        Err(_) => Err(Fault::NoMemory),
    }
}

/// A simulated modem at such a line.
fn far_end(
    alloc: Global,
    start: ModemStart,
    script: Script,
    n1: N1,
    room: usize,
) -> Result<Sim<CutLine>, Fault>
    ensures memory { IsOkUnless result Fault.NoMemory }
    ensures is_start { IsStart start }
    ensures begins { IfOk result (λ m.
        FitsSim cut_view unused_line (end_of n1.octets (started start) script) m []) }
    ensures line { IfOk result (λ m. m.line ≡ new_line [] [] [] room) }
{
    let line = make_line(alloc, room)?;
    match Sim::new(alloc, line, Modem::new(alloc, start), script, n1.octets) {
        Ok(sim) => Ok(sim),
        Err(_) => Err(Fault::NoMemory),
    }
}

/// A new session over this desk's end and a new simulated modem with this start, each at a line in memory with room for so
/// many octets each way. Their joint list is empty, and is one line's. N1 is the most octets of information in a frame of
/// both. Refusal: 1 NoMemory.
pub fn meet<R: Wait + Drop>(
    rt: R,
    alloc: Global,
    driver: DriverEnd,
    start: ModemStart,
    script: Script,
    n1: N1,
    room: usize,
) -> Result<Meeting<R>, Fault>
    ensures memory { IsOkUnless result Fault.NoMemory }
    ensures on { IfOk result (λ m.
        AreOnOneLine (beginning_of n1.octets (cut_view (new_line [] [] [] room)) driver) unused_line
        (end_of n1.octets (started start) script) [] (pair m.session m.sim)) }
{
    let session = near_end(rt, alloc, driver, n1, room)?;
    let (sim, session) = beside(far_end(alloc, start, script, n1, room), session)?;
    Ok(Meeting { session, sim })
}
