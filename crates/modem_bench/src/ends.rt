//! What a bench begins with: a desk, a line, a session and a simulated modem.
ghost use Rattle.std.specs.Prelude.{◌≡◌, [], IfOk, map};
ghost use Rattle.modem_desk.specs.Ends.{AreSubscribed, IsWhole, Opened, subscription_of, place_of};
ghost use Rattle.modem_driver.specs.SessionStates.{FitsAll, beginning_of};
ghost use Rattle.modem_bench.specs.Driving.{IsBegun};
ghost use Rattle.modem_bench.specs.Running.{AreFresh, IsLine};
ghost use Rattle.modem_bench.specs.Simulating.{IsStarted};

use crate::bells::Bells;
use crate::ringing_line::RingingLine;
use crate::signals::{Fault, Signals};
use modem_desk::{Caller, Desk, DriverEnd, Listener};
use modem_driver::Session;
use modem_sim::{Modem, ModemStart, Script, Sim};
use mux_frame::N1;
use results::{beside, both};
use serial_line::{SerialLine, ThreadLine};
use std::alloc::{AllocError, Global};
use std::sync::Wait;

/// What a bench begins with.
#[derive(Drop)]
pub struct Ends<L: SerialLine + Drop, R: Wait + Drop> {
    pub session: Session<L, R>,
    pub sim: Sim<L>,
    pub callers: Vec<Caller>,
    pub listeners: Vec<Listener>,
}

/// Has each of so many callers woken by its own bell.
fn wake_callers(driver: &mut DriverEnd, callers: u8, bells: &Bells) -> Result<(), AllocError>
    ensures same { driver.new ≡ driver.old }
{
    for number in 0..callers {
        driver.wake(number, bells.of_caller(number).share()?);
    }
    Ok(())
}

/// A desk without a listener, and with so many callers, which ring the driver's bell and are woken by their own.
fn open_desk(
    alloc: Global,
    callers: u8,
    bells: &Bells,
) -> Result<(DriverEnd, Vec<Caller>, Vec<Listener>), Fault>
    ensures { IfOk result (λ r. Opened callers [] 1 r.0 r.1.items r.2.items) }
{
    let Ok((mut driver, all, listeners)) = Desk::open_with_bell(
        alloc,
        callers,
        &[],
        1,
        &bells.driver,
    ) else {
        return Err(Fault::NoMemory);
    };
    let woken = wake_callers(&mut driver, callers, bells);
    let ((), ends) = beside(woken, (driver, all, listeners))?;
    Ok(ends)
}

/// The two ends of a new line, with room for so many octets each way, the driver's first. Each rings the other end's thread.
pub fn make_line(
    alloc: Global,
    cut: usize,
    signals: &Signals,
) -> Result<(RingingLine, RingingLine), Fault>
    ensures { IfOk result (λ r. IsLine cut r.0 r.1) }
{
    let driver = signals.bells().driver.share()?;
    let modem = signals.bells().modem.share()?;
    match ThreadLine::pair(alloc, cut) {
        Ok((near, far)) => Ok((RingingLine::new(near, modem), RingingLine::new(far, driver))),
        Err(_) => Err(Fault::NoMemory),
    }
}

/// A session that has done nothing yet.
fn make_session<L: SerialLine + Drop, R: Wait + Drop>(
    rt: R,
    alloc: Global,
    line: L,
    driver: DriverEnd,
) -> Result<Session<L, R>, Fault>
    ensures begins { IfOk result (λ s. FitsAll (beginning_of 31 (L.seen line) driver) L.seen s []) }
    ensures same { IfOk result (λ s. (s.line ≡ line) × (s.driver ≡ driver)) }
{
    match Session::new(rt, alloc, line, driver, N1::DEFAULT) {
        Ok(session) => Ok(session),
        Err(_) => Err(Fault::NoMemory),
    }
}

/// A simulated modem with its default start.
fn make_sim<L: SerialLine + Drop>(alloc: Global, line: L, script: Script) -> Result<Sim<L>, Fault>
    ensures { IfOk result (IsStarted L.seen line script) }
{
    let modem = Modem::new(alloc, ModemStart::default());
    match Sim::new(alloc, line, modem, script, N1::DEFAULT) {
        Ok(sim) => Ok(sim),
        Err(_) => Err(Fault::NoMemory),
    }
}

/// A desk, whose callers ring the driver's bell and are woken by their own; a session at its driver's end; and a simulated modem at the other end of the line.
pub fn begin<L: SerialLine + Drop, R: Wait + Drop + Copy>(
    rt: &R,
    alloc: Global,
    callers: u8,
    line: (L, L),
    script: Script,
    signals: &Signals,
) -> Result<Ends<L, R>, Fault>
    ensures many { IfOk result (λ e. AreFresh callers e.callers.items) }
    ensures begun { IfOk result (λ e. IsBegun L.seen e.session) }
    ensures at_line { IfOk result (λ e. e.session.line ≡ line.0) }
    ensures started { IfOk result (λ e. IsStarted L.seen line.1 script e.sim) }
    ensures callers { IfOk result (λ e. IsWhole e.session.driver.desk (map place_of e.callers.items)) }
    ensures listeners { IfOk result
        (λ e. AreSubscribed e.session.driver.desk (map subscription_of e.listeners.items)) }
{
    let (driver, callers, listeners) = open_desk(alloc, callers, signals.bells())?;
    let (near, far) = line;
    let session = make_session(*rt, alloc, near, driver);
    let sim = make_sim(alloc, far, script);
    let ((session, sim), (callers, listeners)) = beside(both(session, sim), (callers, listeners))?;
    Ok(Ends {
        session,
        sim,
        callers,
        listeners,
    })
}
