//! A desk of two callers and a listener, and a session over a line to a simulated modem.
ghost use Rattle.std.specs.Prelude.{◌≡◌, [], ◌∷◌, IfOk, map};
ghost use Rattle.modem_desk.specs.Ends.{IsWhole, place_of};

use crate::Stop;
use crate::calling::Came;
use crate::crew::Crew;
use crate::own_modem::{modem_on, says};
use crate::threads::run_beside;
use crate::typed::signal_ask;
use at_text::UrcKind;
use bell::Bell;
use modem_desk::{Caller, Desk, DriverEnd, Listener};
use modem_driver::Session;
use modem_sim::{Sim, Step};
use results::beside;
use serial_line::{SerialLine, ThreadLine};
use std::alloc::Global;
use std::rt::Clock;
use std::sync::Wait;
use std::thread::Threads;

/// A session, where N1 is 31.
fn session_on<L: SerialLine + Drop, R: Wait + Drop>(
    rt: R,
    alloc: Global,
    line: L,
    driver: DriverEnd,
) -> Result<Session<L, R>, Stop>
    ensures { IfOk result (λ session. session.driver ≡ driver) }
{
    match Session::new(rt, alloc, line, driver, 31) {
        Ok(session) => Ok(session),
        Err(_) => Err(Stop::NoMemory),
    }
}

/// What the modem does beside answering: it says RING behind the first command.
fn steps(alloc: Global) -> Result<Vec<Step>, Stop> {
    Ok(Vec::from_array(alloc, [says(alloc, 1, b"RING")?])?)
}

/// Such a modem, and the other end of its line.
fn far_end(alloc: Global) -> Result<(Sim<ThreadLine>, ThreadLine), Stop> {
    let steps = steps(alloc)?;
    match ThreadLine::pair(alloc, 64) {
        Ok((near, far)) => beside(modem_on(alloc, far, steps), near),
        Err(_) => Err(Stop::NoMemory),
    }
}

/// A session, and a modem at the other end of its line.
pub fn begin<R: Wait + Drop>(
    rt: R,
    alloc: Global,
    driver: DriverEnd,
) -> Result<(Session<ThreadLine, R>, Sim<ThreadLine>), Stop>
    ensures { IfOk result (λ r. r.0.driver ≡ driver) }
{
    let ((modem, line), driver) = beside(far_end(alloc), driver)?;
    let (session, modem) = beside(session_on(rt, alloc, line, driver), modem)?;
    Ok((session, modem))
}

/// A desk of two callers and a listener to RING.
fn ends(alloc: Global, bell: &Bell) -> Result<(DriverEnd, (Caller, Caller), Listener), Stop>
    ensures { IfOk result (λ r. IsWhole r.0.desk (map place_of (r.1.0 ∷ r.1.1 ∷ []))) }
{
    let opened = Desk::open_with_bell(alloc, 2, &[UrcKind::Ring], 1, bell);
    let Ok((driver, mut callers, mut listeners)) = opened else {
        return Err(Stop::NoMemory);
    };
    let second = callers.pop().unwrap();
    let first = callers.pop().unwrap();
    let listener = listeners.pop().unwrap();
    Ok((driver, (first, second), listener))
}

/// Both callers ask for the signal on connection 1, and the listener listens to RING.
fn make_crew(alloc: Global, bell: &Bell) -> Result<(DriverEnd, Crew), Stop>
    ensures { IfOk result (λ r. IsWhole r.0.desk (map place_of (r.1.callers.0 ∷ r.1.callers.1 ∷ []))) }
{
    let asks = (signal_ask(alloc)?, signal_ask(alloc)?);
    let (driver, callers, listener) = ends(alloc, bell)?;
    let crew = Crew {
        callers,
        asks,
        listener,
    };
    Ok((driver, crew))
}

/// Runs a session, a modem and a crew beside one another, with this bell.
fn run_with<R>(rt: &R, alloc: Global, bell: &Bell) -> Result<Came, Stop>
where
    R: Threads + Wait + Clock + Sync + Send + Copy + Drop,
{
    let (driver, crew) = make_crew(alloc, bell)?;
    let ((session, modem), crew) = beside(begin(*rt, alloc, driver), crew)?;
    run_beside(rt, alloc, bell, session, modem, crew)
}

/// What comes of that, with a bell of their own.
pub fn run<R>(rt: &R, alloc: Global) -> Result<Came, Stop>
where
    R: Threads + Wait + Clock + Sync + Send + Copy + Drop,
{
    let bell = Bell::new(alloc)?;
    run_with(rt, alloc, &bell)
}
