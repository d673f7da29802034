//! A session, a simulated modem, two callers and a listener, each in a thread of its own, and then a settlement.
ghost use Rattle.std.specs.Prelude.{[], ◌∷◌, map};
ghost use Rattle.modem_desk.specs.Ends.{IsWhole, place_of};

use crate::Stop;
use crate::calling::Came;
use crate::crew::Crew;
use crate::driving::drive;
use crate::settling::end;
use crate::simulating::use_modem;
use bell::Bell;
use modem_driver::Session;
use modem_sim::Sim;
use results::beside;
use serial_line::SerialLine;
use std::alloc::Global;
use std::rt::Clock;
use std::sync::Wait;
use std::thread;
use std::thread::Threads;

/// Runs all of them beside one another, settles the desk, and gives what came of it.
pub fn run_beside<L: SerialLine + Drop + Send, R: Threads + Wait + Clock + Sync + Send + Drop>(
    rt: &R,
    alloc: Global,
    bell: &Bell,
    session: Session<L, R>,
    modem: Sim<L>,
    crew: Crew,
) -> Result<Came, Stop>
    requires { IsWhole session.driver.desk (map place_of (crew.callers.0 ∷ crew.callers.1 ∷ [])) }
{
    let (session, (callers, came)) = thread::join(
        rt,
        move || drive(rt, bell, session),
        move || use_modem(rt, bell, modem, crew),
    );
    let ((), came) = beside(end(rt, alloc, session, callers), came)?;
    Ok(came)
}
