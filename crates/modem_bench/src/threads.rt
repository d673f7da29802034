//! The threads of a bench: the driver's, the simulated modem's, and the callers' in between.
ghost use Rattle.std.specs.Prelude.{◌≡◌, ◌≤◌, ◌<◌, IfOk, Ok, length};
ghost use Rattle.modem_bench.specs.Driving.{StopsAtLine};
ghost use Rattle.modem_bench.specs.Running.{AreCalled};
ghost use Rattle.modem_bench.specs.Simulating.{EndsAtLine};

use crate::calling::Worked;
use crate::crew::call;
use crate::driving::{Later, drive};
use crate::limit::Limits;
use crate::ringing_line::CountedLine;
use crate::signals::{Fault, Signals};
use crate::simulating::{Ending, simulate};
use crate::submission::Submission;
use modem_desk::Caller;
use modem_driver::Session;
use modem_sim::Sim;
use results::{beside, both};
use serial_line::SerialLine;
use std::alloc::Global;
use std::snapshot::Snapshot;
use std::sync::Wait;
use std::thread;
use std::thread::{PromisedHandle, SpawnError, Threads};

/// What comes back from the threads of a bench: the session, the simulated modem, and the callers.
#[derive(Drop)]
pub struct Back<L: SerialLine + Drop, R: Wait + Drop> {
    pub session: Session<L, R>,
    pub sim: Sim<L>,
    pub worked: Vec<Worked>,
}

/// A thread that was spawned. Generic, because proving the drop of a concrete closure is slow.
fn spawned<H: Drop, F: Drop>(thread: Result<H, SpawnError<F>>) -> Result<H, Fault>
    ensures { IfOk result (λ h. thread ≡ Ok h) }
{
    Ok(thread?)
}

/// Has a simulated modem go on in a thread of its own.
fn send_modem<L, R>(
    rt: &R,
    sim: Sim<L>,
    signals: &Signals,
) -> Result<PromisedHandle<Result<Sim<L>, Fault>, Ending<L>>, Fault>
where
    L: SerialLine + CountedLine + Drop + Send + 'static,
    R: Threads + Wait + Copy + Send + Drop + 'static,
    ensures { IfOk result (λ handle. handle.promise.0.value ≡ sim) }
{
    let (theirs, sim) = beside(signals.of_modem(), sim)?;
    let own = *rt;
    let promise = Ending(Snapshot::of(&sim));
    spawned(thread::spawn_with(rt, promise, move || simulate(&own, sim, theirs)))
}

/// What the callers do, beside the simulated modem's thread. It gives the simulated modem back as it ended.
fn call_modem<L, R>(
    rt: &R,
    alloc: Global,
    sim: Sim<L>,
    callers: Vec<Caller>,
    submissions: &[Submission],
    signals: &Signals,
) -> Result<(Sim<L>, Vec<Worked>), Fault>
where
    L: SerialLine + CountedLine + Drop + Send + 'static,
    R: Threads + Wait + Copy + Send + Drop + 'static,
    requires { (0 < length callers.items) × (length callers.items ≤ 8) }
    ensures ended { IfOk result (λ r. EndsAtLine L.seen L.other_side sim r.0) }
    ensures called { IfOk result (λ r. AreCalled submissions.now callers.items r.1.items) }
{
    let simulating = send_modem(rt, sim, signals)?;
    let called = call(rt, alloc, callers, submissions, signals);
    if let Err(fault) = &called {
        signals.give_up(rt, *fault);
    }
    both(simulating.join(rt), called)
}

/// Has a session go on in a thread of its own.
fn send_driver<L, R>(
    rt: &R,
    session: Session<L, R>,
    signals: &Signals,
    limits: Limits,
) -> Result<PromisedHandle<Result<Session<L, R>, Fault>, Later<L, R>>, Fault>
where
    L: SerialLine + CountedLine + Drop + Send + 'static,
    R: Threads + Wait + Copy + Send + Drop + 'static,
    ensures { IfOk result (λ handle. handle.promise.0.value ≡ session) }
{
    let (theirs, session) = beside(signals.of_driver(), session)?;
    let own = *rt;
    let promise = Later(Snapshot::of(&session));
    spawned(thread::spawn_with(rt, promise, move || drive(&own, session, theirs, limits)))
}

/// Runs callers, driver and simulated modem in their threads.
pub fn run_beside<L, R>(
    rt: &R,
    alloc: Global,
    session: Session<L, R>,
    sim: Sim<L>,
    callers: Vec<Caller>,
    submissions: &[Submission],
    signals: &Signals,
    limits: Limits,
) -> Result<Back<L, R>, Fault>
where
    L: SerialLine + CountedLine + Drop + Send + 'static,
    R: Threads + Wait + Copy + Send + Drop + 'static,
    requires { (0 < length callers.items) × (length callers.items ≤ 8) }
    ensures stopped { IfOk result (λ b. StopsAtLine L.seen L.other_side session b.session) }
    ensures ended { IfOk result (λ b. EndsAtLine L.seen L.other_side sim b.sim) }
    ensures called { IfOk result (λ b. AreCalled submissions.now callers.items b.worked.items) }
{
    let (driving, sim) = beside(send_driver(rt, session, signals, limits), sim)?;
    let called = call_modem(rt, alloc, sim, callers, submissions, signals);
    if let Err(fault) = &called {
        signals.give_up(rt, *fault);
    }
    let (session, (sim, worked)) = both(driving.join(rt), called)?;
    Ok(Back {
        session,
        sim,
        worked,
    })
}
