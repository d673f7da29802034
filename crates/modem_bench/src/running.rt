//! A bench: callers, the driver and a simulated modem in threads of their own.
ghost use Rattle.std.specs.Prelude.{◌≡◌, ◌≤◌, ◌<◌, IfOk, length, map, vec_items};
ghost use Rattle.modem_desk.specs.Ends.{AreSubscribed, IsWhole, subscription_of, place_of};
ghost use Rattle.serial_line.specs.OtherSide.{AreOpposite};
ghost use Rattle.modem_bench.specs.Driving.{IsBegun};
ghost use Rattle.modem_bench.specs.Running.{Ran, RanFor};

use crate::ends::{Ends, begin, make_line};
use crate::limit::Limits;
use crate::ringing_line::{CountedLine, PairedLine};
use crate::settling::settle_run;
use crate::signals::{Fault, Signals};
use crate::submission::Submission;
use crate::threads::run_beside;
use modem_desk::Outcome;
use modem_sim::Script;
use results::beside;
use std::alloc::Global;
use std::sync::Wait;
use std::thread::Threads;

/// How often the session of a bench is polled at most.
const POLLS: u32 = 10_000_000;

/// Runs them, and then settles.
fn run_threads<L, R>(
    rt: &R,
    alloc: Global,
    ends: Ends<L, R>,
    submissions: &[Submission],
    signals: &Signals,
    limits: Limits,
) -> Result<Vec<Vec<Outcome>>, Fault>
where
    L: PairedLine + CountedLine + Drop + Send + 'static,
    R: Threads + Wait + Copy + Send + Drop + 'static,
    requires few { (0 < length ends.callers.items) × (length ends.callers.items ≤ 8) }
    requires begun { IsBegun L.seen ends.session }
    requires one_line { AreOpposite (L.other_side ends.session.line) (L.other_side ends.sim.line) }
    requires callers { IsWhole ends.session.driver.desk (map place_of ends.callers.items) }
    requires listeners { AreSubscribed ends.session.driver.desk (map subscription_of ends.listeners.items) }
    ensures { IfOk result (λ outcomes. RanFor L.seen submissions.now ends.callers.items ends.session ends.sim (map vec_items outcomes.items)) }
{
    let Ends {
        session,
        sim,
        callers,
        listeners,
    } = ends;
    let back = run_beside(
        rt,
        alloc,
        session,
        sim,
        callers,
        submissions,
        signals,
        limits,
    )?;
    settle_run(rt, alloc, back, listeners)
}

/// Makes the line, begins at its two ends, and runs all.
fn run_signalled<R>(
    rt: &R,
    alloc: Global,
    submissions: &[Submission],
    callers: u8,
    cut: usize,
    script: Script,
    signals: &Signals,
    limits: Limits,
) -> Result<Vec<Vec<Outcome>>, Fault>
where
    R: Threads + Wait + Copy + Send + Drop + 'static,
    requires { (1 ≤ callers) × (callers ≤ 8) }
    ensures { IfOk result (λ outcomes. Ran submissions.now callers cut script (map vec_items outcomes.items)) }
{
    let (line, script) = beside(make_line(alloc, cut, signals), script)?;
    let ends = begin(rt, alloc, callers, line, script, signals)?;
    run_threads(rt, alloc, ends, submissions, signals, limits)
}

/// Runs a bench, and gives what each caller was told for each thing that the submissions ask of it, in their order. Requires 1 to 8
/// callers. `cut` is how many octets may be under way each way, 1 to 65536. The simulated modem has its default start and this script.
/// Refused with the fault for which the bench was given up, and with NoMemory for another cut.
pub fn run_bench<R>(
    rt: &R,
    alloc: Global,
    submissions: &[Submission],
    callers: u8,
    cut: usize,
    script: Script,
) -> Result<Vec<Vec<Outcome>>, Fault>
where
    R: Threads + Wait + Copy + Send + Drop + 'static,
    requires { (1 ≤ callers) × (callers ≤ 8) }
    ensures { IfOk result (λ outcomes. Ran submissions.now callers cut script (map vec_items outcomes.items)) }
{
    run_bench_within(rt, alloc, submissions, callers, cut, script, POLLS)
}

/// As `run_bench`, but gives the bench up after this many polls of its session, or after 600 polls in a row that moved nothing.
pub fn run_bench_within<R>(
    rt: &R,
    alloc: Global,
    submissions: &[Submission],
    callers: u8,
    cut: usize,
    script: Script,
    polls: u32,
) -> Result<Vec<Vec<Outcome>>, Fault>
where
    R: Threads + Wait + Copy + Send + Drop + 'static,
    requires { (1 ≤ callers) × (callers ≤ 8) }
    ensures { IfOk result (λ outcomes. Ran submissions.now callers cut script (map vec_items outcomes.items)) }
{
    run_bench_limited(
        rt,
        alloc,
        submissions,
        callers,
        cut,
        script,
        Limits::of_polls(polls),
    )
}

/// As `run_bench`, within these limits. Every poll of its session counts. The count of those that move nothing begins anew with one that
/// moves an octet on the line, takes a request, tells an outcome or announces a line. Behind a poll that leaves nothing to do the driver
/// waits until it is rung, or for a tenth of a second.
pub fn run_bench_limited<R>(
    rt: &R,
    alloc: Global,
    submissions: &[Submission],
    callers: u8,
    cut: usize,
    script: Script,
    limits: Limits,
) -> Result<Vec<Vec<Outcome>>, Fault>
where
    R: Threads + Wait + Copy + Send + Drop + 'static,
    requires { (1 ≤ callers) × (callers ≤ 8) }
    ensures { IfOk result (λ outcomes. Ran submissions.now callers cut script (map vec_items outcomes.items)) }
{
    let (signals, script) = beside(Signals::new(alloc, callers), script)?;
    run_signalled(
        rt,
        alloc,
        submissions,
        callers,
        cut,
        script,
        &signals,
        limits,
    )
}
