//! How a bench is settled.
ghost use Rattle.std.specs.Prelude.{◌≡◌, IfOk, OnOk, map};
ghost use Rattle.serial_line.specs.OtherSide.{AreOpposite};
ghost use Rattle.modem_desk.specs.Ends.{AreSubscribed, IsWhole, subscription_of, place_of};
ghost use Rattle.modem_bench.specs.Driving.{IsOver, WasSettled};
ghost use Rattle.modem_bench.specs.Lines.{AreConnected};

use crate::calling::Worked;
use crate::ringing_line::PairedLine;
use crate::signals::Fault;
use crate::threads::Back;
use modem_desk::{Caller, Listener, Outcome, Settled, settle};
use modem_driver::Session;
use modem_sim::Sim;
use results::beside;
use std::alloc::Global;
use std::sync::Wait;

/// Callers that have worked, and the outcomes that each took.
fn parted(alloc: Global, back: Vec<Worked>) -> Result<(Vec<Caller>, Vec<Vec<Outcome>>), Fault>
    ensures callers { IfOk result (λ r. r.0.items ≡ map (λ w. w.caller) back.items) }
    ensures outcomes { IfOk result (λ r. r.1.items ≡ map (λ w. w.outcomes) back.items) }
{
    let mut callers = Vec::new(alloc);
    let mut outcomes = Vec::new(alloc);
    for worked in back {
        callers.push(worked.caller)?;
        outcomes.push(worked.outcomes)?;
    }
    Ok((callers, outcomes))
}

/// Ends a session and a simulated modem at one line, and settles the session's desk with all its callers.
fn end_run<L, R>(
    rt: &R,
    alloc: Global,
    session: Session<L, R>,
    sim: Sim<L>,
    callers: Vec<Caller>,
    listeners: Vec<Listener>,
) -> Result<Settled, Fault>
where
    L: PairedLine + Drop,
    R: Wait + Drop,
    requires one_line { AreOpposite (L.other_side session.line) (L.other_side sim.line) }
    requires callers { IsWhole session.driver.desk (map place_of callers.items) }
    requires listeners { AreSubscribed session.driver.desk (map subscription_of listeners.items) }
    ensures connected { AreConnected (L.seen session.line) (L.seen sim.line) }
    ensures over { IfOk result (IsOver L.seen session callers.items listeners.items) }
{
    let finished = session.finish();
    let (line, _modem) = sim.finish();
    finished.line.part(line);
    match settle(rt, alloc, finished.driver, callers, listeners) {
        Ok(settled) => Ok(settled),
        Err(_) => Err(Fault::NoMemory),
    }
}

/// Ends a session and a simulated modem, settles the session's desk with the callers that have worked, and gives the outcomes that
/// each took.
pub fn settle_run<L, R>(
    rt: &R,
    alloc: Global,
    back: Back<L, R>,
    listeners: Vec<Listener>,
) -> Result<Vec<Vec<Outcome>>, Fault>
where
    L: PairedLine + Drop,
    R: Wait + Drop,
    requires one_line { AreOpposite (L.other_side back.session.line) (L.other_side back.sim.line) }
    requires callers { IsWhole back.session.driver.desk (map place_of (map (λ w. w.caller) back.worked.items)) }
    requires listeners { AreSubscribed back.session.driver.desk (map subscription_of listeners.items) }
    ensures outcomes { IfOk result (λ outcomes. outcomes.items ≡ map (λ w. w.outcomes) back.worked.items) }
    ensures connected { OnOk result (AreConnected (L.seen back.session.line) (L.seen back.sim.line)) }
    ensures over { IfOk result (λ _. WasSettled L.seen back.session
        (map (λ w. w.caller) back.worked.items) listeners.items) }
{
    let Back {
        session,
        sim,
        worked,
    } = back;
    let ((callers, outcomes), (session, sim)) = beside(parted(alloc, worked), (session, sim))?;
    let settled = end_run(rt, alloc, session, sim, callers, listeners)?;
    drop(settled);
    Ok(outcomes)
}
