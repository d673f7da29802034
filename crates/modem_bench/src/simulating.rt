//! The simulated modem's thread of a bench.
ghost use Rattle.std.specs.Prelude.{◌≡◌, IfOk, OnOk, Ok};
ghost use Rattle.modem_sim.specs.declared.sim.SimTurn.TheVariants.{Ended};
ghost use Rattle.modem_bench.specs.Faults.{sim_end, sim_fault};
ghost use Rattle.modem_bench.specs.Simulating.{EndsAtLine, IsSimulated};

use crate::cause::Cause;
use crate::ringing_line::CountedLine;
use crate::signals::{Fault, Signals};
use modem_sim::{Sim, SimError, SimTurn};
use results::unless_failed;
use serial_line::SerialLine;
use std::snapshot::Snapshot;
use std::sync::Wait;
use std::thread::Promise;

pub fn fault_of(why: SimError) -> Fault
    ensures { result ≡ sim_fault why }
{
    match why {
        SimError::NoMemory => Fault::NoMemory,
        SimError::Line | SimError::Failed => Fault::Line,
        SimError::BadN1 => Fault::GaveUp(Cause::NoEnd),
    }
}

/// The end that a simulated modem gave. No poll gives Moved or Idle.
fn ended(given: Result<SimTurn, SimError>) -> Result<(), Fault>
    ensures end { result ≡ sim_end given }
    ensures ended { OnOk result (given ≡ Ok Ended) }
{
    match given {
        Ok(SimTurn::Ended) => Ok(()),
        Ok(SimTurn::Moved | SimTurn::Idle) => Err(Fault::GaveUp(Cause::NoEnd)),
        Err(why) => Err(fault_of(why)),
    }
}

/// Waits, unless octets moved: then there may be more to do.
fn rest<R: Wait>(rt: &R, signals: &Signals, moved: bool) {
    if !moved {
        signals.wait(rt);
    }
}

/// Polls a simulated modem to its end. Where a poll moved no octet it waits on its bell.
#[tactic(auto, using(crate::proofs::Simulations::waited_none))]
fn simulate_on<L: SerialLine + CountedLine, R: Wait>(
    rt: &R,
    sim: &mut Sim<L>,
    signals: &Signals,
) -> Result<(), Fault>
    ensures ended { OnOk result (IsSimulated L.seen sim.old sim.new) }
    ensures beyond { L.other_side sim.new.line ≡ L.other_side sim.old.line }
{
    for _ in rt.forever() {
        signals.check()?;
        let before = sim.line().moved();
        match sim.advance() {
            Some(given) => return ended(given),
            None => rest(rt, signals, sim.line().moved() != before),
        }
    }
    unreachable!()
}

/// What the simulated modem does in its thread. It is given back as it ended.
pub fn simulate<L: SerialLine + CountedLine + Drop, R: Wait>(
    rt: &R,
    sim: Sim<L>,
    signals: Signals,
) -> Result<Sim<L>, Fault>
    ensures { IfOk result (EndsAtLine L.seen L.other_side sim) }
{
    let mut sim = sim;
    let ended = simulate_on(rt, &mut sim, &signals);
    unless_failed(signals.or_give_up(rt, ended), sim)
}

/// The same simulated modem, once it has ended.
#[derive(Drop)]
pub struct Ending<L: SerialLine + Drop>(pub Snapshot<Sim<L>>);

impl<L: SerialLine + Drop> Promise<Result<Sim<L>, Fault>> for Ending<L> {
    ghost kept_by = { λ p r. IfOk r (EndsAtLine L.seen L.other_side p.0.value) };
}
