//! A session and a simulated modem, each at one of two lines in memory, in one thread and in rounds.
use crate::lines::{Begins, Host, Player};
use crate::near::Near;
use crate::setup::Setup;
use crate::sims::made;
use ctl_run::Stop;
use modem_bench::{Cause, Rest, run_in_rounds};
use modem_sim::Sim;
use results::beside;
use serial_line::{CutLine, LineError};
use std::alloc::Global;

/// How many octets each of the two may send in all.
const ROOM: usize = 65536;

/// The most rounds in a row.
const ROUNDS: usize = 1_000_000;

/// Both ends. What they read beside the lines of `Near`: `run` has them make rounds until both have nothing to do.
#[derive(Drop)]
pub struct Rounds<R: Host> {
    near: Near<CutLine, R>,
    sim: Sim<CutLine>,
    /// How many octets a round carries each way at most.
    cut: usize,
}

impl<R: Host> Rounds<R> {
    fn run(&mut self) -> Result<(), Stop> {
        match run_in_rounds(
            &mut self.near.session,
            &mut self.sim,
            self.cut,
            ROOM,
            ROUNDS,
        ) {
            Ok(Rest::Still) => Ok(()),
            Ok(Rest::UsedUp) => Err(Stop::GaveUp(Cause::UsedUp)),
            Ok(Rest::Full) | Err(_) => Err(Stop::Line),
        }
    }
}

impl<R: Host> Player for Rounds<R> {
    fn go(&mut self, line: &str) -> Result<bool, Stop> {
        match line {
            "run" => self.run()?,
            _ => self.near.go(line)?,
        }
        Ok(false)
    }
}

/// A line without input.
fn line(alloc: Global) -> Result<CutLine, Stop> {
    match CutLine::new(alloc, &[], &[], &[], ROOM) {
        Ok(line) => Ok(line),
        Err(LineError::NoMemory | LineError::BadRoom) => Err(Stop::NoMemory),
    }
}

impl<R: Host> Begins<R> for Rounds<R> {
    fn begin(rt: R, setup: &mut Setup) -> Result<Rounds<R>, Stop> {
        let far = line(setup.alloc)?;
        let sim = made(far, setup)?;
        let (one, sim) = beside(line(setup.alloc), sim)?;
        let (near, sim) = beside(Near::new(rt, one, setup), sim)?;
        Ok(Rounds {
            near,
            sim,
            cut: setup.room,
        })
    }
}
