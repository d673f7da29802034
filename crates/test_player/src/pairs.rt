//! A session and a simulated modem at the two ends of one line, in one thread.
use crate::lines::{Begins, Host, Player};
use crate::near::Near;
use crate::setup::Setup;
use crate::sims::made;
use crate::words::BAD;
use ctl_run::Stop;
use modem_bench::Cause;
use modem_driver::Turn;
use modem_sim::{Sim, SimTurn};
use results::beside;
use serial_line::{LineError, ThreadLine};

/// The most turns of each in a row.
const TURNS: u32 = 1_000_000;

/// Both ends. What they read beside the lines of `Near`: `run` has both turn, the modem first, until neither moves.
#[derive(Drop)]
pub struct Pair<R: Host> {
    near: Near<ThreadLine, R>,
    sim: Sim<ThreadLine>,
}

impl<R: Host> Pair<R> {
    /// A turn of each: whether either moved.
    fn turn(&mut self) -> Result<bool, Stop> {
        let Ok(far) = self.sim.turn() else {
            return Err(Stop::Line);
        };
        let Ok(near) = self.near.session.turn() else {
            return Err(Stop::Line);
        };
        Ok(matches!(near, Turn::Moved) || matches!(far, SimTurn::Moved))
    }

    fn run(&mut self) -> Result<(), Stop> {
        for _ in 0..TURNS {
            if !self.turn()? {
                return Ok(());
            }
        }
        Err(Stop::GaveUp(Cause::UsedUp))
    }
}

impl<R: Host> Player for Pair<R> {
    fn go(&mut self, line: &str) -> Result<bool, Stop> {
        match line {
            "run" => self.run()?,
            _ => self.near.go(line)?,
        }
        Ok(false)
    }
}

/// The two ends of a line.
fn ends(setup: &Setup) -> Result<(ThreadLine, ThreadLine), Stop> {
    match ThreadLine::pair(setup.alloc, setup.room) {
        Ok(ends) => Ok(ends),
        Err(LineError::BadRoom) => Err(BAD),
        Err(LineError::NoMemory) => Err(Stop::NoMemory),
    }
}

impl<R: Host> Begins<R> for Pair<R> {
    fn begin(rt: R, setup: &mut Setup) -> Result<Pair<R>, Stop> {
        let (one, other) = ends(setup)?;
        let (sim, one) = beside(made(other, setup), one)?;
        let (near, sim) = beside(Near::new(rt, one, setup), sim)?;
        Ok(Pair { near, sim })
    }
}
