//! A simulated modem at its end of a line in memory.
use crate::lines::{Begins, Host, Player};
use crate::printing::{mark, poll, print_came, print_sent, wait};
use crate::setup::Setup;
use crate::words::{BAD, come, split};
use ctl_run::Stop;
use modem_sim::{Sim, SimError, SimTurn};
use serial_line::{CutLine, SerialLine};

/// The most turns in a row.
const TURNS: u32 = 1_000_000;

fn fault(why: SimError) -> Stop {
    match why {
        SimError::BadN1 => Stop::BadN1,
        _ => Stop::NoMemory,
    }
}

pub fn made<L: SerialLine + Drop>(line: L, setup: &mut Setup) -> Result<Sim<L>, Stop> {
    let modem = setup.modem()?;
    match Sim::new(setup.alloc, line, modem, setup.script(), setup.n1) {
        Ok(sim) => Ok(sim),
        Err(refused) => Err(fault(refused.why)),
    }
}

/// Turns as long as they move, also where memory was refused: what the last one answers.
fn turns(sim: &mut Sim<CutLine>) -> Result<SimTurn, SimError> {
    for _ in 0..TURNS {
        match sim.turn() {
            Ok(SimTurn::Moved) | Err(SimError::NoMemory) => {}
            other => return other,
        }
    }
    Ok(SimTurn::Moved)
}

/// A simulated modem, and how many octets were printed that it sent. What it reads: `in HEX`, `turn`, `run`, `poll`, `await`,
/// `marks` and `sent`, as a session does.
#[derive(Drop)]
pub struct Played<R: Host> {
    rt: R,
    sim: Sim<CutLine>,
    printed: usize,
    marks: bool,
}

impl<R: Host> Played<R> {
    fn run(&mut self) {
        mark(&self.rt, self.marks, "> Sim::turn");
        let turn = turns(&mut self.sim);
        mark(&self.rt, self.marks, "<");
        print_came(&self.rt, turn);
    }

    /// Takes a line of the script that is about octets.
    fn go_on(&mut self, line: &str) -> Result<(), Stop> {
        match line {
            "sent" => print_sent(&self.rt, self.sim.line_mut(), &mut self.printed),
            _ if split(line).0 == "in" => come(self.rt.alloc(), self.sim.line_mut(), line),
            _ => Err(BAD),
        }
    }
}

impl<R: Host> Player for Played<R> {
    fn go(&mut self, line: &str) -> Result<bool, Stop> {
        match line {
            "turn" => print_came(&self.rt, self.sim.turn()),
            "run" => self.run(),
            "poll" => poll(&self.rt, &mut self.sim)?,
            "await" => wait(&self.rt, &mut self.sim)?,
            "marks" => self.marks = true,
            _ => self.go_on(line)?,
        }
        Ok(false)
    }
}

impl<R: Host> Begins<R> for Played<R> {
    fn begin(rt: R, setup: &mut Setup) -> Result<Played<R>, Stop> {
        Ok(Played {
            rt,
            sim: made(setup.line()?, setup)?,
            printed: 0,
            marks: false,
        })
    }
}
