//! Callers of these crates, to be copied: one in each file, each proved and run.
#![tactic(auto)]

mod calling;
mod crew;
mod desk;
mod dialect;
mod driving;
mod first;
mod frames;
mod holding;
mod own_codes;
mod own_line;
mod own_modem;
mod polled;
mod session;
mod settling;
mod simulating;
mod threads;
mod typed;

use crate::calling::Came;
use crate::typed::print_signal;
use at_text::{DialectError, TextError};
use modem_driver::{RequestError, RequestRefused, SessionError};
use modem_sim::SimError;
use std::alloc::{AllocError, AllocFailed, AllocGlobal, Global};
use std::io::Print;
use std::process::ExitCode;
use std::random::RandomSource;
use std::rt::Clock;
use std::sync::Wait;
use std::thread::Threads;

/// Why a use ends early.
#[derive(Clone, Copy, Debug)]
pub enum Stop {
    NoMemory,
    /// Something else than the use expects.
    Unexpected,
}

impl From<AllocError> for Stop {
    fn from(_why: AllocError) -> Stop {
        Stop::NoMemory
    }
}

impl<T: Drop> From<AllocFailed<T>> for Stop {
    fn from(_why: AllocFailed<T>) -> Stop {
        Stop::NoMemory
    }
}

impl From<RequestError> for Stop {
    fn from(_why: RequestError) -> Stop {
        Stop::NoMemory
    }
}

impl From<RequestRefused> for Stop {
    fn from(_refused: RequestRefused) -> Stop {
        Stop::NoMemory
    }
}

impl From<SessionError> for Stop {
    fn from(_why: SessionError) -> Stop {
        Stop::NoMemory
    }
}

impl From<SimError> for Stop {
    fn from(_why: SimError) -> Stop {
        Stop::NoMemory
    }
}

impl From<TextError> for Stop {
    fn from(_why: TextError) -> Stop {
        Stop::NoMemory
    }
}

impl From<DialectError> for Stop {
    fn from(_why: DialectError) -> Stop {
        Stop::NoMemory
    }
}

/// Prints what two callers were told and a listener heard.
fn print_came<R: Print>(rt: &R, alloc: Global, came: &Came) -> Result<(), Stop> {
    let (Some(one), Some(two), Some(line)) = (&came.first, &came.second, &came.line) else {
        return Err(Stop::Unexpected);
    };
    print_signal(rt, alloc, one)?;
    print_signal(rt, alloc, two)?;
    let _ = rt.println(format_args!("{:?} on {}", line.kind, line.dlci.number()));
    Ok(())
}

/// A session, its callers and a listener in threads.
fn run_threads<R>(rt: &R, alloc: Global) -> Result<(), Stop>
where
    R: Threads + Wait + Clock + Print + Sync + Send + Copy + Drop,
{
    let came = session::run(rt, alloc)?;
    print_came(rt, alloc, &came)
}

/// A session and its caller in one thread.
fn run_polled<R>(rt: &R, alloc: Global) -> Result<(), Stop>
where
    R: Wait + RandomSource + AllocGlobal + Print + Copy + Drop,
{
    let answer = polled::run(rt, alloc)?;
    print_signal(rt, alloc, &answer)
}

fn run<R>(rt: &R, alloc: Global) -> Result<(), Stop>
where
    R: Threads + Wait + Clock + RandomSource + AllocGlobal + Print + Sync + Send + Copy + Drop,
{
    typed::run(rt, alloc)?;
    own_codes::run(rt, alloc)?;
    run_threads(rt, alloc)?;
    run_polled(rt, alloc)?;
    own_line::run(rt, alloc)?;
    frames::run(rt, alloc)?;
    desk::run(rt, alloc)
}

fn main(rt: HostRuntime) -> ExitCode {
    match run(&rt, rt.alloc()) {
        Ok(()) => ExitCode::SUCCESS,
        Err(stop) => {
            let _ = rt.eprintln(format_args!("{stop:?}"));
            ExitCode::FAILURE
        }
    }
}
