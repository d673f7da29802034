//! `modemctl` drives a cellular modem on a terminal, is one for any client, and shows the driver at work: what octets of the line
//! are read as, what the driver does with requests and octets, and what callers in threads are told by a simulated modem.
#![tactic(auto)]

pub mod laws;
mod words;

pub use ctl_drive::drive_run;
pub use ctl_run::{
    bench_run, bench_run_explained, frames_run, frames_run_explained, replay_run,
    replay_run_explained, replay_with_dialect_run, replay_with_dialect_run_explained,
};
use ctl_run::{Stop, give_up};
pub use ctl_sim::sim_run;
use show_texts::Progress;
use std::env;
use std::io::{ErrorKind, IsTerminal};
use std::process::ExitCode;

fn main(rt: HostRuntime) -> ExitCode {
    let mut faults = rt.stderr();
    let terminal = faults.is_terminal();
    let mut progress = Progress::new(rt.stderr(), terminal);
    let arguments = match env::args(&rt) {
        Ok(arguments) => arguments.collect::<Vec<String>>(rt.alloc()),
        Err(error) if error.kind() == ErrorKind::InvalidData => {
            let _ = rt.eprintln("error: a word is not UTF-8");
            return ExitCode::from(2);
        }
        Err(_) => Err(std::alloc::AllocError),
    };
    let status = match arguments {
        Ok(words) => words::run(
            &rt,
            rt.alloc(),
            words.as_slice(),
            &mut rt.stdin(),
            rt.stdin(),
            &mut rt.stdout(),
            &mut faults,
            &mut progress,
            terminal,
        ),
        Err(_) => give_up(&mut faults, Stop::NoMemory),
    };
    ExitCode::from(status)
}
