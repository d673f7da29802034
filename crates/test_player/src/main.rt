//! Plays scripts for tests, line by line, and prints what comes of each: a session on a line in memory, an endpoint, a simulated
//! modem at its end of a line, both on one line in one thread, both at two lines in memory in rounds, a modem's answers, typed
//! commands and their replies, lines of text, how frames are spelled, a desk by itself, or the entry into the multiplexer.
//!
//! The first lines say what the line and its ends are (see `Setup`), and end with one that says what is played: `session`,
//! `endpoint`, `sim`, `pair`, `rounds`, `modem`, `typed`, `texts`, `frames`, `desk` or `enter CALLS`. A line that isn't read as one of
//! these ends it with `bad line N` and status 2.
//!
//! Behind a line that is ASCII's file separator alone (FS, 0x1C) another script begins. Once it begins, FS and the status of the
//! script before it stand on a line of standard output, and on one of standard error.
#![tactic(auto)]

mod desks;
mod endpoints;
mod frames;
mod holding;
mod lines;
mod modems;
mod near;
mod pairs;
mod printing;
mod rounds;
mod sessions;
mod setup;
mod sims;
mod texts;
mod typed;
mod words;

use ctl_run::{Stop, give_up};
use lines::{Host, Lines, play_all, play_by};
use setup::Setup;
use std::io::Write;
use std::process::ExitCode;
use words::{BAD, number, split};

/// What is played on one line or two.
fn play<R: Host>(lines: &mut Lines<R>, setup: &mut Setup) -> Result<(), Stop> {
    match lines.line() {
        "session" => play_by::<R, sessions::Played<R>>(lines, setup),
        "endpoint" => play_by::<R, endpoints::Played<R>>(lines, setup),
        "sim" => play_by::<R, sims::Played<R>>(lines, setup),
        "pair" => play_by::<R, pairs::Pair<R>>(lines, setup),
        "rounds" => play_by::<R, rounds::Rounds<R>>(lines, setup),
        _ => play_other(lines, setup),
    }
}

/// What is played without one.
fn play_other<R: Host>(lines: &mut Lines<R>, setup: &mut Setup) -> Result<(), Stop> {
    match lines.line() {
        "modem" => play_by::<R, modems::Played<R>>(lines, setup),
        "typed" => play_by::<R, typed::Played<R>>(lines, setup),
        "texts" => play_by::<R, texts::Played<R>>(lines, setup),
        "frames" => play_by::<R, frames::Played<R>>(lines, setup),
        "desk" => desks::play(&lines.rt, setup),
        _ => play_entry(lines, setup),
    }
}

fn play_entry<R: Host>(lines: &Lines<R>, setup: &Setup) -> Result<(), Stop> {
    match split(lines.line()) {
        ("enter", calls) => sessions::enter_line(&lines.rt, setup, number(calls)?),
        _ => Err(BAD),
    }
}

/// Takes the first lines, and plays what the last of them says.
fn run<R: Host>(lines: &mut Lines<R>) -> Result<(), Stop> {
    let mut setup = Setup::new(lines.rt.alloc());
    run_with(lines, &mut setup)
}

fn run_with<R: Host>(lines: &mut Lines<R>, setup: &mut Setup) -> Result<(), Stop> {
    if !play_all(lines, setup)? {
        return Err(BAD);
    }
    play(lines, setup)
}

/// Names a bad line, and gives the status. A line of a player isn't one of `modemctl`, so it isn't said what of it is bad.
fn refuse<E: Write>(faults: &mut E, place: u64) -> u8 {
    let _ = writeln!(faults, "bad line {place}");
    2
}

/// Plays a script, and gives its status.
fn play_script<R: Host, E: Write>(lines: &mut Lines<R>, faults: &mut E) -> u8 {
    match run(lines) {
        Ok(()) => 0,
        Err(Stop::BadLine(..)) => refuse(faults, lines.place()),
        Err(stop) => give_up(faults, stop),
    }
}

/// Plays each script, and gives the status of the last one.
fn play_each<R: Host, E: Write>(lines: &mut Lines<R>, faults: &mut E) -> u8 {
    let rt = lines.rt;
    for _ in rt.forever() {
        let status = play_script(lines, faults);
        if !lines.next_script() {
            return status;
        }
        let _ = rt.println(format_args!("\u{1c}{status}"));
        let _ = writeln!(faults, "\u{1c}{status}");
    }
    unreachable!()
}

fn main(rt: HostRuntime) -> ExitCode {
    ExitCode::from(play_each(&mut Lines::new(rt), &mut rt.stderr()))
}
