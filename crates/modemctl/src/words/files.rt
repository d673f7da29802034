//! The files of `sim`: the script of its modem, and the capture.
ghost use Rattle.std.specs.Prelude.{◌≡◌, ℕ, ◌<◌, ◌≤◌, ◌++◌, IfErr, IfOk, List, OnOk, Option, Some, codes, false, true};
ghost use Rattle.std.specs.Fmt.{decimal};
ghost use Rattle.clap.specs.Words.{first_value, found_of, rule_of};
ghost use Rattle.ctl_text.specs.LineFaults.{bad_line, reason_line};
ghost use Rattle.ctl_text.specs.Writing.{IsBegun};
ghost use Rattle.modemctl.specs.Benches.{AreScripted};
ghost use Rattle.modemctl.specs.Captures.{HasBegunWith, SaysNoCapture};
ghost use Rattle.modemctl.specs.Files.{IsNoText};
ghost use Rattle.modemctl.specs.Sims.{IsOfScript, SaysBadStep, bad_step_of};
ghost use Rattle.modemctl.specs.Words.{capture_rule, script_rule};

use crate::words::file_faults::{FileFault, refuse_file, refuse_text};
use crate::words::options::text_option;
use crate::words::text_files::{TextFault, TextFiles};
use clap::{Arg, ArgAction, ArgMatches};
use ctl_run::{Expected, Stop, steps_from};
use ctl_text::{say_bad_line, say_line};
use itoa::Buffer;
use modem_sim::Steps;
use mux_capture::Capture;
use std::alloc::Global;
use std::fs::File;
use std::io::{ErrorKind, Write};
use std::rt::Files;

/// The option `--script`.
pub fn script_option<'a>(alloc: Global) -> Arg<'a>
    ensures rule { rule_of result ≡ script_rule }
    ensures own { result.global ≡ false }
{
    text_option(
        alloc,
        "script",
        "FILE",
        "What the modem does of its own accord: a line for each step, as: 2 announce 1 RING",
        ArgAction::Set,
    )
}

/// The option `--capture`.
pub fn capture_option<'a>(alloc: Global) -> Arg<'a>
    ensures rule { rule_of result ≡ capture_rule }
    ensures own { result.global ≡ false }
{
    text_option(
        alloc,
        "capture",
        "FILE",
        "Writes the frames that pass to this file, for Wireshark",
        ArgAction::Set,
    )
}

/// The steps of the script of this path.
fn steps_at<R: TextFiles>(rt: &R, alloc: Global, path: &str) -> Result<Steps, TextFault>
    ensures given { IfOk result (AreScripted (R.text_of rt.now) (Some path.now)) }
    ensures refused { IfErr result (IsOfScript (R.text_of rt.now path.now)) }
{
    let mut file = match rt.open_text(path) {
        Ok(file) => file,
        Err(error) => return Err(TextFault::Closed(error.kind())),
    };
    match steps_from(alloc, &mut file) {
        Ok(steps) => Ok(steps),
        Err(stop) => Err(TextFault::Stopped(stop)),
    }
}

/// Names a bad line of a script, and on a second line says what has to stand there.
fn say_bad_step<E: Write>(faults: &mut E, place: u64, why: Expected)
    ensures { IsBegun (E.contents faults.old) (E.contents faults.new)
        (bad_line (decimal place) ++ reason_line (codes "the script: ") why) }
{
    let mut digits = Buffer::new();
    say_bad_line(faults, digits.format(place), "the script: ", why);
}

/// The bad line of a script, where that is the fault: its number, and what has to stand there.
fn bad_step_of(fault: TextFault) -> Option<(u64, Expected)>
    ensures { result ≡ bad_step_of fault }
{
    match fault {
        TextFault::Stopped(Stop::BadLine(place, why)) => Some((place, why)),
        _ => None,
    }
}

/// Says why the script of this path gives no steps, with the reason on a second line, and gives the status.
fn refuse_script<E: Write>(alloc: Global, faults: &mut E, path: &str, fault: TextFault) -> u8
    ensures some { 0 < result }
    ensures status { result ≤ 2 }
    ensures said { result ≡ 1 → IsNoText true (codes "script") (Some path.now) (E.contents faults.old) (E.contents faults.new) result }
    ensures told { result ≡ 2 → (texts : List ℕ → Option (List ℕ)) → IsOfScript (texts path.now) fault
        → SaysBadStep texts (Some path.now) (E.contents faults.old) (E.contents faults.new) }
{
    let Some((place, why)) = bad_step_of(fault) else {
        return refuse_text(alloc, faults, "script", path, fault, true);
    };
    say_bad_step(faults, place, why);
    2
}

/// The steps of the script of this path. Where it gives none it says why, with the reason on a second line, and gives the status.
fn steps_by<R: TextFiles, E: Write>(
    rt: &R,
    alloc: Global,
    path: &str,
    faults: &mut E,
) -> Result<Steps, u8>
    ensures given { IfOk result (AreScripted (R.text_of rt.now) (Some path.now)) }
    ensures silent { OnOk result (faults.new ≡ faults.old) }
    ensures bad { IfErr result (λ status. (0 < status) × (status ≤ 2)) }
    ensures refused { IfErr result (λ status. status ≡ 1 → IsNoText true (codes "script") (Some path.now) (E.contents faults.old) (E.contents faults.new) status) }
    ensures told { IfErr result (λ status. status ≡ 2
        → SaysBadStep (R.text_of rt.now) (Some path.now) (E.contents faults.old) (E.contents faults.new)) }
{
    match steps_at(rt, alloc, path) {
        Ok(steps) => Ok(steps),
        Err(fault) => Err(refuse_script(alloc, faults, path, fault)),
    }
}

/// The steps of the script that the words name; none where they name none. Where it gives none it says why, and gives the status.
pub fn steps_of<R: TextFiles, E: Write>(
    rt: &R,
    alloc: Global,
    matches: &ArgMatches<'_>,
    faults: &mut E,
) -> Result<Steps, u8>
    ensures given { IfOk result (AreScripted (R.text_of rt.now) (first_value (found_of matches.now) (codes "script"))) }
    ensures silent { OnOk result (faults.new ≡ faults.old) }
    ensures bad { IfErr result (λ status. (0 < status) × (status ≤ 2)) }
    ensures refused { IfErr result (λ status. status ≡ 1 → IsNoText true (codes "script") (first_value (found_of matches.now) (codes "script"))
        (E.contents faults.old) (E.contents faults.new) status) }
    ensures told { IfErr result (λ status. status ≡ 2 → SaysBadStep (R.text_of rt.now) (first_value (found_of matches.now) (codes "script"))
        (E.contents faults.old) (E.contents faults.new)) }
{
    match matches.get_str("script") {
        Some(path) => steps_by(rt, alloc, path, faults),
        None => Ok(Steps::from(Vec::new(alloc))),
    }
}

/// Why there is no capture.
#[derive(Drop)]
pub enum NoCapture {
    /// Its file can't be made.
    Closed(ErrorKind),
    /// Its head can't be written.
    Unwritten,
}

/// A capture into the file of this path, which reads frames by this N1. The file is made, or emptied where there is one.
pub fn capture_at<R: Files<File = File>>(
    rt: &R,
    alloc: Global,
    path: &str,
    n1: u16,
) -> Result<Capture<File>, NoCapture>
    ensures { IfOk result (HasBegunWith n1) }
{
    match File::create(rt, path) {
        Ok(file) => match Capture::with_n1(alloc, file, n1) {
            Ok(capture) => Ok(capture),
            Err(_) => Err(NoCapture::Unwritten),
        },
        Err(error) => Err(NoCapture::Closed(error.kind())),
    }
}

/// Says why there is no capture at this path, and gives the status.
pub fn refuse_capture<E: Write>(alloc: Global, faults: &mut E, path: &str, fault: NoCapture) -> u8
    ensures status { result ≡ 1 }
    ensures said { SaysNoCapture fault path.now (E.contents faults.old) (E.contents faults.new) }
{
    match fault {
        NoCapture::Closed(kind) => {
            let fault = FileFault::Unmade(kind);
            refuse_file(alloc, faults, "fault: ", "capture", path, fault)
        }
        NoCapture::Unwritten => {
            say_line(faults, "fault: capture", "", "");
            1
        }
    }
}
