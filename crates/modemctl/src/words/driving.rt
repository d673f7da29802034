//! The words of a drive.
ghost use Rattle.std.specs.Prelude.{◌≡◌, ◌<◌, ◌≤◌, ◌⊎◌, ◌*◌, IfErr, IfOk, IsErr, OnOk, codes, false, is_some, true};
ghost use Rattle.std.specs.Duration.{as_nanos};
ghost use Rattle.clap.specs.Words.{app_of, first_value, found_of, one_text, rule_of};
ghost use Rattle.ctl_drive.specs.Driving.{period_of};
ghost use Rattle.ctl_drive.specs.Entry.{entry_for, given_text};
ghost use Rattle.ctl_run.specs.Statuses.{stop_line};
ghost use Rattle.ctl_run.specs.declared.stop.Stop.TheVariants as StopOf;
ghost use Rattle.ctl_text.specs.Writing.{IsBegun};
ghost use Rattle.modemctl.specs.Dialects.{IsShut};
ghost use Rattle.modemctl.specs.Drives.{DrivesWith, IsDriveDialect, IsTick, RanWith};
ghost use Rattle.modemctl.specs.Files.{IsNoText, NamesCause};
ghost use Rattle.modemctl.specs.Refusals.{EndsDriven, SaysUndriven};
ghost use Rattle.modemctl.specs.Shows.{given_for};
ghost use Rattle.modemctl.specs.Words.{device_rule, drive_app, entry_rule, is_set, quiet_rule, tick_rule};

use crate::words::commands::{add, new_command};
use crate::words::data_paths::{
    arm_of, arm_option, data_path_option, data_paths_of, refuse_data, text_path_option,
    with_connect,
};
use crate::words::dialects::{dialect_option, given_dialect};
use crate::words::files::capture_option;
use crate::words::numbers::{number_of, seconds_of};
use crate::words::options::{n1_option, needed_word, number_option, text_option};
use crate::words::text_files::TextFiles;
use crate::words::{help, refuse};
use at_text::Dialect;
use clap::{Arg, ArgAction, ArgMatches, Command};
use ctl_drive::{Settings, drive_data_run, drive_run};
use std::alloc::{AllocError, AllocGlobal, Global};
use std::fs::File;
use std::io::{Read, Write};
use std::rt::{Clock, Files};
use std::sync::Wait;
use std::thread::Threads;
use std::time::Duration;

/// T1 in milliseconds where no word gives it (27.010, 5.7.1).
const DEFAULT_TICK: u16 = 100;

/// The option `--tick`.
fn tick_option<'a>(alloc: Global) -> Arg<'a>
    ensures rule { rule_of result ≡ tick_rule }
    ensures own { result.global ≡ false }
{
    number_option(
        alloc,
        "tick",
        "MS",
        "Milliseconds from tick to tick, 10 to 60000",
        10,
        60000,
    )
    .default_value("100")
}

/// The option `--quiet-for`.
fn quiet_option<'a>(alloc: Global) -> Arg<'a>
    ensures rule { rule_of result ≡ quiet_rule }
    ensures own { result.global ≡ false }
{
    number_option(
        alloc,
        "quiet-for",
        "SECONDS",
        "Closes a connection whose command has no answer for so long, 1 to 60000 (default 120)",
        1,
        60000,
    )
}

/// The option `--entry`.
fn entry_option<'a>(alloc: Global) -> Arg<'a>
    ensures rule { rule_of result ≡ entry_rule }
    ensures own { result.global ≡ false }
{
    text_option(
        alloc,
        "entry",
        "TEXT",
        "What enters the multiplexer, in place of AT+CMUX=0",
        ArgAction::Set,
    )
}

/// The word for the device.
fn device_word<'a>(alloc: Global) -> Arg<'a>
    ensures rule { rule_of result ≡ device_rule }
    ensures own { result.global ≡ false }
{
    needed_word(
        alloc,
        "device",
        "DEVICE",
        "The terminal that the modem is on",
    )
}

/// The subcommand that drives a modem.
pub fn drive_command<'a>(alloc: Global) -> Result<Command<'a>, AllocError>
    ensures { IfOk result (λ c. app_of c ≡ drive_app) }
{
    let about = "Drives a modem on a terminal";
    let made = Ok(new_command(alloc, "drive", about, help::DRIVE));
    let made = add(made, n1_option(alloc));
    let made = add(made, tick_option(alloc));
    let made = add(made, quiet_option(alloc));
    let made = add(made, entry_option(alloc));
    let made = add(made, dialect_option(alloc));
    let made = add(made, capture_option(alloc));
    let made = add(made, data_path_option(alloc, help::DRIVE_DATA));
    let made = add(made, arm_option(alloc));
    let made = add(made, text_path_option(alloc));
    add(made, device_word(alloc))
}

/// The time from tick to tick, and how long a connection may be without an answer.
#[derive(Clone, Copy)]
struct Times {
    tick: Duration,
    quiet_for: Option<Duration>,
}

#[tactic(auto, using(crate::proofs::DriveTicks::ticks_of))]
/// The times that the words give. Refused: the option of which the text is no number.
fn times_of(matches: &ArgMatches<'_>) -> Result<Times, &'static str>
    ensures { IfOk result (λ times. IsTick (one_text (found_of matches.now) (codes "tick")) (as_nanos times.tick)) }
{
    let Ok(tick) = number_of(matches, "tick", DEFAULT_TICK) else {
        return Err("tick");
    };
    let Ok(quiet_for) = seconds_of(matches, "quiet-for") else {
        return Err("quiet-for");
    };
    Ok(Times {
        tick: Duration::from_millis(u64::from(tick)),
        quiet_for: quiet_for.map(|seconds| Duration::from_secs(u64::from(seconds))),
    })
}

#[tactic(auto, using(crate::proofs::Refused::no_text_one, crate::proofs::Refused::memory_one))]
/// The codes of the drive that the words give: where data begins behind a CONNECT line, a line that begins so ends a command too. Where
/// they can't be had it says why, and gives the status.
fn drive_dialect<R: TextFiles, E: Write>(
    rt: &R,
    alloc: Global,
    matches: &ArgMatches<'_>,
    faults: &mut E,
) -> Result<Dialect, u8>
    ensures given { IfOk result (IsDriveDialect (R.text_of rt.now) (first_value (found_of matches.now) (codes "dialect"))
        (is_set (first_value (found_of matches.now) (codes "arm")))) }
    ensures silent { OnOk result (faults.new ≡ faults.old) }
    ensures bad { IfErr result (λ status. (0 < status) × (status ≤ 2)) }
    ensures shut { IsShut (R.is_shut rt.now) (first_value (found_of matches.now) (codes "dialect")) → IsErr result }
    ensures refused { IsShut (R.is_shut rt.now) (first_value (found_of matches.now) (codes "dialect")) → IfErr result
        (IsNoText true (codes "dialect") (first_value (found_of matches.now) (codes "dialect")) (E.contents faults.old)
        (E.contents faults.new)) }
    ensures said { IfErr result (λ status. status ≡ 1
        → IsNoText true (codes "dialect") (first_value (found_of matches.now) (codes "dialect")) (E.contents faults.old)
        (E.contents faults.new) 1) }
{
    let dialect = given_dialect(rt, alloc, matches, faults, true)?;
    if arm_of(matches) {
        with_connect(dialect, faults)
    } else {
        Ok(dialect)
    }
}

#[tactic(auto, using(crate::proofs::Refused::ends_alone, crate::proofs::Refused::ends_with))]
/// Drives a modem on the device of this path, with the files that the words name beside connections. Texts that give none are refused
/// before the device is opened.
fn drive_on<R, I, W, E>(
    rt: &R,
    matches: &ArgMatches<'_>,
    path: &str,
    input: I,
    output: &mut W,
    faults: &mut E,
    settings: Settings<'_>,
) -> u8
where
    R: Files<File = File> + Threads + Wait + Clock + AllocGlobal + Copy + Send + Drop + 'static,
    I: Read + Send + Drop + 'static,
    W: Write,
    E: Write,
    ensures status { result ≤ 2 }
    ensures done { result ≡ 0 → RanWith matches.now (is_some (given_text settings.entry.capture)) settings.entry.dialect.now
        (entry_for (given_text settings.entry.entry) settings.entry.n1) settings.entry.n1
        (period_of (as_nanos settings.entry.tick)) (W.contents output.old)
        (W.contents output.new) (E.contents faults.old) (E.contents faults.new) false }
    ensures bad { result ≡ 2 → (output.new ≡ output.old)
        ⊎ RanWith matches.now (is_some (given_text settings.entry.capture)) settings.entry.dialect.now
        (entry_for (given_text settings.entry.entry) settings.entry.n1) settings.entry.n1
        (period_of (as_nanos settings.entry.tick)) (W.contents output.old)
        (W.contents output.new) (E.contents faults.old) (E.contents faults.new) true }
    ensures fault { result ≡ 1 → IsBegun (E.contents faults.old) (E.contents faults.new) (stop_line StopOf.NoMemory)
        ⊎ EndsDriven path.now (given_text settings.entry.capture) (first_value (found_of matches.now) (codes "arm"))
        (given_for matches.now (codes "data")) (given_for matches.now (codes "text")) (E.contents faults.old) (E.contents faults.new) }
{
    let data = match data_paths_of(rt.alloc(), matches) {
        Ok(data) => data,
        Err(fault) => return refuse_data(faults, "--data and --text take", fault),
    };
    if data.is_empty() {
        return drive_run(rt, path, input, output, faults, settings);
    }
    drive_data_run(rt, path, data.as_slice(), input, output, faults, settings)
}

/// Drives a modem on the device that the words name. A number that isn't one and a dialect that isn't had are refused before the
/// device is opened.
pub fn drive_words<R, I, W, E>(
    rt: &R,
    matches: &ArgMatches<'_>,
    n1: u16,
    input: I,
    output: &mut W,
    faults: &mut E,
) -> u8
where
    R: Files<File = File>
        + TextFiles
        + Threads
        + Wait
        + Clock
        + AllocGlobal
        + Copy
        + Send
        + Drop
        + 'static,
    I: Read + Send + Drop + 'static,
    W: Write,
    E: Write,
    ensures status { result ≤ 2 }
    ensures done { result ≡ 0 → DrivesWith (R.text_of rt.now) n1 matches.now (W.contents output.old) (W.contents output.new)
        (E.contents faults.old) (E.contents faults.new) false }
    ensures bad { result ≡ 2
        → (output.new ≡ output.old) ⊎ DrivesWith (R.text_of rt.now) n1 matches.now (W.contents output.old) (W.contents output.new)
        (E.contents faults.old) (E.contents faults.new) true }
    ensures shut { IsShut (R.is_shut rt.now) (first_value (found_of matches.now) (codes "dialect"))
        → (0 < result) × (output.new ≡ output.old) }
    ensures fault { result ≡ 1 → SaysUndriven (first_value (found_of matches.now) (codes "dialect"))
        (first_value (found_of matches.now) (codes "device")) (first_value (found_of matches.now) (codes "capture"))
        (first_value (found_of matches.now) (codes "arm")) (given_for matches.now (codes "data"))
        (given_for matches.now (codes "text")) (E.contents faults.old) (E.contents faults.new) }
    ensures unread { IsShut (R.is_shut rt.now) (first_value (found_of matches.now) (codes "dialect")) → result ≡ 1
        → NamesCause true (first_value (found_of matches.now) (codes "dialect")) output.old output.new (E.contents faults.old)
        (E.contents faults.new) result }
{
    let Some(path) = matches.get_str("device") else {
        return 2;
    };
    let times = match times_of(matches) {
        Ok(times) => times,
        Err(option) => return refuse(faults, option),
    };
    match drive_dialect(rt, rt.alloc(), matches, faults) {
        Ok(dialect) => {
            let settings = Settings {
                n1,
                dialect: &dialect,
                entry: matches.get_str("entry"),
                data: &[],
                capture: matches.get_str("capture"),
                tick: times.tick,
                quiet_for: times.quiet_for,
            };
            drive_on(rt, matches, path, input, output, faults, settings)
        }
        Err(status) => status,
    }
}
