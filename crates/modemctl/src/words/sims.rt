//! The options of `sim`.
ghost use Rattle.std.specs.Prelude.{◌≡◌, ◌<◌, ◌≤◌, IfErr, IfOk, OnOk, codes, false};
ghost use Rattle.clap.specs.Words.{first_value, found_of, one_text, rule_of};
ghost use Rattle.modemctl.specs.Benches.{AreMatched, IsFlag};
ghost use Rattle.modemctl.specs.Sims.{SaysBadFile, SaysNotBegun, files_matched};
ghost use Rattle.modemctl.specs.Words.{echo_rule, pin_rule};

use crate::words::answers::answers_of;
use crate::words::files::steps_of;
use crate::words::options::{flag_option, text_option};
use crate::words::text_files::TextFiles;
use at_cmds::Pin;
use clap::{Arg, ArgAction, ArgMatches};
use ctl_run::{Stop, give_up};
use ctl_sim::SimOptions;
use std::alloc::{AllocError, Global};
use std::io::Write;

/// The option `--pin`.
pub fn pin_option<'a>(alloc: Global) -> Arg<'a>
    ensures rule { rule_of result ≡ pin_rule }
    ensures own { result.global ≡ false }
{
    text_option(
        alloc,
        "pin",
        "PIN",
        "The PIN that its SIM wants, 4 to 8 digits",
        ArgAction::Set,
    )
}

/// The option `--echo`.
pub fn echo_option<'a>(alloc: Global) -> Arg<'a>
    ensures rule { rule_of result ≡ echo_rule }
    ensures own { result.global ≡ false }
{
    flag_option(alloc, "echo", "Repeat commands, until an ATE0")
}

/// The PIN that the words give, if they give one.
fn pin_of(alloc: Global, matches: &ArgMatches<'_>) -> Result<Option<Pin>, AllocError>
    ensures { IfOk result (λ pin. pin ≡ first_value (found_of matches.now) (codes "pin")) }
{
    match matches.get_str("pin") {
        Some(pin) => Ok(Some(Pin::from(Vec::from_slice(alloc, pin.as_bytes())?))),
        None => Ok(None),
    }
}

/// Whether commands are repeated.
fn echo_of(matches: &ArgMatches<'_>) -> bool
    ensures { IsFlag (one_text (found_of matches.now) (codes "echo")) result }
{
    matches.get_flag("echo")
}

/// The options that the words give a modem for a client, with the steps and the answers of the files that they name. Where these can't be
/// had it says why, and gives the status.
pub fn sim_options_of<R: TextFiles, E: Write>(
    rt: &R,
    alloc: Global,
    matches: &ArgMatches<'_>,
    n1: u16,
    faults: &mut E,
) -> Result<SimOptions, u8>
    ensures matched { IfOk result (AreMatched (R.text_of rt.now) n1 matches.now) }
    ensures silent { OnOk result (faults.new ≡ faults.old) }
    ensures bad { IfErr result (λ status. (0 < status) × (status ≤ 2)) }
    ensures left { IfErr result (λ status. status ≡ 1
        → SaysNotBegun (files_matched matches.now) (E.contents faults.old) (E.contents faults.new)) }
    ensures told { IfErr result (λ status. status ≡ 2
        → SaysBadFile (R.text_of rt.now) (files_matched matches.now) (E.contents faults.old) (E.contents faults.new)) }
{
    let Ok(pin) = pin_of(alloc, matches) else {
        return Err(give_up(faults, Stop::NoMemory));
    };
    let steps = match steps_of(rt, alloc, matches, faults) {
        Ok(steps) => steps,
        Err(status) => return Err(status),
    };
    let answers = match answers_of(rt, alloc, matches, faults) {
        Ok(answers) => answers,
        Err(status) => return Err(status),
    };
    Ok(SimOptions {
        n1,
        pin,
        echo: echo_of(matches),
        steps,
        answers,
    })
}
