//! The words that the program takes: its subcommands, and their options.
ghost use Rattle.std.specs.Prelude.{◌≡◌, IfOk, false, true};
ghost use Rattle.clap.specs.Words.{App, Rule, app_of, new_app, rule_of, with_rule, with_subcommand};
ghost use Rattle.modemctl.specs.Words.{bench_app, frames_app, program_app, replay_app, sim_app, wanting_one};

use crate::words::answers::answers_option;
use crate::words::data_paths::data_path_option;
use crate::words::dialects::dialect_option;
use crate::words::driving::drive_command;
use crate::words::files::{capture_option, script_option};
use crate::words::help;
use crate::words::options::{callers_option, cut_option, n1_option};
use crate::words::reasons::explain_option;
use crate::words::showing::show_command;
use crate::words::sims::{echo_option, pin_option};
use clap::{Arg, Command};
use results::both;
use std::alloc::{AllocError, Global};

/// A command without options, with what its help says before and behind them.
pub fn new_command<'a>(alloc: Global, name: &'a str, about: &'a str, help: &'a str) -> Command<'a>
    ensures { app_of result ≡ new_app name.entry.now }
{
    Command::new(alloc, name).about(about).after_help(help)
}

/// The same command with one more option, which isn't global.
pub fn add<'a>(
    made: Result<Command<'a>, AllocError>,
    option: Arg<'a>,
) -> Result<Command<'a>, AllocError>
    requires { option.global ≡ false }
    ensures { (app : App) (rule : Rule) → rule_of option.entry ≡ rule → IfOk made.entry (λ c. app_of c ≡ app)
        → IfOk result (λ c. app_of c ≡ with_rule app rule) }
{
    match made {
        Ok(command) => command.arg(option),
        Err(refused) => Err(refused),
    }
}

/// The same program with one more subcommand.
fn add_subcommand<'a>(
    program: Result<Command<'a>, AllocError>,
    subcommand: Result<Command<'a>, AllocError>,
) -> Result<Command<'a>, AllocError>
    ensures { (app sub : App) → sub.top.is_plain ≡ true → IfOk program.entry (λ c. app_of c ≡ app)
        → IfOk subcommand.entry (λ c. app_of c ≡ sub) → IfOk result (λ c. app_of c ≡ with_subcommand app sub.top) }
{
    let (program, subcommand) = both(program, subcommand)?;
    program.subcommand(subcommand)
}

/// The subcommand that reads octets.
fn frames_command<'a>(alloc: Global) -> Result<Command<'a>, AllocError>
    ensures { IfOk result (λ c. app_of c ≡ frames_app) }
{
    let about = "Reads octets, written in hexadecimal, as frames";
    let made = Ok(new_command(alloc, "frames", about, help::FRAMES));
    let made = add(made, n1_option(alloc));
    add(made, explain_option(alloc))
}

/// The subcommand that replays a script.
fn replay_command<'a>(alloc: Global) -> Result<Command<'a>, AllocError>
    ensures { IfOk result (λ c. app_of c ≡ replay_app) }
{
    let about = "Says what the driver of a modem does with the events of a script";
    let made = Ok(new_command(alloc, "replay", about, help::REPLAY));
    let made = add(made, n1_option(alloc));
    let made = add(made, dialect_option(alloc));
    add(made, explain_option(alloc))
}

/// The subcommand that runs a bench.
fn bench_command<'a>(alloc: Global) -> Result<Command<'a>, AllocError>
    ensures { IfOk result (λ c. app_of c ≡ bench_app) }
{
    let about = "Has callers in threads share a simulated modem, and prints what they are told";
    let made = Ok(new_command(alloc, "bench", about, help::BENCH));
    let made = add(made, callers_option(alloc));
    let made = add(made, cut_option(alloc));
    add(made, explain_option(alloc))
}

/// The subcommand that is a modem.
fn sim_command<'a>(alloc: Global) -> Result<Command<'a>, AllocError>
    ensures { IfOk result (λ c. app_of c ≡ sim_app) }
{
    let about = "Is a modem on standard input and output, for any client";
    let made = Ok(new_command(alloc, "sim", about, help::SIM));
    let made = add(made, n1_option(alloc));
    let made = add(made, pin_option(alloc));
    let made = add(made, echo_option(alloc));
    let made = add(made, script_option(alloc));
    let made = add(made, answers_option(alloc));
    let made = add(made, capture_option(alloc));
    add(made, data_path_option(alloc, help::SIM_DATA))
}

/// The program without a subcommand.
fn bare_program<'a>(alloc: Global) -> Command<'a>
    ensures { app_of result ≡ wanting_one }
{
    let about = "The driver of a cellular modem, on the basic option of 3GPP TS 27.010";
    new_command(alloc, "modemctl", about, help::PROGRAM).subcommand_required(true)
}

/// The program with all of them.
pub fn program<'a>(alloc: Global) -> Result<Command<'a>, AllocError>
    ensures { IfOk result (λ c. app_of c ≡ program_app) }
{
    let made = add_subcommand(Ok(bare_program(alloc)), frames_command(alloc));
    let made = add_subcommand(made, replay_command(alloc));
    let made = add_subcommand(made, bench_command(alloc));
    let made = add_subcommand(made, sim_command(alloc));
    let made = add_subcommand(made, drive_command(alloc));
    add_subcommand(made, show_command(alloc))
}
