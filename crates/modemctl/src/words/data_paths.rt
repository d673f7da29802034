//! The files that the words name beside connections that carry data.
ghost use Rattle.std.specs.Prelude.{◌≡◌, ◌<◌, ◌≤◌, ◌++◌, All, IfErr, IfOk, IfSome, OnOk, codes, false, map, true};
ghost use Rattle.clap.specs.Words.{first_value, found_of, rule_of};
ghost use Rattle.ctl_run.specs.Statuses.{stop_line};
ghost use Rattle.ctl_run.specs.declared.stop.Stop.TheVariants as StopOf;
ghost use Rattle.ctl_text.specs.Writing.{IsBegun};
ghost use Rattle.modemctl.specs.Drives.{AreDataPaths, AreFiles, begin_by, data_path_text, drive_rules, paths_line};
ghost use Rattle.modemctl.specs.Shows.{given_for};
ghost use Rattle.modemctl.specs.Words.{arm_rule, data_path_rule, is_set, text_path_rule};

use crate::words::options::{flag_option, text_option};
use crate::words::showing::{NoChannels, channel_of};
use at_text::{Dialect, DialectError, Form};
use clap::{Arg, ArgAction, ArgMatches};
use ctl_run::{Stop, give_up};
use ctl_text::say_line;
use file_threads::DataPath;
use modem_data::Begin;
use std::alloc::Global;
use std::io::Write;

/// So many connections carry data at most.
const MOST: usize = 8;

/// The option `--data` with a path, with this help.
pub fn data_path_option<'a>(alloc: Global, help: &'a str) -> Arg<'a>
    ensures rule { rule_of result ≡ data_path_rule }
    ensures own { result.global ≡ false }
{
    text_option(alloc, "data", "D=PATH", help, ArgAction::Append)
}

/// The option `--text`.
pub fn text_path_option<'a>(alloc: Global) -> Arg<'a>
    ensures rule { rule_of result ≡ text_path_rule }
    ensures own { result.global ≡ false }
{
    text_option(
        alloc,
        "text",
        "D=PATH",
        "PATH has the text for the next prompt on connection D, as AT+CMGS gives one, and its end, 1A; as --data it may be given again",
        ArgAction::Append,
    )
}

/// The option `--arm`.
pub fn arm_option<'a>(alloc: Global) -> Arg<'a>
    ensures rule { rule_of result ≡ arm_rule }
    ensures own { result.global ≡ false }
{
    flag_option(
        alloc,
        "arm",
        "Data begins behind the CONNECT line that answers a command, not at once",
    )
}

/// Whether data begins behind a CONNECT line.
pub fn arm_of(matches: &ArgMatches<'_>) -> bool
    ensures { result ≡ is_set (first_value (found_of matches.now) (codes "arm")) }
{
    matches!(matches.get_str("arm"), Some("true"))
}

/// How the data of `--data` begins.
fn begin_of(matches: &ArgMatches<'_>) -> Begin
    ensures { result ≡ begin_by (is_set (first_value (found_of matches.now) (codes "arm"))) }
{
    if arm_of(matches) {
        Begin::ByConnect
    } else {
        Begin::AtOnce
    }
}

/// The connection and the path of this text, `D=PATH`. None where D is no number from 1 to 61 in decimal, or the path is empty.
fn data_path_of(text: &str, begin: Begin) -> Option<DataPath<'_>>
    ensures { IfSome result (λ p. (text.now ≡ data_path_text p) × (p.begin ≡ begin)) }
{
    let (number, path) = text.split_once('=')?;
    let dlci = channel_of(number)?;
    if dlci.number() == 0 || path.is_empty() {
        return None;
    }
    Some(DataPath { dlci, begin, path })
}

/// Whether one of these is beside the connection of another.
fn is_taken(found: &[DataPath<'_>], other: DataPath<'_>) -> bool {
    found.iter().any(|one| one.dlci == other.dlci)
}

/// The connections and paths of these texts, at most 8, each connection once.
fn data_paths_by<'a>(
    alloc: Global,
    texts: &[&'a str],
    begin: Begin,
) -> Result<Vec<DataPath<'a>>, NoChannels>
    ensures { IfOk result (λ found. (map (λ t. t.now) texts.now ≡ map (λ p. data_path_text p) found.items)
        × All (λ p. p.begin ≡ begin) found.items) }
{
    let mut found = Vec::new(alloc);
    for text in texts {
        let Some(one) = data_path_of(text, begin) else {
            return Err(NoChannels::NotDecimal);
        };
        if found.len() == MOST || is_taken(found.as_slice(), one) {
            return Err(NoChannels::NotDecimal);
        }
        found.push(one)?;
    }
    Ok(found)
}

/// The connections and paths that an option gives.
pub fn paths_of<'a>(
    alloc: Global,
    matches: &ArgMatches<'a>,
    option: &str,
    begin: Begin,
) -> Result<Vec<DataPath<'a>>, NoChannels>
    ensures { IfOk result (λ found. AreDataPaths (given_for matches.now option.now) begin found.items) }
{
    match matches.get_strs(option) {
        Some(texts) => data_paths_by(alloc, texts, begin),
        None => Ok(Vec::new(alloc)),
    }
}

/// These connections and paths, and others behind them: at most 8, each connection once.
fn join<'a>(
    first: Vec<DataPath<'a>>,
    others: &[DataPath<'a>],
) -> Result<Vec<DataPath<'a>>, NoChannels>
    ensures { IfOk result (λ all. all.items ≡ first.entry.items ++ others.now) }
{
    let mut all = first;
    for one in others {
        if all.len() == MOST || is_taken(all.as_slice(), *one) {
            return Err(NoChannels::NotDecimal);
        }
        all.push(*one)?;
    }
    Ok(all)
}

/// The connections and paths that the words give: those of `--data`, and behind them those of `--text`.
pub fn data_paths_of<'a>(
    alloc: Global,
    matches: &ArgMatches<'a>,
) -> Result<Vec<DataPath<'a>>, NoChannels>
    ensures { IfOk result (λ found. AreFiles (given_for matches.now (codes "data")) (given_for matches.now (codes "text"))
        (is_set (first_value (found_of matches.now) (codes "arm"))) found.items) }
{
    let of_data = paths_of(alloc, matches, "data", begin_of(matches))?;
    let of_text = paths_of(alloc, matches, "text", Begin::ByPrompt)?;
    join(of_data, of_text.as_slice())
}

/// Says why the words give no connections and paths to these options, as "--data takes", and gives the status.
pub fn refuse_data<E: Write>(faults: &mut E, options: &str, fault: NoChannels) -> u8
    ensures some { 0 < result }
    ensures status { result ≤ 2 }
    ensures said { result ≡ 1 → IsBegun (E.contents faults.old) (E.contents faults.new) (stop_line StopOf.NoMemory) }
    ensures told { result ≡ 2 → IsBegun (E.contents faults.old) (E.contents faults.new) (paths_line options.now) }
{
    match fault {
        NoChannels::NoMemory => give_up(faults, Stop::NoMemory),
        NoChannels::NotDecimal => {
            say_line(
                faults,
                "error: ",
                options,
                " D=PATH, with a connection from 1 to 61, each once, and 8 of them at most",
            );
            2
        }
    }
}

/// Has a line that begins with CONNECT end a command too. Where the dialect has no room for that rule, or another that contradicts it, it
/// says so, and gives the status.
pub fn with_connect<E: Write>(dialect: Dialect, faults: &mut E) -> Result<Dialect, u8>
    ensures rules { IfOk result (λ rules. rules ≡ drive_rules true dialect) }
    ensures silent { OnOk result (faults.new ≡ faults.old) }
    ensures bad { IfErr result (λ status. (0 < status) × (status ≤ 2)) }
    ensures said { IfErr result (λ status. status ≡ 1
        → IsBegun (E.contents faults.old) (E.contents faults.new) (stop_line StopOf.NoMemory)) }
{
    let mut dialect = dialect;
    match dialect.add_final(Form::Prefix, b"CONNECT") {
        Ok(()) => Ok(dialect),
        Err(DialectError::NoMemory) => Err(give_up(faults, Stop::NoMemory)),
        Err(_) => {
            say_line(
                faults,
                "error: with --arm the dialect has the rule ",
                "final prefix CONNECT",
                " too, for which it has no room, or which another rule contradicts",
            );
            Err(2)
        }
    }
}
