//! The dialect that the words give.
ghost use Rattle.std.specs.Prelude.{◌≡◌, ◌<◌, ◌≤◌, IfErr, IfOk, IsErrOf, MatchResult, OnOk, Some, codes, false, true};
ghost use Rattle.clap.specs.Words.{first_value, found_of, rule_of};
ghost use Rattle.ctl_text.specs.DialectNames.{dialect_with_name};
ghost use Rattle.modemctl.specs.Dialects.{GivesRules, IsGivenDialect, IsReadyOrRead, IsShut, PrintsActs};
ghost use Rattle.modemctl.specs.Files.{IsNoText, NamesCause, text_status};
ghost use Rattle.modemctl.specs.Refusals.{RefusesScript};
ghost use Rattle.modemctl.specs.Words.{dialect_rule};

use crate::words::file_faults::refuse_text;
use crate::words::options::text_option;
use crate::words::text_files::{TextFault, TextFiles};
use at_text::Dialect;
use clap::{Arg, ArgAction, ArgMatches};
use ctl_run::{Stop, dialect_from, replay_run_explained, replay_with_dialect_run_explained};
use ctl_text::dialect_named;
use std::alloc::Global;
use std::io::{Read, Write};

/// The option `--dialect`.
pub fn dialect_option<'a>(alloc: Global) -> Arg<'a>
    ensures rule { rule_of result ≡ dialect_rule }
    ensures own { result.global ≡ false }
{
    text_option(
        alloc,
        "dialect",
        "DIALECT",
        "The codes of the modem: common, dialling, or a file with a rule a line",
        ArgAction::Set,
    )
}

/// The dialect of the file of this path.
#[tactic(auto, using(crate::proofs::TextFiles::rules_of_file))]
fn dialect_in_file<R: TextFiles>(rt: &R, alloc: Global, path: &str) -> Result<Dialect, TextFault>
    ensures rules { IfOk result (GivesRules (R.text_of rt.now path.now)) }
    ensures shut { R.is_shut rt.now path.now ≡ true → MatchResult result (λ _. ⊥) (λ fault. text_status fault ≡ 1) }
{
    let mut file = match rt.open_text(path) {
        Ok(file) => file,
        Err(error) => return Err(TextFault::Closed(error.kind())),
    };
    match dialect_from(alloc, &mut file) {
        Ok(dialect) => Ok(dialect),
        Err(stop) => Err(TextFault::Stopped(stop)),
    }
}

/// The dialect that comes ready under this name, else that of the file of this name.
fn find_dialect<R: TextFiles>(rt: &R, alloc: Global, name: &str) -> Result<Dialect, TextFault>
    ensures named { IfOk result (IsReadyOrRead (dialect_with_name name.now) (R.text_of rt.now name.now)) }
    ensures shut { IsShut (R.is_shut rt.now) (Some name.now) → MatchResult result (λ _. ⊥) (λ fault. text_status fault ≡ 1) }
{
    match dialect_named(alloc, name.as_bytes()) {
        Ok(Some(dialect)) => Ok(dialect),
        Ok(None) => dialect_in_file(rt, alloc, name),
        Err(_) => Err(TextFault::Stopped(Stop::NoMemory)),
    }
}

/// The dialect that comes ready under this name, else that of the file of this name. Where there is none it says why, with the
/// reason where that is to be explained, and gives the status.
pub fn dialect_by<R: TextFiles, E: Write>(
    rt: &R,
    alloc: Global,
    name: &str,
    faults: &mut E,
    explained: bool,
) -> Result<Dialect, u8>
    ensures named { IfOk result (IsReadyOrRead (dialect_with_name name.now) (R.text_of rt.now name.now)) }
    ensures silent { OnOk result (faults.new ≡ faults.old) }
    ensures shut { IsShut (R.is_shut rt.now) (Some name.now) → IsErrOf result 1 }
    ensures bad { IfErr result (λ status. (0 < status) × (status ≤ 2)) }
    ensures refused { IfErr result
        (IsNoText explained (codes "dialect") (Some name.now) (E.contents faults.old) (E.contents faults.new)) }
{
    match find_dialect(rt, alloc, name) {
        Ok(dialect) => Ok(dialect),
        Err(fault) => Err(refuse_text(alloc, faults, "dialect", name, fault, explained)),
    }
}

/// The dialect that the words give; the standard's codes alone where they give none. Where there is none it says why, with
/// the reason where that is to be explained, and gives the status.
pub fn given_dialect<R: TextFiles, E: Write>(
    rt: &R,
    alloc: Global,
    matches: &ArgMatches<'_>,
    faults: &mut E,
    explained: bool,
) -> Result<Dialect, u8>
    ensures given { IfOk result (IsGivenDialect (R.text_of rt.now) (first_value (found_of matches.now) (codes "dialect"))) }
    ensures silent { OnOk result (faults.new ≡ faults.old) }
    ensures shut { IsShut (R.is_shut rt.now) (first_value (found_of matches.now) (codes "dialect")) → IsErrOf result 1 }
    ensures bad { IfErr result (λ status. (0 < status) × (status ≤ 2)) }
    ensures refused { IfErr result (IsNoText explained (codes "dialect") (first_value (found_of matches.now) (codes "dialect"))
        (E.contents faults.old) (E.contents faults.new)) }
{
    match matches.get_str("dialect") {
        Some(name) => dialect_by(rt, alloc, name, faults, explained),
        None => Ok(Dialect::standard(alloc)),
    }
}

/// Replays the script of `input` at a modem with the codes that the words give. What goes wrong is said, with the reason where that is to
/// be explained.
pub fn replay_words<R, I, W, E>(
    rt: &R,
    alloc: Global,
    matches: &ArgMatches<'_>,
    n1: u16,
    input: &mut I,
    output: &mut W,
    faults: &mut E,
    explained: bool,
) -> u8
where
    R: TextFiles,
    I: Read,
    W: Write,
    E: Write,
    ensures status { result ≤ 2 }
    ensures bad { result ≡ 2 → output.new ≡ output.old }
    ensures done { result ≡ 0 → PrintsActs (R.text_of rt.now) (first_value (found_of matches.now) (codes "dialect")) n1
        (I.remaining input.old) (W.contents output.old) (W.contents output.new) }
    ensures shut { IsShut (R.is_shut rt.now) (first_value (found_of matches.now) (codes "dialect")) → result ≡ 1 }
    ensures refused { result ≡ 2 → RefusesScript explained (first_value (found_of matches.now) (codes "dialect")) n1
        (I.remaining input.old) (E.contents faults.old) (E.contents faults.new) }
    ensures nothing { result ≡ 1
        → NamesCause explained (first_value (found_of matches.now) (codes "dialect")) output.old output.new (E.contents faults.old)
        (E.contents faults.new) result }
    ensures silent { result ≡ 0 → faults.new ≡ faults.old }
{
    let Some(name) = matches.get_str("dialect") else {
        return replay_run_explained(alloc, input, output, faults, n1, explained);
    };
    match dialect_by(rt, alloc, name, faults, explained) {
        Ok(dialect) => replay_with_dialect_run_explained(
            alloc, input, output, faults, n1, &dialect, explained,
        ),
        Err(status) => status,
    }
}
