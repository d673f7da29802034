//! The words of a capture that is shown.
ghost use Rattle.std.specs.Prelude.{◌≡◌, ℕ, ◌<◌, ◌≤◌, ◌⊎◌, IfErr, IfOk, IfSome, IsErr, List, OnOk, Some, codes, false, map, option_map, true};
ghost use Rattle.std.specs.Fmt.{decimal};
ghost use Rattle.clap.specs.Words.{app_of, first_value, found_of, one_text, rule_of};
ghost use Rattle.ctl_run.specs.Statuses.{stop_line};
ghost use Rattle.ctl_run.specs.declared.stop.Stop.TheVariants as StopOf;
ghost use Rattle.ctl_text.specs.Writing.{IsBegun};
ghost use Rattle.show_texts.specs.Captures.{HasShown};
ghost use Rattle.show_texts.specs.Merging.{HasShownUntimed};
ghost use Rattle.show_texts.specs.Options.{setting_by};
ghost use Rattle.show_texts.specs.Progress.{TellsRead};
ghost use Rattle.modemctl.specs.Benches.{IsFlag};
ghost use Rattle.modemctl.specs.Dialects.{IsShut};
ghost use Rattle.modemctl.specs.Files.{IsNoText};
ghost use Rattle.modemctl.specs.Refusals.{RefusesShow};
ghost use Rattle.modemctl.specs.Shows.{AreChannels, AreWantedBy, IsShutFile, SaysUnread, SaysUnreadOf, SaysUnshown, ShowsFiles, ShowsWith, TellsFiles, TellsShow, given_for};
ghost use Rattle.modemctl.specs.Sims.{SaysNoNumber, number_line};
ghost use Rattle.modemctl.specs.Words.{data_rule, file_rule, raw_rule, show_app, strict_rule};

use crate::words::commands::{add, new_command};
use crate::words::dialects::{dialect_option, given_dialect};
use crate::words::file_faults::{FileFault, refuse_file};
use crate::words::numbers::Decimal;
use crate::words::options::{flag_option, n1_option, needed_word, text_option};
use crate::words::text_files::TextFiles;
use crate::words::{help, refuse};
use clap::builder::ValueParser;
use clap::{Arg, ArgAction, ArgMatches, Command};
use ctl_run::{Stop, give_up};
use mux_frame::Dlci;
use show_texts::{Progress, ShowOptions, show_run, show_untimed_run};
use std::alloc::{AllocError, AllocFailed, Global};
use std::io::{BufReader, ErrorKind, Read, Write};

/// The option `--data`.
fn data_option<'a>(alloc: Global) -> Arg<'a>
    ensures rule { rule_of result ≡ data_rule }
    ensures own { result.global ≡ false }
{
    text_option(
        alloc,
        "data",
        "D",
        "A connection whose octets are data and no lines, 1 to 61; may be given again",
        ArgAction::Append,
    )
    .value_parser(ValueParser::signed(1, 61))
}

/// The option `--strict`.
fn strict_option<'a>(alloc: Global) -> Arg<'a>
    ensures rule { rule_of result ≡ strict_rule }
    ensures own { result.global ≡ false }
{
    flag_option(alloc, "strict", "Status 3 where there is a complaint")
}

/// The option `--raw`.
fn raw_option<'a>(alloc: Global) -> Arg<'a>
    ensures rule { rule_of result ≡ raw_rule }
    ensures own { result.global ≡ false }
{
    text_option(
        alloc,
        "raw",
        "FROM",
        "FROM has the octets from the modem, and FILE those to it: no capture, and no times",
        ArgAction::Set,
    )
}

/// The word for the file.
fn file_word<'a>(alloc: Global) -> Arg<'a>
    ensures rule { rule_of result ≡ file_rule }
    ensures own { result.global ≡ false }
{
    needed_word(
        alloc,
        "file",
        "FILE",
        "The capture; behind --raw FROM, the octets to the modem",
    )
}

/// The subcommand that shows a capture.
pub fn show_command<'a>(alloc: Global) -> Result<Command<'a>, AllocError>
    ensures { IfOk result (λ c. app_of c ≡ show_app) }
{
    let about = "Says what happened on the line, by a capture";
    let made = Ok(new_command(alloc, "show", about, help::SHOW));
    let made = add(made, n1_option(alloc));
    let made = add(made, dialect_option(alloc));
    let made = add(made, data_option(alloc));
    let made = add(made, strict_option(alloc));
    let made = add(made, raw_option(alloc));
    add(made, file_word(alloc))
}

/// Why the words give no connections of data.
#[derive(Clone, Copy)]
pub enum NoChannels {
    /// Memory was refused.
    NoMemory,
    /// A text isn't as it must be.
    NotDecimal,
}

impl<T: Drop> From<AllocFailed<T>> for NoChannels {
    fn from(_refused: AllocFailed<T>) -> NoChannels {
        NoChannels::NoMemory
    }
}

/// The connection of this number in decimal.
pub fn channel_of(text: &str) -> Option<Dlci>
    ensures { IfSome result (λ d. text.now ≡ decimal d.number) }
{
    let decimal = text.parse::<Decimal>().ok()?;
    let number = u8::try_from(decimal.number).ok()?;
    Dlci::new(number)
}

/// The connections of these numbers in decimal.
fn channels_of(alloc: Global, texts: &[&str]) -> Result<Vec<Dlci>, NoChannels>
    ensures { IfOk result (λ channels. map (λ t. t.now) texts.now ≡ map (λ d. decimal d.number) channels.items) }
{
    let mut channels = Vec::new(alloc);
    for text in texts {
        let Some(channel) = channel_of(text) else {
            return Err(NoChannels::NotDecimal);
        };
        channels.push(channel)?;
    }
    Ok(channels)
}

#[tactic(auto, using(crate::proofs::ShownFiles::some_channels, crate::proofs::ShownFiles::no_channels))]
/// The connections of data that the words give.
fn data_channels_of(alloc: Global, matches: &ArgMatches<'_>) -> Result<Vec<Dlci>, NoChannels>
    ensures { IfOk result
        (λ channels. AreChannels (given_for matches.now (codes "data")) channels.items) }
{
    match matches.get_strs("data") {
        Some(texts) => channels_of(alloc, texts),
        None => Ok(Vec::new(alloc)),
    }
}

/// Says why the words give no connections of data, and gives the status.
fn refuse_channels<E: Write>(faults: &mut E, fault: NoChannels) -> u8
    ensures some { 0 < result }
    ensures status { result ≤ 2 }
    ensures said { result ≡ 1 → IsBegun (E.contents faults.old) (E.contents faults.new) (stop_line StopOf.NoMemory) }
    ensures told { result ≡ 2 → IsBegun (E.contents faults.old) (E.contents faults.new) (number_line (codes "data")) }
{
    match fault {
        NoChannels::NoMemory => give_up(faults, Stop::NoMemory),
        NoChannels::NotDecimal => refuse(faults, "data"),
    }
}

/// Whether a complaint gives a status of its own.
fn strict_of(matches: &ArgMatches<'_>) -> bool
    ensures { IsFlag (one_text (found_of matches.now) (codes "strict")) result }
{
    matches.get_flag("strict")
}

#[tactic(auto, using(crate::proofs::ShownFiles::wanted_so, crate::proofs::ShownFiles::memory_said))]
/// How the words want a capture shown. Where they don't say it, it says why, and gives the status.
fn wanted<R: TextFiles, E: Write>(
    rt: &R,
    alloc: Global,
    matches: &ArgMatches<'_>,
    n1: u16,
    faults: &mut E,
) -> Result<ShowOptions, u8>
    ensures wanted { IfOk result (AreWantedBy (R.text_of rt.now) n1 matches.now) }
    ensures silent { OnOk result (faults.new ≡ faults.old) }
    ensures shut { IsShut (R.is_shut rt.now) (first_value (found_of matches.now) (codes "dialect")) → IsErr result }
    ensures bad { IfErr result (λ status. (0 < status) × (status ≤ 2)) }
    ensures refused { IfErr result (λ status. status ≡ 1
        → IsNoText true (codes "dialect") (first_value (found_of matches.now) (codes "dialect")) (E.contents faults.old)
        (E.contents faults.new) status) }
    ensures told { IfErr result (λ status. status ≡ 2 → SaysNoNumber (E.contents faults.old) (E.contents faults.new)
        ⊎ IsNoText true (codes "dialect") (first_value (found_of matches.now) (codes "dialect")) (E.contents faults.old)
        (E.contents faults.new) 2) }
{
    let data_channels = match data_channels_of(alloc, matches) {
        Ok(channels) => channels,
        Err(fault) => return Err(refuse_channels(faults, fault)),
    };
    let dialect = given_dialect(rt, alloc, matches, faults, true)?;
    Ok(ShowOptions {
        n1,
        dialect,
        data_channels,
        strict: strict_of(matches),
    })
}

#[tactic(auto, using(crate::proofs::ShownFiles::shown_of_reader, crate::proofs::ShownFiles::says_memory, crate::proofs::ShownFiles::says_cut, crate::proofs::ShownFiles::read_of_reader, crate::proofs::ShownFiles::not_read))]
/// Shows the capture that a reader has.
fn show_reader<I: Read + Drop, W: Write, E: Write, P: Write>(
    alloc: Global,
    input: I,
    options: ShowOptions,
    output: &mut W,
    faults: &mut E,
    progress: &mut Progress<P>,
) -> u8
    ensures status { result ≤ 3 }
    ensures shown { (result ≡ 0) ⊎ (result ≡ 3) → HasShown (setting_by options) options.strict (I.remaining input)
        (W.contents output.old) (W.contents output.new) result }
    ensures bad { result ≡ 2 → output.new ≡ output.old }
    ensures said { (result ≡ 1) ⊎ (result ≡ 2) → (what path : List ℕ) → SaysUnread what path (E.contents faults.old) (E.contents faults.new) result }
    ensures silent { (result ≡ 0) ⊎ (result ≡ 3) → faults.new ≡ faults.old }
    ensures read { TellsRead (I.remaining input) progress.old.shown progress.new result }
    ensures untold { progress.old.is_on ≡ false → progress.new ≡ progress.old }
{
    match BufReader::new(alloc, input) {
        Ok(mut reader) => show_run(alloc, &mut reader, output, faults, progress, options),
        Err(_) => give_up(faults, Stop::NoMemory),
    }
}

#[tactic(auto, using(crate::proofs::ShownFiles::shown_of_file, crate::proofs::ShownFiles::says_closed, crate::proofs::ShownFiles::read_of_file, crate::proofs::ShownFiles::not_read))]
/// Shows the capture in the file of this path.
fn show_file<R: TextFiles, W: Write, E: Write, P: Write>(
    rt: &R,
    alloc: Global,
    path: &str,
    options: ShowOptions,
    output: &mut W,
    faults: &mut E,
    progress: &mut Progress<P>,
) -> u8
    ensures status { result ≤ 3 }
    ensures shown { (result ≡ 0) ⊎ (result ≡ 3) → HasShown (setting_by options) options.strict (R.text_of rt.now path.now)
        (W.contents output.old) (W.contents output.new) result }
    ensures bad { result ≡ 2 → output.new ≡ output.old }
    ensures said { (result ≡ 1) ⊎ (result ≡ 2) → SaysUnread (codes "capture") path.now (E.contents faults.old) (E.contents faults.new) result }
    ensures shut { R.is_shut rt.now path.now ≡ true → (result ≡ 1) × (output.new ≡ output.old) }
    ensures silent { (result ≡ 0) ⊎ (result ≡ 3) → faults.new ≡ faults.old }
    ensures read { TellsRead (R.text_of rt.now path.now) progress.old.shown progress.new result }
    ensures untold { progress.old.is_on ≡ false → progress.new ≡ progress.old }
{
    match rt.open_text(path) {
        Ok(file) => show_reader(alloc, file, options, output, faults, progress),
        Err(error) => {
            let fault = FileFault::Closed(error.kind());
            refuse_file(alloc, faults, "fault: ", "capture", path, fault)
        }
    }
}

#[tactic(auto, using(crate::proofs::ShownFiles::says_closed))]
/// Says that a file of octets can't be opened, and gives the status.
fn refuse_octets<E: Write>(alloc: Global, faults: &mut E, path: &str, kind: ErrorKind) -> u8
    ensures status { result ≡ 1 }
    ensures said { SaysUnread (codes "octets") path.now (E.contents faults.old) (E.contents faults.new) result }
{
    refuse_file(
        alloc,
        faults,
        "fault: ",
        "octets",
        path,
        FileFault::Closed(kind),
    )
}

#[tactic(auto, using(crate::proofs::ShownFiles::shown_of_from, crate::proofs::ShownFiles::says_cut))]
/// Shows the octets to the modem, which a reader has, and those from there, which the file of this path has.
fn show_beside<R: TextFiles, I: Read + Drop, W: Write, E: Write>(
    rt: &R,
    alloc: Global,
    to: I,
    from: &str,
    options: ShowOptions,
    output: &mut W,
    faults: &mut E,
) -> u8
    ensures status { result ≤ 3 }
    ensures shown { (result ≡ 0) ⊎ (result ≡ 3) → HasShownUntimed (setting_by options) options.strict (I.remaining to)
        (R.text_of rt.now from.now) (W.contents output.old) (W.contents output.new) result }
    ensures bad { result ≡ 2 → output.new ≡ output.old }
    ensures said { (result ≡ 1) ⊎ (result ≡ 2) → SaysUnread (codes "octets") from.now (E.contents faults.old) (E.contents faults.new) result }
    ensures shut { R.is_shut rt.now from.now ≡ true → (result ≡ 1) × (output.new ≡ output.old) }
    ensures silent { (result ≡ 0) ⊎ (result ≡ 3) → faults.new ≡ faults.old }
{
    let mut to = to;
    match rt.open_text(from) {
        Ok(mut file) => show_untimed_run(alloc, &mut to, &mut file, output, faults, options),
        Err(error) => refuse_octets(alloc, faults, from, error.kind()),
    }
}

#[tactic(auto, using(crate::proofs::ShownFiles::shown_of_to))]
/// Shows the octets of both ways, in the files of these paths.
fn show_octets<R: TextFiles, W: Write, E: Write>(
    rt: &R,
    alloc: Global,
    to: &str,
    from: &str,
    options: ShowOptions,
    output: &mut W,
    faults: &mut E,
) -> u8
    ensures status { result ≤ 3 }
    ensures shown { (result ≡ 0) ⊎ (result ≡ 3) → HasShownUntimed (setting_by options) options.strict (R.text_of rt.now to.now)
        (R.text_of rt.now from.now) (W.contents output.old) (W.contents output.new) result }
    ensures bad { result ≡ 2 → output.new ≡ output.old }
    ensures said { (result ≡ 1) ⊎ (result ≡ 2) → SaysUnread (codes "octets") to.now (E.contents faults.old) (E.contents faults.new) result
        ⊎ SaysUnread (codes "octets") from.now (E.contents faults.old) (E.contents faults.new) result }
    ensures shut { (R.is_shut rt.now to.now ≡ true) ⊎ (R.is_shut rt.now from.now ≡ true)
        → (result ≡ 1) × (output.new ≡ output.old) }
    ensures silent { (result ≡ 0) ⊎ (result ≡ 3) → faults.new ≡ faults.old }
{
    match rt.open_text(to) {
        Ok(file) => show_beside(rt, alloc, file, from, options, output, faults),
        Err(error) => refuse_octets(alloc, faults, to, error.kind()),
    }
}

/// Shows the capture in a file, or the octets of both ways in two.
fn show_files<R: TextFiles, W: Write, E: Write, P: Write>(
    rt: &R,
    alloc: Global,
    raw: Option<&str>,
    path: &str,
    options: ShowOptions,
    output: &mut W,
    faults: &mut E,
    progress: &mut Progress<P>,
) -> u8
    ensures status { result ≤ 3 }
    ensures shown { (result ≡ 0) ⊎ (result ≡ 3) → ShowsFiles (R.text_of rt.now) options (option_map (λ t. t.now) raw.entry) path.now
        (W.contents output.old) (W.contents output.new) result }
    ensures bad { result ≡ 2 → output.new ≡ output.old }
    ensures said { (result ≡ 1) ⊎ (result ≡ 2) → SaysUnreadOf (option_map (λ t. t.now) raw.entry) path.now (E.contents faults.old)
        (E.contents faults.new) result }
    ensures shut { (R.is_shut rt.now path.now ≡ true) ⊎ IsShutFile (R.is_shut rt.now) (option_map (λ t. t.now) raw.entry)
        → (result ≡ 1) × (output.new ≡ output.old) }
    ensures silent { (result ≡ 0) ⊎ (result ≡ 3) → faults.new ≡ faults.old }
    ensures read { TellsFiles (R.text_of rt.now) (option_map (λ t. t.now) raw.entry) path.now progress.old.shown progress.new result }
    ensures untold { progress.old.is_on ≡ false → progress.new ≡ progress.old }
{
    match raw {
        Some(from) => show_octets(rt, alloc, path, from, options, output, faults),
        None => show_file(rt, alloc, path, options, output, faults, progress),
    }
}

#[tactic(auto, using(crate::proofs::ShownFiles::shows_with, crate::proofs::ShownFiles::files_unread, crate::proofs::ShownFiles::not_shown, crate::proofs::ShownFiles::shown_by))]
/// Shows the files that the words name.
pub fn show_words<R: TextFiles, W: Write, E: Write, P: Write>(
    rt: &R,
    alloc: Global,
    matches: &ArgMatches<'_>,
    n1: u16,
    output: &mut W,
    faults: &mut E,
    progress: &mut Progress<P>,
) -> u8
    ensures status { result ≤ 3 }
    ensures shown { (result ≡ 0) ⊎ (result ≡ 3) → ShowsWith (R.text_of rt.now) n1 matches.now (W.contents output.old)
        (W.contents output.new) result }
    ensures silent { (result ≡ 0) ⊎ (result ≡ 3) → faults.new ≡ faults.old }
    ensures read { TellsShow (R.text_of rt.now) (first_value (found_of matches.now) (codes "raw"))
        (first_value (found_of matches.now) (codes "file")) progress.old.shown progress.new result }
    ensures untold { progress.old.is_on ≡ false → progress.new ≡ progress.old }
    ensures bad { result ≡ 2 → output.new ≡ output.old }
    ensures said { result ≡ 1 → SaysUnshown (first_value (found_of matches.now) (codes "dialect"))
        (first_value (found_of matches.now) (codes "raw")) (first_value (found_of matches.now) (codes "file"))
        (E.contents faults.old) (E.contents faults.new) result }
    ensures refused { result ≡ 2 → RefusesShow (first_value (found_of matches.now) (codes "dialect"))
        (first_value (found_of matches.now) (codes "raw")) (first_value (found_of matches.now) (codes "file"))
        (E.contents faults.old) (E.contents faults.new) }
    ensures shut { IsShut (R.is_shut rt.now) (first_value (found_of matches.now) (codes "dialect"))
        ⊎ (IsShutFile (R.is_shut rt.now) (first_value (found_of matches.now) (codes "file"))
        ⊎ IsShutFile (R.is_shut rt.now) (first_value (found_of matches.now) (codes "raw")))
        → (0 < result) × ((result ≤ 2) × (output.new ≡ output.old)) }
{
    let Some(path) = matches.get_str("file") else {
        return 2;
    };
    match wanted(rt, alloc, matches, n1, faults) {
        Ok(options) => show_files(
            rt,
            alloc,
            matches.get_str("raw"),
            path,
            options,
            output,
            faults,
            progress,
        ),
        Err(status) => status,
    }
}
