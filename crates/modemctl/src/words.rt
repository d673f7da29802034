//! The words of the program.
ghost use Rattle.std.specs.Prelude.{◌≡◌, ◌≢◌, ◌<◌, ◌≤◌, ◌⊎◌, Bool, [], Some, IfOk, false, codes, is_some, true};
ghost use Rattle.clap.specs.Words.{first_value, found_of, kind_of, subcommand_name_of, subcommand_rows_of};
ghost use Rattle.ctl_run.specs.Statuses.{stop_line};
ghost use Rattle.ctl_run.specs.Stopping.{HasGivenUp};
ghost use Rattle.ctl_sim.specs.Leaving.{SaysBad};
ghost use Rattle.ctl_sim.specs.Serving.{IsServed};
ghost use Rattle.ctl_sim.specs.Watching.{CapturesClient};
ghost use Rattle.ctl_text.specs.Writing.{IsBegun};
ghost use Rattle.modemctl.specs.Benches.{PrintsBench, PrintsFrames, PrintsReplay};
ghost use Rattle.modemctl.specs.Dialects.{IsShut};
ghost use Rattle.modemctl.specs.Drives.{PrintsDrive};
ghost use Rattle.modemctl.specs.Files.{NamesCause};
ghost use Rattle.modemctl.specs.Refusals.{RefusesBench, RefusesFrames, RefusesReplay, RefusesShow, SaysUndriven};
ghost use Rattle.modemctl.specs.Sims.{FailsClient, HasNoCapture, IsNotBegun, LeavesClient, LeavesWith, RefusesClient, RefusesWith, ServesClient, ServesWith, files_given, files_matched, number_line};
ghost use Rattle.modemctl.specs.SimData.{AreForSim, LeavesData, SaysNoPaths, ServesData, names_files};
ghost use Rattle.modemctl.specs.Shows.{IsShutFile, PrintsShow, SaysUnshown, TellsShow, all_in};
ghost use Rattle.modemctl.specs.Words.{fault_in, met_in, raw_in, AreFor, AsksNoHelp, HasNoNumber, is_explained, texts_of};

mod answers;
mod benches;
mod commands;
mod data_paths;
mod dialects;
mod driving;
mod file_faults;
mod files;
mod help;
mod numbers;
mod options;
mod reasons;
mod showing;
mod sim_data;
mod sims;
mod text_files;

use benches::bench_plain;
use clap::error::ErrorKind;
use clap::{ArgMatches, Error};
use commands::program;
use ctl_run::{Stop, frames_run_explained, give_up};
use ctl_sim::{SimOptions, sim_captured, sim_run};
use ctl_text::say_line;
use dialects::replay_words;
use driving::drive_words;
use files::{capture_at, refuse_capture};
use numbers::{Numbers, numbers_of};
use reasons::wants_reason;
use show_texts::Progress;
use showing::show_words;
use sim_data::sim_any;
use sims::sim_options_of;
use std::alloc::{AllocGlobal, Global};
use std::fs::File;
use std::io::{Read, Write};
use std::random::RandomSource;
use std::rt::{Clock, Files};
use std::sync::Wait;
use std::thread::Threads;
use text_files::TextFiles;

/// Whether some character is one that moves the cursor or rings a bell, as a line feed.
fn has_controls(text: &str) -> bool {
    text.chars().any(|character| character.is_control())
}

/// Says what is wrong with the words. The parser's text shows a word as it is: where one has control characters the kind of the error
/// is said, and the first such word is shown with these escaped.
fn complain<E: Write>(faults: &mut E, error: &Error, words: &[String]) {
    for word in words.iter().skip(1) {
        if has_controls(word.as_str()) {
            let kind = error.kind();
            let _ = writeln!(
                faults,
                "error: {kind}; the word {word:?} has control characters"
            );
            return;
        }
    }
    let _ = write!(faults, "{error}");
}

/// Says what is wrong with the words, or the help that they ask for; and gives the status.
fn explain<W: Write, E: Write>(
    output: &mut W,
    faults: &mut E,
    error: &Error,
    words: &[String],
) -> u8
    ensures status { result ≤ 2 }
    ensures memory { kind_of error.now ≡ ErrorKind.OutOfMemory → result ≡ 1 }
    ensures silent { kind_of error.now ≡ ErrorKind.OutOfMemory → output.new ≡ output.old }
    ensures wrong { kind_of error.now ≢ ErrorKind.DisplayHelp
        → kind_of error.now ≢ ErrorKind.DisplayVersion → 0 < result }
    ensures bad { result ≡ 2 → output.new ≡ output.old }
    ensures quiet { result ≡ 0 → faults.new ≡ faults.old }
    ensures cause { kind_of error.now ≡ ErrorKind.OutOfMemory
        → IsBegun (E.contents faults.old) (E.contents faults.new) (stop_line Stop.NoMemory) }
    ensures nothing { result ≡ 1 → (explained : Bool)
        → HasGivenUp explained output.old output.new (E.contents faults.old) (E.contents faults.new) result }
{
    if matches!(error.kind(), ErrorKind::OutOfMemory) {
        return give_up(faults, Stop::NoMemory);
    }
    if error.use_stderr() {
        complain(faults, error, words);
        return 2;
    }
    match write!(output, "{error}") {
        Ok(()) => 0,
        Err(_) => give_up(faults, Stop::Output),
    }
}

/// Says of which option the number isn't one, and gives the status.
fn refuse<E: Write>(faults: &mut E, option: &str) -> u8
    ensures status { result ≡ 2 }
    ensures said { IsBegun (E.contents faults.old) (E.contents faults.new) (number_line option.now) }
{
    say_line(
        faults,
        "error: --",
        option,
        " takes a number in decimal, without a sign and leading zeros",
    );
    2
}

/// Is a modem for a client, with a capture where the words name a file for it.
fn sim_with<R, I: Read, W: Write, E: Write>(
    rt: &R,
    alloc: Global,
    matches: &ArgMatches<'_>,
    options: SimOptions,
    input: &mut I,
    output: &mut W,
    faults: &mut E,
) -> u8
where
    R: Files<File = File> + Clock,
    ensures status { result ≤ 2 }
    ensures bad { result ≡ 2 → output.new ≡ output.old }
    ensures served { result ≡ 0 → IsServed options (I.remaining input.old) (W.contents output.old) (W.contents output.new) }
    ensures captured { result ≡ 0 → CapturesClient (is_some (first_value (found_of matches.now) (codes "capture"))) options
        (I.remaining input.old) (W.contents output.old) (W.contents output.new) }
    ensures silent { result ≡ 0 → faults.new ≡ faults.old }
    ensures left { result ≡ 1 → ((input.new ≡ input.old) × (output.new ≡ output.old)
        × HasNoCapture (first_value (found_of matches.now) (codes "capture")) (E.contents faults.old) (E.contents faults.new))
        ⊎ FailsClient (is_some (first_value (found_of matches.now) (codes "capture"))) options (I.remaining input.old)
        (I.remaining input.new) (W.contents output.old) (W.contents output.new) (E.contents faults.old) (E.contents faults.new) }
    ensures told { result ≡ 2 → SaysBad options (E.contents faults.old) (E.contents faults.new) }
{
    let Some(path) = matches.get_str("capture") else {
        return sim_run(alloc, input, output, faults, options);
    };
    match capture_at(rt, alloc, path, options.n1) {
        Ok(capture) => {
            let (status, _) = sim_captured(rt, alloc, input, output, faults, options, capture);
            status
        }
        Err(fault) => refuse_capture(alloc, faults, path, fault),
    }
}

/// Is a modem for a client.
fn sim_words<R, I: Read, W: Write, E: Write>(
    rt: &R,
    alloc: Global,
    matches: &ArgMatches<'_>,
    n1: u16,
    input: &mut I,
    output: &mut W,
    faults: &mut E,
) -> u8
where
    R: Files<File = File> + TextFiles + Clock,
    ensures status { result ≤ 2 }
    ensures bad { result ≡ 2 → output.new ≡ output.old }
    ensures served { result ≡ 0 → ServesWith (R.text_of rt.now) n1 matches.now (I.remaining input.old) (W.contents output.old)
        (W.contents output.new) }
    ensures silent { result ≡ 0 → faults.new ≡ faults.old }
    ensures left { result ≡ 1 → IsNotBegun (files_matched matches.now) input.old input.new output.old output.new
        (E.contents faults.old) (E.contents faults.new)
        ⊎ LeavesWith (R.text_of rt.now) n1 matches.now (I.remaining input.old) (I.remaining input.new) (W.contents output.old)
        (W.contents output.new) (E.contents faults.old) (E.contents faults.new) }
    ensures told { result ≡ 2 → RefusesWith (R.text_of rt.now) n1 matches.now (E.contents faults.old) (E.contents faults.new) }
{
    match sim_options_of(rt, alloc, matches, n1, faults) {
        Ok(options) => sim_with(rt, alloc, matches, options, input, output, faults),
        Err(status) => status,
    }
}

/// Runs the subcommand that a parse met.
fn run_named<R, I: Read, J, W: Write, E: Write, P: Write>(
    rt: &R,
    alloc: Global,
    matches: &ArgMatches<'_>,
    input: &mut I,
    lines: J,
    output: &mut W,
    faults: &mut E,
    progress: &mut Progress<P>,
    terminal: bool,
) -> u8
where
    R: Files<File = File>
        + TextFiles
        + Threads
        + Wait
        + Clock
        + RandomSource
        + AllocGlobal
        + Copy
        + Send
        + Drop
        + 'static,
    J: Read + Send + Drop + 'static,
    ensures status { result ≤ 3 }
    ensures three { result ≡ 3 → subcommand_name_of matches.now ≡ Some (codes "show") }
    ensures bad { result ≡ 2 → subcommand_name_of matches.now ≢ Some (codes "drive") → output.new ≡ output.old }
    ensures unread { HasNoNumber (subcommand_rows_of matches.now) → input.new ≡ input.old }
    ensures nothing { result ≡ 1 → subcommand_name_of matches.now ≢ Some (codes "sim")
        → subcommand_name_of matches.now ≢ Some (codes "drive") → subcommand_name_of matches.now ≢ Some (codes "replay")
        → subcommand_name_of matches.now ≢ Some (codes "show")
        → HasGivenUp (is_explained terminal (subcommand_rows_of matches.now)) output.old output.new (E.contents faults.old)
        (E.contents faults.new) result }
    ensures unreplayed { result ≡ 1 → subcommand_name_of matches.now ≡ Some (codes "replay")
        → NamesCause (is_explained terminal (subcommand_rows_of matches.now))
        (raw_in (subcommand_rows_of matches.now) (codes "dialect")) output.old output.new (E.contents faults.old)
        (E.contents faults.new) result }
    ensures undriven { result ≡ 1 → subcommand_name_of matches.now ≡ Some (codes "drive")
        → IsShut (R.is_shut rt.now) (raw_in (subcommand_rows_of matches.now) (codes "dialect"))
        → NamesCause true (raw_in (subcommand_rows_of matches.now) (codes "dialect")) output.old output.new
        (E.contents faults.old) (E.contents faults.new) result }
    ensures replay_shut { subcommand_name_of matches.now ≡ Some (codes "replay")
        → IsShut (R.is_shut rt.now) (raw_in (subcommand_rows_of matches.now) (codes "dialect")) → 0 < result }
    ensures drive_shut { subcommand_name_of matches.now ≡ Some (codes "drive")
        → IsShut (R.is_shut rt.now) (raw_in (subcommand_rows_of matches.now) (codes "dialect"))
        → (0 < result) × (output.new ≡ output.old) }
    ensures frames { result ≡ 0 → subcommand_name_of matches.now ≡ Some (codes "frames")
        → PrintsFrames (subcommand_rows_of matches.now) (I.remaining input.old) (W.contents output.old)
        (W.contents output.new) }
    ensures replay { result ≡ 0 → subcommand_name_of matches.now ≡ Some (codes "replay")
        → PrintsReplay (R.text_of rt.now) (subcommand_rows_of matches.now) (I.remaining input.old) (W.contents output.old)
        (W.contents output.new) }
    ensures bench { result ≡ 0 → subcommand_name_of matches.now ≡ Some (codes "bench")
        → PrintsBench (subcommand_rows_of matches.now) (I.remaining input.old) (W.contents output.old)
        (W.contents output.new) }
    ensures sim { result ≡ 0 → subcommand_name_of matches.now ≡ Some (codes "sim")
        → names_files (subcommand_rows_of matches.now) ≡ false
        → ServesClient (R.text_of rt.now) (subcommand_rows_of matches.now) (I.remaining input.old) (W.contents output.old)
        (W.contents output.new) }
    ensures silent { result ≡ 0 → (subcommand_name_of matches.now ≡ Some (codes "drive") → ⊥)
        → (subcommand_name_of matches.now ≡ Some (codes "sim") → names_files (subcommand_rows_of matches.now) ≡ false)
        → faults.new ≡ faults.old }
    ensures sim_left { result ≡ 1 → subcommand_name_of matches.now ≡ Some (codes "sim")
        → names_files (subcommand_rows_of matches.now) ≡ false
        → IsNotBegun (files_given (subcommand_rows_of matches.now)) input.old input.new output.old output.new
        (E.contents faults.old) (E.contents faults.new)
        ⊎ LeavesClient (R.text_of rt.now) (subcommand_rows_of matches.now) (I.remaining input.old) (I.remaining input.new)
        (W.contents output.old) (W.contents output.new) (E.contents faults.old) (E.contents faults.new) }
    ensures sim_bad { result ≡ 2 → subcommand_name_of matches.now ≡ Some (codes "sim")
        → names_files (subcommand_rows_of matches.now) ≡ false
        → RefusesClient (R.text_of rt.now) (subcommand_rows_of matches.now) (E.contents faults.old) (E.contents faults.new) }
    ensures sim_data { result ≡ 0 → subcommand_name_of matches.now ≡ Some (codes "sim")
        → names_files (subcommand_rows_of matches.now) ≡ true
        → ServesData (all_in (subcommand_rows_of matches.now) (codes "data")) (E.contents faults.old) (E.contents faults.new) }
    ensures sim_data_left { result ≡ 1 → subcommand_name_of matches.now ≡ Some (codes "sim")
        → names_files (subcommand_rows_of matches.now) ≡ true
        → LeavesData (files_given (subcommand_rows_of matches.now)) (all_in (subcommand_rows_of matches.now) (codes "data")) output.old
        output.new (E.contents faults.old) (E.contents faults.new) }
    ensures sim_data_bad { result ≡ 2 → subcommand_name_of matches.now ≡ Some (codes "sim")
        → names_files (subcommand_rows_of matches.now) ≡ true
        → SaysNoPaths (E.contents faults.old) (E.contents faults.new)
        ⊎ RefusesClient (R.text_of rt.now) (subcommand_rows_of matches.now) (E.contents faults.old) (E.contents faults.new) }
    ensures sim_data_unread { subcommand_name_of matches.now ≡ Some (codes "sim")
        → names_files (subcommand_rows_of matches.now) ≡ true
        → input.new ≡ input.old }
    ensures drive { result ≡ 0 → subcommand_name_of matches.now ≡ Some (codes "drive")
        → PrintsDrive (R.text_of rt.now) (subcommand_rows_of matches.now) (W.contents output.old) (W.contents output.new)
        (E.contents faults.old) (E.contents faults.new) false }
    ensures drive_bad { result ≡ 2 → subcommand_name_of matches.now ≡ Some (codes "drive") → (output.new ≡ output.old)
        ⊎ PrintsDrive (R.text_of rt.now) (subcommand_rows_of matches.now) (W.contents output.old) (W.contents output.new)
        (E.contents faults.old) (E.contents faults.new) true }
    ensures show { (result ≡ 0) ⊎ (result ≡ 3) → subcommand_name_of matches.now ≡ Some (codes "show")
        → PrintsShow (R.text_of rt.now) (subcommand_rows_of matches.now) (W.contents output.old) (W.contents output.new) result }
    ensures show_silent { (result ≡ 0) ⊎ (result ≡ 3) → subcommand_name_of matches.now ≡ Some (codes "show")
        → faults.new ≡ faults.old }
    ensures unshown { result ≡ 1 → subcommand_name_of matches.now ≡ Some (codes "show")
        → SaysUnshown (raw_in (subcommand_rows_of matches.now) (codes "dialect")) (raw_in (subcommand_rows_of matches.now) (codes "raw"))
        (raw_in (subcommand_rows_of matches.now) (codes "file")) (E.contents faults.old) (E.contents faults.new) result }
    ensures show_shut { subcommand_name_of matches.now ≡ Some (codes "show")
        → IsShut (R.is_shut rt.now) (raw_in (subcommand_rows_of matches.now) (codes "dialect"))
        ⊎ (IsShutFile (R.is_shut rt.now) (raw_in (subcommand_rows_of matches.now) (codes "file"))
        ⊎ IsShutFile (R.is_shut rt.now) (raw_in (subcommand_rows_of matches.now) (codes "raw")))
        → (0 < result) × ((result ≤ 2) × (output.new ≡ output.old)) }
    ensures show_read { subcommand_name_of matches.now ≡ Some (codes "show")
        → TellsShow (R.text_of rt.now) (raw_in (subcommand_rows_of matches.now) (codes "raw"))
        (raw_in (subcommand_rows_of matches.now) (codes "file")) progress.old.shown progress.new result }
    ensures untold { progress.old.is_on ≡ false → progress.new ≡ progress.old }
    ensures frames_bad { result ≡ 2 → subcommand_name_of matches.now ≡ Some (codes "frames")
        → RefusesFrames (is_explained terminal (subcommand_rows_of matches.now)) (subcommand_rows_of matches.now) (I.remaining input.old)
        (E.contents faults.old) (E.contents faults.new) }
    ensures replay_bad { result ≡ 2 → subcommand_name_of matches.now ≡ Some (codes "replay")
        → RefusesReplay (is_explained terminal (subcommand_rows_of matches.now)) (subcommand_rows_of matches.now) (I.remaining input.old)
        (E.contents faults.old) (E.contents faults.new) }
    ensures bench_bad { result ≡ 2 → subcommand_name_of matches.now ≡ Some (codes "bench")
        → RefusesBench (is_explained terminal (subcommand_rows_of matches.now)) (subcommand_rows_of matches.now) (I.remaining input.old)
        (E.contents faults.old) (E.contents faults.new) }
    ensures show_bad { result ≡ 2 → subcommand_name_of matches.now ≡ Some (codes "show")
        → RefusesShow (raw_in (subcommand_rows_of matches.now) (codes "dialect")) (raw_in (subcommand_rows_of matches.now) (codes "raw"))
        (raw_in (subcommand_rows_of matches.now) (codes "file")) (E.contents faults.old) (E.contents faults.new) }
    ensures drive_fault { result ≡ 1 → subcommand_name_of matches.now ≡ Some (codes "drive")
        → SaysUndriven (raw_in (subcommand_rows_of matches.now) (codes "dialect")) (raw_in (subcommand_rows_of matches.now) (codes "device"))
        (raw_in (subcommand_rows_of matches.now) (codes "capture")) (raw_in (subcommand_rows_of matches.now) (codes "arm"))
        (all_in (subcommand_rows_of matches.now) (codes "data")) (all_in (subcommand_rows_of matches.now) (codes "text"))
        (E.contents faults.old) (E.contents faults.new) }
    ensures others { subcommand_name_of matches.now ≢ Some (codes "show") → progress.new ≡ progress.old }
{
    let Some((name, given)) = matches.subcommand() else {
        return 2;
    };
    let numbers = match numbers_of(given) {
        Ok(numbers) => numbers,
        Err(option) => return refuse(faults, option),
    };
    let explained = wants_reason(given, terminal);
    match name {
        "frames" => frames_run_explained(alloc, input, output, faults, numbers.n1, explained),
        "replay" => replay_words(
            rt, alloc, given, numbers.n1, input, output, faults, explained,
        ),
        "bench" => bench_plain(rt, alloc, numbers, input, output, faults, explained),
        "sim" => sim_any(rt, alloc, given, numbers.n1, input, lines, output, faults),
        "drive" => drive_words(rt, given, numbers.n1, lines, output, faults),
        "show" => show_words(rt, alloc, given, numbers.n1, output, faults, progress),
        _ => 2,
    }
}

/// Runs the subcommand that the words name; before them stands the program's own name. Gives the exit status: 0 where it is
/// done, 1 at a fault, 2 at bad words or a bad line, 3 at a complaint of a strict `show`. `lines` reads the same input from the
/// thread that `drive` and `sim --data` start. Where `terminal` says that `faults` writes to a terminal, the reason of a fault is
/// said too. `show` tells on `progress` how much of a capture was read.
pub fn run<R, I: Read, J, W: Write, E: Write, P: Write>(
    rt: &R,
    alloc: Global,
    words: &[String],
    input: &mut I,
    lines: J,
    output: &mut W,
    faults: &mut E,
    progress: &mut Progress<P>,
    terminal: bool,
) -> u8
where
    R: Files<File = File>
        + TextFiles
        + Threads
        + Wait
        + Clock
        + RandomSource
        + AllocGlobal
        + Copy
        + Send
        + Drop
        + 'static,
    J: Read + Send + Drop + 'static,
    ensures status { result ≤ 3 }
    ensures three { result ≡ 3 → AreFor (codes "show") (texts_of words.now) }
    ensures bad { result ≡ 2 → (AreFor (codes "drive") (texts_of words.now) → ⊥) → output.new ≡ output.old }
    ensures wrong { fault_in (texts_of words.now) ≢ []
        → AsksNoHelp (fault_in (texts_of words.now)) → 0 < result }
    ensures unread { fault_in (texts_of words.now) ≢ [] → input.new ≡ input.old }
    ensures no_number { fault_in (texts_of words.now) ≡ []
        → HasNoNumber (met_in (texts_of words.now)) → input.new ≡ input.old }
    ensures nothing { result ≡ 1 → (AreFor (codes "sim") (texts_of words.now) → ⊥)
        → (AreFor (codes "drive") (texts_of words.now) → ⊥)
        → (AreFor (codes "replay") (texts_of words.now) → ⊥)
        → (AreFor (codes "show") (texts_of words.now) → ⊥)
        → HasGivenUp (is_explained terminal (met_in (texts_of words.now))) output.old output.new (E.contents faults.old)
        (E.contents faults.new) result }
    ensures unreplayed { result ≡ 1 → AreFor (codes "replay") (texts_of words.now)
        → NamesCause (is_explained terminal (met_in (texts_of words.now)))
        (raw_in (met_in (texts_of words.now)) (codes "dialect")) output.old output.new (E.contents faults.old)
        (E.contents faults.new) result }
    ensures undriven { result ≡ 1 → AreFor (codes "drive") (texts_of words.now)
        → IsShut (R.is_shut rt.now) (raw_in (met_in (texts_of words.now)) (codes "dialect"))
        → NamesCause true (raw_in (met_in (texts_of words.now)) (codes "dialect")) output.old output.new
        (E.contents faults.old) (E.contents faults.new) result }
    ensures replay_shut { AreFor (codes "replay") (texts_of words.now)
        → IsShut (R.is_shut rt.now) (raw_in (met_in (texts_of words.now)) (codes "dialect")) → 0 < result }
    ensures drive_shut { AreFor (codes "drive") (texts_of words.now)
        → IsShut (R.is_shut rt.now) (raw_in (met_in (texts_of words.now)) (codes "dialect"))
        → (0 < result) × (output.new ≡ output.old) }
    ensures frames { result ≡ 0 → AreFor (codes "frames") (texts_of words.now)
        → PrintsFrames (met_in (texts_of words.now)) (I.remaining input.old) (W.contents output.old)
        (W.contents output.new) }
    ensures replay { result ≡ 0 → AreFor (codes "replay") (texts_of words.now)
        → PrintsReplay (R.text_of rt.now) (met_in (texts_of words.now)) (I.remaining input.old) (W.contents output.old)
        (W.contents output.new) }
    ensures bench { result ≡ 0 → AreFor (codes "bench") (texts_of words.now)
        → PrintsBench (met_in (texts_of words.now)) (I.remaining input.old) (W.contents output.old)
        (W.contents output.new) }
    ensures sim { result ≡ 0 → AreForSim false (texts_of words.now)
        → ServesClient (R.text_of rt.now) (met_in (texts_of words.now)) (I.remaining input.old) (W.contents output.old)
        (W.contents output.new) }
    ensures silent { result ≡ 0 → (AreFor (codes "drive") (texts_of words.now) → ⊥) → (AreForSim true (texts_of words.now) → ⊥)
        → faults.new ≡ faults.old }
    ensures sim_left { result ≡ 1 → AreForSim false (texts_of words.now)
        → IsNotBegun (files_given (met_in (texts_of words.now))) input.old input.new output.old output.new
        (E.contents faults.old) (E.contents faults.new)
        ⊎ LeavesClient (R.text_of rt.now) (met_in (texts_of words.now)) (I.remaining input.old) (I.remaining input.new)
        (W.contents output.old) (W.contents output.new) (E.contents faults.old) (E.contents faults.new) }
    ensures sim_bad { result ≡ 2 → AreForSim false (texts_of words.now)
        → RefusesClient (R.text_of rt.now) (met_in (texts_of words.now)) (E.contents faults.old) (E.contents faults.new) }
    ensures sim_data { result ≡ 0 → AreForSim true (texts_of words.now)
        → ServesData (all_in (met_in (texts_of words.now)) (codes "data")) (E.contents faults.old) (E.contents faults.new) }
    ensures sim_data_left { result ≡ 1 → AreForSim true (texts_of words.now)
        → LeavesData (files_given (met_in (texts_of words.now))) (all_in (met_in (texts_of words.now)) (codes "data")) output.old output.new
        (E.contents faults.old) (E.contents faults.new) }
    ensures sim_data_bad { result ≡ 2 → AreForSim true (texts_of words.now) → SaysNoPaths (E.contents faults.old) (E.contents faults.new)
        ⊎ RefusesClient (R.text_of rt.now) (met_in (texts_of words.now)) (E.contents faults.old) (E.contents faults.new) }
    ensures sim_data_unread { AreForSim true (texts_of words.now) → input.new ≡ input.old }
    ensures drive { result ≡ 0 → AreFor (codes "drive") (texts_of words.now)
        → PrintsDrive (R.text_of rt.now) (met_in (texts_of words.now)) (W.contents output.old) (W.contents output.new)
        (E.contents faults.old) (E.contents faults.new) false }
    ensures drive_bad { result ≡ 2 → AreFor (codes "drive") (texts_of words.now) → (output.new ≡ output.old)
        ⊎ PrintsDrive (R.text_of rt.now) (met_in (texts_of words.now)) (W.contents output.old) (W.contents output.new)
        (E.contents faults.old) (E.contents faults.new) true }
    ensures show { (result ≡ 0) ⊎ (result ≡ 3) → AreFor (codes "show") (texts_of words.now)
        → PrintsShow (R.text_of rt.now) (met_in (texts_of words.now)) (W.contents output.old) (W.contents output.new) result }
    ensures show_silent { (result ≡ 0) ⊎ (result ≡ 3) → AreFor (codes "show") (texts_of words.now)
        → faults.new ≡ faults.old }
    ensures unshown { result ≡ 1 → AreFor (codes "show") (texts_of words.now)
        → SaysUnshown (raw_in (met_in (texts_of words.now)) (codes "dialect")) (raw_in (met_in (texts_of words.now)) (codes "raw"))
        (raw_in (met_in (texts_of words.now)) (codes "file")) (E.contents faults.old) (E.contents faults.new) result }
    ensures show_shut { AreFor (codes "show") (texts_of words.now)
        → IsShut (R.is_shut rt.now) (raw_in (met_in (texts_of words.now)) (codes "dialect"))
        ⊎ (IsShutFile (R.is_shut rt.now) (raw_in (met_in (texts_of words.now)) (codes "file"))
        ⊎ IsShutFile (R.is_shut rt.now) (raw_in (met_in (texts_of words.now)) (codes "raw")))
        → (0 < result) × ((result ≤ 2) × (output.new ≡ output.old)) }
    ensures show_read { AreFor (codes "show") (texts_of words.now)
        → TellsShow (R.text_of rt.now) (raw_in (met_in (texts_of words.now)) (codes "raw"))
        (raw_in (met_in (texts_of words.now)) (codes "file")) progress.old.shown progress.new result }
    ensures untold { progress.old.is_on ≡ false → progress.new ≡ progress.old }
    ensures frames_bad { result ≡ 2 → AreFor (codes "frames") (texts_of words.now)
        → RefusesFrames (is_explained terminal (met_in (texts_of words.now))) (met_in (texts_of words.now)) (I.remaining input.old)
        (E.contents faults.old) (E.contents faults.new) }
    ensures replay_bad { result ≡ 2 → AreFor (codes "replay") (texts_of words.now)
        → RefusesReplay (is_explained terminal (met_in (texts_of words.now))) (met_in (texts_of words.now)) (I.remaining input.old)
        (E.contents faults.old) (E.contents faults.new) }
    ensures bench_bad { result ≡ 2 → AreFor (codes "bench") (texts_of words.now)
        → RefusesBench (is_explained terminal (met_in (texts_of words.now))) (met_in (texts_of words.now)) (I.remaining input.old)
        (E.contents faults.old) (E.contents faults.new) }
    ensures show_bad { result ≡ 2 → AreFor (codes "show") (texts_of words.now)
        → RefusesShow (raw_in (met_in (texts_of words.now)) (codes "dialect")) (raw_in (met_in (texts_of words.now)) (codes "raw"))
        (raw_in (met_in (texts_of words.now)) (codes "file")) (E.contents faults.old) (E.contents faults.new) }
    ensures drive_fault { result ≡ 1 → AreFor (codes "drive") (texts_of words.now)
        → SaysUndriven (raw_in (met_in (texts_of words.now)) (codes "dialect")) (raw_in (met_in (texts_of words.now)) (codes "device"))
        (raw_in (met_in (texts_of words.now)) (codes "capture")) (raw_in (met_in (texts_of words.now)) (codes "arm"))
        (all_in (met_in (texts_of words.now)) (codes "data")) (all_in (met_in (texts_of words.now)) (codes "text"))
        (E.contents faults.old) (E.contents faults.new) }
    ensures others { (AreFor (codes "show") (texts_of words.now) → ⊥) → progress.new ≡ progress.old }
{
    let command = match program(alloc) {
        Ok(command) => command,
        Err(_) => return give_up(faults, Stop::NoMemory),
    };
    match command.try_get_matches_from(words) {
        Ok(matches) => run_named(
            rt, alloc, &matches, input, lines, output, faults, progress, terminal,
        ),
        Err(error) => explain(output, faults, &error, words),
    }
}
