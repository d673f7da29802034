//! The words of a modem for a client with files beside connections.
ghost use Rattle.std.specs.Prelude.{◌≡◌, ◌≤◌, ◌⊎◌, codes, false, true};
ghost use Rattle.clap.specs.Words.{first_value, found_of};
ghost use Rattle.ctl_sim.specs.DataEnds.{EndsByDataFault, HasServedOpened};
ghost use Rattle.ctl_sim.specs.Leaving.{SaysBad};
ghost use Rattle.modemctl.specs.Shows.{given_for};
ghost use Rattle.modemctl.specs.SimData.{LeavesData, SaysNoPaths, ServesData, gives_some};
ghost use Rattle.modemctl.specs.Sims.{HasNoCapture, IsNotBegun, LeavesWith, RefusesWith, ServesWith, files_matched};

use crate::words::data_paths::{paths_of, refuse_data};
use crate::words::files::{capture_at, refuse_capture};
use crate::words::sim_words;
use crate::words::sims::sim_options_of;
use crate::words::text_files::TextFiles;
use clap::ArgMatches;
use ctl_sim::{SimOptions, sim_data_run};
use file_threads::DataPath;
use modem_data::Begin;
use std::alloc::{AllocGlobal, Global};
use std::fs::File;
use std::io::{Read, Write};
use std::rt::{Clock, Files};
use std::sync::Wait;
use std::thread::Threads;

/// Whether the words name files beside connections.
fn has_paths(matches: &ArgMatches<'_>) -> bool
    ensures { result ≡ gives_some (given_for matches.now (codes "data")) }
{
    match matches.get_strs("data") {
        Some(texts) => !texts.is_empty(),
        None => false,
    }
}

/// Is a modem for a client with these files beside connections, and with a capture where the words name a file for it.
fn sim_data_with<R, J, W: Write, E: Write>(
    rt: &R,
    matches: &ArgMatches<'_>,
    data_paths: &[DataPath<'_>],
    options: SimOptions,
    lines: J,
    output: &mut W,
    faults: &mut E,
) -> u8
where
    R: Files<File = File> + Threads + Wait + Clock + AllocGlobal + Copy + Send + Drop + 'static,
    J: Read + Send + Drop + 'static,
    ensures status { result ≤ 2 }
    ensures bad { result ≡ 2 → output.new ≡ output.old }
    ensures served { result ≡ 0 → HasServedOpened data_paths.now (E.contents faults.old) (E.contents faults.new) }
    ensures left { result ≡ 1 → ((output.new ≡ output.old)
        × HasNoCapture (first_value (found_of matches.now) (codes "capture")) (E.contents faults.old) (E.contents faults.new))
        ⊎ EndsByDataFault data_paths.now (E.contents faults.old) (E.contents faults.new) }
    ensures told { result ≡ 2 → SaysBad options (E.contents faults.old) (E.contents faults.new) }
{
    let Some(path) = matches.get_str("capture") else {
        return sim_data_run(rt, data_paths, lines, output, faults, options, None);
    };
    match capture_at(rt, rt.alloc(), path, options.n1) {
        Ok(capture) => sim_data_run(
            rt,
            data_paths,
            lines,
            output,
            faults,
            options,
            Some(capture),
        ),
        Err(fault) => refuse_capture(rt.alloc(), faults, path, fault),
    }
}

/// Is a modem for a client with the files beside connections that the words name. Words that are no connections and paths are refused
/// before anything is read, opened or made.
fn sim_data_words<R, J, W: Write, E: Write>(
    rt: &R,
    alloc: Global,
    matches: &ArgMatches<'_>,
    n1: u16,
    lines: J,
    output: &mut W,
    faults: &mut E,
) -> u8
where
    R: Files<File = File>
        + TextFiles
        + Threads
        + Wait
        + Clock
        + AllocGlobal
        + Copy
        + Send
        + Drop
        + 'static,
    J: Read + Send + Drop + 'static,
    ensures status { result ≤ 2 }
    ensures bad { result ≡ 2 → output.new ≡ output.old }
    ensures served { result ≡ 0
        → ServesData (given_for matches.now (codes "data")) (E.contents faults.old) (E.contents faults.new) }
    ensures left { result ≡ 1 → LeavesData (files_matched matches.now) (given_for matches.now (codes "data")) output.old output.new
        (E.contents faults.old) (E.contents faults.new) }
    ensures told { result ≡ 2 → SaysNoPaths (E.contents faults.old) (E.contents faults.new)
        ⊎ RefusesWith (R.text_of rt.now) n1 matches.now (E.contents faults.old) (E.contents faults.new) }
{
    let data_paths = match paths_of(alloc, matches, "data", Begin::ByOwnConnect) {
        Ok(data_paths) => data_paths,
        Err(fault) => return refuse_data(faults, "--data takes", fault),
    };
    match sim_options_of(rt, alloc, matches, n1, faults) {
        Ok(options) => sim_data_with(
            rt,
            matches,
            data_paths.as_slice(),
            options,
            lines,
            output,
            faults,
        ),
        Err(status) => status,
    }
}

/// Is a modem for a client, on `lines` with files beside connections where the words name some, and else on `input`.
pub fn sim_any<R, I: Read, J, W: Write, E: Write>(
    rt: &R,
    alloc: Global,
    matches: &ArgMatches<'_>,
    n1: u16,
    input: &mut I,
    lines: J,
    output: &mut W,
    faults: &mut E,
) -> u8
where
    R: Files<File = File>
        + TextFiles
        + Threads
        + Wait
        + Clock
        + AllocGlobal
        + Copy
        + Send
        + Drop
        + 'static,
    J: Read + Send + Drop + 'static,
    ensures status { result ≤ 2 }
    ensures bad { result ≡ 2 → output.new ≡ output.old }
    ensures served { result ≡ 0 → gives_some (given_for matches.now (codes "data")) ≡ false
        → ServesWith (R.text_of rt.now) n1 matches.now (I.remaining input.old) (W.contents output.old) (W.contents output.new) }
    ensures silent { result ≡ 0 → gives_some (given_for matches.now (codes "data")) ≡ false → faults.new ≡ faults.old }
    ensures left { result ≡ 1 → gives_some (given_for matches.now (codes "data")) ≡ false
        → IsNotBegun (files_matched matches.now) input.old input.new output.old output.new (E.contents faults.old) (E.contents faults.new)
        ⊎ LeavesWith (R.text_of rt.now) n1 matches.now (I.remaining input.old) (I.remaining input.new) (W.contents output.old)
        (W.contents output.new) (E.contents faults.old) (E.contents faults.new) }
    ensures told { result ≡ 2 → gives_some (given_for matches.now (codes "data")) ≡ false
        → RefusesWith (R.text_of rt.now) n1 matches.now (E.contents faults.old) (E.contents faults.new) }
    ensures served_data { result ≡ 0 → gives_some (given_for matches.now (codes "data")) ≡ true
        → ServesData (given_for matches.now (codes "data")) (E.contents faults.old) (E.contents faults.new) }
    ensures left_data { result ≡ 1 → gives_some (given_for matches.now (codes "data")) ≡ true
        → LeavesData (files_matched matches.now) (given_for matches.now (codes "data")) output.old output.new (E.contents faults.old)
        (E.contents faults.new) }
    ensures told_data { result ≡ 2 → gives_some (given_for matches.now (codes "data")) ≡ true
        → SaysNoPaths (E.contents faults.old) (E.contents faults.new)
        ⊎ RefusesWith (R.text_of rt.now) n1 matches.now (E.contents faults.old) (E.contents faults.new) }
    ensures unread { gives_some (given_for matches.now (codes "data")) ≡ true → input.new ≡ input.old }
{
    if has_paths(matches) {
        return sim_data_words(rt, alloc, matches, n1, lines, output, faults);
    }
    sim_words(rt, alloc, matches, n1, input, output, faults)
}
