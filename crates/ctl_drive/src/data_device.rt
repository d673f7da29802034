//! A drive on a device, with files beside connections that carry data, from the paths to the status.
ghost use Rattle.std.specs.Prelude.{◌≡◌, ◌≢◌, ◌≤◌, ◌==◌, [], All, IfOk, IfSome, None, false, is_some, map, true};
ghost use Rattle.std.specs.Duration.{as_nanos};
ghost use Rattle.data_files.specs.Files.{IsFresh, dlcis};
ghost use Rattle.modem_data.specs.PipeSets.{numbers};
ghost use Rattle.ctl_drive.specs.CapturedLine.{HasBegun};
ghost use Rattle.ctl_drive.specs.DataDevice.{DroveFiles, DroveFilesCaptured, DroveFilesDevice, DroveFilesLine, DroveFilesWell, EndsFilesByFault, EndsWith, RanFiles};
ghost use Rattle.file_threads.specs.DataPaths.{opened_files};
ghost use Rattle.ctl_drive.specs.Driving.{period_of};
ghost use Rattle.ctl_drive.specs.Entry.{entry_for, given_text};
ghost use Rattle.ctl_drive.specs.FileEnds.{NamesEnds};
ghost use Rattle.ctl_drive.specs.OnDevice.{capture_path};

use crate::captured_line::CapturedLine;
use crate::data_drive::drive_data_over;
use crate::fault::DriveFault;
use crate::on_device::{Opened, Threaded, judge_capture, open_all, start_threads};
use crate::running::Driven;
use crate::saying::{Paths, say_end, say_fault};
use crate::settings::Settings;
use bell::Bell;
use data_files::DataFile;
use device_line::DeviceLine;
use file_threads::{DataPath, say_files, say_full, start_files, write_out};
use mux_capture::Capture;
use mux_frame::Dlci;
use serial_line::SerialLine;
use std::alloc::{AllocError, AllocGlobal, Global};
use std::fs::File;
use std::io::{Read, Write};
use std::rt::{Clock, Files};
use std::sync::Wait;
use std::thread::Threads;

/// The connections, in order.
#[tactic(auto, using(crate::proofs::DataDevice::dlcis_none, crate::proofs::DataDevice::dlcis_more, crate::proofs::DataDevice::dlcis_all))]
fn dlcis_in(alloc: Global, data_paths: &[DataPath<'_>]) -> Result<Vec<Dlci>, AllocError>
    ensures { IfOk result (λ named. named.items ≡ map (λ p. p.dlci) data_paths.now) }
{
    let mut named = Vec::new(alloc);
    let mut place = 0;
    while place < data_paths.len() {
        named.push(data_paths[place].dlci)?;
        place += 1;
    }
    Ok(named)
}

/// The fault of a drive, behind which octets may be unwritten.
fn fault_unless(fault: Option<DriveFault>, is_written: bool) -> Option<DriveFault>
    ensures { result ≡ None → (fault ≡ None) × (is_written ≡ true) }
{
    match fault {
        None if !is_written => Some(DriveFault::Unwritten),
        fault => fault,
    }
}

/// Drives a modem as `drive_data_over` does. Then what came on the connections is written to the files, for ten seconds at most, and it is
/// said what came of each. Where not all is written, that is the fault, unless there is another.
fn drive_files<L, P, R, I, W, E>(
    rt: &R,
    alloc: Global,
    bell: &Bell,
    line: L,
    files: Vec<DataFile<P>>,
    input: I,
    output: &mut W,
    faults: &mut E,
    settings: Settings<'_>,
) -> Result<(L, Driven), DriveFault>
where
    L: SerialLine + Drop,
    P: SerialLine + Drop,
    R: Wait + Clock + Copy + Drop,
    I: Read + Drop,
    W: Write,
    E: Write,
    requires fresh { All (IsFresh P.seen) files.items }
    requires named { dlcis files.items ≡ numbers settings.data.now }
    ensures drove { IfOk result (λ r. r.1.fault ≡ None → DroveFiles L.seen P.seen settings.entry.dialect.now
        (entry_for (given_text settings.entry.entry) settings.entry.n1) settings.entry.n1
        (period_of (as_nanos settings.entry.tick)) line r.0 files.items (I.remaining input)
        (W.contents output.old) (W.contents output.new) (E.contents faults.old) (E.contents faults.new) r.1.was_bad r.1.left) }
    ensures names { NamesEnds (I.remaining input) (E.contents faults.old) (E.contents faults.new) }
{
    let (last, driven) = drive_data_over(
        rt, alloc, bell, line, files, input, output, faults, settings,
    )?;
    let mut last = last;
    let is_written = write_out(rt, &mut last);
    say_files(faults, &last);
    let Driven {
        fault,
        was_bad,
        left,
    } = driven;
    let fault = fault_unless(fault, is_written);
    let (line, _) = last.into_parts();
    let (line, _) = line.into_parts();
    Ok((
        line,
        Driven {
            fault,
            was_bad,
            left,
        },
    ))
}

/// The same, without the line.
fn drive_files_plain<L, P, R, I, W, E>(
    rt: &R,
    alloc: Global,
    bell: &Bell,
    line: L,
    files: Vec<DataFile<P>>,
    input: I,
    output: &mut W,
    faults: &mut E,
    settings: Settings<'_>,
) -> Result<Driven, DriveFault>
where
    L: SerialLine + Drop,
    P: SerialLine + Drop,
    R: Wait + Clock + Copy + Drop,
    I: Read + Drop,
    W: Write,
    E: Write,
    requires fresh { All (IsFresh P.seen) files.items }
    requires named { dlcis files.items ≡ numbers settings.data.now }
    ensures drove { IfOk result (λ d. d.fault ≡ None → DroveFilesWell L.seen P.seen settings.entry.dialect.now
        (entry_for (given_text settings.entry.entry) settings.entry.n1) settings.entry.n1
        (period_of (as_nanos settings.entry.tick)) line files.items (I.remaining input)
        (W.contents output.old) (W.contents output.new) (E.contents faults.old) (E.contents faults.new) d.was_bad d.left) }
    ensures names { NamesEnds (I.remaining input) (E.contents faults.old) (E.contents faults.new) }
{
    let (_, driven) = drive_files(
        rt, alloc, bell, line, files, input, output, faults, settings,
    )?;
    Ok(driven)
}

/// The same on a line on which nothing has passed, with a capture that has begun: the frames that pass go there. One that fails is the
/// fault where there is no other.
fn drive_files_captured<L, P, R, C, I, W, E>(
    rt: &R,
    alloc: Global,
    bell: &Bell,
    line: L,
    files: Vec<DataFile<P>>,
    capture: Capture<C>,
    input: I,
    output: &mut W,
    faults: &mut E,
    settings: Settings<'_>,
) -> Result<Driven, DriveFault>
where
    L: SerialLine + Drop,
    P: SerialLine + Drop,
    R: Wait + Clock + Copy + Drop,
    C: Write + Drop,
    I: Read + Drop,
    W: Write,
    E: Write,
    requires fresh { All (IsFresh P.seen) files.items }
    requires named { dlcis files.items ≡ numbers settings.data.now }
    requires none { ((L.seen line).received ≡ []) × ((L.seen line).sent ≡ []) }
    requires begun { HasBegun capture }
    ensures drove { IfOk result (λ d. d.fault ≡ None → DroveFilesCaptured L.seen P.seen settings.entry.dialect.now
        (entry_for (given_text settings.entry.entry) settings.entry.n1) settings.entry.n1
        (period_of (as_nanos settings.entry.tick)) line files.items (I.remaining input)
        (W.contents output.old) (W.contents output.new) (E.contents faults.old) (E.contents faults.new) d.was_bad d.left) }
    ensures names { NamesEnds (I.remaining input) (E.contents faults.old) (E.contents faults.new) }
{
    let line = CapturedLine::new(line, *rt, capture);
    let ended = drive_files(
        rt, alloc, bell, line, files, input, output, faults, settings,
    )?;
    Ok(judge_capture(ended))
}

/// The same with a capture if it is given.
fn drive_files_by<L, P, R, C, I, W, E>(
    rt: &R,
    alloc: Global,
    bell: &Bell,
    line: L,
    files: Vec<DataFile<P>>,
    capture: Option<Capture<C>>,
    input: I,
    output: &mut W,
    faults: &mut E,
    settings: Settings<'_>,
) -> Result<Driven, DriveFault>
where
    L: SerialLine + Drop,
    P: SerialLine + Drop,
    R: Wait + Clock + Copy + Drop,
    C: Write + Drop,
    I: Read + Drop,
    W: Write,
    E: Write,
    requires fresh { All (IsFresh P.seen) files.items }
    requires named { dlcis files.items ≡ numbers settings.data.now }
    requires none { ((L.seen line).received ≡ []) × ((L.seen line).sent ≡ []) }
    requires begun { IfSome capture HasBegun }
    ensures drove { IfOk result (λ d. d.fault ≡ None → DroveFilesLine (is_some capture) L.seen P.seen settings.entry.dialect.now
        (entry_for (given_text settings.entry.entry) settings.entry.n1) settings.entry.n1
        (period_of (as_nanos settings.entry.tick)) line files.items (I.remaining input)
        (W.contents output.old) (W.contents output.new) (E.contents faults.old) (E.contents faults.new) d.was_bad d.left) }
    ensures names { NamesEnds (I.remaining input) (E.contents faults.old) (E.contents faults.new) }
{
    match capture {
        Some(capture) => drive_files_captured(
            rt, alloc, bell, line, files, capture, input, output, faults, settings,
        ),
        None => drive_files_plain(
            rt, alloc, bell, line, files, input, output, faults, settings,
        ),
    }
}

/// Drives a modem on the device of this path with files between rings, at which nothing has passed, with a capture where the settings
/// name a file. Refused too where the device can't be opened or the capture made.
fn drive_data_path<R, I, W, E>(
    rt: &R,
    bell: &Bell,
    path: &str,
    data_paths: &[DataPath<'_>],
    files: Vec<DataFile<DeviceLine>>,
    input: I,
    output: &mut W,
    faults: &mut E,
    settings: Settings<'_>,
) -> Result<Driven, DriveFault>
where
    R: Files<File = File> + Threads + Wait + Clock + AllocGlobal + Copy + Send + Drop + 'static,
    I: Read + Send + Drop + 'static,
    W: Write,
    E: Write,
    requires { files.items ≡ opened_files false data_paths.now }
    ensures drove { IfOk result (λ d. d.fault ≡ None → DroveFilesDevice (is_some (given_text settings.entry.capture))
        settings.entry.dialect.now (entry_for (given_text settings.entry.entry) settings.entry.n1) settings.entry.n1
        (period_of (as_nanos settings.entry.tick))
        (opened_files false data_paths.now) (W.contents output.old) (W.contents output.new) (E.contents faults.old) (E.contents faults.new)
        d.was_bad d.left) }
    ensures names { NamesEnds None (E.contents faults.old) (E.contents faults.new) }
{
    let alloc = rt.alloc();
    let named = dlcis_in(alloc, data_paths)?;
    let settings = Settings {
        data: named.as_slice(),
        ..settings
    };
    let Opened {
        reader,
        writer,
        capture,
    } = open_all(rt, alloc, path, &settings)?;
    let Threaded {
        line,
        input,
        threads: _threads,
        input_stop: _input_stop,
    } = start_threads(rt, (reader, writer), input, bell)?;
    drive_files_by(
        rt, alloc, bell, line, files, capture, input, output, faults, settings,
    )
}

/// What a drive came to, behind which a thread may have more to write.
fn end_by(ended: Result<Driven, DriveFault>, is_written: bool) -> Result<Driven, DriveFault>
    ensures { EndsWith is_written ended result }
{
    let Driven {
        fault,
        was_bad,
        left,
    } = ended?;
    Ok(Driven {
        fault: fault_unless(fault, is_written),
        was_bad,
        left,
    })
}

/// Drives a modem on the device of this path as `drive_run` does, with a file beside each connection that carries data.
/// `data_paths` names these connections; the settings' `data` isn't read. The files are opened first. Two threads for each
/// file read and write it.
///
/// Once the drive has ended, what came on the connections is written to their files, for ten seconds at most. The threads then
/// have ten more seconds to be through. Behind the bad lines `faults` says of each file whether it gives or takes no more, and
/// what is left. It also says which thread has more to write. The status is 1 where octets that came are left.
pub fn drive_data_run<R, I, W, E>(
    rt: &R,
    path: &str,
    data_paths: &[DataPath<'_>],
    input: I,
    output: &mut W,
    faults: &mut E,
    settings: Settings<'_>,
) -> u8
where
    R: Files<File = File> + Threads + Wait + Clock + AllocGlobal + Copy + Send + Drop + 'static,
    I: Read + Send + Drop + 'static,
    W: Write,
    E: Write,
    ensures status { result ≤ 2 }
    ensures drove { result ≢ 1 → RanFiles (is_some (given_text settings.entry.capture)) settings.entry.dialect.now
        (entry_for (given_text settings.entry.entry) settings.entry.n1) settings.entry.n1
        (period_of (as_nanos settings.entry.tick)) (opened_files false data_paths.now)
        (W.contents output.old) (W.contents output.new) (E.contents faults.old) (E.contents faults.new) (result == 2) }
    ensures fault { result ≡ 1 → EndsFilesByFault path.now (capture_path settings.entry.capture) data_paths.now
        (E.contents faults.old) (E.contents faults.new) }
{
    let alloc = rt.alloc();
    let paths = Paths {
        device: path,
        capture: settings.capture.unwrap_or(""),
    };
    let Ok(bell) = Bell::new(alloc) else {
        return say_fault(alloc, faults, paths, DriveFault::NoMemory);
    };
    let (files, threads) = match start_files(rt, &bell, data_paths, false) {
        Ok(started) => started,
        Err(unopened) => {
            let paths = Paths {
                device: unopened.path,
                ..paths
            };
            return say_fault(alloc, faults, paths, DriveFault::from(unopened.why));
        }
    };
    let ended = drive_data_path(
        rt, &bell, path, data_paths, files, input, output, faults, settings,
    );
    let is_written = say_full(rt, faults, data_paths, threads.as_slice());
    say_end(alloc, faults, paths, end_by(ended, is_written))
}
