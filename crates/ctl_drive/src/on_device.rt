//! A drive on a device, from its path to its status.
ghost use Rattle.std.specs.Prelude.{◌≡◌, ◌≢◌, ◌≤◌, ◌==◌, [], false, IfOk, IfSome, None, is_some};
ghost use Rattle.std.specs.Duration.{as_nanos};
ghost use Rattle.ctl_drive.specs.Asking.{NamesRead};
ghost use Rattle.serial_line.specs.StreamLine.{new_stream};
ghost use Rattle.serial_line.specs.declared.stream_line.ZeroRead.TheVariants.{Ended};
ghost use Rattle.ctl_drive.specs.CapturedLine.{CapturesUnlessFailed, HasBegun};
ghost use Rattle.ctl_drive.specs.Driving.{period_of};
ghost use Rattle.ctl_drive.specs.Entry.{entry_for, given_text};
ghost use Rattle.ctl_drive.specs.OnDevice.{DroveCaptured, DroveDevice, DroveLine, DroveWell, EndsByFault, RanDevice, capture_path};

use crate::captured_line::CapturedLine;
use crate::fault::DriveFault;
use crate::running::{Driven, drive_over};
use crate::saying::{Paths, say_end};
use crate::settings::Settings;
use bell::Bell;
use device_line::{DeviceLine, RingReader};
use file_threads::{DeviceThreads, StopBell, line_beside, open_device, read_beside};
use mux_capture::Capture;
use results::beside;
use serial_line::{SerialLine, ZeroRead};
use std::alloc::{AllocGlobal, Global};
use std::fs::File;
use std::io::{Read, Write};
use std::rt::{Clock, Files};
use std::sync::Wait;
use std::thread::Threads;

/// A capture into the file of this path, which reads frames by this N1. The file is made, or emptied where there is one.
#[tactic(auto, using(crate::proofs::OnDevice::has_begun))]
fn open_capture<R: Files<File = File>>(
    rt: &R,
    alloc: Global,
    path: &str,
    n1: u16,
) -> Result<Capture<File>, DriveFault>
    ensures begun { IfOk result HasBegun }
    ensures n1 { IfOk result (λ c. c.n1 ≡ n1) }
{
    let file = match File::create(rt, path) {
        Ok(file) => file,
        Err(error) => return Err(DriveFault::NoCapture(error.kind())),
    };
    match Capture::with_n1(alloc, file, n1) {
        Ok(capture) => Ok(capture),
        Err(_) => Err(DriveFault::Capture),
    }
}

/// What a drive needs before it begins.
#[derive(Drop)]
pub struct Opened {
    pub reader: File,
    pub writer: File,
    pub capture: Option<Capture<File>>,
}

/// The device, and the capture where the settings name a file.
pub fn open_all<R: Files<File = File>>(
    rt: &R,
    alloc: Global,
    path: &str,
    settings: &Settings<'_>,
) -> Result<Opened, DriveFault>
    ensures begun { IfOk result (λ o. IfSome o.capture HasBegun) }
    ensures wanted { IfOk result (λ o. is_some o.capture ≡ is_some (given_text settings.now.capture)) }
{
    let (reader, writer) = open_device(rt, path)?;
    let capture = match settings.capture {
        Some(path) => Some(open_capture(rt, alloc, path, settings.n1)?),
        None => None,
    };
    Ok(Opened {
        reader,
        writer,
        capture,
    })
}

/// Drives a modem on a line, as `drive_over` does.
fn drive_plain<L, R, I, W, E>(
    rt: &R,
    alloc: Global,
    bell: &Bell,
    line: L,
    input: I,
    output: &mut W,
    faults: &mut E,
    settings: Settings<'_>,
) -> Result<Driven, DriveFault>
where
    L: SerialLine + Drop,
    R: Wait + Clock + Copy + Drop,
    I: Read + Drop,
    W: Write,
    E: Write,
    ensures drove { IfOk result (λ d. d.fault ≡ None → DroveWell L.seen settings.entry.dialect.now
        (entry_for (given_text settings.entry.entry) settings.entry.n1) settings.entry.n1
        (period_of (as_nanos settings.entry.tick)) line (I.remaining input)
        (W.contents output.old) (W.contents output.new) (E.contents faults.old) (E.contents faults.new) d.was_bad d.left) }
    ensures named { NamesRead (I.remaining input) (E.contents faults.old) (E.contents faults.new) }
{
    let (_, driven) = drive_over(rt, alloc, bell, line, input, output, faults, settings)?;
    Ok(driven)
}

/// The fault of a drive, whose capture may have failed.
fn fault_with(fault: Option<DriveFault>, has_failed: bool) -> Option<DriveFault>
    ensures { result ≡ None → (fault ≡ None) × (has_failed ≡ false) }
{
    match fault {
        None if has_failed => Some(DriveFault::Capture),
        fault => fault,
    }
}

/// What a drive on a line with a capture came to.
pub fn judge_capture<L: SerialLine + Drop, K: Clock + Drop, C: Write + Drop>(
    ended: (CapturedLine<L, K, C>, Driven),
) -> Driven
    ensures fault { result.fault ≡ None → (ended.1.fault ≡ None) × (ended.0.capture.failed ≡ false) }
    ensures captures { CapturesUnlessFailed (L.seen ended.0.line).received (L.seen ended.0.line).sent ended.0.capture }
    ensures same { (result.was_bad ≡ ended.1.was_bad) × (result.left ≡ ended.1.left) }
{
    let (last, driven) = ended;
    let Driven {
        fault,
        was_bad,
        left,
    } = driven;
    let fault = fault_with(fault, last.has_failed());
    Driven {
        fault,
        was_bad,
        left,
    }
}

/// The same on a line on which nothing has passed, with a capture that has begun: the frames that pass go there. One that fails is the
/// fault where there is no other.
fn drive_captured<L, R, C, I, W, E>(
    rt: &R,
    alloc: Global,
    bell: &Bell,
    line: L,
    capture: Capture<C>,
    input: I,
    output: &mut W,
    faults: &mut E,
    settings: Settings<'_>,
) -> Result<Driven, DriveFault>
where
    L: SerialLine + Drop,
    R: Wait + Clock + Copy + Drop,
    C: Write + Drop,
    I: Read + Drop,
    W: Write,
    E: Write,
    requires fresh { ((L.seen line).received ≡ []) × ((L.seen line).sent ≡ []) }
    requires begun { HasBegun capture }
    ensures drove { IfOk result (λ d. d.fault ≡ None → DroveCaptured L.seen settings.entry.dialect.now
        (entry_for (given_text settings.entry.entry) settings.entry.n1) settings.entry.n1
        (period_of (as_nanos settings.entry.tick)) line (I.remaining input)
        (W.contents output.old) (W.contents output.new) (E.contents faults.old) (E.contents faults.new) d.was_bad d.left) }
    ensures named { NamesRead (I.remaining input) (E.contents faults.old) (E.contents faults.new) }
{
    let line = CapturedLine::new(line, *rt, capture);
    let ended = drive_over(rt, alloc, bell, line, input, output, faults, settings)?;
    Ok(judge_capture(ended))
}

/// Drives a modem on a line on which nothing has passed, with a capture if it is given.
fn drive_by<L, R, C, I, W, E>(
    rt: &R,
    alloc: Global,
    bell: &Bell,
    line: L,
    capture: Option<Capture<C>>,
    input: I,
    output: &mut W,
    faults: &mut E,
    settings: Settings<'_>,
) -> Result<Driven, DriveFault>
where
    L: SerialLine + Drop,
    R: Wait + Clock + Copy + Drop,
    C: Write + Drop,
    I: Read + Drop,
    W: Write,
    E: Write,
    requires fresh { ((L.seen line).received ≡ []) × ((L.seen line).sent ≡ []) }
    requires begun { IfSome capture HasBegun }
    ensures drove { IfOk result (λ d. d.fault ≡ None → DroveLine (is_some capture) L.seen settings.entry.dialect.now
        (entry_for (given_text settings.entry.entry) settings.entry.n1) settings.entry.n1
        (period_of (as_nanos settings.entry.tick)) line (I.remaining input)
        (W.contents output.old) (W.contents output.new) (E.contents faults.old) (E.contents faults.new) d.was_bad d.left) }
    ensures named { NamesRead (I.remaining input) (E.contents faults.old) (E.contents faults.new) }
{
    match capture {
        Some(capture) => drive_captured(
            rt, alloc, bell, line, capture, input, output, faults, settings,
        ),
        None => drive_plain(rt, alloc, bell, line, input, output, faults, settings),
    }
}

/// The line of a device and the input, by threads that are told to end once `threads` and `input_stop` are dropped.
pub struct Threaded {
    pub line: DeviceLine,
    pub input: RingReader,
    pub threads: DeviceThreads,
    pub input_stop: StopBell,
}

/// Has threads read the input, read the device and write it. Refused where one of them can't be started: the others are told to end, and
/// nothing is written to the device.
pub fn start_threads<R, D, O, I>(
    rt: &R,
    device: (D, O),
    input: I,
    bell: &Bell,
) -> Result<Threaded, DriveFault>
where
    R: Threads + Wait + Clock + AllocGlobal + Copy + Send + Drop + 'static,
    D: Read + Send + Drop + 'static,
    O: Write + Send + Drop + 'static,
    I: Read + Send + Drop + 'static,
    ensures { IfOk result (λ t. t.line ≡ new_stream None None Ended) }
{
    let (reader, writer) = device;
    let read = read_beside(rt, input, bell, ZeroRead::Ended);
    let ((input, input_stop), (reader, writer)) = beside(read, (reader, writer))?;
    let made = line_beside(rt, reader, writer, ZeroRead::Quiet, bell);
    let ((line, threads), (input, input_stop)) = beside(made, (input, input_stop))?;
    Ok(Threaded {
        line,
        input,
        threads,
        input_stop,
    })
}

/// Drives a modem on a device and an input whose calls wait, as `drive_over` does. One thread reads the device, one writes it, and one
/// reads the input. The frames that pass go into the capture, if there is one. Refused as `drive_over` is, and with NoThread where a
/// thread can't be started: then nothing is written to the device. However it ends, each thread that was started is told to end, and
/// does so as soon as the call of the reader or of the writer in which it waits comes back.
pub fn drive_threaded<R, D, O, C, I, W, E>(
    rt: &R,
    device: (D, O),
    capture: Option<Capture<C>>,
    input: I,
    output: &mut W,
    faults: &mut E,
    settings: Settings<'_>,
) -> Result<Driven, DriveFault>
where
    R: Threads + Wait + Clock + AllocGlobal + Copy + Send + Drop + 'static,
    D: Read + Send + Drop + 'static,
    O: Write + Send + Drop + 'static,
    C: Write + Drop,
    I: Read + Send + Drop + 'static,
    W: Write,
    E: Write,
    requires { IfSome capture HasBegun }
    ensures drove { IfOk result (λ d. d.fault ≡ None → DroveDevice (is_some capture) settings.entry.dialect.now
        (entry_for (given_text settings.entry.entry) settings.entry.n1) settings.entry.n1
        (period_of (as_nanos settings.entry.tick)) (W.contents output.old)
        (W.contents output.new) (E.contents faults.old) (E.contents faults.new) d.was_bad d.left) }
    ensures named { NamesRead None (E.contents faults.old) (E.contents faults.new) }
{
    let alloc = rt.alloc();
    let bell = Bell::new(alloc)?;
    let Threaded {
        line,
        input,
        threads: _threads,
        input_stop: _input_stop,
    } = start_threads(rt, device, input, &bell)?;
    drive_by(
        rt, alloc, &bell, line, capture, input, output, faults, settings,
    )
}

/// Drives a modem on the device of this path, as `drive_threaded` does, with a capture where the settings name a file. Refused too
/// where the device can't be opened or the capture made.
fn drive_path<R, I, W, E>(
    rt: &R,
    path: &str,
    input: I,
    output: &mut W,
    faults: &mut E,
    settings: Settings<'_>,
) -> Result<Driven, DriveFault>
where
    R: Files<File = File> + Threads + Wait + Clock + AllocGlobal + Copy + Send + Drop + 'static,
    I: Read + Send + Drop + 'static,
    W: Write,
    E: Write,
    ensures drove { IfOk result (λ d. d.fault ≡ None → DroveDevice (is_some (given_text settings.entry.capture))
        settings.entry.dialect.now (entry_for (given_text settings.entry.entry) settings.entry.n1) settings.entry.n1
        (period_of (as_nanos settings.entry.tick))
        (W.contents output.old) (W.contents output.new) (E.contents faults.old) (E.contents faults.new) d.was_bad d.left) }
    ensures named { NamesRead None (E.contents faults.old) (E.contents faults.new) }
{
    let Opened {
        reader,
        writer,
        capture,
    } = open_all(rt, rt.alloc(), path, &settings)?;
    let device = (reader, writer);
    drive_threaded(rt, device, capture, input, output, faults, settings)
}

/// Drives a modem on the device of this path, as `drive_over` does. A thread of its own reads the lines of `input`. The device
/// is a terminal that is set up so that a read waits a while and then gives nothing. Where the settings name a file for a
/// capture, the frames that are read and written go there, with their times. Where that file can't be written the drive goes
/// on to its end. The status is 0 where all is done, 2 where a line of the input was bad and all else is done, and 1 at a
/// fault. At 1 and 2 `faults` says why: each bad line as it is read, then how many requests were left, if any were, and then
/// the fault.
pub fn drive_run<R, I, W, E>(
    rt: &R,
    path: &str,
    input: I,
    output: &mut W,
    faults: &mut E,
    settings: Settings<'_>,
) -> u8
where
    R: Files<File = File> + Threads + Wait + Clock + AllocGlobal + Copy + Send + Drop + 'static,
    I: Read + Send + Drop + 'static,
    W: Write,
    E: Write,
    ensures status { result ≤ 2 }
    ensures drove { result ≢ 1 → RanDevice (is_some (given_text settings.entry.capture)) settings.entry.dialect.now
        (entry_for (given_text settings.entry.entry) settings.entry.n1) settings.entry.n1
        (period_of (as_nanos settings.entry.tick)) (W.contents output.old)
        (W.contents output.new) (E.contents faults.old) (E.contents faults.new) (result == 2) }
    ensures fault { result ≡ 1 → EndsByFault path.now (capture_path settings.entry.capture)
        (E.contents faults.old) (E.contents faults.new) }
{
    let paths = Paths {
        device: path,
        capture: settings.capture.unwrap_or(""),
    };
    let ended = drive_path(rt, path, input, output, faults, settings);
    say_end(rt.alloc(), faults, paths, ended)
}
