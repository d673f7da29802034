//! What a drive says beside its output, as far as the writer takes it.
ghost use Rattle.std.specs.Prelude.{◌≡◌};
ghost use Rattle.ctl_text.specs.Writing.{IsBegun};
ghost use Rattle.ctl_drive.specs.OnDevice.{SaysEnd, end_status};
ghost use Rattle.file_threads.specs.Said.{AreSaid};
ghost use Rattle.ctl_drive.specs.Saying.{SaysFault, bad_text, left_texts, path_for};

use crate::fault::DriveFault;
use crate::running::Driven;
use ctl_text::{Expected, say_bad_line, say_line};
use file_threads::quoted;
use itoa::Buffer;
use std::alloc::Global;
use std::fmt;
use std::fmt::Write as _;
use std::io::Write;

/// What `stty` sets a terminal up by.
const STTY: &str = "raw -echo min 0 time 1 -crtscts clocal -hupcl";

/// The paths that a fault may concern: the device, and the file of the capture.
#[derive(Clone, Copy)]
pub struct Paths<'a> {
    pub device: &'a str,
    pub capture: &'a str,
}

/// Names a bad line by its place, counted from 1, and on a second line its first part that isn't as it must be.
pub fn name_bad<E: Write>(faults: &mut E, place: u64, why: Expected)
    ensures { IsBegun (E.contents faults.old) (E.contents faults.new) (bad_text place why) }
{
    let mut digits = Buffer::new();
    say_bad_line(faults, digits.format(place), "", why);
}

/// Says how many requests were left, if any were.
fn say_left<E: Write>(faults: &mut E, requests: usize)
    ensures { AreSaid (E.contents faults.old) (E.contents faults.new) (left_texts requests) }
{
    if requests == 0 {
        return;
    }
    let mut digits = Buffer::new();
    say_line(faults, "left ", digits.format(requests), " requests");
}

/// The path that a fault concerns.
fn path_of<'a>(paths: Paths<'a>, fault: DriveFault) -> &'a str
    ensures { result.now ≡ path_for paths.entry.device.now paths.entry.capture.now fault }
{
    match fault {
        DriveFault::NoCapture(_) => paths.capture,
        _ => paths.device,
    }
}

/// What stands behind the path in the line of a fault that concerns one. Refused where memory is.
fn behind_path(alloc: Global, path: &str, fault: DriveFault) -> Result<String, fmt::Error> {
    let mut text = String::new(alloc);
    match fault {
        DriveFault::NoDevice(why) => write!(text, " can't be opened: {why}")?,
        DriveFault::NotSetUp => {
            write!(
                text,
                " is not a terminal that is set up, or ended before the modem answered; to set it up: stty -F {path:?} {STTY}",
            )?;
        }
        DriveFault::NoCapture(why) => write!(text, " can't be made: {why}")?,
        _ => {}
    }
    Ok(text)
}

/// Says why a drive ended, and gives the status. A path that it concerns is named, unless memory is refused.
pub fn say_fault<E: Write>(alloc: Global, faults: &mut E, paths: Paths<'_>, fault: DriveFault) -> u8
    ensures status { result ≡ 1 }
    ensures said { SaysFault (path_for paths.entry.device.now paths.entry.capture.now fault) fault (E.contents faults.old) (E.contents faults.new) }
{
    let path = path_of(paths, fault);
    match (
        fault.head(),
        quoted(alloc, path),
        behind_path(alloc, path, fault),
    ) {
        (Some(head), Ok(quoted), Ok(rest)) => {
            say_line(faults, head, quoted.as_str(), rest.as_str());
        }
        _ => say_line(faults, fault.words(), "", ""),
    }
    1
}

/// Says what a drive left undone, if anything, and why it ended, if by a fault; and gives the status.
pub fn say_end<E: Write>(
    alloc: Global,
    faults: &mut E,
    paths: Paths<'_>,
    ended: Result<Driven, DriveFault>,
) -> u8
    ensures status { result ≡ end_status ended }
    ensures said { SaysEnd paths.entry.device.now paths.entry.capture.now ended (E.contents faults.old) (E.contents faults.new) }
{
    let driven = match ended {
        Ok(driven) => driven,
        Err(fault) => return say_fault(alloc, faults, paths, fault),
    };
    say_left(faults, driven.left.left.len());
    match driven.fault {
        Some(fault) => say_fault(alloc, faults, paths, fault),
        None if driven.was_bad => 2,
        None => 0,
    }
}
