//! A drive on a line some of whose connections carry the data of files.
ghost use Rattle.std.specs.Prelude.{◌≡◌, All, IfOk};
ghost use Rattle.std.specs.Duration.{as_nanos};
ghost use Rattle.modem_data.specs.Hops.{BeginsRelay};
ghost use Rattle.modem_data.specs.PipeSets.{numbers};
ghost use Rattle.data_files.specs.Files.{BeginsFiled, IsFresh, dlcis};
ghost use Rattle.ctl_drive.specs.Asking.{NamesRead};
ghost use Rattle.ctl_drive.specs.DataDrive.{DroveData};
ghost use Rattle.ctl_drive.specs.Driving.{period_of};
ghost use Rattle.ctl_drive.specs.Entry.{entry_for, given_text};

use crate::fault::DriveFault;
use crate::running::{Driven, drive_entered, enter};
use crate::settings::Settings;
use bell::Bell;
use data_files::{DataFile, FiledLine};
use modem_data::{DataError, Relay};
use serial_line::SerialLine;
use std::alloc::Global;
use std::io::{Read, Write};
use std::rt::Clock;
use std::sync::Wait;

/// Why a drive doesn't begin whose data is refused so.
fn fault_of(error: DataError) -> DriveFault {
    match error {
        DataError::NoMemory => DriveFault::NoMemory,
        _ => DriveFault::Data,
    }
}

/// A relay for the connections that carry data.
fn relay_for(alloc: Global, settings: &Settings<'_>) -> Result<Relay, DriveFault>
    ensures { IfOk result (BeginsRelay settings.now.n1 (numbers settings.now.data.now)) }
{
    match Relay::new(alloc, settings.n1, settings.data) {
        Ok(relay) => Ok(relay),
        Err(error) => Err(fault_of(error)),
    }
}

/// A line on which the multiplexer was entered, with files. Requires that nothing has passed at the relay and the files.
fn with_files<L: SerialLine + Drop, P: SerialLine + Drop>(
    alloc: Global,
    line: L,
    relay: Relay,
    n1: u16,
    files: Vec<DataFile<P>>,
) -> Result<FiledLine<L, P>, DriveFault>
    requires relay { BeginsRelay n1 (dlcis files.items) relay }
    requires fresh { All (IsFresh P.seen) files.items }
    ensures { IfOk result (BeginsFiled L.seen line relay n1 files.items) }
{
    match FiledLine::new(alloc, line, relay, n1, files) {
        Ok(line) => Ok(line),
        Err(error) => Err(fault_of(error)),
    }
}

/// Drives a modem as `drive_over` does, on a line some of whose connections carry the data of these files. The lane of each
/// such connection begins once the multiplexer is entered. The connection is opened even where no line of the input names it.
/// With each round octets move between connections and files, both ways, as far as they are taken. What isn't taken waits, and
/// isn't lost.
///
/// Refused as `drive_over` is. Refused with Data, before anything is written, where more than 8 connections are named, one of
/// them is 0, or one is named twice. Requires that nothing has passed at the files, and that the settings' `data` names their
/// connections in the order of the files.
pub fn drive_data_over<L, P, R, I, W, E>(
    rt: &R,
    alloc: Global,
    bell: &Bell,
    line: L,
    files: Vec<DataFile<P>>,
    input: I,
    output: &mut W,
    faults: &mut E,
    settings: Settings<'_>,
) -> Result<(FiledLine<L, P>, Driven), DriveFault>
where
    L: SerialLine + Drop,
    P: SerialLine + Drop,
    R: Wait + Clock + Copy + Drop,
    I: Read + Drop,
    W: Write,
    E: Write,
    requires fresh { All (IsFresh P.seen) files.items }
    requires named { dlcis files.items ≡ numbers settings.data.now }
    ensures drove { IfOk result (λ r. DroveData L.seen P.seen settings.entry.dialect.now
        (entry_for (given_text settings.entry.entry) settings.entry.n1) settings.entry.n1
        (period_of (as_nanos settings.entry.tick)) line files.items r.0
        (I.remaining input) (W.contents output.old) (W.contents output.new) (E.contents faults.old) (E.contents faults.new)
        r.1.fault r.1.was_bad r.1.left) }
    ensures names { NamesRead (I.remaining input) (E.contents faults.old) (E.contents faults.new) }
{
    let relay = relay_for(alloc, &settings)?;
    let mut line = line;
    enter(rt, alloc, bell, &mut line, &settings)?;
    let line = with_files(alloc, line, relay, settings.n1, files)?;
    let (last, driven) = drive_entered(rt, alloc, bell, line, input, output, faults, settings)?;
    last.has_moved();
    Ok((last, driven))
}
