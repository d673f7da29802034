//! The files beside connections that carry data, opened, and the threads that read and write them.
ghost use Rattle.std.specs.Prelude.{◌≡◌, ◌++◌, ◌||◌, [], ◌∷◌, IfErr, IfOk, None, OnOk, length};
ghost use Rattle.serial_line.specs.StreamLine.{new_stream};
ghost use Rattle.serial_line.specs.declared.stream_line.ZeroRead.TheVariants.{Ended};
ghost use Rattle.file_threads.specs.DataPaths.{IsFileOf, opened_file, opened_files};

use crate::data_path::DataPath;
use crate::device::{DeviceThreads, line_beside};
use crate::fault::FileFault;
use crate::opening::open_device;
use bell::Bell;
use data_files::DataFile;
use device_line::DeviceLine;
use modem_data::{Begin, Until};
use results::beside;
use serial_line::ZeroRead;
use std::alloc::AllocGlobal;
use std::fs::File;
use std::io;
use std::rt::{Clock, Files};
use std::sync::Wait;
use std::thread::Threads;

/// Why the file of this path can't be had.
#[derive(Clone, Copy)]
pub struct Unopened<'a> {
    pub path: &'a str,
    pub why: FileFault,
}

/// The terminal of this path between rings, which two threads read and write.
fn open_terminal<R>(
    rt: &R,
    bell: &Bell,
    path: &str,
) -> Result<(DeviceLine, DeviceThreads), FileFault>
where
    R: Files<File = File> + Threads + Wait + Clock + AllocGlobal + Copy + Send + Drop + 'static,
    ensures { IfOk result (λ r. r.0 ≡ new_stream None None Ended) }
{
    let (reader, writer) = open_device(rt, path)?;
    line_beside(rt, reader, writer, ZeroRead::Quiet, bell)
}

/// The file of this path behind a ring, which a thread reads to its end. What comes for it would go nowhere, but of a lane by prompt none
/// is data.
fn open_text<R>(rt: &R, bell: &Bell, path: &str) -> Result<(DeviceLine, DeviceThreads), FileFault>
where
    R: Files<File = File> + Threads + Wait + Clock + AllocGlobal + Copy + Send + Drop + 'static,
    ensures { IfOk result (λ r. r.0 ≡ new_stream None None Ended) }
{
    let reader = match File::open(rt, path) {
        Ok(reader) => reader,
        Err(error) => return Err(FileFault::NoDevice(error.kind())),
    };
    line_beside(rt, reader, io::sink(), ZeroRead::Ended, bell)
}

/// The line of a file that carries data, and what reads and writes it.
fn open_line<R>(
    rt: &R,
    bell: &Bell,
    one: DataPath<'_>,
) -> Result<(DeviceLine, DeviceThreads), FileFault>
where
    R: Files<File = File> + Threads + Wait + Clock + AllocGlobal + Copy + Send + Drop + 'static,
    ensures { IfOk result (λ r. r.0 ≡ new_stream None None Ended) }
{
    match one.begin {
        Begin::ByPrompt => open_text(rt, bell, one.path),
        Begin::AtOnce | Begin::ByConnect | Begin::ByOwnConnect => open_terminal(rt, bell, one.path),
    }
}

/// The file, for one lane or for one after the other.
fn renewed_if(file: DataFile<DeviceLine>, renews: bool) -> DataFile<DeviceLine>
    ensures { result ≡ record file { renews = renews || file.renews } }
{
    if renews { file.renewed() } else { file }
}

/// Opens the file of this path, and has two threads read and write it.
fn start_file<R>(
    rt: &R,
    bell: &Bell,
    one: DataPath<'_>,
    renews: bool,
) -> Result<(DataFile<DeviceLine>, DeviceThreads), FileFault>
where
    R: Files<File = File> + Threads + Wait + Clock + AllocGlobal + Copy + Send + Drop + 'static,
    ensures { IfOk result (λ r. r.0 ≡ opened_file renews one.entry) }
{
    let (line, threads) = open_line(rt, bell, one)?;
    let made = DataFile::new(rt.alloc(), one.dlci, one.begin, Until::Close, line);
    let (file, threads) = beside(made, threads)?;
    Ok((renewed_if(file, renews), threads))
}

/// Adds two values to two lists. Generic, because proving the drop of a concrete value is slow.
fn add<A: Drop, B: Drop>(
    first: &mut Vec<A>,
    second: &mut Vec<B>,
    made: (A, B),
) -> Result<(), FileFault>
    ensures first { OnOk result (first.new.items ≡ first.old.items ++ made.0 ∷ []) }
    ensures second { OnOk result (second.new.items ≡ second.old.items ++ made.1 ∷ []) }
{
    let (one, other) = made;
    first.push(one)?;
    second.push(other)?;
    Ok(())
}

/// Opens the file of each connection, in order, and has threads read and write it; the opening of a FIFO waits for its other end. The
/// connection of each carries one lane, or where `renews` is set one after the other. Refused where one can't be had, by its path: then
/// the threads of the others are told to end.
#[tactic(auto, using(crate::proofs::DataPaths::files_none, crate::proofs::DataPaths::files_more, crate::proofs::DataPaths::files_all, crate::proofs::DataPaths::one_longer))]
pub fn start_files<'a, R>(
    rt: &R,
    bell: &Bell,
    data_paths: &[DataPath<'a>],
    renews: bool,
) -> Result<(Vec<DataFile<DeviceLine>>, Vec<DeviceThreads>), Unopened<'a>>
where
    R: Files<File = File> + Threads + Wait + Clock + AllocGlobal + Copy + Send + Drop + 'static,
    ensures files { IfOk result (λ r. r.0.items ≡ opened_files renews data_paths.now) }
    ensures threads { IfOk result (λ r. length r.1.items ≡ length data_paths.now) }
    ensures refused { IfErr result (λ e. IsFileOf data_paths.now e.path.now) }
{
    let mut files = Vec::new(rt.alloc());
    let mut threads = Vec::new(rt.alloc());
    let mut place = 0;
    while place < data_paths.len() {
        let path = data_paths[place].path;
        let made = match start_file(rt, bell, data_paths[place], renews) {
            Ok(made) => made,
            Err(why) => return Err(Unopened { path, why }),
        };
        if let Err(why) = add(&mut files, &mut threads, made) {
            return Err(Unopened { path, why });
        }
        place += 1;
    }
    Ok((files, threads))
}
