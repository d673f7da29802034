//! A device, by its path.
use crate::fault::FileFault;
use std::fs::{File, OpenOptions};
use std::rt::Files;

/// The device of this path, opened for reading and for writing. A regular file is refused with NotSetUp before it is opened for
/// writing.
pub fn open_device<R: Files<File = File>>(rt: &R, path: &str) -> Result<(File, File), FileFault> {
    let reader = match File::open(rt, path) {
        Ok(reader) => reader,
        Err(error) => return Err(FileFault::NoDevice(error.kind())),
    };
    match reader.metadata() {
        Ok(found) if found.is_file() => return Err(FileFault::NotSetUp),
        Ok(_) => {}
        Err(error) => return Err(FileFault::NoDevice(error.kind())),
    }
    let writer = match OpenOptions::new().write(true).open(rt, path) {
        Ok(writer) => writer,
        Err(error) => return Err(FileFault::NoDevice(error.kind())),
    };
    Ok((reader, writer))
}
