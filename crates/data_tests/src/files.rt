//! A file beside connection 2 of a line.
ghost use Rattle.std.specs.Prelude.{◌≡◌, Ok};

use data_files::{DataFile, FiledLine};
use modem_data::{Begin, Relay, Until};
use mux_frame::Dlci;
use serial_line::{CutLine, SerialLine};
use std::alloc::Global;
use std::process::Abort;
use std::test::*;

/// The driver opens connection 2.
const SABM_2: &[u8] = b"\xF9\x0B\x3F\x01\x59\xF9";

/// The modem answers by a UA, then comes data on connection 2, and RING on connection 1.
const CAME: &[u8] =
    b"\xF9\x0B\x73\x01\x92\xF9\xF9\x09\xEF\x05hi\xD6\xF9\xF9\x05\xEF\x11\r\nRING\r\n\x4A\xF9";

/// What the driver reads, which is all but the data; and what leaves, of the driver and of the file.
const READ: &[u8] = b"\xF9\x0B\x73\x01\x92\xF9\xF9\x05\xEF\x11\r\nRING\r\n\x4A\xF9";

const SENT: &[u8] = b"\xF9\x0B\x3F\x01\x59\xF9\xF9\x0B\xEF\x05ok\xB7\xF9";

/// What there is memory for.
pub(crate) fn made<A: Drop, E: Drop>(rt: &impl Abort, tried: Result<A, E>) -> A
    ensures { tried ≡ Ok result }
{
    match tried {
        Ok(value) => value,
        Err(_) => panic!(rt; "no memory"),
    }
}

pub(crate) fn dlci(rt: &impl Abort, number: u8) -> Dlci {
    match Dlci::new(number) {
        Some(dlci) => dlci,
        None => panic!(rt; "no such DLCI"),
    }
}

/// A line on which connection 2 carries the data of a file that has `ok`.
fn line(rt: &impl Abort, alloc: Global, data: Dlci) -> FiledLine<CutLine, CutLine> {
    let line = made(rt, CutLine::new(alloc, CAME, &[], &[], 4096));
    let file = made(rt, CutLine::new(alloc, b"ok", &[], &[], 64));
    let relay = made(rt, Relay::new(alloc, 31, &[data]));
    let file = made(
        rt,
        DataFile::new(alloc, data, Begin::AtOnce, Until::Close, file),
    );
    let mut files = Vec::new(alloc);
    made(rt, files.push(file));
    made(rt, FiledLine::new(alloc, line, relay, 31, files))
}

/// The driver opens the connection, and reads all but the data.
fn open(rt: &impl Abort, line: &mut FiledLine<CutLine, CutLine>) {
    assert!(rt; line.try_write(SABM_2) == Ok(SABM_2.len()));
    let mut room = [0; 64];
    let Ok(count) = line.try_read(&mut room) else {
        panic!(rt; "the line failed");
    };
    assert!(rt; count <= 64 && &room[..count] == READ);
}

#[test]
fn a_file_goes_out_and_data_comes_into_it(rt: HostRuntime) {
    let data = dlci(&rt, 2);
    let mut line = line(&rt, rt.alloc(), data);
    open(&rt, &mut line);
    let (line, mut files) = line.into_parts();
    let (line, relay) = line.into_parts();
    drop(relay);
    assert!(rt; line.sent() == SENT);
    let Some(file) = files.pop() else {
        panic!(rt; "no file");
    };
    let file = file.into_file();
    assert!(rt; file.sent() == b"hi".as_slice());
}
