//! Data on connection 2 of a line, beside a driver's frames.
use modem_data::{Begin, Relay, Until};
use modem_data_line::DataLine;
use mux_frame::Dlci;
use serial_line::{CutLine, SerialLine};
use std::alloc::Global;
use std::process::Abort;
use std::test::*;

/// The driver opens connection 2, and asks on connection 1.
pub(crate) const SABM_2: &[u8] = b"\xF9\x0B\x3F\x01\x59\xF9";

const COMMAND_1: &[u8] = b"\xF9\x07\xEF\x07AT\r\xD3\xF9";

/// The modem answers by a UA, then comes data on connection 2, and RING on connection 1.
const CAME: &[u8] =
    b"\xF9\x0B\x73\x01\x92\xF9\xF9\x09\xEF\x05hi\xD6\xF9\xF9\x05\xEF\x11\r\nRING\r\n\x4A\xF9";

/// What the driver reads, which is all but the data; and what leaves, the driver's frames first.
const READ: &[u8] = b"\xF9\x0B\x73\x01\x92\xF9\xF9\x05\xEF\x11\r\nRING\r\n\x4A\xF9";

const SENT: &[u8] =
    b"\xF9\x0B\x3F\x01\x59\xF9\xF9\x07\xEF\x07AT\r\xD3\xF9\xF9\x0B\xEF\x05ok\xB7\xF9";

/// What there is memory for.
pub(crate) fn made<A: Drop, E: Drop>(rt: &impl Abort, made: Result<A, E>) -> A {
    match made {
        Ok(value) => value,
        Err(_) => panic!(rt; "no memory"),
    }
}

pub(crate) fn dlci(rt: &impl Abort, number: u8) -> Dlci {
    match Dlci::new(number) {
        Some(dlci) => dlci,
        None => panic!(rt; "no such DLCI"),
    }
}

/// A line on which connection 2 carries data from its opening on.
fn line(rt: &impl Abort, alloc: Global, data: Dlci) -> DataLine<CutLine> {
    let line = made(rt, CutLine::new(alloc, CAME, &[], &[], 4096));
    let relay = made(rt, Relay::new(alloc, 31, &[data]));
    let mut line = made(rt, DataLine::new(alloc, line, relay));
    assert!(rt; line.begin(data, Begin::AtOnce, Until::Close).is_ok());
    line
}

/// What the driver reads in one call.
pub(crate) fn expect_read(rt: &impl Abort, line: &mut DataLine<CutLine>, octets: &[u8]) {
    let mut room = [0; 64];
    let Ok(count) = line.try_read(&mut room) else {
        panic!(rt; "the line failed");
    };
    assert!(rt; count <= 64 && &room[..count] == octets);
}

/// Data comes, and leaves behind the driver's command.
fn carry(rt: &impl Abort, line: &mut DataLine<CutLine>, data: Dlci) {
    assert!(rt; line.give(data, b"ok").is_err());
    assert!(rt; line.try_write(SABM_2) == Ok(SABM_2.len()));
    expect_read(rt, line, READ);
    let mut room = [0; 8];
    let Ok(read) = line.read(data, &mut room) else {
        panic!(rt; "not a data connection");
    };
    assert!(rt; read.count == 2 && &room[..2] == b"hi".as_slice() && !read.is_over);
    assert!(rt; line.give(data, b"ok") == Ok(2));
    assert!(rt; line.try_write(COMMAND_1) == Ok(COMMAND_1.len()));
    assert!(rt; line.flush());
    assert!(rt; !line.flush());
}

#[test]
fn data_comes_and_leaves_beside_the_frames_of_a_driver(rt: HostRuntime) {
    let data = dlci(&rt, 2);
    let mut line = line(&rt, rt.alloc(), data);
    carry(&rt, &mut line, data);
    let (line, relay) = line.into_parts();
    drop(relay);
    assert!(rt; line.sent() == SENT);
}
