//! A client calls a simulated modem twice, and the data of both calls is a file's.
use crate::calls::{
    CALL, CAME, CLOSED, CONNECT, CONTEXT, DISC, OK, OPENED, OPENS, expect, modem_on,
};
use crate::files::{dlci, made};
use data_files::{DataFile, FiledLine};
use modem_data::{Begin, Relay, Until};
use modem_sim::Sim;
use mux_frame::Dlci;
use mux_station::Role;
use serial_line::{CutLine, ThreadLine};
use std::alloc::Global;
use std::process::Abort;
use std::test::*;

/// The modem answers the call, and what the file has goes out behind.
const CALLED: &[u8] = b"\xF9\x09\xEF\x17\r\nCONNECT\r\n)\xF9\xF9\x09\xEF\x05ok\xD6\xF9";

/// The client opens 2 again; the UA, and the MSC for 2.
const OPENS_AGAIN: &[u8] = b"\xF9\x0B?\x01Y\xF9";

const OPENED_AGAIN: &[u8] = b"\xF9\x0Bs\x01\x92\xF9\xF9\x01\xEF\x09\xE3\x05\x0B\x8D\x9A\xF9";

/// A line whose connection 2 carries the data of a file that has `ok`, one call after the other.
fn filed(
    rt: &impl Abort,
    alloc: Global,
    line: ThreadLine,
    data: Dlci,
) -> FiledLine<ThreadLine, CutLine> {
    let file = made(rt, CutLine::new(alloc, b"ok", &[], &[], 64));
    let file = made(
        rt,
        DataFile::new(alloc, data, Begin::ByOwnConnect, Until::Close, file),
    );
    let mut files = Vec::new(alloc);
    made(rt, files.push(file.renewed()));
    let relay = made(rt, Relay::with_role(alloc, Role::Responder, 64, &[data]));
    made(
        rt,
        FiledLine::with_role(alloc, Role::Responder, line, relay, 64, files),
    )
}

/// The client calls, writes data, and closes.
fn call(
    rt: &impl Abort,
    client: &mut ThreadLine,
    sim: &mut Sim<FiledLine<ThreadLine, CutLine>>,
    answered: &[u8],
) {
    expect(rt, client, sim, CALL, answered);
    expect(rt, client, sim, CAME, b"");
    expect(rt, client, sim, DISC, CLOSED);
}

/// What the calls came to: the file took the data of both, and a third may come.
fn check(rt: &impl Abort, line: FiledLine<ThreadLine, CutLine>) {
    let (line, mut files) = line.into_parts();
    drop(line);
    let Some(file) = files.pop() else {
        panic!(rt; "no file");
    };
    assert!(rt; file.renewals() == 2 && file.dropped() == 0);
    let file = file.into_file();
    assert!(rt; file.sent() == b"ATI\rATI\r".as_slice());
}

#[test]
fn the_data_of_two_calls_is_one_files(rt: HostRuntime) {
    let data = dlci(&rt, 2);
    let (mut client, line) = made(&rt, ThreadLine::pair(rt.alloc(), 256));
    let line = filed(&rt, rt.alloc(), line, data);
    let mut sim = modem_on(&rt, rt.alloc(), line);
    expect(&rt, &mut client, &mut sim, OPENS, OPENED);
    expect(&rt, &mut client, &mut sim, CONTEXT, OK);
    call(&rt, &mut client, &mut sim, CALLED);
    expect(&rt, &mut client, &mut sim, OPENS_AGAIN, OPENED_AGAIN);
    call(&rt, &mut client, &mut sim, CONNECT);
    let (line, modem) = sim.finish();
    drop(modem);
    check(&rt, line);
}
