//! A queue and a ring fill up.
use mux_frame::{Deframer, Dlci, Kind};
use mux_station::*;
use std::alloc::Global;
use std::process::Abort;
use std::test::*;

/// What there is memory for.
pub fn made<A: Drop, E: Drop>(rt: &impl Abort, made: Result<A, E>) -> A {
    match made {
        Ok(value) => value,
        Err(_) => panic!(rt; "no memory"),
    }
}

pub fn dlci(rt: &impl Abort, number: u8) -> Dlci {
    match Dlci::new(number) {
        Some(dlci) => dlci,
        None => panic!(rt; "no such DLCI"),
    }
}

pub fn open(rt: &impl Abort, station: &mut Station, dlci: Dlci) {
    assert!(rt; station.role() == Role::Initiator);
    assert!(rt; station.open(dlci).is_ok());
}

/// What the station says of the first frame in these octets.
fn got(
    rt: &impl Abort,
    alloc: Global,
    station: &mut Station,
    octets: &[u8],
) -> Result<Noted, StationError> {
    let mut deframer = made(rt, Deframer::new(alloc, 31));
    deframer.feed(octets);
    let Some(frame) = deframer.peek() else {
        panic!(rt; "no frame");
    };
    let most = match frame.kind {
        Kind::Uih => station.n1(),
        _ => 0,
    };
    assert!(rt; frame.info.len() <= usize::from(most));
    station.got(frame)
}

/// Opens a connection, which this UA answers, and takes out what is sent then.
fn opened(rt: &impl Abort, alloc: Global, station: &mut Station, dlci: Dlci, ua: &[u8]) {
    open(rt, station, dlci);
    assert!(rt; station.next_frame().is_some());
    assert!(rt; got(rt, alloc, station, ua) == Ok(Noted::Opened));
    let _ = station.next_frame();
    assert!(rt; station.next_frame().is_none());
}

const UA_0: &[u8] = b"\xF9\x03\x73\x01\xD7\xF9";

const UA_1: &[u8] = b"\xF9\x07\x73\x01\x15\xF9";

/// A command of a type that isn't supported (PN).
const PN: &[u8] = b"\xF9\x01\xEF\x15\x83\x11\x01\x00\x00\x0A\x1F\x00\x03\x02\x8F\xF9";

/// It comes so often, and is answered each time.
fn answered(rt: &impl Abort, alloc: Global, station: &mut Station, times: u32) {
    for _ in 0..times {
        assert!(rt; got(rt, alloc, station, PN) == Ok(Noted::Nothing));
    }
}

/// The control queue has room for 458 answers, and for one more once a frame is taken out.
fn fill_queue(rt: &impl Abort, alloc: Global, station: &mut Station) {
    opened(rt, alloc, station, Dlci::CONTROL, UA_0);
    answered(rt, alloc, station, 458);
    assert!(rt; got(rt, alloc, station, PN) == Err(StationError::NoRoom));
    assert!(rt; station.next_frame().is_some());
    answered(rt, alloc, station, 1);
}

#[test]
fn the_control_queue_fills_up(rt: HostRuntime) {
    let mut station = made(&rt, Station::new(rt.alloc(), Role::Initiator, 31));
    fill_queue(&rt, rt.alloc(), &mut station);
}

/// A send ring has room for 600 octets, and not for twice as many.
fn fill_ring(rt: &impl Abort, alloc: Global, station: &mut Station) {
    let one = dlci(rt, 1);
    opened(rt, alloc, station, Dlci::CONTROL, UA_0);
    opened(rt, alloc, station, one, UA_1);
    assert!(rt; station.offer(one, &[0x41; 600]) == Ok(()));
    assert!(rt; station.offer(one, &[0x41; 600]) == Err(StationError::NoRoom));
}

#[test]
fn a_send_ring_fills_up(rt: HostRuntime) {
    let mut station = made(&rt, Station::new(rt.alloc(), Role::Initiator, 31));
    fill_ring(&rt, rt.alloc(), &mut station);
}
