//! Large sizes, at which giving up would cost a user: where there is memory, the calls succeed.
use crate::queues::made;
use mux_frame::Deframer;
use mux_station::{Role, Station};
use std::alloc::Global;
use std::process::Abort;
use std::test::*;

fn deframer_of(rt: &impl Abort, alloc: Global, n1: u16) {
    let mut deframer = made(rt, Deframer::new(alloc, n1));
    assert!(rt; deframer.peek().is_none());
}

fn station_of(rt: &impl Abort, alloc: Global, n1: u16) {
    let station = made(rt, Station::new(alloc, Role::Initiator, n1));
    assert!(rt; station.n1() == n1);
}

// An N1 between the least and the greatest, and the greatest.
#[test]
fn deframers_and_stations_of_any_n1(rt: HostRuntime) {
    for n1 in [1601, 4097, 32767] {
        deframer_of(&rt, rt.alloc(), n1);
        station_of(&rt, rt.alloc(), n1);
    }
}
