//! The calls that take no memory.
use crate::queues::{dlci, made, open};
use marks_tests::{begin, end};
use mux_frame::{Dlci, FrameView, Kind};
use mux_station::*;
use std::io::Print;
use std::process::Abort;
use std::test::*;

// An UA comes.
fn is_answered(rt: &impl Abort, station: &mut Station, dlci: Dlci) {
    let noted = station.got(FrameView {
        dlci,
        kind: Kind::Ua,
        cr: true,
        pf: true,
        info: &[],
    });
    assert!(rt; noted == Ok(Noted::Opened));
}

// A SABM comes.
fn is_asked(rt: &impl Abort, station: &mut Station, dlci: Dlci) {
    let noted = station.got(FrameView {
        dlci,
        kind: Kind::Sabm,
        cr: true,
        pf: true,
        info: &[],
    });
    assert!(rt; noted.is_ok());
}

// Octets come.
fn is_told(rt: &impl Abort, station: &mut Station, dlci: Dlci, info: &[u8]) {
    assert!(rt; info.len() <= usize::from(station.n1()));
    let noted = station.got(FrameView {
        dlci,
        kind: Kind::Uih,
        cr: true,
        pf: true,
        info,
    });
    assert!(rt; noted.is_ok());
}

// There is room for what an MSC calls for.
fn has_room(rt: &impl Abort, station: &Station) {
    let has_room = station.has_room_for(FrameView {
        dlci: Dlci::CONTROL,
        kind: Kind::Uih,
        cr: true,
        pf: true,
        info: b"\xE3\x05\x07\x0D",
    });
    assert!(rt; has_room);
}

// All that waits is given on, by turns that are asked for and by others.
fn give_all(station: &mut Station) {
    for _ in 0..300 {
        let Some(turn) = station.next_turn() else {
            return;
        };
        let _ = station.give(turn);
        let _ = station.next_frame();
    }
}

// The octets are offered until they find no room.
fn offer_all(rt: &impl Abort, station: &mut Station, dlci: Dlci, octets: &[u8]) {
    for _ in 0..200 {
        if let Err(why) = station.offer(dlci, octets) {
            assert!(rt; why == StationError::NoRoom);
            return;
        }
    }
    panic!(rt; "there is room for ever");
}

// The same of a message for the control channel.
fn flow_all(rt: &impl Abort, station: &mut Station, dlci: Dlci) {
    for _ in 0..2000 {
        if let Err(why) = station.flow(dlci, true) {
            assert!(rt; why == StationError::NoRoom);
            assert!(rt; !station.has_room_to_flow(dlci, true));
            return;
        }
    }
    panic!(rt; "there is room for ever");
}

// 0, 1 and 2 are opened.
fn open_all(rt: &impl Abort, station: &mut Station) {
    for number in 0..3 {
        let dlci = dlci(rt, number);
        open(rt, station, dlci);
        give_all(station);
        is_answered(rt, station, dlci);
    }
}

// They are opened, and frames of each kind come.
fn frames_come<R: Abort + Print>(rt: &R, station: &mut Station, one: Dlci, five: Dlci) {
    begin(
        rt,
        "Station::open, Station::next_frame, Station::give, Station::got, Station::has_room_for, Station::n1",
    );
    open_all(rt, station);
    is_told(rt, station, one, b"OK");
    has_room(rt, station);
    is_told(rt, station, Dlci::CONTROL, b"\xE3\x05\x07\x0D");
    is_told(rt, station, Dlci::CONTROL, b"\x23\x05\x41\x42");
    is_asked(rt, station, five);
    give_all(station);
    end(rt);
}

// Data waits on 1.
fn data_waits<R: Abort + Print>(rt: &R, station: &mut Station, one: Dlci) {
    begin(rt, "Station::offer, Station::next_turn");
    assert!(rt; station.next_turn().is_none());
    offer_all(rt, station, one, b"AT+CSQ\r");
    assert!(rt; matches!(station.next_turn(), Some(Turn::Data(dlci)) if dlci == one));
    end(rt);
}

// It is looked at.
fn is_seen<R: Abort + Print>(rt: &R, station: &Station, one: Dlci) {
    begin(rt, "Station::role, Station::state, Station::stopped");
    assert!(rt; station.role() == Role::Initiator);
    assert!(rt; station.state(one) == ChannelState::Opened);
    assert!(rt; !station.stopped(one));
    end(rt);
}

// What waits is looked at.
fn waits<R: Abort + Print>(rt: &R, station: &Station, one: Dlci) {
    begin(rt, "Station::waiting, Station::queue_len");
    assert!(rt; station.waiting(one) > 1000);
    assert!(rt; station.queue_len() == 0);
    end(rt);
}

// A probe, and ticks.
fn ticks<R: Abort + Print>(rt: &R, station: &mut Station) {
    begin(rt, "Station::probe, Station::tick");
    assert!(rt; station.probe(&[0x41; 16]).is_ok());
    for _ in 0..5 {
        station.tick();
    }
    end(rt);
}

// A full control queue.
fn flows<R: Abort + Print>(rt: &R, station: &mut Station, one: Dlci) {
    begin(
        rt,
        "Station::flow, Station::has_room_to_flow, Station::queued",
    );
    assert!(rt; station.has_room_to_flow(one, true));
    flow_all(rt, station, one);
    assert!(rt; station.queued(100).is_some());
    end(rt);
    give_all(station);
}

// A close and a stop.
fn ends<R: Abort + Print>(rt: &R, station: &mut Station, one: Dlci) {
    begin(rt, "Station::close, Station::stop");
    assert!(rt; station.close(one).is_ok());
    assert!(rt; station.stop().is_ok());
    end(rt);
    give_all(station);
}

// The calls of a station.
fn of_a_station<R: Abort + Print>(rt: &R, station: &mut Station) {
    let one = dlci(rt, 1);
    frames_come(rt, station, one, dlci(rt, 5));
    data_waits(rt, station, one);
    is_seen(rt, station, one);
    waits(rt, station, one);
    ticks(rt, station);
    flows(rt, station, one);
    ends(rt, station, one);
}

// A frame is put in place to be written.
fn is_written<R: Abort + Print>(rt: &R, buffer: &mut WriteBuffer, dlci: Dlci) {
    begin(
        rt,
        "WriteBuffer::put, WriteBuffer::is_empty, WriteBuffer::as_slice, WriteBuffer::pass",
    );
    if buffer.is_empty() {
        buffer.put(FrameView {
            dlci,
            kind: Kind::Uih,
            cr: true,
            pf: false,
            info: b"AT\r",
        });
    }
    let length = buffer.as_slice().len();
    buffer.pass(length);
    end(rt);
    assert!(rt; length == 9);
}

#[test]
fn calls_that_take_no_memory(rt: HostRuntime) {
    let mut station = made(&rt, Station::new(rt.alloc(), Role::Initiator, 31));
    of_a_station(&rt, &mut station);
    let mut buffer = made(&rt, WriteBuffer::new(rt.alloc()));
    is_written(&rt, &mut buffer, dlci(&rt, 1));
}
