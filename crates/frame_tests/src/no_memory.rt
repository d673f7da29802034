//! The calls that take no memory.
use marks_tests::{begin, end};
use mux_frame::*;
use std::io::Print;
use std::process::Abort;
use std::test::Fail;

// Feeds the octets in pieces, and passes over each frame that stands there then.
fn read_pieces(rt: &impl Abort, deframer: &mut Deframer, octets: &[u8], size: usize) {
    assert!(rt; size > 0);
    for piece in octets.chunks(size) {
        deframer.feed(piece);
        if let Some(_frame) = deframer.peek() {
            deframer.advance();
        }
    }
}

// The calls of a deframer.
fn of_a_deframer<R: Abort + Print>(rt: &R, deframer: &mut Deframer, octets: &[u8]) {
    begin(rt, "Deframer::feed, Deframer::peek, Deframer::advance");
    for size in [1, 7, 64] {
        read_pieces(rt, deframer, octets, size);
    }
    end(rt);
}

fn of_numbers<R: Abort + Print>(rt: &R) {
    begin(rt, "check_octet, Dlci::new, Dlci::number");
    assert!(rt; check_octet(&[0x03, 0x3F, 0x01]) == 0x1C);
    assert!(rt; Dlci::new(61).map(Dlci::number) == Some(61));
    assert!(rt; Dlci::new(62).is_none());
    end(rt);
}

fn of_a_probe<R: Abort + Print>(rt: &R) {
    begin(rt, "ProbeData::new, ProbeData::octets");
    let probe = ProbeData::new(&[0x41; 16]);
    assert!(rt; probe.as_ref().map(|data| data.octets().len()) == Some(16));
    assert!(rt; ProbeData::new(&[0x41; 17]).is_none());
    end(rt);
}

#[test]
fn calls_that_take_no_memory(rt: HostRuntime) -> Result<(), Fail> {
    let two = b"\xF9\x07\x73\x01\x15\xF9\xF9\x05\xEF\x0D\r\nOK\r\n\x5F\xF9";
    let octets = two.repeat(rt.alloc(), 60)?;
    let mut deframer = Deframer::new(rt.alloc(), 31)?;
    of_a_deframer(&rt, &mut deframer, octets.as_slice());
    of_numbers(&rt);
    of_a_probe(&rt);
    Ok(())
}
