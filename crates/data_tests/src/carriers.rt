//! The modem hangs up on connection 2 of a line: DV falls in its MSC (27.010, 5.4.6.3.7).
use crate::lines::{SABM_2, dlci, expect_read, made};
use modem_data::{Begin, Relay, Until};
use modem_data_line::DataLine;
use serial_line::{CutLine, SerialLine};
use std::alloc::Global;
use std::process::Abort;
use std::test::*;

/// The modem's UA, and an MSC with DV; CONNECT and data; an MSC without DV, and NO CARRIER.
const CAME: &[u8] =
    b"\xF9\x0B\x73\x01\x92\xF9\xF9\x01\xEF\x09\xE3\x05\x0B\x8D\x9A\xF9\xF9\x09\xEF\x1B\r\nCONNECT\r\nhi\x20\xF9\xF9\x01\xEF\x09\xE3\x05\x0B\x0D\x9A\xF9\xF9\x09\xEF\x1D\r\nNO CARRIER\r\n\xC4\xF9";

/// What the driver reads where the loss of the carrier ends the data, and where it doesn't.
const OVER: &[u8] =
    b"\xF9\x0B\x73\x01\x92\xF9\xF9\x01\xEF\x09\xE3\x05\x0B\x8D\x9A\xF9\xF9\x09\xEF\x15\r\nCONNECT\r\xCA\xF9\xF9\x01\xEF\x09\xE3\x05\x0B\x0D\x9A\xF9\xF9\x09\xEF\x1D\r\nNO CARRIER\r\n\xC4\xF9";

const GOES_ON: &[u8] =
    b"\xF9\x0B\x73\x01\x92\xF9\xF9\x01\xEF\x09\xE3\x05\x0B\x8D\x9A\xF9\xF9\x09\xEF\x15\r\nCONNECT\r\xCA\xF9\xF9\x01\xEF\x09\xE3\x05\x0B\x0D\x9A\xF9";

/// The driver opens connection 2 and reads this; this is data, and its end is seen or isn't.
fn hang_up(
    rt: &impl Abort,
    alloc: Global,
    until: Until,
    reads: &[u8],
    data_octets: &[u8],
    is_over: bool,
) {
    let data = dlci(rt, 2);
    let line = made(rt, CutLine::new(alloc, CAME, &[], &[], 4096));
    let relay = made(rt, Relay::new(alloc, 31, &[data]));
    let mut line = made(rt, DataLine::new(alloc, line, relay));
    assert!(rt; line.begin(data, Begin::ByConnect, until).is_ok());
    assert!(rt; line.try_write(SABM_2) == Ok(SABM_2.len()));
    expect_read(rt, &mut line, reads);
    let mut room = [0; 32];
    let Ok(read) = line.read(data, &mut room) else {
        panic!(rt; "not a data connection");
    };
    assert!(rt; read.count <= 32 && &room[..read.count] == data_octets);
    assert!(rt; read.is_over == is_over);
}

#[test]
fn lines_come_again_where_the_carrier_is_lost(rt: HostRuntime) {
    hang_up(&rt, rt.alloc(), Until::CarrierLoss, OVER, b"hi", true);
}

#[test]
fn data_goes_on_without_a_carrier(rt: HostRuntime) {
    hang_up(
        &rt,
        rt.alloc(),
        Until::Close,
        GOES_ON,
        b"hi\r\nNO CARRIER\r\n",
        false,
    );
}
