//! A client calls a simulated modem, and data goes both ways on connection 2 behind its CONNECT.
use crate::lines::{dlci, made};
use modem_data::{Begin, Relay, Until};
use modem_data_line::DataLine;
use modem_sim::{Modem, ModemStart, Script, Sim, Steps};
use mux_frame::Dlci;
use mux_station::Role;
use serial_line::{SerialLine, ThreadLine};
use std::alloc::Global;
use std::process::Abort;
use std::test::*;

/// The client opens 0 and 2; the modem answers by two UA and its MSC for 2.
pub const OPENS: &[u8] = b"\xF9\x03?\x01\x1C\xF9\xF9\x0B?\x01Y\xF9";

pub const OPENED: &[u8] =
    b"\xF9\x03s\x01\xD7\xF9\xF9\x0Bs\x01\x92\xF9\xF9\x01\xEF\x09\xE3\x05\x0B\x8D\x9A\xF9";

/// It defines a context and has it active, and then calls over it.
pub const CONTEXT: &[u8] = b"\xF9\x0B\xEFCAT+CGDCONT=1,\"IP\",\"a\";+CGACT=1,1\r#\xF9";

pub const OK: &[u8] = b"\xF9\x09\xEF\r\r\nOK\r\n\xD8\xF9";

pub const CALL: &[u8] = b"\xF9\x0B\xEF\x11ATD*99#\r\xAC\xF9";

pub const CONNECT: &[u8] = b"\xF9\x09\xEF\x17\r\nCONNECT\r\n)\xF9";

/// A command line, as data; data of the modem's end.
pub const CAME: &[u8] = b"\xF9\x0B\xEF\x09ATI\r\xBE\xF9";

const WENT: &[u8] = b"\xF9\x09\xEF\x05ok\xD6\xF9";

/// The client closes 2; the UA.
pub const DISC: &[u8] = b"\xF9\x0BS\x01\xB8\xF9";

pub const CLOSED: &[u8] = b"\xF9\x0Bs\x01\x92\xF9";

/// A modem with words at a line.
pub fn modem_on<L: SerialLine + Drop>(rt: &impl Abort, alloc: Global, line: L) -> Sim<L> {
    let start = ModemStart {
        pin: None,
        rssi: 18,
        ber: 99,
    };
    let script = Script {
        echo: false,
        steps: Steps::from(Vec::new(alloc)),
    };
    made(
        rt,
        Sim::new(
            alloc,
            line,
            Modem::with_words(alloc, start, false),
            script,
            64,
        ),
    )
}

/// A modem with words at a line whose relay is at its end, on which connection 2 waits for its CONNECT.
fn modem_at(
    rt: &impl Abort,
    alloc: Global,
    line: ThreadLine,
    data: Dlci,
) -> Sim<DataLine<ThreadLine>> {
    let relay = made(rt, Relay::with_role(alloc, Role::Responder, 64, &[data]));
    let mut line = made(rt, DataLine::new(alloc, line, relay));
    assert!(rt; line.begin(data, Begin::ByOwnConnect, Until::Close).is_ok());
    modem_on(rt, alloc, line)
}

/// The client writes these octets. The modem turns until it has nothing to do, and the client reads what it answered.
pub fn expect<L: SerialLine>(
    rt: &impl Abort,
    client: &mut ThreadLine,
    sim: &mut Sim<L>,
    written: &[u8],
    answered: &[u8],
) {
    assert!(rt; client.try_write(written) == Ok(written.len()));
    for _ in 0..64 {
        assert!(rt; sim.turn().is_ok());
    }
    let mut room = [0; 64];
    let Ok(count) = client.try_read(&mut room) else {
        panic!(rt; "the line failed");
    };
    assert!(rt; count <= 64 && &room[..count] == answered);
}

/// Data of each end comes at the other.
fn carry(
    rt: &impl Abort,
    client: &mut ThreadLine,
    sim: &mut Sim<DataLine<ThreadLine>>,
    data: Dlci,
) {
    let mut room = [0; 8];
    let Ok(read) = sim.line_mut().read(data, &mut room) else {
        panic!(rt; "not a data connection");
    };
    assert!(rt; read.count == 4 && &room[..4] == b"ATI\r".as_slice() && !read.is_over);
    assert!(rt; sim.line_mut().give(data, b"ok") == Ok(2));
    expect(rt, client, sim, b"", WENT);
}

#[test]
fn a_call_carries_data_until_the_client_closes(rt: HostRuntime) {
    let data = dlci(&rt, 2);
    let (mut client, line) = made(&rt, ThreadLine::pair(rt.alloc(), 256));
    let mut sim = modem_at(&rt, rt.alloc(), line, data);
    expect(&rt, &mut client, &mut sim, OPENS, OPENED);
    expect(&rt, &mut client, &mut sim, CONTEXT, OK);
    assert!(rt; sim.line_mut().give(data, b"ok").is_err());
    expect(&rt, &mut client, &mut sim, CALL, CONNECT);
    expect(&rt, &mut client, &mut sim, CAME, b"");
    carry(&rt, &mut client, &mut sim, data);
    expect(&rt, &mut client, &mut sim, DISC, CLOSED);
    assert!(rt;
        sim.line_mut()
            .begin(data, Begin::ByOwnConnect, Until::Close)
            .is_ok()
    );
}
