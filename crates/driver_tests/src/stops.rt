//! A core on the line: a stop holds up the rest of a command, and a final code ends it.
use crate::made::{command, made};
use at_text::Dialect;
use modem_driver::*;
use mux_frame::{Deframer, Dlci, Kind, write_frame};
use std::alloc::Global;
use std::process::Abort;
use std::test::*;

/// What is done to a core, and what has to come of it.
#[derive(Clone, Copy)]
enum Step {
    Open(u8),
    /// A command is to be sent on 1.
    Command(&'static [u8]),
    /// A frame comes.
    Got(&'static [u8]),
    /// The next frame that leaves, as the line gets it; nothing where none does.
    Leaves(&'static [u8]),
}

const MSC_READY: &[u8] = b"\xF9\x03\xEF\x09\xE3\x05\x07\x8D\xFB\xF9";

/// Opens 0 and 1.
const OPENED: &[Step] = &[
    Step::Open(0),
    Step::Leaves(b"\xF9\x03\x3F\x01\x1C\xF9"),
    Step::Got(b"\xF9\x03\x73\x01\xD7\xF9"),
    Step::Open(1),
    Step::Leaves(b"\xF9\x07\x3F\x01\xDE\xF9"),
    Step::Got(b"\xF9\x07\x73\x01\x15\xF9"),
    Step::Leaves(MSC_READY),
    Step::Leaves(b""),
];

/// Of a command of 37 octets 31 leave; an MSC that stops the connection holds up the rest until the next one.
const STOPPED_MIDWAY: &[Step] = &[
    Step::Command(b"AT+CGDCONT=1,\"IP\",\"internet.example\""),
    Step::Leaves(b"\xF9\x07\xEF\x3FAT+CGDCONT=1,\"IP\",\"internet.exa\xF9\xF9"),
    Step::Got(b"\xF9\x01\xEF\x09\xE3\x05\x07\x0F\x9A\xF9"),
    Step::Leaves(b"\xF9\x03\xEF\x09\xE1\x05\x07\x0F\xFB\xF9"),
    Step::Leaves(b""),
    Step::Got(b"\xF9\x01\xEF\x09\xE3\x05\x07\x0D\x9A\xF9"),
    Step::Leaves(b"\xF9\x03\xEF\x09\xE1\x05\x07\x0D\xFB\xF9"),
    Step::Leaves(b"\xF9\x07\xEF\x0D\x6D\x70\x6C\x65\x22\x0D\x3E\xF9"),
    Step::Leaves(b""),
];

/// Of two commands the second leaves once the first has its final code, `+CMS ERROR:` (27.005, 3.2.5).
const TWO_COMMANDS: &[Step] = &[
    Step::Command(b"AT+CMGS=1"),
    Step::Command(b"AT"),
    Step::Leaves(b"\xF9\x07\xEF\x15AT+CMGS=1\r\x2C\xF9"),
    Step::Leaves(b""),
    Step::Got(b"\xF9\x05\xEF\x23+CMS ERROR: 500\r\n\x8D\xF9"),
];

fn took(rt: &impl Abort, core: &mut Core, ask: Ask) {
    let request = Request {
        caller: 0,
        number: 1,
        ask,
    };
    assert!(rt; core.took(request).is_ok());
}

fn opens(rt: &impl Abort, core: &mut Core, number: u8) {
    let dlci = Dlci::new(number).expect(rt, "a connection");
    took(rt, core, Ask::OpenChannel(dlci));
}

/// The first frame in these octets comes.
fn got(rt: &impl Abort, alloc: Global, core: &mut Core, octets: &[u8]) {
    let mut deframer = made(rt, Deframer::new(alloc, 31));
    deframer.feed(octets);
    let Some(frame) = deframer.peek() else {
        panic!(rt; "no frame");
    };
    let most = match frame.kind {
        Kind::Uih => core.n1(),
        _ => 0,
    };
    assert!(rt; frame.info.len() <= usize::from(most));
    assert!(rt; core.got(frame).is_ok());
}

/// The next frame leaves as these octets, or none does.
fn leaves(rt: &impl Abort, alloc: Global, core: &mut Core, octets: &[u8]) {
    let mut spelled = Vec::new(alloc);
    if let Some(outgoing) = core.outgoing() {
        assert!(rt; write_frame(outgoing.frame, 31, &mut spelled).is_ok());
    }
    assert!(rt; spelled.as_slice() == octets);
}

fn play_one(rt: &impl Abort, alloc: Global, core: &mut Core, step: Step) {
    match step {
        Step::Open(number) => opens(rt, core, number),
        Step::Command(text) => took(rt, core, command(rt, alloc, text)),
        Step::Got(octets) => got(rt, alloc, core, octets),
        Step::Leaves(octets) => leaves(rt, alloc, core, octets),
    }
}

fn play(rt: &impl Abort, alloc: Global, core: &mut Core, steps: &[Step]) {
    for step in steps {
        play_one(rt, alloc, core, *step);
    }
}

#[test]
fn a_stop_holds_up_the_rest_of_a_command(rt: HostRuntime) {
    let mut core = made(&rt, Core::new(rt.alloc(), 31, &[]));
    play(&rt, rt.alloc(), &mut core, OPENED);
    play(&rt, rt.alloc(), &mut core, STOPPED_MIDWAY);
}

/// Two commands by a core of these codes, and what leaves then.
fn play_two(rt: &impl Abort, alloc: Global, dialect: &Dialect, then: &'static [u8]) {
    let mut core = made(rt, Core::with_dialect(alloc, 31, dialect, &[]));
    play(rt, alloc, &mut core, OPENED);
    play(rt, alloc, &mut core, TWO_COMMANDS);
    leaves(rt, alloc, &mut core, then);
}

#[test]
fn a_code_of_a_dialect_ends_a_command(rt: HostRuntime) {
    let alloc = rt.alloc();
    let standard = Dialect::standard(alloc);
    play_two(&rt, alloc, &standard, b"");
    let common = made(&rt, Dialect::common(alloc));
    play_two(&rt, alloc, &common, b"\xF9\x07\xEF\x07AT\r\xD3\xF9");
}
