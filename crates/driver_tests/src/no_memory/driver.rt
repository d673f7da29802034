//! Of the driver, and what the calls of a command take.
use crate::made::{command, made, one};
use at_text::UrcKind;
use marks_tests::{begin, end};
use modem_desk::{Caller, Desk};
use modem_driver::*;
use mux_frame::{Dlci, FrameView, Kind};
use mux_station::ChannelState;
use serial_line::CutLine;
use std::alloc::Global;
use std::io::Print;
use std::process::Abort;
use std::sync::Wait;
use std::test::*;

// A request is taken: how many acts come of it.
fn takes(rt: &impl Abort, core: &mut Core, number: u64, ask: Ask) -> usize {
    let request = Request {
        caller: 0,
        number,
        ask,
    };
    match core.took(request) {
        Ok(acts) => acts.len(),
        Err(_) => panic!(rt; "a request is refused"),
    }
}

// Octets come on 1: how many acts come of them.
fn comes(rt: &impl Abort, core: &mut Core, info: &[u8]) -> usize {
    assert!(rt; info.len() <= usize::from(core.n1()));
    let frame = FrameView {
        dlci: one(),
        kind: Kind::Uih,
        cr: false,
        pf: false,
        info,
    };
    match core.got(frame) {
        Ok(acts) => acts.len(),
        Err(_) => panic!(rt; "a frame is refused"),
    }
}

// An UA comes.
fn is_opened(rt: &impl Abort, core: &mut Core, dlci: Dlci) {
    let frame = FrameView {
        dlci,
        kind: Kind::Ua,
        cr: true,
        pf: true,
        info: &[],
    };
    assert!(rt; core.got(frame).is_ok());
}

// All that waits goes out: how many frames.
fn all_goes_out(core: &mut Core) -> u32 {
    for count in 0..600 {
        if core.outgoing().is_none() {
            return count;
        }
    }
    600
}

// 0 or 1 is opened.
fn open(rt: &impl Abort, core: &mut Core, dlci: Dlci) {
    takes(rt, core, 1, Ask::OpenChannel(dlci));
    all_goes_out(core);
    is_opened(rt, core, dlci);
    all_goes_out(core);
}

// 0 and 1 are opened, and a first command has its answer.
fn warm_up(rt: &impl Abort, alloc: Global, core: &mut Core) {
    open(rt, core, Dlci::CONTROL);
    open(rt, core, one());
    takes(rt, core, 2, command(rt, alloc, b"AT"));
    all_goes_out(core);
    assert!(rt; comes(rt, core, b"\r\nOK\r\n") == 2);
}

// A command leaves, between marks.
fn command_leaves<R: Abort + Print>(rt: &R, alloc: Global, core: &mut Core) {
    let text = b"AT+CGDCONT=1,\"IP\",\"internet.example\"";
    takes(rt, core, 3, command(rt, alloc, text));
    begin(rt, "Core::outgoing, Core::state");
    assert!(rt; core.state(one()) == ChannelState::Opened);
    assert!(rt; all_goes_out(core) == 2);
    end(rt);
}

// The calls of a core that listens to RING, with 0 and 1 open, whose first command has its answer.
fn of_a_core<R: Abort + Print>(rt: &R, alloc: Global) {
    let mut core = made(rt, Core::new(alloc, 31, &[UrcKind::Ring]));
    warm_up(rt, alloc, &mut core);
    command_leaves(rt, alloc, &mut core);
}

// The multiplexer is entered, between marks.
fn enters<R: Abort + Print>(rt: &R, line: &mut CutLine) {
    begin(rt, "enter");
    let entered = enter(line, 100).is_ok();
    end(rt);
    assert!(rt; entered);
}

// It is closed down, between marks.
fn closes_down<R: Print>(rt: &R, line: &mut CutLine) {
    begin(rt, "close_down, Entry::new, Entry::step, Entry::is_sent");
    let mut entry = Entry::new(close_down());
    let _ = entry.step(line);
    let _ = entry.is_sent();
    end(rt);
}

// The calls of entries.
fn of_entries<R: Abort + Print>(rt: &R, alloc: Global) {
    let text = b"AT+CMUX=0\r\r\nOK\r\n";
    let mut line = made(rt, CutLine::new(alloc, text, &[], &[], 64));
    enters(rt, &mut line);
    closes_down(rt, &mut line);
}

// What a session is begun with.
type Begun<R> = (Session<CutLine, R>, Vec<Caller>);

fn new_session<R: Wait + Abort + Drop + Copy>(rt: R, alloc: Global) -> Begun<R> {
    let line = made(&rt, CutLine::new(alloc, b"", &[], &[], 64));
    let (driver, callers, _) = made(&rt, Desk::open(alloc, 1, &[UrcKind::Ring]));
    (
        made(&rt, Session::new(rt, alloc, line, driver, 31)),
        callers,
    )
}

// The octets come, and the session turns so often.
fn octets_come<R: Wait + Abort + Drop + Copy>(
    rt: &R,
    session: &mut Session<CutLine, R>,
    octets: &[u8],
    turns: u32,
) {
    assert!(rt; session.line_mut().put(octets) == octets.len());
    for _ in 0..turns {
        assert!(rt; session.turn().is_ok());
    }
}

// A connection is opened.
fn opens<R: Wait + Abort + Drop + Copy>(
    rt: &R,
    session: &mut Session<CutLine, R>,
    caller: &mut Caller,
    dlci: Dlci,
    ua: &[u8],
) {
    assert!(rt; caller.submit(rt, Ask::OpenChannel(dlci)).is_ok());
    octets_come(rt, session, b"", 3);
    octets_come(rt, session, ua, 3);
}

// 0 and 1 are opened, a command is in hand, and a RING has come: the next turn would announce it.
fn keep_busy<R: Wait + Abort + Drop + Copy>(
    rt: &R,
    alloc: Global,
    session: &mut Session<CutLine, R>,
    caller: &mut Caller,
) {
    opens(
        rt,
        session,
        caller,
        Dlci::CONTROL,
        b"\xF9\x03\x73\x01\xD7\xF9",
    );
    opens(rt, session, caller, one(), b"\xF9\x07\x73\x01\x15\xF9");
    assert!(rt; caller.submit(rt, command(rt, alloc, b"AT+CSQ")).is_ok());
    octets_come(rt, session, b"\xF9\x05\xEF\x11\r\nRING\r\n\x4A\xF9", 2);
}

// A session ends, between marks.
fn ends<R: Wait + Abort + Print + Drop + Copy>(rt: &R, session: Session<CutLine, R>) {
    begin(rt, "Session::finish");
    let finished = session.finish();
    end(rt);
    assert!(rt; finished.in_hand.len() == 1 && finished.unannounced.len() == 1);
}

// A session's line is lent, and the session ends, between marks.
fn of_a_session<R: Wait + Abort + Print + Drop + Copy>(rt: R, alloc: Global) {
    let (mut session, mut callers) = new_session(rt, alloc);
    assert!(&rt; callers.len() == 1);
    keep_busy(&rt, alloc, &mut session, &mut callers[0]);
    begin(&rt, "Session::line_mut");
    let put = session.line_mut().put(b"\xF9");
    end(&rt);
    assert!(&rt; put == 1);
    ends(&rt, session);
}

#[test]
fn calls_that_take_no_memory(rt: HostRuntime) {
    of_a_core(&rt, rt.alloc());
    of_entries(&rt, rt.alloc());
    of_a_session(rt, rt.alloc());
}

// A line comes in a frame of its own, between marks: so many acts come of it.
fn line_comes<R: Abort + Print>(rt: &R, core: &mut Core, call: &str, line: &[u8], acts: usize) {
    begin(rt, call);
    let came = comes(rt, core, line);
    end(rt);
    assert!(rt; came == acts);
}

// A command of one frame is taken, and leaves.
fn is_asked<R: Abort + Print>(rt: &R, core: &mut Core, ask: Ask) {
    begin(rt, "Core::took of a command");
    assert!(rt; takes(rt, core, 3, ask) == 1);
    end(rt);
    begin(rt, "Core::outgoing of a command");
    assert!(rt; all_goes_out(core) == 1);
    end(rt);
}

// It is answered by lines and a final code, each in a frame of its own; a RING comes between.
fn is_answered<R: Abort + Print>(rt: &R, core: &mut Core) {
    let signal = b"\r\n+CSQ: 18,99\r\n";
    line_comes(rt, core, "Core::got of a line", signal, 1);
    line_comes(rt, core, "Core::got of a RING", b"\r\nRING\r\n", 2);
    for _ in 0..100 {
        comes(rt, core, b"\r\n+CMGL: 1\r\n");
    }
    line_comes(rt, core, "Core::got of a line after a hundred", signal, 1);
    line_comes(rt, core, "Core::got of the final code", b"\r\nOK\r\n", 2);
}

#[test]
fn calls_of_a_command(rt: HostRuntime) {
    let alloc = rt.alloc();
    let mut core = made(&rt, Core::new(alloc, 31, &[UrcKind::Ring]));
    warm_up(&rt, alloc, &mut core);
    is_asked(&rt, &mut core, command(&rt, alloc, b"AT+CSQ"));
    is_answered(&rt, &mut core);
}
