//! Of a simulated modem.
use crate::made::made;
use at_cmds::Pin;
use marks_tests::{begin, end};
use modem_sim::*;
use serial_line::CutLine;
use std::alloc::Global;
use std::io::Print;
use std::process::Abort;
use std::test::*;

// A modem that wants a PIN, between marks.
fn started(rt: &impl Print, alloc: Global, pin: Vec<u8>) -> Modem {
    begin(rt, "Modem::new");
    let start = ModemStart {
        pin: Some(Pin::from(pin)),
        ..ModemStart::default()
    };
    let modem = Modem::new(alloc, start);
    end(rt);
    modem
}

// A modem on a line.
fn simulated(rt: &impl Abort, alloc: Global, line: CutLine, modem: Modem) -> Sim<CutLine> {
    let script = Script {
        echo: false,
        steps: Steps::from(Vec::new(alloc)),
    };
    made(rt, Sim::new(alloc, line, modem, script, 31))
}

// Its line is lent, and it is given back with the modem, between marks.
fn ends_a_sim<R: Abort + Print>(rt: &R, mut sim: Sim<CutLine>) {
    begin(rt, "Sim::line_mut");
    let put = sim.line_mut().put(b"\xF9");
    end(rt);
    begin(rt, "Sim::finish");
    let (line, modem) = sim.finish();
    end(rt);
    assert!(rt; put == 1 && line.sent().is_empty());
    drop(modem);
}

#[test]
fn calls_that_take_no_memory(rt: HostRuntime) {
    let alloc = rt.alloc();
    let line = made(&rt, CutLine::new(alloc, b"", &[], &[], 64));
    let pin = made(&rt, b"1234".to_vec(alloc));
    let modem = started(&rt, alloc, pin);
    let sim = simulated(&rt, alloc, line, modem);
    ends_a_sim(&rt, sim);
}
