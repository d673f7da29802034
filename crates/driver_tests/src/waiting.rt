//! How long the first command of a connection has waited.
use crate::made::{made, one};
use at_text::CommandLine;
use modem_driver::*;
use mux_frame::Dlci;
use std::alloc::Global;
use std::process::Abort;
use std::test::*;

/// The modem opens 0, then 1; and on 1 it answers OK.
const OPENED_0: &[u8] = b"\xF9\x03\x73\x01\xD7\xF9";

const OPENED_1: &[u8] = b"\xF9\x07\x73\x01\x15\xF9";

const OK_ON_1: &[u8] = b"\xF9\x05\xEF\x0D\r\nOK\r\n\x5F\xF9";

/// All that waits for the line leaves, and then these octets come.
fn exchange(rt: &impl Abort, driver: &mut Endpoint, octets: &[u8]) {
    let mut room = [0; 256];
    assert!(rt; driver.poll_output(&mut room) < 256);
    assert!(rt; driver.handle_input(octets).taken == octets.len());
}

/// So many ticks.
fn tick(rt: &impl Abort, driver: &mut Endpoint, count: u32) {
    for _ in 0..count {
        assert!(rt; driver.tick().is_ok());
    }
}

/// So many ticks has the first command on 1 waited.
fn waited(rt: &impl Abort, driver: &Endpoint, ticks: Option<u64>) {
    assert!(rt; driver.waiting_ticks(one()) == ticks);
}

/// Opens 0 and 1.
fn open_both(rt: &impl Abort, driver: &mut Endpoint) {
    assert!(rt; driver.open(Dlci::CONTROL).is_ok());
    exchange(rt, driver, OPENED_0);
    assert!(rt; driver.open(one()).is_ok());
    exchange(rt, driver, OPENED_1);
}

/// Asks for a command on 1.
fn ask(rt: &impl Abort, alloc: Global, driver: &mut Endpoint, text: &[u8]) {
    let line = made(rt, CommandLine::new(alloc, text));
    assert!(rt; driver.command(one(), line).is_ok());
}

/// 1 is open, and no command waits on it before two are asked for.
fn ask_two(rt: &impl Abort, alloc: Global, driver: &mut Endpoint) {
    open_both(rt, driver);
    tick(rt, driver, 2);
    waited(rt, driver, None);
    ask(rt, alloc, driver, b"AT+CSQ");
    ask(rt, alloc, driver, b"AT");
}

/// The second is counted from the first one's answer on.
fn count_two(rt: &impl Abort, driver: &mut Endpoint) {
    waited(rt, driver, Some(0));
    tick(rt, driver, 5);
    waited(rt, driver, Some(5));
    exchange(rt, driver, OK_ON_1);
    waited(rt, driver, Some(0));
    tick(rt, driver, 1);
    waited(rt, driver, Some(1));
    exchange(rt, driver, OK_ON_1);
    waited(rt, driver, None);
}

#[test]
fn ticks_of_the_first_command_are_counted(rt: HostRuntime) {
    let alloc = rt.alloc();
    let mut driver = made(&rt, Endpoint::new(alloc, 31, &[], 1));
    ask_two(&rt, alloc, &mut driver);
    count_two(&rt, &mut driver);
}
