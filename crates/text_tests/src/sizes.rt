//! Large sizes, at which giving up would cost a user: where there is memory, the calls succeed.
use crate::made::{made, window_of};
use at_cmds::{Command, PinState, Reply};
use at_text::*;
use std::alloc::Global;
use std::process::Abort;
use std::test::*;

fn keeps(rt: &impl Abort, window: &mut Window, line: &[u8]) {
    let seen = made(rt, window.see(line));
    assert!(rt; seen == Seen::Kept);
}

// The lines of the answer that OK ends.
fn answered(rt: &impl Abort, window: &mut Window) -> AnswerLines {
    match made(rt, window.see(b"OK")) {
        Seen::Done(answer) => answer,
        _ => panic!(rt; "no answer"),
    }
}

// An answer of 300 lines and its final code.
#[test]
fn a_window_of_300_lines(rt: HostRuntime) {
    let mut window = window_of(&rt, rt.alloc(), b"AT+CMGL=4");
    for _ in 0..300 {
        keeps(&rt, &mut window, b"+CMGL: 1");
    }
    let answer = answered(&rt, &mut window);
    assert!(rt; answer.len() == 301);
}

// A text of 200 octets for what is wanted of a SIM.
fn long_line(rt: &impl Abort, alloc: Global) -> Vec<u8> {
    let mut line = made(rt, Vec::from_slice(alloc, b"+CPIN: "));
    let text = [b'P'; 200];
    assert!(rt; line.extend_from_slice(&text).is_ok());
    line
}

// How long it is as it is read.
fn length_read(rt: &impl Abort, alloc: Global, answer: &AnswerLines) -> usize {
    match Reply::read(alloc, &Command::PinQuery, answer) {
        Ok(Reply::Pin(PinState::Other(text))) => text.as_slice().len(),
        _ => panic!(rt; "no text of its own"),
    }
}

#[test]
fn a_pin_text_of_200_octets(rt: HostRuntime) {
    let line = long_line(&rt, rt.alloc());
    let mut window = window_of(&rt, rt.alloc(), b"AT+CPIN?");
    keeps(&rt, &mut window, line.as_slice());
    let answer = answered(&rt, &mut window);
    assert!(rt; length_read(&rt, rt.alloc(), &answer) == 200);
}
