//! An entry into the multiplexer, step by step.
use crate::made::made;
use at_text::Final;
use modem_driver::{Entry, EntryStep, close_down};
use serial_line::*;
use std::alloc::Global;
use std::process::Abort;
use std::test::*;

const TEXT: &[u8] = b"AT+CMUX=0,0,5,127\r";

// What came last of an entry that is made step by step until its code came, it was idle, the line failed, or 400 steps were made.
fn enter_on<L: SerialLine>(entry: &mut Entry<'_>, line: &mut L) -> Result<EntryStep, LineFault> {
    for _ in 0..400 {
        let said = entry.step(line)?;
        if said != EntryStep::Moved {
            return Ok(said);
        }
    }
    Ok(EntryStep::Moved)
}

// An entry where the modem says so much comes to this, with so many octets left unread; its whole text is sent.
fn expect(rt: &impl Abort, alloc: Global, input: &[u8], code: Final, left: usize) {
    let mut line = made(rt, CutLine::new(alloc, input, &[], &[], 1024));
    let mut entry = Entry::new(TEXT);
    assert!(rt; enter_on(&mut entry, &mut line) == Ok(EntryStep::Answered(code)));
    assert!(rt; entry.is_sent() && line.sent() == TEXT);
    assert!(rt; line.try_read(&mut [0; 64]) == Ok(left));
}

// A text of a modem that boots, and its answer.
fn booting(rt: &impl Abort, alloc: Global) -> String {
    let boot = made(
        rt,
        "*** modem 4 is starting, please wait ***\r\n".repeat(alloc, 6),
    );
    made(rt, format!(in alloc; "{boot}AT+CMUX=0,0,5,127\r\r\nOK\r"))
}

#[test]
fn the_first_final_code_ends_an_entry_whatever_came_before(rt: HostRuntime) {
    let alloc = rt.alloc();
    expect(&rt, alloc, b"\r\nOK\r\n\xF9", Final::Good, 2);
    let text = booting(&rt, alloc);
    expect(&rt, alloc, text.as_bytes(), Final::Good, 0);
    expect(&rt, alloc, b"\r\nERROR\r\n", Final::Error, 1);
    let refused = Final::Cme(Some(3));
    expect(&rt, alloc, b"\r\n+CME ERROR: 3\r\n", refused, 1);
}

// An entry over a line that takes 7 octets and then none: these are sent, and it is idle.
fn is_held_up(rt: &impl Abort, entry: &mut Entry<'_>, line: &mut CutLine) {
    assert!(rt; enter_on(entry, line) == Ok(EntryStep::Idle));
    assert!(rt; !entry.is_sent() && line.sent() == &TEXT[..7]);
}

// The line takes the rest, and nothing comes.
fn is_unanswered(rt: &impl Abort, entry: &mut Entry<'_>, line: &mut CutLine) {
    assert!(rt; enter_on(entry, line) == Ok(EntryStep::Idle));
    assert!(rt; entry.is_sent() && line.sent() == TEXT);
}

// The answer comes later.
fn is_answered(rt: &impl Abort, entry: &mut Entry<'_>, line: &mut CutLine) {
    assert!(rt; line.put(b"\r\nOK\r") == 5);
    assert!(rt; enter_on(entry, line) == Ok(EntryStep::Answered(Final::Good)));
}

#[test]
fn nothing_is_read_before_the_text_is_sent_and_none_that_comes_is_idle(rt: HostRuntime) {
    let writes = [Cut::Upto(7), Cut::Upto(0), Cut::Upto(1), Cut::Upto(30)];
    let mut line = made(&rt, CutLine::new(rt.alloc(), b"", &[], &writes, 1024));
    let mut entry = Entry::new(TEXT);
    is_held_up(&rt, &mut entry, &mut line);
    is_unanswered(&rt, &mut entry, &mut line);
    is_answered(&rt, &mut entry, &mut line);
}

// A write and a read fail once each.
fn fails_twice(rt: &impl Abort, entry: &mut Entry<'_>, line: &mut CutLine) {
    assert!(rt; entry.step(line) == Err(LineFault) && !entry.is_sent());
    assert!(rt; entry.step(line) == Ok(EntryStep::Moved) && entry.is_sent());
    assert!(rt; entry.step(line) == Err(LineFault));
}

#[test]
fn a_line_that_fails_in_a_step_may_be_used_again(rt: HostRuntime) {
    let cuts = [Cut::Fault];
    let mut line = made(&rt, CutLine::new(rt.alloc(), b"OK\r", &cuts, &cuts, 1024));
    let mut entry = Entry::new(TEXT);
    fails_twice(&rt, &mut entry, &mut line);
    let good = EntryStep::Answered(Final::Good);
    assert!(rt; enter_on(&mut entry, &mut line) == Ok(good) && line.sent() == TEXT);
}

#[test]
fn a_multiplexer_is_closed_down_by_a_text_of_its_own(rt: HostRuntime) {
    let mut line = made(&rt, CutLine::new(rt.alloc(), b"", &[], &[], 1024));
    let mut entry = Entry::new(close_down());
    assert!(rt; entry.step(&mut line) == Ok(EntryStep::Moved) && entry.is_sent());
    assert!(rt; line.sent() == b"\xF9\x03\xEF\x05\xC3\x01\xF2\xF9".as_slice());
}
