//! The calls that take no memory.
use at_text::{Text, UrcKind};
use bell::Bell;
use marks_tests::{begin, end};
use modem_desk::*;
use mux_frame::Dlci;
use std::alloc::Global;
use std::process::Abort;
use std::sync::Wait;
use std::test::Fail;

// Outcomes are told until they find no room.
fn tell_all(rt: &impl Abort, driver: &mut DriverEnd) -> usize {
    let mut told = 0usize;
    for number in 1..=20 {
        assert!(rt; driver.callers() > 0);
        let outcome = Outcome {
            caller: 0,
            number,
            answer: Answer::Stopped,
        };
        if driver.tell(outcome).is_ok() {
            told = told.saturating_add(1);
        }
    }
    told
}

// The line is announced, or comes back.
fn announce(rt: &impl Abort, driver: &mut DriverEnd, line: Urc) -> Option<Urc> {
    assert!(rt; driver.listens(line.kind));
    driver.announce(line).err()
}

// The calls by which a caller asks and is told.
fn callers_and_driver<R: Wait + Abort + Print>(
    rt: &R,
    driver: &mut DriverEnd,
    callers: &mut [Caller],
) {
    assert!(rt; callers.len() == 2);
    begin(rt, "Caller::submit");
    for _ in 0..20 {
        let _ = callers[0].submit(rt, Ask::Stop);
    }
    end(rt);
    begin(rt, "DriverEnd::next");
    for _ in 0..20 {
        let _ = driver.next(rt);
    }
    end(rt);
    begin(rt, "DriverEnd::tell, DriverEnd::callers");
    assert!(rt; tell_all(rt, driver) == 8);
    end(rt);
    begin(rt, "Caller::take, Caller::is_alone");
    assert!(rt; !callers[0].is_alone());
    assert!(rt; callers[0].take().is_some());
    assert!(rt; callers[1].take().is_none());
    end(rt);
}

// The calls by which a line is announced to the first listener, of RING.
fn listener_and_driver<R: Abort + Print>(
    rt: &R,
    driver: &mut DriverEnd,
    listeners: &mut [Listener],
    line: Urc,
) {
    assert!(rt; listeners.len() == 1);
    begin(rt, "DriverEnd::announce, DriverEnd::listens");
    assert!(rt; announce(rt, driver, line).is_none());
    end(rt);
    begin(rt, "Listener::take, Listener::kind");
    assert!(rt; listeners[0].kind() == UrcKind::Ring);
    let heard = listeners[0].take();
    let more = listeners[0].take();
    end(rt);
    assert!(rt; heard.is_some() && more.is_none());
}

fn ring(alloc: Global) -> Result<Urc, Fail> {
    Ok(Urc {
        kind: UrcKind::Ring,
        dlci: Dlci::new(1).ok_or("no such DLCI")?,
        line: Text::from(b"RING".to_vec(alloc)?),
    })
}

#[test]
fn calls_that_take_no_memory(rt: HostRuntime) -> Result<(), Fail> {
    let alloc = rt.alloc();
    let bell = Bell::new(alloc)?;
    let line = ring(alloc)?;
    let opened = Desk::open_with_bell(alloc, 2, &[UrcKind::Ring], 1, &bell);
    let Ok((mut driver, mut callers, mut listeners)) = opened else {
        panic!(rt; "no memory");
    };
    callers_and_driver(&rt, &mut driver, callers.as_mut_slice());
    listener_and_driver(&rt, &mut driver, listeners.as_mut_slice(), line);
    Ok(())
}
