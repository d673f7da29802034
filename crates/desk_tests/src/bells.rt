//! A desk whose callers and listeners ring a bell, or are woken by one.
use crate::asks::{submit_stops, take_requests, taken_by, tell_stopped};
use at_text::{Text, UrcKind};
use bell::Bell;
use modem_desk::*;
use mux_frame::Dlci;
use std::alloc::Global;
use std::process::Abort;
use std::sync::Wait;
use std::test::Fail;
use std::time::Duration;

// Longer than a test may last: a wait that isn't rung for fails it.
fn long() -> Duration {
    Duration::from_secs(3600)
}

fn ring(rt: &impl Abort, alloc: Global) -> Urc {
    let Ok(text) = b"RING".to_vec(alloc) else {
        panic!(rt; "no memory");
    };
    Urc {
        kind: UrcKind::Ring,
        dlci: Dlci::new(1).expect(rt, "a connection"),
        line: Text::from(text),
    }
}

// A submit rings, and so does the take of its outcome.
fn caller_rings<R: Wait + Abort>(
    rt: &R,
    bell: &Bell,
    driver: &mut DriverEnd,
    callers: &mut Vec<Caller>,
) {
    submit_stops(rt, callers, 0, 1);
    bell.wait(rt, long());
    take_requests(rt, driver, &[(0, 1)]);
    tell_stopped(rt, driver, 0, 1);
    assert!(rt; taken_by(rt, callers, 0).is_some());
    bell.wait(rt, long());
}

// The take of a line rings.
fn listener_rings<R: Wait + Abort>(
    rt: &R,
    bell: &Bell,
    driver: &mut DriverEnd,
    listeners: &mut [Listener],
    line: Urc,
) {
    assert!(rt; driver.listens(UrcKind::Ring) && line.kind == UrcKind::Ring);
    assert!(rt; driver.announce(line).is_ok() && listeners.len() == 1);
    assert!(rt; listeners[0].take().is_some());
    bell.wait(rt, long());
}

#[test]
fn a_submit_and_each_take_ring(rt: HostRuntime) -> Result<(), Fail> {
    let alloc = rt.alloc();
    let bell = Bell::new(alloc)?;
    let opened = Desk::open_with_bell(alloc, 1, &[UrcKind::Ring], 1, &bell);
    let Ok((mut driver, mut callers, mut listeners)) = opened else {
        panic!(rt; "no memory");
    };
    caller_rings(&rt, &bell, &mut driver, &mut callers);
    let line = ring(&rt, alloc);
    listener_rings(&rt, &bell, &mut driver, listeners.as_mut_slice(), line);
    Ok(())
}

#[test]
fn an_outcome_wakes_its_caller(rt: HostRuntime) -> Result<(), Fail> {
    let alloc = rt.alloc();
    let bell = Bell::new(alloc)?;
    let Ok((mut driver, mut callers, _)) = Desk::open(alloc, 2, &[]) else {
        panic!(rt; "no memory");
    };
    driver.wake(1, bell.share()?);
    submit_stops(&rt, &mut callers, 1, 1);
    take_requests(&rt, &mut driver, &[(1, 1)]);
    tell_stopped(&rt, &mut driver, 1, 1);
    bell.wait(&rt, long());
    assert!(rt; taken_by(&rt, &mut callers, 1).is_some());
    Ok(())
}

// Whether the caller at this place is alone.
fn is_alone(rt: &impl Abort, callers: &mut Vec<Caller>, place: usize) -> bool {
    assert!(rt; place < callers.len());
    let caller = &mut callers[place];
    caller.is_alone()
}

#[test]
fn a_caller_is_alone_once_the_driver_is_gone_and_takes_what_waits(rt: HostRuntime) {
    let Ok((mut driver, mut callers, _)) = Desk::open(rt.alloc(), 2, &[]) else {
        panic!(rt; "no memory");
    };
    assert!(rt; !is_alone(&rt, &mut callers, 0) && !is_alone(&rt, &mut callers, 1));
    submit_stops(&rt, &mut callers, 0, 1);
    take_requests(&rt, &mut driver, &[(0, 1)]);
    tell_stopped(&rt, &mut driver, 0, 1);
    drop(driver);
    assert!(rt; is_alone(&rt, &mut callers, 0) && is_alone(&rt, &mut callers, 1));
    assert!(rt; taken_by(&rt, &mut callers, 0).is_some());
    assert!(rt; taken_by(&rt, &mut callers, 0).is_none());
}
