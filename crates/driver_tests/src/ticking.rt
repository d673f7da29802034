//! A session that ticks, and whose desk is settled.
ghost use Rattle.std.specs.Prelude.{◌≡◌};

use crate::callers::{submit_to, taken_by};
use modem_desk::*;
use modem_driver::*;
use mux_frame::Dlci;
use serial_line::CutLine;
use std::alloc::Global;
use std::process::Abort;
use std::sync::Wait;
use std::test::Fail;

// Turns three times: what moves goes on.
fn turn_thrice<R: Wait + Abort + Drop>(rt: &impl Abort, session: &mut Session<CutLine, R>)
    ensures { session.new.driver.desk ≡ session.old.driver.desk }
{
    for _ in 0..3 {
        assert!(rt; session.turn().is_ok());
    }
}

// Ticks four times: at the fourth what waits for an answer is given up.
fn tick_out<R: Wait + Abort + Drop>(rt: &impl Abort, session: &mut Session<CutLine, R>)
    ensures { session.new.driver.desk ≡ session.old.driver.desk }
{
    for _ in 0..4 {
        assert!(rt; session.tick().is_ok());
    }
}

// The desk's end of a session over a line that gives nothing, which gave up what it was asked.
pub fn given_up<R: Wait + Abort + Drop + Copy>(rt: R, alloc: Global, driver: DriverEnd) -> DriverEnd
    ensures { result.desk ≡ driver.desk }
{
    let Ok(line) = CutLine::new(alloc, b"", &[], &[], 64) else {
        panic!(&rt; "no memory");
    };
    let Ok(mut session) = Session::new(rt, alloc, line, driver, 31) else {
        panic!(&rt; "no memory");
    };
    turn_thrice(&rt, &mut session);
    tick_out(&rt, &mut session);
    turn_thrice(&rt, &mut session);
    let Finished {
        line: _,
        driver,
        in_hand,
        unplaced,
        unannounced,
    } = session.finish();
    assert!(&rt; in_hand.is_empty() && unplaced.is_empty() && unannounced.is_empty());
    driver
}

// One caller has taken all, and nobody listened.
fn is_empty(rt: &impl Abort, settled: &Settled) {
    assert!(rt; settled.left.is_empty() && settled.unheard.is_empty());
    assert!(rt; settled.untaken.len() == 1 && settled.untaken[0].is_empty());
}

// An opening that isn't answered is given up at the fourth tick, and its caller takes NoAnswer; then the desk is settled.
#[test]
fn a_session_that_ticked_is_settled(rt: HostRuntime) -> Result<(), Fail> {
    let alloc = rt.alloc();
    let (driver, mut callers, listeners) = Desk::open(alloc, 1, &[])?;
    submit_to(&rt, &mut callers, 0, Ask::OpenChannel(Dlci::CONTROL));
    let driver = given_up(rt, alloc, driver);
    let told = taken_by(&rt, &mut callers, 0).expect(&rt, "an outcome");
    assert!(rt; told.number == 1 && matches!(told.answer, Answer::NoAnswer));
    let Ok(settled) = settle(&rt, alloc, driver, callers, listeners) else {
        panic!(rt; "no memory");
    };
    is_empty(&rt, &settled);
    Ok(())
}
