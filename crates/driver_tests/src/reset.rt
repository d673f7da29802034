//! A modem that is reset: what comes while there is no line is turned away, and another session goes on at the same desk.
ghost use Rattle.std.specs.Prelude.{◌≡◌, map};
ghost use Rattle.modem_desk.specs.Ends.{place_of};

use crate::callers::{submit_to, taken_by};
use crate::ticking::given_up;
use modem_desk::*;
use modem_driver::*;
use mux_frame::Dlci;
use serial_line::{Cut, CutLine};
use std::alloc::Global;
use std::process::Abort;
use std::sync::Wait;
use std::test::Fail;

// A session takes a request, and then its line fails.
fn lost_line<R: Wait + Abort + Drop + Copy>(
    rt: R,
    alloc: Global,
    driver: DriverEnd,
) -> Finished<CutLine>
    ensures { result.driver.desk ≡ driver.desk }
{
    let Ok(line) = CutLine::new(alloc, b"", &[Cut::Upto(0), Cut::Fault], &[], 64) else {
        panic!(&rt; "no memory");
    };
    let Ok(mut session) = Session::new(rt, alloc, line, driver, 31) else {
        panic!(&rt; "no memory");
    };
    assert!(&rt; matches!(session.turn(), Ok(Turn::Moved)));
    assert!(&rt; matches!(session.turn(), Err(SessionFault::Line)));
    session.finish()
}

// Two passes: the first tells what waits and what comes, and the second finds nothing.
fn turned_away<R: Wait + Abort>(rt: &R, alloc: Global, finished: Finished<CutLine>) -> DriverEnd
    ensures { result.desk ≡ finished.driver.desk }
{
    let Finished {
        line: _,
        mut driver,
        in_hand,
        unplaced,
        unannounced,
    } = finished;
    assert!(rt; in_hand.is_empty() && unplaced.len() == 1);
    let Ok(mut offline) = Offline::new(alloc, in_hand, unplaced, unannounced) else {
        panic!(rt; "no memory");
    };
    assert!(rt; offline.turn_away(rt, &mut driver) == Turn::Moved);
    assert!(rt; offline.turn_away(rt, &mut driver) == Turn::Idle);
    let (outcomes, lines) = offline.finish();
    assert!(rt; outcomes.is_empty() && lines.is_empty());
    driver
}

// The caller takes the outcome of this number: its line was lost.
fn take_lost<R: Abort>(rt: &R, callers: &mut Vec<Caller>, number: u64)
    ensures { map place_of callers.new.items ≡ map place_of callers.old.items }
{
    let told = taken_by(rt, callers, 0).expect(rt, "an outcome");
    assert!(rt; told.number == number && matches!(told.answer, Answer::LineLost));
}

// A line fails under what the caller asked first, and what it asks next comes while there is none. Both are told LineLost.
fn lost_twice<R: Wait + Abort + Drop + Copy>(
    rt: R,
    alloc: Global,
    driver: DriverEnd,
    callers: &mut Vec<Caller>,
    first: Ask,
) -> DriverEnd
    ensures desk { result.desk ≡ driver.desk }
    ensures places { map place_of callers.new.items ≡ map place_of callers.old.items }
{
    submit_to(&rt, callers, 0, first);
    let finished = lost_line(rt, alloc, driver);
    submit_to(&rt, callers, 0, Ask::Stop);
    let driver = turned_away(&rt, alloc, finished);
    take_lost(&rt, callers, 1);
    take_lost(&rt, callers, 2);
    driver
}

// What was in hand when the line failed, and what comes before there is another, is told LineLost. The next session goes on at the
// same desk, whose callers number on.
#[test]
fn a_session_follows_one_whose_line_failed(rt: HostRuntime) -> Result<(), Fail> {
    let alloc = rt.alloc();
    let (driver, mut callers, _) = Desk::open(alloc, 1, &[])?;
    let driver = lost_twice(
        rt,
        alloc,
        driver,
        &mut callers,
        Ask::OpenChannel(Dlci::CONTROL),
    );
    submit_to(&rt, &mut callers, 0, Ask::OpenChannel(Dlci::CONTROL));
    let _ = given_up(rt, alloc, driver);
    let told = taken_by(&rt, &mut callers, 0).expect(&rt, "an outcome");
    assert!(rt; told.number == 3 && matches!(told.answer, Answer::NoAnswer));
    assert!(rt; taken_by(&rt, &mut callers, 0).is_none());
    Ok(())
}
