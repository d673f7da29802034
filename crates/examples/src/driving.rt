//! A session in a thread of its own: it is polled, with ticks from a clock, until it has ended.
ghost use Rattle.std.specs.Prelude.{◌≡◌};

use bell::Bell;
use modem_driver::{Progress, Session};
use serial_line::SerialLine;
use std::rt::Clock;
use std::sync::Wait;
use std::time::{Duration, Instant};

/// T1 in milliseconds (27.010, 5.7.1).
const T1: u64 = 100;

/// How many milliseconds it rests where there is nothing to do: the line rings no bell.
const REST: u64 = 1;

/// A tick, where T1 has passed since one was first wanted, or since the last.
fn tick<L: SerialLine, R: Wait + Clock + Drop>(
    rt: &R,
    session: &mut Session<L, R>,
    last: &mut Option<Instant>,
)
    ensures { session.new.driver ≡ session.old.driver }
{
    let passed = last.and_then(|last| last.elapsed(rt).ok());
    let is_due = passed.is_some_and(|passed| passed >= Duration::from_millis(T1));
    if is_due && session.wants_tick() {
        let _ = session.tick();
    }
    if is_due || !session.wants_tick() {
        *last = Instant::now(rt).ok();
    }
}

/// Polls a session until it has ended, or the bell is over.
pub fn drive<L: SerialLine + Drop, R: Wait + Clock + Drop>(
    rt: &R,
    bell: &Bell,
    mut session: Session<L, R>,
) -> Session<L, R>
    ensures { result.driver.desk ≡ session.driver.desk }
{
    let mut last = Instant::now(rt).ok();
    for _ in rt.forever() {
        match session.advance() {
            Progress::Ended(_) => break,
            Progress::More => {}
            Progress::Idle if bell.is_over() => break,
            Progress::Idle => bell.wait(rt, Duration::from_millis(REST)),
        }
        tick(rt, &mut session, &mut last);
    }
    session
}
