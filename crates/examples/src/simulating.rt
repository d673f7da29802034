//! A modem of one's own in a thread of its own, beside those who use it.
ghost use Rattle.std.specs.Prelude.{◌≡◌};

use crate::calling::Came;
use crate::crew::{Crew, call};
use crate::holding::lend;
use bell::Bell;
use modem_desk::Caller;
use modem_sim::{Sim, SimTurn};
use serial_line::SerialLine;
use std::rt::Clock;
use std::sync::Wait;
use std::thread::{self, Threads};
use std::time::Duration;

/// Has a modem go on until it has ended, or the bell is over.
fn simulate<L: SerialLine, R: Clock>(rt: &R, bell: &Bell, modem: &mut Sim<L>) {
    for _ in 0..u64::MAX {
        match modem.turn() {
            Ok(SimTurn::Moved) => {}
            Ok(SimTurn::Idle) if !bell.is_over() => thread::sleep(rt, Duration::from_millis(1)),
            _ => return,
        }
    }
}

/// The crew works beside the modem.
pub fn use_modem<L: SerialLine + Drop + Send, R: Threads + Wait + Clock + Sync>(
    rt: &R,
    bell: &Bell,
    modem: Sim<L>,
    crew: Crew,
) -> ((Caller, Caller), Came)
    ensures { (result.0.0.place ≡ crew.callers.0.place) × (result.0.1.place ≡ crew.callers.1.place) }
{
    let ((), called) = thread::join(
        rt,
        move || lend(modem, |modem| simulate(rt, bell, modem)),
        move || call(rt, bell, crew),
    );
    called
}
