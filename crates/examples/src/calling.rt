//! Two callers and a listener, each in a thread of its own.
ghost use Rattle.std.specs.Prelude.{◌≡◌};

use modem_desk::{Answer, Ask, Caller, Listener, Urc};
use mux_frame::Dlci;
use std::rt::Clock;
use std::sync::Wait;
use std::thread;
use std::thread::Threads;
use std::time::Duration;

/// How often it is looked whether something came, a millisecond apart.
const LOOKS: u32 = 60_000;

/// What each caller was told, and what the listener heard.
#[derive(Drop)]
pub struct Came {
    pub first: Option<Answer>,
    pub second: Option<Answer>,
    pub line: Option<Urc>,
}

/// Submits a request, and waits for its answer.
pub fn ask<R: Wait + Clock>(rt: &R, mut caller: Caller, ask: Ask) -> (Caller, Option<Answer>)
    ensures { result.0.place ≡ caller.place }
{
    let _ = caller.submit(rt, ask);
    for _ in 0..LOOKS {
        if let Some(outcome) = caller.take() {
            return (caller, Some(outcome.answer));
        }
        thread::sleep(rt, Duration::from_millis(1));
    }
    (caller, None)
}

/// Waits for a line.
pub fn hear<R: Clock>(rt: &R, mut listener: Listener) -> Option<Urc> {
    for _ in 0..LOOKS {
        if let Some(line) = listener.take() {
            return Some(line);
        }
        thread::sleep(rt, Duration::from_millis(1));
    }
    None
}
