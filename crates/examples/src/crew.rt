//! Two callers and a listener, and what they do beside one another.
ghost use Rattle.std.specs.Prelude.{◌≡◌};

use crate::calling::{Came, ask, hear};
use bell::Bell;
use modem_desk::{Ask, Caller, Listener};
use mux_frame::Dlci;
use std::rt::Clock;
use std::sync::Wait;
use std::thread;
use std::thread::Threads;

/// Two callers, what each asks, and a listener.
#[derive(Drop)]
pub struct Crew {
    pub callers: (Caller, Caller),
    pub asks: (Ask, Ask),
    pub listener: Listener,
}

/// The first caller opens connections 0 and 1. Both ask there, while a line is waited for. The first ends the multiplexer, and then
/// the bell is over.
pub fn call<R: Threads + Wait + Clock + Sync>(
    rt: &R,
    bell: &Bell,
    crew: Crew,
) -> ((Caller, Caller), Came)
    ensures { (result.0.0.place ≡ crew.callers.0.place) × (result.0.1.place ≡ crew.callers.1.place) }
{
    let Crew {
        callers: (first, second),
        asks: (one, two),
        listener,
    } = crew;
    let (first, _opened) = ask(rt, first, Ask::OpenChannel(Dlci::CONTROL));
    let (first, _opened) = ask(rt, first, Ask::OpenChannel(Dlci::new(1).unwrap()));
    let ((caller, first), ((other, second), line)) = thread::join(
        rt,
        move || ask(rt, first, one),
        move || thread::join(rt, move || ask(rt, second, two), move || hear(rt, listener)),
    );
    let (caller, _stopped) = ask(rt, caller, Ask::Stop);
    bell.end();
    let came = Came {
        first,
        second,
        line,
    };
    ((caller, other), came)
}
