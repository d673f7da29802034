//! What callers ask at a desk and take there.
ghost use Rattle.std.specs.Prelude.{◌≡◌, map};
ghost use Rattle.modem_desk.specs.Ends.{place_of};

use modem_desk::*;
use std::process::Abort;
use std::sync::Wait;

// An ask of the caller at this place, which is taken.
pub fn submit_to<R: Wait + Abort>(rt: &R, callers: &mut Vec<Caller>, place: usize, ask: Ask)
    ensures { map place_of callers.new.items ≡ map place_of callers.old.items }
{
    assert!(rt; place < callers.len());
    let caller = &mut callers[place];
    assert!(rt; caller.submit(rt, ask).is_ok());
}

// The outcome that the caller at this place takes.
pub fn taken_by<R: Abort>(rt: &R, callers: &mut Vec<Caller>, place: usize) -> Option<Outcome>
    ensures { map place_of callers.new.items ≡ map place_of callers.old.items }
{
    assert!(rt; place < callers.len());
    let caller = &mut callers[place];
    caller.take()
}
