//! A caller asks, the driver's end tells it what came of that, and it takes the outcome.
use crate::Stop;
use modem_desk::{Answer, Ask, Caller, Desk, DriverEnd, Outcome};
use std::alloc::Global;
use std::io::Print;
use std::sync::Wait;

/// What a driver does with a request; here each is refused.
fn answer<R: Wait>(rt: &R, driver: &mut DriverEnd) -> Result<(), Stop> {
    let Some(request) = driver.next(rt) else {
        return Err(Stop::Unexpected);
    };
    let outcome = Outcome {
        caller: request.caller,
        number: request.number,
        answer: Answer::NotOpen,
    };
    match driver.tell(outcome) {
        Ok(()) => Ok(()),
        Err(_outcome) => Err(Stop::Unexpected),
    }
}

/// What a caller does, in a thread of its own.
fn ask<R: Wait>(rt: &R, caller: &mut Caller) -> Result<u64, Stop> {
    match caller.submit(rt, Ask::Stop) {
        Ok(number) => Ok(number),
        Err((_why, _ask)) => Err(Stop::Unexpected),
    }
}

/// The first caller asks and is told.
fn go_round<R: Wait + Print>(
    rt: &R,
    driver: &mut DriverEnd,
    callers: &mut [Caller],
) -> Result<(), Stop> {
    let Some(caller) = callers.first_mut() else {
        return Err(Stop::Unexpected);
    };
    let number = ask(rt, caller)?;
    answer(rt, driver)?;
    if let Some(outcome) = caller.take() {
        let _ = rt.println(format_args!("{number}: {:?}", outcome.answer));
    }
    Ok(())
}

/// A desk with one caller and no listeners.
pub fn run<R: Wait + Print>(rt: &R, alloc: Global) -> Result<(), Stop> {
    match Desk::open(alloc, 1, &[]) {
        Ok((mut driver, mut callers, _listeners)) => go_round(rt, &mut driver, &mut callers),
        Err(_) => Err(Stop::NoMemory),
    }
}
