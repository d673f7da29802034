//! A desk by itself: it is opened, filled and settled.
ghost use Rattle.std.specs.Prelude.{◌≡◌, IfErr, IfOk, map};
ghost use Rattle.modem_desk.specs.Ends.{place_of, subscription_of, IsWhole, AreSubscribed};

use crate::lines::Host;
use crate::printing::{mark, print_count};
use crate::setup::Setup;
use at_text::{Text, UrcKind};
use ctl_run::Stop;
use modem_desk::*;
use mux_frame::Dlci;
use std::alloc::Global;

/// More than any ring of a desk has room for.
const MANY: u32 = 1_000;

/// So many requests the driver takes.
const TAKEN: u32 = 16;

/// A desk's ends.
type Opened = (DriverEnd, Vec<Caller>, Vec<Listener>);

pub fn open_once(setup: &Setup) -> Result<Opened, Stop>
    ensures callers { IfOk result (λ ends. IsWhole ends.0.desk (map place_of ends.1.items)) }
    ensures listeners { IfOk result (λ ends. AreSubscribed ends.0.desk (map subscription_of ends.2.items)) }
{
    match Desk::open(setup.alloc, setup.callers, setup.kinds.as_slice()) {
        Ok(ends) => Ok(ends),
        Err(DeskError::BadCount) => Err(Stop::BadCallers),
        Err(DeskError::NoMemory) => Err(Stop::NoMemory),
    }
}

/// Opens a desk, by a second call where the first was refused.
fn open<R: Host>(rt: &R, setup: &Setup) -> Result<Opened, Stop>
    ensures callers { IfOk result (λ ends. IsWhole ends.0.desk (map place_of ends.1.items)) }
    ensures listeners { IfOk result (λ ends. AreSubscribed ends.0.desk (map subscription_of ends.2.items)) }
{
    mark(rt, true, "> Desk::open");
    match open_once(setup) {
        Ok(ends) => {
            mark(rt, true, "<");
            Ok(ends)
        }
        Err(_) => {
            let again = open_once(setup);
            mark(rt, true, "<");
            again
        }
    }
}

/// The caller submits until it is refused.
fn submit_to_full<R: Host>(rt: &R, caller: &mut Caller)
    ensures { caller.new.place ≡ caller.old.place }
{
    for _ in 0..MANY {
        if caller.submit(rt, Ask::Stop).is_err() {
            return;
        }
    }
}

/// The caller at this place does.
fn submit_at<R: Host>(rt: &R, callers: &mut Vec<Caller>, place: usize)
    ensures { map place_of callers.new.items ≡ map place_of callers.old.items }
{
    if place >= callers.len() {
        return;
    }
    let caller = &mut callers[place];
    submit_to_full(rt, caller);
}

/// Each caller does.
fn submit_all<R: Host>(rt: &R, callers: &mut Vec<Caller>)
    ensures { map place_of callers.new.items ≡ map place_of callers.old.items }
{
    for place in 0..callers.len() {
        submit_at(rt, callers, place);
    }
}

/// The driver takes some requests.
fn take_some<R: Host>(rt: &R, driver: &mut DriverEnd)
    ensures { driver.new.desk ≡ driver.old.desk }
{
    for _ in 0..TAKEN {
        let _ = driver.next(rt);
    }
}

/// A caller is told outcomes until one comes back.
fn tell_to_full(driver: &mut DriverEnd, caller: u8)
    ensures { driver.new.desk ≡ driver.old.desk }
{
    for number in 1..u64::from(MANY) {
        if caller >= driver.callers() {
            return;
        }
        let outcome = Outcome {
            caller,
            number,
            answer: Answer::Stopped,
        };
        if driver.tell(outcome).is_err() {
            return;
        }
    }
}

/// Each caller is.
fn tell_all(driver: &mut DriverEnd)
    ensures { driver.new.desk ≡ driver.old.desk }
{
    for caller in 0..driver.callers() {
        tell_to_full(driver, caller);
    }
}

/// Lines of a kind are announced until one comes back.
fn announce_to_full(driver: &mut DriverEnd, alloc: Global, kind: UrcKind, dlci: Dlci)
    ensures { driver.new.desk ≡ driver.old.desk }
{
    for _ in 0..MANY {
        if !driver.listens(kind) {
            return;
        }
        let line = Text::from(Vec::new(alloc));
        if driver.announce(Urc { kind, dlci, line }).is_err() {
            return;
        }
    }
}

/// The same for each of these kinds.
fn announce_all(driver: &mut DriverEnd, alloc: Global, kinds: &[UrcKind], dlci: Dlci)
    ensures { driver.new.desk ≡ driver.old.desk }
{
    for kind in kinds {
        announce_to_full(driver, alloc, *kind, dlci);
    }
}

/// Fills queue and rings: each caller submits until it is refused, the driver takes 16 requests, tells each caller outcomes until
/// one comes back, and announces lines of each kind until one comes back.
fn fill<R: Host>(rt: &R, setup: &Setup, driver: &mut DriverEnd, callers: &mut Vec<Caller>)
    ensures desk { driver.new.desk ≡ driver.old.desk }
    ensures places { map place_of callers.new.items ≡ map place_of callers.old.items }
{
    submit_all(rt, callers);
    take_some(rt, driver);
    tell_all(driver);
    announce_all(
        driver,
        setup.alloc,
        setup.kinds.as_slice(),
        Dlci::new(1).unwrap(),
    );
}

/// Ends a desk. Where memory is refused, its ends come back.
fn settle_once<R: Host>(rt: &R, alloc: Global, ends: Opened) -> Result<Settled, Opened>
    requires callers { IsWhole ends.0.desk (map place_of ends.1.items) }
    requires listeners { AreSubscribed ends.0.desk (map subscription_of ends.2.items) }
    ensures callers { IfErr result (λ ends. IsWhole ends.0.desk (map place_of ends.1.items)) }
    ensures listeners { IfErr result (λ ends. AreSubscribed ends.0.desk (map subscription_of ends.2.items)) }
{
    let (driver, callers, listeners) = ends;
    match settle(rt, alloc, driver, callers, listeners) {
        Ok(settled) => Ok(settled),
        Err(refused) => Err((refused.driver, refused.callers, refused.listeners)),
    }
}

/// Ends a desk, by a second call where memory was refused.
fn settle_all<R: Host>(rt: &R, alloc: Global, ends: Opened) -> Result<Settled, Stop>
    requires callers { IsWhole ends.0.desk (map place_of ends.1.items) }
    requires listeners { AreSubscribed ends.0.desk (map subscription_of ends.2.items) }
{
    mark(rt, true, "> settle");
    let settled = match settle_once(rt, alloc, ends) {
        Ok(settled) => Ok(settled),
        Err(ends) => settle_once(rt, alloc, ends),
    };
    mark(rt, true, "<");
    match settled {
        Ok(settled) => Ok(settled),
        Err(_) => Err(Stop::NoMemory),
    }
}

/// How many requests are left, and how many outcomes and lines each ring had.
fn print_settled<R: Host>(rt: &R, settled: &Settled) {
    print_count(rt, settled.left.len(), "left");
    for outcomes in &settled.untaken {
        print_count(rt, outcomes.len(), "untaken");
    }
    for lines in &settled.unheard {
        print_count(rt, lines.len(), "unheard");
    }
}

/// Opens a desk with the callers and the kinds of the setup, fills it, and settles it.
pub fn play<R: Host>(rt: &R, setup: &Setup) -> Result<(), Stop> {
    let (mut driver, mut callers, listeners) = open(rt, setup)?;
    fill(rt, setup, &mut driver, &mut callers);
    let settled = settle_all(rt, setup.alloc, (driver, callers, listeners))?;
    print_settled(rt, &settled);
    Ok(())
}
