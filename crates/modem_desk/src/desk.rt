//! How a desk is opened.
ghost use Rattle.std.specs.Prelude.{◌≡◌, ◌↔◌, ◌+◌, ◌≤◌, ◌<◌, ◌^◌, [], ◌∷◌, ◌++◌, length, map, replicate, IfOk, IfErr, IsTrue, Contains};
ghost use Rattle.modem_desk.specs.Ends.{Opened, AreNewCallers, AreNewListeners, EachOnce, CanOpen};
ghost use Rattle.modem_desk.specs.declared.error.DeskError.TheVariants.{BadCount};

use crate::caller::{Caller, QUEUED, Queue};
use crate::driver::DriverEnd;
use crate::error::DeskError;
use crate::listener::Listener;
use at_text::UrcKind;
use bell::Bell;
use std::alloc::{AllocError, Global};
use std::sync::Arc;

// How many callers a desk may have.
pub(crate) const CALLERS: u8 = 8;

/// Where callers, listeners and the driver meet. A desk is open as long as its ends are.
///
/// - `open` gives its ends: callers, listeners and the driver's. Each may go to a thread of its own.
/// - A `Caller` submits requests, and takes one outcome for each. At 16 outcomes untaken it is refused until it takes one.
/// - A `Listener` takes the lines of its kind.
/// - The `DriverEnd` goes into a session (`modem_driver::Session`), or is used by a driver of your own: `next`, `tell`, `announce`.
/// - `settle` takes the driver's end, all callers and the listeners, and gives what was still queued and what they didn't take.
pub struct Desk;

impl Desk {
    /// Opens a desk for so many callers, with a listener for each of these kinds, in their order. Each caller's first request has
    /// the number 1.
    ///
    /// Refused with 2 BadCount where callers aren't 1 to 8, or a kind is given twice; else only with 1 NoMemory.
    pub fn open(
        alloc: Global,
        callers: u8,
        kinds: &[UrcKind],
    ) -> Result<(DriverEnd, Vec<Caller>, Vec<Listener>), DeskError>
        ensures allowed { IfOk result (λ r. CanOpen callers kinds.now 1) }
        ensures bad_count { IfErr result (λ e. (e ≡ BadCount) ↔ ¬ CanOpen callers kinds.now 1) }
        ensures opened { IfOk result (λ r. Opened callers kinds.now 1 r.0 r.1.items r.2.items) }
    {
        Desk::open_from(alloc, callers, kinds, 1)
    }

    /// Opens a desk as `open` does, where each caller's first request has the number `first`.
    ///
    /// Refused as `open` is, and with 2 BadCount for a `first` of 0.
    pub fn open_from(
        alloc: Global,
        callers: u8,
        kinds: &[UrcKind],
        first: u64,
    ) -> Result<(DriverEnd, Vec<Caller>, Vec<Listener>), DeskError>
        ensures allowed { IfOk result (λ r. CanOpen callers kinds.now first) }
        ensures bad_count { IfErr result (λ e. (e ≡ BadCount) ↔ ¬ CanOpen callers kinds.now first) }
        ensures opened { IfOk result (λ r. Opened callers kinds.now first r.0 r.1.items r.2.items) }
    {
        open_all(alloc, callers, kinds, first, None)
    }

    /// Opens a desk as `open_from` does, and gives each caller and listener a share of this bell. They ring it when they have submitted a
    /// request, or taken an outcome or a line. So a driver that waits on the bell wakes when a request came, or when there is room at the
    /// desk again.
    ///
    /// Refused as `open_from` is. No clause speaks of the bell.
    pub fn open_with_bell(
        alloc: Global,
        callers: u8,
        kinds: &[UrcKind],
        first: u64,
        bell: &Bell,
    ) -> Result<(DriverEnd, Vec<Caller>, Vec<Listener>), DeskError>
        ensures allowed { IfOk result (λ r. CanOpen callers kinds.now first) }
        ensures bad_count { IfErr result (λ e. (e ≡ BadCount) ↔ ¬ CanOpen callers kinds.now first) }
        ensures opened { IfOk result (λ r. Opened callers kinds.now first r.0 r.1.items r.2.items) }
    {
        open_all(alloc, callers, kinds, first, Some(bell))
    }
}

// A desk, whose callers and listeners ring this bell.
fn open_all(
    alloc: Global,
    callers: u8,
    kinds: &[UrcKind],
    first: u64,
    bell: Option<&Bell>,
) -> Result<(DriverEnd, Vec<Caller>, Vec<Listener>), DeskError>
    ensures allowed { IfOk result (λ r. CanOpen callers kinds.now first) }
    ensures bad_count { IfErr result (λ e. (e ≡ BadCount) ↔ ¬ CanOpen callers kinds.now first) }
    ensures opened { IfOk result (λ r. Opened callers kinds.now first r.0 r.1.items r.2.items) }
{
    if callers == 0 || callers > CALLERS || first == 0 || !are_each_once(kinds) {
        return Err(DeskError::BadCount);
    }
    let mut driver = unconnected(alloc)?;
    let all = add_callers(alloc, &mut driver, callers, first, bell)?;
    let listeners = add_listeners(alloc, &mut driver, kinds, bell)?;
    Ok((driver, all, listeners))
}

// Whether no kind stands there twice.
fn are_each_once(kinds: &[UrcKind]) -> bool
    ensures { IsTrue result ↔ EachOnce kinds.now }
{
    match kinds {
        [] => true,
        [first, rest @ ..] => !rest.contains(first) && are_each_once(rest),
    }
}

// The driver's end of a desk without callers and listeners.
fn unconnected(alloc: Global) -> Result<DriverEnd, AllocError>
    ensures { IfOk result (λ d. (d.desk.rings ≡ []) × (d.desk.kinds ≡ []) × (d.desk.line_rings ≡ [])
        × (d.taken ≡ []) × (d.told ≡ []) × (d.announced ≡ []) × (d.free ≡ []) × (d.free_lines ≡ [])
        × (d.found_none ≡ 0) × (d.told_back ≡ []) × (d.announced_back ≡ [])) }
{
    let (queue, pass) = Queue::ruled(alloc, QUEUED)?;
    let queue = Arc::new(alloc, queue)?;
    Ok(DriverEnd::new(
        queue,
        pass,
        Vec::new(alloc),
        Vec::new(alloc),
        Vec::new(alloc),
        (Vec::new(alloc), Vec::new(alloc)),
    ))
}

// So many callers more, at a desk that has none.
fn add_callers(
    alloc: Global,
    driver: &mut DriverEnd,
    callers: u8,
    first: u64,
    bell: Option<&Bell>,
) -> Result<Vec<Caller>, AllocError>
    requires { (callers ≤ 8) × (1 ≤ first) × (driver.old.desk.rings ≡ []) × (driver.old.told ≡ [])
        × (driver.old.free ≡ []) × (driver.old.told_back ≡ []) }
    ensures same { IfOk result (λ all. driver.new ≡ record driver.old {
      desk = record driver.old.desk { rings = driver.new.desk.rings };
      told = replicate callers [];
      free = replicate callers 8;
      told_back = replicate callers 0;
    }) }
    ensures callers { IfOk result (λ all. (length driver.new.desk.rings ≡ callers)
        × (length all.items ≡ callers) × AreNewCallers driver.new.desk first all.items) }
{
    let mut all = Vec::new(alloc);
    for _ in 0..callers {
        let caller = driver.add_caller(alloc, first, bell)?;
        all.push(caller)?;
    }
    Ok(all)
}

// A listener for each of these kinds, at a desk that has none.
fn add_listeners(
    alloc: Global,
    driver: &mut DriverEnd,
    kinds: &[UrcKind],
    bell: Option<&Bell>,
) -> Result<Vec<Listener>, AllocError>
    requires { EachOnce kinds.now × (driver.old.desk.kinds ≡ []) × (driver.old.desk.line_rings ≡ [])
        × (driver.old.announced ≡ []) × (driver.old.free_lines ≡ []) × (driver.old.announced_back ≡ []) }
    ensures same { IfOk result (λ all. driver.new ≡ record driver.old {
      desk = record driver.old.desk { kinds = kinds.now; line_rings = driver.new.desk.line_rings };
      announced = replicate (length kinds.now) [];
      free_lines = replicate (length kinds.now) 256;
      announced_back = replicate (length kinds.now) 0;
    }) }
    ensures listeners { IfOk result (λ all. (length all.items ≡ length kinds.now)
        × AreNewListeners driver.new.desk all.items) }
{
    let mut all = Vec::new(alloc);
    for kind in kinds {
        let listener = driver.add_listener(alloc, *kind, bell)?;
        all.push(listener)?;
    }
    Ok(all)
}
