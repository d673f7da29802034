//! Ends a session, and settles its desk.
ghost use Rattle.std.specs.Prelude.{[], ◌∷◌, map};
ghost use Rattle.modem_desk.specs.Ends.{IsWhole, place_of};

use crate::Stop;
use modem_desk::{Caller, Settled, settle};
use modem_driver::{Finished, Session};
use serial_line::SerialLine;
use std::alloc::Global;
use std::sync::Wait;

fn expect_none_left(settled: &Settled) -> Result<(), Stop> {
    if settled.left.is_empty() {
        return Ok(());
    }
    Err(Stop::Unexpected)
}

/// Ends a session, and settles its desk with both its callers: no request was left.
pub fn end<L: SerialLine + Drop, R: Wait + Drop>(
    rt: &R,
    alloc: Global,
    session: Session<L, R>,
    callers: (Caller, Caller),
) -> Result<(), Stop>
    requires { IsWhole session.driver.desk (map place_of (callers.0 ∷ callers.1 ∷ [])) }
{
    let Finished { driver, .. } = session.finish();
    let callers = Vec::from_array(alloc, [callers.0, callers.1])?;
    match settle(rt, alloc, driver, callers, Vec::new(alloc)) {
        Ok(settled) => expect_none_left(&settled),
        Err(_) => Err(Stop::NoMemory),
    }
}
