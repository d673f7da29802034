//! How a drive ends: everyone is told, and the desk is settled.
ghost use Rattle.std.specs.Prelude.{◌≡◌, [], ◌∷◌, IfOk, IsOk, OnOk, map, vec_items};
ghost use Rattle.modem_desk.specs.Books.{DeskBooks};
ghost use Rattle.modem_desk.specs.Ends.{AreSubscribed, IsWhole, place_of, subscription_of};
ghost use Rattle.modem_driver.specs.TurningAway.{offline_from};
ghost use Rattle.ctl_drive.specs.Ending.{AllHeard, EndsDrive, NoneWaits, TurnsLeft, TurnsSome, all_heard};
ghost use Rattle.ctl_drive.specs.Showing.{GoOn};

use crate::driving::show;
use crate::fault::{DriveFault, GiveUp};
use crate::plan::Plan;
use crate::users::Users;
use modem_desk::{DriverEnd, Outcome, Request, Settled, Urc, settle};
use modem_driver::{Finished, Offline, Session, Turn};
use results::beside;
use serial_line::SerialLine;
use std::alloc::Global;
use std::io::{Read, Write};
use std::rt::Clock;
use std::sync::Wait;

/// How many passes a desk without a line makes at most: more than it needs for all that may wait.
const PASSES: u32 = 100_000;

/// Tells everyone who isn't told yet LineLost, and prints it, until no line of the input is under way.
#[tactic(auto, using(crate::proofs::Ends::turns_none, crate::proofs::Ends::turns_more, crate::proofs::Ends::rests_idle, crate::proofs::Lines::stays, crate::proofs::Lines::goes_then))]
fn turn_away<R: Wait + Clock, I: Read, W: Write>(
    rt: &R,
    alloc: Global,
    offline: &mut Offline,
    driver: &mut DriverEnd,
    users: &mut Users,
    plan: &mut Plan<I>,
    output: &mut W,
) -> Result<(), DriveFault>
    ensures turns { OnOk result (TurnsSome offline.old offline.new driver.old driver.new) }
    ensures goes { OnOk result (GoOn (W.contents output.old) (W.contents output.new) users.old users.new) }
    ensures none { OnOk result (users.new.under_way.items ≡ []) }
    ensures placed { OnOk result (NoneWaits offline.new) }
    ensures same { plan.new ≡ plan.old }
    ensures submits_none { OnOk result (users.new.caller.submitted ≡ users.old.caller.submitted) }
{
    for _ in 0..PASSES {
        let said = offline.turn_away(rt, driver);
        let shown = show(rt, alloc, users, plan, output)?;
        if said == Turn::Idle && !shown.any && users.under_way.is_empty() {
            return Ok(());
        }
    }
    Err(DriveFault::GaveUp(GiveUp::Desk))
}

/// What a session left to be told.
#[derive(Drop)]
struct Left {
    in_hand: Vec<Request>,
    unplaced: Vec<Outcome>,
    unannounced: Vec<Urc>,
}

/// The desk in the place of a session that left these.
fn make_offline(alloc: Global, left: Left) -> Result<Offline, DriveFault>
    ensures { IfOk result (λ o. o ≡ offline_from left.in_hand.items left.unplaced.items left.unannounced.items) }
{
    let Left {
        in_hand,
        unplaced,
        unannounced,
    } = left;
    match Offline::new(alloc, in_hand, unplaced, unannounced) {
        Ok(offline) => Ok(offline),
        Err(_) => Err(DriveFault::NoMemory),
    }
}

/// Has the desk in the place of a session that left these tell everyone, until no line of the input is under way.
#[tactic(auto, using(crate::proofs::Ends::turns_left))]
fn turn_left_away<R: Wait + Clock, I: Read, W: Write>(
    rt: &R,
    alloc: Global,
    left: Left,
    driver: &mut DriverEnd,
    users: &mut Users,
    plan: &mut Plan<I>,
    output: &mut W,
) -> Result<(), DriveFault>
    ensures turns { OnOk result (TurnsLeft (offline_from left.in_hand.items left.unplaced.items left.unannounced.items) driver.old driver.new) }
    ensures goes { OnOk result (GoOn (W.contents output.old) (W.contents output.new) users.old users.new) }
    ensures none { OnOk result (users.new.under_way.items ≡ []) }
    ensures same { plan.new ≡ plan.old }
    ensures submits_none { OnOk result (users.new.caller.submitted ≡ users.old.caller.submitted) }
{
    let mut offline = make_offline(alloc, left)?;
    turn_away(rt, alloc, &mut offline, driver, users, plan, output)
}

/// Settles the desk with all who used it.
fn settle_all<R: Wait>(
    rt: &R,
    alloc: Global,
    driver: DriverEnd,
    users: Users,
) -> Result<Settled, DriveFault>
    requires whole { IsWhole driver.desk (map place_of (users.caller ∷ [])) }
    requires subscribed { AreSubscribed driver.desk (map subscription_of users.listeners.items) }
    ensures { IfOk result (λ s. DeskBooks driver (users.caller ∷ []) users.listeners.items s.left.items
        (map vec_items s.untaken.items) (map vec_items s.unheard.items)) }
{
    let (callers, (driver, users)) = beside(Vec::with_capacity(alloc, 1), (driver, users))?;
    let mut callers = callers;
    let Users {
        caller,
        listeners,
        ..
    } = users;
    callers.push_reserved(caller);
    match settle(rt, alloc, driver, callers, listeners) {
        Ok(settled) => Ok(settled),
        Err(_) => Err(DriveFault::NoMemory),
    }
}

/// Whether every listener has taken all its lines.
fn is_all_heard(settled: &Settled) -> bool
    ensures { result ≡ all_heard settled.now }
{
    settled.unheard.iter().all(|lines| lines.is_empty())
}

/// What a desk held in the end, unless a listener has lines left. Refused then with GaveUp.
fn unless_unheard(settled: Settled) -> Result<Settled, DriveFault>
    ensures { IfOk result (λ s. (s ≡ settled) × AllHeard s) }
{
    if is_all_heard(&settled) {
        Ok(settled)
    } else {
        Err(DriveFault::GaveUp(GiveUp::Desk))
    }
}

/// Settles the desk with all who used it, unless everyone couldn't be told, or a listener has lines left.
fn settle_turned<R: Wait>(
    rt: &R,
    alloc: Global,
    turned: Result<(), DriveFault>,
    driver: DriverEnd,
    users: Users,
) -> Result<Settled, DriveFault>
    requires whole { OnOk turned (IsWhole driver.desk (map place_of (users.caller ∷ []))) }
    requires subscribed { OnOk turned (AreSubscribed driver.desk (map subscription_of users.listeners.items)) }
    ensures turned { OnOk result (IsOk turned) }
    ensures books { IfOk result (λ s. DeskBooks driver (users.caller ∷ []) users.listeners.items s.left.items
        (map vec_items s.untaken.items) (map vec_items s.unheard.items)) }
    ensures heard { IfOk result AllHeard }
{
    let (_, (driver, users)) = beside(turned, (driver, users))?;
    let settled = settle_all(rt, alloc, driver, users)?;
    unless_unheard(settled)
}

/// Ends a session: tells every request that waits, prints all that comes, and settles the desk. It gives the line, and what the desk
/// still held.
pub fn end_drive<L: SerialLine + Drop, R: Wait + Clock + Drop, I: Read, W: Write>(
    rt: &R,
    alloc: Global,
    session: Session<L, R>,
    users: Users,
    plan: &mut Plan<I>,
    output: &mut W,
) -> Result<(L, Settled), DriveFault>
    requires whole { IsWhole session.driver.desk (map place_of (users.caller ∷ [])) }
    requires subscribed { AreSubscribed session.driver.desk (map subscription_of users.listeners.items) }
    ensures ends { IfOk result (λ r. EndsDrive L.seen
        session users (W.contents output.old) (W.contents output.new) r.1) }
    ensures line { IfOk result (λ r. r.0 ≡ session.line) }
    ensures same { plan.new ≡ plan.old }
{
    let Finished {
        line,
        driver,
        in_hand,
        unplaced,
        unannounced,
    } = session.finish();
    let left = Left {
        in_hand,
        unplaced,
        unannounced,
    };
    let mut driver = driver;
    let mut users = users;
    let turned = turn_left_away(rt, alloc, left, &mut driver, &mut users, plan, output);
    let settled = settle_turned(rt, alloc, turned, driver, users);
    let (settled, line) = beside(settled, line)?;
    Ok((line, settled))
}
