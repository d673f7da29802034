//! The loop of a drive: it asks, polls the session, prints what came, and waits.
ghost use Rattle.std.specs.Prelude.{◌≡◌, ◌<◌, true, false, IfOk, OnErr, OnOk, Option, None, Some};
ghost use Rattle.std.specs.Duration.{as_nanos};
ghost use Rattle.ctl_drive.specs.Asking.{AsksOn, StopsOn};
ghost use Rattle.ctl_drive.specs.Driving.{DrivesOn, IsDue, IsNotDue, TicksOnce};
ghost use Rattle.ctl_drive.specs.Ending.{HasEndedBy, IsToldFault, KeepsGiven, SaysBy};
ghost use Rattle.ctl_drive.specs.declared.driving.Went.TheVariants as went;
ghost use Rattle.ctl_drive.specs.declared.fault.DriveFault.{DriveFault};
ghost use Rattle.ctl_drive.specs.Showing.{GoOn, KnowNone};
ghost use Rattle.ctl_drive.specs.Turns.{MayRest};
ghost use Rattle.modem_driver.specs.declared.session.polling.Progress.TheVariants.{Idle};

use crate::fault::{DriveFault, GiveUp};
use crate::plan::Plan;
use crate::showing::Told;
use crate::users::Users;
use bell::Bell;
use modem_driver::{Ended, Progress, Session, SessionFault};
use serial_line::SerialLine;
use std::alloc::Global;
use std::io::{Read, Write};
use std::rt::Clock;
use std::sync::Wait;
use std::time::{Duration, Instant};

/// The longest wait: after it all is looked at again without any ring.
const LOOK_SECONDS: u64 = 1;

/// When ticks are due: none where the session wants none.
#[derive(Drop)]
pub struct Ticks {
    period: Duration,
    last: Option<Instant>,
}

impl Ticks {
    /// A tick each `period`, or each millisecond where that is no time at all.
    pub fn new(period: Duration) -> Ticks
        ensures given { 0 < as_nanos period → result ≡ record { period = period; last = None } }
        ensures none { as_nanos period ≡ 0 → as_nanos result.period ≡ 1000000 }
        ensures some { 0 < as_nanos result.period }
        ensures unbegun { result.last ≡ None }
    {
        let period = if period.is_zero() {
            Duration::from_millis(1)
        } else {
            period
        };
        Ticks { period, last: None }
    }

    /// Whether one is due now. The first is due a period after they were first wanted.
    fn are_due<K: Clock>(&mut self, clock: &K, wanted: bool) -> bool
        requires { 0 < as_nanos self.old.period }
        ensures period { self.new.period ≡ self.old.period }
        ensures wanted { result ≡ true → wanted ≡ true }
        ensures due { result ≡ true → IsDue (as_nanos self.old.period) self.old.last self.new.last }
        ensures not_due { result ≡ false → IsNotDue self.old.last self.new.last }
    {
        if !wanted {
            self.last = None;
            return false;
        }
        let Ok(now) = Instant::now(clock) else {
            return false;
        };
        let Some(last) = self.last else {
            self.last = Some(now);
            return false;
        };
        let left = self
            .period
            .saturating_sub(now.saturating_duration_since(last));
        if !left.is_zero() {
            return false;
        }
        self.last = Some(now);
        true
    }

    /// How long it is to the next.
    fn time_left<K: Clock>(&self, clock: &K, wanted: bool, most: Duration) -> Duration {
        if !wanted {
            return most;
        }
        let passed = self.last.and_then(|last| last.elapsed(clock).ok());
        match passed {
            Some(passed) => most.min(self.period.saturating_sub(passed)),
            None => most.min(self.period),
        }
    }
}

/// A tick where one is due, unless it is refused, and none else.
#[tactic(auto, using(crate::proofs::Drives::ticked))]
fn tick_if<L: SerialLine, R: Wait + Drop>(session: &mut Session<L, R>, due: bool)
    ensures due { due ≡ true → TicksOnce L.seen session.old session.new }
    ensures none { due ≡ false → session.new ≡ session.old }
{
    if due {
        let _ = session.tick();
    }
}

/// A tick where one is due, and a poll.
fn poll<L: SerialLine, R: Wait + Drop, K: Clock>(
    clock: &K,
    session: &mut Session<L, R>,
    ticks: &mut Ticks,
) -> Progress
    requires { 0 < as_nanos ticks.old.period }
    ensures period { ticks.new.period ≡ ticks.old.period }
    ensures drives { DrivesOn L.seen (as_nanos ticks.old.period) session.old ticks.old.last session.new ticks.new.last }
    ensures ends { KeepsGiven result session.new.machine.course }
{
    let wanted = session.wants_tick();
    tick_if(session, ticks.are_due(clock, wanted));
    session.advance()
}

/// What was printed: whether anything came, and the fault by which the drive ends, if what was told says so.
#[derive(Clone, Copy)]
pub struct Shown {
    pub any: bool,
    pub fault: Option<DriveFault>,
}

/// Prints a line of each listener that heard one, and an outcome, if one came.
#[tactic(auto, using(crate::proofs::Lines::goes_then))]
pub fn show<I: Read, W: Write, K: Clock>(
    clock: &K,
    alloc: Global,
    users: &mut Users,
    plan: &mut Plan<I>,
    output: &mut W,
) -> Result<Shown, DriveFault>
    ensures goes { OnOk result (GoOn (W.contents output.old) (W.contents output.new) users.old users.new) }
    ensures same { plan.new ≡ plan.old }
    ensures submits_none { OnOk result (users.new.caller.submitted ≡ users.old.caller.submitted) }
    ensures none { IfOk result (λ shown. shown.any ≡ false → KnowNone users.old) }
    ensures why { IfOk result (λ shown. IsToldFault shown.fault) }
{
    let lines = users.show_lines(alloc, output)?;
    match users.show_outcome(clock, alloc, output)? {
        Some(Told::Asked(control, answer)) => Ok(Shown {
            any: true,
            fault: plan.judge(control, &answer),
        }),
        Some(Told::Line) => Ok(Shown {
            any: true,
            fault: None,
        }),
        None => Ok(Shown {
            any: lines,
            fault: None,
        }),
    }
}

/// What a round came to.
#[derive(Clone, Copy)]
enum Went {
    /// There may be more to do at once.
    More,
    /// There is nothing to do until something comes, or a time has passed.
    Rests,
    /// The multiplexer has ended, or the drive ends by this fault.
    Ends(Option<DriveFault>),
}

/// What a poll says of the round: `moved` says whether anything else was done.
fn judge<I: Read>(said: Progress, plan: &Plan<I>, moved: bool) -> Went
    ensures ends { (end : Option DriveFault) → result ≡ went.Ends end → SaysBy said plan.now end }
    ensures rests { result ≡ went.Rests → moved ≡ false }
    ensures idle { result ≡ went.Rests → said ≡ Idle }
{
    match said {
        Progress::Ended(Ok(Ended::Stopped)) if !plan.is_stopping() => Went::Ends(Some(
            DriveFault::GaveUp(GiveUp::Unasked),
        )),
        Progress::Ended(Ok(Ended::Stopped)) if plan.has_failed() => Went::Ends(Some(
            DriveFault::Input,
        )),
        Progress::Ended(Ok(Ended::Stopped)) => Went::Ends(None),
        Progress::Ended(Err(SessionFault::NoMemory)) => Went::Ends(Some(DriveFault::NoMemory)),
        Progress::Ended(Err(_)) => Went::Ends(Some(DriveFault::HungUp)),
        Progress::More => Went::More,
        Progress::Idle if moved => Went::More,
        Progress::Idle => Went::Rests,
    }
}

/// Prints what came, and asks what can be asked then, behind a poll that said this.
#[tactic(auto, using(crate::proofs::Lines::goes_then))]
fn answer<R: Wait + Clock, I: Read, W: Write, E: Write>(
    rt: &R,
    alloc: Global,
    said: Progress,
    users: &mut Users,
    plan: &mut Plan<I>,
    output: &mut W,
    faults: &mut E,
) -> Result<Went, DriveFault>
    ensures goes { OnOk result (GoOn (W.contents output.old) (W.contents output.new) users.old users.new) }
    ensures asks { OnOk result (AsksOn plan.old plan.new users.old.caller.submitted users.new.caller.submitted
        (E.contents faults.old) (E.contents faults.new)) }
    ensures stops { OnErr result (StopsOn plan.old users.old.caller.submitted (E.contents faults.old) (E.contents faults.new)) }
    ensures ends { IfOk result (λ w. (end : Option DriveFault) → w ≡ went.Ends end → SaysBy said plan.new end) }
    ensures rests { IfOk result (λ w. w ≡ went.Rests → MayRest plan.new users.new) }
    ensures none { IfOk result (λ w. w ≡ went.Rests → KnowNone users.old) }
{
    let shown = show(rt, alloc, users, plan, output)?;
    if let Some(fault) = shown.fault {
        return Ok(Went::Ends(Some(fault)));
    }
    if matches!(said, Progress::Ended(_)) {
        return Ok(judge(said, plan, shown.any));
    }
    let asked = plan.go_on(rt, alloc, users, faults)?;
    Ok(judge(said, plan, asked || shown.any))
}

/// One round: it polls the session, prints what came, and asks what can be asked then.
fn round<L: SerialLine, R: Wait + Clock + Drop, I: Read, W: Write, E: Write>(
    rt: &R,
    alloc: Global,
    session: &mut Session<L, R>,
    ticks: &mut Ticks,
    users: &mut Users,
    plan: &mut Plan<I>,
    output: &mut W,
    faults: &mut E,
) -> Result<Went, DriveFault>
    requires { 0 < as_nanos ticks.old.period }
    ensures period { ticks.new.period ≡ ticks.old.period }
    ensures drives { DrivesOn L.seen (as_nanos ticks.old.period) session.old ticks.old.last session.new ticks.new.last }
    ensures goes { OnOk result (GoOn (W.contents output.old) (W.contents output.new) users.old users.new) }
    ensures asks { OnOk result (AsksOn plan.old plan.new users.old.caller.submitted users.new.caller.submitted
        (E.contents faults.old) (E.contents faults.new)) }
    ensures stops { OnErr result (StopsOn plan.old users.old.caller.submitted (E.contents faults.old) (E.contents faults.new)) }
    ensures ends { IfOk result (λ w. (end : Option DriveFault) → w ≡ went.Ends end → HasEndedBy session.new.machine.course plan.new end) }
    ensures rests { IfOk result (λ w. w ≡ went.Rests → MayRest plan.new users.new) }
    ensures none { IfOk result (λ w. w ≡ went.Rests → KnowNone users.old) }
{
    let said = poll(rt, session, ticks);
    answer(rt, alloc, said, users, plan, output, faults)
}

/// Waits until the bell is rung, or there may be something to do.
fn rest<L: SerialLine, R: Wait + Clock + Drop>(
    rt: &R,
    bell: &Bell,
    session: &Session<L, R>,
    ticks: &Ticks,
    users: &Users,
) {
    let most = users.time_left(rt, Duration::from_secs(LOOK_SECONDS));
    bell.wait(rt, ticks.time_left(rt, session.wants_tick(), most));
}

/// Goes on until the multiplexer has ended, or the drive ends by a fault. It prints all that came by then, and gives the
/// fault, if there was one. A tick is made just where one is due by `ticks`. Refused with NoMemory, Output or GaveUp. Requires that the
/// period of `ticks` isn't 0.
#[tactic(auto, using(crate::proofs::Lines::stays, crate::proofs::Lines::goes_then))]
pub fn drive_on<L: SerialLine, R: Wait + Clock + Drop, I: Read, W: Write, E: Write>(
    rt: &R,
    alloc: Global,
    bell: &Bell,
    session: &mut Session<L, R>,
    ticks: &mut Ticks,
    users: &mut Users,
    plan: &mut Plan<I>,
    output: &mut W,
    faults: &mut E,
) -> Result<Option<DriveFault>, DriveFault>
    requires { 0 < as_nanos ticks.old.period }
    ensures period { ticks.new.period ≡ ticks.old.period }
    ensures drives { DrivesOn L.seen (as_nanos ticks.old.period) session.old ticks.old.last session.new ticks.new.last }
    ensures goes { OnOk result (GoOn (W.contents output.old) (W.contents output.new) users.old users.new) }
    ensures asks { OnOk result (AsksOn plan.old plan.new users.old.caller.submitted users.new.caller.submitted
        (E.contents faults.old) (E.contents faults.new)) }
    ensures stops { OnErr result (StopsOn plan.old users.old.caller.submitted (E.contents faults.old) (E.contents faults.new)) }
    ensures ends { IfOk result (HasEndedBy session.new.machine.course plan.new) }
{
    for _ in rt.forever() {
        match round(rt, alloc, session, ticks, users, plan, output, faults)? {
            Went::More => {}
            Went::Ends(end) => return Ok(end),
            Went::Rests => rest(rt, bell, session, ticks, users),
        }
    }
    unreachable!()
}
