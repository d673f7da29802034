//! A drive, from its line to its end.
ghost use Rattle.std.specs.Prelude.{◌≡◌, ◌<◌, [], ◌∷◌, ℕ, List, None, Option, IfOk, OnErr, OnOk, map};
ghost use Rattle.std.specs.Duration.{as_nanos};
ghost use Rattle.modem_desk.specs.Ends.{AreSubscribed, IsWhole, place_of, subscription_of};
ghost use Rattle.at_text.specs.Rules.{dialect_of};
ghost use Rattle.modem_driver.specs.SessionStates.{FitsAll, beginning_by};
ghost use Rattle.ctl_drive.specs.Asking.{NamesRead, StopsOn};
ghost use Rattle.ctl_drive.specs.Channels.{KeepsOrder};
ghost use Rattle.ctl_drive.specs.Driving.{period_of};
ghost use Rattle.ctl_drive.specs.Ending.{HasDriven};
ghost use Rattle.ctl_drive.specs.Entry.{entry_for, given_text};
ghost use Rattle.ctl_drive.specs.Running.{Begins, DrivesInput, Drove, DroveFrom, HasEntered, IsNewDesk, kinds_by, plan_begun};
ghost use Rattle.ctl_drive.specs.Showing.{HasShown};

use crate::channels::Channels;
use crate::driving::{Ticks, drive_on};
use crate::ending::end_drive;
use crate::fault::DriveFault;
use crate::input::Lines;
use crate::patience::TimeLimit;
use crate::plan::Plan;
use crate::settings::{Settings, entry_of, quiet_time};
use crate::users::Users;
use at_text::{Dialect, UrcKind};
use bell::Bell;
use modem_desk::{Desk, DriverEnd, Settled};
use modem_driver::{Session, enter_by};
use mux_frame::Dlci;
use results::beside;
use serial_line::SerialLine;
use std::alloc::{AllocError, Global};
use std::io::{Read, Write};
use std::rt::Clock;
use std::sync::Wait;
use std::time::Duration;

/// Seconds that an entry waits for an answer, in each of its three tries.
const ENTRY_SECONDS: u64 = 3;

/// What a drive came to.
#[derive(Drop)]
pub struct Driven {
    /// The fault by which it ended, if it ended by one.
    pub fault: Option<DriveFault>,
    /// Whether a line of the input was bad, and passed over.
    pub was_bad: bool,
    /// What the desk still held in the end.
    pub left: Settled,
}

/// The kinds of lines of a modem with these codes: those of the standards, Other, and one for each of the dialect's own rules of
/// unsolicited lines. Two rules of one name have the kind of the first.
fn kinds_of(alloc: Global, dialect: &Dialect) -> Result<Vec<UrcKind>, AllocError>
    ensures { IfOk result (λ kinds. kinds.items ≡ kinds_by dialect.now) }
{
    let mut kinds = UrcKind::STANDARD.to_vec(alloc)?;
    let most = dialect.count() as u8;
    for number in 0..most {
        let kind = UrcKind::Own(number);
        if dialect.name_of(kind).is_none() {
            return Ok(kinds);
        }
        kinds.push(kind)?;
    }
    Ok(kinds)
}

/// A copy of a dialect.
fn copy_of(dialect: &Dialect) -> Result<Dialect, DriveFault>
    ensures { IfOk result (λ copy. copy ≡ dialect.now) }
{
    match dialect.copy() {
        Ok(copy) => Ok(copy),
        Err(_) => Err(DriveFault::NoMemory),
    }
}

/// A desk of one caller and a listener for each kind of line of a modem with these codes. A connection whose commands wait for longer
/// than that is closed. These connections are to be opened though no command waits for them.
fn open_desk(
    alloc: Global,
    dialect: &Dialect,
    quiet_for: Duration,
    wanted: &[Dlci],
) -> Result<(DriverEnd, Users), DriveFault>
    ensures new { IfOk result (λ r. IsNewDesk dialect.now r.0) }
    ensures whole { IfOk result (λ r. IsWhole r.0.desk (map place_of (r.1.caller ∷ []))) }
    ensures subscribed { IfOk result (λ r. AreSubscribed r.0.desk (map subscription_of r.1.listeners.items)) }
    ensures shown { IfOk result (λ r. (out : Option (List ℕ)) → HasShown out out r.1) }
    ensures none_asked { IfOk result (λ r. r.1.caller.submitted ≡ []) }
    ensures order { IfOk result (λ r. KeepsOrder r.1.channels r.1.caller) }
    ensures dialect { IfOk result (λ r. r.1.dialect ≡ dialect.now) }
{
    let kinds = kinds_of(alloc, dialect)?;
    let dialect = copy_of(dialect)?;
    let Ok((driver, mut callers, listeners)) = Desk::open(alloc, 1, kinds.as_slice()) else {
        return Err(DriveFault::NoMemory);
    };
    let caller = callers.remove(0);
    let users = Users {
        caller,
        listeners,
        under_way: Vec::new(alloc),
        asked: None,
        channels: Channels::new(quiet_for, wanted),
        counts: [0; Dlci::COUNT],
        dialect,
    };
    Ok((driver, users))
}

/// A session that has done nothing yet, at a modem with these codes.
fn make_session<L: SerialLine + Drop, R: Wait + Drop>(
    rt: R,
    alloc: Global,
    line: L,
    driver: DriverEnd,
    n1: u16,
    dialect: &Dialect,
) -> Result<Session<L, R>, DriveFault>
    ensures begins { IfOk result (λ s. FitsAll (beginning_by (dialect_of dialect.now) n1 (L.seen line) driver) L.seen s []) }
    ensures same { IfOk result (λ s. (s.line ≡ line) × (s.driver ≡ driver)) }
{
    match Session::with_dialect(rt, alloc, line, driver, n1, dialect) {
        Ok(session) => Ok(session),
        Err(_) => Err(DriveFault::NoMemory),
    }
}

/// A session over this line, as it is driven by these settings, and those who use its desk.
fn begin<L: SerialLine + Drop, R: Wait + Drop>(
    rt: R,
    alloc: Global,
    line: L,
    settings: &Settings<'_>,
) -> Result<(Session<L, R>, Users), DriveFault>
    ensures { IfOk result (λ r. Begins L.seen settings.now.dialect.now settings.now.n1 line r.0 r.1) }
{
    let quiet_for = quiet_time(settings.quiet_for);
    let (driver, users) = open_desk(alloc, settings.dialect, quiet_for, settings.data)?;
    match make_session(rt, alloc, line, driver, settings.n1, settings.dialect) {
        Ok(session) => Ok((session, users)),
        Err(fault) => Err(fault),
    }
}

/// Has a session go on to its end. It gives the line and what the desk still held, and the fault by which it ended, if it did by one.
fn run_session<L, R, I, W, E>(
    rt: &R,
    alloc: Global,
    bell: &Bell,
    session: Session<L, R>,
    users: Users,
    ticks: &mut Ticks,
    plan: &mut Plan<I>,
    output: &mut W,
    faults: &mut E,
) -> Result<((L, Settled), Option<DriveFault>), DriveFault>
where
    L: SerialLine + Drop,
    R: Wait + Clock + Drop,
    I: Read,
    W: Write,
    E: Write,
    requires ticks { 0 < as_nanos ticks.old.period }
    requires unbegun { ticks.old.last ≡ None }
    requires whole { IsWhole session.driver.desk (map place_of (users.caller ∷ [])) }
    requires subscribed { AreSubscribed session.driver.desk (map subscription_of users.listeners.items) }
    ensures driven { IfOk result (λ r. HasDriven L.seen (as_nanos ticks.old.period)
        session users plan.old plan.new (W.contents output.old) (W.contents output.new) (E.contents faults.old)
        (E.contents faults.new) r.1 r.0.1 r.0.0) }
    ensures stops { OnErr result (StopsOn plan.old users.caller.submitted (E.contents faults.old) (E.contents faults.new)) }
{
    let mut session = session;
    let mut users = users;
    let went = drive_on(
        rt,
        alloc,
        bell,
        &mut session,
        ticks,
        &mut users,
        plan,
        output,
        faults,
    );
    match went {
        Ok(fault) => {
            let ended = end_drive(rt, alloc, session, users, plan, output)?;
            Ok((ended, fault))
        }
        Err(fault) => {
            // Whole, a session is dear to drop.
            let _ = session.finish();
            Err(fault)
        }
    }
}

/// Has a session that has begun go on to its end, with the lines of this input.
fn drive_begun<L, R, I, W, E>(
    rt: &R,
    alloc: Global,
    bell: &Bell,
    session: Session<L, R>,
    users: Users,
    input: I,
    output: &mut W,
    faults: &mut E,
    settings: Settings<'_>,
) -> Result<(L, Driven), DriveFault>
where
    L: SerialLine + Drop,
    R: Wait + Clock + Drop,
    I: Read + Drop,
    W: Write,
    E: Write,
    requires whole { IsWhole session.driver.desk (map place_of (users.caller ∷ [])) }
    requires subscribed { AreSubscribed session.driver.desk (map subscription_of users.listeners.items) }
    ensures driven { IfOk result (λ r. DrivesInput L.seen (period_of (as_nanos settings.entry.tick))
        session users (I.remaining input) (W.contents output.old) (W.contents output.new) (E.contents faults.old)
        (E.contents faults.new) r.1.fault r.1.was_bad r.1.left r.0) }
    ensures stops { OnErr result (StopsOn (plan_begun (I.remaining input)) users.caller.submitted (E.contents faults.old)
        (E.contents faults.new)) }
{
    let mut plan = Plan::new(alloc, Lines::new(alloc, input));
    let mut ticks = Ticks::new(settings.tick);
    let ran = run_session(
        rt, alloc, bell, session, users, &mut ticks, &mut plan, output, faults,
    );
    let (((last, left), fault), plan) = beside(ran, plan)?;
    let was_bad = plan.was_bad();
    Ok((
        last,
        Driven {
            fault,
            was_bad,
            left,
        },
    ))
}

/// Enters the multiplexer.
pub fn enter<L: SerialLine, R: Wait + Clock>(
    rt: &R,
    alloc: Global,
    bell: &Bell,
    line: &mut L,
    settings: &Settings<'_>,
) -> Result<(), DriveFault>
    ensures { OnOk result (HasEntered settings.now.n1 (entry_for (given_text settings.now.entry) settings.now.n1) (L.seen line.old) (L.seen line.new)) }
{
    let text = entry_of(alloc, settings)?;
    let mut limit = TimeLimit::new(rt, bell, Duration::from_secs(ENTRY_SECONDS));
    enter_by(line, settings.n1, false, text.as_bytes(), &mut limit)?;
    Ok(())
}

/// Drives a modem on a line on which the multiplexer was entered, as `drive_over` does from then on.
pub fn drive_entered<L, R, I, W, E>(
    rt: &R,
    alloc: Global,
    bell: &Bell,
    line: L,
    input: I,
    output: &mut W,
    faults: &mut E,
    settings: Settings<'_>,
) -> Result<(L, Driven), DriveFault>
where
    L: SerialLine + Drop,
    R: Wait + Clock + Copy + Drop,
    I: Read + Drop,
    W: Write,
    E: Write,
    ensures drove { IfOk result (λ r. DroveFrom L.seen
        settings.entry.dialect.now settings.entry.n1
        (period_of (as_nanos settings.entry.tick)) line r.0 (I.remaining input) (W.contents output.old) (W.contents output.new)
        (E.contents faults.old) (E.contents faults.new) r.1.fault r.1.was_bad r.1.left) }
    ensures named { NamesRead (I.remaining input) (E.contents faults.old) (E.contents faults.new) }
{
    let (session, users) = begin(*rt, alloc, line, &settings)?;
    drive_begun(
        rt, alloc, bell, session, users, input, output, faults, settings,
    )
}

/// Drives a modem on a line on which no call waits. `bell` has to be rung where octets of the line or of the input may have
/// come.
///
/// It enters the multiplexer and opens connection 0. It opens each other connection when a line of the input first names it,
/// or at once where it carries data. It submits the lines `D TEXT` of each connection in order, one at a time, and those of 15
/// connections at most. While 1024 lines wait for one connection it reads none. It prints the outcome of each line as
/// `D i answer`, and each announced line as `heard KIND D TEXT`, as they come. A kind of the dialect's own has its name.
///
/// A connection whose command has had no answer for as long as the settings say is closed, and opened again for the next line.
/// Where the modem doesn't answer that closing either, the drive ends with Silent. At the end of the input it waits for what
/// is under way, and ends the multiplexer.
///
/// It gives the line, and what the drive came to. Where the line is lost, or the modem ends the multiplexer, each request that
/// waits is told so, and the answer has the fault. However it ends, `faults` names each bad line that was read, and nothing
/// else. Refused where the multiplexer isn't entered, and with NoMemory, Output or GaveUp. After a refusal something is left
/// undone.
pub fn drive_over<L, R, I, W, E>(
    rt: &R,
    alloc: Global,
    bell: &Bell,
    line: L,
    input: I,
    output: &mut W,
    faults: &mut E,
    settings: Settings<'_>,
) -> Result<(L, Driven), DriveFault>
where
    L: SerialLine + Drop,
    R: Wait + Clock + Copy + Drop,
    I: Read + Drop,
    W: Write,
    E: Write,
    ensures drove { IfOk result (λ r. Drove L.seen
        settings.entry.dialect.now (entry_for (given_text settings.entry.entry) settings.entry.n1) settings.entry.n1
        (period_of (as_nanos settings.entry.tick)) line r.0
        (I.remaining input) (W.contents output.old) (W.contents output.new) (E.contents faults.old) (E.contents faults.new)
        r.1.fault r.1.was_bad r.1.left) }
    ensures named { NamesRead (I.remaining input) (E.contents faults.old) (E.contents faults.new) }
{
    let mut line = line;
    enter(rt, alloc, bell, &mut line, &settings)?;
    drive_entered(rt, alloc, bell, line, input, output, faults, settings)
}
