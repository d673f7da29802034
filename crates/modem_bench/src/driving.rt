//! The driver's thread of a bench.
ghost use Rattle.std.specs.Prelude.{◌≡◌, IfErr, IfOk, OnOk};
ghost use Rattle.modem_history.specs.Turns.{says_moved};
ghost use Rattle.modem_driver.specs.SessionTurns.{turn_answer};
ghost use Rattle.modem_bench.specs.Driving.{Advances, Continues, Halts, IsCounted, IsRefused, Steps, StopsAtLine, led_to};
ghost use Rattle.modem_bench.specs.Faults.{halt_fault, session_fault};

use crate::cause::Cause;
use crate::limit::{Limit, Limits};
use crate::signals::{Fault, Reason, Signals};
use modem_driver::{Ended, Progress, Session, SessionFault, Turn};
use results::unless_failed;
use serial_line::SerialLine;
use std::snapshot::Snapshot;
use std::sync::Wait;
use std::thread::Promise;

pub fn fault_of(fault: SessionFault) -> Fault
    ensures { result ≡ session_fault fault }
{
    match fault {
        SessionFault::NoMemory => Fault::NoMemory,
        SessionFault::Line | SessionFault::Failed => Fault::Line,
    }
}

/// The same session, once it has stopped.
#[derive(Drop)]
pub struct Later<L: SerialLine + Drop, R: Wait + Drop>(pub Snapshot<Session<L, R>>);

impl<L: SerialLine + Drop, R: Wait + Drop> Promise<Result<Session<L, R>, Fault>> for Later<L, R> {
    ghost kept_by = { λ p r. IfOk r (StopsAtLine L.seen L.other_side p.0.value) };
}

/// Why a session's thread ends its bench.
#[derive(Drop)]
pub enum Halt<'a> {
    /// The bench was given up before, for this reason.
    Told(Reason<'a>),
    /// The session gave a fault, which is told as this one.
    Failed(Fault),
    /// The session may make no more poll.
    Limited(Cause),
}

impl From<Halt<'_>> for Fault {
    ghost from_gives = { λ halt fault. fault ≡ halt_fault halt };

    fn from(halt: Halt<'_>) -> Fault {
        match halt {
            Halt::Told(reason) => reason.fault,
            Halt::Failed(fault) => fault,
            Halt::Limited(cause) => Fault::GaveUp(cause),
        }
    }
}

/// Whether a turn moved something.
fn is_moved(turn: Turn) -> bool
    ensures { result ≡ says_moved (turn_answer turn) }
{
    matches!(turn, Turn::Moved)
}

/// One poll of the session: a turn; and behind one that moved something `Session::advance`, with what that came to. `None` where
/// nothing moved.
#[tactic(auto, using(crate::proofs::StandStills::advances_still, crate::proofs::StandStills::advances_moved, crate::proofs::StandStills::advances_fails))]
fn poll<L: SerialLine, R: Wait + Drop>(
    session: &mut Session<L, R>,
) -> Result<Option<Progress>, SessionFault>
    ensures polled { Advances L.seen session.old session.new result }
    ensures beyond { L.other_side session.new.line ≡ L.other_side session.old.line }
{
    let said = session.turn()?;
    if is_moved(said) {
        return Ok(Some(session.advance()));
    }
    Ok(None)
}

/// Counts a poll that is to be made. Refused where the bench was given up, or where none may be made.
fn may_poll<'a>(signals: &'a Signals, limit: &mut Limit) -> Result<(), Halt<'a>>
    ensures counted { OnOk result (IsCounted limit.old limit.new) }
    ensures refused { IfErr result (IsRefused limit.old) }
{
    if let Err(reason) = signals.check() {
        return Err(Halt::Told(reason));
    }
    match limit.count() {
        Ok(()) => Ok(()),
        Err(cause) => Err(Halt::Limited(cause)),
    }
}

/// What a poll that moved something leads to: whether the multiplexer has ended. Where there is nothing more to do it waits.
fn went_on<'a, R: Wait>(rt: &R, signals: &'a Signals, progress: Progress) -> Result<bool, Halt<'a>>
    ensures { result ≡ led_to progress }
{
    match progress {
        Progress::Ended(Ok(Ended::Stopped)) => Ok(true),
        Progress::Ended(Err(fault)) => Err(Halt::Failed(fault_of(fault))),
        Progress::More => Ok(false),
        Progress::Idle => {
            signals.wait(rt);
            Ok(false)
        }
    }
}

/// One more poll of the session, and whether the multiplexer has ended. Where it moved something, callers that wait
/// for room in the queue are woken. Where there is nothing to do it waits.
#[tactic(auto, using(crate::proofs::StandStills::steps_moved, crate::proofs::StandStills::steps_still, crate::proofs::StandStills::steps_fails, crate::proofs::StandStills::steps_refused))]
fn step<'a, L: SerialLine, R: Wait + Drop>(
    rt: &R,
    session: &mut Session<L, R>,
    signals: &'a Signals,
    limit: &mut Limit,
) -> Result<bool, Halt<'a>>
    ensures stepped { Steps L.seen session.old session.new limit.old limit.new result }
    ensures beyond { L.other_side session.new.line ≡ L.other_side session.old.line }
{
    may_poll(signals, limit)?;
    match poll(session) {
        Ok(Some(progress)) => {
            limit.moved();
            signals.moved();
            went_on(rt, signals, progress)
        }
        Ok(None) => {
            signals.wait(rt);
            Ok(false)
        }
        Err(fault) => Err(Halt::Failed(fault_of(fault))),
    }
}

/// Polls a session until the multiplexer has ended.
#[tactic(auto, using(crate::proofs::StandStills::driven_none, crate::proofs::StandStills::driven_on, crate::proofs::StandStills::driven_stops, crate::proofs::StandStills::driven_halts))]
fn drive_on<'a, L: SerialLine, R: Wait + Drop>(
    rt: &R,
    session: &mut Session<L, R>,
    signals: &'a Signals,
    limits: Limits,
) -> Result<(), Halt<'a>>
    ensures stops { OnOk result (Continues L.seen session.old session.new) }
    ensures halts { IfErr result (Halts L.seen limits session.old session.new) }
    ensures beyond { L.other_side session.new.line ≡ L.other_side session.old.line }
{
    let mut limit = Limit::new(limits);
    for _ in rt.forever() {
        match step(rt, session, signals, &mut limit) {
            Ok(ended) => {
                if ended {
                    return Ok(());
                }
            }
            Err(halt) => return Err(halt),
        }
    }
    unreachable!()
}

/// As `drive_on`. Where it halts, it gives the bench up for all threads.
fn drive_or_give_up<L: SerialLine, R: Wait + Drop>(
    rt: &R,
    session: &mut Session<L, R>,
    signals: &Signals,
    limits: Limits,
) -> Result<(), Fault>
    ensures stops { OnOk result (Continues L.seen session.old session.new) }
    ensures beyond { L.other_side session.new.line ≡ L.other_side session.old.line }
{
    match drive_on(rt, session, signals, limits) {
        Ok(()) => Ok(()),
        Err(halt) => Err(signals.give_up(rt, Fault::from(halt)).fault),
    }
}

/// What the driver does in its thread, within these limits.
#[tactic(auto, using(crate::proofs::StandStills::stopped_back))]
pub fn drive<L: SerialLine + Drop, R: Wait + Drop>(
    rt: &R,
    session: Session<L, R>,
    signals: Signals,
    limits: Limits,
) -> Result<Session<L, R>, Fault>
    ensures { IfOk result (StopsAtLine L.seen L.other_side session) }
{
    let mut session = session;
    let ended = drive_or_give_up(rt, &mut session, &signals, limits);
    unless_failed(ended, session)
}
