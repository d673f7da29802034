//! What the threads of a bench tell one another beside the desk and the line.
ghost use Rattle.std.specs.Prelude.{◌≡◌, IfOk, IfErr, Ok};
ghost use Rattle.std.specs.Arc.{arc_value};
ghost use Rattle.modem_bench.specs.declared.signals.Fault.TheVariants.{GaveUp, NoMemory};

use crate::bells::Bells;
use crate::cause::Cause;
use bell::Bell;
use modem_desk::SubmitError;
use std::alloc::{AllocError, AllocFailed, Global};
use std::sync::atomic::{AtomicBool, Ordering};
use std::sync::{Arc, OnceLock, OnceToken, Wait};
use std::thread::SpawnError;
use std::time::Duration;

/// How many milliseconds a thread waits at most without a ring.
const WAIT_MILLISECONDS: u64 = 100;

/// Why a bench ends without its output.
#[derive(Clone, Copy, Drop)]
pub enum Fault {
    /// Memory was refused.
    NoMemory,
    /// The line failed.
    Line,
    /// It didn't come to its end, for this cause.
    GaveUp(Cause),
}

impl From<AllocError> for Fault {
    ghost from_gives = { λ _ fault. fault ≡ NoMemory };

    fn from(_error: AllocError) -> Fault {
        Fault::NoMemory
    }
}

impl From<Cause> for Fault {
    ghost from_gives = { λ cause fault. fault ≡ GaveUp cause };

    fn from(cause: Cause) -> Fault {
        Fault::GaveUp(cause)
    }
}

impl<T: Drop> From<AllocFailed<T>> for Fault {
    ghost from_gives = { λ _ fault. fault ≡ NoMemory };

    fn from(_error: AllocFailed<T>) -> Fault {
        Fault::NoMemory
    }
}

impl<F: Drop> From<SpawnError<F>> for Fault {
    ghost from_gives = { λ _ fault. fault ≡ NoMemory };

    fn from(_error: SpawnError<F>) -> Fault {
        Fault::NoMemory
    }
}

/// Why the bench was given up: the first fault that a thread gave.
#[derive(Drop)]
pub struct Reason<'a> {
    pub fault: Fault,
    pub shown: OnceToken<'a, Fault>,
    pub ghost same: { fault ≡ shown.value },
}

impl From<Reason<'_>> for Fault {
    ghost from_gives = { λ reason fault. fault ≡ reason.fault };

    fn from(reason: Reason<'_>) -> Fault {
        reason.fault
    }
}

/// What all threads see.
#[derive(Drop)]
pub struct Shared {
    pub fault: OnceLock<Fault>,
    pub bells: Bells,
    /// Whether a caller found the queue full, and waits for room in it.
    wants_room: AtomicBool,
}

/// One thread's share of what all see: whether the bench is given up, and why; and the bells, of which one is its own.
#[derive(Drop)]
pub struct Signals {
    pub shared: Arc<Shared, Global>,
    bell: Bell,
}

impl Signals {
    /// New signals, with bells for so many callers. The share is that of caller 0.
    pub fn new(alloc: Global, callers: u8) -> Result<Signals, AllocError> {
        let bell = Bell::new(alloc)?;
        let bells = Bells::new(alloc, bell.share()?, callers)?;
        let shared = Shared {
            fault: OnceLock::new(),
            bells,
            wants_room: AtomicBool::new(false),
        };
        let shared = Arc::new(alloc, shared)?;
        Ok(Signals { shared, bell })
    }

    /// All bells.
    pub fn bells(&self) -> &Bells {
        &self.shared.bells
    }

    /// A caller was refused for this. A full queue has room again once the driver took from it.
    pub fn refused(&self, why: SubmitError) {
        if matches!(why, SubmitError::Full) {
            self.shared.wants_room.store(true, Ordering::SeqCst);
        }
    }

    /// The driver moved something: where a caller waits for room in the queue, all are woken.
    pub fn moved(&self) {
        if self.shared.wants_room.load(Ordering::SeqCst) {
            self.shared.wants_room.store(false, Ordering::SeqCst);
            self.shared.bells.ring_callers();
        }
    }

    /// A share for another thread, which waits on this bell.
    fn share(&self, bell: &Bell) -> Result<Signals, AllocError>
        ensures { IfOk result (λ s. arc_value s.shared ≡ arc_value self.now.shared) }
    {
        let bell = bell.share()?;
        let shared = Arc::try_clone(&self.shared)?;
        Ok(Signals { shared, bell })
    }

    /// A share for the driver's thread.
    pub fn of_driver(&self) -> Result<Signals, AllocError>
        ensures { IfOk result (λ s. arc_value s.shared ≡ arc_value self.now.shared) }
    {
        self.share(&self.shared.bells.driver)
    }

    /// A share for the simulated modem's thread.
    pub fn of_modem(&self) -> Result<Signals, AllocError>
        ensures { IfOk result (λ s. arc_value s.shared ≡ arc_value self.now.shared) }
    {
        self.share(&self.shared.bells.modem)
    }

    /// A share for the thread of the caller of this number, or of caller 0 where the bench has none of this number.
    pub fn of_caller(&self, number: u8) -> Result<Signals, AllocError>
        ensures { IfOk result (λ s. arc_value s.shared ≡ arc_value self.now.shared) }
    {
        self.share(self.shared.bells.of_caller(number))
    }

    /// Waits until somebody rings this thread's bell, or for a tenth of a second.
    pub fn wait<R: Wait>(&self, rt: &R) {
        self.bell.wait(rt, Duration::from_millis(WAIT_MILLISECONDS));
    }

    /// The reason that this shows.
    fn reason<'a>(&'a self, shown: OnceToken<'a, Fault>) -> Reason<'a>
        requires { shown.of ≡ (arc_value self.now.shared).fault.id }
        ensures { result.shown.of ≡ (arc_value self.now.shared).fault.id }
    {
        let fault = *self.shared.fault.value(&shown);
        Reason { fault, shown }
    }

    /// Gives the bench up for this fault; or, as `Err`, the fault for which it was given up before.
    fn set<R: Wait>(&self, rt: &R, fault: Fault) -> Result<Reason<'_>, Reason<'_>>
        ensures first { IfOk result (λ r. (r.fault ≡ fault) × (r.shown.of ≡ (arc_value self.now.shared).fault.id)) }
        ensures before { IfErr result (λ r. r.shown.of ≡ (arc_value self.now.shared).fault.id) }
    {
        match self.shared.fault.try_insert(rt, fault) {
            Ok(shown) => Ok(Reason { fault, shown }),
            Err((shown, _)) => Err(self.reason(shown)),
        }
    }

    /// Gives the bench up for this fault, unless it was given up before, and answers why it is given up. All threads are woken to
    /// see it. It may wait for another thread that gives the bench up at the same time.
    pub fn give_up<R: Wait>(&self, rt: &R, fault: Fault) -> Reason<'_>
        ensures { result.shown.of ≡ (arc_value self.now.shared).fault.id }
    {
        let reason = match self.set(rt, fault) {
            Ok(reason) | Err(reason) => reason,
        };
        self.shared.bells.ring_all();
        reason
    }

    /// Gives the bench up where this is a fault.
    pub fn or_give_up<T: Drop, R: Wait>(&self, rt: &R, ended: Result<T, Fault>) -> Result<T, Fault>
        ensures { IfOk result (λ value. ended ≡ Ok value) }
    {
        match ended {
            Ok(value) => Ok(value),
            Err(fault) => Err(self.give_up(rt, fault).fault),
        }
    }

    /// `Ok` while the bench goes on, else why it was given up.
    pub fn check(&self) -> Result<(), Reason<'_>>
        ensures { IfErr result (λ r. r.shown.of ≡ (arc_value self.now.shared).fault.id) }
    {
        match self.shared.fault.witness() {
            Some(shown) => Err(self.reason(shown)),
            None => Ok(()),
        }
    }

    /// Waits as `wait` does, unless the bench was given up.
    pub fn wait_on<R: Wait>(&self, rt: &R) -> Result<(), Fault> {
        self.check()?;
        self.wait(rt);
        Ok(())
    }
}
