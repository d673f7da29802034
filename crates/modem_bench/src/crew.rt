//! The callers of a bench: each goes out into a thread of its own, works and comes back.
ghost use Rattle.std.specs.Prelude.{◌≡◌, ◌≤◌, ◌<◌, ◌++◌, ◌∷◌, [], IfOk, OnOk, length};
ghost use Rattle.modem_bench.specs.Asks.{asks_for};
ghost use Rattle.modem_bench.specs.Calling.{Works};
ghost use Rattle.modem_bench.specs.Running.{AllWork, AreBack, AreCalled, AreOut, ComesBack, GoesOut, OpensFirst, StopsFirst};

use crate::calling::{Worked, open_all, stop, work};
use crate::signals::{Fault, Signals};
use crate::submission::{Submission, asks_for};
use modem_desk::{Ask, Caller};
use results::beside;
use std::alloc::Global;
use std::snapshot::Snapshot;
use std::sync::Wait;
use std::thread;
use std::thread::{Promise, PromisedHandle, Threads};

/// The same caller, which worked on these asks.
#[derive(Drop)]
pub struct HasWorked {
    pub was: Snapshot<Caller>,
    pub asks: Snapshot<Vec<Ask>>,
}

impl Promise<Result<Worked, Fault>> for HasWorked {
    ghost kept_by = { λ p r. IfOk r (λ w. Works p.was.value w.caller p.asks.value.items w.outcomes.items) };
}

type Work = PromisedHandle<Result<Worked, Fault>, HasWorked>;

/// What the caller of this number is to ask for, and its share of the signals.
fn share_of(
    alloc: Global,
    submissions: &[Submission],
    number: u8,
    signals: &Signals,
) -> Result<(Vec<Ask>, Signals), Fault>
    ensures { IfOk result (λ r. r.0.items ≡ asks_for number submissions.now) }
{
    let theirs = signals.of_caller(number)?;
    Ok(beside(asks_for(alloc, submissions, number), theirs)?)
}

/// Sends a caller out.
fn send_one<R>(
    rt: &R,
    alloc: Global,
    caller: Caller,
    asks: Vec<Ask>,
    signals: Signals,
) -> Result<Work, Fault>
where
    R: Threads + Wait + Copy + Send + 'static,
    ensures { IfOk result (λ h. (h.promise.was.value ≡ caller) × (h.promise.asks.value ≡ asks)) }
{
    let rt = *rt;
    let promise = HasWorked {
        was: Snapshot::of(&caller),
        asks: Snapshot::of(&asks),
    };
    let handle = thread::spawn_with(
        &rt,
        promise,
        move || work(&rt, alloc, caller, asks, signals),
    )?;
    Ok(handle)
}

/// Keeps the handle of a thread. Where there is no memory for it, the thread is waited for.
fn keep<R: Threads + Wait>(
    rt: &R,
    out: &mut Vec<Work>,
    handle: Work,
    signals: &Signals,
) -> Result<(), Fault>
    ensures { OnOk result (out.new.items ≡ out.old.items ++ handle ∷ []) }
{
    match out.push(handle) {
        Ok(()) => Ok(()),
        Err(refused) => {
            let fault = signals.give_up(rt, Fault::NoMemory).fault;
            let _ = refused.value.join(rt);
            Err(fault)
        }
    }
}

/// Sends a caller out, and keeps the handle of its thread.
fn send_next<R>(
    rt: &R,
    alloc: Global,
    caller: Caller,
    asks: Vec<Ask>,
    theirs: Signals,
    signals: &Signals,
    out: &mut Vec<Work>,
) -> Result<(), Fault>
where
    R: Threads + Wait + Copy + Send + 'static,
    ensures { OnOk result (GoesOut caller asks.items out.old.items out.new.items) }
{
    let handle = send_one(rt, alloc, caller, asks, theirs)?;
    keep(rt, out, handle, signals)
}

/// Sends all callers out, as far as there is memory.
#[tactic(auto, using(crate::proofs::CallerThreads::out_none, crate::proofs::CallerThreads::out_next))]
fn send_out<R>(
    rt: &R,
    alloc: Global,
    callers: Vec<Caller>,
    submissions: &[Submission],
    signals: &Signals,
    out: &mut Vec<Work>,
) -> Result<(), Fault>
where
    R: Threads + Wait + Copy + Send + 'static,
    requires few { length callers.items ≤ 8 }
    requires none { out.old.items ≡ [] }
    ensures { OnOk result (AreOut submissions.now 0 callers.items out.new.items) }
{
    let mut number = 0;
    for caller in callers {
        let share = share_of(alloc, submissions, number, signals);
        let ((asks, theirs), caller) = beside(share, caller)?;
        send_next(rt, alloc, caller, asks, theirs, signals, out)?;
        number += 1;
    }
    Ok(())
}

/// Waits for a caller.
fn join_one(rt: &impl Threads, handle: Work, back: &mut Vec<Worked>) -> Result<(), Fault>
    ensures { OnOk result (ComesBack handle back.old.items back.new.items) }
{
    let worked = handle.join(rt)?;
    back.push(worked)?;
    Ok(())
}

/// Waits for each caller.
#[tactic(auto, using(crate::proofs::CallerThreads::back_none, crate::proofs::CallerThreads::back_next))]
fn bring_back(rt: &impl Threads, alloc: Global, out: Vec<Work>) -> Result<Vec<Worked>, Fault>
    ensures { IfOk result (λ back. AreBack out.items back.items) }
{
    let mut back = Vec::new(alloc);
    let mut end = Ok(());
    for handle in out {
        match join_one(rt, handle, &mut back) {
            Ok(()) => {}
            Err(fault) => end = Err(fault),
        }
    }
    end?;
    Ok(back)
}

/// Sends all callers out, and waits for each.
#[tactic(auto, using(crate::proofs::CallerThreads::all_work))]
fn work_all<R>(
    rt: &R,
    alloc: Global,
    callers: Vec<Caller>,
    submissions: &[Submission],
    signals: &Signals,
) -> Result<Vec<Worked>, Fault>
where
    R: Threads + Wait + Copy + Send + 'static,
    requires { length callers.items ≤ 8 }
    ensures { IfOk result (λ back. AllWork submissions.now 0 callers.items back.items) }
{
    let mut out = Vec::new(alloc);
    let sent = send_out(rt, alloc, callers, submissions, signals, &mut out);
    if let Err(fault) = sent {
        signals.give_up(rt, fault);
    }
    let back = bring_back(rt, alloc, out)?;
    sent?;
    Ok(back)
}

/// Has caller 0 open the connections.
fn open_first<R: Wait>(
    rt: &R,
    callers: &mut Vec<Caller>,
    submissions: &[Submission],
    signals: &Signals,
) -> Result<(), Fault>
    requires { 0 < length callers.old.items }
    ensures { OnOk result (OpensFirst submissions.now callers.old.items callers.new.items) }
{
    let first = &mut callers[0];
    open_all(rt, first, submissions, signals)
}

/// Has caller 0 end the multiplexer.
fn stop_first<R: Wait>(rt: &R, back: &mut Vec<Worked>, signals: &Signals) -> Result<(), Fault>
    requires { 0 < length back.old.items }
    ensures { OnOk result (StopsFirst back.old.items back.new.items) }
{
    let first = &mut back[0];
    stop(rt, &mut first.caller, signals)
}

/// What the callers do, from the openings to the Stop.
#[tactic(auto, using(crate::proofs::CallerThreads::opened_long, crate::proofs::CallerThreads::back_long, crate::proofs::CallerThreads::are_called))]
pub fn call<R>(
    rt: &R,
    alloc: Global,
    callers: Vec<Caller>,
    submissions: &[Submission],
    signals: &Signals,
) -> Result<Vec<Worked>, Fault>
where
    R: Threads + Wait + Copy + Send + 'static,
    requires { (0 < length callers.items) × (length callers.items ≤ 8) }
    ensures { IfOk result (λ back. AreCalled submissions.now callers.items back.items) }
{
    let mut opened = callers;
    open_first(rt, &mut opened, submissions, signals)?;
    let mut back = work_all(rt, alloc, opened, submissions, signals)?;
    stop_first(rt, &mut back, signals)?;
    Ok(back)
}
