ghost use Rattle.std.specs.Prelude.{◌≡◌, ◌<◌, ◌≤◌, ◌*◌, length, map, IfOk};
ghost use Rattle.modem_desk.specs.Ends.{place_of, IsWhole, AreSubscribed};

use modem_desk::*;
use std::alloc::{AllocError, Global};
use std::process::Abort;
use std::snapshot::Snapshot;
use std::sync::Wait;
use std::thread;
use std::thread::{Promise, PromisedHandle, Threads};

// The same caller of the same desk.
#[derive(Drop)]
struct SamePlace(Snapshot<Caller>);

impl Promise<Caller> for SamePlace {
    ghost kept_by = { λ p c. c.place ≡ p.0.value.place };
}

// The same driver's end of the same desk.
#[derive(Drop)]
struct SameDesk(Snapshot<DriverEnd>);

impl Promise<DriverEnd> for SameDesk {
    ghost kept_by = { λ p d. d.desk ≡ p.0.value.desk };
}

// What a caller does: it submits so many Stops, taking outcomes when it is refused, and then waits until it has taken so many.
#[derive(Clone, Copy)]
struct CallerJob {
    asks: u64,
    outcomes: u64,
}

// What the driver does: it takes so many requests, and tells NotOpen to each or nothing.
#[derive(Clone, Copy)]
struct DriverJob {
    requests: u64,
    tells: bool,
}

// Takes an outcome that waits, which is the next one by its number. Says how many were taken then.
fn take_next<R: Abort>(rt: &R, caller: &mut Caller, taken: u64) -> u64
    ensures { caller.new.place ≡ caller.old.place }
{
    let Some(outcome) = caller.take() else {
        return taken;
    };
    let number = taken.saturating_add(1);
    assert!(rt; outcome.number == number && matches!(outcome.answer, Answer::NotOpen));
    number
}

fn work<R: Wait + Abort>(rt: &R, mut caller: Caller, job: CallerJob) -> Caller
    ensures { result.place ≡ caller.place }
{
    let mut submitted = 0;
    let mut taken = 0;
    for _ in rt.forever() {
        if submitted >= job.asks && taken >= job.outcomes {
            return caller;
        }
        if submitted < job.asks && caller.submit(rt, Ask::Stop).is_ok() {
            submitted += 1;
        } else {
            taken = take_next(rt, &mut caller, taken);
            thread::yield_now();
        }
    }
    caller
}

fn next_waiting<R: Wait>(rt: &R, driver: &mut DriverEnd) -> Request
    ensures desk { driver.new.desk ≡ driver.old.desk }
    ensures below { result.caller < length driver.new.desk.rings }
{
    for _ in rt.forever() {
        if let Some(request) = driver.next(rt) {
            return request;
        }
        thread::yield_now();
    }
    unreachable!()
}

fn tell_waiting<R: Wait>(rt: &R, driver: &mut DriverEnd, outcome: Outcome)
    requires { outcome.caller < length driver.old.desk.rings }
    ensures { driver.new.desk ≡ driver.old.desk }
{
    let mut outcome = outcome;
    for _ in rt.forever() {
        match driver.tell(outcome) {
            Ok(()) => return,
            Err(back) => outcome = back,
        }
        thread::yield_now();
    }
}

fn drive<R: Wait>(rt: &R, mut driver: DriverEnd, job: DriverJob) -> DriverEnd
    ensures { result.desk ≡ driver.desk }
{
    for _ in 0..job.requests {
        let request = next_waiting(rt, &mut driver);
        if job.tells {
            let outcome = Outcome {
                caller: request.caller,
                number: request.number,
                answer: Answer::NotOpen,
            };
            tell_waiting(rt, &mut driver, outcome);
        }
    }
    driver
}

// Starts a thread for each caller.
fn send_out<R>(
    rt: &R,
    alloc: Global,
    callers: Vec<Caller>,
    job: CallerJob,
) -> Vec<PromisedHandle<Caller, SamePlace>>
where
    R: Threads + Wait + Abort + Copy + Send + 'static,
    ensures { map (λ h. h.promise.0.value.place) result.items ≡ map place_of callers.items }
{
    let mut out = Vec::new(alloc);
    let rt = *rt;
    for caller in callers {
        let was = SamePlace(Snapshot::of(&caller));
        let Ok(child) = thread::spawn_with(&rt, was, move || work(&rt, caller, job)) else {
            panic!(rt; "no memory");
        };
        let Ok(()) = out.push(child) else {
            panic!(rt; "no memory");
        };
    }
    out
}

// Waits for each thread.
fn bring_back(
    rt: &impl Threads,
    out: Vec<PromisedHandle<Caller, SamePlace>>,
) -> Result<Vec<Caller>, AllocError>
    ensures { IfOk result (λ back. map place_of back.items ≡ map (λ h. h.promise.0.value.place) out.items) }
{
    Ok(thread::join_promised(rt, out)?)
}

// Callers, each in a thread of its own.
fn call_all<R>(
    rt: &R,
    alloc: Global,
    callers: Vec<Caller>,
    job: CallerJob,
) -> Result<Vec<Caller>, AllocError>
where
    R: Threads + Wait + Abort + Copy + Send + 'static,
    ensures { IfOk result (λ back. map place_of back.items ≡ map place_of callers.items) }
{
    let out = send_out(rt, alloc, callers, job);
    bring_back(rt, out)
}

// Callers and a driver, each in a thread of its own, and then a settlement.
fn run<R>(rt: &R, alloc: Global, callers: u8, callers_job: CallerJob, job: DriverJob) -> Settled
where
    R: Threads + Wait + Abort + Copy + Send + 'static,
{
    let Ok((driver, all, listeners)) = Desk::open(alloc, callers, &[]) else {
        panic!(rt; "no memory");
    };
    let was = SameDesk(Snapshot::of(&driver));
    let own = *rt;
    let Ok(driving) = thread::spawn_with(rt, was, move || drive(&own, driver, job)) else {
        panic!(rt; "no memory");
    };
    let Ok(back) = call_all(rt, alloc, all, callers_job) else {
        panic!(rt; "no memory");
    };
    let driver = driving.join(rt);
    let Ok(settled) = settle(rt, alloc, driver, back, listeners) else {
        panic!(rt; "no memory");
    };
    settled
}

// Whether no outcome is left untaken.
fn are_taken(untaken: &[Vec<Outcome>]) -> bool {
    for outcomes in untaken {
        if !outcomes.is_empty() {
            return false;
        }
    }
    true
}

#[test]
fn eight_callers_take_each_outcome_once(rt: HostRuntime) {
    let callers_job = CallerJob {
        asks: 100,
        outcomes: 100,
    };
    let job = DriverJob {
        requests: 800,
        tells: true,
    };
    let settled = run(&rt, rt.alloc(), 8, callers_job, job);
    assert!(rt; settled.left.is_empty() && settled.untaken.len() == 8);
    assert!(rt; are_taken(&settled.untaken));
}

// The last number of this caller's requests that are left, which are in their order; 0 where none is.
fn last_left(rt: &impl Abort, left: &[Request], caller: u8) -> u64 {
    let mut last = 0;
    for request in left {
        if request.caller == caller {
            assert!(rt; last < request.number);
            last = request.number;
        }
    }
    last
}

#[test]
fn what_a_driver_leaves_is_each_callers_rest(rt: HostRuntime) {
    let callers_job = CallerJob {
        asks: 16,
        outcomes: 0,
    };
    let job = DriverJob {
        requests: 20,
        tells: false,
    };
    let settled = run(&rt, rt.alloc(), 4, callers_job, job);
    assert!(rt; settled.left.len() == 44);
    for caller in 0..4 {
        let last = last_left(&rt, &settled.left, caller);
        assert!(rt; last == 0 || last == 16);
    }
}
