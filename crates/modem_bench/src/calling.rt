//! What the callers of a bench do.
ghost use Rattle.std.specs.Prelude.{◌≡◌, ◌≤◌, ◌<◌, ◌++◌, ◌∷◌, [], IfErr, IfOk, OnOk, MatchResult, length};
ghost use Rattle.std.specs.List.Sorted.{IsPermutation};
ghost use Rattle.modem_desk.specs.declared.request.Ask.TheVariants as ask;
ghost use Rattle.modem_bench.specs.Calling.{AreAnswers, Asks, Opens, OpensAll, PutsBehind, Stops, Works, asked};
ghost use Rattle.modem_bench.specs.Faults.{opening_end, stop_end};
ghost use Rattle.modem_bench.specs.declared.cause.Cause.TheVariants.{OtherOutcomes};

use crate::cause::Cause;
use crate::signals::{Fault, Signals};
use crate::submission::{Submission, names};
use modem_desk::{Answer, Ask, Caller, Outcome};
use mux_frame::Dlci;
use results::beside;
use std::alloc::Global;
use std::sync::Wait;

/// A caller that has worked, and what it was told for each of its asks, in order.
#[derive(Drop)]
pub struct Worked {
    pub caller: Caller,
    pub outcomes: Vec<Outcome>,
}

/// Takes the outcome that waits, if one does, and says whether one did.
fn take_one(caller: &mut Caller, outcomes: &mut Vec<Outcome>) -> Result<bool, Fault>
    ensures stays { (caller.new.place ≡ caller.old.place) × (caller.new.submitted ≡ caller.old.submitted) }
    ensures puts { OnOk result (PutsBehind caller.old caller.new outcomes.old.items outcomes.new.items) }
{
    let Some(outcome) = caller.take() else {
        return Ok(false);
    };
    outcomes.push(outcome)?;
    Ok(true)
}

/// Takes the outcome that waits; where none does, it waits for a ring. Refused where the bench was given up then.
fn take_or_wait<R: Wait>(
    rt: &R,
    caller: &mut Caller,
    outcomes: &mut Vec<Outcome>,
    signals: &Signals,
) -> Result<(), Fault>
    ensures stays { (caller.new.place ≡ caller.old.place) × (caller.new.submitted ≡ caller.old.submitted) }
    ensures puts { OnOk result (PutsBehind caller.old caller.new outcomes.old.items outcomes.new.items) }
{
    if take_one(caller, outcomes)? {
        return Ok(());
    }
    signals.wait_on(rt)
}

/// Submits a request, taking outcomes where it is refused, and gives its number.
fn submit<R: Wait>(
    rt: &R,
    caller: &mut Caller,
    ask: Ask,
    outcomes: &mut Vec<Outcome>,
    signals: &Signals,
) -> Result<u64, Fault>
    ensures { IfOk result (λ n. Asks caller.old caller.new (ask ∷ []) (n ∷ [])
        outcomes.old.items outcomes.new.items) }
{
    let mut left = ask;
    for _ in rt.forever() {
        match caller.submit(rt, left) {
            Ok(number) => return Ok(number),
            Err((why, back)) => {
                signals.refused(why);
                left = back;
            }
        }
        let ((), back) = beside(take_or_wait(rt, caller, outcomes, signals), left)?;
        left = back;
    }
    unreachable!()
}

/// Takes outcomes until there are so many.
fn take_all<R: Wait>(
    rt: &R,
    caller: &mut Caller,
    count: usize,
    outcomes: &mut Vec<Outcome>,
    signals: &Signals,
) -> Result<(), Fault>
    ensures { OnOk result (Asks caller.old caller.new [] [] outcomes.old.items outcomes.new.items) }
{
    for _ in rt.forever() {
        if outcomes.len() >= count {
            return Ok(());
        }
        take_or_wait(rt, caller, outcomes, signals)?;
    }
    unreachable!()
}

/// Submits requests in order, and gives their numbers.
fn submit_all<R: Wait>(
    rt: &R,
    alloc: Global,
    caller: &mut Caller,
    asks: Vec<Ask>,
    outcomes: &mut Vec<Outcome>,
    signals: &Signals,
) -> Result<Vec<u64>, Fault>
    ensures { IfOk result (λ ns. Asks caller.old caller.new asks.items ns.items
        outcomes.old.items outcomes.new.items) }
{
    let mut numbers = Vec::new(alloc);
    for ask in asks {
        let number = submit(rt, caller, ask, outcomes, signals)?;
        numbers.push(number)?;
    }
    Ok(numbers)
}

/// Puts outcomes in the order of their numbers.
fn in_order(outcomes: Vec<Outcome>) -> Vec<Outcome>
    ensures { IsPermutation outcomes.items result.items }
{
    let mut sorted = outcomes;
    sorted.sort_unstable_by_key(|outcome| outcome.number);
    sorted
}

/// Whether these outcomes answer the requests of these numbers, each the one at its place. By the headline they do;
/// comparing them lets the clause stand in the caller's own thread.
fn answer_all(numbers: &[u64], outcomes: &[Outcome]) -> Result<(), Cause>
    ensures answers { OnOk result (AreAnswers numbers.now outcomes.now) }
    ensures others { IfErr result (λ cause. (cause ≡ OtherOutcomes) × (AreAnswers numbers.now outcomes.now → ⊥)) }
{
    if numbers.len() != outcomes.len() {
        return Err(Cause::OtherOutcomes);
    }
    for i in 0..numbers.len() {
        if outcomes[i].number != numbers[i] {
            return Err(Cause::OtherOutcomes);
        }
    }
    Ok(())
}

/// Submits requests in order, taking outcomes where it is refused, and then takes outcomes until there are as many. Gives the
/// requests' numbers.
fn ask_all<R: Wait>(
    rt: &R,
    alloc: Global,
    caller: &mut Caller,
    asks: Vec<Ask>,
    outcomes: &mut Vec<Outcome>,
    signals: &Signals,
) -> Result<Vec<u64>, Fault>
    ensures { IfOk result (λ ns. Asks caller.old caller.new asks.items ns.items
        outcomes.old.items outcomes.new.items) }
{
    let numbers = submit_all(rt, alloc, caller, asks, outcomes, signals)?;
    take_all(rt, caller, numbers.len(), outcomes, signals)?;
    Ok(numbers)
}

/// Submits requests in order, and takes as many outcomes, which it gives in the order of their numbers. Given up where these aren't
/// those of the requests.
fn work_on<R: Wait>(
    rt: &R,
    alloc: Global,
    caller: &mut Caller,
    asks: Vec<Ask>,
    signals: &Signals,
) -> Result<Vec<Outcome>, Fault>
    ensures { IfOk result (λ outcomes. Works caller.old caller.new asks.items outcomes.items) }
{
    let mut outcomes = Vec::new(alloc);
    let numbers = ask_all(rt, alloc, caller, asks, &mut outcomes, signals)?;
    let outcomes = in_order(outcomes);
    answer_all(numbers.as_slice(), outcomes.as_slice())?;
    Ok(outcomes)
}

/// What a caller does in its thread.
pub fn work<R: Wait>(
    rt: &R,
    alloc: Global,
    caller: Caller,
    asks: Vec<Ask>,
    signals: Signals,
) -> Result<Worked, Fault>
    ensures { IfOk result (λ w. Works caller w.caller asks.items w.outcomes.items) }
{
    let mut caller = caller;
    let told = work_on(rt, alloc, &mut caller, asks, &signals);
    let (outcomes, caller) = beside(signals.or_give_up(rt, told), caller)?;
    Ok(Worked { caller, outcomes })
}

/// Submits a request once it can be.
fn submit_alone<R: Wait>(
    rt: &R,
    caller: &mut Caller,
    ask: Ask,
    signals: &Signals,
) -> Result<(), Fault>
    ensures { OnOk result ((caller.new.place ≡ caller.old.place) × (caller.new.got ≡ caller.old.got)
        × (asked caller.new ≡ asked caller.old ++ ask ∷ [])) }
{
    let mut left = ask;
    for _ in rt.forever() {
        match caller.submit(rt, left) {
            Ok(_) => return Ok(()),
            Err((_, back)) => left = back,
        }
        let ((), back) = beside(signals.wait_on(rt), left)?;
        left = back;
    }
    unreachable!()
}

/// Waits for an outcome.
fn next_outcome<R: Wait>(rt: &R, caller: &mut Caller, signals: &Signals) -> Result<Outcome, Fault>
    ensures stays { (caller.new.place ≡ caller.old.place) × (caller.new.submitted ≡ caller.old.submitted) }
    ensures got { IfOk result (λ o. caller.new.got ≡ caller.old.got ++ o ∷ []) }
{
    for _ in rt.forever() {
        if let Some(outcome) = caller.take() {
            return Ok(outcome);
        }
        signals.wait_on(rt)?;
    }
    unreachable!()
}

/// What an opening of this connection comes to by what it was told.
fn opened(dlci: Dlci, answer: &Answer) -> Result<(), Cause>
    ensures { result ≡ opening_end dlci answer.now }
{
    match answer {
        Answer::Opened => Ok(()),
        _ => Err(Cause::NotOpened(dlci)),
    }
}

/// Opens a connection, and waits until it is open.
fn open<R: Wait>(rt: &R, caller: &mut Caller, dlci: Dlci, signals: &Signals) -> Result<(), Fault>
    ensures { OnOk result (Opens caller.old caller.new (ask.OpenChannel dlci ∷ [])) }
{
    submit_alone(rt, caller, Ask::OpenChannel(dlci), signals)?;
    let outcome = next_outcome(rt, caller, signals)?;
    opened(dlci, &outcome.answer)?;
    Ok(())
}

/// Opens 0, and then each connection that a submission is for, in rising order, each once the one before is open.
pub fn open_all<R: Wait>(
    rt: &R,
    caller: &mut Caller,
    submissions: &[Submission],
    signals: &Signals,
) -> Result<(), Fault>
    ensures { OnOk result (OpensAll submissions.now 62 caller.old caller.new) }
{
    for number in 0..Dlci::COUNT as u8 {
        let Some(dlci) = Dlci::new(number) else {
            unreachable!();
        };
        if number == 0 || names(submissions, dlci) {
            open(rt, caller, dlci, signals)?;
        }
    }
    Ok(())
}

/// What a stop comes to by what it was told.
fn stopped(answer: &Answer) -> Result<(), Cause>
    ensures { result ≡ stop_end answer.now }
{
    match answer {
        Answer::Stopped | Answer::NoAnswer => Ok(()),
        _ => Err(Cause::NotStopped),
    }
}

/// Ends the multiplexer, and waits until it has ended.
pub fn stop<R: Wait>(rt: &R, caller: &mut Caller, signals: &Signals) -> Result<(), Fault>
    ensures { OnOk result (Stops caller.old caller.new) }
{
    submit_alone(rt, caller, Ask::Stop, signals)?;
    let outcome = next_outcome(rt, caller, signals)?;
    stopped(&outcome.answer)?;
    Ok(())
}
