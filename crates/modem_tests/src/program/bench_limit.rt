//! When a bench is given up, and when it isn't.
use super::bench;
use super::gate::{step, submission};
use modem_bench::{Cause, Fault, Limits, Submission, run_bench_limited};
use modem_sim::{Script, StepAct, Steps};
use mux_frame::Dlci;
use std::alloc::{AllocError, AllocGlobal, Global};
use std::process::Abort;
use std::random::RandomSource;
use std::sync::Wait;
use std::test::Fail;
use std::thread::Threads;

// A modem that does this once so many command lines have come.
fn script_of(alloc: Global, after: u64, act: StepAct) -> Result<Script, AllocError> {
    Ok(Script {
        echo: false,
        steps: Steps::from(Vec::from_array(alloc, [step(after, act)])?),
    })
}

// The same text, so many times.
fn repeated(alloc: Global, text: &[u8], count: usize) -> Result<Vec<u8>, AllocError> {
    let mut all = Vec::new(alloc);
    for _ in 0..count {
        all.extend_from_slice(text)?;
    }
    Ok(all)
}

// How many outcomes of caller 0 stand in a text: each begins a line with the caller's number.
fn outcomes(text: &[u8]) -> usize {
    let mut count = 0_usize;
    for line in text.split(|octet| *octet == b'\n') {
        if line.starts_with(b"0 ") {
            count = count.saturating_add(1);
        }
    }
    count
}

// One caller is told so many outcomes, with room for 64 octets each way.
fn expect_told<R>(rt: &R, submitted: &[u8], script: Script, count: usize)
where
    R: Threads + Wait + RandomSource + AllocGlobal + Abort + Copy + Send + Drop + 'static,
{
    let (status, output, faults) = bench(rt, submitted, 1, 64, script);
    assert!(rt; faults.is_empty());
    assert!(rt; status == 0);
    assert!(rt; outcomes(output.as_slice()) == count);
}

// The modem closes the connection behind the first command. So all that are submitted later are told so at once, and no octet moves
// on the line for them.
fn expect_all_told<R>(rt: &R, count: usize) -> Result<(), Fail>
where
    R: Threads + Wait + RandomSource + AllocGlobal + Abort + Copy + Send + Drop + 'static,
{
    let text = repeated(rt.alloc(), b"0 1 AT\n", count)?;
    let act = StepAct::Disconnect(Dlci::new(1).unwrap());
    let script = script_of(rt.alloc(), 1, act)?;
    expect_told(rt, text.as_slice(), script, count);
    Ok(())
}

#[test]
fn a_bench_goes_on_while_its_callers_are_told_without_an_octet(
    rt: HostRuntime,
) -> Result<(), Fail> {
    expect_all_told(&rt, 6_000)?;
    expect_all_told(&rt, 12_000)
}

// One caller asks on connection 1. Connection 2 is opened too, but its caller isn't there.
fn submissions(alloc: Global, one: Dlci, two: Dlci) -> Result<[Submission; 2], Fail> {
    Ok([submission(alloc, 0, one)?, submission(alloc, 7, two)?])
}

// The modem holds the answer on connection 1 back until a command comes on connection 2. None does.
#[test]
fn a_bench_in_which_nothing_moves_is_given_up(rt: HostRuntime) -> Result<(), Fail> {
    let (one, two) = (Dlci::new(1).unwrap(), Dlci::new(2).unwrap());
    let submissions = submissions(rt.alloc(), one, two)?;
    let script = script_of(rt.alloc(), 0, StepAct::Hold(one, two))?;
    let limits = Limits {
        polls: 10_000_000,
        still: 5,
    };
    let ended = run_bench_limited(&rt, rt.alloc(), &submissions, 1, 64, script, limits);
    assert!(rt; matches!(ended, Err(Fault::GaveUp(Cause::Quiet))));
    Ok(())
}
