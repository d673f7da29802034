//! Callers, connections and the driver side by side.
use super::{End, bench, expect};
use at_text::CommandLine;
use modem_bench::{Cause, Fault, Submission, run_bench_within};
use modem_sim::{Script, Step, StepAct, Steps};
use mux_frame::Dlci;
use std::alloc::{AllocError, AllocGlobal, Global};
use std::process::Abort;
use std::random::RandomSource;
use std::sync::Wait;
use std::test::Fail;
use std::thread::Threads;

// Two commands on two connections, and what they come to.
const TWO: &[u8] = b"0 1 AT+CSQ\n1 2 AT+CGATT?\n";

const TWO_TOLD: &[u8] = b"0 1 done\n| +CSQ: 18,99\n| OK\n1 1 done\n| +CGATT: 0\n| OK\n";

// So many octets may be under way each way.
const CUTS: [usize; 3] = [1, 7, 64];

// What a modem does beside answering.
#[derive(Clone, Copy)]
enum Own {
    Echoes,
    // It ends the multiplexer once connection 0 is open, so that connection 1 isn't opened.
    Ends,
    // It holds an answer on either connection back until a command has come on the other.
    HoldsBack,
}

pub fn step(after: u64, act: StepAct) -> Step {
    Step { after, act }
}

fn steps(alloc: Global, own: Own) -> Result<Vec<Step>, AllocError> {
    let (one, two) = (Dlci::new(1).unwrap(), Dlci::new(2).unwrap());
    let mut steps = Vec::new(alloc);
    match own {
        Own::Echoes => {}
        Own::Ends => steps.push(step(0, StepAct::CloseDown))?,
        Own::HoldsBack => {
            steps.push(step(0, StepAct::Hold(one, two)))?;
            steps.push(step(0, StepAct::Hold(two, one)))?;
        }
    }
    Ok(steps)
}

fn script(alloc: Global, own: Own) -> Result<Script, AllocError> {
    Ok(Script {
        echo: matches!(own, Own::Echoes),
        steps: Steps::from(steps(alloc, own)?),
    })
}

// Two callers come to this on such a line.
fn expect_two<R>(rt: &R, cut: usize, script: Script, want: End<'_>)
where
    R: Threads + Wait + RandomSource + AllocGlobal + Abort + Copy + Send + Drop + 'static,
{
    let (status, output, faults) = bench(rt, TWO, 2, cut, script);
    expect(rt, (status, output.as_slice(), faults.as_slice()), want);
}

// So they do on each line, with this modem.
fn expect_each<R>(rt: &R, own: Own, want: End<'_>) -> Result<(), Fail>
where
    R: Threads + Wait + RandomSource + AllocGlobal + Abort + Copy + Send + Drop + 'static,
{
    for cut in CUTS {
        expect_two(rt, cut, script(rt.alloc(), own)?, want);
    }
    Ok(())
}

#[test]
fn a_modem_may_echo(rt: HostRuntime) -> Result<(), Fail> {
    expect_each(&rt, Own::Echoes, (0, TWO_TOLD, b""))
}

#[test]
fn a_modem_that_ends_the_multiplexer_is_given_up(rt: HostRuntime) -> Result<(), Fail> {
    expect_each(&rt, Own::Ends, (1, b"", b"fault: gave up\n"))
}

#[test]
fn connections_and_callers_run_side_by_side(rt: HostRuntime) -> Result<(), Fail> {
    expect_each(&rt, Own::HoldsBack, (0, TWO_TOLD, b""))
}

// The caller of this number asks on this connection.
pub fn submission(alloc: Global, caller: u8, dlci: Dlci) -> Result<Submission, Fail> {
    let line = CommandLine::new(alloc, b"AT+CSQ")?;
    Ok(Submission { caller, dlci, line })
}

// One poll is too few: it makes 64 turns, each of which moves one octet each way at most, and an opening waits for its answer.
#[test]
fn a_bench_is_given_up_when_its_polls_are_used_up(rt: HostRuntime) -> Result<(), Fail> {
    let submission = submission(rt.alloc(), 0, Dlci::new(1).unwrap())?;
    let script = Script {
        echo: false,
        steps: Steps::from(Vec::new(rt.alloc())),
    };
    let ended = run_bench_within(&rt, rt.alloc(), &[submission], 1, 1, script, 1);
    assert!(rt; matches!(ended, Err(Fault::GaveUp(Cause::UsedUp))));
    Ok(())
}
