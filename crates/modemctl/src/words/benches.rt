//! A bench by the words.
ghost use Rattle.std.specs.Prelude.{◌≡◌, ◌≤◌};
ghost use Rattle.ctl_run.specs.Printed.{IsBenched, IsPrinted};
ghost use Rattle.ctl_run.specs.Stopping.{HasGivenUp, IsBenchStop};
ghost use Rattle.modemctl.specs.Benches.{plain_script};
ghost use Rattle.modemctl.specs.Refusals.{StopsBadly};

use crate::words::numbers::Numbers;
use ctl_run::bench_run_explained;
use modem_sim::{Script, Steps};
use std::alloc::{AllocGlobal, Global};
use std::io::{Read, Write};
use std::random::RandomSource;
use std::sync::Wait;
use std::thread::Threads;

/// Runs a bench with a simulated modem that does nothing of its own accord.
pub fn bench_plain<R, I: Read, W: Write, E: Write>(
    rt: &R,
    alloc: Global,
    numbers: Numbers,
    input: &mut I,
    output: &mut W,
    faults: &mut E,
    explained: bool,
) -> u8
where
    R: Threads + Wait + RandomSource + AllocGlobal + Copy + Send + Drop + 'static,
    ensures status { result ≤ 2 }
    ensures bad { result ≡ 2 → output.new ≡ output.old }
    ensures done { result ≡ 0 → IsPrinted (IsBenched numbers.callers numbers.cut plain_script)
        (I.remaining input.old) (W.contents output.old) (W.contents output.new) }
    ensures nothing { result ≡ 1 → HasGivenUp explained output.old output.new (E.contents faults.old)
        (E.contents faults.new) result }
    ensures refused { result ≡ 2 → StopsBadly explained (IsBenchStop numbers.callers numbers.cut (I.remaining input.old))
        (E.contents faults.old) (E.contents faults.new) }
    ensures silent { result ≡ 0 → faults.new ≡ faults.old }
{
    let script = Script {
        echo: false,
        steps: Steps::from(Vec::new(alloc)),
    };
    let cut = usize::from(numbers.cut);
    bench_run_explained(
        rt,
        alloc,
        input,
        output,
        faults,
        numbers.callers,
        cut,
        script,
        explained,
    )
}
