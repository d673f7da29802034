//! `bench`: callers, the driver and a simulated modem, in threads of their own.
ghost use Rattle.std.specs.Prelude.{◌≡◌, ◌≢◌, ℕ, ◌≤◌, ◌<◌, ◌⊎◌, Err, IfOk, IfSome, IsErrOf, false, true};
ghost use Rattle.std.specs.String.{string_bytes};
ghost use Rattle.ctl_run.specs.Bench.{AreSubmitted, IsNoSubmission};
ghost use Rattle.ctl_text.specs.Input.{input_lines};
ghost use Rattle.ctl_run.specs.Input.{HasBad, IsFirstBad};
ghost use Rattle.ctl_run.specs.LineFaults.{SubmissionFault};
ghost use Rattle.ctl_run.specs.Printed.{IsBenched, IsNoBench, IsPrinted};
ghost use Rattle.ctl_run.specs.Stopping.{HasGivenUp, HasStopped, IsBenchStop};
ghost use Rattle.ctl_text.specs.declared.expected.Expected.{Expected};
ghost use Rattle.ctl_run.specs.declared.stop.DialectFault.{DialectFault};
ghost use Rattle.ctl_run.specs.declared.stop.Stop.TheVariants as Stop;

mod showing;
mod submissions;

use crate::input::read_whole;
use crate::stop::Stop;
use crate::writing::{finish, give_up_explained};
use modem_bench::{Fault, Submission, run_bench};
use modem_sim::Script;
use showing::outcomes_text;
use std::alloc::{AllocGlobal, Global};
use std::io::{Read, Write};
use std::random::RandomSource;
use std::sync::Wait;
use std::thread::Threads;
use submissions::read_submissions;

impl From<Fault> for Stop {
    ghost use Rattle.std.specs.Prelude.{◌≡◌};
    ghost use Rattle.ctl_run.specs.Statuses.{stop_of};

    ghost from_gives = { λ fault stop. stop ≡ stop_of fault };

    fn from(fault: Fault) -> Stop {
        match fault {
            Fault::NoMemory => Stop::NoMemory,
            Fault::Line => Stop::Line,
            Fault::GaveUp(cause) => Stop::GaveUp(cause),
        }
    }
}

/// What the lines of an input submit.
fn submitted<I: Read>(alloc: Global, input: &mut I, callers: u8) -> Result<Vec<Submission>, Stop>
    requires { callers ≤ 8 }
    ensures ok { IfOk result
        (λ all. IfSome (I.remaining input.old) (λ text. AreSubmitted callers (input_lines text) all.items)) }
    ensures bad_line { (place : ℕ) (why : Expected) → IsErrOf result (Stop.BadLine place why)
        → IfSome (I.remaining input.old)
        (λ text. IsFirstBad (IsNoSubmission callers) (SubmissionFault callers) (input_lines text) place why) }
    ensures others { (result ≢ Err Stop.BadN1) × (result ≢ Err Stop.BadCallers) × (result ≢ Err Stop.BadCut)
        × ((fault : DialectFault) → result ≢ Err (Stop.Dialect fault)) }
    ensures no_output { result ≢ Err Stop.Output }
{
    let text = read_whole(alloc, input)?;
    let submissions = read_submissions(alloc, callers, text.as_slice())?;
    Ok(submissions)
}

/// What the callers of a bench were told, as text.
fn benched<R, I: Read>(
    rt: &R,
    alloc: Global,
    input: &mut I,
    callers: u8,
    cut: usize,
    script: Script,
) -> Result<String, Stop>
where
    R: Threads + Wait + RandomSource + AllocGlobal + Copy + Send + Drop + 'static,
    requires { (1 ≤ callers) × (callers ≤ 8) }
    ensures ok { IfOk result
        (λ text. IfSome (I.remaining input.old) (λ all. IsBenched callers cut script all (string_bytes text))) }
    ensures bad_line { (place : ℕ) (why : Expected) → IsErrOf result (Stop.BadLine place why)
        → IfSome (I.remaining input.old)
        (λ text. IsFirstBad (IsNoSubmission callers) (SubmissionFault callers) (input_lines text) place why) }
    ensures others { (result ≢ Err Stop.BadN1) × (result ≢ Err Stop.BadCallers) × (result ≢ Err Stop.BadCut)
        × ((fault : DialectFault) → result ≢ Err (Stop.Dialect fault)) }
    ensures no_output { result ≢ Err Stop.Output }
{
    let submissions = submitted(alloc, input, callers)?;
    let outcomes = run_bench(rt, alloc, submissions.as_slice(), callers, cut, script)?;
    let text = outcomes_text(alloc, outcomes.as_slice())?;
    Ok(text)
}

/// Whether a bench may have so many callers.
fn takes_callers(callers: u8) -> bool
    ensures good { result ≡ true → (1 ≤ callers) × (callers ≤ 8) }
    ensures bad { result ≡ false → (callers < 1) ⊎ (8 < callers) }
{
    (1..=8).contains(&callers)
}

/// Whether so many octets may be under way each way.
fn takes_cut(cut: usize) -> bool
    ensures good { result ≡ true → (1 ≤ cut) × (cut ≤ 4096) }
    ensures bad { result ≡ false → (cut < 1) ⊎ (4096 < cut) }
{
    (1..=4096).contains(&cut)
}

/// As `bench_run`. Where the run is to be explained, a second line on `faults` has the reason, if there is more to say.
pub fn bench_run_explained<R, I: Read, W: Write, E: Write>(
    rt: &R,
    alloc: Global,
    input: &mut I,
    output: &mut W,
    faults: &mut E,
    callers: u8,
    cut: usize,
    script: Script,
    explained: bool,
) -> u8
where
    R: Threads + Wait + RandomSource + AllocGlobal + Copy + Send + Drop + 'static,
    ensures status { result ≤ 2 }
    ensures done { result ≡ 0
        → IsPrinted (IsBenched callers cut script) (I.remaining input.old) (W.contents output.old)
        (W.contents output.new) }
    ensures stopped { result ≢ 0
        → HasStopped explained (IsBenched callers cut script) (IsBenchStop callers cut (I.remaining input.old))
        (I.remaining input.old) W.contents output.old output.new (E.contents faults.old) (E.contents faults.new)
        result }
    ensures nothing { result ≡ 1 → HasGivenUp explained output.old output.new (E.contents faults.old)
        (E.contents faults.new) result }
    ensures refused { result ≡ 2
        → IsNoBench callers cut
        ⊎ IfSome (I.remaining input.old) (λ text. HasBad (IsNoSubmission callers) (SubmissionFault callers) (input_lines text)) }
    ensures bad { result ≡ 2 → output.new ≡ output.old }
    ensures no_bench { IsNoBench callers cut → (result ≡ 2) × (input.new ≡ input.old) }
    ensures silent { result ≡ 0 → faults.new ≡ faults.old }
{
    if !takes_callers(callers) {
        return give_up_explained(faults, Stop::BadCallers, explained);
    }
    if !takes_cut(cut) {
        return give_up_explained(faults, Stop::BadCut, explained);
    }
    let built = benched(rt, alloc, input, callers, cut, script);
    finish(output, faults, built, explained)
}

/// Runs a bench: submits the lines of `input`, each caller in a thread of its own, to a driver whose line has room for
/// `cut` octets each way, with a simulated modem at its other end that has its default start and this script; and writes
/// what each line was told to `output`. The status is 0 where all is written, 1 at a fault, 2 at a bad line; at 1 and 2 it
/// says on `faults` why. It is 2 where callers aren't 1 to 8 or `cut` isn't 1 to 4096, and then nothing is read.
pub fn bench_run<R, I: Read, W: Write, E: Write>(
    rt: &R,
    alloc: Global,
    input: &mut I,
    output: &mut W,
    faults: &mut E,
    callers: u8,
    cut: usize,
    script: Script,
) -> u8
where
    R: Threads + Wait + RandomSource + AllocGlobal + Copy + Send + Drop + 'static,
    ensures status { result ≤ 2 }
    ensures done { result ≡ 0
        → IsPrinted (IsBenched callers cut script) (I.remaining input.old) (W.contents output.old)
        (W.contents output.new) }
    ensures stopped { result ≢ 0
        → HasStopped false (IsBenched callers cut script) (IsBenchStop callers cut (I.remaining input.old))
        (I.remaining input.old) W.contents output.old output.new (E.contents faults.old) (E.contents faults.new)
        result }
    ensures nothing { result ≡ 1 → HasGivenUp false output.old output.new (E.contents faults.old)
        (E.contents faults.new) result }
    ensures refused { result ≡ 2
        → IsNoBench callers cut
        ⊎ IfSome (I.remaining input.old) (λ text. HasBad (IsNoSubmission callers) (SubmissionFault callers) (input_lines text)) }
    ensures bad { result ≡ 2 → output.new ≡ output.old }
    ensures no_bench { IsNoBench callers cut → (result ≡ 2) × (input.new ≡ input.old) }
    ensures silent { result ≡ 0 → faults.new ≡ faults.old }
{
    bench_run_explained(
        rt, alloc, input, output, faults, callers, cut, script, false,
    )
}
