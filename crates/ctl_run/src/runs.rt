//! The subcommands, each over a reader and two writers.
ghost use Rattle.std.specs.Prelude.{◌≡◌, ◌≢◌, ℕ, ◌≤◌, ◌<◌, ◌⊎◌, map, Ok, Err, IfOk, IfSome, IsErrOf, OnErr, MatchResult, true, false};
ghost use Rattle.std.specs.String.{string_bytes};
ghost use Rattle.mux_frame.specs.Spelling.{IsBadN1};
ghost use Rattle.mux_frame.specs.Frames.{kept_frame};
ghost use Rattle.mux_frame.specs.Reading.{Reads};
ghost use Rattle.modem_history.specs.Acts.{act_of};
ghost use Rattle.modem_core.specs.Replays.{Replays, requests};
ghost use Rattle.modem_history.specs.Wholes.{UsesOnce};
ghost use Rattle.ctl_run.specs.Dump.{IsNoDump};
ghost use Rattle.ctl_text.specs.Input.{input_lines};
ghost use Rattle.ctl_run.specs.Input.{HasBad, IsFirstBad};
ghost use Rattle.ctl_run.specs.LineFaults.{DumpFault, EventFault};
ghost use Rattle.ctl_run.specs.Printed.{IsFramed, IsPrinted, IsReplayed};
ghost use Rattle.ctl_run.specs.Script.{IsNoOrder};
ghost use Rattle.ctl_run.specs.Stopping.{HasGivenUp, HasStopped, IsRunStop};
ghost use Rattle.modem_bench.specs.declared.cause.Cause.{Cause};
ghost use Rattle.ctl_text.specs.declared.expected.Expected.{Expected};
ghost use Rattle.ctl_run.specs.declared.stop.DialectFault.{DialectFault};
ghost use Rattle.ctl_run.specs.declared.stop.Stop.TheVariants as Stop;

use crate::dump::read_dump;
use crate::framing::read_frames;
use crate::input::read_whole;
use crate::script::read_script;
use crate::stop::Stop;
use crate::texts::{acts_text, frames_text};
use crate::writing::{finish, give_up_explained};
use modem_driver::{Act, CoreError, Event, replay};
use mux_frame::{FrameBuf, FrameError, N1};
use std::alloc::{AllocError, Global};
use std::io::{Read, Write};

/// What events come to.
fn acts_of(alloc: Global, n1: N1, events: &[Event]) -> Result<Vec<Act>, AllocError>
    ensures { IfOk result
        (λ acts. UsesOnce (requests events.now) → Replays n1.octets events.now (map act_of acts.items)) }
{
    match replay(alloc, n1.octets, events) {
        Ok(acts) => Ok(acts),
        Err(CoreError::NoMemory) => Err(AllocError),
        Err(CoreError::BadN1 | CoreError::NoRoom) => unreachable!(),
    }
}

/// What octets are read as: frames, and the octets of the rest.
fn frames_of(alloc: Global, n1: N1, octets: &[u8]) -> Result<(Vec<FrameBuf>, Vec<u8>), AllocError>
    ensures { IfOk result (λ read. Reads n1.octets octets.now (map kept_frame read.0.items) read.1.items) }
{
    match read_frames(alloc, n1, octets) {
        Ok(read) => Ok(read),
        Err(FrameError::NoMemory) => Err(AllocError),
        Err(FrameError::BadN1 | FrameError::TooLong) => unreachable!(),
    }
}

/// The acts that a script comes to, as text.
fn replayed<R: Read>(alloc: Global, input: &mut R, n1: N1) -> Result<String, Stop>
    ensures ok { IfOk result
        (λ text. IfSome (R.remaining input.old) (λ all. IsReplayed n1.octets all (string_bytes text))) }
    ensures bad_line { (place : ℕ) (why : Expected) → IsErrOf result (Stop.BadLine place why)
        → IfSome (R.remaining input.old) (λ text. IsFirstBad IsNoOrder EventFault (input_lines text) place why) }
    ensures others { (result ≢ Err Stop.BadN1) × (result ≢ Err Stop.BadCallers) × (result ≢ Err Stop.BadCut)
        × ((fault : DialectFault) → result ≢ Err (Stop.Dialect fault)) }
    ensures no_line { (result ≢ Err Stop.Line) × ((cause : Cause) → result ≢ Err (Stop.GaveUp cause)) }
    ensures no_output { result ≢ Err Stop.Output }
{
    let script = read_whole(alloc, input)?;
    let events = read_script(alloc, script.as_slice())?;
    let acts = acts_of(alloc, n1, events.as_slice())?;
    let text = acts_text(alloc, acts.as_slice())?;
    Ok(text)
}

/// The frames that octets are read as, and the rest, as text.
fn framed<R: Read>(alloc: Global, input: &mut R, n1: N1) -> Result<String, Stop>
    ensures ok { IfOk result
        (λ text. IfSome (R.remaining input.old) (λ all. IsFramed n1.octets all (string_bytes text))) }
    ensures bad_line { (place : ℕ) (why : Expected) → IsErrOf result (Stop.BadLine place why)
        → IfSome (R.remaining input.old) (λ text. IsFirstBad IsNoDump DumpFault (input_lines text) place why) }
    ensures others { (result ≢ Err Stop.BadN1) × (result ≢ Err Stop.BadCallers) × (result ≢ Err Stop.BadCut)
        × ((fault : DialectFault) → result ≢ Err (Stop.Dialect fault)) }
    ensures no_line { (result ≢ Err Stop.Line) × ((cause : Cause) → result ≢ Err (Stop.GaveUp cause)) }
    ensures no_output { result ≢ Err Stop.Output }
{
    let dump = read_whole(alloc, input)?;
    let octets = read_dump(alloc, dump.as_slice())?;
    let (frames, rest) = frames_of(alloc, n1, octets.as_slice())?;
    let text = frames_text(alloc, frames.as_slice(), rest.as_slice())?;
    Ok(text)
}

/// As `replay_run`. Where the run is to be explained, a second line on `faults` has the reason, if there is more to say.
pub fn replay_run_explained<R: Read, W: Write, E: Write>(
    alloc: Global,
    input: &mut R,
    output: &mut W,
    faults: &mut E,
    n1: u16,
    explained: bool,
) -> u8
    ensures status { result ≤ 2 }
    ensures done { result ≡ 0
        → IsPrinted (IsReplayed n1) (R.remaining input.old) (W.contents output.old) (W.contents output.new) }
    ensures stopped { result ≢ 0 → HasStopped explained (IsReplayed n1) (IsRunStop n1 IsNoOrder EventFault (R.remaining input.old))
        (R.remaining input.old) W.contents output.old output.new (E.contents faults.old) (E.contents faults.new)
        result }
    ensures nothing { result ≡ 1 → HasGivenUp explained output.old output.new (E.contents faults.old)
        (E.contents faults.new) result }
    ensures refused { result ≡ 2
        → IsBadN1 n1
        ⊎ IfSome (R.remaining input.old) (λ text. HasBad IsNoOrder EventFault (input_lines text)) }
    ensures bad { result ≡ 2 → output.new ≡ output.old }
    ensures bad_n1 { IsBadN1 n1 → (result ≡ 2) × (input.new ≡ input.old) }
    ensures silent { result ≡ 0 → faults.new ≡ faults.old }
{
    let Some(n1) = N1::new(n1) else {
        return give_up_explained(faults, Stop::BadN1, explained);
    };
    let built = replayed(alloc, input, n1);
    finish(output, faults, built, explained)
}

/// Replays the script of `input`, and writes the acts to `output`. The status is 0 where all of them are
/// written, 1 at a fault, 2 at a bad line; at 1 and 2 it says on `faults` why, in one line. It is also 2 where N1 isn't 31 to 32767,
/// and then nothing is read.
pub fn replay_run<R: Read, W: Write, E: Write>(
    alloc: Global,
    input: &mut R,
    output: &mut W,
    faults: &mut E,
    n1: u16,
) -> u8
    ensures status { result ≤ 2 }
    ensures done { result ≡ 0
        → IsPrinted (IsReplayed n1) (R.remaining input.old) (W.contents output.old) (W.contents output.new) }
    ensures stopped { result ≢ 0 → HasStopped false (IsReplayed n1) (IsRunStop n1 IsNoOrder EventFault (R.remaining input.old))
        (R.remaining input.old) W.contents output.old output.new (E.contents faults.old) (E.contents faults.new)
        result }
    ensures nothing { result ≡ 1 → HasGivenUp false output.old output.new (E.contents faults.old)
        (E.contents faults.new) result }
    ensures refused { result ≡ 2
        → IsBadN1 n1
        ⊎ IfSome (R.remaining input.old) (λ text. HasBad IsNoOrder EventFault (input_lines text)) }
    ensures bad { result ≡ 2 → output.new ≡ output.old }
    ensures bad_n1 { IsBadN1 n1 → (result ≡ 2) × (input.new ≡ input.old) }
    ensures silent { result ≡ 0 → faults.new ≡ faults.old }
{
    replay_run_explained(alloc, input, output, faults, n1, false)
}

/// As `frames_run`. Where the run is to be explained, a second line on `faults` has the reason, if there is more to say.
pub fn frames_run_explained<R: Read, W: Write, E: Write>(
    alloc: Global,
    input: &mut R,
    output: &mut W,
    faults: &mut E,
    n1: u16,
    explained: bool,
) -> u8
    ensures status { result ≤ 2 }
    ensures done { result ≡ 0
        → IsPrinted (IsFramed n1) (R.remaining input.old) (W.contents output.old) (W.contents output.new) }
    ensures stopped { result ≢ 0 → HasStopped explained (IsFramed n1) (IsRunStop n1 IsNoDump DumpFault (R.remaining input.old))
        (R.remaining input.old) W.contents output.old output.new (E.contents faults.old) (E.contents faults.new)
        result }
    ensures nothing { result ≡ 1 → HasGivenUp explained output.old output.new (E.contents faults.old)
        (E.contents faults.new) result }
    ensures refused { result ≡ 2
        → IsBadN1 n1
        ⊎ IfSome (R.remaining input.old) (λ text. HasBad IsNoDump DumpFault (input_lines text)) }
    ensures bad { result ≡ 2 → output.new ≡ output.old }
    ensures bad_n1 { IsBadN1 n1 → (result ≡ 2) × (input.new ≡ input.old) }
    ensures silent { result ≡ 0 → faults.new ≡ faults.old }
{
    let Some(n1) = N1::new(n1) else {
        return give_up_explained(faults, Stop::BadN1, explained);
    };
    let built = framed(alloc, input, n1);
    finish(output, faults, built, explained)
}

/// Reads the octets of `input` as frames, and writes these and the rest to `output`. The status is as that of
/// `replay_run`.
pub fn frames_run<R: Read, W: Write, E: Write>(
    alloc: Global,
    input: &mut R,
    output: &mut W,
    faults: &mut E,
    n1: u16,
) -> u8
    ensures status { result ≤ 2 }
    ensures done { result ≡ 0
        → IsPrinted (IsFramed n1) (R.remaining input.old) (W.contents output.old) (W.contents output.new) }
    ensures stopped { result ≢ 0 → HasStopped false (IsFramed n1) (IsRunStop n1 IsNoDump DumpFault (R.remaining input.old))
        (R.remaining input.old) W.contents output.old output.new (E.contents faults.old) (E.contents faults.new)
        result }
    ensures nothing { result ≡ 1 → HasGivenUp false output.old output.new (E.contents faults.old)
        (E.contents faults.new) result }
    ensures refused { result ≡ 2
        → IsBadN1 n1
        ⊎ IfSome (R.remaining input.old) (λ text. HasBad IsNoDump DumpFault (input_lines text)) }
    ensures bad { result ≡ 2 → output.new ≡ output.old }
    ensures bad_n1 { IsBadN1 n1 → (result ≡ 2) × (input.new ≡ input.old) }
    ensures silent { result ≡ 0 → faults.new ≡ faults.old }
{
    frames_run_explained(alloc, input, output, faults, n1, false)
}
