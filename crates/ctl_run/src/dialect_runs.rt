//! A replay at a modem with codes of its own.
ghost use Rattle.std.specs.Prelude.{◌≡◌, ◌≢◌, ℕ, ◌≤◌, ◌<◌, ◌⊎◌, map, Err, IfErr, IfOk, IfSome, IsErrOf, false};
ghost use Rattle.std.specs.String.{string_bytes};
ghost use Rattle.mux_frame.specs.Spelling.{IsBadN1};
ghost use Rattle.modem_history.specs.Acts.{act_of};
ghost use Rattle.modem_history.specs.Wholes.{UsesOnce};
ghost use Rattle.modem_core.specs.DialectReplays.{ReplaysBy};
ghost use Rattle.modem_core.specs.Replays.{requests};
ghost use Rattle.ctl_text.specs.DialectTexts.{AreLinesOf};
ghost use Rattle.ctl_text.specs.Input.{input_lines};
ghost use Rattle.ctl_run.specs.Dialects.{HasText, IsDialectStop};
ghost use Rattle.ctl_run.specs.Input.{HasBad, IsFirstBad};
ghost use Rattle.ctl_run.specs.LineFaults.{EventFault};
ghost use Rattle.ctl_run.specs.Printed.{IsPrinted, IsReplayedBy};
ghost use Rattle.ctl_run.specs.Script.{IsNoOrder};
ghost use Rattle.ctl_run.specs.Stopping.{HasGivenUp, HasStopped, IsRunStop};
ghost use Rattle.modem_bench.specs.declared.cause.Cause.{Cause};
ghost use Rattle.ctl_text.specs.declared.expected.Expected.{Expected};
ghost use Rattle.ctl_run.specs.declared.stop.DialectFault.{DialectFault};
ghost use Rattle.ctl_run.specs.declared.stop.Stop.TheVariants as Stop;

use crate::input::read_whole;
use crate::script::read_script;
use crate::stop::{DialectFault, Stop};
use crate::texts::acts_text_by;
use crate::writing::{finish, give_up_explained};
use at_text::Dialect;
use ctl_text::read_dialect;
use modem_driver::{Act, CoreError, Event, replay_with_dialect};
use mux_frame::N1;
use std::alloc::{AllocError, Global};
use std::io::{Read, Write};

/// The dialect whose text `input` has, a rule a line (`ctl_text::read_dialect`). Refusals: the first bad line; NoMemory; Input,
/// where the reader fails or gives no end.
pub fn dialect_from<R: Read>(alloc: Global, input: &mut R) -> Result<Dialect, Stop>
    ensures made { IfOk result
        (λ dialect. IfSome (R.remaining input.old) (λ text. AreLinesOf (input_lines text) dialect)) }
    ensures some { IfOk result HasText }
    ensures refused { IfErr result (IsDialectStop (R.remaining input.old)) }
{
    let text = read_whole(alloc, input)?;
    let dialect = read_dialect(alloc, text.as_slice())?;
    Ok(dialect)
}

/// What events come to.
fn acts_by(
    alloc: Global,
    n1: N1,
    dialect: &Dialect,
    events: &[Event],
) -> Result<Vec<Act>, AllocError>
    ensures { IfOk result (λ acts. UsesOnce (requests events.now)
        → ReplaysBy dialect.now n1.octets events.now (map act_of acts.items)) }
{
    match replay_with_dialect(alloc, n1.octets, dialect, events) {
        Ok(acts) => Ok(acts),
        Err(CoreError::NoMemory) => Err(AllocError),
        Err(CoreError::BadN1 | CoreError::NoRoom) => unreachable!(),
    }
}

/// The acts that a script comes to, as text.
fn replayed_by<R: Read>(
    alloc: Global,
    input: &mut R,
    n1: N1,
    dialect: &Dialect,
) -> Result<String, Stop>
    ensures ok { IfOk result (λ text. IfSome (R.remaining input.old)
        (λ all. IsReplayedBy dialect.now n1.octets all (string_bytes text))) }
    ensures bad_line { (place : ℕ) (why : Expected) → IsErrOf result (Stop.BadLine place why)
        → IfSome (R.remaining input.old) (λ text. IsFirstBad IsNoOrder EventFault (input_lines text) place why) }
    ensures others { (result ≢ Err Stop.BadN1) × (result ≢ Err Stop.BadCallers) × (result ≢ Err Stop.BadCut)
        × ((fault : DialectFault) → result ≢ Err (Stop.Dialect fault)) }
    ensures no_line { (result ≢ Err Stop.Line) × ((cause : Cause) → result ≢ Err (Stop.GaveUp cause)) }
    ensures no_output { result ≢ Err Stop.Output }
{
    let script = read_whole(alloc, input)?;
    let events = read_script(alloc, script.as_slice())?;
    let acts = acts_by(alloc, n1, dialect, events.as_slice())?;
    let text = acts_text_by(alloc, dialect, acts.as_slice())?;
    Ok(text)
}

/// As `replay_with_dialect_run`. Where the run is to be explained, a second line on `faults` has the reason, if there is more to say.
pub fn replay_with_dialect_run_explained<R: Read, W: Write, E: Write>(
    alloc: Global,
    input: &mut R,
    output: &mut W,
    faults: &mut E,
    n1: u16,
    dialect: &Dialect,
    explained: bool,
) -> u8
    ensures status { result ≤ 2 }
    ensures done { result ≡ 0 → IsPrinted (IsReplayedBy dialect.now n1) (R.remaining input.old)
        (W.contents output.old) (W.contents output.new) }
    ensures stopped { result ≢ 0
        → HasStopped explained (IsReplayedBy dialect.now n1) (IsRunStop n1 IsNoOrder EventFault (R.remaining input.old))
        (R.remaining input.old) W.contents output.old output.new (E.contents faults.old) (E.contents faults.new)
        result }
    ensures nothing { result ≡ 1 → HasGivenUp explained output.old output.new (E.contents faults.old)
        (E.contents faults.new) result }
    ensures refused { result ≡ 2
        → IsBadN1 n1
        ⊎ IfSome (R.remaining input.old) (λ text. HasBad IsNoOrder EventFault (input_lines text)) }
    ensures bad { result ≡ 2 → output.new ≡ output.old }
    ensures bad_n1 { IsBadN1 n1 → (result ≡ 2) × (input.new ≡ input.old) }
    ensures silent { result ≡ 0 → faults.new ≡ faults.old }
{
    let Some(n1) = N1::new(n1) else {
        return give_up_explained(faults, Stop::BadN1, explained);
    };
    let built = replayed_by(alloc, input, n1, dialect);
    finish(output, faults, built, explained)
}

/// As `replay_run`, at a modem whose codes are those of this dialect: lines of a kind of its own are heard under its name.
pub fn replay_with_dialect_run<R: Read, W: Write, E: Write>(
    alloc: Global,
    input: &mut R,
    output: &mut W,
    faults: &mut E,
    n1: u16,
    dialect: &Dialect,
) -> u8
    ensures status { result ≤ 2 }
    ensures done { result ≡ 0 → IsPrinted (IsReplayedBy dialect.now n1) (R.remaining input.old)
        (W.contents output.old) (W.contents output.new) }
    ensures stopped { result ≢ 0
        → HasStopped false (IsReplayedBy dialect.now n1) (IsRunStop n1 IsNoOrder EventFault (R.remaining input.old))
        (R.remaining input.old) W.contents output.old output.new (E.contents faults.old) (E.contents faults.new)
        result }
    ensures nothing { result ≡ 1 → HasGivenUp false output.old output.new (E.contents faults.old)
        (E.contents faults.new) result }
    ensures refused { result ≡ 2
        → IsBadN1 n1
        ⊎ IfSome (R.remaining input.old) (λ text. HasBad IsNoOrder EventFault (input_lines text)) }
    ensures bad { result ≡ 2 → output.new ≡ output.old }
    ensures bad_n1 { IsBadN1 n1 → (result ≡ 2) × (input.new ≡ input.old) }
    ensures silent { result ≡ 0 → faults.new ≡ faults.old }
{
    replay_with_dialect_run_explained(alloc, input, output, faults, n1, dialect, false)
}
