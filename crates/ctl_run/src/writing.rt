//! What a run writes to its output, and what it says beside it.
ghost use Rattle.std.specs.Prelude.{◌≡◌, ◌≤◌, IfOk, MatchResult, OnErr, true};
ghost use Rattle.std.specs.Io.KnownBytes.{Appends};
ghost use Rattle.std.specs.String.{string_bytes};
ghost use Rattle.ctl_run.specs.Statuses.{status_of, stop_line, stop_lines, stop_number};
ghost use Rattle.ctl_run.specs.declared.stop.Stop.TheVariants as Stop;
ghost use Rattle.ctl_text.specs.Writing.{IsBegun};

use crate::reasons::say_reason;
use crate::stop::{DialectFault, Stop};
use ctl_text::{put_line, put_octets};
use itoa::Buffer;
use std::io::Write;

/// The number of a bad line, in decimal; else nothing.
fn number_of(stop: Stop, digits: &mut Buffer) -> &str
    ensures { result.now ≡ stop_number stop }
{
    match stop {
        Stop::BadLine(place, _)
        | Stop::Dialect(
            DialectFault::NoRule(place, _)
            | DialectFault::Refused(place, _)
            | DialectFault::Clashes(place, _),
        ) => digits.format(place),
        _ => "",
    }
}

/// Says in one line why a run ended, and whether the writer took the whole of it.
fn put_stop<E: Write>(faults: &mut E, stop: Stop) -> bool
    ensures whole { result ≡ true → Appends (E.contents faults.old) (E.contents faults.new) (stop_line stop) }
    ensures part { IsBegun (E.contents faults.old) (E.contents faults.new) (stop_line stop) }
{
    let mut digits = Buffer::new();
    let number = number_of(stop, &mut digits);
    put_line(faults, "", stop.words(), number)
}

/// Says why a run ended, with the reason on a second line where it is to be explained.
#[tactic(auto, using(crate::proofs::outputs::SaidLines::begun_line))]
fn say_stop<E: Write>(faults: &mut E, stop: Stop, explained: bool)
    ensures { IsBegun (E.contents faults.old) (E.contents faults.new) (stop_lines explained stop) }
{
    if !put_stop(faults, stop) {
        return;
    }
    if explained {
        say_reason(faults, stop);
    }
}

/// Says why a run ended, with the reason on a second line where it is to be explained, and gives the status. A writer that fails
/// doesn't change the status.
pub fn give_up_explained<E: Write>(faults: &mut E, stop: Stop, explained: bool) -> u8
    ensures status { result ≡ status_of stop }
    ensures said { IsBegun (E.contents faults.old) (E.contents faults.new) (stop_lines explained stop) }
{
    say_stop(faults, stop, explained);
    stop.status()
}

/// Says in one line why a run ended, and gives the status. A writer that fails doesn't change the status.
pub fn give_up<E: Write>(faults: &mut E, stop: Stop) -> u8
    ensures status { result ≡ status_of stop }
    ensures said { IsBegun (E.contents faults.old) (E.contents faults.new) (stop_line stop) }
{
    give_up_explained(faults, stop, false)
}

/// Writes what a run gave, or says why it gave nothing, with the reason where it is to be explained; and gives the status.
pub fn finish<W: Write, E: Write>(
    output: &mut W,
    faults: &mut E,
    built: Result<String, Stop>,
    explained: bool,
) -> u8
    ensures ended { MatchResult built (λ _. result ≤ 1) (λ stop. result ≡ status_of stop) }
    ensures written { IfOk built
        (λ text. result ≡ 0 → Appends (W.contents output.old) (W.contents output.new) (string_bytes text)) }
    ensures part { IfOk built
        (λ text. result ≡ 1 → IsBegun (W.contents output.old) (W.contents output.new) (string_bytes text)) }
    ensures nothing { OnErr built (output.new ≡ output.old) }
    ensures silent { result ≡ 0 → faults.new ≡ faults.old }
    ensures said { MatchResult built
        (λ _. result ≡ 1 → IsBegun (E.contents faults.old) (E.contents faults.new) (stop_lines explained Stop.Output))
        (λ stop. IsBegun (E.contents faults.old) (E.contents faults.new) (stop_lines explained stop)) }
{
    let text = match built {
        Ok(text) => text,
        Err(stop) => return give_up_explained(faults, stop, explained),
    };
    if put_octets(output, text.as_bytes()) {
        0
    } else {
        give_up_explained(faults, Stop::Output, explained)
    }
}
