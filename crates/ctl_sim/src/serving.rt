//! A modem on a reader and a writer.
ghost use Rattle.std.specs.Prelude.{◌≡◌, ◌≢◌, ◌≤◌, ◌<◌, [], true, false, length, take, None, Some, Err, if◌then◌else◌, IfErr, IfOk, IsOk, MatchResult, OnErr, OnOk};
ghost use Rattle.std.specs.Result.{result_err};
ghost use Rattle.std.specs.Io.KnownBytes.{Consumes, IsAtEnd};
ghost use Rattle.ctl_text.specs.Writing.{IsBegun};
ghost use Rattle.ctl_sim.specs.Leaving.{EndsFor, IsLeftAt, IsOfReader, IsServedInPart, LeftSoFar, SaysBad};
ghost use Rattle.ctl_sim.specs.Saying.{fault_line, option_line};
ghost use Rattle.ctl_sim.specs.Serving.{HasBadOption, IsAnswered, IsBadBy, IsServed, client_modem, has_bad_pin, setting_of};
ghost use Rattle.ctl_sim.specs.Standing.{IsAtLines, setting_by};
ghost use Rattle.ctl_sim.specs.Watching.{IsCaptured, IsWatched, WatchedWhole};
ghost use Rattle.ctl_sim.specs.declared.fault.ServeFault.TheVariants as ServeFault;
ghost use Rattle.modem_sim.specs.declared.state.ModemState.{ModemState};

use crate::fault::{BadOption, ServeFault};
use crate::parts::{pass, tell};
use crate::plain::PlainMode;
use crate::server::{Answering, Mode, Setup};
use crate::watching::{Nobody, Recorder, Watcher};
use crate::writing::put;
use at_cmds::Pin;
use at_cmds::forms::is_pin;
use ctl_text::say_line;
use modem_sim::{Modem, ModemStart, OwnAnswers, Steps};
use mux_capture::Capture;
use mux_frame::N1;
use std::alloc::Global;
use std::io::{ErrorKind, Read, Write};
use std::rt::Clock;

/// How many octets are read at once.
const PIECE: usize = 4096;

/// How a modem for a client is set up.
#[derive(Drop)]
pub struct SimOptions {
    /// The N1 of a multiplexer that is entered by a line that doesn't name it, 31 to 32767.
    pub n1: u16,
    /// The PIN that its SIM wants, if it wants one, 4 to 8 digits.
    pub pin: Option<Pin>,
    /// Whether its commands are repeated until an `ATE0`.
    pub echo: bool,
    /// What the modem does of its own accord, in each multiplexer anew.
    pub steps: Steps,
    /// What it says of its own to command lines, in plain lines and in the multiplexer.
    pub answers: OwnAnswers,
}

/// Reads once, as much as there is; 0 at the end of the input. A read that was interrupted is made again.
#[tactic(auto, using(crate::proofs::Served::consumed_none, crate::proofs::Served::consumed_more))]
fn read_some<I: Read>(input: &mut I, piece: &mut [u8]) -> Result<usize, ServeFault>
    ensures bound { IfOk result (λ n. n ≤ length piece.new) }
    ensures read { IfOk result
        (λ n. Consumes (I.remaining input.old) (I.remaining input.new) (take n piece.new)) }
    ensures end { IfOk result (λ n. n ≡ 0 → 0 < length piece.new → IsAtEnd (I.remaining input.new)) }
    ensures none { OnErr result (Consumes (I.remaining input.old) (I.remaining input.new) []) }
    ensures fault { IfErr result IsOfReader }
{
    for _ in 0..u64::MAX {
        match input.read(piece) {
            Ok(count) => return Ok(count),
            Err(error) if error.kind() == ErrorKind::Interrupted => {}
            Err(_) => return Err(ServeFault::Input),
        }
    }
    Err(ServeFault::EndlessInput)
}

/// Takes all octets of the input as they come, and writes what is said to them before it reads on. What answers isn't named here,
/// so that nothing about it has to be known where it is let go.
fn serve<M: Answering, V: Watcher, I: Read, W: Write>(
    setup: &Setup,
    first: M,
    watcher: &mut V,
    input: &mut I,
    output: &mut W,
) -> Result<(), ServeFault>
    requires { M.undecided first ≡ [] }
    ensures whole { OnOk result ((m : ModemState) → M.holds (setting_by setup.now m) [] [] [] first []
        → WatchedWhole M.holds V.sees V.begins (setting_by setup.now m) (I.remaining input.old) (W.contents output.old)
        (W.contents output.new) watcher.old watcher.new) }
    ensures left { (m : ModemState) → M.holds (setting_by setup.now m) [] [] [] first []
        → LeftSoFar M.holds M.endless (setting_by setup.now m) (result_err result) (I.remaining input.old) (I.remaining input.new)
        (W.contents output.old) (W.contents output.new) }
    ensures fault { IfErr result (λ fault. fault ≢ ServeFault.Capture) }
{
    let mut now = first;
    let mut piece = [0u8; PIECE];
    let mut pending = Vec::new(setup.alloc);
    let mut out = Vec::new(setup.alloc);
    for _ in 0..u64::MAX {
        let count = read_some(input, &mut piece)?;
        if count == 0 {
            tell(watcher, pending.as_slice(), out.as_slice(), None);
            return Ok(());
        }
        now = pass(setup, now, watcher, &piece[..count], &mut pending, &mut out)?;
        put(output, out.as_slice())?;
        out.clear();
    }
    Err(ServeFault::EndlessInput)
}

/// A modem at plain lines.
pub(crate) fn at_lines(setup: &Setup, modem: Modem) -> Mode
    ensures { IsAtLines setup.now modem result }
{
    Mode::Lines(PlainMode::new(setup.alloc, setup.n1, modem))
}

/// The same, from plain lines on.
fn serve_client<V: Watcher, I: Read, W: Write>(
    setup: &Setup,
    modem: Modem,
    watcher: &mut V,
    input: &mut I,
    output: &mut W,
) -> Result<(), ServeFault>
    ensures answered { OnOk result (IsAnswered (setting_by setup.now modem) (I.remaining input.old)
        (W.contents output.old) (W.contents output.new)) }
    ensures watched { OnOk result (IsWatched V.sees V.begins (setting_by setup.now modem) (I.remaining input.old)
        (W.contents output.old) (W.contents output.new) watcher.old watcher.new) }
    ensures left { IsLeftAt (setting_by setup.now modem) (result_err result) (I.remaining input.old) (I.remaining input.new)
        (W.contents output.old) (W.contents output.new) }
    ensures fault { IfErr result (λ fault. fault ≢ ServeFault.Capture) }
{
    serve(setup, at_lines(setup, modem), watcher, input, output)
}

/// Whether a PIN isn't 4 to 8 digits.
fn has_bad_pin(pin: &Option<Pin>) -> bool
    ensures { result ≡ has_bad_pin pin.now }
{
    match pin {
        Some(pin) => !is_pin(pin.as_slice()),
        None => false,
    }
}

/// Says why it ended, and gives the status.
fn give_up<E: Write>(faults: &mut E, fault: ServeFault) -> u8
    ensures status { result ≡ 1 }
    ensures said { IsBegun (E.contents faults.old) (E.contents faults.new) (fault_line fault) }
{
    say_line(faults, fault.words(), "", "");
    1
}

/// Says why it isn't begun, and gives the status.
pub(crate) fn refuse<E: Write>(faults: &mut E, why: BadOption) -> u8
    ensures status { result ≡ 2 }
    ensures said { IsBegun (E.contents faults.old) (E.contents faults.new) (option_line why) }
{
    say_line(faults, why.words(), "", "");
    2
}

/// What serves a client by these options.
pub(crate) fn begin(alloc: Global, options: SimOptions) -> Result<(Setup, Modem), BadOption>
    ensures { MatchResult result (λ r. (HasBadOption options → ⊥) × (setting_by r.0 r.1 ≡ setting_of options))
        (λ why. HasBadOption options × IsBadBy options why) }
{
    let SimOptions {
        n1,
        pin,
        echo,
        steps,
        answers,
    } = options;
    let Some(n1) = N1::new(n1) else {
        return Err(BadOption::N1);
    };
    if has_bad_pin(&pin) {
        return Err(BadOption::Pin);
    }
    let start = ModemStart {
        pin,
        rssi: 18,
        ber: 99,
    };
    let mut modem = Modem::with_words(alloc, start, echo);
    modem.answer_by(answers);
    Ok((Setup { alloc, n1, steps }, modem))
}

/// Says why it ended before its input, if it did, and gives the status.
fn end<E: Write>(faults: &mut E, served: Result<(), ServeFault>) -> u8
    ensures well { OnOk served ((result ≡ 0) × (faults.new ≡ faults.old)) }
    ensures said { IfErr served (λ fault. (result ≡ 1)
        × IsBegun (E.contents faults.old) (E.contents faults.new) (fault_line fault)) }
{
    match served {
        Ok(()) => 0,
        Err(fault) => give_up(faults, fault),
    }
}

/// A modem with words for a client that writes `input` and reads `output`: it answers command lines until one enters the multiplexer,
/// `AT+CMUX=0` with or without further parameters (27.007, 5.7); then it is the other end of the multiplexer until a CLD or a DISC on
/// 0 closes that down; then it answers command lines again, as the same modem. What is said to the octets of `input` is written before
/// it reads on.
///
/// The status is 0 at the end of the input, 1 at a fault, 2 where N1 isn't 31 to 32767 or the PIN isn't 4 to 8 digits, and then nothing
/// is read; at 1 and 2 it says on `faults` why. At 1 all that was read was answered. Where memory was refused, the simulated modem
/// goes on without an end, or the writer failed, the last piece of at most 4096 octets wasn't: of its answer a beginning may be
/// written.
pub fn sim_run<I: Read, W: Write, E: Write>(
    alloc: Global,
    input: &mut I,
    output: &mut W,
    faults: &mut E,
    options: SimOptions,
) -> u8
    ensures status { result ≤ 2 }
    ensures served { result ≡ 0 → IsServed options (I.remaining input.old) (W.contents output.old)
        (W.contents output.new) }
    ensures left { result ≡ 1 → IsServedInPart options (I.remaining input.old) (I.remaining input.new)
        (W.contents output.old) (W.contents output.new) }
    ensures said { result ≡ 1 → EndsFor ⊥ options (I.remaining input.old) (I.remaining input.new) (W.contents output.old)
        (W.contents output.new) (E.contents faults.old) (E.contents faults.new) }
    ensures refused { result ≡ 2 → HasBadOption options }
    ensures bad { HasBadOption options → (result ≡ 2) × (input.new ≡ input.old) × (output.new ≡ output.old) }
    ensures told { result ≡ 2 → SaysBad options (E.contents faults.old) (E.contents faults.new) }
    ensures silent { result ≡ 0 → faults.new ≡ faults.old }
{
    match begin(alloc, options) {
        Ok((setup, modem)) => {
            let served = serve_client(&setup, modem, &mut Nobody, input, output);
            end(faults, served)
        }
        Err(why) => refuse(faults, why),
    }
}

/// What a capture came to beside what was served.
fn captured(served: Result<(), ServeFault>, failed: bool) -> Result<(), ServeFault>
    ensures well { OnOk served (result ≡ if failed then Err ServeFault.Capture else served) }
    ensures fault { OnErr served (result ≡ served) }
{
    served?;
    if failed {
        return Err(ServeFault::Capture);
    }
    Ok(())
}

/// As `sim_run`, and captures the frames of all that is read and written, each way, in the order in which they pass and with their
/// times. What follows a line that enters the multiplexer, and the answer to it, is read with the N1 of that entry. Octets of the client
/// are captured once it is known what they are. An answer is captured before it is written. At the end what could still become a frame
/// is captured as damage, so that nothing but flags is missing. It gives the capture back. Where the capture can't be written, the client
/// is served to the end, and the status is 1.
pub fn sim_captured<K: Clock, I: Read, W: Write, E: Write, C: Write>(
    clock: &K,
    alloc: Global,
    input: &mut I,
    output: &mut W,
    faults: &mut E,
    options: SimOptions,
    capture: Capture<C>,
) -> (u8, Capture<C>)
    ensures status { result.0 ≤ 2 }
    ensures served { result.0 ≡ 0 → IsServed options (I.remaining input.old) (W.contents output.old)
        (W.contents output.new) }
    ensures captured { result.0 ≡ 0 → IsCaptured options (I.remaining input.old) (W.contents output.old)
        (W.contents output.new) capture result.1 }
    ensures left { result.0 ≡ 1 → IsServedInPart options (I.remaining input.old) (I.remaining input.new)
        (W.contents output.old) (W.contents output.new) }
    ensures said { result.0 ≡ 1 → EndsFor
        (IsServed options (I.remaining input.old) (W.contents output.old) (W.contents output.new) × (result.1.failed ≡ true))
        options (I.remaining input.old) (I.remaining input.new) (W.contents output.old) (W.contents output.new)
        (E.contents faults.old) (E.contents faults.new) }
    ensures refused { result.0 ≡ 2 → HasBadOption options }
    ensures bad { HasBadOption options → (result.0 ≡ 2) × (input.new ≡ input.old) × (output.new ≡ output.old)
        × (result.1 ≡ capture) }
    ensures told { result.0 ≡ 2 → SaysBad options (E.contents faults.old) (E.contents faults.new) }
    ensures sound { result.0 ≡ 0 → result.1.failed ≡ false }
    ensures silent { result.0 ≡ 0 → faults.new ≡ faults.old }
{
    match begin(alloc, options) {
        Ok((setup, modem)) => {
            let mut recorder = Recorder::new(clock, capture);
            let served = serve_client(&setup, modem, &mut recorder, input, output);
            let capture = recorder.finish();
            let ended = captured(served, capture.has_failed());
            (end(faults, ended), capture)
        }
        Err(why) => (refuse(faults, why), capture),
    }
}
