//! The script of a simulated modem: a line for each thing that it does of its own accord.
ghost use Rattle.std.specs.Prelude.{◌≡◌, ◌≢◌, ℕ, ◌<◌, ◌^◌, ◌++◌, IfErr, MatchOption, MatchResult, codes, decimal};
ghost use Rattle.ctl_text.specs.Input.{input_lines};
ghost use Rattle.ctl_text.specs.LineFaults.{HasFault};
ghost use Rattle.ctl_run.specs.Input.{IsReason};
ghost use Rattle.ctl_run.specs.LineFaults.{AnnouncementFault, ConnectionsFault, DeedFault, StepFault, deeds, follows, lone_fault};
ghost use Rattle.ctl_run.specs.Steps.{ActsNone, AreSteps, GivesSteps, IsNoStep, SaysAct, SaysNoAct, SaysNoStep, SaysStep, StepsStop};
ghost use Rattle.ctl_text.specs.declared.expected.Expected.TheVariants as Fault;
ghost use Rattle.ctl_text.specs.declared.refusal.Refusal.TheVariants as Refusal;

use crate::input::read_whole;
use crate::stop::Stop;
use at_text::Text;
use ctl_text::{Expected, Refusal, connection_of, first_word, last_connection, next_line};
use itoa::Buffer;
use modem_sim::{Step, StepAct, Steps};
use std::alloc::Global;
use std::io::Read;
use std::str;

/// A number in decimal, without a sign and leading zeros.
fn decimal_of(text: &str) -> Option<u64>
    ensures { MatchOption result ((n : ℕ) → n < 2 ^ 64 → text.now ≢ decimal n) (λ n. text.now ≡ decimal n) }
{
    match text.parse::<u64>() {
        Ok(number) => {
            if Buffer::new().format(number) == text {
                Some(number)
            } else {
                None
            }
        }
        Err(_) => None,
    }
}

/// The same in octets.
pub(crate) fn number_of(word: &[u8]) -> Option<u64>
    ensures { MatchOption result ((n : ℕ) → n < 2 ^ 64 → word.now ≢ decimal n) (λ n. word.now ≡ decimal n) }
{
    match str::from_utf8(word) {
        Ok(text) => decimal_of(text),
        Err(_) => None,
    }
}

/// What follows `announce`: a connection, one blank and a text.
fn announce_of(alloc: Global, words: &[u8]) -> Result<StepAct, Refusal>
    ensures says { MatchResult result (SaysAct (codes "announce " ++ words.now))
        (λ why. why ≢ Refusal.NoMemory → SaysNoAct (codes "announce " ++ words.now)) }
    ensures fault { IfErr result (HasFault (AnnouncementFault words.now)) }
{
    let (word, text) = first_word(words);
    let dlci = connection_of(word)?;
    if word.len() == words.len() {
        return Err(Refusal::Bad(Expected::Text));
    }
    let line = Text::from(Vec::from_slice(alloc, text)?);
    Ok(StepAct::Announce(dlci, line))
}

/// What follows `hold`: two connections, and one blank between them.
fn hold_of(words: &[u8]) -> Result<StepAct, Refusal>
    ensures says { MatchResult result (SaysAct (codes "hold " ++ words.now))
        (λ why. why ≢ Refusal.NoMemory → SaysNoAct (codes "hold " ++ words.now)) }
    ensures fault { IfErr result (HasFault (ConnectionsFault words.now)) }
{
    let (held, awaited) = first_word(words);
    let held = connection_of(held)?;
    let awaited = last_connection(awaited)?;
    Ok(StepAct::Hold(held, awaited))
}

/// What a modem does, in one word.
fn word_of(words: &[u8]) -> Option<StepAct>
    ensures { MatchOption result (words.now ≢ codes "closedown") (SaysAct words.now) }
{
    match words {
        b"closedown" => Some(StepAct::CloseDown),
        _ => None,
    }
}

/// What isn't as it must be behind this word, where nothing stands there that has to, or something that mustn't.
fn lone_fault(word: &[u8]) -> Expected
    ensures { result ≡ lone_fault Fault.Deed (follows deeds word.now) }
{
    match word {
        _ if word == b"announce".as_slice() => Expected::Connection,
        _ if word == b"stop".as_slice() => Expected::Connection,
        _ if word == b"go".as_slice() => Expected::Connection,
        _ if word == b"hold".as_slice() => Expected::Connection,
        _ if word == b"disconnect".as_slice() => Expected::Connection,
        _ if word == b"closedown".as_slice() => Expected::End,
        _ => Expected::Deed,
    }
}

/// What of these words isn't as it must be, where they have no blank behind a word that wants one, and aren't `closedown` alone.
fn word_fault(words: &[u8]) -> Expected
    requires front { ActsNone words.now }
    requires word { words.now ≢ codes "closedown" }
    ensures { DeedFault words.now result }
{
    let (word, _) = first_word(words);
    lone_fault(word)
}

/// What a modem does.
fn act_of(alloc: Global, words: &[u8]) -> Result<StepAct, Refusal>
    ensures says { MatchResult result (SaysAct words.now) (λ why. why ≢ Refusal.NoMemory → SaysNoAct words.now) }
    ensures fault { IfErr result (HasFault (DeedFault words.now)) }
{
    if let Some(words) = words.strip_prefix(b"announce ") {
        return announce_of(alloc, words);
    }
    if let Some(words) = words.strip_prefix(b"stop ") {
        return Ok(StepAct::Flow(last_connection(words)?, false));
    }
    if let Some(words) = words.strip_prefix(b"go ") {
        return Ok(StepAct::Flow(last_connection(words)?, true));
    }
    if let Some(words) = words.strip_prefix(b"hold ") {
        return hold_of(words);
    }
    if let Some(words) = words.strip_prefix(b"disconnect ") {
        return Ok(StepAct::Disconnect(last_connection(words)?));
    }
    match word_of(words) {
        Some(act) => Ok(act),
        None => Err(Refusal::Bad(word_fault(words))),
    }
}

/// A line that isn't empty: a number of commands, one blank, and what the modem does once so many have come.
fn step_of(alloc: Global, line: &[u8]) -> Result<Step, Refusal>
    ensures says { MatchResult result (SaysStep line.now) (λ why. why ≢ Refusal.NoMemory → SaysNoStep line.now) }
    ensures fault { IfErr result (HasFault (StepFault line.now)) }
{
    let (word, words) = first_word(line);
    let Some(after) = number_of(word) else {
        return Err(Refusal::Bad(Expected::Count));
    };
    let act = act_of(alloc, words)?;
    Ok(Step { after, act })
}

/// The steps of a modem's script: those of its lines that aren't empty, in order. Refusals: the first bad line, with
/// the first part of it that isn't as it must be; NoMemory.
pub fn read_steps(alloc: Global, script: &[u8]) -> Result<Steps, Stop>
    ensures { MatchResult result (AreSteps (input_lines script.now)) (IsReason IsNoStep StepFault (input_lines script.now)) }
{
    let mut steps = Vec::new(alloc);
    let mut place = 0;
    let mut left = script;
    while let Some((line, rest)) = next_line(left) {
        left = rest;
        place += 1;
        if line.is_empty() {
            continue;
        }
        match step_of(alloc, line) {
            Ok(step) => steps.push(step)?,
            Err(refusal) => return Err(Stop::at_line(place, refusal)),
        }
    }
    Ok(Steps::from(steps))
}

/// The steps of the script that a reader has, to its end. Refusals: the first bad line, with the first part of it that isn't as it must
/// be; NoMemory; Input, where the reader fails or gives no end.
pub fn steps_from<R: Read>(alloc: Global, input: &mut R) -> Result<Steps, Stop>
    ensures { MatchResult result (GivesSteps (R.remaining input.old)) (StepsStop (R.remaining input.old)) }
{
    match read_whole(alloc, input) {
        Ok(script) => read_steps(alloc, script.as_slice()),
        Err(stop) => Err(stop),
    }
}
