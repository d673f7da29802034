//! The script that `replay` reads: a line for each event.
ghost use Rattle.std.specs.Prelude.{◌≡◌, ◌≢◌, ℕ, ◌≤◌, ◌++◌, List, length, IfErr, MatchOption, MatchResult, codes};
ghost use Rattle.ctl_text.specs.Input.{input_lines};
ghost use Rattle.ctl_text.specs.LineFaults.{HasFault};
ghost use Rattle.ctl_run.specs.Input.{IsReason};
ghost use Rattle.ctl_run.specs.LineFaults.{EventFault, OctetsFault, ProbeFault, TextFault, events, follows, lone_fault};
ghost use Rattle.ctl_run.specs.Script.{ArePairsOf, BeginsNone, IsNoOrder, IsNoWord, IsScript, Says, SaysNothing};
ghost use Rattle.ctl_text.specs.declared.expected.Expected.TheVariants as Fault;
ghost use Rattle.ctl_text.specs.declared.refusal.Refusal.TheVariants as Refusal;

use crate::stop::Stop;
use at_text::CommandLine;
use ctl_text::{Expected, Refusal, connection_of, first_word, last_connection, next_line};
use modem_desk::{Ask, Request};
use modem_driver::{Event, Octets};
use mux_frame::ProbeData;
use std::alloc::Global;

/// What a line says.
#[derive(Drop)]
enum Order {
    Ask(Ask),
    Octets(Octets),
    Tick,
    Lost,
}

/// Pairs of hexadecimal digits, at least one.
fn octets_of(alloc: Global, word: &[u8]) -> Result<Octets, Refusal>
    ensures says { MatchResult result
        (λ octets. ArePairsOf octets word.now)
        (λ why. why ≢ Refusal.NoMemory → (x : List ℕ) → ArePairsOf x word.now → ⊥) }
    ensures fault { IfErr result (HasFault (OctetsFault word.now)) }
{
    let octets = hex::decode(alloc, word)?;
    if octets.is_empty() {
        return Err(Refusal::Bad(Expected::Octets));
    }
    Ok(Octets::from_vec(octets))
}

/// The same, at most 16.
fn probe_of(alloc: Global, word: &[u8]) -> Result<ProbeData, Refusal>
    ensures says { MatchResult result
        (λ octets. ArePairsOf octets word.now × (length octets ≤ 16))
        (λ why. why ≢ Refusal.NoMemory → (x : List ℕ) → ArePairsOf x word.now → length x ≤ 16 → ⊥) }
    ensures fault { IfErr result (HasFault (ProbeFault word.now)) }
{
    let octets = octets_of(alloc, word)?;
    ProbeData::new(octets.as_slice()).ok_or(Refusal::Bad(Expected::Probe))
}

/// The words after `cmd`: a connection, one blank and a command line.
fn command_of(alloc: Global, words: &[u8]) -> Result<Order, Refusal>
    ensures says { MatchResult result (Says (codes "cmd " ++ words.now))
        (λ why. why ≢ Refusal.NoMemory → SaysNothing (codes "cmd " ++ words.now)) }
    ensures fault { IfErr result (HasFault (TextFault words.now)) }
{
    let (word, text) = first_word(words);
    let dlci = connection_of(word)?;
    let line = CommandLine::new(alloc, text)?;
    Ok(Order::Ask(Ask::Command(dlci, line)))
}

/// A line of one word.
fn word_of(line: &[u8]) -> Option<Order>
    ensures { MatchOption result (IsNoWord line.now) (Says line.now) }
{
    match line {
        b"stop" => Some(Order::Ask(Ask::Stop)),
        b"tick" => Some(Order::Tick),
        b"lost" => Some(Order::Lost),
        _ => None,
    }
}

/// What isn't as it must be behind this word, where nothing stands there that has to, or something that mustn't.
fn lone_fault(word: &[u8]) -> Expected
    ensures { result ≡ lone_fault Fault.Event (follows events word.now) }
{
    match word {
        b"open" | b"close" | b"cmd" => Expected::Connection,
        b"probe" | b"in" => Expected::Octets,
        b"stop" | b"tick" | b"lost" => Expected::End,
        _ => Expected::Event,
    }
}

/// What of a line isn't as it must be, where it has no blank behind a word that wants one, and isn't one word that stands alone.
fn word_fault(line: &[u8]) -> Expected
    requires front { BeginsNone line.now }
    requires word { IsNoWord line.now }
    ensures { EventFault line.now result }
{
    let (word, _) = first_word(line);
    lone_fault(word)
}

/// A line that isn't empty.
fn order_of(alloc: Global, line: &[u8]) -> Result<Order, Refusal>
    ensures says { MatchResult result (Says line.now) (λ why. why ≢ Refusal.NoMemory → SaysNothing line.now) }
    ensures fault { IfErr result (HasFault (EventFault line.now)) }
{
    if let Some(words) = line.strip_prefix(b"open ") {
        return Ok(Order::Ask(Ask::OpenChannel(last_connection(words)?)));
    }
    if let Some(words) = line.strip_prefix(b"close ") {
        return Ok(Order::Ask(Ask::CloseChannel(last_connection(words)?)));
    }
    if let Some(words) = line.strip_prefix(b"cmd ") {
        return command_of(alloc, words);
    }
    if let Some(word) = line.strip_prefix(b"probe ") {
        return Ok(Order::Ask(Ask::Probe(probe_of(alloc, word)?)));
    }
    if let Some(word) = line.strip_prefix(b"in ") {
        return Ok(Order::Octets(octets_of(alloc, word)?));
    }
    match word_of(line) {
        Some(order) => Ok(order),
        None => Err(Refusal::Bad(word_fault(line))),
    }
}

/// The events of a script. Requests are caller 0's and have the numbers from 1 in order. Refusals: the first bad
/// line, with the first part of it that isn't as it must be; NoMemory.
pub fn read_script(alloc: Global, script: &[u8]) -> Result<Vec<Event>, Stop>
    ensures { MatchResult result (λ events. IsScript 1 (input_lines script.now) events.items)
        (IsReason IsNoOrder EventFault (input_lines script.now)) }
{
    let mut events = Vec::new(alloc);
    let mut asked = 0;
    let mut place = 0;
    let mut left = script;
    while let Some((line, rest)) = next_line(left) {
        left = rest;
        place += 1;
        if line.is_empty() {
            continue;
        }
        match order_of(alloc, line) {
            Ok(Order::Octets(octets)) => events.push(Event::Octets(octets))?,
            Ok(Order::Tick) => events.push(Event::Tick)?,
            Ok(Order::Lost) => events.push(Event::Lost)?,
            Ok(Order::Ask(ask)) => {
                asked += 1;
                events.push(Event::Ask(Request {
                    caller: 0,
                    number: asked,
                    ask,
                }))?;
            }
            Err(refusal) => return Err(Stop::at_line(place, refusal)),
        }
    }
    Ok(events)
}
