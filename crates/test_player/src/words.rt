//! The words of a line.
use at_text::UrcKind;
use ctl_run::{Expected, Stop, read_script};
use modem_driver::Event;
use mux_frame::Dlci;
use serial_line::{Cut, CutLine};
use std::alloc::{AllocError, Global};
use std::str::FromStr;

/// The line that was read last is bad, in whatever part. Each line is read by itself, so it counts as line 1; `Lines::place`
/// says which it is.
pub const BAD: Stop = Stop::BadLine(1, Expected::Event);

/// The first word, and what follows it.
pub fn split(line: &str) -> (&str, &str) {
    line.split_once(' ').unwrap_or((line, ""))
}

/// What is meant, and how often: `7x100` is a hundred times 7, and `7` once.
pub fn times(word: &str) -> (&str, &str) {
    word.split_once('x').unwrap_or((word, "1"))
}

/// A number of this type.
pub fn number<T: FromStr>(word: &str) -> Result<T, Stop>
where
    T::Err: Drop,
{
    match word.parse::<T>() {
        Ok(number) => Ok(number),
        Err(_) => Err(BAD),
    }
}

pub fn dlci(word: &str) -> Result<Dlci, Stop> {
    match Dlci::new(number(word)?) {
        Some(dlci) => Ok(dlci),
        None => Err(BAD),
    }
}

pub fn kind(word: &str) -> Result<UrcKind, Stop> {
    match word {
        "RING" => Ok(UrcKind::Ring),
        "CRING" => Ok(UrcKind::Cring),
        "CREG" => Ok(UrcKind::Creg),
        "CGREG" => Ok(UrcKind::Cgreg),
        "CGEV" => Ok(UrcKind::Cgev),
        "CIEV" => Ok(UrcKind::Ciev),
        "OTHER" => Ok(UrcKind::Other),
        _ => Err(BAD),
    }
}

fn push_times(cuts: &mut Vec<Cut>, cut: Cut, times: u32) -> Result<(), AllocError> {
    for _ in 0..times {
        cuts.push(cut)?;
    }
    Ok(())
}

fn cut(word: &str) -> Result<Cut, Stop> {
    if word == "fault" {
        return Ok(Cut::Fault);
    }
    Ok(Cut::Upto(number(word)?))
}

fn push_cut(cuts: &mut Vec<Cut>, word: &str) -> Result<(), Stop> {
    let (each, times) = times(word);
    Ok(push_times(cuts, cut(each)?, number(times)?)?)
}

/// Cuts of a line: so many octets, or `fault`, each once or, as `7x100`, so often.
pub fn push_cuts(cuts: &mut Vec<Cut>, words: &str) -> Result<(), Stop> {
    for word in words.split(' ') {
        push_cut(cuts, word)?;
    }
    Ok(())
}

/// A line as `modemctl replay` reads it.
pub fn event(alloc: Global, line: &str) -> Result<Event, Stop> {
    let mut events = read_script(alloc, line.as_bytes())?;
    match events.pop() {
        Some(event) => Ok(event),
        None => Err(BAD),
    }
}

/// The octets of a line `in HEX`.
pub fn octets(alloc: Global, line: &str) -> Result<Vec<u8>, Stop> {
    match event(alloc, line)? {
        Event::Octets(octets) => Ok(octets.into_vec()),
        _ => Err(BAD),
    }
}

/// The octets of a line `in HEX` come on this one.
pub fn come(alloc: Global, to: &mut CutLine, line: &str) -> Result<(), Stop> {
    let octets = octets(alloc, line)?;
    if to.put(octets.as_slice()) < octets.len() {
        return Err(Stop::Line);
    }
    Ok(())
}
