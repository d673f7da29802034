//! The scripts on standard input, and what plays their lines.
use crate::setup::Setup;
use ctl_run::Stop;
use std::alloc::AllocGlobal;
use std::io::{Input, Print};
use std::mem;
use std::random::RandomSource;
use std::sync::Wait;

/// What a player asks of the runtime.
pub trait Host: Wait + Input + Print + AllocGlobal + RandomSource + Copy + Drop {}

impl<R: Wait + Input + Print + AllocGlobal + RandomSource + Copy + Drop> Host for R {}

/// The line between two scripts, ASCII's file separator. No script has such a line.
const SEPARATOR: &str = "\u{1c}";

/// The scripts on standard input.
#[derive(Drop)]
pub struct Lines<R: Host> {
    pub rt: R,
    /// The line that was read last, without its end.
    line: String,
    /// Its place in the script, counted from 1.
    place: u64,
    /// Whether the script may have more lines.
    goes_on: bool,
    /// Whether the script ended at a separator.
    is_followed: bool,
}

impl<R: Host> Lines<R> {
    pub fn new(rt: R) -> Lines<R> {
        Lines {
            rt,
            line: String::new(rt.alloc()),
            place: 0,
            goes_on: true,
            is_followed: false,
        }
    }

    /// Reads a line of the input, and says whether there was one.
    fn read(&mut self) -> Result<bool, Stop> {
        self.line.clear();
        let Ok(count) = self.rt.read_line(&mut self.line) else {
            return Err(Stop::Input);
        };
        if self.line.ends_with('\n') {
            self.line.pop();
        }
        Ok(count > 0)
    }

    /// Reads the next line of the script, and says whether there was one.
    pub fn next(&mut self) -> Result<bool, Stop> {
        if !self.goes_on {
            return Ok(false);
        }
        let is_there = self.read()?;
        self.is_followed = is_there && self.line.as_str() == SEPARATOR;
        self.goes_on = is_there && !self.is_followed;
        self.place = self.place.saturating_add(u64::from(self.goes_on));
        Ok(self.goes_on)
    }

    /// The line that was read last.
    pub fn line(&self) -> &str {
        self.line.as_str()
    }

    /// Its place in the script, counted from 1.
    pub fn place(&self) -> u64 {
        self.place
    }

    /// Passes over the lines that are left of the script, and says whether another script begins.
    pub fn next_script(&mut self) -> bool {
        let rt = self.rt;
        for _ in rt.forever() {
            let Ok(true) = self.next() else {
                break;
            };
        }
        self.place = 0;
        self.goes_on = mem::replace(&mut self.is_followed, false);
        self.goes_on
    }
}

/// What plays the lines of a script.
pub trait Player {
    /// Takes a line, and says whether it is the last one.
    fn go(&mut self, line: &str) -> Result<bool, Stop>;
}

/// Plays the lines that follow, and says whether one was the last one.
pub fn play_all<R: Host, P: Player>(lines: &mut Lines<R>, player: &mut P) -> Result<bool, Stop> {
    let rt = lines.rt;
    for _ in rt.forever() {
        if !lines.next()? {
            return Ok(false);
        }
        if player.go(lines.line())? {
            return Ok(true);
        }
    }
    unreachable!()
}

/// A player that a setup says how to begin.
pub trait Begins<R: Host>: Player + Drop + Sized {
    /// It begins.
    fn begin(rt: R, setup: &mut Setup) -> Result<Self, Stop>;

    /// A line was the last one.
    fn end(self) {}
}

/// Begins such a player, and plays the lines that follow. What a player holds isn't looked at here, so this proves at little cost.
pub fn play_by<R: Host, P: Begins<R>>(lines: &mut Lines<R>, setup: &mut Setup) -> Result<(), Stop> {
    let mut player = P::begin(lines.rt, setup)?;
    if play_all(lines, &mut player)? {
        player.end();
    }
    Ok(())
}
