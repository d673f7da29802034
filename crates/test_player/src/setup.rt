//! What a line and its ends are made with.
use crate::lines::Player;
use crate::words::{BAD, dlci, kind, number, octets, push_cuts, split};
use at_cmds::Pin;
use at_text::{Text, UrcKind};
use ctl_run::Stop;
use modem_sim::{Modem, ModemStart, Script, Step, StepAct, Steps};
use serial_line::{Cut, CutLine};
use std::alloc::Global;
use std::mem;

/// What a line and its ends are made with:
///
/// - `n1 N`: how many octets of information a frame may have, 31 where it isn't said.
/// - `callers N`: the session's callers, 1 where it isn't said.
/// - `listen KIND`: a listener of lines of this kind.
/// - `in HEX`: octets that the line gives from the beginning.
/// - `reads CUT..`, `writes CUT..`: how much each call of a line in memory gives and takes: so many octets, or `fault`; `7x100`
///   is a hundred times 7. Behind them as much as there is.
/// - `room N`: how many octets the line in memory has room for, each way; of a pair's line how many may be under way, each way;
///   in rounds how many are carried in one, each way.
/// - `echo`: the modem echoes.
/// - `pin`: its SIM wants the PIN 1234.
/// - `signal RSSI BER`: the signal that it tells, 18 and 99 where it isn't said.
/// - `step AFTER announce D TEXT`, `step AFTER stop D`, `step AFTER go D`, `step AFTER hold D E`, `step AFTER disconnect D`,
///   `step AFTER closedown`: what the modem does of its own accord once so many commands have come. `step AFTER TIMESx ACT..`
///   stands for so many of them.
#[derive(Drop)]
pub struct Setup {
    pub alloc: Global,
    pub n1: u16,
    pub callers: u8,
    pub kinds: Vec<UrcKind>,
    input: Vec<u8>,
    reads: Vec<Cut>,
    writes: Vec<Cut>,
    pub room: usize,
    echo: bool,
    pin: bool,
    signal: (u8, u8),
    steps: Vec<Step>,
}

/// What a step does.
fn act(alloc: Global, words: &str) -> Result<StepAct, Stop> {
    let (word, rest) = split(words);
    let (first, more) = split(rest);
    match word {
        "announce" => {
            let text = Text::from(Vec::from_slice(alloc, more.as_bytes())?);
            Ok(StepAct::Announce(dlci(first)?, text))
        }
        "stop" => Ok(StepAct::Flow(dlci(rest)?, false)),
        "go" => Ok(StepAct::Flow(dlci(rest)?, true)),
        "hold" => Ok(StepAct::Hold(dlci(first)?, dlci(more)?)),
        "disconnect" => Ok(StepAct::Disconnect(dlci(rest)?)),
        "closedown" => Ok(StepAct::CloseDown),
        _ => Err(BAD),
    }
}

/// How often a step is done, and what it does.
fn times(words: &str) -> Result<(u32, &str), Stop> {
    let (first, rest) = split(words);
    match first.strip_suffix('x') {
        Some(times) => Ok((number(times)?, rest)),
        None => Ok((1, words)),
    }
}

impl Setup {
    /// One caller, no listener, a line without cuts, and a modem that does nothing of its own accord.
    pub fn new(alloc: Global) -> Setup {
        Setup {
            alloc,
            n1: 31,
            callers: 1,
            kinds: Vec::new(alloc),
            input: Vec::new(alloc),
            reads: Vec::new(alloc),
            writes: Vec::new(alloc),
            room: 4096,
            echo: false,
            pin: false,
            signal: (18, 99),
            steps: Vec::new(alloc),
        }
    }

    fn push_steps(&mut self, words: &str) -> Result<(), Stop> {
        let (after, words) = split(words);
        let after = number(after)?;
        let (times, words) = times(words)?;
        for _ in 0..times {
            let act = act(self.alloc, words)?;
            self.steps.push(Step { after, act })?;
        }
        Ok(())
    }

    fn push_input(&mut self, line: &str) -> Result<(), Stop> {
        let more = octets(self.alloc, line)?;
        self.input.extend_from_slice(more.as_slice())?;
        Ok(())
    }

    fn set_signal(&mut self, words: &str) -> Result<(), Stop> {
        let (rssi, ber) = split(words);
        self.signal = (number(rssi)?, number(ber)?);
        Ok(())
    }

    /// Takes what is a number.
    fn take_number(&mut self, word: &str, rest: &str) -> Result<bool, Stop> {
        match word {
            "n1" => self.n1 = number(rest)?,
            "callers" => self.callers = number(rest)?,
            "room" => self.room = number(rest)?,
            "signal" => self.set_signal(rest)?,
            _ => return Ok(false),
        }
        Ok(true)
    }

    /// Takes what is one of several.
    fn take_one(&mut self, word: &str, rest: &str) -> Result<bool, Stop> {
        match word {
            "listen" => self.kinds.push(kind(rest)?)?,
            "reads" => push_cuts(&mut self.reads, rest)?,
            "writes" => push_cuts(&mut self.writes, rest)?,
            "step" => self.push_steps(rest)?,
            _ => return Ok(false),
        }
        Ok(true)
    }

    /// Takes another line.
    fn take_other(&mut self, line: &str) -> Result<bool, Stop> {
        match line {
            "echo" => self.echo = true,
            "pin" => self.pin = true,
            _ if split(line).0 == "in" => self.push_input(line)?,
            _ => return Ok(false),
        }
        Ok(true)
    }

    /// The line in memory.
    pub fn line(&self) -> Result<CutLine, Stop> {
        match CutLine::new(
            self.alloc,
            self.input.as_slice(),
            self.reads.as_slice(),
            self.writes.as_slice(),
            self.room,
        ) {
            Ok(line) => Ok(line),
            Err(_) => Err(Stop::NoMemory),
        }
    }

    /// The modem.
    pub fn modem(&self) -> Result<Modem, Stop> {
        let (rssi, ber) = self.signal;
        let pin = if self.pin {
            Some(Pin::from(Vec::from_slice(self.alloc, b"1234")?))
        } else {
            None
        };
        Ok(Modem::new(self.alloc, ModemStart { pin, rssi, ber }))
    }

    /// What the modem does beside answering. Its steps are taken.
    pub fn script(&mut self) -> Script {
        let steps = mem::replace(&mut self.steps, Vec::new(self.alloc));
        Script {
            echo: self.echo,
            steps: Steps::from(steps),
        }
    }
}

/// A line that says nothing of these is the last one.
impl Player for Setup {
    fn go(&mut self, line: &str) -> Result<bool, Stop> {
        let (word, rest) = split(line);
        Ok(!self.take_number(word, rest)? && !self.take_one(word, rest)? && !self.take_other(line)?)
    }
}
