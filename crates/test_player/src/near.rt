//! A session with its callers and listeners.
use crate::desks::open_once;
use crate::lines::Host;
use crate::printing::{mark, poll, print_act, print_came, print_refused, say, wait};
use crate::setup::Setup;
use crate::words::{BAD, event, kind, number, split};
use at_text::UrcKind;
use ctl_run::Stop;
use modem_desk::{Caller, DriverEnd, Listener};
use modem_driver::{Act, Ask, Event, Outcome, Session, SessionError, SessionFault, Turn, Urc};
use results::beside;
use serial_line::SerialLine;

/// The most turns in a row.
const TURNS: u32 = 1_000_000;

/// The most outcomes that wait for a caller.
const WAITING: usize = 8;

/// A session with its callers and listeners. What it reads of a line of a script:
///
/// - `by C`: what follows is of caller C.
/// - `open D`, `close D`, `cmd D TEXT`, `probe HEX`, `stop`: the caller submits that.
/// - `tick`: a tick.
/// - `turn`: one turn, and what it answers. `run`: turns as long as they move, and what the last one answers; after `marks` it
///   stands between two marks.
/// - `poll`: a poll, and what it gives. `await`: polls until one gives an end.
/// - `take`: the caller takes an outcome, or `-` where none waits. `drain`: it takes all.
/// - `listen KIND`: the listener of that kind takes a line, or `-` where none waits. `hear N KIND`: it takes N lines at most, and
///   how many it took.
#[derive(Drop)]
pub struct Near<L: SerialLine + Drop, R: Host> {
    pub rt: R,
    pub session: Session<L, R>,
    pub callers: Vec<Caller>,
    listeners: Vec<Listener>,
    caller: usize,
    marks: bool,
}

/// How many outcomes a caller takes by now.
pub fn caller_takes(caller: &mut Caller) -> usize {
    for count in 0..WAITING {
        if caller.take().is_none() {
            return count;
        }
    }
    WAITING
}

fn fault(why: SessionError) -> Stop {
    match why {
        SessionError::BadN1 => Stop::BadN1,
        _ => Stop::NoMemory,
    }
}

fn session<L: SerialLine + Drop, R: Host>(
    rt: R,
    line: L,
    driver: DriverEnd,
    setup: &Setup,
) -> Result<Session<L, R>, Stop> {
    match Session::new(rt, setup.alloc, line, driver, setup.n1) {
        Ok(session) => Ok(session),
        Err(refused) => Err(fault(refused.why)),
    }
}

impl<L: SerialLine + Drop, R: Host> Near<L, R> {
    pub fn new(rt: R, line: L, setup: &Setup) -> Result<Near<L, R>, Stop> {
        let (driver, callers, listeners) = open_once(setup)?;
        let held = (callers, listeners);
        let (session, (callers, listeners)) = beside(session(rt, line, driver, setup), held)?;
        Ok(Near {
            rt,
            session,
            callers,
            listeners,
            caller: 0,
            marks: false,
        })
    }

    /// Makes turns as long as they move, also where memory was refused, and gives what the last one answers.
    fn turns(&mut self) -> Result<Turn, SessionFault> {
        for _ in 0..TURNS {
            match self.session.turn() {
                Ok(Turn::Moved) | Err(SessionFault::NoMemory) => {}
                other => return other,
            }
        }
        Ok(Turn::Moved)
    }

    fn run(&mut self) {
        mark(&self.rt, self.marks, "> Session::turn");
        let turn = self.turns();
        mark(&self.rt, self.marks, "<");
        print_came(&self.rt, turn);
    }

    fn submit(&mut self, ask: Ask) -> Result<(), Stop> {
        let Some(caller) = self.callers.get_mut(self.caller) else {
            return Err(BAD);
        };
        if let Err((why, _)) = caller.submit(&self.rt, ask) {
            say(&self.rt, &why);
        }
        Ok(())
    }

    fn next_outcome(&mut self) -> Result<Option<Outcome>, Stop> {
        match self.callers.get_mut(self.caller) {
            Some(caller) => Ok(caller.take()),
            None => Err(BAD),
        }
    }

    /// Prints the outcome that the caller takes, and says whether one waits.
    fn print_next(&mut self) -> Result<bool, Stop> {
        let Some(outcome) = self.next_outcome()? else {
            return Ok(false);
        };
        print_act(&self.rt, Act::Told(outcome))?;
        Ok(true)
    }

    fn take(&mut self) -> Result<(), Stop> {
        if !self.print_next()? {
            let _ = self.rt.println("-");
        }
        Ok(())
    }

    fn drain(&mut self) -> Result<(), Stop> {
        for _ in 0..WAITING {
            if !self.print_next()? {
                return Ok(());
            }
        }
        Ok(())
    }

    fn next_urc(&mut self, kind: UrcKind) -> Result<Option<Urc>, Stop> {
        for listener in self.listeners.iter_mut() {
            if listener.kind() == kind {
                return Ok(listener.take());
            }
        }
        Err(BAD)
    }

    fn listen(&mut self, word: &str) -> Result<(), Stop> {
        match self.next_urc(kind(word)?)? {
            Some(urc) => print_act(&self.rt, Act::Heard(urc)),
            None => {
                let _ = self.rt.println("-");
                Ok(())
            }
        }
    }

    /// How many lines the listener takes, and no more than so many.
    fn take_lines(&mut self, kind: UrcKind, most: u32) -> Result<u32, Stop> {
        for count in 0..most {
            if self.next_urc(kind)?.is_none() {
                return Ok(count);
            }
        }
        Ok(most)
    }

    fn hear(&mut self, words: &str) -> Result<(), Stop> {
        let (most, word) = split(words);
        let count = self.take_lines(kind(word)?, number(most)?)?;
        let _ = self.rt.println(format_args!("{count} lines"));
        Ok(())
    }

    fn ask(&mut self, line: &str) -> Result<(), Stop> {
        match event(self.rt.alloc(), line)? {
            Event::Ask(request) => self.submit(request.ask),
            _ => Err(BAD),
        }
    }

    /// Takes a line of the script.
    pub fn go(&mut self, line: &str) -> Result<(), Stop> {
        match line {
            "marks" => self.marks = true,
            "turn" => print_came(&self.rt, self.session.turn()),
            "run" => self.run(),
            "take" => self.take()?,
            "drain" => self.drain()?,
            _ => self.go_on(line)?,
        }
        Ok(())
    }

    /// The same for what else the session does.
    fn go_on(&mut self, line: &str) -> Result<(), Stop> {
        match line {
            "tick" => print_refused(&self.rt, self.session.tick()),
            "poll" => poll(&self.rt, &mut self.session)?,
            "await" => wait(&self.rt, &mut self.session)?,
            _ => self.take_words(line)?,
        }
        Ok(())
    }

    /// The same for a line of several words, and for what is submitted.
    fn take_words(&mut self, line: &str) -> Result<(), Stop> {
        match split(line) {
            ("by", caller) => {
                self.caller = number(caller)?;
                Ok(())
            }
            ("listen", word) => self.listen(word),
            ("hear", words) => self.hear(words),
            _ => self.ask(line),
        }
    }
}
